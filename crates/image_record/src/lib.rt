//! The record of an image, and how the test of a rule on it ends: refused with the
//! numbers of the first broken case, passed, or given up for want of memory.
#![tactic(auto)]

pub mod cases;
mod numbers;
mod raw;
mod refusal;

pub use numbers::{names, natural_of};
pub use raw::{
    Raw, RawCache, RawCosts, RawDomain, RawEntry, RawMailbox, RawMoment, RawMuldiv, RawSegment,
};
pub use refusal::{ReadRefusal, Refusal};
