//! The first-level caches: of instructions, and of data with dirty marks.
#![tactic(auto)]

mod data;
mod instructions;

pub use data::L1D;
pub use instructions::L1I;
