//! The rules of an image's domains: their names, colours and frames, segments,
//! initial capabilities, and the calls that they may make, each with the numbers of
//! its first broken case; and what the texts of these say.
#![tactic(auto)]

mod calls;
mod capabilities;
mod colours;
pub mod laws;
mod names;
mod regions;
mod segments;

pub use calls::{calls_in, calls_of, k18};
pub use capabilities::{InitialCap, Named, caps_from, k13};
pub use colours::{k8, k9, k10};
pub use names::k7;
pub use segments::{Segment, k12};
