//! The texts that the program writes, and what writes them piece by piece.
#![tactic(auto)]

mod batch;
mod bounds;
mod demo;
pub mod laws;
mod pieces;
mod report;

pub use bounds::{write_bound, write_bound_2};
pub use demo::{DemoPart, write_demo};
pub use report::{
    write_accepted, write_refusal, write_section, write_switches, write_too_long,
    write_unprotected, write_usage,
};
