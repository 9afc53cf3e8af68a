//! The words that a seed draws, one after the other.
#![tactic(auto)]

mod words;

pub use words::{draw, seeded};
