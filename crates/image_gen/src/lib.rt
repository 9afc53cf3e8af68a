//! An image for a seed: two to five domains, each with a program of its own
//! whose instructions the seed chooses. It breaks no rule.
#![tactic(auto)]

mod generating;
pub mod laws;
mod program;
mod writing;

pub use generating::generate;
pub use tp_base::Memory;
