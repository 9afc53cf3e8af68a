//! The machine: an accepted image, loaded and run slot by slot, with all guards on or
//! with one off: the hart set of an image of one hart. Its type keeps that it stands for the
//! definition of that machine after so many slots; of `Machine`, which has all of them on, isolation is proved, and of
//! `Ablated`, which has one off, none is promised.
#![tactic(auto)]

mod ablated;
pub mod guard_laws;
mod machine;

pub use ablated::Ablated;
pub use machine::Machine;
