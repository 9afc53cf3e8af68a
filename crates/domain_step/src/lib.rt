//! A domain in its slot, over the memory hierarchy: one event after another, as
//! the definitions have it, at its cost to the cycle. What a machine's data stand for
//! between two slots and within one, what its switches took, whether its image has one
//! hart, and a slot in which moments of all domains come.
#![tactic(auto)]

mod access;
mod harts;
mod instruction;
mod open;
mod products;
mod slot;
mod used;

pub use harts::has_one_hart;
pub use open::open_slot;
pub use slot::{Advance, run_until, step, stretch};
pub use used::{note_switch, unused};
