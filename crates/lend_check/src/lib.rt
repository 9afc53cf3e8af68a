//! The rule of an image's lent colours, which domains set aside for children that
//! they make while they run, with the numbers of its first broken case; and the
//! numbers of the children.
//!
//! specs/Rule.antt has the rule; `laws` tells in other words what it lets through, why
//! it refuses the rest, and how parties are numbered.
#![tactic(auto)]

pub mod laws;
mod lending;
mod parties;
mod rule;

pub use lending::{Lending, LendingDomain, LendingEntry};
pub use parties::{child_number, entry_number};
pub use rule::k21;
