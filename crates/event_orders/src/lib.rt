//! Harts over one state, and the orders in which they have their events: slot by slot they
//! come to the same as event by event. Laws alone; crates that have a machine use them.
#![tactic(auto)]

pub mod laws;
