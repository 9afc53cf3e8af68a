//! The switch from one domain to the next, and the charge of a kernel
//! operation: which lines are touched is kernel_clone's to say, what they cost
//! is mem_system's.
#![tactic(auto)]

mod charging;
mod switching;

pub use charging::charge;
pub use switching::{Parts, Switched, enter, leave, switch, switch_off};
