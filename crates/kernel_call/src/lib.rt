//! Kernel calls of a domain: its state in code, and each call on it, on memory and
//! on mailboxes, which does what the definitions of `call_table` say.
#![tactic(auto)]

mod calls;
mod domain;
mod error;
mod frames;
mod log;
mod mailboxes;
mod outcome;
mod reply;
mod slots;
mod tables;
mod threads;

pub use calls::{call, call_on_memory};
pub use cap_table::SLOTS;
pub use domain::{Beginning, Domain, PRINTED};
pub use error::CallError;
pub use log::{KEPT, Log};
pub use outcome::Outcome;
pub use threads::deliver;
