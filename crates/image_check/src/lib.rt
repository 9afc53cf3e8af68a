//! The rules that an image must keep, in their order: those of the machine, of
//! the domains, of their interrupt lines and moments and of the schedule, of pads,
//! calls, harts and mailboxes, and that of products and the target buffer; an image that
//! keeps them all, with what all domains may know of it and what each has of its own;
//! and one that keeps all but the rule of pads, with what the bound on a switch depends
//! on.
#![tactic(auto)]

mod checked;
pub mod laws;
mod own;
mod pads;
mod parts;
mod public;
mod unpadded;

pub use checked::{Checked, check};
/// The parts of a domain, which the rules of `domain_check` let through.
pub use domain_check::{InitialCap, Segment};
/// When an interrupt comes.
pub use irq_partition::Moment;
/// The machine, which the rules of `hardware_check` let through.
pub use hardware_check::{CacheShape, Hardware, Policy};
/// Why an image is not accepted: the first rule that it breaks, or want of memory.
pub use image_record::{ReadRefusal as CheckRefusal, Refusal};
pub use own::Own;
pub use public::Public;
/// The schedule, whose slots are a domain's each, and that of a hart.
pub use sched_table::{Entry, HartSchedule, Schedule};
pub use unpadded::{Unpadded, check_but_pads};
