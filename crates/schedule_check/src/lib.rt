//! The rules of an image's schedule: of the interrupt lines and moments of its
//! domains, of its entries, and of the harts that these are on; and that of its
//! mailboxes; each with the numbers of its first broken case; and the lines, moments,
//! entries and boxes that they let through.
#![tactic(auto)]

mod harts;
mod interrupts;
mod mail;
mod schedule;

pub use harts::k19;
pub use interrupts::{k14, k15};
pub use mail::k20;
pub use schedule::k16;
