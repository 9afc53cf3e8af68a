//! The schedule: whose slot comes when. Slot k is that of entry k, entries being
//! taken cyclically; a pad follows each slot, and the last entry's comes before
//! the first. Each hart has a schedule of its own, of the entries that are on it.
#![tactic(auto)]

mod hart_schedule;
pub mod laws;
mod schedule;

pub use hart_schedule::{HartSchedule, hart_schedules, harts_in};
pub use schedule::{Entry, Schedule, Turn};
