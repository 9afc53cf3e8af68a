//! An image's harts before their first event, and the orders in which they have their
//! events: the hart whose event is next is that of the least clock, or one that a seed
//! draws. The laws of these orders say where they end, and what is seen then.
#![tactic(auto)]

mod choice;
mod cold;
mod hart;
pub mod laws;
mod off;

pub use choice::Choice;
pub use cold::{cold_caches, discard};
pub use hart::{Hart, Slot};
pub use off::is_on;
