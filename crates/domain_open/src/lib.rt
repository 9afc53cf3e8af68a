//! The machine before its first slot: each domain in the frames of its share,
//! at its entry, and the memory with its page tables and pages.
#![tactic(auto)]

mod frames;
mod giving;
mod image;
mod memory;
mod open;
mod placement;
mod segments;

pub use image::{discard, open_image};
pub use memory::{load_domain, load_pages};
pub use open::{open_all, open_domain};
