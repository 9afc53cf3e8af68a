//! The text of a record of an image, as TOML's own writer has it.
#![tactic(auto)]

pub mod laws;
mod tables;
mod values;
mod writing;

pub use tp_base::Memory;
pub use writing::write_image;
