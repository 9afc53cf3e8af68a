//! The record of an image that the tenant of one domain may hold, and its text: of the
//! domains that can't tell it words nothing is left in it but their places and colours, and
//! what the tenant sees is the same.
#![tactic(auto)]

mod keeping;
pub mod laws;
mod naming;
mod redacting;
mod writing;

pub use redacting::redacted;
pub use tp_base::Memory;
pub use writing::write_redacted;
