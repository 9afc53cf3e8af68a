//! The machine that an image says: the rules of its parts, frames, colours,
//! costs and shared region, and that of products and the target buffer, each
//! with the numbers of its first broken case; and what it is where none of them
//! is broken.
#![tactic(auto)]

mod extensions;
mod hardware;
pub mod laws;
mod numbers;
mod reading;
mod rules;

pub use extensions::k22;
pub use hardware::{CacheShape, Caches, Hardware, Policy};
pub use rules::{k3, k4, k5, k6, k11};
