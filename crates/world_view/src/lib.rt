//! What the machine is: the values that definitions and code share. The
//! definitions themselves stand in specs/, from the bytes of an image to what
//! is seen of a domain, among others and alone, and the laws about them are
//! the contracts of the functions of `laws`.
#![tactic(auto)]

mod hierarchy;
pub mod laws;
mod used;

pub use hierarchy::geometry_of;
pub use used::Used;
