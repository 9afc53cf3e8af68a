//! The frames of a memory, shared out by page colours: shares that have no
//! colour in common, the pool of each, and the frames that it gives out, each
//! with a type of its own for what it is used as.
//!
//! specs/Colours.antt has what a frame's colour and the pool of a share are;
//! `laws` tells what follows from them.
#![tactic(auto)]

mod colours;
mod frame;
pub mod laws;
mod pool;
mod share;

pub use colours::AllColours;
pub use frame::{Frame, Free, Held, Table};
pub use pool::Pool;
pub use share::{ColourShare, pool_length};
