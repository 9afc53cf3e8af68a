//! What every other crate stands on: the typed numbers of the machine with
//! their ranges, the error for want of memory, and the trait of what can zero
//! a frame. The definitions that all layers share, finite maps (`Table`) and
//! actions (`Act`), stand in specs/.
#![tactic(auto)]

mod memory;
mod numbers;
mod zero;

pub use memory::Memory;
pub use numbers::{Colour, Cycles, DomainNo, FrameNo, Line, Rights};
pub use zero::Zero;
