//! A domain alone: it is in its own frames, it has its slots by the schedule of its
//! hart, and there is nobody else to switch from or to. The type keeps that it stands
//! for the definition of the domain alone after so many slots.
#![tactic(auto)]

mod alone;
mod hart;

pub use alone::Alone;
