//! The memory hierarchy of the machine: what each touch of it costs, to the
//! cycle, and what it leaves behind in the caches, the translation buffer and
//! the branch predictor.
//!
//! specs/Cost.antt has the costs and the next caches as functions of touches;
//! each call here is one touch. specs/Tally.antt counts what the costs are made of.
//! specs/Operations.antt, Sharing.antt and Worst.antt have what kernel clones and a
//! switch of domains touch, how domains share the caches, and what touches cost at
//! worst.
#![tactic(auto)]

mod geometry;
mod laws;
mod on_core;
pub mod sharing;
mod system;
pub mod tallies;

pub use geometry::{CacheGeometry, Geometry};
pub use laws::{colours_keep_apart, costs_are_the_tables, hits_cost_least, the_untouched_stays};
pub use on_core::{OnCore, Translated};
pub use system::{MemSystem, new_parts};
