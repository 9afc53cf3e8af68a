//! A set-associative store of numbers, as lines or pages, under any
//! replacement policy. It keeps the numbers, their dirty marks and the
//! policy's state, and no data.
#![tactic(auto)]

mod cache;
mod packed;
mod policy;

pub use cache::SetCache;
pub use policy::{Policy, victims_are_ways};

/// A line that a way keeps.
#[derive(Clone, Copy, Debug, PartialEq, Eq)]
pub struct KeptLine {
    /// The line's number.
    pub number: u32,
    /// Whether it was stored to since it came.
    pub dirty: bool,
}

/// What a touch found, and the line that it gave up for the new one.
#[derive(Clone, Copy, Debug, PartialEq, Eq)]
pub struct Touch {
    /// Whether the line was here.
    pub hit: bool,
    /// The number of the line that was given up; `None` at a hit, and where a way was empty.
    pub victim: Option<u32>,
    /// Whether a line was given up that had a dirty mark.
    pub dirty_victim: bool,
}
