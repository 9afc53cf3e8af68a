//! The page tables of one domain, which stand in the machine's memory and are
//! changed one entry at a time. A `PageMap` owns the frame of its root, which a
//! pool gave out as a page table.
//!
//! specs/Tables.antt has what the tables are in a map of memory, and
//! specs/Changes.antt what each call makes of it; `laws` tells what that means
//! for the walk and for what is reached.
#![tactic(auto)]

pub mod laws;
mod map;
mod refusal;

pub use map::PageMap;
pub use refusal::MapRefusal;
