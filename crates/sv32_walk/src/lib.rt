//! The walk of Sv32 page tables in physical memory: what it ends with, which
//! entries it reads, and what stands in an entry.
//!
//! specs/PageTableEntry.antt and specs/Walk.antt have the entry and the walk in
//! the terms of the RISC-V privileged specification, as functions of words and
//! of a memory; three laws tell what they mean.
#![tactic(auto)]

mod access;
mod laws;
mod page_table_entry;
mod sv32;

pub use access::{Access, WalkFault};
pub use laws::{entry_words, kept_leaf, translation};
pub use page_table_entry::{PageTableEntry, leaf_word, table_word};
pub use sv32::{Walked, walk};
