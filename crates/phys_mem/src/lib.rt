//! The physical memory of the machine: frames of 4,096 bytes from address 0,
//! read and written by words, halves and bytes. Words are little-endian.
//!
//! specs/Mem.antt has memory as the definitions of the machine have it, a
//! finite map of frames, and each call says what it does to a map that the
//! memory stands for (`Holds`).
#![tactic(auto)]

mod memory;

pub use memory::PhysMem;
