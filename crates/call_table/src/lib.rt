//! Kernel calls: what each of them does to a domain and to memory, as
//! definitions in specs/, and what they keep, as laws.
#![tactic(auto)]

pub mod laws;

/// What became of a domain.
#[derive(Clone, Copy, Debug, PartialEq, Eq)]
pub enum DomainStatus {
    Running,
    /// It ended itself, with this code.
    Exited(u32),
    /// An exception stopped it: its code, the place of the instruction, and
    /// what the exception tells (a target, a word, or an address).
    Stopped { code: u8, pc: u32, value: u32 },
}

/// What a kernel call answers: a code, 0 where it was done, and a value.
#[derive(Clone, Copy, Debug, PartialEq, Eq)]
pub struct Reply {
    pub code: u32,
    pub value: u32,
}
