//! What the instructions of RV32I and of its M extension do, as the RISC-V
//! unprivileged specification says: to the registers, to the program counter and
//! to memory. An instruction reads and writes no memory here. It is handed what a
//! load found, and it answers the store that is to be made.
//!
//! specs/ has the table, one line an instruction: `Effect` on `Alu`, `Products`
//! and `Registers`. `Laws` says a second time what products and divisions are, in
//! integers; `laws` proves it.
#![tactic(auto)]

mod alu;
mod exception;
mod execution;
pub mod laws;
mod memory;
mod products;
mod registers;

pub use exception::Exception;
pub use execution::execute;
pub use memory::{address, misalignment};
pub use products::{divide, division_digits, multiply};
pub use registers::Regs;

/// A store that is to be made.
#[derive(Clone, Copy, Debug, PartialEq, Eq)]
pub struct Store {
    /// A virtual address, a multiple of the size.
    pub at: u32,
    /// In bytes: 1, 2 or 4.
    pub size: u8,
    /// What is stored, with zeros above that size.
    pub word: u32,
}

/// An exception, and what it tells.
#[derive(Clone, Copy, Debug, PartialEq, Eq)]
pub struct Trap {
    pub exception: Exception,
    /// The target of a misaligned jump, the word that is no instruction, the
    /// program counter of a breakpoint, the address of a load, a store or a
    /// fault, and 0 of a call.
    pub value: u32,
}

/// What an instruction does besides its write of a register.
#[derive(Clone, Copy, Debug, PartialEq, Eq)]
pub struct Effect {
    /// The next program counter; where there is a trap, the instruction's own.
    pub next: u32,
    pub store: Option<Store>,
    /// Whether it is a branch that is taken; jumps are none.
    pub taken: bool,
    pub trap: Option<Trap>,
}
