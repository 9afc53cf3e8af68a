// The exceptions that stop a domain.
ghost use Rattle.std.specs.Prelude.{◌≡◌};
ghost use Rattle.rv_core.specs.Exceptions.{code_of};

use crate::Trap;

/// An exception, with its code (RISC-V privileged specification, "Machine Cause
/// Register").
#[derive(Clone, Copy, Debug, PartialEq, Eq)]
pub enum Exception {
    InstructionMisaligned = 0,
    InstructionAccessFault = 1,
    IllegalInstruction = 2,
    Breakpoint = 3,
    LoadMisaligned = 4,
    LoadAccessFault = 5,
    StoreMisaligned = 6,
    StoreAccessFault = 7,
    UserCall = 8,
    InstructionPageFault = 12,
    LoadPageFault = 13,
    StorePageFault = 15,
}

impl Exception {
    /// Its code, at most 15.
    pub fn code(self) -> u8
        ensures value { result ≡ code_of self }
    {
        self as u8
    }

    /// It, with what it tells.
    pub fn with(self, value: u32) -> Trap
        ensures trap { result ≡ record { exception = self; value = value } }
    {
        Trap {
            exception: self,
            value,
        }
    }
}
