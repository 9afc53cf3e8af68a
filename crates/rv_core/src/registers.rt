// The registers.
ghost use Rattle.std.specs.Prelude.{◌≡◌, ◌<◌};
ghost use Rattle.rv_core.specs.Registers.{IsRegisters, zeros, register, with_register};

use std::marker::Model;

/// The words in x0 to x31; x0 is always 0.
#[derive(Clone, Copy, Debug, PartialEq, Eq)]
pub struct Regs {
    words: [u32; 32],
}

impl Model for Regs {
    ghost use Rattle.std.specs.Prelude.{ℕ, List};
    ghost use Rattle.rv_core.specs.Registers.{IsRegisters};

    ghost Value = { List ℕ };

    ghost view = { λ r. r.words };

    ghost invariant = { λ r. IsRegisters r.words };

    ghost inverse = { λ words. record { words = words } };
}

impl Default for Regs {
    ghost is_default = { λ r. r ≡ zeros };

    fn default() -> Self {
        Regs::new()
    }
}

impl Regs {
    /// Each register is 0.
    pub fn new() -> Self
        ensures zero { result ≡ zeros }
    {
        Regs { words: [0; 32] }
    }

    /// The word in register `x`, below 32.
    pub fn get(&self, x: u8) -> u32
        requires below { x < 32 }
        ensures word { result ≡ register self.now x }
        ensures shape { IsRegisters self.now }
    {
        self.words[x as usize]
    }

    /// Puts a word into register `x`, below 32; x0 stays 0.
    pub fn set(&mut self, x: u8, word: u32)
        requires below { x < 32 }
        ensures written { self.new ≡ with_register self.old x word }
    {
        if x != 0 {
            self.words[x as usize] = word;
        }
    }

    /// The words in x0 to x31, in order.
    pub fn words(&self) -> &[u32]
        ensures words { result.now ≡ self.now }
        ensures shape { IsRegisters self.now }
    {
        &self.words
    }
}
