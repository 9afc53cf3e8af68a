//! The words of the command line: what they ask for.
#![tactic(auto)]

mod words;

use guards::Guard;
pub use words::parse;

/// What the words of the command line ask for.
#[derive(Clone, Copy, Debug, PartialEq, Eq)]
pub enum Command {
    /// Test the image's rules.
    Check,
    /// Tell the most cycles that a domain switch of the image's machine can use.
    Bound,
    /// Run the image for so many slots, 0 to 65,536.
    Run { slots: u32 },
    /// Run one domain of the image alone for so many slots, 0 to 65,536.
    Alone { domain: u8, slots: u32 },
    /// Write the image that a seed makes.
    Gen { seed: u32 },
    /// Run the image that a seed makes for 64 slots, and write a summary.
    Demo { seed: u32 },
    /// Run the image with one guard off for so many slots, 0 to 65,536.
    Ablate { off: Guard, slots: u32 },
    /// Run each hart of the image for so many slots, 0 to 65,536, in the order of events that a
    /// seed draws.
    Harts { slots: u32, seed: u32 },
    /// Write the image as the tenant of one of its domains may hold it.
    Redact { domain: u8 },
}

impl Command {
    ghost use Rattle.std.specs.Prelude.{◌≡◌, true, false};
    ghost use Rattle.tp_words.specs.Words.{Reads};

    /// Whether it works on an image that it reads. The others make theirs of a seed.
    pub fn reads_image(self) -> bool
        ensures reads { result ≡ true → Reads self }
        ensures makes { result ≡ false → ¬ Reads self }
    {
        match self {
            Command::Check
            | Command::Bound
            | Command::Run { .. }
            | Command::Alone { .. }
            | Command::Ablate { .. }
            | Command::Harts { .. }
            | Command::Redact { .. } => true,
            Command::Gen { .. } | Command::Demo { .. } => false,
        }
    }
}
