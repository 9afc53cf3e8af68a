// Where bytes go to.
ghost use Rattle.std.specs.Prelude.{List, ℕ, Option, None, IsErr};
ghost use Rattle.tp_io.specs.Causes.{TellsFault};
ghost use Rattle.tp_io.specs.Bytes.{Puts};
ghost use Rattle.tp_io.specs.Sure.{Spends};

use crate::Failed;

/// Where bytes go to.
pub trait Sink {
    /// The bytes that it was given, or `None` at a silent sink.
    ghost written: { Self → Option (List ℕ) };

    /// How often it has failed.
    ghost faults: { Self → ℕ };

    /// How many more bytes it surely takes, or `None` where it promises nothing,
    /// as a sink that doesn't say.
    ghost sure: { Self → Option ℕ } = { λ _. None };

    /// Appends the front of the piece, and says how many bytes: 0 only for an
    /// empty piece. What it took, the sink surely takes less.
    ///
    /// # Errors
    ///
    /// `Failed` where the sink failed: its count of faults rose, and it took no
    /// bytes. It doesn't fail for a piece that is no longer than what it surely
    /// takes.
    fn write(&mut self, piece: &[u8]) -> Result<usize, Failed>
        ensures bytes { Puts (written self.old) (written self.new) result piece.now }
        ensures cause { TellsFault (IsErr result) (faults self.old) (faults self.new) }
        ensures room { Spends (sure self.old) (sure self.new) result piece.now };
}
