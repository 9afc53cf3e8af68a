// Texts that go out in batches: in few writes, and with no line held whole.
ghost use Rattle.std.specs.Prelude.{◌≡◌, ◌+◌, ◌≤◌, [], ◌++◌, length};
ghost use Rattle.tp_io.specs.Sends.{Sends};
ghost use Rattle.tp_io.specs.Sink.{state};
ghost use Rattle.tp_report.specs.Batches.{Adds, holding};

use std::marker::Model;
use tp_io::{Failed, Sink, write_all_of};

// The most bytes that are handed on at once.
const SIZE: usize = 256;

/// Bytes that are held back from a sink, until there is no room for more.
#[derive(Drop)]
pub struct Batch {
    bytes: [u8; SIZE],
    len: usize,
}

impl Model for Batch {
    ghost use Rattle.std.specs.Prelude.{◌≤◌, ℕ, List, take};

    ghost Value = { List ℕ };

    ghost view = { λ b. take b.len b.bytes };

    ghost invariant = { λ b. b.len ≤ 256 };
}

impl Batch {
    /// Nothing is held.
    pub fn new() -> Self
        ensures empty { result ≡ [] }
    {
        Batch {
            bytes: [0; SIZE],
            len: 0,
        }
    }

    /// Adds the text to what is held. Where there is no room for it, the sink gets
    /// all that is held, as often as it takes.
    pub fn add<K: Sink>(&mut self, out: &mut K, text: &[u8]) -> Result<(), Failed>
        ensures adds { Adds (holding K.Sink out.old self.old) (holding K.Sink out.new self.new)
            result text.now }
    {
        let mut added = 0;
        while text.len() - added > SIZE - self.len {
            let next = added + (SIZE - self.len);
            self.hold(&text[added..next]);
            self.hand_on(out)?;
            added = next;
        }
        self.hold(&text[added..]);
        Ok(())
    }

    // Holds these bytes, too.
    fn hold(&mut self, piece: &[u8])
        requires room { length self.old + length piece.now ≤ SIZE }
        ensures value { self.new ≡ self.old ++ piece.now }
    {
        let end = self.len + piece.len();
        self.bytes[self.len..end].copy_from_slice(piece);
        self.len = end;
    }

    /// Hands on all that is held.
    pub fn hand_on<K: Sink>(&mut self, out: &mut K) -> Result<(), Failed>
        ensures sends { Sends (state K.Sink out.old) (state K.Sink out.new) result self.old }
        ensures empty { self.new ≡ [] }
    {
        let len = self.len;
        self.len = 0;
        write_all_of(out, &self.bytes[..len])
    }
}
