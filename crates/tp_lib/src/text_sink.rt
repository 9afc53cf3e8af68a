// A sink that grows.
ghost use Rattle.std.specs.Prelude.{◌≡◌, [], Some, None, IsErr};
ghost use Rattle.tp_io.specs.Bytes.{Puts};
ghost use Rattle.tp_io.specs.Causes.{TellsFault};
ghost use Rattle.tp_io.specs.Sure.{Spends};

use std::alloc::Global;
use std::marker::Model;
use tp_io::{Failed, Sink};

/// A text in memory, which takes as much as it is given. It fails only where memory
/// runs out.
#[derive(Drop)]
pub struct TextSink {
    text: Vec<u8>,
    faults: u64,
}

impl Model for TextSink {
    ghost use Rattle.tp_lib.specs.Sink.{TextSinkState};

    ghost Value = { TextSinkState };

    ghost view = { λ k. record { text = k.text.items; faults = k.faults } };
}

impl TextSink {
    /// An empty text.
    pub fn new(alloc: Global) -> Self
        ensures value { result ≡ record { text = []; faults = 0 } }
    {
        TextSink {
            text: Vec::new(alloc),
            faults: 0,
        }
    }

    /// What was written.
    pub fn text(&self) -> &[u8]
        ensures written { result.now ≡ self.now.text }
    {
        &self.text
    }
}

impl Sink for TextSink {
    ghost written = { λ k. Some k.text };

    ghost faults = { λ k. k.faults };

    fn write(&mut self, piece: &[u8]) -> Result<usize, Failed>
        ensures bytes { Puts (Some self.old.text) (Some self.new.text) result piece.now }
        ensures cause { TellsFault (IsErr result) self.old.faults self.new.faults }
        ensures room { Spends None None result piece.now }
    {
        match self.text.extend_from_slice(piece) {
            Ok(()) => Ok(piece.len()),
            Err(_) => {
                self.faults = self.faults.saturating_add(1);
                Err(Failed)
            }
        }
    }
}
