// A sink in memory.
ghost use Rattle.std.specs.Prelude.{◌≡◌, ◌<◌, ◌≤◌, ◌↔◌, ◌⊎◌, [], Some, length, IsTrue, IfOk, IsOk, IsErr};
ghost use Rattle.tp_io.specs.Bytes.{Puts};
ghost use Rattle.tp_io.specs.Causes.{TellsFault};
ghost use Rattle.tp_io.specs.Calls.{FailsNext};
ghost use Rattle.tp_io.specs.Objects.{new_sink, taken, after_write, surely_taken, FindsNoRoom, IsFaultlessWithRoom};
ghost use Rattle.tp_io.specs.Sure.{Spends};

use crate::calls::CallCount;
use crate::{Failed, Sink};
use std::alloc::Global;
use std::marker::Model;
use tp_base::Memory;

/// Room for bytes in memory, which is reserved when it is made and never grows.
/// A call takes at most so many bytes. The calls with listed numbers fail, the
/// first call having number 1, and so does one that finds no room left for a
/// piece that isn't empty; no others. So where none is listed, it surely takes as
/// many more bytes as it has room left.
#[derive(Drop)]
pub struct MemSink {
    bytes: Vec<u8>,
    room: usize,
    most: usize,
    calls: CallCount,
}

impl Model for MemSink {
    ghost use Rattle.std.specs.Prelude.{vec_len, vec_capacity};
    ghost use Rattle.tp_io.specs.Objects.{MemSinkState, IsSinkSound};

    ghost Value = { MemSinkState };

    ghost view = { λ k. record { bytes = k.bytes.items; room = k.room; most = k.most; calls = k.calls } };

    ghost invariant = { λ k. IsSinkSound (vec_capacity k.bytes) (vec_len k.bytes) k.room k.most k.calls };
}

impl MemSink {
    /// An empty sink with `room` for so many bytes, which takes at most `most` a
    /// call, and whose calls with the numbers in `failing`, from 1, fail.
    ///
    /// # Errors
    ///
    /// `Memory` where memory ran out.
    pub fn new(alloc: Global, room: usize, most: usize, failing: &[u64]) -> Result<Self, Memory>
        requires some { 0 < most }
        ensures value { IfOk result (λ k. k ≡ new_sink room most failing.now) }
    {
        Ok(MemSink {
            bytes: Vec::with_capacity(alloc, room)?,
            room,
            most,
            calls: CallCount::new(alloc, failing)?,
        })
    }

    /// What was written. With no call listed and room left no call has failed.
    pub fn bytes(&self) -> &[u8]
        ensures written { result.now ≡ self.now.bytes }
        ensures within { length self.now.bytes ≤ self.now.room }
        ensures faultless { IsFaultlessWithRoom self.now }
    {
        &self.bytes
    }

    // Whether a piece that isn't empty finds no room left.
    fn is_full_for(&self, piece: &[u8]) -> bool
        ensures full { IsTrue result ↔ FindsNoRoom self.now piece.now }
    {
        self.bytes.len() >= self.room && !piece.is_empty()
    }
}

impl Sink for MemSink {
    ghost written = { λ k. Some k.bytes };

    ghost faults = { λ k. k.calls.faults };

    ghost sure = { surely_taken };

    fn write(&mut self, piece: &[u8]) -> Result<usize, Failed>
        ensures bytes { Puts (Some self.old.bytes) (Some self.new.bytes) result piece.now }
        ensures cause { TellsFault (IsErr result) self.old.calls.faults self.new.calls.faults }
        ensures room { Spends (surely_taken self.old) (surely_taken self.new) result piece.now }

        // The call fails exactly where it is listed or finds no room.
        ensures failed { IsErr result ↔ (FailsNext self.old.calls ⊎ FindsNoRoom self.old piece.now) }
        ensures taken { IfOk result (λ n. n ≡ taken self.old (length piece.now)) }
        ensures becomes { self.new ≡ after_write self.old piece.now result }
        ensures within { length self.new.bytes ≤ self.new.room }

        // With no call listed and room left it doesn't fail, and its count is 0.
        ensures sure { self.old.calls.failing ≡ []
            → length self.old.bytes < self.old.room → IsOk result }
        ensures faultless_before { IsFaultlessWithRoom self.old }
        ensures faultless { IsFaultlessWithRoom self.new }
    {
        let listed = self.calls.begin();
        if listed || self.is_full_for(piece) {
            self.calls.fault();
            return Err(Failed);
        }
        let left = self.room - self.bytes.len();
        let count = self.most.min(left).min(piece.len());
        self.bytes.extend_from_slice(&piece[..count]).unwrap();
        Ok(count)
    }
}
