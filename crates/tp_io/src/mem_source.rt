// A source in memory.
ghost use Rattle.std.specs.Prelude.{◌≡◌, ◌<◌, ◌≤◌, ◌↔◌, ◌++◌, [], Some, drop, take, length, min, IfOk, IsOk, IsErr, vec_len};
ghost use Rattle.tp_io.specs.Bytes.{Takes};
ghost use Rattle.tp_io.specs.Causes.{TellsFault};
ghost use Rattle.tp_io.specs.Calls.{FailsNext, IsFaultless};
ghost use Rattle.tp_io.specs.Objects.{new_source, given, after_read};

use crate::calls::CallCount;
use crate::{Failed, Source};
use std::alloc::Global;
use std::marker::Model;
use tp_base::Memory;

/// Bytes in memory, at most so many a call, of which the calls with listed
/// numbers fail, and no others. The first call has number 1.
#[derive(Drop)]
pub struct MemSource {
    bytes: Vec<u8>,
    at: usize,
    most: usize,
    calls: CallCount,
}

impl Model for MemSource {
    ghost use Rattle.std.specs.Prelude.{◌<◌, ◌≤◌, drop, vec_len};
    ghost use Rattle.tp_io.specs.Calls.{IsFaultless};
    ghost use Rattle.tp_io.specs.Objects.{MemSourceState, IsSourceSound};

    ghost Value = { MemSourceState };

    ghost view = { λ s. record { rest = drop s.at s.bytes.items; most = s.most; calls = s.calls } };

    ghost invariant = { λ s. IsSourceSound (vec_len s.bytes) s.at s.most s.calls };
}

impl MemSource {
    /// A source of copies of these bytes that gives at most `most` a call, and
    /// whose calls with the numbers in `failing`, from 1, fail.
    ///
    /// # Errors
    ///
    /// `Memory` where memory ran out.
    pub fn new(alloc: Global, bytes: &[u8], most: usize, failing: &[u64]) -> Result<Self, Memory>
        requires some { 0 < most }
        ensures value { IfOk result (λ s. s ≡ new_source bytes.now most failing.now) }
    {
        Ok(MemSource {
            bytes: Vec::from_slice(alloc, bytes)?,
            at: 0,
            most,
            calls: CallCount::new(alloc, failing)?,
        })
    }
}

impl Source for MemSource {
    ghost left = { λ s. Some s.rest };

    ghost faults = { λ s. s.calls.faults };

    fn read(&mut self, buf: &mut [u8]) -> Result<usize, Failed>
        ensures bytes { Takes (Some self.old.rest) (Some self.new.rest) result buf.new }
        ensures cause { TellsFault (IsErr result) self.old.calls.faults self.new.calls.faults }

        // The call fails exactly where it is listed.
        ensures listed { IsErr result ↔ FailsNext self.old.calls }
        ensures given { IfOk result (λ n. n ≡ given self.old (length buf.old)) }
        ensures becomes { self.new ≡ after_read self.old result }

        // With no call listed it never fails, and its count is 0 throughout.
        ensures sure { self.old.calls.failing ≡ [] → IsOk result }
        ensures faultless_before { IsFaultless self.old.calls }
        ensures faultless { IsFaultless self.new.calls }
    {
        if self.calls.begin() {
            self.calls.fault();
            return Err(Failed);
        }
        let count = copy_front(&self.bytes[self.at..], self.most, buf);
        self.at += count;
        Ok(count)
    }
}

/// Copies what fits of the bytes into the buffer, at most `most`, and says how
/// many.
pub fn copy_front(bytes: &[u8], most: usize, buf: &mut [u8]) -> usize
    requires some { 0 < most }
    ensures count { result ≡ min most (min (length bytes.now) (length buf.old)) }
    ensures copied { bytes.now ≡ take result buf.new ++ drop result bytes.now }
    ensures end { result ≡ 0 → 0 < length buf.old → bytes.now ≡ [] }
{
    let count = most.min(bytes.len()).min(buf.len());
    let (front, _) = bytes.split_at(count);
    buf[..count].copy_from_slice(front);
    count
}
