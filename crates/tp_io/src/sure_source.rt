// A source in memory that never fails.
ghost use Rattle.std.specs.Prelude.{◌≡◌, ◌≤◌, Some, drop, length, min, List, ℕ, IfOk, IsOk, IsErr, vec_len};
ghost use Rattle.tp_io.specs.Bytes.{Takes};
ghost use Rattle.tp_io.specs.Causes.{TellsFault};

use crate::mem_source::copy_front;
use crate::{Failed, Source};
use std::marker::Model;

/// Bytes that never fail to come. It takes no memory.
#[derive(Drop)]
pub struct SureSource {
    bytes: Vec<u8>,
    at: usize,
}

impl Model for SureSource {
    ghost Value = { List ℕ };

    ghost view = { λ s. drop s.at s.bytes.items };

    ghost invariant = { λ s. s.at ≤ vec_len s.bytes };
}

impl SureSource {
    /// A source of these bytes.
    pub fn new(bytes: Vec<u8>) -> Self
        ensures value { result ≡ bytes.items }
    {
        SureSource { bytes, at: 0 }
    }
}

impl Source for SureSource {
    ghost left = { λ rest. Some rest };

    ghost faults = { λ _. 0 };

    fn read(&mut self, buf: &mut [u8]) -> Result<usize, Failed>
        ensures bytes { Takes (Some self.old) (Some self.new) result buf.new }
        ensures cause { TellsFault (IsErr result) 0 0 }
        ensures sure { IsOk result }
        ensures given { IfOk result (λ n. n ≡ min (length self.old) (length buf.old)) }
    {
        let count = copy_front(&self.bytes[self.at..], usize::MAX, buf);
        self.at += count;
        Ok(count)
    }
}
