// Readers and writers of std, which tell nothing of content here.
ghost use Rattle.std.specs.Prelude.{◌≡◌, ◌<◌, ◌≤◌, ℕ, [], None, Ok, IfOk, OnErr, IsErr, length};
ghost use Rattle.std.specs.Io.KnownBytes.{ReadConsumes};
ghost use Rattle.tp_io.specs.Bytes.{Puts, Takes};
ghost use Rattle.tp_io.specs.Causes.{TellsFault, one_more};
ghost use Rattle.tp_io.specs.Streams.{AppendsOnce};
ghost use Rattle.tp_io.specs.Sure.{Spends};

use crate::{Failed, Sink, Source};
use std::io;
use std::io::{ErrorKind, Read, Write};
use std::marker::Model;

/// A reader of std as a silent source, or a writer of std as a silent sink. Its
/// count of faults starts at 0 and rises by one at each error, which is answered
/// as `Failed`.
#[derive(Drop)]
pub struct StdStream<T> {
    inner: T,
    faults: u64,
}

impl<T> Model for StdStream<T> {
    ghost use Rattle.tp_io.specs.Streams.{Stream, coded_stream};

    ghost Value = { Stream T };

    ghost coded = { coded_stream T.code };

    ghost view = { λ s. record { inner = s.inner; faults = s.faults } };
}

impl<T> StdStream<T> {
    /// This reader or writer, of which no call has failed yet.
    pub fn new(inner: T) -> Self
        ensures value { result ≡ record { inner = inner; faults = 0 } }
    {
        StdStream { inner, faults: 0 }
    }

    // Counts an error.
    fn fault(&mut self) -> Failed
        ensures counted { self.new ≡ record self.old { faults = one_more self.old.faults } }
        ensures never_falls { self.old.faults ≤ self.new.faults }
    {
        self.faults = self.faults.saturating_add(1);
        Failed
    }
}

impl<R: Read> Source for StdStream<R> {
    ghost left = { λ _. None };

    ghost faults = { λ s. s.faults };

    /// Fails exactly where the reader does.
    fn read(&mut self, buf: &mut [u8]) -> Result<usize, Failed>
        ensures bytes { Takes None None result buf.new }
        ensures cause { TellsFault (IsErr result) self.old.faults self.new.faults }
        ensures counted { OnErr result (self.new.faults ≡ one_more self.old.faults) }

        // A reader that tells its bytes gives these.
        ensures told { ReadConsumes (R.remaining self.old.inner) (R.remaining self.new.inner) result buf.new }
    {
        match self.inner.read(buf) {
            Ok(count) => Ok(count),
            Err(_) => Err(self.fault()),
        }
    }
}

impl<W: Write> Sink for StdStream<W> {
    ghost written = { λ _. None };

    ghost faults = { λ k. k.faults };

    /// Fails at an error of the write or of the flush that follows it, and at a
    /// write that takes nothing of a piece that isn't empty. An empty piece is
    /// answered without a call.
    fn write(&mut self, piece: &[u8]) -> Result<usize, Failed>
        ensures bytes { Puts None None result piece.now }
        ensures cause { TellsFault (IsErr result) self.old.faults self.new.faults }
        ensures room { Spends None None result piece.now }
        ensures counted { OnErr result (self.new.faults ≡ one_more self.old.faults) }
        ensures empty { piece.now ≡ [] → result ≡ Ok 0 }
        ensures untouched { piece.now ≡ [] → self.new ≡ self.old }

        // A writer that tells its bytes has these, or at an error a front of the piece, once.
        ensures told { AppendsOnce (W.contents self.old.inner) (W.contents self.new.inner) result piece.now }
    {
        if piece.is_empty() {
            return Ok(0);
        }
        match write_and_flush(&mut self.inner, piece) {
            Ok(count) => Ok(count),
            Err(_) => Err(self.fault()),
        }
    }
}

// Writes a front of the piece, at least a byte, and sees it off.
fn write_and_flush<W: Write>(writer: &mut W, piece: &[u8]) -> io::Result<usize>
    ensures some { IfOk result (λ n. 0 < n) }
    ensures within { IfOk result (λ n. n ≤ length piece.now) }
    ensures told { AppendsOnce (W.contents writer.old) (W.contents writer.new) result piece.now }
{
    let count = writer.write(piece)?;
    if count == 0 {
        return Err(ErrorKind::WriteZero.into());
    }
    writer.flush()?;
    Ok(count)
}
