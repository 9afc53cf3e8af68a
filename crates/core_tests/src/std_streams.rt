// What no clause says of the adapters: that an error of std is answered as one. The
// faults that are compared are counted here; that the adapter counts as many is proved.
ghost use Rattle.std.specs.Prelude.{◌≡◌};

use std::io;
use std::io::{ErrorKind, Read, Write};
use tp_io::{Failed, Sink, Source, StdStream};

// A reader that fails at its first call, and then gives its bytes.
#[derive(Drop)]
struct FailsOnce {
    failed: bool,
    bytes: &'static [u8],
}

impl Read for FailsOnce {
    fn read(&mut self, buf: &mut [u8]) -> io::Result<usize> {
        if !self.failed {
            self.failed = true;
            return Err(ErrorKind::Interrupted.into());
        }
        self.bytes.read(buf)
    }
}

// What a read answers, the source's faults, and the first byte of the buffer.
fn read(
    source: &mut StdStream<FailsOnce>,
    faults: &mut u64,
    buf: &mut [u8; 4],
) -> (Result<usize, Failed>, u64, u8)
    requires counted { faults.old ≡ source.old.faults }
    ensures counted { faults.new ≡ source.new.faults }
{
    let outcome = source.read(buf);
    if outcome.is_err() {
        *faults = faults.saturating_add(1);
    }
    (outcome, *faults, buf[0])
}

#[test]
fn a_failed_read_is_counted_and_the_next_one_gives(rt: HostRuntime) {
    let mut source = StdStream::new(FailsOnce {
        failed: false,
        bytes: b"x",
    });
    let mut faults = 0;
    let mut buf = [0u8; 4];
    let found = [
        read(&mut source, &mut faults, &mut buf),
        read(&mut source, &mut faults, &mut buf),
        read(&mut source, &mut faults, &mut buf),
    ];
    assert_eq!(rt;
        found,
        [(Err(Failed), 1, 0), (Ok(1), 1, b'x'), (Ok(0), 1, b'x')]
    );
}

// A writer that notes how many bytes it took, and how many when it was flushed.
#[derive(Drop)]
struct Noting {
    most: usize,
    flushes: bool,
    taken: usize,
    flushed: usize,
}

impl Write for Noting {
    fn write(&mut self, buf: &[u8]) -> io::Result<usize> {
        let count = self.most.min(buf.len());
        self.taken = self.taken.saturating_add(count);
        Ok(count)
    }

    fn flush(&mut self) -> io::Result<()> {
        if !self.flushes {
            return Err(ErrorKind::Other.into());
        }
        self.flushed = self.taken;
        Ok(())
    }
}

// What a write of three bytes answers, and the sink's faults.
fn write(sink: &mut StdStream<&mut Noting>, faults: &mut u64) -> Result<usize, Failed>
    requires counted { faults.old ≡ sink.old.faults }
    ensures counted { faults.new ≡ sink.new.faults }
{
    let outcome = sink.write(b"two");
    if outcome.is_err() {
        *faults = faults.saturating_add(1);
    }
    outcome
}

// The same of a new sink, and what was taken and flushed.
fn written(most: usize, flushes: bool) -> (Result<usize, Failed>, u64, usize, usize) {
    let mut noting = Noting {
        most,
        flushes,
        taken: 0,
        flushed: 0,
    };
    let mut faults = 0;
    let outcome = write(&mut StdStream::new(&mut noting), &mut faults);
    (outcome, faults, noting.taken, noting.flushed)
}

// Each write is flushed once its bytes were taken.
#[test]
fn a_write_is_flushed(rt: HostRuntime) {
    let cases = [
        (9, true, (Ok(3), 0, 3, 3)),
        (2, true, (Ok(2), 0, 2, 2)),
        (0, true, (Err(Failed), 1, 0, 0)),
        (9, false, (Err(Failed), 1, 3, 0)),
    ];
    for (most, flushes, wanted) in cases {
        assert_eq!(rt; written(most, flushes), wanted, "{most} {flushes}");
    }
}
