// Calls in memory from outside, and what no clause says of the errors.
ghost use Rattle.std.specs.Prelude.{None};

use std::alloc::Global;
use std::test::Fail;
use tp_base::Memory;
use tp_io::{
    Failed, MemSink, MemSource, ReadError, Sink, Source, SureSource, read_within, write_all_of,
};

// How many of `size` bytes are read, 64 a call, where this call fails.
fn read(alloc: Global, size: usize, call: u64, most: u16) -> Result<Option<usize>, Memory> {
    let bytes = vec![in alloc; 7; size]?;
    let mut source = MemSource::new(alloc, &bytes, 64, &[call])?;
    match read_within(alloc, &mut source, usize::from(most)) {
        Ok(found) => Ok(Some(found.len())),
        Err(_) => Ok(None),
    }
}

// 200 bytes, 64 a call, are 64, 64, 64 and 8 bytes, and a fifth call that finds the end;
// no bytes at all are one call.
#[test]
fn a_source_fails_at_its_listed_call(rt: HostRuntime) -> Result<(), Memory> {
    let cases = [
        (0, 1, 1000, None),
        (0, 2, 1000, Some(0)),
        (200, 1, 1000, None),
        (200, 5, 1000, None),
        (200, 6, 1000, Some(200)),
        (200, 6, 200, Some(200)),
        (200, 6, 199, Some(200)),
        (200, 6, 99, Some(100)),
        (200, 2, 63, Some(64)),
    ];
    for (size, call, most, wanted) in cases {
        let found = read(rt.alloc(), size, call, most)?;
        assert_eq!(rt; found, wanted, "call {call} of {size} within {most}");
    }
    Ok(())
}

// How many of so many bytes a sure source gives.
fn read_surely(alloc: Global, count: usize) -> Result<usize, Fail> {
    let mut source = SureSource::new(vec![in alloc; 7; count]?);
    Ok(read_within(alloc, &mut source, 10000)?.len())
}

// A buffer of `read_within` is 4,096 bytes.
#[test]
fn a_sure_source_gives_all(rt: HostRuntime) -> Result<(), Fail> {
    for count in [0, 4096, 5000] {
        assert_eq!(rt; read_surely(rt.alloc(), count)?, count);
    }
    Ok(())
}

// Whether a piece is sent, 4 bytes a call, where this call fails, and how much of it.
fn sent(alloc: Global, call: u64, room: usize) -> Result<(bool, usize), Memory> {
    let mut sink = MemSink::new(alloc, room, 4, &[call])?;
    let sent = write_all_of(&mut sink, b"fourteen bytes");
    Ok((sent.is_ok(), sink.bytes().len()))
}

// 14 bytes, 4 a call, are 4, 4, 4 and 2 bytes.
#[test]
fn a_sink_fails_at_its_listed_call_or_without_room(rt: HostRuntime) -> Result<(), Memory> {
    let cases = [
        (1, 100, 0),
        (2, 100, 4),
        (4, 100, 12),
        (5, 100, 14),
        (5, 14, 14),
        (5, 13, 13),
        (9, 0, 0),
    ];
    for (call, room, wanted) in cases {
        let found = sent(rt.alloc(), call, room)?;
        assert_eq!(rt; found, (wanted == 14, wanted), "call {call} in {room}");
    }
    Ok(())
}

// The most that the program reads of a source, which is one byte more than an image may
// have; no report is as long.
const LONGEST: usize = 1_048_577;

// How many bytes a source and a sink in memory give and take in one call, of as many as
// there may be. Each holds a `CallCount`, whose list has a number for each byte; no call
// here has the number.
fn moved_in_one_call(alloc: Global) -> Result<(Option<usize>, Option<usize>), Memory> {
    let bytes = vec![in alloc; 7; LONGEST]?;
    let failing = vec![in alloc; 9; LONGEST]?;
    let mut buffer = vec![in alloc; 0; LONGEST]?;
    let mut source = MemSource::new(alloc, &bytes, usize::MAX, &failing)?;
    let mut sink = MemSink::new(alloc, LONGEST, usize::MAX, &failing)?;
    Ok((source.read(&mut buffer).ok(), sink.write(&bytes).ok()))
}

#[test]
fn objects_in_memory_have_room_for_the_longest_texts(rt: HostRuntime) -> Result<(), Memory> {
    assert_eq!(rt;
        moved_in_one_call(rt.alloc())?,
        (Some(LONGEST), Some(LONGEST))
    );
    Ok(())
}

// A sink that promises nothing: `written`, `faults` and `write` are all that an adapter has to have.
#[derive(Drop)]
struct Discard;

impl Sink for Discard {
    ghost written = { λ _. None };

    ghost faults = { λ _. 0 };

    fn write(&mut self, piece: &[u8]) -> Result<usize, Failed> {
        Ok(piece.len())
    }
}

#[test]
fn a_sink_may_promise_nothing(rt: HostRuntime) {
    assert_eq!(rt; write_all_of(&mut Discard, b"a text"), Ok(()));
}

#[test]
fn errors_say_what_failed(rt: HostRuntime) -> Result<(), Memory> {
    let texts = format!(in rt.alloc();
        "{}; {}; {}; {}",
        Failed,
        ReadError::Failed,
        ReadError::Memory,
        Memory
    )?;
    assert_eq!(rt;
        texts.as_str(),
        "a read or a write failed; a read failed; memory ran out; memory ran out"
    );
    Ok(())
}
