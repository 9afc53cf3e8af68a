// Each call of a run's source or sink fails in turn.
use crate::answers::{IMAGE, MOST, REPORT, ROOM, RUN, answer_failing, words};
use std::alloc::Global;
use std::test::Fail;
use tp_io::{MemSink, MemSource, Sink, Source};
use tp_run::{Status, tp_main};

// A call that no run comes to.
const FAR: u64 = 10_000;

// How many calls of a source were made of which FAR alone fails: those that are left up to it are
// made now.
fn reads_made(source: &mut MemSource) -> u64 {
    let mut byte = [0u8; 1];
    for more in 1..FAR {
        if source.read(&mut byte).is_err() {
            return FAR - more;
        }
    }
    0
}

fn writes_made(sink: &mut MemSink) -> u64 {
    for more in 1..FAR {
        if sink.write(b"").is_err() {
            return FAR - more;
        }
    }
    0
}

// How many reads and how many writes the run makes of which none fails.
fn calls_of_the_sure_run(alloc: Global) -> Result<(u64, u64), Fail> {
    let words = words(alloc, RUN)?;
    let mut source = MemSource::new(alloc, IMAGE.as_bytes(), MOST, &[FAR])?;
    let mut sink = MemSink::new(alloc, ROOM, MOST, &[FAR])?;
    tp_main(alloc, words.as_slice(), &mut source, &mut sink);
    Ok((reads_made(&mut source), writes_made(&mut sink)))
}

// The least calls that move so many bytes.
fn calls_for(bytes: usize) -> u64 {
    bytes.div_ceil(MOST) as u64
}

#[test]
fn a_read_that_fails_leaves_nothing_written(rt: HostRuntime) -> Result<(), Fail> {
    let (reads, _) = calls_of_the_sure_run(rt.alloc())?;
    // (one more finds the end)
    assert!(rt; calls_for(IMAGE.len()) < reads, "{reads} reads");
    for k in 1..=reads {
        let (status, text) = answer_failing(rt.alloc(), RUN, IMAGE.as_bytes(), &[k], &[])?;
        assert_eq!(rt; (status, text.len()), (Status::ReadFault, 0), "read {k}");
    }
    Ok(())
}

// What is written is a front of the report, and no more than the calls before could take.
#[test]
fn a_write_that_fails_leaves_a_front_of_the_report(rt: HostRuntime) -> Result<(), Fail> {
    let (_, writes) = calls_of_the_sure_run(rt.alloc())?;
    assert!(rt; calls_for(REPORT.len()) <= writes, "{writes} writes");
    for k in 1..=writes {
        let (status, text) = answer_failing(rt.alloc(), RUN, IMAGE.as_bytes(), &[], &[k])?;
        let due = REPORT.as_bytes().starts_with(text.as_slice()) && calls_for(text.len()) < k;
        assert_eq!(rt; (status, due), (Status::WriteFault, true), "write {k}");
    }
    Ok(())
}
