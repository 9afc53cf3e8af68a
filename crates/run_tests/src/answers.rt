// Whole runs through a source and a sink that never fail, and the images of two domains.
use std::alloc::Global;
use std::process::Abort;
use std::test::Fail;
use tp_io::{MemSink, MemSource};
use tp_run::{Status, tp_main};

// Prints A, and exits; or jumps to itself.
//
//     addi x10, x0, 0x41; addi x17, x0, 1; ecall
//     addi x17, x0, 0; ecall
pub const PRINTS_A: &str = "1305100493081000730000009308000073000000";

//     jal x0, 0
pub const SPINS: &str = "6f000000";

// Reads the cycle counter before and after it prints A, or B.
//
//     csrrs x5, cycle, x0
//     addi x10, x0, 0x41; addi x17, x0, 1; ecall
//     csrrs x6, cycle, x0
//     addi x17, x0, 0; ecall
pub const READS_A: &str = "f32200c0130510049308100073000000732300c09308000073000000";

//     csrrs x5, cycle, x0
//     addi x10, x0, 0x42; addi x17, x0, 1; ecall
//     csrrs x6, cycle, x0
//     addi x17, x0, 0; ecall
pub const READS_B: &str = "f32200c0130520049308100073000000732300c09308000073000000";

pub const USAGE: &str = "usage: tp check|bound|run|alone|gen|demo\n";

// What every image begins with.
pub const MACHINE: &str =
    "frames = 64\nshared = 512\nline = 64\nl1i = { sets = 16, ways = 2, policy = \"lru\" }\nl1d = { sets = 16, ways = 2, policy = \"lru\" }\nl2 = { sets = 256, ways = 4, policy = \"lru\" }\ntlb = { sets = 4, ways = 2, policy = \"lru\" }\npredictor = 16\ncosts = { base = 1, l1 = 1, l2 = 8, mem = 40, wb = 10, tlb = 1, mispredict = 3, trap = 10, flush = 20 }\n";

// What every image ends with.
pub const SCHEDULE: &str =
    "[[schedule]]\ndomain = 0\nlength = 10000\npad = 6150\n[[schedule]]\ndomain = 1\nlength = 10000\npad = 6150\n";

// A segment of a page to read and to write.
pub const DATA: &str = ", { page = 32, pages = 1, rights = \"rw\", hex = \"\" }";

// The image with red's program, with these segments and capabilities, too.
pub fn image(alloc: Global, segments: &str, caps: &str, red: &str) -> Result<String, Fail> {
    Ok(format!(in alloc;
        "{MACHINE}[[domain]]\nname = \"red\"\ncolours = [1]\nentry = 0x10000\n{caps}\nsegment = [{{ page = 16, pages = 1, rights = \"rx\", hex = \"{red}\" }}{segments}]\n[[domain]]\nname = \"blue\"\ncolours = [2]\nentry = 0x10000\nsegment = [{{ page = 16, pages = 1, rights = \"rx\", hex = \"{READS_B}\" }}]\n{SCHEDULE}"
    )?)
}

fn words_in(alloc: Global, line: &str) -> Result<Vec<String>, Fail> {
    let mut words = Vec::new(alloc);
    for word in line.split(' ') {
        words.reserve(1)?;
        words.push_reserved(String::from_str(alloc, word)?);
    }
    Ok(words)
}

// The status and the text for these words and this image.
pub fn answer(alloc: Global, line: &str, image: &str) -> Result<(Status, Vec<u8>), Fail> {
    let words = words_in(alloc, line)?;
    let mut source = MemSource::new(alloc, image.as_bytes(), 4096, &[])?;
    let mut sink = MemSink::new(alloc, 16384, 4096, &[])?;
    let status = tp_main(alloc, words.as_slice(), &mut source, &mut sink);
    let text = Vec::from_slice(alloc, sink.bytes())?;
    Ok((status, text))
}

// What is answered to these words and this image.
pub fn expect(
    rt: &impl Abort,
    alloc: Global,
    line: &str,
    image: &str,
    status: Status,
    text: &str,
) -> Result<(), Fail> {
    let found = answer(alloc, line, image)?;
    assert_eq!(rt; found.0, status, "at {line}");
    assert_eq!(rt; found.1.as_slice(), text.as_bytes(), "at {line}");
    Ok(())
}

// In the report stands each of these texts, with a bar between them.
pub fn tells(
    rt: &impl Abort,
    alloc: Global,
    line: &str,
    image: &str,
    texts: &str,
) -> Result<(), Fail> {
    let (status, bytes) = answer(alloc, line, image)?;
    assert_eq!(rt; status, Status::Done, "at {texts}");
    let report = String::from_utf8_lossy(alloc, bytes.as_slice())?;
    for text in texts.split('|') {
        assert!(rt; report.contains(text), "{text} in {report}");
    }
    Ok(())
}
