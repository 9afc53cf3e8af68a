// An image of two domains, the report of its run, and what is answered to such an image.
use std::alloc::Global;
use std::test::Fail;
use tp_io::{MemSink, MemSource};
use tp_run::{Status, tp_main};

// Red reads the cycle counter before and after it prints A; blue, B.
//
//     csrrs x5, cycle, x0
//     addi x10, x0, 0x41 (blue: 0x42); addi x17, x0, 1; ecall
//     csrrs x6, cycle, x0
//     addi x17, x0, 0; ecall
pub const RED: &str = "f32200c0130510049308100073000000732300c09308000073000000";

pub const IMAGE: &str = "frames = 64
shared = 512
line = 64
l1i = { sets = 16, ways = 2, policy = \"lru\" }
l1d = { sets = 16, ways = 2, policy = \"lru\" }
l2 = { sets = 256, ways = 4, policy = \"lru\" }
tlb = { sets = 4, ways = 2, policy = \"lru\" }
predictor = 16
costs = { base = 1, l1 = 1, l2 = 8, mem = 40, wb = 10, tlb = 1, mispredict = 3, trap = 10, flush = 20 }
[[domain]]
name = \"red\"
colours = [1]
entry = 0x10000
segment = [{ page = 16, pages = 1, rights = \"rx\", hex = \"f32200c0130510049308100073000000732300c09308000073000000\" }]
[[domain]]
name = \"blue\"
colours = [2]
entry = 0x10000
segment = [{ page = 16, pages = 1, rights = \"rx\", hex = \"f32200c0130520049308100073000000732300c09308000073000000\" }]
[[schedule]]
domain = 0
length = 10000
pad = 6150
[[schedule]]
domain = 1
length = 10000
pad = 6150
";

pub const CHECK: &str = "tp check";

pub const RUN: &str = "tp run --slots 4";

pub const REPORT: &str = "domain 0 red
status exited 0
retired 5
thread 0 ended pc 00010018 x5=00001806 x6=000019dd
readings 2 last 6621 list 6150 6621
replies 1 last 0:0 list 0:0
out 1 41
mem 842115e1
domain 1 blue
status exited 0
retired 5
thread 0 ended pc 00010018 x5=0000571c x6=000058f3
readings 2 last 22771 list 22300 22771
replies 1 last 0:0 list 0:0
out 1 42
mem 84311de1
switch 0 used 820 pad 6150 count 2
switch 1 used 755 pad 6150 count 2
end
";

pub const ACCEPTED: &str = "accepted\n";

/// The most bytes of a call.
pub const MOST: usize = 64;

/// The most bytes that a sink takes.
pub const ROOM: usize = 16384;

/// The words of a line.
pub fn words(alloc: Global, line: &str) -> Result<Vec<String>, Fail> {
    Ok(
        line.split(' ')
            .map(|word| String::from_str(alloc, word))
            .try_collect(alloc)?,
    )
}

/// The status and the text for these words and this image, of whose reads and writes these fail.
pub fn answer_failing(
    alloc: Global,
    line: &str,
    image: &[u8],
    reads: &[u64],
    writes: &[u64],
) -> Result<(Status, Vec<u8>), Fail> {
    let words = words(alloc, line)?;
    let mut source = MemSource::new(alloc, image, MOST, reads)?;
    let mut sink = MemSink::new(alloc, ROOM, MOST, writes)?;
    let status = tp_main(alloc, words.as_slice(), &mut source, &mut sink);
    let text = Vec::from_slice(alloc, sink.bytes())?;
    Ok((status, text))
}

/// The status and the text for these words and this image.
pub fn answer(alloc: Global, line: &str, image: &[u8]) -> Result<(Status, Vec<u8>), Fail> {
    answer_failing(alloc, line, image, &[], &[])
}
