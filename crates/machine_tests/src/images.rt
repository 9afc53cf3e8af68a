// The images that the tests run.
use image_check::{CheckRefusal, Checked, check};
use image_record::ReadRefusal;
use image_text::read_image;
use std::alloc::Global;
use tp_base::Memory;

// A machine, with which an image begins.
pub const MACHINE: &str = "frames = 64
shared = 512
line = 64
l1i = { sets = 16, ways = 2, policy = \"lru\" }
l1d = { sets = 16, ways = 2, policy = \"lru\" }
l2 = { sets = 256, ways = 4, policy = \"lru\" }
tlb = { sets = 4, ways = 2, policy = \"lru\" }
predictor = 16
costs = { base = 1, l1 = 1, l2 = 8, mem = 40, wb = 10, tlb = 1, mispredict = 3, trap = 10, flush = 20 }
";

// Two domains. Red reads the clock, stores it in the second page of its data
// segment, which has a table of its own, prints `A` and exits. Its entry is past
// its first word:
//
//     csrrs x5, cycle, x0
//     lui x6, 0x400
//     sw x5, 0x400(x6)
//     addi x10, x0, 0x41
//     addi x17, x0, 1
//     ecall
//     addi x17, x0, 0
//     ecall
//
// Blue, and the first word of both, is `jal x0, 0`.
pub const RED_AND_BLUE: &str = "[[domain]]
name = \"red\"
colours = [1]
entry = 0x10004
segment = [
  { page = 1023, pages = 2, rights = \"rw\", hex = \"01020304\" },
  { page = 16, pages = 1, rights = \"rx\", hex = \"6f000000f32200c037034000232053401305100493081000730000009308000073000000\" },
]
[[domain]]
name = \"blue\"
colours = [2]
entry = 0x10000
segment = [{ page = 16, pages = 1, rights = \"x\", hex = \"6f000000\" }]
";

// The image of this text, in parts, if it is accepted.
pub fn accepted(alloc: Global, parts: &[&str]) -> Result<Option<Checked>, Memory> {
    let mut text = String::new(alloc);
    for part in parts {
        text.push_str(part)?;
    }
    let raw = match read_image(alloc, text.as_bytes()) {
        Ok(raw) => raw,
        Err(ReadRefusal::Memory) => return Err(Memory),
        Err(ReadRefusal::Broken(_)) => return Ok(None),
    };
    match check(alloc, raw) {
        Ok(image) => Ok(Some(image)),
        Err(CheckRefusal::Memory) => Err(Memory),
        Err(CheckRefusal::Broken(_)) => Ok(None),
    }
}

// The bytes of a program, as an image has them.
pub fn hex_of(alloc: Global, program: &[u32]) -> Result<String, Memory> {
    let mut text = String::new(alloc);
    for word in program.iter().copied() {
        let bytes = format!(in alloc; "{:08x}", word.swap_bytes())?;
        text.push_str(bytes.as_str())?;
    }
    Ok(text)
}
