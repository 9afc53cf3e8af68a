// What an image gives a domain, through whole runs: an empty capability slot, all rights of a page,
// a line that no moment interrupts.
use crate::answers::{image, tells};
use crate::timed::BLUE;
use std::alloc::Global;
use std::test::Fail;

/// Red's further keys, the rights of its code, its program, each word with its instruction, and
/// what two slots tell, with a bar between.
type Row = (&'static str, &'static str, &'static str, &'static str);

// The first slot is empty, and a slot all the same: POLL of it finds nothing, and POLL of the second
// the line; ALLOC fills the first, and not the second.
const EMPTY_SLOT: Row = (
    "caps = [\"none\", \"irq 3\"]\nlines = [3]",
    "\"rx\"",
    "93089000 addi x17, x0, 9
73000000 ecall
13051000 addi x10, x0, 1
73000000 ecall
93082000 addi x17, x0, 2
73000000 ecall
13051000 addi x10, x0, 1
73000000 ecall
93080000 addi x17, x0, 0
73000000 ecall",
    "status exited 4|replies 4 last 4:0 list 3:0 0:0 0:0 4:0",
);

// It reads an instruction of its own, and writes it over another that is still to come.
const ALL_RIGHTS: Row = (
    "",
    "\"rwx\"",
    "b7020100 lui x5, 0x10
03a34201 lw x6, 20(x5)
23a86200 sw x6, 16(x5)
93080000 addi x17, x0, 0
13051000 addi x10, x0, 1
13057500 addi x10, x10, 7
73000000 ecall",
    "status exited 14|retired 6|x6=00750513",
);

// It waits for a line for good.
const WAITING: Row = (
    "caps = [\"irq 3\"]\nlines = [3]",
    "\"rx\"",
    "9308a000 addi x17, x0, 10
73000000 ecall
f32200c0 rdcycle x5
93080000 addi x17, x0, 0
73000000 ecall",
    "domain 0 red
status running
retired 1
thread 0 waiting 3 pc 00010008 x17=0000000a
readings 0
replies 0
out 0
mem c0a0ed5b
domain 1 blue
",
);

// The bytes of a program, of which each line has a word's and its instruction.
fn bytes_in(alloc: Global, lines: &str) -> Result<String, Fail> {
    let mut bytes = String::new(alloc);
    for line in lines.split('\n') {
        bytes.push_str(line.split(' ').next().unwrap_or(""))?;
    }
    Ok(bytes)
}

#[test]
fn a_domain_has_what_its_image_says(rt: HostRuntime) -> Result<(), Fail> {
    let alloc = rt.alloc();
    for row in [EMPTY_SLOT, ALL_RIGHTS, WAITING] {
        let (keys, rights, program, texts) = row;
        let bytes = bytes_in(alloc, program)?;
        // (red's rights alone)
        let image = image(alloc, "", keys, bytes.as_str())?.replacen(alloc, "\"rx\"", rights, 1)?;
        tells(&rt, alloc, "tp run --slots 2", image.as_str(), BLUE)?;
        tells(&rt, alloc, "tp run --slots 2", image.as_str(), texts)?;
    }
    Ok(())
}
