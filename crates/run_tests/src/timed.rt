// Runs whose switches and readings tell what the caches cost.
use crate::answers::{DATA, MACHINE, SPINS, image, tells};
use std::alloc::Global;
use std::process::Abort;
use std::test::Fail;

// What is seen of blue, beside whatever red: its slot begins at 22300.
pub const BLUE: &str = "domain 1 blue
status exited 0
retired 5
thread 0 ended pc 00010018 x5=0000571c x6=000058f3
readings 2 last 22771 list 22300 22771
replies 1 last 0:0 list 0:0
out 1 42
mem 84311de1
";

// A program of red, and what two slots tell. It reads the clock and prints; it spins, and
// makes no call; it stores to its own code; it jumps to an address that is no multiple
// of 4; a branch not taken to such an address, and a write of a counter; it prints,
// and reads no clock.
//
//     csrrs x5, cycle, x0
//     addi x10, x0, 0x41; addi x17, x0, 1; ecall
//     csrrs x6, cycle, x0
//     addi x17, x0, 0; ecall
//
//     jal x0, 0
//
//     lui x5, 0x10; sw x0, 8(x5)
//
//     jalr x0, 2(x0)
//
//     bne x0, x0, .+2; csrrw x0, cycle, x0
//
//     addi x10, x0, 0x41; addi x17, x0, 1; ecall
//     addi x17, x0, 0; ecall
const ROWS: &str =
    "f32200c0130510049308100073000000732300c09308000073000000;retired 5|readings 2 last 6621 list 6150 6621|switch 0 used 820 pad 6150 count 1|switch 1 used 755 pad 6150 count 1
6f000000;retired 3286|switch 0 used 734 pad 6150 count 1
b702010023a40200;status stopped 15 pc 00010004 value 00010008|retired 1
67002000;status stopped 0 pc 00010000 value 00000002
63110000731000c0;status stopped 2 pc 00010004 value c0001073|retired 1
1305100493081000730000009308000073000000;status exited 0|retired 3|thread 0 ended pc 00010010|readings 0|replies 1 last 0:0 list 0:0|out 1 41";

#[test]
fn costs_are_told_by_switches_and_readings(rt: HostRuntime) -> Result<(), Fail> {
    let alloc = rt.alloc();
    for row in ROWS.split('\n') {
        let mut fields = row.split(';');
        let program = fields.next().unwrap_or("");
        let texts = fields.next().unwrap_or("");
        let image = image(alloc, "", "", program)?;
        tells(&rt, alloc, "tp run --slots 2", image.as_str(), BLUE)?;
        tells(&rt, alloc, "tp run --slots 2", image.as_str(), texts)?;
    }
    Ok(())
}

// It stores to 32 lines and exits: each dirty line is written back in the pad, and blue sees
// nothing of it.
//
//     lui x5, 0x20; addi x6, x0, 32
//     sw x6, 0(x5); addi x5, x5, 64; addi x6, x6, -1; bne x6, x0, .-12
//     addi x17, x0, 0; ecall
const DIRTIES: &str = "b70202001303000223a06200938202041303f3ffe31a03fe9308000073000000";

#[test]
fn dirty_lines_are_written_back_in_the_pad(rt: HostRuntime) -> Result<(), Fail> {
    let alloc = rt.alloc();
    let image = image(alloc, DATA, "", DIRTIES)?;
    let used = "switch 0 used 1030 pad 6150 count 1|switch 1 used 755 pad 6150 count 1";
    tells(&rt, alloc, "tp run --slots 2", image.as_str(), BLUE)?;
    tells(&rt, alloc, "tp run --slots 2", image.as_str(), used)
}

// Two ALLOCs: the second begins in its slot's last cycle, with every line of the first-level
// data cache dirty, and the next slot begins at its start all the same.
//
//     addi x17, x0, 2; ecall
//     addi x10, x0, 1; ecall
//     jal x0, 0
const ALLOCATES: &str = "930820007300000013051000730000006f000000";

#[test]
fn a_late_call_is_within_the_pad(rt: HostRuntime) -> Result<(), Fail> {
    let alloc = rt.alloc();
    let image = image(alloc, "", "", ALLOCATES)?;
    // (the first length alone)
    let image = image.replacen(alloc, "length = 10000", "length = 3975", 1)?;
    tells(
        &rt,
        alloc,
        "tp run --slots 2",
        image.as_str(),
        "switch 0 used 4935 pad 6150 count 1|readings 2 last 16746 list 16275 16746",
    )
}

// One domain in both entries: it is switched to itself, and finds on-core state fresh.
#[test]
fn a_domain_follows_itself(rt: HostRuntime) -> Result<(), Fail> {
    let alloc = rt.alloc();
    let image = format!(in alloc;
        "{MACHINE}[[domain]]\nname = \"red\"\ncolours = [1]\nentry = 0x10000\nsegment = [{{ page = 16, pages = 1, rights = \"rx\", hex = \"{SPINS}\" }}]\n[[schedule]]\ndomain = 0\nlength = 10000\npad = 6150\n[[schedule]]\ndomain = 0\nlength = 10000\npad = 6150\n"
    )?;
    tells(
        &rt,
        alloc,
        "tp run --slots 2",
        image.as_str(),
        "retired 6612|switch 0 used 454 pad 6150 count 1|switch 1 used 755 pad 6150 count 1",
    )
}
