// Interrupts, notifications and threads, through whole runs.
use crate::answers::{expect, image, tells};
use crate::timed::BLUE;
use std::test::Fail;
use tp_run::Status;

// It waits for line 3, whose moment is in blue's slot, and reads the clock.
//
//     addi x17, x0, 10; ecall
//     csrrs x5, cycle, x0
//     addi x17, x0, 0; ecall
pub const WAITS_FOR_A_LINE: &str = "9308a00073000000f32200c09308000073000000";

const ONE_MOMENT: &str = "caps = [\"irq 3\"]\nlines = [3]\nmoments = [[25000, 3]]";

// A moment in another's slot is delivered in the next slot of its own: blue sees nothing of it.
#[test]
fn an_interrupt_waits_for_its_owners_slot(rt: HostRuntime) -> Result<(), Fail> {
    let alloc = rt.alloc();
    let image = image(alloc, "", ONE_MOMENT, WAITS_FOR_A_LINE)?;
    tells(&rt, alloc, "tp run --slots 3", image.as_str(), BLUE)?;
    tells(
        &rt,
        alloc,
        "tp run --slots 3",
        image.as_str(),
        "domain 0 red\nstatus exited 0\nretired 3\nthread 0 ended pc 00010010 x5=0000976d x11=00000001\nreadings 1 last 38765 list 38765\nreplies 1 last 0:1 list 0:1\nout 0\n|switch 0 used 744 pad 6150 count 1|switch 1 used 755 pad 6150 count 2",
    )
}

// It waits for line 5, reads the clock, and polls line 3.
//
//     addi x10, x0, 1; addi x17, x0, 10; ecall
//     csrrs x5, cycle, x0
//     addi x17, x0, 9; ecall
//     addi x17, x0, 0; ecall
const WAITS_AND_POLLS: &str = "130510009308a00073000000f32200c093089000730000009308000073000000";

const TWO_MOMENTS: &str =
    "caps = [\"irq 3\", \"irq 5\"]\nlines = [3, 5]\nmoments = [[9000, 3], [9000, 5]]";

// The clock jumps to the moments of an idle domain, and the lesser line is delivered first.
#[test]
fn moments_are_delivered_in_order(rt: HostRuntime) -> Result<(), Fail> {
    let alloc = rt.alloc();
    let image = image(alloc, "", TWO_MOMENTS, WAITS_AND_POLLS)?;
    tells(
        &rt,
        alloc,
        "tp run --slots 1",
        image.as_str(),
        "retired 5|readings 1 last 9334 list 9334|replies 2 last 0:1 list 0:1 0:1|domain 1 blue\nstatus running\nretired 0\n",
    )
}

// Eight SPAWNs, the last of which finds all threads live.
//
//     addi x5, x0, 8; lui x10, 0x10
//     addi x17, x0, 12; ecall
//     addi x6, x6, 1; bne x6, x5, .-16
//     addi x17, x0, 0; ecall
const SPAWNS: &str = "93028000370501009308c0007300000013031300e31853fe9308000073000000";

#[test]
fn a_domain_has_eight_threads(rt: HostRuntime) -> Result<(), Fail> {
    let alloc = rt.alloc();
    let image = image(alloc, "", "", SPAWNS)?;
    tells(
        &rt,
        alloc,
        "tp run --slots 2",
        image.as_str(),
        "status exited 13|retired 34|thread 3 ended pc 00010000 x10=00000002|replies 8 last 13:0 list 0:1 0:2 0:3 0:4 0:5 0:6 0:7 13:0",
    )
}

// POLL, SIGNAL, POLL.
//
//     addi x17, x0, 9; ecall
//     addi x17, x0, 11; ecall
//     addi x17, x0, 9; ecall
//     addi x17, x0, 0; ecall
const SIGNALS: &str = "93089000730000009308b0007300000093089000730000009308000073000000";

pub const ONE_LINE: &str = "caps = [\"irq 3\"]\nlines = [3]";

#[test]
fn a_line_is_signalled_by_its_owner(rt: HostRuntime) -> Result<(), Fail> {
    let alloc = rt.alloc();
    let image = image(alloc, "", ONE_LINE, SIGNALS)?;
    tells(
        &rt,
        alloc,
        "tp run --slots 2",
        image.as_str(),
        "replies 3 last 0:1 list 0:0 0:0 0:1",
    )?;
    let both = image.replace(alloc, "name = \"blue\"", "name = \"blue\"\nlines = [3]")?;
    expect(
        &rt,
        alloc,
        "tp check",
        both.as_str(),
        Status::Refused,
        "refused K14 at 1 found 3 wanted 0\n",
    )
}
