// Images into whose second level dirty lines are written back.
use crate::answers::{READS_A, SCHEDULE, expect, image};
use std::alloc::Global;
use std::test::Fail;
use tp_run::Status;

const RUN: &str = "tp run --slots 2";

// The second level of the machine.
const L2: &str = "l2 = { sets = 256, ways = 4, policy = \"lru\" }";

// The image of red's program, with what its second level's table says of write-backs, and these pads.
fn written_back(alloc: Global, program: &str, says: &str, pads: [u32; 2]) -> Result<String, Fail> {
    let [first, last] = pads;
    let l2 = format!(in alloc; "l2 = {{ sets = 256, ways = 4, policy = \"lru\"{says} }}")?;
    let entries = format!(in alloc;
        "[[schedule]]\ndomain = 0\nlength = 10000\npad = {first}\n[[schedule]]\ndomain = 1\nlength = 10000\npad = {last}\n"
    )?;
    Ok(
        image(alloc, "", "", program)?
            .replace(alloc, L2, l2.as_str())?
            .replace(alloc, SCHEDULE, entries.as_str())?,
    )
}

const BACK: &str = ", back = true";

// Each miss of the second level may write a line back, but for those of the prefetch: 6 more for an
// instruction, 73 for an operation, 7 each to leave and to enter, ten cycles each.
const BOUND: &str = "instruction 366
operation 5007
leave 453
prefetch 472
flush 340
enter 443
bound 7080
";

#[test]
fn pads_are_wider_where_lines_are_written_back(rt: HostRuntime) -> Result<(), Fail> {
    let alloc = rt.alloc();
    let narrow = written_back(alloc, READS_A, BACK, [6150, 6150])?;
    expect(&rt, alloc, "tp bound", narrow.as_str(), Status::Done, BOUND)?;
    let line = "refused K17 at 0 found 6150 wanted 7080\n";
    expect(
        &rt,
        alloc,
        "tp check",
        narrow.as_str(),
        Status::Refused,
        line,
    )?;
    let last = written_back(alloc, READS_A, BACK, [7080, 7079])?;
    let line = "refused K17 at 1 found 7079 wanted 7080\n";
    expect(&rt, alloc, RUN, last.as_str(), Status::Refused, line)?;
    let wide = written_back(alloc, READS_A, BACK, [7080, 7080])?;
    let accepted = "accepted\n";
    expect(
        &rt,
        alloc,
        "tp check",
        wide.as_str(),
        Status::Done,
        accepted,
    )
}

// Nothing is given up twice in so short a run, so it is that of the same image without write-backs, but
// that each slot begins later: at 7080, and at 24160 = 2 * 7080 + 10000.
const REPORT: &str = "domain 0 red
status exited 0
retired 5
thread 0 ended pc 00010018 x5=00001ba8 x6=00001d7f
readings 2 last 7551 list 7080 7551
replies 1 last 0:0 list 0:0
out 1 41
mem 842115e1
domain 1 blue
status exited 0
retired 5
thread 0 ended pc 00010018 x5=00005e60 x6=00006037
readings 2 last 24631 list 24160 24631
replies 1 last 0:0 list 0:0
out 1 42
mem 84311de1
switch 0 used 820 pad 7080 count 1
switch 1 used 755 pad 7080 count 1
end
";

#[test]
fn a_short_run_begins_later(rt: HostRuntime) -> Result<(), Fail> {
    let alloc = rt.alloc();
    let back = written_back(alloc, READS_A, BACK, [7080, 7080])?;
    expect(&rt, alloc, RUN, back.as_str(), Status::Done, REPORT)?;
    // So it does with such pads where lines go past the second level.
    for says in ["", ", back = false"] {
        let past = written_back(alloc, READS_A, says, [7080, 7080])?;
        expect(&rt, alloc, RUN, past.as_str(), Status::Done, REPORT)?;
    }
    Ok(())
}
