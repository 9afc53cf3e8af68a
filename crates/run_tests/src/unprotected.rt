// Runs with a guard off: what a domain then reads tells its neighbours apart.
use crate::answers::{DATA, MACHINE, READS_A, READS_B, SPINS, answer, expect, image, tells};
use crate::interrupts::{ONE_LINE, WAITS_FOR_A_LINE};
use crate::timed::BLUE;
use std::alloc::Global;
use std::process::Abort;
use std::test::Fail;
use tp_run::Status;

/// A guard, red's further keys and its program, and what blue reads where the guard is off.
type Row = (&'static str, &'static str, &'static str, &'static str);

// Red waits for a line whose moment is in blue's slot, between blue's two readings.
const A_MOMENT: &str = "caps = [\"irq 3\"]\nlines = [3]\nmoments = [[22400, 3]]";

// Two reds for each guard, beside which blue reads the same while all guards are on.
const ROWS: [Row; 10] = [
    ("flush", "", READS_A, "22300 22773"),
    ("flush", "", SPINS, "22300 22763"),
    ("prefetch", "", READS_A, "22300 22771"),
    ("prefetch", "", SPINS, "22300 22811"),
    ("pad", "", READS_A, "11575 12046"),
    ("pad", "", SPINS, "11489 11960"),
    ("clone", "", READS_A, "22300 22531"),
    ("clone", "", SPINS, "22300 22771"),
    ("irq", ONE_LINE, WAITS_FOR_A_LINE, "22300 22771"),
    ("irq", A_MOMENT, WAITS_FOR_A_LINE, "22300 23086"),
];

// The report says first that this guard is off, and has this text.
fn says(rt: &impl Abort, alloc: Global, off: &str, image: &str, text: &str) -> Result<(), Fail> {
    let line = format!(in alloc; "tp ablate --off {off} --slots 2")?;
    let (status, bytes) = answer(alloc, line.as_str(), image)?;
    assert_eq!(rt; status, Status::Done, "at {line}");
    let report = String::from_utf8_lossy(alloc, bytes.as_slice())?;
    let head = format!(in alloc; "unprotected {off}\ndomain 0 red\n")?;
    assert!(rt; report.starts_with(head.as_str()), "{head} begins {report}");
    assert!(rt; report.contains(text), "{text} in {report}");
    Ok(())
}

#[test]
fn without_a_guard_blue_reads_what_red_does(rt: HostRuntime) -> Result<(), Fail> {
    let alloc = rt.alloc();
    for row in ROWS {
        let (off, keys, red, readings) = row;
        let image = image(alloc, "", keys, red)?;
        let text = format!(in alloc; "list {readings}\nreplies 1 last 0:0 list 0:0\nout 1 42\n")?;
        says(&rt, alloc, off, image.as_str(), text.as_str())?;
        tells(&rt, alloc, "tp run --slots 2", image.as_str(), BLUE)?;
    }
    Ok(())
}

// It loads a line of its data page, waits for line 4, whose moment comes before its second slot, loads
// the page's next line, and reads the clock before and after it loads the first line again.
//
//     lui x5, 0x20; lw x6, 0x600(x5)
//     addi x17, x0, 10; ecall
//     lw x6, 0x640(x5)
//     csrrs x7, cycle, x0; lw x6, 0x600(x5); csrrs x7, cycle, x0
//     addi x17, x0, 0; ecall
const LOADS_AGAIN: &str =
    "b702020003a302609308a0007300000003a30264f32300c003a30260f32300c09308000073000000";

const BLUES_KEYS: &str = "name = \"blue\"\ncaps = [\"irq 4\"]\nlines = [4]\nmoments = [[60000, 4]]";

const FOUR_PAGES: &str = ", { page = 32, pages = 4, rights = \"rw\", hex = \"\" }";

// It stores for ever to as many lines as a set has ways: in any cache the set of one is that of all.
//
//     lui x5, 0x20; lui x6, 0x21; lui x7, 0x22; lui x8, 0x23
//     sw x0, 0x600(x5); sw x0, 0x600(x6); sw x0, 0x600(x7); sw x0, 0x600(x8); jal x0, .-16
const STORES_IN_ONE_SET: &str =
    "b702020037130200b72302003734020023a002602320036023a00360232004606ff01fff";

// The image with this red, beside a blue that loads again.
fn beside_loads(alloc: Global, segments: &str, red: &str) -> Result<String, Fail> {
    let reads = format!(in alloc; "{READS_B}\" }}")?;
    let loads = format!(in alloc; "{LOADS_AGAIN}\" }}{DATA}")?;
    let image = image(alloc, segments, "", red)?
        .replace(alloc, reads.as_str(), loads.as_str())?
        .replace(alloc, "name = \"blue\"", BLUES_KEYS)?;
    Ok(image)
}

// How many cycles lie between blue's two readings.
fn between_readings(alloc: Global, line: &str, image: &str) -> Result<Option<u32>, Fail> {
    let (_, bytes) = answer(alloc, line, image)?;
    let report = String::from_utf8_lossy(alloc, bytes.as_slice())?;
    Ok(difference(report.as_str()))
}

fn difference(report: &str) -> Option<u32> {
    let (_, blue) = report.split_once("domain 1 blue")?;
    let (_, readings) = blue.split_once("readings 2 last ")?;
    let (second, list) = readings.split_once(" list ")?;
    let (first, _) = list.split_once(' ')?;
    second.parse::<u32>().ok()?.checked_sub(first.parse().ok()?)
}

#[test]
fn without_colours_red_takes_blues_lines(rt: HostRuntime) -> Result<(), Fail> {
    let alloc = rt.alloc();
    for (segments, red, between) in [(FOUR_PAGES, STORES_IN_ONE_SET, 56), ("", SPINS, 16)] {
        let image = beside_loads(alloc, segments, red)?;
        for (line, due) in [
            ("tp ablate --off colour --slots 4", between),
            ("tp run --slots 4", 16),
        ] {
            let found = between_readings(alloc, line, image.as_str())?;
            assert_eq!(rt; found, Some(due), "at {line}");
        }
    }
    Ok(())
}

// An image that breaks a rule is refused, and one domain is run, whatever guard is off.
#[test]
fn each_guard_may_be_off_in_each_accepted_image(rt: HostRuntime) -> Result<(), Fail> {
    let alloc = rt.alloc();
    let broken = image(alloc, "", "", READS_A)?.replace(alloc, "pad = 6150", "pad = 6149")?;
    let single = format!(in alloc;
        "{MACHINE}[[domain]]\nname = \"red\"\ncolours = [1]\nentry = 0x10000\nsegment = [{{ page = 16, pages = 1, rights = \"rx\", hex = \"{READS_A}\" }}]\n[[schedule]]\ndomain = 0\nlength = 10000\npad = 6150\n"
    )?;
    for off in ["flush", "prefetch", "pad", "colour", "clone", "irq"] {
        let line = format!(in alloc; "tp ablate --off {off} --slots 2")?;
        let refusal = "refused K17 at 0 found 6149 wanted 6150\n";
        expect(
            &rt,
            alloc,
            line.as_str(),
            broken.as_str(),
            Status::Refused,
            refusal,
        )?;
        says(
            &rt,
            alloc,
            off,
            single.as_str(),
            "status exited 0\nretired 5\n",
        )?;
    }
    Ok(())
}
