// What no clause says: that the key table is the format's, row by row, and that an image is read.
use crate::equal::is_equal;
use image_record::{
    Raw, RawCache, RawCosts, RawDomain, RawEntry, RawMoment, RawMuldiv, RawSegment, ReadRefusal,
    Refusal,
};
use image_text::read_image;
use std::alloc::Global;
use std::process::Abort;
use std::test::Fail;

mod harts;
mod level2;
mod mail;
mod refusal;
mod unknown;
mod versions;

const IMAGE: &str = r#"frames = 64
shared = 512
line = 64
l1i = { sets = 16, ways = 2, policy = "lru" }
l1d = { sets = 16, ways = 2, policy = "lru" }
l2 = { sets = 256, ways = 4, policy = "lru" }
tlb = { sets = 4, ways = 2, policy = "lru" }
predictor = 16
costs = { base = 1, l1 = 1, l2 = 8, mem = 40, wb = 10, tlb = 1, mispredict = 3, trap = 10, flush = 20 }
[[domain]]
name = "red"
colours = [1]
entry = 0x10000
segment = [{ page = 16, pages = 1, rights = "rx", hex = "f32200c0130510049308100073000000732300c09308000073000000" }]
[[domain]]
name = "blue"
colours = [2]
entry = 0x10000
segment = [{ page = 16, pages = 1, rights = "rx", hex = "f32200c0130520049308100073000000732300c09308000073000000" }]
[[schedule]]
domain = 0
length = 10000
pad = 6150
[[schedule]]
domain = 1
length = 10000
pad = 6150
"#;

// The programs of the image.
//
//     csrrs x5, cycle, x0
//     addi x10, x0, 0x41; addi x17, x0, 1; ecall
//     csrrs x6, cycle, x0
//     addi x17, x0, 0; ecall
const RED_HEX: &str = "f32200c0130510049308100073000000732300c09308000073000000";

//     csrrs x5, cycle, x0
//     addi x10, x0, 0x42; addi x17, x0, 1; ecall
//     csrrs x6, cycle, x0
//     addi x17, x0, 0; ecall
const BLUE_HEX: &str = "f32200c0130520049308100073000000732300c09308000073000000";

const BLUE_SEGMENT: &str = "{ page = 16, pages = 1, rights = \"rx\", hex = \"f32200c013052";

const SMALL_SEGMENT: &str = "{ page = 0, pages = 1, rights = \"\", hex = \"\" }, ";

/// A text of the image, what stands in its place, the row that this breaks, and
/// the domain or entry.
type Change = (&'static str, &'static str, i64, i64);

const OF_THE_MACHINE: [Change; 12] = [
    ("frames = 64\n", "", 1, 0),
    ("frames = 64", "frames = { x = 1 }", 1, 0),
    ("shared = 512", "shared = \"512\"", 2, 0),
    ("line = 64\n", "", 3, 0),
    ("l1i = { sets = 16,", "l1i = {", 4, 0),
    ("l1d = { sets = 16", "l1d = { sets = 1.5", 5, 0),
    ("4, policy = \"lru\"", "4, policy = 4", 6, 0),
    ("tlb = {", "tlb = 2\nlost = {", 7, 0),
    ("predictor = 16", "predictor = true", 8, 0),
    (", flush = 20", "", 9, 0),
    ("[[domain]]", "[[domains]]", 10, 0),
    ("[[schedule]]", "[[schedule.x]]", 22, 0),
];

const OF_DOMAINS: [Change; 20] = [
    ("name = \"blue\"\n", "", 11, 1),
    ("colours = [2]", "colours = [2, \"3\"]", 12, 1),
    ("entry = 0x10000", "entry = -1", 13, 0),
    ("0x10000", "4294967296", 13, 0),
    ("[2]\nentry = 0x10000", "[2]", 13, 1),
    ("segment = [", "segment = []\nlost = [", 14, 0),
    ("segment = [", "segment = [1, ", 14, 0),
    (
        "2]\nentry = 0x10000\nsegment = [{ page = 16",
        "2]\nentry = 0\nsegment = [{ page = 1048576",
        15,
        1,
    ),
    ("pages = 1", "pages = 0", 16, 0),
    ("pages = 1", "pages = 65", 16, 0),
    ("rights = \"rx\"", "rights = [\"rx\"]", 17, 0),
    (
        ", hex = \"f32200c0130520049308100073000000732300c09308000073000000\"",
        "",
        18,
        1,
    ),
    ("[2]\n", "[2]\ncaps = [\"irq 3\", 3]\n", 19, 1),
    ("[2]\n", "[2]\nlines = 3\n", 20, 1),
    ("[2]\n", "[2]\nlines = [{ x = 1 }]\n", 20, 1),
    ("[2]\n", "[2]\nmoments = [[1, 2], [3]]\n", 21, 1),
    ("[2]\n", "[2]\nmoments = [[1, 2, 3]]\n", 21, 1),
    ("[1]\n", "[1]\nmoments = [[1, \"2\"]]\n", 21, 0),
    ("pages = 1, rights = \"rx\"", "rights = 3", 16, 0),
    ("colours = [2]\nentry", "entries", 12, 1),
];

const OF_ENTRIES: [Change; 4] = [
    ("domain = 1\n", "", 23, 1),
    ("domain = 1\n", "x = 1\n", 23, 1),
    ("1\nlength = 10000", "1\nlength = \"1\"", 24, 1),
    ("pad = 6150", "pad = 6150.0", 25, 0),
];

const OF_LATER_KEYS: [Change; 16] = [
    ("= 16\n", "= 16\nhistory = \"8\"\n", 30, 0),
    ("= 16\n", "= 16\nhistory = 1.0\n", 30, 0),
    ("= 16\n", "= 16\nmuldiv = 4\n", 37, 0),
    ("= 16\n", "= 16\nmuldiv = []\n", 37, 0),
    ("= 16\n", "= 16\nmuldiv = {}\n", 37, 0),
    ("= 16\n", "= 16\nmuldiv = { div = 2 }\n", 37, 0),
    ("= 16\n", "= 16\nmuldiv = { mul = 4 }\n", 37, 0),
    ("= 16\n", "= 16\nmuldiv = { mul = \"4\", div = 2 }\n", 37, 0),
    ("= 16\n", "= 16\ntargets = \"16\"\n", 38, 0),
    ("= 16\n", "= 16\ntargets = true\n", 38, 0),
    ("= 16\n", "= 16\nhistory = true\nmuldiv = 4\n", 30, 0),
    ("= 16\n", "= 16\nmuldiv = 4\ntargets = []\n", 37, 0),
    (
        "= 16\n",
        "= 16\nmuldiv = { mul = 4, div = \"2\", rem = 1 }\n",
        26,
        0,
    ),
    ("= 16\n", "= 16\ntargets = { x = 1 }\n", 26, 0),
    ("[2]\n", "[2]\nhistory = 1\n", 26, 0),
    ("domain = 1\n", "history = true\n", 23, 1),
];

const OF_OTHER_KEYS: [Change; 9] = [
    ("frames", "x = 1\nframes", 26, 0),
    ("frames", "caps = []\nframes", 26, 0),
    ("{ sets = 4", "{ x = 1, sets = 4", 26, 0),
    ("{ base", "{ sets = 1, base", 26, 0),
    ("[2]\n", "[2]\nx = 1\n", 26, 0),
    ("[2]\n", "[2]\npages = 1\n", 26, 0),
    ("{ page = 16", "{ x = 1, page = 16", 26, 0),
    ("domain = 1\n", "domain = 1\nx = 1\n", 26, 0),
    ("line = 64\n", "x = 1\n", 3, 0),
];

/// A text of the image, and what may stand in its place.
const READ: [(&str, &str); 5] = [
    ("0x10000", "4294967295"),
    ("page = 16", "page = 1048575"),
    ("pages = 1", "pages = 64"),
    ("[2]\n", "[2]\ncaps = []\nlines = []\nmoments = []\n"),
    ("[2]\n", "[2]\n# a comment\n"),
];

/// A number of frames as it is written, and the number.
const NUMBERS: [(&str, i64); 6] = [
    ("frames = 9223372036854775807", i64::MAX),
    ("frames = -9223372036854775808", i64::MIN),
    ("frames = 1_000", 1000),
    ("frames = +7", 7),
    ("frames = 0xfF", 255),
    ("frames = 0b101", 5),
];

fn answer(alloc: Global, bytes: &[u8]) -> Result<Option<Refusal>, ReadRefusal> {
    match read_image(alloc, bytes) {
        Ok(raw) => {
            drop(raw);
            Ok(None)
        }
        Err(ReadRefusal::Broken(refusal)) => Ok(Some(refusal)),
        Err(ReadRefusal::Memory) => Err(ReadRefusal::Memory),
    }
}

// What is read of an image with one text in the place of another.
fn read_with(alloc: Global, image: &str, old: &str, new: &str) -> Result<Raw, ReadRefusal> {
    let text = image.replace(alloc, old, new)?;
    read_image(alloc, text.as_bytes())
}

// The answer to an image with one text in the place of another.
fn answer_to(
    alloc: Global,
    image: &str,
    old: &str,
    new: &str,
) -> Result<Option<Refusal>, ReadRefusal> {
    let text = image.replace(alloc, old, new)?;
    answer(alloc, text.as_bytes())
}

// Blue has so many segments more.
fn with_segments(alloc: Global, many: usize) -> Result<Option<Refusal>, ReadRefusal> {
    let mut segments = SMALL_SEGMENT.repeat(alloc, many)?;
    segments.push_str(BLUE_SEGMENT)?;
    answer_to(alloc, IMAGE, BLUE_SEGMENT, segments.as_str())
}

fn by(rule: u8, at: i64, found: i64) -> Option<Refusal> {
    Some(Refusal {
        rule,
        at,
        found,
        wanted: 0,
    })
}

// No `?` stands in the tests, where each would be proved with all that is live.
fn expect(rt: &impl Abort, found: Result<Option<Refusal>, ReadRefusal>, wanted: Option<Refusal>) {
    is_equal(rt, "the answer", found, Ok(wanted));
}

fn has(rt: &impl Abort, image: &str, old: &str) {
    assert!(rt; image.contains(old), "{old} is none of the image");
}

fn expect_of(
    rt: &impl Abort,
    alloc: Global,
    image: &str,
    old: &str,
    new: &str,
    wanted: Option<Refusal>,
) {
    has(rt, image, old);
    assert_eq!(rt;
        answer_to(alloc, image, old, new),
        Ok(wanted),
        "{old} to {new}"
    );
}

fn all_break(rt: &impl Abort, alloc: Global, image: &str, changes: &[Change]) {
    for &(old, new, row, found) in changes {
        expect_of(rt, alloc, image, old, new, by(2, row, found));
    }
}

#[test]
fn a_broken_row_is_named(rt: HostRuntime) {
    let alloc = rt.alloc();
    all_break(&rt, alloc, IMAGE, &OF_THE_MACHINE);
    all_break(&rt, alloc, IMAGE, &OF_DOMAINS);
    all_break(&rt, alloc, IMAGE, &OF_ENTRIES);
    all_break(&rt, alloc, IMAGE, &OF_OTHER_KEYS);
    all_break(&rt, alloc, IMAGE, &OF_LATER_KEYS);
    expect(&rt, with_segments(alloc, 16), by(2, 14, 1));
}

#[test]
fn a_text_that_is_no_image_is_refused(rt: HostRuntime) {
    let alloc = rt.alloc();
    expect(&rt, answer(alloc, b""), by(2, 1, 0));
    expect(&rt, answer(alloc, b"frames = "), by(1, 0, 0));
    expect(&rt, answer(alloc, b"frames = 64 # \xff"), by(1, 0, 0));
    expect_of(
        &rt,
        alloc,
        IMAGE,
        "= 64",
        "= 9223372036854775808",
        by(1, 0, 0),
    );
}

fn is_read(rt: &impl Abort, alloc: Global, old: &str, new: &str) {
    expect_of(rt, alloc, IMAGE, old, new, None);
}

#[test]
fn what_breaks_no_row_is_read(rt: HostRuntime) {
    for &(old, new) in &READ {
        is_read(&rt, rt.alloc(), old, new);
    }
    expect(&rt, with_segments(rt.alloc(), 15), None);
}

// The frames that are read where this is written.
fn frames_of(alloc: Global, written: &str) -> Result<i64, ReadRefusal> {
    let raw = read_with(alloc, IMAGE, "frames = 64", written)?;
    let frames = raw.frames;
    drop(raw);
    Ok(frames)
}

#[test]
fn numbers_are_read_as_they_are_written(rt: HostRuntime) {
    for &(written, number) in &NUMBERS {
        is_equal(&rt, written, frames_of(rt.alloc(), written), Ok(number));
    }
}

/// Texts of the image, and what stands in their place where numbers differ and
/// blue has optional keys.
const FULL: [(&str, &str); 5] = [
    (
        "= 16\n",
        "= 16\nhistory = -3\nmuldiv = { mul = 0, div = 1001 }\ntargets = 3\n",
    ),
    (
        "[2]\n",
        "[2]\ncaps = [\"irq 3\", \"page 32\"]\nlines = [3, -5]\nmoments = [[9000, 3], [25000, -1]]\n",
    ),
    (
        "l1i = { sets = 16, ways = 2, policy = \"lru\"",
        "l1i = { sets = 32, ways = 1, policy = \"fifo\"",
    ),
    ("base = 1, l1 = 1", "base = 2, l1 = 5"),
    ("wb = 10, tlb = 1", "wb = 9, tlb = 7"),
];

fn full_image(alloc: Global) -> Result<String, ReadRefusal> {
    let mut text = String::from_str(alloc, IMAGE)?;
    for (old, new) in &FULL {
        text = text.replace(alloc, old, new)?;
    }
    Ok(text)
}

fn full_record(alloc: Global) -> Result<Raw, ReadRefusal> {
    read_image(alloc, full_image(alloc)?.as_bytes())
}

fn are_numbers(rt: &impl Abort, found: &[i64], wanted: &[i64]) {
    is_equal(rt, "numbers", found, wanted);
}

fn is_text(rt: &impl Abort, found: &str, wanted: &str) {
    is_equal(rt, "text", found, wanted);
}

fn is_cache(rt: &impl Abort, cache: &RawCache, sets: i64, ways: i64, policy: &str) {
    are_numbers(rt, &[cache.sets, cache.ways], &[sets, ways]);
    is_text(rt, cache.policy.as_str(), policy);
}

fn is_machine(rt: &impl Abort, raw: &Raw) {
    let costs = RawCosts {
        base: 2,
        l1: 5,
        l2: 8,
        mem: 40,
        wb: 9,
        tlb: 7,
        mispredict: 3,
        trap: 10,
        flush: 20,
    };
    are_numbers(
        rt,
        &[raw.frames, raw.shared, raw.line, raw.predictor],
        &[64, 512, 64, 16],
    );
    is_equal(rt, "costs", raw.costs, costs);
    has_later(rt, raw, -3, Some(RawMuldiv { mul: 0, div: 1001 }), Some(3));
    is_cache(rt, &raw.l1i, 32, 1, "fifo");
    is_cache(rt, &raw.l1d, 16, 2, "lru");
    is_cache(rt, &raw.l2, 256, 4, "lru");
    is_cache(rt, &raw.tlb, 4, 2, "lru");
}

fn has_later(
    rt: &impl Abort,
    raw: &Raw,
    history: i64,
    muldiv: Option<RawMuldiv>,
    targets: Option<i64>,
) {
    is_equal(rt, "history", raw.history, history);
    is_equal(rt, "muldiv", raw.muldiv, muldiv);
    is_equal(rt, "targets", raw.targets, targets);
}

fn is_code(rt: &impl Abort, segment: &RawSegment, hex: &str) {
    are_numbers(
        rt,
        &[i64::from(segment.page), i64::from(segment.pages)],
        &[16, 1],
    );
    is_text(rt, segment.rights.as_str(), "rx");
    is_text(rt, segment.hex.as_str(), hex);
}

fn has_code(rt: &impl Abort, segments: &[RawSegment], hex: &str) {
    assert_eq!(rt; segments.len(), 1);
    is_code(rt, &segments[0], hex);
}

fn is_red(rt: &impl Abort, domain: &RawDomain) {
    is_text(rt, domain.name.as_str(), "red");
    are_numbers(rt, &[i64::from(domain.entry)], &[65536]);
    are_numbers(rt, domain.colours.as_slice(), &[1]);
    are_numbers(rt, domain.lines.as_slice(), &[]);
    are_moments(rt, domain.moments.as_slice(), &[]);
    is_equal(rt, "caps", domain.caps.len(), 0);
    has_code(rt, domain.segments.as_slice(), RED_HEX);
}

fn is_blue(rt: &impl Abort, domain: &RawDomain) {
    is_text(rt, domain.name.as_str(), "blue");
    are_numbers(rt, &[i64::from(domain.entry)], &[65536]);
    are_numbers(rt, domain.colours.as_slice(), &[2]);
    are_numbers(rt, domain.lines.as_slice(), &[3, -5]);
    are_moments(rt, domain.moments.as_slice(), &BLUE_MOMENTS);
    are_caps(rt, domain.caps.as_slice(), "irq 3", "page 32");
    has_code(rt, domain.segments.as_slice(), BLUE_HEX);
}

const BLUE_MOMENTS: [RawMoment; 2] = [
    RawMoment { at: 9000, line: 3 },
    RawMoment {
        at: 25000,
        line: -1,
    },
];

fn are_moments(rt: &impl Abort, found: &[RawMoment], wanted: &[RawMoment]) {
    is_equal(rt, "moments", found, wanted);
}

fn are_caps(rt: &impl Abort, caps: &[String], first: &str, second: &str) {
    assert_eq!(rt; caps.len(), 2);
    is_text(rt, caps[0].as_str(), first);
    is_text(rt, caps[1].as_str(), second);
}

const ENTRIES: [RawEntry; 2] = [
    RawEntry {
        domain: 0,
        length: 10000,
        pad: 6150,
        hart: 0,
    },
    RawEntry {
        domain: 1,
        length: 10000,
        pad: 6150,
        hart: 0,
    },
];

fn are_both(rt: &impl Abort, domains: &[RawDomain]) {
    assert_eq!(rt; domains.len(), 2);
    is_red(rt, &domains[0]);
    is_blue(rt, &domains[1]);
}

#[test]
fn an_image_gives_its_record(rt: HostRuntime) -> Result<(), Fail> {
    let raw = full_record(rt.alloc())?;
    is_machine(&rt, &raw);
    is_equal(&rt, "entries", raw.schedule.as_slice(), ENTRIES.as_slice());
    are_both(&rt, raw.domains.as_slice());
    drop(raw);
    Ok(())
}

#[test]
fn what_is_missing_is_none(rt: HostRuntime) -> Result<(), Fail> {
    let raw = read_image(rt.alloc(), IMAGE.as_bytes())?;
    has_later(&rt, &raw, 0, None, None);
    drop(raw);
    Ok(())
}
