// An image whose places are changed, and the first rule that it breaks; and an
// image that is accepted, with what it says.
use crate::equal::is_equal;
use cycle_cost::Costs;
use image_check::{
    CacheShape, CheckRefusal, Checked, Entry, Hardware, InitialCap, Moment, Own, Policy, Public,
    Segment, Unpadded, check, check_but_pads,
};
use image_record::{Raw, RawEntry, Refusal};
use image_text::read_image;
use pad_bound::{Bound, bound};
use std::alloc::Global;
use std::process::Abort;
use tp_base::Rights;

mod calls;
mod cases;
mod extensions;
mod harts;
mod level2;
mod limits;
mod mail;
mod orders;

// Red's code is three bytes, one fewer than an instruction has; blue's is `jal x0, 0`.
const IMAGE: &str = r#"frames = 64
shared = 512
line = 64
l1i = { sets = 16, ways = 2, policy = "lru" }
l1d = { sets = 16, ways = 2, policy = "lru" }
l2 = { sets = 256, ways = 4, policy = "lru" }
tlb = { sets = 4, ways = 2, policy = "lru" }
predictor = 16
costs = { base = 1, l1 = 1, l2 = 8, mem = 40, wb = 10, tlb = 1, mispredict = 3, trap = 10, flush = 20 }
[[domain]]
name = "red"
colours = [1]
entry = 0x10000
segment = [{ page = 16, pages = 1, rights = "rx", hex = "1300FF" }]
[[domain]]
name = "blue"
colours = [2]
entry = 0x10004
caps = ["page 16", "none", "irq 3", "none"]
segment = [{ page = 16, pages = 1, rights = "rx", hex = "6f000000" }, { page = 32, pages = 3, rights = "rw", hex = "" }]
lines = [7, 3]
moments = [[9000, 3], [9000, 7]]
[[schedule]]
domain = 0
length = 10000
pad = 6150
[[schedule]]
domain = 1
length = 1000
pad = 1000000
"#;

/// Of 32 colours, with two frames each: the shared region's third frame would
/// be frame 64.
const NARROW: &str = r#"frames = 64
shared = 8256
line = 64
l1i = { sets = 16, ways = 2, policy = "lru" }
l1d = { sets = 16, ways = 2, policy = "lru" }
l2 = { sets = 2048, ways = 4, policy = "lru" }
tlb = { sets = 4, ways = 2, policy = "lru" }
predictor = 16
costs = { base = 1, l1 = 1, l2 = 8, mem = 40, wb = 10, tlb = 1, mispredict = 3, trap = 10, flush = 20 }
[[domain]]
name = "red"
colours = [1, 2, 3, 31]
entry = 0x10000
segment = [{ page = 16, pages = 1, rights = "rx", hex = "" }]
[[schedule]]
domain = 0
length = 10000
pad = 6150
"#;

// The image with each second text in the place of the first of its first text.
fn image_with(alloc: Global, changes: &[(&str, &str)]) -> Result<String, CheckRefusal> {
    let mut text = String::from_str(alloc, IMAGE)?;
    for (old, new) in changes {
        text = text.replacen(alloc, old, new, 1)?;
    }
    Ok(text)
}

fn checked(alloc: Global, text: &str) -> Result<Checked, CheckRefusal> {
    check(alloc, read_image(alloc, text.as_bytes())?)
}

fn checked_with(alloc: Global, changes: &[(&str, &str)]) -> Result<Checked, CheckRefusal> {
    checked(alloc, image_with(alloc, changes)?.as_str())
}

fn checked_but_pads(alloc: Global, text: &str) -> Result<Unpadded, CheckRefusal> {
    check_but_pads(alloc, read_image(alloc, text.as_bytes())?)
}

fn unpadded_with(alloc: Global, changes: &[(&str, &str)]) -> Result<Unpadded, CheckRefusal> {
    checked_but_pads(alloc, image_with(alloc, changes)?.as_str())
}

// The bound of the image with these changes, whose pads may be too short.
fn bound_with(alloc: Global, changes: &[(&str, &str)]) -> Result<Bound, CheckRefusal> {
    let image = unpadded_with(alloc, changes)?;
    image.kept();
    let bound = bound(&image.shape());
    drop(image);
    Ok(bound)
}

// What is named where an image is refused.
fn named<T: Drop>(answer: Result<T, CheckRefusal>) -> Result<Option<Refusal>, CheckRefusal> {
    match answer {
        Ok(_) => Ok(None),
        Err(CheckRefusal::Broken(refusal)) => Ok(Some(refusal)),
        Err(CheckRefusal::Memory) => Err(CheckRefusal::Memory),
    }
}

// An entry's domain and hart.
type Place = (i64, i64);

fn entries_at(alloc: Global, pad: i64, places: &[Place]) -> Result<Vec<RawEntry>, CheckRefusal> {
    let mut entries = Vec::new(alloc);
    for (domain, hart) in places {
        entries.push(RawEntry {
            domain: *domain,
            length: 10_000,
            pad,
            hart: *hart,
        })?;
    }
    Ok(entries)
}

fn first_pad(entries: &[RawEntry]) -> i64 {
    match entries {
        [first, ..] => first.pad,
        [] => 0,
    }
}

// An image's record, its schedule with these entries in place of the text's, if there are any, each
// with the pad of the text's first.
fn record_on(alloc: Global, text: &str, places: &[Place]) -> Result<Raw, CheckRefusal> {
    let mut raw = read_image(alloc, text.as_bytes())?;
    match place(alloc, &mut raw.schedule, places) {
        Ok(()) => Ok(raw),
        Err(refusal) => {
            drop(raw);
            Err(refusal)
        }
    }
}

fn first_broken(
    alloc: Global,
    image: &str,
    places: &[Place],
) -> Result<Option<Refusal>, CheckRefusal> {
    named(check(alloc, record_on(alloc, image, places)?))
}

fn first_but_pads(
    alloc: Global,
    image: &str,
    places: &[Place],
) -> Result<Option<Refusal>, CheckRefusal> {
    named(check_but_pads(alloc, record_on(alloc, image, places)?))
}

fn place(
    alloc: Global,
    schedule: &mut Vec<RawEntry>,
    places: &[Place],
) -> Result<(), CheckRefusal> {
    if !places.is_empty() {
        let pad = first_pad(schedule.as_slice());
        *schedule = entries_at(alloc, pad, places)?;
    }
    Ok(())
}

// The image with the new text, so many times, in the place of the first old one.
fn replaced(
    alloc: Global,
    image: &str,
    old: &str,
    new: &str,
    times: usize,
) -> Result<String, CheckRefusal> {
    let old = old.replace(alloc, "~", "\n")?;
    let new = new.replace(alloc, "~", "\n")?.repeat(alloc, times)?;
    Ok(image.replacen(alloc, old.as_str(), new.as_str(), 1)?)
}

// What a line changes in the image, if anything.
fn changed(alloc: Global, image: &str, line: &str) -> Result<Option<String>, CheckRefusal> {
    let Some((old, new)) = line.split_once(" => ") else {
        return Ok(None);
    };
    let (new, times) = new.split_once(" * ").unwrap_or((new, "1"));
    let times = times.parse::<usize>().unwrap_or(1);
    Ok(Some(replaced(alloc, image, old, new, times)?))
}

fn text_of(alloc: Global, named: Option<Refusal>) -> Result<String, CheckRefusal> {
    match named {
        None => Ok(String::from_str(alloc, "accepted")?),
        Some(
            Refusal {
                rule,
                at,
                found,
                wanted,
            },
        ) => Ok(format!(in alloc; "K{rule} at {at} found {found} wanted {wanted}")?),
    }
}

fn is_told(
    rt: &impl Abort,
    alloc: Global,
    found: Option<Refusal>,
    due: &str,
) -> Result<(), CheckRefusal> {
    let text = text_of(alloc, found)?;
    is_equal(rt, "what is named", text.as_str(), due);
    Ok(())
}

// With the rule of pads, and without it: `K17 .., else ..` says what is named then, where it isn't
// alone.
fn is_named(
    rt: &impl Abort,
    alloc: Global,
    image: &str,
    places: &[Place],
    line: &str,
) -> Result<(), CheckRefusal> {
    let alone = if line.starts_with("K17 ") {
        "accepted"
    } else {
        line
    };
    let (due, others_due) = line.split_once(", else ").unwrap_or((line, alone));
    let first = first_broken(alloc, image, places)?;
    is_told(rt, alloc, first, due)?;
    let others = first_but_pads(alloc, image, places)?;
    is_told(rt, alloc, others, others_due)
}

// A line `OLD => NEW` changes the first OLD of the image, and `OLD => NEW * TIMES` repeats the new
// text; ~ is a new line. A line that changes nothing tells what is named then, and the next begins
// from the image again. A line `# ..` says what comes.
fn are_named(
    rt: &impl Abort,
    alloc: Global,
    image: &str,
    tables: &[&str],
) -> Result<(), CheckRefusal> {
    for lines in tables {
        are_named_on(rt, alloc, image, &[], lines)?;
    }
    Ok(())
}

// The same of one table, with these entries.
fn are_named_on(
    rt: &impl Abort,
    alloc: Global,
    image: &str,
    places: &[Place],
    lines: &str,
) -> Result<(), CheckRefusal> {
    let mut text = String::from_str(alloc, image)?;
    for line in lines.split('\n') {
        if !line.starts_with('#') {
            follow(rt, alloc, image, places, &mut text, line)?;
        }
    }
    Ok(())
}

// Changes the text by a line, or begins from the image again.
fn follow(
    rt: &impl Abort,
    alloc: Global,
    image: &str,
    places: &[Place],
    text: &mut String,
    line: &str,
) -> Result<(), CheckRefusal> {
    match changed(alloc, text.as_str(), line)? {
        Some(other) => *text = other,
        None => {
            is_named(rt, alloc, text.as_str(), places, line)?;
            *text = String::from_str(alloc, image)?;
        }
    }
    Ok(())
}

// Of an image whose pads are too short, too.
#[test]
fn the_bound_is_that_of_the_machine(rt: HostRuntime) -> Result<(), CheckRefusal> {
    let found = bound_with(rt.alloc(), &[("pad = 6150", "pad = 6149")])?;
    let wanted = Bound {
        instruction: 306,
        operation: 4277,
        leave: 383,
        prefetch: 472,
        flush: 340,
        enter: 373,
        total: 6150,
    };
    is_equal(&rt, "the bound", found, wanted);
    Ok(())
}

// Blue has code, three pages of data that are zero, capabilities in slots 0 and
// 2, two lines, and a moment of each.
fn is_blue(rt: &impl Abort, own: &Own) {
    is_equal(rt, "name", own.name.as_str(), "blue");
    is_equal(rt, "colours", own.colours.as_slice(), [2].as_slice());
    is_equal(rt, "entry", own.entry, 65540);
    are_segments(rt, own.segments.as_slice());
    let caps = [
        InitialCap::Page(16),
        InitialCap::None,
        InitialCap::Irq(3),
        InitialCap::None,
    ];
    is_equal(rt, "caps", own.caps.as_slice(), caps.as_slice());
    is_equal(rt, "lines", own.lines.as_slice(), [7, 3].as_slice());
    let moments = [Moment { at: 9000, line: 3 }, Moment { at: 9000, line: 7 }];
    is_equal(rt, "moments", own.moments.as_slice(), moments.as_slice());
    is_equal(rt, "calls", own.calls, 0x18_7fff);
    is_equal(rt, "calls made", own.makes, 0x7fff);
}

fn are_segments(rt: &impl Abort, segments: &[Segment]) {
    assert_eq!(rt; segments.len(), 2);
    is_segment(rt, &segments[0], (16, 1), false, &[0x6f, 0, 0, 0]);
    is_segment(rt, &segments[1], (32, 3), true, &[]);
}

// Of this page and so many pages, which may be written or executed.
fn is_segment(rt: &impl Abort, segment: &Segment, pages: (u32, u32), write: bool, bytes: &[u8]) {
    is_equal(rt, "pages", (segment.page, segment.pages), pages);
    let rights = Rights::with(true, write, !write);
    is_equal(rt, "rights", segment.rights, rights);
    is_equal(rt, "bytes", segment.bytes.as_slice(), bytes);
}

fn shape(sets: u32, ways: u32) -> CacheShape {
    CacheShape {
        sets,
        ways,
        policy: Policy::Lru,
    }
}

fn hardware() -> Hardware {
    Hardware {
        frames: 64,
        shared: 512,
        line: 64,
        l1i: shape(16, 2),
        l1d: shape(16, 2),
        l2: CacheShape {
            sets: 256,
            ways: 4,
            policy: Policy::Lru,
        },
        back: false,
        tlb: shape(4, 2),
        predictor: 16,
        history: 0,
        costs: Costs {
            base: 1,
            l1: 1,
            l2: 8,
            mem: 40,
            wb: 10,
            tlb: 1,
            mispredict: 3,
            trap: 10,
            flush: 20,
        },
        muldiv: None,
        targets: 0,
    }
}

fn is_public(rt: &impl Abort, public: &Public) {
    let last = Entry {
        domain: 1,
        length: 1000,
        pad: 1_000_000,
        hart: 0,
    };
    is_equal(rt, "version", public.version, 1);
    is_equal(rt, "hardware", public.hardware, hardware());
    is_equal(rt, "entries", public.schedule.len(), 2);
    is_equal(rt, "the last entry", public.schedule.entry(1), last);
}

fn has_blue(rt: &impl Abort, checked: &Checked) {
    checked.runnable();
    assert_eq!(rt; checked.public().domains, 2);
    is_blue(rt, checked.own(1));
}

#[test]
fn an_image_is_accepted(rt: HostRuntime) -> Result<(), CheckRefusal> {
    let checked = checked(rt.alloc(), IMAGE)?;
    is_public(&rt, checked.public());
    has_blue(&rt, &checked);
    drop(checked);
    Ok(())
}
