// The key that an entry of the schedule alone may have: where it may stand, what must stand there,
// when its row is told, and which hart is read.
use super::{Change, IMAGE, all_break, by, expect_of, read_with};
use crate::equal::is_equal;
use image_record::{RawEntry, ReadRefusal};
use std::alloc::Global;
use std::process::Abort;
use std::test::Fail;

/// What stands at the key of the second entry, and what this breaks: a row, and the entry.
const VALUES: [(&str, i64, i64); 11] = [
    ("\"1\"", 31, 1),
    ("\"\"", 31, 1),
    ("1.0", 31, 1),
    ("true", 31, 1),
    ("[]", 31, 1),
    ("[1]", 31, 1),
    ("[[{}]]", 31, 1),
    ("{}", 31, 1),
    ("1979-05-27", 31, 1),
    ("{ x = 1 }", 26, 0),
    ("[{ x = 1 }]", 26, 0),
];

// No other table has the key, whatever its value is.
const PLACES: [Change; 11] = [
    ("frames", "hart = 0\nframes", 26, 0),
    ("frames", "hart = true\nframes", 26, 0),
    ("l1i = {", "l1i = { hart = 0,", 26, 0),
    ("l2 = {", "l2 = { hart = 1,", 26, 0),
    ("{ base", "{ hart = 0, base", 26, 0),
    ("= 16\n", "= 16\nmuldiv = { hart = 1 }\n", 26, 0),
    ("[1]\n", "[1]\nhart = 1\n", 26, 0),
    ("[2]\n", "[2]\nhart = true\n", 26, 0),
    ("{ page", "{ hart = 0, page", 26, 0),
    ("domain = 1\n", "domain = 1\nharts = 1\n", 26, 0),
    ("domain = 1\n", "domain = 1\nHart = 1\n", 26, 0),
];

// Where the second entry breaks the row: it comes after row 26 and the rows above, and before those
// below; and the least entry is told.
const BESIDE: [Change; 10] = [
    ("frames = 64\n", "", 1, 0),
    ("domain = 1\n", "", 23, 1),
    ("pad = 6150\n[[schedule]]", "[[schedule]]", 25, 0),
    ("frames", "x = 1\nframes", 26, 0),
    ("l2 = {", "l2 = { back = 1,", 27, 0),
    ("frames", "version = 3\nframes", 28, 0),
    ("= 16\n", "= 16\nhistory = true\n", 30, 0),
    ("= 16\n", "= 16\nmuldiv = 4\n", 31, 1),
    ("= 16\n", "= 16\ntargets = true\n", 31, 1),
    ("domain = 0\n", "domain = 0\nhart = \"0\"\n", 31, 0),
];

/// What the second entry says, and its hart: which harts there are is a later rule's matter.
const SAID: [(&str, i64); 9] = [
    ("", 0),
    ("hart = 0\n", 0),
    ("hart = 1\n", 1),
    ("hart = 3\n", 3),
    ("hart = 4\n", 4),
    ("hart = -1\n", -1),
    ("hart = 9223372036854775807\n", i64::MAX),
    ("hart = -9223372036854775808\n", i64::MIN),
    ("\"hart\" = 0x2\n", 2),
];

/// What stands for `frames`: the version of the format, which doesn't change what is told.
const VERSIONS: [&str; 3] = ["frames", "version = 1\nframes", "version = 2\nframes"];

fn values_break(rt: &impl Abort, alloc: Global, image: &str) -> Result<(), ReadRefusal> {
    for &(value, row, found) in &VALUES {
        let entry = format!(in alloc; "domain = 1\nhart = {value}\n")?;
        let wanted = by(2, row, found);
        expect_of(rt, alloc, image, "domain = 1\n", entry.as_str(), wanted);
    }
    Ok(())
}

fn rows_break(rt: &impl Abort, alloc: Global, version: &str) -> Result<(), ReadRefusal> {
    let image = IMAGE.replace(alloc, "frames", version)?;
    values_break(rt, alloc, image.as_str())?;
    all_break(rt, alloc, image.as_str(), &PLACES);
    Ok(())
}

#[test]
fn a_broken_row_is_named(rt: HostRuntime) -> Result<(), Fail> {
    let alloc = rt.alloc();
    for version in &VERSIONS {
        rows_break(&rt, alloc, version)?;
    }
    let broken = IMAGE.replace(alloc, "domain = 1\n", "domain = 1\nhart = true\n")?;
    all_break(&rt, alloc, broken.as_str(), &BESIDE);
    Ok(())
}

fn are_on(rt: &impl Abort, entries: &[RawEntry], first: i64, second: i64) {
    assert_eq!(rt; entries.len(), 2);
    is_equal(
        rt,
        "harts",
        (entries[0].hart, entries[1].hart),
        (first, second),
    );
}

// With this said of one entry each entry has its hart.
fn is_read(
    rt: &impl Abort,
    alloc: Global,
    image: &str,
    entry: &str,
    said: &str,
    (first, second): (i64, i64),
) -> Result<(), ReadRefusal> {
    let new = format!(in alloc; "{entry}{said}")?;
    let raw = read_with(alloc, image, entry, new.as_str())?;
    are_on(rt, raw.schedule.as_slice(), first, second);
    drop(raw);
    Ok(())
}

fn all_are_read(rt: &impl Abort, alloc: Global, version: &str) -> Result<(), ReadRefusal> {
    let image = IMAGE.replace(alloc, "frames", version)?;
    for &(said, hart) in &SAID {
        is_read(rt, alloc, image.as_str(), "domain = 1\n", said, (0, hart))?;
    }
    Ok(())
}

#[test]
fn what_is_said_is_read(rt: HostRuntime) -> Result<(), ReadRefusal> {
    for version in &VERSIONS {
        all_are_read(&rt, rt.alloc(), version)?;
    }
    is_read(&rt, rt.alloc(), IMAGE, "domain = 0\n", "hart = 1\n", (1, 0))
}
