// The mailboxes that an image may declare: where their keys may stand, what must stand there, when
// their rows are told, and which boxes are read.
use super::{Change, IMAGE, all_break, by, expect_of, read_with};
use crate::equal::is_equal;
use image_record::{RawMailbox, ReadRefusal};
use std::alloc::Global;
use std::process::Abort;
use std::test::Fail;

/// What stands at `mail`, and what this breaks: a row, and the box.
const VALUES: [(&str, i64, i64); 32] = [
    ("0", 32, 0),
    ("true", 32, 0),
    ("\"\"", 32, 0),
    ("{}", 32, 0),
    ("[0]", 32, 0),
    ("[[]]", 32, 0),
    ("[[0, 1]]", 32, 0),
    ("[{ from = 0, to = 1 }, 0]", 32, 0),
    // An end is missing: `from` before `to`, and then the least box.
    ("[{}]", 33, 0),
    ("[{ to = 1 }]", 33, 0),
    ("[{ from = 0 }]", 34, 0),
    ("[{ from = 0, to = 1 }, { to = 0 }]", 33, 1),
    ("[{ from = 0, to = 1 }, { from = 1 }]", 34, 1),
    ("[{ from = 0 }, { to = 0 }]", 33, 1),
    ("[{ from = 0 }, { from = 1 }]", 34, 0),
    // An end is of another type.
    ("[{ from = true, to = 1 }]", 33, 0),
    ("[{ from = \"0\", to = 1 }]", 33, 0),
    ("[{ from = 0.0, to = 1 }]", 33, 0),
    ("[{ from = [0], to = 1 }]", 33, 0),
    ("[{ from = {}, to = 1 }]", 33, 0),
    ("[{ from = 0, to = false }]", 34, 0),
    ("[{ from = 0, to = \"1\" }]", 34, 0),
    ("[{ from = 0, to = 1.0 }]", 34, 0),
    ("[{ from = 0, to = [] }]", 34, 0),
    ("[{ from = 0, to = 1979-05-27 }]", 34, 0),
    (
        "[{ from = 0, to = 1 }, { from = \"1\", to = \"0\" }]",
        33,
        1,
    ),
    // Other keys, and tables where none is wanted.
    ("[{ from = 0, to = 1, x = 1 }]", 26, 0),
    (
        "[{ from = 0, to = 1 }, { from = 1, to = 0, hart = 0 }]",
        26,
        0,
    ),
    ("[{ from = 0, to = 1, mail = [] }]", 26, 0),
    ("[{ from = { x = 1 }, to = 1 }]", 26, 0),
    ("{ from = 0, to = 1 }", 26, 0),
    ("[[{ from = 0, to = 1 }]]", 26, 0),
];

// No other table has the keys.
const PLACES: [Change; 11] = [
    ("frames", "from = 0\nframes", 26, 0),
    ("frames", "to = 0\nframes", 26, 0),
    ("frames", "mails = []\nframes", 26, 0),
    ("l1i = {", "l1i = { mail = [],", 26, 0),
    ("l2 = {", "l2 = { mail = [],", 26, 0),
    ("{ base", "{ to = 0, base", 26, 0),
    ("[1]\n", "[1]\nmail = []\n", 26, 0),
    ("[2]\n", "[2]\nfrom = 0\n", 26, 0),
    ("{ page", "{ mail = [], page", 26, 0),
    ("domain = 1\n", "domain = 1\nmail = []\n", 26, 0),
    ("domain = 1\n", "domain = 1\nto = 0\n", 26, 0),
];

// Where a box has no `to`: it comes after row 26 and the rows above, and before those below.
const BESIDE: [Change; 9] = [
    ("line = 64\n", "", 3, 0),
    ("domain = 1\n", "", 23, 1),
    ("[2]\n", "[2]\nx = 1\n", 26, 0),
    ("l2 = {", "l2 = { back = 1,", 27, 0),
    ("frames", "version = 3\nframes", 28, 0),
    ("= 16\n", "= 16\nhistory = true\n", 30, 0),
    ("domain = 1\n", "domain = 1\nhart = true\n", 31, 1),
    ("= 16\n", "= 16\nmuldiv = 4\n", 34, 0),
    ("= 16\n", "= 16\ntargets = true\n", 34, 0),
];

/// What is said before `frames`, and each box's ends: which domains there are is a later rule's
/// matter.
const SAID: [(&str, &[(i64, i64)]); 5] = [
    ("", &[]),
    ("mail = []\n", &[]),
    ("mail = [{ from = 0, to = 1 }]\n", &[(0, 1)]),
    (
        "mail = [{ to = -9223372036854775808, from = 9223372036854775807 }, { from = -1, to = -1 }]\n",
        &[(i64::MAX, i64::MIN), (-1, -1)],
    ),
    (
        "mail = [{ \"from\" = 0x1, to = 0 }, { from = 1, to = 0 }]\n",
        &[(1, 0), (1, 0)],
    ),
];

/// What stands for `frames`: the version of the format, which doesn't change what is told.
const VERSIONS: [&str; 3] = ["frames", "version = 1\nframes", "version = 2\nframes"];

fn values_break(rt: &impl Abort, alloc: Global, image: &str) -> Result<(), ReadRefusal> {
    for &(value, row, found) in &VALUES {
        let mail = format!(in alloc; "mail = {value}\nframes")?;
        expect_of(rt, alloc, image, "frames", mail.as_str(), by(2, row, found));
    }
    Ok(())
}

fn rows_break(rt: &impl Abort, alloc: Global, version: &str) -> Result<(), ReadRefusal> {
    let image = IMAGE.replace(alloc, "frames", version)?;
    values_break(rt, alloc, image.as_str())?;
    all_break(rt, alloc, image.as_str(), &PLACES);
    Ok(())
}

#[test]
fn a_broken_row_is_named(rt: HostRuntime) -> Result<(), Fail> {
    let alloc = rt.alloc();
    for version in &VERSIONS {
        rows_break(&rt, alloc, version)?;
    }
    let broken = IMAGE.replace(alloc, "frames", "mail = [{ from = 0 }]\nframes")?;
    all_break(&rt, alloc, broken.as_str(), &BESIDE);
    Ok(())
}

fn are_boxes(rt: &impl Abort, found: &[RawMailbox], wanted: &[(i64, i64)]) {
    assert_eq!(rt; found.len(), wanted.len());
    for (mailbox, &ends) in found.iter().zip(wanted) {
        is_equal(rt, "ends", (mailbox.from, mailbox.to), ends);
    }
}

// With this said before `frames` the image has these boxes.
fn is_read(
    rt: &impl Abort,
    alloc: Global,
    image: &str,
    said: &str,
    boxes: &[(i64, i64)],
) -> Result<(), ReadRefusal> {
    let new = format!(in alloc; "{said}frames")?;
    let raw = read_with(alloc, image, "frames", new.as_str())?;
    are_boxes(rt, raw.mail.as_slice(), boxes);
    drop(raw);
    Ok(())
}

fn all_are_read(rt: &impl Abort, alloc: Global, version: &str) -> Result<(), ReadRefusal> {
    let image = IMAGE.replace(alloc, "frames", version)?;
    for &(said, boxes) in &SAID {
        is_read(rt, alloc, image.as_str(), said, boxes)?;
    }
    Ok(())
}

const IN_SECTIONS: &str =
    "1\nlength = 10000\npad = 6150\n[[mail]]\nfrom = 0\nto = 1\n[[mail]]\nto = 0\nfrom = 1\n";

#[test]
fn what_is_said_is_read(rt: HostRuntime) -> Result<(), ReadRefusal> {
    let alloc = rt.alloc();
    for version in &VERSIONS {
        all_are_read(&rt, alloc, version)?;
    }
    let raw = read_with(alloc, IMAGE, "1\nlength = 10000\npad = 6150\n", IN_SECTIONS)?;
    are_boxes(&rt, raw.mail.as_slice(), &[(0, 1), (1, 0)]);
    drop(raw);
    Ok(())
}
