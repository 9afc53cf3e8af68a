// The key that the second level's table alone may have: where it may stand, what must stand there,
// and when its row is told.
use super::{Change, IMAGE, all_break, by, expect_of, read_with};
use crate::equal::is_equal;
use image_record::ReadRefusal;
use std::alloc::Global;
use std::process::Abort;
use std::test::Fail;

/// What stands at the key, and the row that this breaks.
const VALUES: [(&str, i64); 12] = [
    ("1", 27),
    ("0", 27),
    ("1.0", 27),
    ("\"true\"", 27),
    ("\"\"", 27),
    ("[]", 27),
    ("[true]", 27),
    ("[[{}]]", 27),
    ("{}", 27),
    ("1979-05-27", 27),
    ("{ x = 1 }", 26),
    ("[[{ x = true }]]", 26),
];

// No other table has the key, whatever its value is.
const PLACES: [Change; 12] = [
    ("frames", "back = true\nframes", 26, 0),
    ("frames", "back = 1\nframes", 26, 0),
    ("l1i = {", "l1i = { back = true,", 26, 0),
    ("l1d = {", "l1d = { back = true,", 26, 0),
    ("l1d = {", "l1d = { back = 1,", 26, 0),
    ("tlb = {", "tlb = { back = false,", 26, 0),
    ("{ base", "{ back = true, base", 26, 0),
    ("= 16\n", "= 16\nmuldiv = { back = true }\n", 26, 0),
    ("[2]\n", "[2]\nback = true\n", 26, 0),
    ("{ page", "{ back = true, page", 26, 0),
    ("domain = 1\n", "domain = 1\nback = true\n", 26, 0),
    ("6150\n[[schedule]]", "true\n[[schedule]]", 25, 0),
];

/// What stands in the place of `l2 = {`, and the row that this breaks: row 27 comes after row 26, and
/// before those of later keys; what is no table, or lacks another key, breaks row 6.
const BESIDE: [(&str, i64); 18] = [
    ("x = 1\nl2 = { back = 1,", 26),
    ("l2 = { back = 1, x = 1,", 26),
    ("l2 = { back = true, x = 1,", 26),
    ("l2 = { bak = true,", 26),
    ("l2 = { Back = true,", 26),
    ("l2 = { \"back \" = true,", 26),
    ("back = 1\nl2 = { back = 1,", 26),
    ("version = 3\nl2 = { back = 1,", 27),
    ("version = 3\nl2 = { back = true,", 28),
    ("history = true\nl2 = { back = 1,", 27),
    ("history = true\nl2 = { back = true,", 30),
    ("l2 = { back = 1 }\nlost = {", 6),
    ("l2 = { back = true }\nlost = {", 6),
    ("l2 = true\nlost = {", 6),
    ("l2 = []\nlost = {", 6),
    ("l2 = [{ back = 1 }]\nlost = {", 6),
    (
        "l2 = [{ sets = 1, ways = 1, policy = \"lru\", back = true }]\nlost = {",
        6,
    ),
    ("lost = {", 6),
];

/// What stands for the second level, and whether lines are written back into it.
const SAID: [(&str, bool); 6] = [
    (PLAIN, false),
    (
        "l2 = { sets = 256, ways = 4, policy = \"lru\", back = false }",
        false,
    ),
    (
        "l2 = { sets = 256, ways = 4, policy = \"lru\", back = true }",
        true,
    ),
    (
        "l2 = { back = true, policy = \"lru\", ways = 4, sets = 256 }",
        true,
    ),
    (
        "l2 = { sets = 256, \"back\" = true, ways = 4, policy = \"lru\" }",
        true,
    ),
    (
        "l2.back = true\nl2.sets = 256\nl2.ways = 4\nl2.policy = \"lru\"",
        true,
    ),
];

const PLAIN: &str = "l2 = { sets = 256, ways = 4, policy = \"lru\" }";

// The image in a version of the format, which doesn't change what is told.
fn of_version(alloc: Global, version: &str) -> Result<String, ReadRefusal> {
    let mut text = String::from_str(alloc, version)?;
    text.push_str(IMAGE)?;
    Ok(text)
}

fn values_break(rt: &impl Abort, alloc: Global, image: &str) -> Result<(), ReadRefusal> {
    for &(value, row) in &VALUES {
        let table = format!(in alloc; "l2 = {{ back = {value},")?;
        expect_of(rt, alloc, image, "l2 = {", table.as_str(), by(2, row, 0));
    }
    Ok(())
}

fn rows_break(rt: &impl Abort, alloc: Global, version: &str) -> Result<(), ReadRefusal> {
    let image = of_version(alloc, version)?;
    values_break(rt, alloc, image.as_str())?;
    all_break(rt, alloc, image.as_str(), &PLACES);
    Ok(())
}

#[test]
fn a_broken_row_is_named(rt: HostRuntime) -> Result<(), ReadRefusal> {
    let alloc = rt.alloc();
    rows_break(&rt, alloc, "")?;
    rows_break(&rt, alloc, "version = 1\n")?;
    rows_break(&rt, alloc, "version = 2\n")
}

fn tables_break(rt: &impl Abort, alloc: Global, rows: &[(&str, i64)]) {
    for &(tables, row) in rows {
        expect_of(rt, alloc, IMAGE, "l2 = {", tables, by(2, row, 0));
    }
}

#[test]
fn the_row_comes_in_its_place(rt: HostRuntime) -> Result<(), Fail> {
    let alloc = rt.alloc();
    tables_break(&rt, alloc, &BESIDE);
    let numbered = IMAGE.replace(alloc, "l2 = {", "l2 = { back = 1,")?;
    all_break(&rt, alloc, numbered.as_str(), &PLACES);
    Ok(())
}

// What is read where this stands for the second level.
fn back_of(alloc: Global, image: &str, said: &str) -> Result<bool, ReadRefusal> {
    let raw = read_with(alloc, image, PLAIN, said)?;
    let back = raw.back;
    drop(raw);
    Ok(back)
}

fn says_back(rt: &impl Abort, alloc: Global, image: &str, said: &str, back: bool) {
    expect_of(rt, alloc, image, PLAIN, said, None);
    is_equal(rt, said, back_of(alloc, image, said), Ok(back));
}

fn all_say_back(rt: &impl Abort, alloc: Global, version: &str) -> Result<(), ReadRefusal> {
    let image = of_version(alloc, version)?;
    for &(said, back) in &SAID {
        says_back(rt, alloc, image.as_str(), said, back);
    }
    Ok(())
}

#[test]
fn what_is_said_is_read(rt: HostRuntime) -> Result<(), ReadRefusal> {
    all_say_back(&rt, rt.alloc(), "")?;
    all_say_back(&rt, rt.alloc(), "version = 2\n")
}
