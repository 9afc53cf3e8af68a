// The version of the format, and what the second has beside the first: the calls of a domain.
use super::{Change, IMAGE, all_break, expect_of};
use crate::equal::is_equal;
use image_record::{Raw, RawDomain, ReadRefusal};
use image_text::read_image;
use std::alloc::Global;
use std::process::Abort;
use std::test::Fail;

// The first version knows no calls, nor does an image that says no version.
const OF_THE_FIRST: [Change; 19] = [
    ("frames", "version = \"2\"\nframes", 28, 0),
    ("frames", "version = 2.0\nframes", 28, 0),
    ("frames", "version = true\nframes", 28, 0),
    ("frames", "version = []\nframes", 28, 0),
    ("frames", "version = [2]\nframes", 28, 0),
    ("frames", "version = {}\nframes", 28, 0),
    ("frames", "version = 0\nframes", 28, 0),
    ("frames", "version = 3\nframes", 28, 0),
    ("frames", "version = -1\nframes", 28, 0),
    ("frames", "version = 4294967298\nframes", 28, 0),
    ("frames", "version = 9223372036854775807\nframes", 28, 0),
    ("frames", "version = { x = 1 }\nframes", 26, 0),
    ("frames", "version = 3\nx = 1\nframes", 26, 0),
    ("frames", "version = 3\nhistory = true\nframes", 28, 0),
    ("frames = 64\n", "version = 3\n", 1, 0),
    ("[2]\n", "[2]\ncalls = [0, 1]\n", 26, 0),
    ("[2]\n", "[2]\ncalls = 3\n", 26, 0),
    ("[1]\n", "[1]\ncalls = []\n", 26, 0),
    ("[2]\n", "[2]\nversion = 2\n", 26, 0),
];

const OF_THE_SECOND: [Change; 20] = [
    ("version = 2\n", "", 26, 0),
    ("version = 2", "version = 1", 26, 0),
    ("version = 2", "version = 3", 28, 0),
    ("version = 2", "version = 0", 28, 0),
    ("version = 2", "version = \"2\"", 28, 0),
    ("calls = [0, 1]", "calls = 3", 29, 1),
    ("calls = [0, 1]", "calls = \"exit\"", 29, 1),
    ("calls = [0, 1]", "calls = true", 29, 1),
    ("calls = [0, 1]", "calls = {}", 29, 1),
    ("calls = [0, 1]", "calls = [\"exit\"]", 29, 1),
    ("calls = [0, 1]", "calls = [0, 1.0]", 29, 1),
    ("calls = [0, 1]", "calls = [[0, 1]]", 29, 1),
    ("[1]\n", "[1]\ncalls = false\n", 29, 0),
    ("calls = [0, 1]", "calls = [{ x = 1 }]", 26, 0),
    ("calls = [0, 1]", "calls = 3\nx = 1", 26, 0),
    ("frames", "calls = [0]\nframes", 26, 0),
    ("domain = 1\n", "domain = 1\ncalls = [0]\n", 26, 0),
    ("page = 16", "calls = [0], page = 16", 26, 0),
    ("line = 64\n", "", 3, 0),
    ("= 16\n", "= 16\nhistory = true\n", 30, 0),
];

/// A text of the image of the second version, and what may stand in its place.
const READ: [(&str, &str); 4] = [
    ("calls = [0, 1]\n", ""),
    ("[0, 1]", "[]"),
    ("[0, 1]", "[15, -1, 1, 1, 9223372036854775807]"),
    ("[1]\n", "[1]\ncalls = [14]\n"),
];

// Of the second version; red says no calls, and blue two.
fn second(alloc: Global) -> Result<String, ReadRefusal> {
    let mut text = String::from_str(alloc, "version = 2\n")?;
    let image = IMAGE.replace(alloc, "[2]\n", "[2]\ncalls = [0, 1]\n")?;
    text.push_str(image.as_str())?;
    Ok(text)
}

#[test]
fn a_broken_row_is_named(rt: HostRuntime) -> Result<(), Fail> {
    let alloc = rt.alloc();
    let second = second(alloc)?;
    all_break(&rt, alloc, IMAGE, &OF_THE_FIRST);
    all_break(&rt, alloc, second.as_str(), &OF_THE_SECOND);
    Ok(())
}

#[test]
fn what_breaks_no_row_is_read(rt: HostRuntime) -> Result<(), Fail> {
    let alloc = rt.alloc();
    let second = second(alloc)?;
    for &(old, new) in &READ {
        expect_of(&rt, alloc, second.as_str(), old, new, None);
    }
    Ok(())
}

fn are_calls(rt: &impl Abort, domain: &RawDomain, wanted: Option<&[i64]>) {
    let calls = match &domain.calls {
        Some(calls) => Some(calls.as_slice()),
        None => None,
    };
    is_equal(rt, "calls", calls, wanted);
}

fn says(rt: &impl Abort, raw: &Raw, version: u8, red: Option<&[i64]>, blue: Option<&[i64]>) {
    is_equal(rt, "version", raw.version, version);
    assert_eq!(rt; raw.domains.len(), 2);
    are_calls(rt, &raw.domains[0], red);
    are_calls(rt, &raw.domains[1], blue);
}

// Red says no calls.
fn is_read(
    rt: &impl Abort,
    alloc: Global,
    text: &str,
    version: u8,
    blue: Option<&[i64]>,
) -> Result<(), ReadRefusal> {
    let raw = read_image(alloc, text.as_bytes())?;
    says(rt, &raw, version, None, blue);
    drop(raw);
    Ok(())
}

fn first(alloc: Global) -> Result<String, ReadRefusal> {
    Ok(IMAGE.replace(alloc, "frames", "version = 1\nframes")?)
}

fn with_more_calls(alloc: Global) -> Result<String, ReadRefusal> {
    Ok(second(alloc)?.replace(alloc, "[0, 1]", "[15, -1, 1, 1]")?)
}

#[test]
fn an_image_gives_its_version_and_calls(rt: HostRuntime) -> Result<(), ReadRefusal> {
    let alloc = rt.alloc();
    is_read(&rt, alloc, IMAGE, 1, None)?;
    is_read(&rt, alloc, first(alloc)?.as_str(), 1, None)?;
    is_read(&rt, alloc, second(alloc)?.as_str(), 2, Some(&[0, 1]))?;
    let calls = &[15, -1, 1, 1];
    is_read(&rt, alloc, with_more_calls(alloc)?.as_str(), 2, Some(calls))
}
