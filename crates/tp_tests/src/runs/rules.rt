// Images whose rules are tested, and the bound on their switches.
use super::{
    Due, PRINTS_A, PRINTS_B, REPORT, RUN, answer, expect, expect_each, has_room, image, is_answered,
};
use std::alloc::Global;
use std::process::Abort;
use std::test::Fail;
use tp_run::Status;

const ACCEPTED: &str = "accepted\n";

const BOUND: &str =
    "instruction 306\noperation 4277\nleave 383\nprefetch 472\nflush 340\nenter 373\nbound 6150\n";

// A machine that writes lines back at greater cost: the bound is 116 cycles more.
const DEARER_BOUND: &str =
    "instruction 307\noperation 4346\nleave 386\nprefetch 480\nflush 372\nenter 376\nbound 6266\n";

// Of the second version: whoever leaves may make every call.
const BOUND_2: &str =
    "instruction 306\nleave 383\nprefetch 472\nflush 340\nenter 373\nentry 0 operation 4277 bound 6150\nentry 1 operation 4277 bound 6150\n";

// A line of 128 bytes: a frame has 32, and a call that empties slots may touch 63.
const WIDE_BOUND: &str =
    "instruction 306\noperation 4218\nleave 383\nprefetch 236\nflush 340\nenter 373\nbound 5855\n";

const SHORT_PAD: &str = "refused K17 at 0 found 6149 wanted 6150\n";

const TESTED: [Due; 2] = [
    ("tp check", Status::Done, ACCEPTED),
    ("tp bound", Status::Done, BOUND),
];

const OF_WIDE_LINES: [Due; 1] = [("tp bound", Status::Done, WIDE_BOUND)];

const OF_DEARER_WRITES: [Due; 2] = [
    ("tp bound", Status::Done, DEARER_BOUND),
    (
        "tp check",
        Status::Refused,
        "refused K17 at 0 found 6150 wanted 6266\n",
    ),
];

// What is answered to the image with one text in the place of another.
fn expect_with(
    rt: &impl Abort,
    alloc: Global,
    old: &str,
    new: &str,
    rows: &[Due],
) -> Result<(), Fail> {
    let image = image(alloc, PRINTS_A, PRINTS_B)?.replace(alloc, old, new)?;
    expect_each(rt, alloc, image.as_str(), rows)
}

#[test]
fn an_image_is_tested_and_bounded(rt: HostRuntime) -> Result<(), Fail> {
    let alloc = rt.alloc();
    expect_each(
        &rt,
        alloc,
        image(alloc, PRINTS_A, PRINTS_B)?.as_str(),
        &TESTED,
    )?;
    expect_with(&rt, alloc, "line = 64", "line = 128", &OF_WIDE_LINES)?;
    expect_with(&rt, alloc, "wb = 10", "wb = 11", &OF_DEARER_WRITES)
}

const OF_A_SHORT_PAD: [Due; 3] = [
    ("tp check", Status::Refused, SHORT_PAD),
    (RUN, Status::Refused, SHORT_PAD),
    ("tp bound", Status::Done, BOUND),
];

const OF_NO_PAD: [Due; 1] = [(
    "tp check",
    Status::Refused,
    "refused K17 at 1 found 0 wanted 6150\n",
)];

// The bound is told all the same.
#[test]
fn a_pad_below_the_bound_is_refused(rt: HostRuntime) -> Result<(), Fail> {
    let alloc = rt.alloc();
    expect_with(
        &rt,
        alloc,
        "0\nlength = 10000\npad = 6150",
        "0\nlength = 10000\npad = 6149",
        &OF_A_SHORT_PAD,
    )?;
    expect_with(
        &rt,
        alloc,
        "1\nlength = 10000\npad = 6150",
        "1\nlength = 10000\npad = 0",
        &OF_NO_PAD,
    )
}

const NO_DOMAIN: &str = "refused K16 at 1 found 2 wanted 2\n";

const OF_NO_DOMAIN: [Due; 2] = [
    ("tp bound", Status::Refused, NO_DOMAIN),
    ("tp check", Status::Refused, NO_DOMAIN),
];

// Another rule is tested before the bound is told.
#[test]
fn the_bound_of_an_image_that_breaks_a_rule_is_not_told(rt: HostRuntime) -> Result<(), Fail> {
    let alloc = rt.alloc();
    let image = image(alloc, PRINTS_A, PRINTS_B)?.replace(alloc, "pad = 6150", "pad = 0")?;
    let broken = image.replace(alloc, "domain = 1", "domain = 2")?;
    expect_each(&rt, alloc, broken.as_str(), &OF_NO_DOMAIN)?;
    let line = "refused K1 at 0 found 0 wanted 0\n";
    expect(&rt, alloc, "tp bound", "frames = ", Status::Refused, line)
}

// The image, and new lines after it up to this size.
fn to_size(alloc: Global, size: usize) -> Result<Vec<u8>, Fail> {
    let image = image(alloc, PRINTS_A, PRINTS_B)?;
    let mut bytes = Vec::from_slice(alloc, image.as_bytes())?;
    bytes.resize(size, b'\n')?;
    Ok(bytes)
}

fn is_tested_of_size(
    rt: &impl Abort,
    alloc: Global,
    size: usize,
    due: Status,
    text: &str,
) -> Result<(), Fail> {
    let bytes = to_size(alloc, size)?;
    let found = answer(alloc, "tp check", bytes.as_slice(), usize::MAX, &[], &[])?;
    is_answered(rt, text, &found, due, text);
    Ok(())
}

#[test]
fn an_image_that_is_tested_has_a_greatest_size(rt: HostRuntime) -> Result<(), Fail> {
    let alloc = rt.alloc();
    is_tested_of_size(&rt, alloc, 1_048_576, Status::Done, ACCEPTED)?;
    is_tested_of_size(&rt, alloc, 1_048_577, Status::TooLong, "too long\n")
}

/// A line of words, the most bytes of a read or a write, those that fail, and what is due.
type Failing = (
    &'static str,
    usize,
    &'static [u64],
    &'static [u64],
    Status,
    &'static str,
);

// The second read fails; and the third write.
const FAILING: [Failing; 4] = [
    ("tp check", 64, &[2], &[], Status::ReadFault, ""),
    ("tp bound", 64, &[2], &[], Status::ReadFault, ""),
    (
        "tp bound",
        8,
        &[],
        &[3],
        Status::WriteFault,
        "instruction 306\n",
    ),
    ("tp check", 4, &[], &[2], Status::WriteFault, "acce"),
];

fn fails(rt: &impl Abort, alloc: Global, image: &str, row: &Failing) -> Result<(), Fail> {
    let &(line, most, reads, writes, due, text) = row;
    assert!(rt; most > 0);
    let found = answer(alloc, line, image.as_bytes(), most, reads, writes)?;
    is_answered(rt, line, &found, due, text);
    Ok(())
}

fn all_fail(rt: &impl Abort, alloc: Global, image: &str) -> Result<(), Fail> {
    for row in &FAILING {
        fails(rt, alloc, image, row)?;
    }
    Ok(())
}

#[test]
fn a_failed_read_and_a_failed_write_are_told(rt: HostRuntime) -> Result<(), Fail> {
    let alloc = rt.alloc();
    let image = image(alloc, PRINTS_A, PRINTS_B)?;
    all_fail(&rt, alloc, image.as_str())
}

#[test]
fn a_failed_write_of_the_bounds_of_entries_is_told(rt: HostRuntime) -> Result<(), Fail> {
    let alloc = rt.alloc();
    let second = versioned(alloc, "version = 2\n")?;
    let found = answer(alloc, "tp bound", second.as_bytes(), 64, &[], &[2])?;
    let front = BOUND_2.get(..64).unwrap_or("");
    is_answered(&rt, "tp bound", &found, Status::WriteFault, front);
    Ok(())
}

fn versioned(alloc: Global, version: &str) -> Result<String, Fail> {
    let image = image(alloc, PRINTS_A, PRINTS_B)?;
    Ok(format!(in alloc; "{version}{image}")?)
}

const ROOMY: [(&str, &str, &str); 6] = [
    ("tp check", "", ACCEPTED),
    ("tp bound", "", BOUND),
    (RUN, "", REPORT),
    ("tp bound", "version = 1\n", BOUND),
    ("tp bound", "version = 2\n", BOUND_2),
    (RUN, "version = 2\n", REPORT),
];

#[test]
fn what_has_room_is_done(rt: HostRuntime) -> Result<(), Fail> {
    let alloc = rt.alloc();
    for &(line, version, text) in &ROOMY {
        let image = versioned(alloc, version)?;
        has_room(&rt, alloc, line, image.as_str(), text)?;
    }
    Ok(())
}
