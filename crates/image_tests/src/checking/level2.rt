// Write-back into the second level: the bound that pads are held against, and what an image that is
// accepted says of it.
use super::{IMAGE, are_named, checked_with, unpadded_with};
use crate::equal::is_equal;
use image_check::CheckRefusal;
use pad_bound::{Bound, bound};
use std::alloc::Global;

// K17: a miss costs one more `wb`, where it is said; the cost of another thing is none.
const OF_PADS: &str = "# 7080 in place of 6150, where it is said
4, policy = \"lru\" => 4, policy = \"lru\", back = true
K17 at 0 found 6150 wanted 7080
4, policy = \"lru\" => 4, policy = \"lru\", back = true
pad = 6150 => pad = 7079
K17 at 0 found 7079 wanted 7080
4, policy = \"lru\" => 4, policy = \"lru\", back = true
pad = 6150 => pad = 7080
accepted
4, policy = \"lru\" => 4, policy = \"lru\", back = true
pad = 6150 => pad = 7080
pad = 1000000 => pad = 7080
accepted
4, policy = \"lru\" => 4, policy = \"lru\", back = true
pad = 6150 => pad = 7080
pad = 1000000 => pad = 7079
K17 at 1 found 7079 wanted 7080
4, policy = \"lru\" => 4, policy = \"lru\", back = false
accepted
4, policy = \"lru\" => 4, policy = \"lru\", back = false
pad = 6150 => pad = 6149
K17 at 0 found 6149 wanted 6150
# by the cost of a write-back, and no other: that of a trap is as large on this machine
4, policy = \"lru\" => 4, policy = \"lru\", back = true
wb = 10 => wb = 11
K17 at 0 found 6150 wanted 7289
4, policy = \"lru\" => 4, policy = \"lru\", back = true
trap = 10 => trap = 12
K17 at 0 found 6150 wanted 7084
4, policy = \"lru\" => 4, policy = \"lru\", back = true
wb = 10 => wb = 1000
pad = 6150 => pad = 213989
K17 at 0 found 213989 wanted 213990
4, policy = \"lru\" => 4, policy = \"lru\", back = true
wb = 10 => wb = 1000
pad = 6150 => pad = 213990
accepted
4, policy = \"lru\" => 4, policy = \"lru\", back = true
predictor = 16 => predictor = 16~muldiv = { mul = 4, div = 2 }
K17 at 0 found 6150 wanted 7146
# by the calls of the domain that leaves
4, policy = \"lru\" => 4, policy = \"lru\", back = true
frames = 64 => version = 2~frames = 64
K17 at 0 found 6150 wanted 7080
4, policy = \"lru\" => 4, policy = \"lru\", back = true
frames = 64 => version = 2~frames = 64
colours = [1] => colours = [1]~calls = [0, 1]
pad = 6150 => pad = 2663
K17 at 0 found 2663 wanted 2664
4, policy = \"lru\" => 4, policy = \"lru\", back = true
frames = 64 => version = 2~frames = 64
colours = [1] => colours = [1]~calls = [0, 1]
pad = 6150 => pad = 2664
accepted
4, policy = \"lru\" => 4, policy = \"lru\", back = true
frames = 64 => version = 2~frames = 64
colours = [1] => colours = [1]~calls = [3]
pad = 6150 => pad = 2732
K17 at 0 found 2732 wanted 2733
4, policy = \"lru\" => 4, policy = \"lru\", back = true
frames = 64 => version = 2~frames = 64
colours = [1] => colours = [1]~calls = [8]
pad = 6150 => pad = 7010
K17 at 0 found 7010 wanted 7011
# beside other rules
4, policy = \"lru\" => 4, policy = \"lru\", back = true
predictor = 16 => predictor = 16~targets = 3
K17 at 0 found 6150 wanted 7080, else K22 at 3 found 3 wanted 256
ways = 4, policy = \"lru\" => ways = 17, policy = \"lru\", back = true
K3 at 4 found 17 wanted 2
4, policy = \"lru\" => 4, policy = \"lru\", back = true
domain = 1 => domain = 2
K16 at 1 found 2 wanted 2";

#[test]
fn the_first_broken_case_is_named(rt: HostRuntime) -> Result<(), CheckRefusal> {
    are_named(&rt, rt.alloc(), IMAGE, &[OF_PADS])
}

// The bound of the image and what its hardware says, where this stands after the second level's
// policy.
fn bound_and_back(alloc: Global, said: &str) -> Result<(Bound, bool), CheckRefusal> {
    let new = format!(in alloc; "4, policy = \"lru\"{said}")?;
    let image = unpadded_with(alloc, &[("4, policy = \"lru\"", new.as_str())])?;
    let found = (bound(&image.shape()), image.public().hardware.back);
    drop(image);
    Ok(found)
}

const PAST: Bound = Bound {
    instruction: 306,
    operation: 4277,
    leave: 383,
    prefetch: 472,
    flush: 340,
    enter: 373,
    total: 6150,
};

const BACK: Bound = Bound {
    instruction: 366,
    operation: 5007,
    leave: 453,
    enter: 443,
    total: 7080,
    ..PAST
};

/// What is said, and the bound, and whether lines are written back.
const BOUNDS: [(&str, (Bound, bool)); 3] = [
    ("", (PAST, false)),
    (", back = false", (PAST, false)),
    (", back = true", (BACK, true)),
];

#[test]
fn four_parts_of_the_bound_have_more(rt: HostRuntime) -> Result<(), CheckRefusal> {
    for &(said, wanted) in &BOUNDS {
        is_equal(&rt, said, bound_and_back(rt.alloc(), said)?, wanted);
    }
    Ok(())
}

const SAID: [(&str, &str); 2] = [
    ("4, policy = \"lru\"", "4, policy = \"lru\", back = true"),
    ("pad = 6150", "pad = 7080"),
];

#[test]
fn what_is_said_is_accepted(rt: HostRuntime) -> Result<(), CheckRefusal> {
    let checked = checked_with(rt.alloc(), &SAID)?;
    checked.runnable();
    let back = checked.public().hardware.back;
    drop(checked);
    assert!(rt; back);
    Ok(())
}
