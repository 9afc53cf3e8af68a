// The predictor's history, products and the target buffer: the first rule that is broken, and what
// an image that is accepted says of them.
use super::{IMAGE, are_named, bound_with, checked_with};
use crate::equal::is_equal;
use cycle_cost::ProductCosts;
use image_check::{CheckRefusal, Hardware};
use std::process::Abort;

// K3, part 6, case 2, after the size of the predictor and before K4.
const OF_HISTORY: &str = "predictor = 16 => predictor = 16~history = -1
K3 at 6 found -1 wanted 2
predictor = 16 => predictor = 16~history = 9
K3 at 6 found 9 wanted 2
predictor = 16 => predictor = 16~history = 9223372036854775807
K3 at 6 found 9223372036854775807 wanted 2
predictor = 16 => predictor = 16~history = 8
accepted
predictor = 16 => predictor = 16~history = 0
accepted
predictor = 16 => predictor = 3~history = 9
K3 at 6 found 3 wanted 1
tlb = { sets = 4, ways = 2 => tlb = { sets = 4, ways = 0
predictor = 16 => predictor = 16~history = 9
K3 at 5 found 0 wanted 2
frames = 64 => history = -1~frames = 63
K3 at 6 found -1 wanted 2";

// K17 by the larger of `mul` and 33 times `div`, of which one outside its range counts as 0; then
// K22, `mul` before `div`.
const OF_PRODUCTS: &str = "predictor = 16 => predictor = 16~muldiv = { mul = 4, div = 2 }
K17 at 0 found 6150 wanted 6216
predictor = 16 => predictor = 16~muldiv = { mul = 4, div = 2 }
pad = 6150 => pad = 6216
accepted
predictor = 16 => predictor = 16~muldiv = { mul = 67, div = 2 }
K17 at 0 found 6150 wanted 6217
predictor = 16 => predictor = 16~muldiv = { mul = 1, div = 1 }
pad = 6150 => pad = 6183
accepted
predictor = 16 => predictor = 16~muldiv = { mul = 1000, div = 1000 }
pad = 6150 => pad = 39150
accepted
predictor = 16 => predictor = 16~muldiv = { mul = 4, div = 1001 }
pad = 6150 => pad = 6154
K22 at 2 found 1001 wanted 1000
predictor = 16 => predictor = 16~muldiv = { mul = 4, div = 1001 }
K17 at 0 found 6150 wanted 6154, else K22 at 2 found 1001 wanted 1000
predictor = 16 => predictor = 16~muldiv = { mul = 4, div = 0 }
pad = 6150 => pad = 6154
K22 at 2 found 0 wanted 1000
predictor = 16 => predictor = 16~muldiv = { mul = 0, div = 2 }
pad = 6150 => pad = 6216
K22 at 1 found 0 wanted 1000
predictor = 16 => predictor = 16~muldiv = { mul = 1001, div = 1 }
pad = 6150 => pad = 6183
K22 at 1 found 1001 wanted 1000
predictor = 16 => predictor = 16~muldiv = { mul = 1001, div = 1 }
pad = 6150 => pad = 6182
K17 at 0 found 6182 wanted 6183, else K22 at 1 found 1001 wanted 1000
predictor = 16 => predictor = 16~muldiv = { mul = 0, div = 0 }
K22 at 1 found 0 wanted 1000
predictor = 16 => predictor = 16~muldiv = { mul = -1, div = 1001 }
K22 at 1 found -1 wanted 1000
predictor = 16 => predictor = 16~muldiv = { mul = 9223372036854775807, div = -9223372036854775808 }
K22 at 1 found 9223372036854775807 wanted 1000
predictor = 16 => predictor = 16~muldiv = { mul = 0, div = 0 }
domain = 1 => domain = 2
K16 at 1 found 2 wanted 2";

// K22, case 3, after its other cases.
const OF_TARGETS: &str = "predictor = 16 => predictor = 16~targets = 0
K22 at 3 found 0 wanted 256
predictor = 16 => predictor = 16~targets = 1
accepted
predictor = 16 => predictor = 16~targets = 3
K22 at 3 found 3 wanted 256
predictor = 16 => predictor = 16~targets = 256
accepted
predictor = 16 => predictor = 16~targets = 512
K22 at 3 found 512 wanted 256
predictor = 16 => predictor = 16~targets = -1
K22 at 3 found -1 wanted 256
predictor = 16 => predictor = 16~targets = -9223372036854775808
K22 at 3 found -9223372036854775808 wanted 256
predictor = 16 => predictor = 16~targets = 3~muldiv = { mul = 1, div = 0 }
pad = 6150 => pad = 6151
K22 at 2 found 0 wanted 1000
predictor = 16 => predictor = 16~targets = 3
pad = 6150 => pad = 6149
K17 at 0 found 6149 wanted 6150, else K22 at 3 found 3 wanted 256";

#[test]
fn the_first_broken_case_is_named(rt: HostRuntime) -> Result<(), CheckRefusal> {
    are_named(
        &rt,
        rt.alloc(),
        IMAGE,
        &[OF_HISTORY, OF_PRODUCTS, OF_TARGETS],
    )
}

const SAID: [(&str, &str); 2] = [
    (
        "predictor = 16",
        "predictor = 16
history = 8
muldiv = { mul = 4, div = 2 }
targets = 16",
    ),
    ("pad = 6150", "pad = 6216"),
];

fn has_extensions(rt: &impl Abort, hardware: &Hardware) {
    let costs = ProductCosts { mul: 4, div: 2 };
    is_equal(rt, "history", hardware.history, 8);
    is_equal(rt, "muldiv", hardware.muldiv, Some(costs));
    is_equal(rt, "targets", hardware.targets, 16);
}

#[test]
fn what_is_said_is_read(rt: HostRuntime) -> Result<(), CheckRefusal> {
    let checked = checked_with(rt.alloc(), &SAID)?;
    let hardware = checked.public().hardware;
    drop(checked);
    has_extensions(&rt, &hardware);
    Ok(())
}

#[test]
fn what_is_said_is_in_the_bound(rt: HostRuntime) -> Result<(), CheckRefusal> {
    let bound = bound_with(rt.alloc(), &SAID)?;
    is_equal(&rt, "bound", (bound.instruction, bound.total), (372, 6216));
    Ok(())
}
