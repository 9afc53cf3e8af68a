// The calls that domains may make: the first broken case of their rule, and the bound that each
// entry's pad is held against.
use super::{IMAGE, are_named, unpadded_with};
use crate::equal::is_equal;
use image_check::{CheckRefusal, Unpadded};
use pad_bound::{Bound, bound, bound_from};
use std::process::Abort;

// K18: the ends of the range and far from it, equal and descending numbers, the second domain; what
// is no call counts for nothing in the bound.
const OF_CALLS: &str = "# the ends of the range, and far from it
frames = 64 => version = 2~frames = 64
colours = [2] => colours = [2]~calls = [0, 1, 2, 3, 4, 5, 6, 7, 8, 9, 10, 11, 12, 13, 14]
accepted
frames = 64 => version = 2~frames = 64
colours = [2] => colours = [2]~calls = []
accepted
frames = 64 => version = 2~frames = 64
colours = [2] => colours = [2]~calls = [-1]
K18 at 1 found 0 wanted 14
frames = 64 => version = 2~frames = 64
colours = [2] => colours = [2]~calls = [15]
K18 at 1 found 0 wanted 14
frames = 64 => version = 2~frames = 64
colours = [2] => colours = [2]~calls = [0, 14, 15]
K18 at 1 found 2 wanted 14
frames = 64 => version = 2~frames = 64
colours = [2] => colours = [2]~calls = [9223372036854775807]
K18 at 1 found 0 wanted 14
# the calls on mailboxes, whose numbers stand apart
frames = 64 => version = 2~frames = 64
colours = [2] => colours = [2]~calls = [14, 19, 20]
accepted
frames = 64 => version = 2~frames = 64
colours = [2] => colours = [2]~calls = [14, 18, 19]
K18 at 1 found 1 wanted 14
frames = 64 => version = 2~frames = 64
colours = [2] => colours = [2]~calls = [19, 21]
K18 at 1 found 1 wanted 14
frames = 64 => version = 2~frames = 64
colours = [2] => colours = [2]~calls = [20, 19]
K18 at 1 found 1 wanted 14
frames = 64 => version = 2~frames = 64
colours = [1] => colours = [1]~calls = [19, 20]
pad = 6150 => pad = 2373
K17 at 0 found 2373 wanted 2374
frames = 64 => version = 2~frames = 64
colours = [2] => colours = [2]~calls = [1, -9223372036854775808]
K18 at 1 found 1 wanted 14
# equal, descending, and again after a greater one
frames = 64 => version = 2~frames = 64
colours = [2] => colours = [2]~calls = [1, 1]
K18 at 1 found 1 wanted 14
frames = 64 => version = 2~frames = 64
colours = [2] => colours = [2]~calls = [1, 0]
K18 at 1 found 1 wanted 14
frames = 64 => version = 2~frames = 64
colours = [2] => colours = [2]~calls = [0, 2, 1, 15]
K18 at 1 found 2 wanted 14
frames = 64 => version = 2~frames = 64
colours = [2] => colours = [2]~calls = [0, 2, 0]
K18 at 1 found 2 wanted 14
# domain by domain
frames = 64 => version = 2~frames = 64
colours = [1] => colours = [1]~calls = [1, 2, 1]
colours = [2] => colours = [2]~calls = [-1]
K18 at 0 found 2 wanted 14
frames = 64 => version = 2~frames = 64
colours = [1] => colours = [1]~calls = [1, 2]
colours = [2] => colours = [2]~calls = [2, 2]
K18 at 1 found 1 wanted 14
# K18 after K17 and before K22
frames = 64 => version = 2~frames = 64
colours = [1] => colours = [1]~calls = [1, 0]
predictor = 16 => predictor = 16~targets = 3
K18 at 0 found 1 wanted 14
frames = 64 => version = 2~frames = 64
colours = [2] => colours = [2]~calls = [1, 0]
pad = 6150 => pad = 6149
K17 at 0 found 6149 wanted 6150, else K18 at 1 found 1 wanted 14
frames = 64 => version = 2~frames = 64
predictor = 16 => predictor = 16~targets = 3
pad = 6150 => pad = 6149
K17 at 0 found 6149 wanted 6150, else K22 at 3 found 3 wanted 256
frames = 64 => version = 2~frames = 64
colours = [2] => colours = [2]~calls = [1, 0]
domain = 1 => domain = 2
K16 at 1 found 2 wanted 2";

// K17 by the calls of the entry's own domain.
const OF_PADS: &str = "# exit and put alone, of both domains
frames = 64 => version = 2~frames = 64
colours = [1] => colours = [1]~calls = [0, 1]
colours = [2] => colours = [2]~calls = [0, 1]
pad = 6150 => pad = 2374
pad = 1000000 => pad = 2374
accepted
frames = 64 => version = 2~frames = 64
colours = [1] => colours = [1]~calls = [0, 1]
colours = [2] => colours = [2]~calls = [0, 1]
pad = 6150 => pad = 2373
pad = 1000000 => pad = 2374
K17 at 0 found 2373 wanted 2374
frames = 64 => version = 2~frames = 64
colours = [1] => colours = [1]~calls = [0, 1]
colours = [2] => colours = [2]~calls = [1, 0]
pad = 6150 => pad = 2374
pad = 1000000 => pad = 2374
K18 at 1 found 1 wanted 14
frames = 64 => version = 2~frames = 64
colours = [1] => colours = [1]~calls = [0, 1]
colours = [2] => colours = [2]~calls = [1, 0]
pad = 6150 => pad = 2373
K17 at 0 found 2373 wanted 2374, else K18 at 1 found 1 wanted 14
# of red alone, and of blue alone
frames = 64 => version = 2~frames = 64
colours = [1] => colours = [1]~calls = [0, 1]
pad = 6150 => pad = 2374
pad = 1000000 => pad = 6150
accepted
frames = 64 => version = 2~frames = 64
colours = [1] => colours = [1]~calls = [0, 1]
pad = 6150 => pad = 2374
pad = 1000000 => pad = 6149
K17 at 1 found 6149 wanted 6150
frames = 64 => version = 2~frames = 64
colours = [2] => colours = [2]~calls = [0, 1]
pad = 1000000 => pad = 2374
accepted
frames = 64 => version = 2~frames = 64
colours = [2] => colours = [2]~calls = [0, 1]
pad = 6150 => pad = 6149
pad = 1000000 => pad = 2374
K17 at 0 found 6149 wanted 6150
frames = 64 => version = 2~frames = 64
colours = [2] => colours = [2]~calls = [0, 1]
pad = 1000000 => pad = 2373
K17 at 1 found 2373 wanted 2374
# red's two slots one after the other: each by red's calls
frames = 64 => version = 2~frames = 64
colours = [1] => colours = [1]~calls = [1]
domain = 1~length => domain = 0~length
pad = 6150 => pad = 2374
pad = 1000000 => pad = 2374
accepted
# none; calls that write an entry; those that write none; 63 entries; a frame
frames = 64 => version = 2~frames = 64
colours = [1] => colours = [1]~calls = []
pad = 6150 => pad = 2374
accepted
frames = 64 => version = 2~frames = 64
colours = [1] => colours = [1]~calls = []
pad = 6150 => pad = 2373
K17 at 0 found 2373 wanted 2374
frames = 64 => version = 2~frames = 64
colours = [1] => colours = [1]~calls = [3]
pad = 6150 => pad = 2432
K17 at 0 found 2432 wanted 2433
frames = 64 => version = 2~frames = 64
colours = [1] => colours = [1]~calls = [3, 4, 5, 7]
pad = 6150 => pad = 2433
accepted
frames = 64 => version = 2~frames = 64
colours = [1] => colours = [1]~calls = [4]
pad = 6150 => pad = 2432
K17 at 0 found 2432 wanted 2433
frames = 64 => version = 2~frames = 64
colours = [1] => colours = [1]~calls = [5]
pad = 6150 => pad = 2432
K17 at 0 found 2432 wanted 2433
frames = 64 => version = 2~frames = 64
colours = [1] => colours = [1]~calls = [7]
pad = 6150 => pad = 2432
K17 at 0 found 2432 wanted 2433
frames = 64 => version = 2~frames = 64
colours = [1] => colours = [1]~calls = [0, 1, 6, 9, 10, 11, 12, 13, 14]
pad = 6150 => pad = 2374
accepted
frames = 64 => version = 2~frames = 64
colours = [1] => colours = [1]~calls = [0, 1, 3, 8]
pad = 6150 => pad = 6090
K17 at 0 found 6090 wanted 6091
frames = 64 => version = 2~frames = 64
colours = [1] => colours = [1]~calls = [0, 1, 3, 8]
pad = 6150 => pad = 6091
accepted
frames = 64 => version = 2~frames = 64
colours = [1] => colours = [1]~calls = [0, 2]
pad = 6150 => pad = 6149
K17 at 0 found 6149 wanted 6150
# a frame of 32 lines of 128 bytes is less than 63 entries
frames = 64~shared = 512~line = 64 => version = 2~frames = 128~shared = 512~line = 128
colours = [1] => colours = [1]~calls = [2]
pad = 6150 => pad = 4025
K17 at 0 found 4025 wanted 4026
frames = 64~shared = 512~line = 64 => version = 2~frames = 128~shared = 512~line = 128
colours = [1] => colours = [1]~calls = [2, 8]
pad = 6150 => pad = 5854
K17 at 0 found 5854 wanted 5855
# what is no call counts for nothing, also where its low bits are those of one
frames = 64 => version = 2~frames = 64
colours = [1] => colours = [1]~calls = [-1, 15, 16, 32, 34, 4294967298, -4294967294]
pad = 6150 => pad = 2374
K18 at 0 found 0 wanted 14
frames = 64 => version = 2~frames = 64
colours = [1] => colours = [1]~calls = [-1, 15, 16, 32, 34, 4294967298, -4294967294]
pad = 6150 => pad = 2373
K17 at 0 found 2373 wanted 2374, else K18 at 0 found 0 wanted 14
# what stands in the wrong order, or twice, counts once
frames = 64 => version = 2~frames = 64
colours = [1] => colours = [1]~calls = [7, 3, 3]
pad = 6150 => pad = 2432
K17 at 0 found 2432 wanted 2433, else K18 at 0 found 1 wanted 14
frames = 64 => version = 2~frames = 64
colours = [1] => colours = [1]~calls = [2, 2, 1]
pad = 6150 => pad = 6149
K17 at 0 found 6149 wanted 6150, else K18 at 0 found 1 wanted 14";

#[test]
fn the_first_broken_case_is_named(rt: HostRuntime) -> Result<(), CheckRefusal> {
    are_named(&rt, rt.alloc(), IMAGE, &[OF_CALLS, OF_PADS])
}

// Red may make two calls and blue every one; red's pad is too short.
const FEW_CALLS: [(&str, &str); 3] = [
    ("frames = 64", "version = 2\nframes = 64"),
    ("colours = [1]", "colours = [1]\ncalls = [0, 1]"),
    ("pad = 6150", "pad = 2373"),
];

fn has_few_calls(rt: &impl Abort, image: &Unpadded) {
    image.kept();
    is_equal(rt, "version", image.public().version, 2);
    assert_eq!(rt; image.public().domains, 2);
    let (red, blue) = (image.own(0).calls, image.own(1).calls);
    is_equal(rt, "calls", (red, blue), (3, 0x18_7fff));
    // Without mailboxes none makes a call on them.
    let (red, blue) = (image.own(0).makes, image.own(1).makes);
    is_equal(rt, "calls made", (red, blue), (3, 0x7fff));
    are_bounds(
        rt,
        bound(&image.shape()),
        bound_from(&image.shape(), red),
        bound_from(&image.shape(), blue),
    );
}

fn are_bounds(rt: &impl Abort, every: Bound, of_red: Bound, of_blue: Bound) {
    let few = Bound {
        operation: 501,
        total: 2374,
        ..every
    };
    is_equal(
        rt,
        "the bound",
        (every.operation, every.total),
        (4277, 6150),
    );
    is_equal(rt, "red's", of_red, few);
    is_equal(rt, "blue's", of_blue, every);
}

#[test]
fn the_bound_is_by_the_calls_of_a_domain(rt: HostRuntime) -> Result<(), CheckRefusal> {
    let image = unpadded_with(rt.alloc(), &FEW_CALLS)?;
    has_few_calls(&rt, &image);
    drop(image);
    Ok(())
}
