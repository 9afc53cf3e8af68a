// Mailboxes: the first broken case, and what an image that is accepted says of them.
use super::{IMAGE, are_named, checked_with};
use crate::equal::is_equal;
use image_check::{CheckRefusal, Public};
use std::process::Abort;

// K20 case by case; the second box, but for how many there are. Of both ends the first is told.
const OF_BOXES: &str = "frames = 64 => mail = []~frames = 64
accepted
frames = 64 => mail = [{ from = 0, to = 1 }]~frames = 64
accepted
frames = 64 => mail = [{ from = 0, to = 1 }, { from = 1, to = 0 }]~frames = 64
accepted
# case 1
frames = 64 => mail = [BOXES]~frames = 64
BOXES => { from = 0, to = 1 },  * 65
K20 at 0 found 65 wanted 1
frames = 64 => mail = [BOXES]~frames = 64
BOXES => { from = 2, to = 2 },  * 66
K20 at 0 found 66 wanted 1
frames = 64 => mail = [BOXES]~frames = 64
BOXES => { from = 0, to = 1 },  * 64
K20 at 1 found 0 wanted 4
# case 2
frames = 64 => mail = [{ from = 0, to = 1 }, { from = 2, to = 0 }]~frames = 64
K20 at 1 found 2 wanted 2
frames = 64 => mail = [{ from = 0, to = 1 }, { from = 0, to = 2 }]~frames = 64
K20 at 1 found 2 wanted 2
frames = 64 => mail = [{ from = 0, to = 1 }, { from = -1, to = -2 }]~frames = 64
K20 at 1 found -1 wanted 2
frames = 64 => mail = [{ from = 0, to = 1 }, { from = 5, to = 6 }]~frames = 64
K20 at 1 found 5 wanted 2
frames = 64 => mail = [{ from = 9223372036854775807, to = 1 }]~frames = 64
K20 at 0 found 9223372036854775807 wanted 2
frames = 64 => mail = [{ from = 1, to = -9223372036854775808 }]~frames = 64
K20 at 0 found -9223372036854775808 wanted 2
# case 3
frames = 64 => mail = [{ from = 0, to = 1 }, { from = 1, to = 1 }]~frames = 64
K20 at 1 found 1 wanted 3
frames = 64 => mail = [{ from = 0, to = 0 }, { from = 0, to = 0 }]~frames = 64
K20 at 0 found 0 wanted 3
# case 4
frames = 64 => mail = [{ from = 0, to = 1 }, { from = 0, to = 1 }]~frames = 64
K20 at 1 found 0 wanted 4
frames = 64 => mail = [{ from = 0, to = 1 }, { from = 1, to = 0 }, { from = 1, to = 0 }]~frames = 64
K20 at 2 found 1 wanted 4
# both ends are one that is no domain
frames = 64 => mail = [{ from = 0, to = 1 }, { from = 2, to = 2 }]~frames = 64
K20 at 1 found 2 wanted 2
# box by box
frames = 64 => mail = [{ from = 0, to = 1 }, { from = 0, to = 1 }, { from = 2, to = 0 }]~frames = 64
K20 at 1 found 0 wanted 4
frames = 64 => mail = [{ from = 1, to = 1 }, { from = 0, to = 2 }]~frames = 64
K20 at 0 found 1 wanted 3";

// K20 of a box that is no domain's, after K16 to K19 and before K22.
const OF_OTHERS: &str = "frames = 64 => mail = [{ from = 0, to = 2 }]~frames = 64
domain = 1 => domain = 2
K16 at 1 found 2 wanted 2
frames = 64 => mail = [{ from = 0, to = 2 }]~frames = 64
pad = 6150 => pad = 6149
K17 at 0 found 6149 wanted 6150, else K20 at 0 found 2 wanted 2
frames = 64 => mail = [{ from = 0, to = 2 }]~version = 2~frames = 64
colours = [2] => colours = [2]~calls = [1, 0]
K18 at 1 found 1 wanted 14
frames = 64 => mail = [{ from = 0, to = 2 }]~frames = 64
domain = 1 => domain = 1~hart = 4
K19 at 1 found 4 wanted 1
frames = 64 => mail = [{ from = 0, to = 2 }]~frames = 64
predictor = 16 => predictor = 16~targets = 3
K20 at 0 found 2 wanted 2
frames = 64 => mail = [{ from = 0, to = 1 }]~frames = 64
predictor = 16 => predictor = 16~targets = 3
K22 at 3 found 3 wanted 256";

#[test]
fn the_first_broken_case_is_named(rt: HostRuntime) -> Result<(), CheckRefusal> {
    are_named(&rt, rt.alloc(), IMAGE, &[OF_BOXES, OF_OTHERS])
}

const SAID: [(&str, &str); 1] = [(
    "frames",
    "mail = [{ from = 1, to = 0 }, { from = 0, to = 1 }]\nframes",
)];

fn has_box(rt: &impl Abort, public: &Public, a: usize, from: u8, to: u8) {
    assert!(rt; a < public.mail.len());
    let (sender, receiver) = public.mail[a];
    is_equal(rt, "ends", (sender.number(), receiver.number()), (from, to));
}

#[test]
fn all_domains_may_know_the_boxes(rt: HostRuntime) -> Result<(), CheckRefusal> {
    let checked = checked_with(rt.alloc(), &SAID)?;
    let public = checked.public();
    is_equal(&rt, "boxes", public.mail.len(), 2);
    has_box(&rt, public, 0, 1, 0);
    has_box(&rt, public, 1, 0, 1);
    drop(checked);
    Ok(())
}

#[test]
fn an_image_without_them_has_none(rt: HostRuntime) -> Result<(), CheckRefusal> {
    let checked = checked_with(rt.alloc(), &[])?;
    is_equal(&rt, "boxes", checked.public().mail.len(), 0);
    drop(checked);
    Ok(())
}
