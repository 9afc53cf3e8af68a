// An image that is cut at any byte.
use crate::answers::{ACCEPTED, CHECK, IMAGE, answer};
use std::test::Fail;
use tp_run::Status;

// The image without its last two bytes: its last number has lost a digit.
const SHORT_PAD: &str = "refused K17 at 1 found 615 wanted 6150\n";

// What is due to a front of the image, and how its text begins. It is accepted where it ends with
// an entry, of which each has this pad, with that line's end or without it: with both entries or
// with the first.
fn due(front: &str) -> (Status, &'static str) {
    let line = front.strip_suffix('\n').unwrap_or(front);
    if line.ends_with("pad = 6150") {
        (Status::Done, ACCEPTED)
    } else if front.len() == IMAGE.len() - 2 {
        (Status::Refused, SHORT_PAD)
    } else {
        (Status::Refused, "refused K")
    }
}

#[test]
fn a_cut_image_is_refused_unless_it_ends_with_an_entry(rt: HostRuntime) -> Result<(), Fail> {
    for size in 0..=IMAGE.len() {
        let front = IMAGE.get(..size).unwrap_or(IMAGE);
        let (wanted, begin) = due(front);
        let (status, text) = answer(rt.alloc(), CHECK, front.as_bytes())?;
        let told = text.starts_with(begin.as_bytes());
        assert_eq!(rt; (status, told), (wanted, true), "at {size}");
    }
    Ok(())
}
