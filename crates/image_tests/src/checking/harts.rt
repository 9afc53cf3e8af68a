// Entries on harts: the first broken case, and what is accepted.
use super::{IMAGE, Place, are_named, are_named_on, record_on};
use crate::equal::is_equal;
use image_check::{CheckRefusal, Entry, HartSchedule, Public, check};
use std::alloc::Global;
use std::process::Abort;

type Row = (&'static [Place], &'static str);

// K19.
const OF_HARTS: [Row; 20] = [
    (&[(0, 0), (1, 0)], "accepted"),
    (&[(0, 0), (1, 1)], "accepted"),
    (&[(0, 1), (1, 0)], "accepted"),
    (&[(0, 1), (1, 0), (0, 1), (1, 0)], "accepted"),
    // Case 1, by one, at the ends of what an integer may be, and of the first entry.
    (&[(0, 0), (1, 4)], "K19 at 1 found 4 wanted 1"),
    (&[(0, -1), (1, 0)], "K19 at 0 found -1 wanted 1"),
    (
        &[(0, 0), (1, i64::MAX)],
        "K19 at 1 found 9223372036854775807 wanted 1",
    ),
    (
        &[(0, 0), (1, i64::MIN)],
        "K19 at 1 found -9223372036854775808 wanted 1",
    ),
    (&[(0, 7), (1, 5)], "K19 at 0 found 7 wanted 1"),
    // Case 2, of the first hart.
    (&[(0, 0), (1, 2)], "K19 at 1 found 0 wanted 2"),
    (&[(0, 1), (1, 1)], "K19 at 0 found 0 wanted 2"),
    (&[(0, 3), (1, 1)], "K19 at 0 found 0 wanted 2"),
    (&[(0, 0), (1, 3)], "K19 at 1 found 0 wanted 2"),
    // Case 3, of the first entry.
    (&[(0, 0), (1, 1), (0, 1)], "K19 at 2 found 0 wanted 3"),
    (
        &[(0, 0), (1, 1), (1, 0), (0, 1)],
        "K19 at 2 found 1 wanted 3",
    ),
    (&[(0, 0), (0, 0), (0, 1)], "K19 at 2 found 0 wanted 3"),
    // Each case before the next.
    (&[(0, 2), (1, 4)], "K19 at 1 found 4 wanted 1"),
    (&[(0, 0), (0, 1), (1, 4)], "K19 at 2 found 4 wanted 1"),
    (&[(0, 0), (0, 1), (1, 3)], "K19 at 2 found 0 wanted 2"),
    (&[(0, 0), (2, 4)], "K16 at 1 found 2 wanted 2"),
];

// K19, as texts say it.
const OF_TEXTS: &str = "domain = 1 => domain = 1~hart = 1
accepted
domain = 1 => domain = 1~hart = 0
accepted
domain = 0 => domain = 0~hart = 1
accepted
domain = 1 => domain = 1~hart = 4
K19 at 1 found 4 wanted 1
domain = 1 => domain = 1~hart = -1
K19 at 1 found -1 wanted 1
domain = 1 => domain = 1~hart = 9223372036854775807
K19 at 1 found 9223372036854775807 wanted 1
domain = 1 => domain = 1~hart = 2
K19 at 1 found 0 wanted 2
domain = 0 => domain = 0~hart = 1
domain = 1 => domain = 1~hart = 1
K19 at 0 found 0 wanted 2
# red's second entry, before blue's or after it
domain = 1 => domain = 0~length = 10000~pad = 6150~[[schedule]]~domain = 1~hart = 1
accepted
length = 1000~pad = 1000000 => length = 10000~pad = 6150~[[schedule]]~domain = 0~length = 10000~pad = 6150~hart = 1
K19 at 2 found 0 wanted 3
domain = 1 => domain = 1~hart = 1
pad = 1000000 => pad = 1000000~[[schedule]]~domain = 0~length = 10000~pad = 6150~hart = 1
K19 at 2 found 0 wanted 3
domain = 1 => domain = 1~hart = 3
pad = 1000000 => pad = 1000000~[[schedule]]~domain = 0~length = 10000~pad = 6150~hart = 1
K19 at 2 found 0 wanted 2
pad = 1000000 => pad = 1000000~[[schedule]]~domain = 0~length = 10000~pad = 6149~hart = 1
K17 at 2 found 6149 wanted 6150, else K19 at 2 found 0 wanted 3";

// K17, K18, K19 and K22, of entries whose second is on hart 4.
const OF_OTHERS: &str = "pad = 6150 => pad = 6149
K17 at 0 found 6149 wanted 6150, else K19 at 1 found 4 wanted 1
frames = 64 => version = 2~frames = 64
colours = [2] => colours = [2]~calls = [1, 0]
K18 at 1 found 1 wanted 14
predictor = 16 => predictor = 16~targets = 3
K19 at 1 found 4 wanted 1";

fn rows_are_named(rt: &impl Abort, alloc: Global, rows: &[Row]) -> Result<(), CheckRefusal> {
    for &(places, due) in rows {
        are_named_on(rt, alloc, IMAGE, places, due)?;
    }
    Ok(())
}

#[test]
fn the_first_broken_case_of_entries_is_named(rt: HostRuntime) -> Result<(), CheckRefusal> {
    rows_are_named(&rt, rt.alloc(), &OF_HARTS)
}

#[test]
fn the_first_broken_case_is_named(rt: HostRuntime) -> Result<(), CheckRefusal> {
    are_named(&rt, rt.alloc(), IMAGE, &[OF_TEXTS])?;
    are_named_on(&rt, rt.alloc(), IMAGE, &[(0, 0), (1, 4)], OF_OTHERS)
}

// Blue is alone on hart 0; red is the first entry and the last, on hart 1.
fn are_those_of_both(rt: &impl Abort, of_blue: &HartSchedule, of_red: &HartSchedule) {
    let red = Entry {
        domain: 0,
        length: 10_000,
        pad: 6150,
        hart: 1,
    };
    let blue = Entry {
        domain: 1,
        hart: 0,
        ..red
    };
    is_equal(rt, "entries", (of_blue.len(), of_red.len()), (1, 2));
    is_equal(rt, "blue's", of_blue.entry(0), blue);
    is_equal(rt, "red's last", of_red.entry(1), red);
    let boot = of_red.turn(0);
    is_equal(rt, "boot", (boot.place, boot.start), (2, 6150));
    let next = of_red.turn(1);
    is_equal(rt, "next", (next.place, next.start), (0, 22_300));
}

fn has_both(rt: &impl Abort, public: &Public) {
    is_equal(rt, "entries", public.schedule.len(), 3);
    assert_eq!(rt; public.harts.len(), 2);
    are_those_of_both(rt, &public.harts[0], &public.harts[1]);
}

#[test]
fn each_hart_has_its_entries(rt: HostRuntime) -> Result<(), CheckRefusal> {
    let raw = record_on(rt.alloc(), IMAGE, &[(0, 1), (1, 0), (0, 1)])?;
    let checked = check(rt.alloc(), raw)?;
    has_both(&rt, checked.public());
    drop(checked);
    Ok(())
}
