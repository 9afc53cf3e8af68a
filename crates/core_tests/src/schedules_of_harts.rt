// Three entries, the second of which is on another hart.
ghost use Rattle.std.specs.Prelude.{◌≤◌};

use sched_table::{Entry, HartSchedule, Turn, hart_schedules, harts_in};
use std::process::Abort;
use std::test::Fail;

const FIRST: Entry = Entry {
    domain: 0,
    length: 1000,
    pad: 30,
    hart: 0,
};

const OTHER: Entry = Entry {
    domain: 1,
    length: 1000,
    pad: 7,
    hart: 1,
};

const LAST: Entry = Entry {
    domain: 0,
    length: 1000,
    pad: 50,
    hart: 0,
};

// The turn of a slot, and what it is to be.
fn check_turn(rt: &impl Abort, schedule: &HartSchedule, slot: u32, wanted: Turn)
    requires few { slot ≤ 65536 }
{
    assert_eq!(rt; schedule.turn(slot), wanted, "at {slot}");
}

fn check_starts(rt: &impl Abort, first: &HartSchedule) {
    assert_eq!(rt; first.len(), 2);
    assert_eq!(rt; first.entry(3), LAST);
    // A round is 2,080 cycles, and the boot's pad is that of the third entry.
    for (slot, start) in [(0, 50), (1, 1080), (2, 2130), (65536, 68_157_490)] {
        assert_eq!(rt; first.start(slot), start, "at {slot}");
    }
}

fn check_turns(rt: &impl Abort, first: &HartSchedule) {
    let boot = Turn {
        entry: FIRST,
        start: 50,
        ended: LAST,
        place: 2,
        last_end: 0,
    };
    check_turn(rt, first, 0, boot);
    let next = Turn {
        entry: LAST,
        start: 1080,
        ended: FIRST,
        place: 0,
        last_end: 1050,
    };
    check_turn(rt, first, 1, next);
}

fn check_each(rt: &impl Abort, each: &[HartSchedule]) {
    assert_eq!(rt; each.len(), 2);
    assert_eq!(rt; (each[0].len(), each[1].len()), (2, 1));
    let third = Turn {
        entry: OTHER,
        start: 2021,
        ended: OTHER,
        place: 1,
        last_end: 2014,
    };
    check_turn(rt, &each[1], 2, third);
}

#[test]
fn each_hart_has_slots_of_its_own(rt: HostRuntime) -> Result<(), Fail> {
    let entries = [FIRST, OTHER, LAST];
    assert_eq!(rt; harts_in(&entries), 2);
    let first = HartSchedule::new(rt.alloc(), &entries, 0)?;
    check_starts(&rt, &first);
    check_turns(&rt, &first);
    check_each(&rt, &hart_schedules(rt.alloc(), &entries)?);
    Ok(())
}
