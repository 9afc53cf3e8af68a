// A schedule of two entries, and one of one entry at its greatest.
use sched_table::{Entry, Schedule};
use std::test::Fail;

#[test]
fn slots_begin_round_after_round(rt: HostRuntime) -> Result<(), Fail> {
    let red = Entry {
        domain: 0,
        length: 1000,
        pad: 30,
        hart: 0,
    };
    let blue = Entry {
        domain: 1,
        length: 2000,
        pad: 7,
        hart: 0,
    };
    let schedule = Schedule::new(rt.alloc(), &[red, blue])?;
    assert_eq!(rt; schedule.len(), 2);
    assert_eq!(rt; schedule.entry(0), red);
    assert_eq!(rt; schedule.entry(5), blue);
    // A round is 3,037 cycles.
    for (slot, start) in [(0, 7), (1, 1037), (2, 3044), (3, 4074), (65536, 99_516_423)] {
        assert_eq!(rt; schedule.start(slot), start, "at {slot}");
    }
    Ok(())
}

#[test]
fn the_last_start_is_below_2_to_37(rt: HostRuntime) -> Result<(), Fail> {
    let longest = Entry {
        domain: 15,
        length: 1_000_000,
        pad: 1_000_000,
        hart: 0,
    };
    let schedule = Schedule::new(rt.alloc(), &[longest])?;
    assert_eq!(rt; schedule.start(65536), 131_073_000_000);
    Ok(())
}
