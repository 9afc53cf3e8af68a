// Lines that are given up, dirty or not, and what a flush leaves.
use l1_cache::{L1D, L1I};
use repl_policy::Lru;
use set_cache::Policy;
use std::test::Fail;
use tp_base::Line;

#[test]
fn a_dirty_line_is_given_up(rt: HostRuntime) -> Result<(), Fail> {
    let mut data = L1D::new(rt.alloc(), Lru, 1, 2)?;
    data.store(Line::new(10));
    data.load(Line::new(20));
    data.store(Line::new(20));
    let last = data.load(Line::new(30));
    assert_eq!(rt; (last.victim, last.dirty_victim), (Some(10), true));
    assert_eq!(rt; data.flush(), 1);
    assert!(rt; !data.load(Line::new(20)).hit);
    Ok(())
}

// The line at a place, if it is dirty.
fn dirty_at<P: Policy>(data: &L1D<P>, place: u32) -> Option<Line> {
    if place < data.places() {
        data.dirty_at(place)
    } else {
        None
    }
}

#[test]
fn dirty_lines_are_told_by_their_places(rt: HostRuntime) -> Result<(), Fail> {
    let mut data = L1D::new(rt.alloc(), Lru, 2, 2)?;
    data.load(Line::new(12));
    data.store(Line::new(10));
    data.store(Line::new(8_388_607));
    assert_eq!(rt; (data.dirty(), data.places()), (2, 4));
    assert_eq!(rt;
        (dirty_at(&data, 0), dirty_at(&data, 1)),
        (None, Some(Line::new(10)))
    );
    assert_eq!(rt;
        (dirty_at(&data, 2), dirty_at(&data, 3)),
        (Some(Line::new(8_388_607)), None)
    );
    Ok(())
}

#[test]
fn a_fetched_line_stays_until_the_flush(rt: HostRuntime) -> Result<(), Fail> {
    let mut instructions = L1I::new(rt.alloc(), Lru, 2, 1)?;
    for (line, hit) in [
        (4, false),
        (5, false),
        (4, true),
        (6, false),
        (4, false),
        (5, true),
        (8_388_607, false),
        (5, false),
    ] {
        assert_eq!(rt; instructions.fetch(Line::new(line)), hit, "at {line}");
    }
    assert_eq!(rt; instructions.flush(), 0);
    assert!(rt; !instructions.fetch(Line::new(5)));
    Ok(())
}
