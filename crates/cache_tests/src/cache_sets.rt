// What a touch answers, row by row, marks, and caches at the ends of their sizes.
use set_cache::{Policy, SetCache, Touch};
use std::process::Abort;
use std::test::Fail;

// Gives up way 0, always.
#[derive(Drop)]
struct First;

impl Policy for First {
    ghost use Rattle.std.specs.Prelude.{◌<◌};

    ghost takes = { λ _ ways. 0 < ways };

    ghost rule = { λ _ _. record { touched = λ list _. list; filled = λ list _. list; victim = λ _. 0 } };

    ghost stands_for = { λ _ _ _ _. Unit {0} };

    ghost victim_below = { λ _ _ _ some _. some };

    fn fresh(&self, _ways: u32) -> u64 {
        0
    }

    fn touch(&self, _ways: u32, state: u64, _way: u32) -> u64 {
        state
    }

    fn fill(&self, _ways: u32, state: u64, _way: u32) -> u64 {
        state
    }

    fn victim(&self, _ways: u32, _state: u64) -> u32 {
        0
    }
}

// Of two ways gives up the one that wasn't touched last.
#[derive(Drop)]
struct Older;

impl Policy for Older {
    ghost use Rattle.std.specs.Prelude.{◌≡◌, ◌-◌, ◌%◌, [], ◌∷◌, slice_index_or};
    ghost use Rattle.std.proofs.Common.{arith};

    ghost takes = { λ _ ways. ways ≡ 2 };

    ghost rule = { λ _ _. record {
      touched = λ _ way. way ∷ [];
      filled = λ _ way. way ∷ [];
      victim = λ list. 1 - slice_index_or list 0 0 % 2;
    } };

    ghost stands_for = { λ _ _ state list. state ≡ slice_index_or list 0 0 };

    ghost victim_below = { λ _ _ _ two _. omega (arith, two) };

    fn fresh(&self, _ways: u32) -> u64 {
        0
    }

    fn touch(&self, _ways: u32, _state: u64, way: u32) -> u64 {
        u64::from(way)
    }

    fn fill(&self, _ways: u32, _state: u64, way: u32) -> u64 {
        u64::from(way)
    }

    fn victim(&self, _ways: u32, state: u64) -> u32 {
        1 - (state % 2) as u32
    }
}

const HIT: Touch = Touch {
    hit: true,
    victim: None,
    dirty_victim: false,
};

const TOOK_AN_EMPTY_WAY: Touch = Touch {
    hit: false,
    victim: None,
    dirty_victim: false,
};

fn gave_up(number: u32, dirty: bool) -> Touch {
    Touch {
        hit: false,
        victim: Some(number),
        dirty_victim: dirty,
    }
}

// The first line whose touch answers otherwise than its row says.
fn first_wrong<P: Policy>(cache: &mut SetCache<P>, rows: &[(u32, bool, Touch)]) -> Option<u32> {
    for (number, store, wanted) in rows {
        if cache.touch(*number, *store) != *wanted {
            return Some(*number);
        }
    }
    None
}

// In two sets of two ways: lines 4, 6 and 8 meet in set 0.
fn check_victims(rt: &impl Abort, cache: &mut SetCache<First>) {
    let rows = [
        (4, true, TOOK_AN_EMPTY_WAY),
        (7, false, TOOK_AN_EMPTY_WAY),
        (6, false, TOOK_AN_EMPTY_WAY),
        (6, true, HIT),
        (8, false, gave_up(4, true)),
        (6, false, HIT),
    ];
    assert_eq!(rt; first_wrong(cache, &rows), None);
    assert_eq!(rt;
        (cache.place_of(7), cache.find(7), cache.find(4)),
        (Some(2), Some(2), None)
    );
    assert!(rt; !cache.holds(4));
    assert_eq!(rt; (cache.dirty(), cache.flush(), cache.dirty()), (1, 1, 0));
    assert!(rt; !cache.holds(6));
}

#[test]
fn a_victim_is_given_up_with_its_mark(rt: HostRuntime) -> Result<(), Fail> {
    check_victims(&rt, &mut SetCache::new(rt.alloc(), First, 2, 2)?);
    Ok(())
}

// Marks a line, if it is here.
fn mark<P: Policy>(cache: &mut SetCache<P>, number: u32) {
    if cache.holds(number) {
        cache.mark(number);
    }
}

// The line at a place, if it has a mark.
fn dirty_at<P: Policy>(cache: &SetCache<P>, place: u32) -> Option<u32> {
    if place < cache.places() {
        cache.dirty_at(place)
    } else {
        None
    }
}

// In two sets of two ways: places 0 and 1 are the even lines', 2 and 3 the odd ones'.
fn check_dirty_lines(rt: &impl Abort, cache: &mut SetCache<First>) {
    let rows = [
        (4, true, TOOK_AN_EMPTY_WAY),
        (6, false, TOOK_AN_EMPTY_WAY),
        (7, false, TOOK_AN_EMPTY_WAY),
        (9, true, TOOK_AN_EMPTY_WAY),
    ];
    assert_eq!(rt; first_wrong(cache, &rows), None);
    assert_eq!(rt; cache.places(), 4);
    assert_eq!(rt; (dirty_at(cache, 0), dirty_at(cache, 1)), (Some(4), None));
    assert_eq!(rt; (dirty_at(cache, 2), dirty_at(cache, 3)), (None, Some(9)));
    // Marked twice it counts once.
    mark(cache, 6);
    mark(cache, 6);
    assert_eq!(rt;
        (dirty_at(cache, 0), dirty_at(cache, 1)),
        (Some(4), Some(6))
    );
    assert_eq!(rt; (cache.dirty(), cache.flush()), (3, 3));
    assert_eq!(rt; (dirty_at(cache, 0), dirty_at(cache, 1)), (None, None));
}

#[test]
fn dirty_lines_are_told_by_their_places(rt: HostRuntime) -> Result<(), Fail> {
    check_dirty_lines(&rt, &mut SetCache::new(rt.alloc(), First, 2, 2)?);
    Ok(())
}

// Lines 1 and 2 in one set of two ways, then a mark of line 1, and a third line.
fn after_a_mark(cache: &mut SetCache<Older>, marked: bool) -> Touch {
    cache.touch(1, false);
    cache.touch(2, false);
    if marked {
        mark(cache, 1);
    }
    cache.touch(3, false)
}

#[test]
fn a_mark_leaves_the_order(rt: HostRuntime) -> Result<(), Fail> {
    let mut cache = SetCache::new(rt.alloc(), Older, 1, 2)?;
    assert_eq!(rt; after_a_mark(&mut cache, true), gave_up(1, true));
    cache.flush();
    assert_eq!(rt; after_a_mark(&mut cache, false), gave_up(1, false));
    Ok(())
}

#[test]
fn one_place_is_enough(rt: HostRuntime) -> Result<(), Fail> {
    let mut cache = SetCache::new(rt.alloc(), First, 1, 1)?;
    let rows = [
        (u32::MAX, true, TOOK_AN_EMPTY_WAY),
        (u32::MAX, false, HIT),
        (0, false, gave_up(u32::MAX, true)),
        (1, true, gave_up(0, false)),
    ];
    assert_eq!(rt; first_wrong(&mut cache, &rows), None);
    Ok(())
}

#[test]
fn one_way_is_enough(rt: HostRuntime) -> Result<(), Fail> {
    let mut cache = SetCache::new(rt.alloc(), First, 2, 1)?;
    let rows = [
        (u32::MAX, false, TOOK_AN_EMPTY_WAY),
        (4, false, TOOK_AN_EMPTY_WAY),
        (3, true, gave_up(u32::MAX, false)),
        (4, true, HIT),
    ];
    assert_eq!(rt; first_wrong(&mut cache, &rows), None);
    Ok(())
}

// How many of the lines 0, 1 and so on took an empty way.
fn filled(cache: &mut SetCache<First>, lines: u32) -> u32 {
    let mut count = 0u32;
    for number in 0..lines {
        if cache.touch(number, false) == TOOK_AN_EMPTY_WAY {
            count = count.saturating_add(1);
        }
    }
    count
}

#[test]
fn one_set_is_enough(rt: HostRuntime) -> Result<(), Fail> {
    let mut cache = SetCache::new(rt.alloc(), First, 1, 16)?;
    assert_eq!(rt; filled(&mut cache, 16), 16);
    assert_eq!(rt; cache.touch(u32::MAX, false), gave_up(0, false));
    Ok(())
}
