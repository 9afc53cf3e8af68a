// Pages that come and go, and a buffer of one place.
use repl_policy::Lru;
use std::test::Fail;
use tlb_model::Tlb;

#[test]
fn a_page_keeps_the_leaf_of_its_last_fill(rt: HostRuntime) -> Result<(), Fail> {
    let mut tlb = Tlb::new(rt.alloc(), Lru, 1, 2)?;
    // Pages 1 and 2 fill the set; 1 is looked up again, so 3 takes the way of 2.
    for (page, leaf, before) in [
        (1, 11, None),
        (2, 12, None),
        (1, 0, Some(11)),
        (3, 13, None),
        (2, 22, None),
        (3, 0, Some(13)),
        (1, 21, None),
        (1, 0, Some(21)),
    ] {
        let found = tlb.find(page);
        assert_eq!(rt; found, before, "page {page}");
        if found.is_none() {
            tlb.fill(page, leaf);
        }
    }
    assert_eq!(rt; tlb.flush(), 0);
    assert_eq!(rt; tlb.find(3), None);
    Ok(())
}

#[test]
fn one_place_keeps_the_last_page(rt: HostRuntime) -> Result<(), Fail> {
    let mut tlb = Tlb::new(rt.alloc(), Lru, 1, 1)?;
    for page in [1_048_575, 0] {
        assert_eq!(rt; tlb.find(page), None);
        tlb.fill(page, page + 1);
        assert_eq!(rt; tlb.find(page), Some(page + 1));
    }
    assert_eq!(rt; tlb.find(1_048_575), None);
    Ok(())
}

// How many of these look-ups, each with a fill where it misses, the two answer otherwise.
fn differences(aged: &mut Tlb<Lru>, new: &mut Tlb<Lru>) -> u32 {
    let mut count = 0u32;
    for page in [1, 2, 3, 1, 5, 3, 9, 1, 2] {
        let found = new.find(page);
        if aged.find(page) != found {
            count = count.saturating_add(1);
        }
        if found.is_none() {
            new.fill(page, page + 100);
        }
        if aged.find(page).is_none() {
            aged.fill(page, page + 100);
        }
    }
    count
}

#[test]
fn the_greatest_epoch_is_passed(rt: HostRuntime) -> Result<(), Fail> {
    let mut aged = Tlb::new_at(rt.alloc(), Lru, 2, 2, u32::MAX - 1)?;
    for _ in 0..4 {
        let mut new = Tlb::new(rt.alloc(), Lru, 2, 2)?;
        assert_eq!(rt; differences(&mut aged, &mut new), 0);
        assert_eq!(rt; aged.flush(), 0);
        assert_eq!(rt; aged.find(1), None);
    }
    Ok(())
}
