// The policies beside plain lists of ways.
ghost use Rattle.std.specs.Prelude.{◌≤◌};

use repl_policy::{AnyPolicy, Fifo, Lru, Nmru, TreePlru};
use set_cache::{Policy, SetCache};
use std::alloc::Global;
use std::process::Abort;
use std::test::Fail;
use tp_base::Memory;

// A set of 4 ways takes lines 1 to 4 and these, then 5: the victim of each policy.
const VICTIMS: [(AnyPolicy, &[u32], u32); 8] = [
    (AnyPolicy::Lru, &[1], 2),
    (AnyPolicy::Fifo, &[1], 1),
    (AnyPolicy::TreePlru, &[1], 3),
    (AnyPolicy::Nmru, &[1], 2),
    (AnyPolicy::Lru, &[3, 2, 1], 4),
    (AnyPolicy::Fifo, &[3, 2, 1], 1),
    (AnyPolicy::TreePlru, &[3, 2, 1], 4),
    (AnyPolicy::Nmru, &[3, 2, 1], 2),
];

fn victim_after(cache: &mut SetCache<AnyPolicy>, lines: &[u32]) -> Option<u32> {
    for line in [1, 2, 3, 4] {
        cache.touch(line, false);
    }
    for line in lines {
        cache.touch(*line, false);
    }
    cache.touch(5, false).victim
}

fn victim_of(alloc: Global, policy: AnyPolicy, lines: &[u32]) -> Result<Option<u32>, Memory> {
    Ok(victim_after(&mut SetCache::new(alloc, policy, 1, 4)?, lines))
}

#[test]
fn each_policy_gives_up_its_victim(rt: HostRuntime) -> Result<(), Fail> {
    for (policy, lines, victim) in VICTIMS {
        assert_eq!(rt; victim_of(rt.alloc(), policy, lines)?, Some(victim));
    }
    Ok(())
}

// The ways of one set as plain lists, newest first.
#[derive(Drop)]
struct PlainSet {
    policy: AnyPolicy,
    lines: Vec<u32>,
    order: Vec<usize>,
}

impl PlainSet {
    // Whether the line was here, and the line that was given up.
    fn touch(&mut self, ways: usize, line: u32) -> Result<(bool, Option<u32>), Fail> {
        if let Some(way) = self.lines.iter().position(|kept| *kept == line) {
            if self.policy != AnyPolicy::Fifo {
                self.list(ways, way)?;
            }
            return Ok((true, None));
        }
        let mut way = self.lines.len();
        let mut victim = None;
        if way < ways {
            self.lines.push(line)?;
        } else {
            way = self.victim(ways);
            if let Some(kept) = self.lines.get_mut(way) {
                victim = Some(*kept);
                *kept = line;
            }
        }
        self.list(ways, way)?;
        Ok((false, victim))
    }

    // To the front; of marks that every way would have, the last is left.
    fn list(&mut self, ways: usize, way: usize) -> Result<(), Fail> {
        self.order.retain(|listed| *listed != way);
        if self.policy == AnyPolicy::Nmru && self.order.len() + 1 >= ways {
            self.order.clear();
        }
        self.order.insert(0, way)?;
        Ok(())
    }

    fn victim(&self, ways: usize) -> usize {
        if self.policy == AnyPolicy::Nmru {
            return (0..ways).find(|way| !self.order.contains(way)).unwrap_or(0);
        }
        if self.policy != AnyPolicy::TreePlru {
            return self.order.last().copied().unwrap_or(0);
        }
        let mut low = 0;
        let mut size = ways;
        for _ in 0..4 {
            let half = size / 2;
            if half > 0 && low < 16 && half < 16 {
                let newest = self
                    .order
                    .iter()
                    .find(|way| **way >= low && **way - low < size);
                if newest.is_some_and(|way| *way - low < half) {
                    low += half;
                }
                size = half;
            }
        }
        low
    }
}

// The same 300 touches of both.
fn check_touches(
    rt: &impl Abort,
    ways: u32,
    cache: &mut SetCache<AnyPolicy>,
    plain: &mut PlainSet,
) -> Result<(), Fail>
    requires few { ways ≤ 16 }
{
    let mut seed = 12345u32;
    for _ in 0..300 {
        seed = seed.wrapping_mul(1664525).wrapping_add(1013904223);
        let line = (seed >> 16) % (ways + ways / 2 + 1);
        let touch = cache.touch(line, false);
        let wanted = plain.touch(ways as usize, line)?;
        assert_eq!(rt; (touch.hit, touch.victim), wanted);
    }
    Ok(())
}

#[test]
fn each_policy_does_as_plain_lists_do(rt: HostRuntime) -> Result<(), Fail> {
    for policy in [
        AnyPolicy::Lru,
        AnyPolicy::Fifo,
        AnyPolicy::TreePlru,
        AnyPolicy::Nmru,
    ] {
        for ways in [1, 2, 4, 8, 16] {
            let mut cache = SetCache::new(rt.alloc(), policy, 1, ways)?;
            let mut plain = PlainSet {
                policy,
                lines: Vec::new(rt.alloc()),
                order: Vec::new(rt.alloc()),
            };
            check_touches(&rt, ways, &mut cache, &mut plain)?;
        }
    }
    Ok(())
}

// One set of 2 ways in the greatest epoch: store 10, load 20, store 20, load 30.
#[test]
fn a_flush_in_the_greatest_epoch_empties_the_cache(rt: HostRuntime) -> Result<(), Fail> {
    let mut cache = SetCache::new_at(rt.alloc(), Lru, 1, 2, u32::MAX)?;
    let rows = [
        (10, true, false, None, false),
        (20, false, false, None, false),
        (20, true, true, None, false),
        (30, false, false, Some(10), true),
    ];
    for (line, store, hit, victim, dirty) in rows {
        let touch = cache.touch(line, store);
        assert_eq!(rt;
            (touch.hit, touch.victim, touch.dirty_victim),
            (hit, victim, dirty)
        );
    }
    assert_eq!(rt; cache.flush(), 1);
    assert!(rt; !cache.holds(20));
    assert_eq!(rt; cache.dirty(), 0);
    Ok(())
}

// One set of 2 ways: two entries, a state and the epoch; then the epoch alone.
#[test]
fn a_flush_counts_what_it_writes(rt: HostRuntime) -> Result<(), Fail> {
    let mut steps = 0;
    let mut cache = SetCache::new_at(rt.alloc(), Lru, 1, 2, u32::MAX)?;
    cache.flush_counted(&mut steps);
    assert_eq!(rt; steps, 4);
    cache.flush_counted(&mut steps);
    assert_eq!(rt; steps, 5);
    Ok(())
}

// How many of these touches the two caches answer otherwise.
fn differences<P: Policy>(aged: &mut SetCache<P>, new: &mut SetCache<P>) -> u32 {
    let mut count = 0u32;
    let mut seed = 2463534242u32;
    for _ in 0..60 {
        seed = seed.wrapping_mul(1664525).wrapping_add(1013904223);
        let line = (seed >> 16) % 12;
        let store = (seed >> 24) % 3 == 0;
        if aged.touch(line, store) != new.touch(line, store) || aged.dirty() != new.dirty() {
            count = count.saturating_add(1);
        }
    }
    count
}

// The same of a cache that passes the greatest epoch, beside one that is made anew
// for each epoch; a flush that answers otherwise, or leaves something, counts too.
fn differences_over_epochs<P: Policy + Copy>(alloc: Global, policy: P) -> Result<u32, Memory>
    requires four { P.takes policy 4 }
{
    let mut aged = SetCache::new_at(alloc, policy, 2, 4, u32::MAX - 1)?;
    let mut count = 0u32;
    for _ in 0..4 {
        let mut new = SetCache::new(alloc, policy, 2, 4)?;
        count = count.saturating_add(differences(&mut aged, &mut new));
        if aged.flush() != new.flush() || aged.dirty() != 0 || aged.holds(0) || aged.holds(5) {
            count = count.saturating_add(1);
        }
    }
    Ok(count)
}

#[test]
fn the_greatest_epoch_is_passed(rt: HostRuntime) -> Result<(), Fail> {
    let found = [
        differences_over_epochs(rt.alloc(), Lru)?,
        differences_over_epochs(rt.alloc(), Fifo)?,
        differences_over_epochs(rt.alloc(), TreePlru)?,
        differences_over_epochs(rt.alloc(), Nmru)?,
        differences_over_epochs(rt.alloc(), AnyPolicy::TreePlru)?,
    ];
    assert_eq!(rt; found, [0; 5]);
    Ok(())
}
