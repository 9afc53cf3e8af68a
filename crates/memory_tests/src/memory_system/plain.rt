// The hierarchy as plain lists, for the tests: 2 ways in 16 sets at the first
// level, 4 in 256 at the second, 2 in 4 of the buffer; 16 counters; lines of 64
// bytes, and so 4 colours.
use repl_policy::AnyPolicy;
use std::alloc::Global;
use std::test::Fail;
use sv32_walk::Access;

// A line or page that is kept.
#[derive(Clone, Copy)]
struct Kept {
    number: u32,
    way: usize,
    dirty: bool,
    // Under the policy of marks: whether it has one.
    marked: bool,
}

// What a touch found, and the dirty line that it gave up.
#[derive(Clone, Copy)]
struct Found {
    hit: bool,
    dirty_victim: Option<u32>,
}

// A cache as one list of what it keeps, newest first.
#[derive(Drop)]
struct PlainCache {
    policy: AnyPolicy,
    // The bits of a number that tell its set.
    mask: u32,
    ways: usize,
    kept: Vec<Kept>,
}

impl PlainCache {
    fn new(alloc: Global, policy: AnyPolicy, mask: u32, ways: usize) -> Self {
        PlainCache {
            policy,
            mask,
            ways,
            kept: Vec::new(alloc),
        }
    }

    fn holds(&self, number: u32) -> bool {
        self.kept.iter().any(|kept| kept.number == number)
    }

    // The least way of a set that nothing is in, or that of its victim.
    fn way_for(&self, set: u32) -> usize {
        let mask = self.mask;
        let filled = self
            .kept
            .iter()
            .filter(|kept| kept.number & mask == set)
            .count();
        if filled < self.ways {
            filled
        } else {
            self.victim(set)
        }
    }

    // Empties a way of a set; answers the line that was in it if that is dirty.
    fn give_up(&mut self, set: u32, way: usize) -> Option<u32> {
        let mask = self.mask;
        let dirty_victim = self
            .kept
            .iter()
            .find(|kept| kept.number & mask == set && kept.way == way && kept.dirty)
            .map(|kept| kept.number);
        self.kept
            .retain(|kept| kept.number & mask != set || kept.way != way);
        dirty_victim
    }

    fn touch(&mut self, number: u32, store: bool) -> Result<Found, Fail> {
        if let Some(place) = self.kept.iter().position(|kept| kept.number == number) {
            self.touch_again(place, store)?;
            return Ok(Found {
                hit: true,
                dirty_victim: None,
            });
        }
        let set = number & self.mask;
        let way = self.way_for(set);
        let dirty_victim = self.give_up(set, way);
        let line = Kept {
            number,
            way,
            dirty: store,
            marked: true,
        };
        self.kept.insert(0, line)?;
        self.clear_marks(number);
        Ok(Found {
            hit: false,
            dirty_victim,
        })
    }

    fn dirty_at(&self, place: usize) -> Option<u32> {
        let kept = self.kept.get(place)?;
        if kept.dirty { Some(kept.number) } else { None }
    }

    // A line that is here is dirty then.
    fn mark(&mut self, number: u32) {
        for kept in self.kept.iter_mut() {
            kept.dirty = kept.dirty || kept.number == number;
        }
    }

    fn touch_again(&mut self, place: usize, store: bool) -> Result<(), Fail> {
        if let Some(kept) = self.kept.get_mut(place) {
            kept.dirty = kept.dirty || store;
            kept.marked = true;
            let again = *kept;
            if self.policy != AnyPolicy::Fifo {
                self.kept.retain(|other| other.number != again.number);
                self.kept.insert(0, again)?;
                self.clear_marks(again.number);
            }
        }
        Ok(())
    }

    // Where all ways of its set have a mark, only that of this number is left.
    fn clear_marks(&mut self, number: u32) {
        let mask = self.mask;
        let marked = self
            .kept
            .iter()
            .filter(|kept| kept.number & mask == number & mask && kept.marked)
            .count();
        if marked < self.ways {
            return;
        }
        for kept in self.kept.iter_mut() {
            if kept.number & mask == number & mask {
                kept.marked = kept.number == number;
            }
        }
    }

    fn victim(&self, set: u32) -> usize {
        if self.policy == AnyPolicy::TreePlru {
            return self.victim_by_halves(set);
        }
        if self.policy == AnyPolicy::Nmru {
            return self.least_unmarked(set);
        }
        let mut oldest = 0;
        for kept in &self.kept {
            if kept.number & self.mask == set {
                oldest = kept.way;
            }
        }
        oldest
    }

    // The least way whose line has no mark.
    fn least_unmarked(&self, set: u32) -> usize {
        let mask = self.mask;
        (0..self.ways)
            .find(|way| !self.kept.iter().any(|kept| kept.number & mask == set
                && kept.way == *way
                && kept.marked))
            .unwrap_or(0)
    }

    // Away from the half of the newest of 4 ways, then from the newest of 2.
    fn victim_by_halves(&self, set: u32) -> usize {
        let mut low = 0;
        for (half, below) in [(2, 3), (1, 1)] {
            let newest = self.kept.iter().find(|kept| kept.number & self.mask == set
                && kept.way | below == low | below);
            if half < self.ways && newest.is_some_and(|kept| kept.way & half == 0) {
                low |= half;
            }
        }
        low
    }
}

// A page's frame, and what its leaf permits.
#[derive(Clone, Copy)]
struct PlainLeaf {
    frame: u32,
    loads: bool,
    stores: bool,
    fetches: bool,
}

// Pages 0x400 on lie in frames 16 on under a table: of four pages the first is
// not mapped, one is read, one written too, one fetched. A page of 4 MiB from
// page 0x800 on is read and written; no other page is mapped.
fn leaf_of(page: u32) -> Option<PlainLeaf> {
    let frame = page & 63;
    match (page >> 10, page & 3) {
        (1, 1) => Some(PlainLeaf {
            frame: frame + 16,
            loads: true,
            stores: false,
            fetches: false,
        }),
        (1, 2) => Some(PlainLeaf {
            frame: frame + 16,
            loads: true,
            stores: true,
            fetches: false,
        }),
        (1, 3) => Some(PlainLeaf {
            frame: frame + 16,
            loads: false,
            stores: false,
            fetches: true,
        }),
        (2, _) => Some(PlainLeaf {
            frame,
            loads: true,
            stores: true,
            fetches: false,
        }),
        _ => None,
    }
}

// What an access to an address comes to.
fn address_of(va: u32, access: Access) -> Option<u32> {
    let leaf = leaf_of(va >> 12)?;
    let permitted = match access {
        Access::Fetch => leaf.fetches,
        Access::Load => leaf.loads,
        Access::Store => leaf.stores,
    };
    if permitted {
        Some((leaf.frame << 12) | (va & 0xfff))
    } else {
        None
    }
}

#[derive(Drop)]
pub struct PlainSystem {
    pinned: bool,
    back: bool,
    l1i: PlainCache,
    l1d: PlainCache,
    l2: PlainCache,
    tlb: PlainCache,
    counters: [u8; 16],
}

impl PlainSystem {
    pub fn new(alloc: Global, policy: AnyPolicy, pinned: bool, back: bool) -> Self {
        PlainSystem {
            pinned,
            back,
            l1i: PlainCache::new(alloc, policy, 15, 2),
            l1d: PlainCache::new(alloc, policy, 15, 2),
            l2: PlainCache::new(alloc, policy, 255, 4),
            tlb: PlainCache::new(alloc, policy, 3, 2),
            counters: [1; 16],
        }
    }

    fn is_pinned(&self, line: u32) -> bool {
        self.pinned && line / 64 % 4 == 0
    }

    // Past the first level.
    pub fn below(&mut self, line: u32) -> Result<u16, Fail> {
        if self.is_pinned(line) {
            return Ok(8);
        }
        let found = self.l2.touch(line, false)?;
        if found.hit {
            return Ok(8);
        }
        Ok(if found.dirty_victim.is_some() { 58 } else { 48 })
    }

    fn write_back(&mut self, line: u32) {
        if self.back && !self.is_pinned(line) {
            self.l2.mark(line);
        }
    }

    pub fn fetch(&mut self, line: u32) -> Result<u32, Fail> {
        if self.l1i.touch(line, false)?.hit {
            return Ok(1);
        }
        Ok(1 + u32::from(self.below(line)?))
    }

    pub fn access(&mut self, line: u32, store: bool) -> Result<u32, Fail> {
        let found = self.l1d.touch(line, store)?;
        if found.hit {
            return Ok(1);
        }
        let mut cycles = 1;
        if let Some(victim) = found.dirty_victim {
            self.write_back(victim);
            cycles = 11;
        }
        Ok(cycles + u32::from(self.below(line)?))
    }

    pub fn branch(&mut self, pc: u32, taken: bool) -> u32 {
        let counter = &mut self.counters[pc as usize / 4 % 16];
        let cost = if (*counter >= 2) == taken { 0 } else { 3 };
        *counter = if taken {
            counter.saturating_add(1).min(3)
        } else {
            counter.saturating_sub(1)
        };
        cost
    }

    // The root is in frame 2, and the table of pages 0x400 on in frame 3.
    pub fn translate(&mut self, va: u32, access: Access) -> Result<(Option<u32>, u32), Fail> {
        let page = va >> 12;
        let address = address_of(va, access);
        if self.tlb.holds(page) {
            self.tlb.touch(page, false)?;
            return Ok((address, 1));
        }
        let mut cycles = 1 + u32::from(self.below(128)?);
        if page >> 10 == 1 {
            cycles += u32::from(self.below(192 + (page & 1023) / 16)?);
        }
        if address.is_some() {
            self.tlb.touch(page, false)?;
        }
        Ok((address, cycles))
    }

    pub fn empty_tlb(&mut self) {
        self.tlb.kept.clear();
    }

    pub fn flush(&mut self) -> u32 {
        let mut cycles = 20u32;
        for place in 0..self.l1d.kept.len() {
            if let Some(line) = self.l1d.dirty_at(place) {
                self.write_back(line);
                cycles = cycles.saturating_add(10);
            }
        }
        self.l1i.kept.clear();
        self.l1d.kept.clear();
        self.tlb.kept.clear();
        self.counters = [1; 16];
        cycles
    }
}
