// The whole cache, whose calls each work on the one set of a number, but for
// those that count or empty all.
ghost use Rattle.std.specs.Prelude.{◌≡◌, ◌%◌, ◌<◌, ℕ, List, length, position, is_none, unwrap_or};
ghost use Rattle.std.specs.Int.{IsPowerOfTwo};
ghost use Rattle.set_cache.specs.Contents.{AreFirst, kept_at};

use crate::packed::PackedSets;
use crate::{KeptLine, Policy, Touch};
use std::alloc::Global;
use std::marker::Model;
use tp_base::Memory;

/// The line that was touched last. A second touch of it changes nothing, unless
/// it is its first store: so the policies' clauses `again` say. A touch writes each
/// field by itself: with the whole struct it would write the padding, too.
#[derive(Clone, Copy)]
pub struct LastTouch {
    // as a line's number, or `NO_LINE`
    number: u64,
    // as `find` answers it, so that a second look-up converts nothing
    place: u32,
}

/// No line's number: so one comparison tells whether a line was touched last.
const NO_LINE: u64 = 1 << 32;

const NO_TOUCH: LastTouch = LastTouch {
    number: NO_LINE,
    place: 0,
};

/// A set-associative store of numbers: a number stands in the set of its
/// remainder by the number of sets, which is a power of two.
#[derive(Drop)]
pub struct SetCache<P: Policy> {
    policy: P,
    packed: PackedSets,
    last: LastTouch,
}

impl<P: Policy> Model for SetCache<P> {
    ghost use Rattle.set_cache.specs.Contents.{Contents, coded_contents};
    ghost use Rattle.set_cache.specs.Last.{IsCache};

    ghost Value = { Contents P };

    ghost coded = { coded_contents P.code };

    ghost view = { λ a. record {
      policy = a.policy;
      ways = a.packed.ways;
      epoch = a.packed.epoch;
      table = a.packed.table;
    } };

    ghost invariant = { λ a. IsCache P.takes P.rule P.stands_for (record {
      policy = a.policy;
      ways = a.packed.ways;
      epoch = a.packed.epoch;
      table = a.packed.table;
    }) a.packed.fresh a.last };
}

const HIT: Touch = Touch {
    hit: true,
    victim: None,
    dirty_victim: false,
};

/// The set of a number: its low bits.
#[inline(always)]
fn set_of(number: u32, sets: u32) -> usize
    requires power { IsPowerOfTwo sets }
    ensures value { result ≡ number % sets }
    ensures below { result < sets }
{
    (number & (sets - 1)) as usize
}

/// The way that a miss takes in a set: the least empty one, else the victim.
#[inline(always)]
fn way_for<P: Policy>(policy: &P, packed: &PackedSets, set: usize, state: u64) -> usize
    requires taken { P.takes policy.now packed.now.ways }
    requires below { set < length packed.now.table }
    requires first { AreFirst (kept_at packed.now.table set).places }
    requires valid { (list : List ℕ) × P.stands_for policy.now packed.now.ways state list }
    ensures within { result < packed.now.ways }
    ensures value { (list : List ℕ) → P.stands_for policy.now packed.now.ways state list
        → result ≡ unwrap_or (position is_none (kept_at packed.now.table set).places)
        ((P.rule policy.now packed.now.ways).victim list) }
{
    match packed.empty_way(set) {
        Some(way) => way,
        None => policy.victim(packed.ways(), state) as usize,
    }
}

impl<P: Policy> SetCache<P> {
    ghost use Rattle.std.specs.Prelude.{
      ◌≢◌,
      ◌≤◌,
      ◌+◌,
      ◌*◌,
      ◌^◌,
      true,
      false,
      is_some,
      Some,
      None,
      IfOk,
      IfSome,
      IfNone,
      slice_index_or,
    };
    ghost use Rattle.set_cache.specs.Cache.{Sets, place_of, dirty_of, way_of, dirty_number};
    ghost use Rattle.set_cache.specs.Contents.{StandsFor, IsSound, shape_of};
    ghost use Rattle.set_cache.specs.Packed.{epoch_after};
    ghost use Rattle.set_cache.specs.Lines.{place_in, dirty_kept, places_kept};
    ghost use Rattle.set_cache.specs.Calls.{
      IsGeometry,
      IsNew,
      IsTouch,
      TellsHit,
      IsMark,
      IsFlush,
      flush_steps,
    };

    /// A cache of fresh sets, in epoch 1.
    ///
    /// # Errors
    ///
    /// `Memory`, where memory ran out.
    pub fn new(alloc: Global, policy: P, sets: u32, ways: u32) -> Result<Self, Memory>
        requires geometry { IsGeometry (P.takes policy) sets ways }
        ensures made { IfOk result (λ cache. IsNew P.takes P.stands_for policy sets ways cache) }
        ensures epoch { IfOk result (λ cache. cache.epoch ≡ 1) }
    {
        SetCache::new_at(alloc, policy, sets, ways, 1)
    }

    /// A cache of fresh sets, in an epoch, of which each flush begins the next.
    /// In which epoch a cache is shows in the steps of a flush alone.
    ///
    /// # Errors
    ///
    /// `Memory`, where memory ran out.
    pub fn new_at(
        alloc: Global,
        policy: P,
        sets: u32,
        ways: u32,
        epoch: u32,
    ) -> Result<Self, Memory>
        requires geometry { IsGeometry (P.takes policy) sets ways }
        requires counts { epoch ≢ 0 }
        ensures made { IfOk result (λ cache. IsNew P.takes P.stands_for policy sets ways cache) }
        ensures epoch { IfOk result (λ cache. cache.epoch ≡ epoch) }
    {
        let fresh = policy.fresh(ways);
        let packed = PackedSets::new(alloc, sets, ways, epoch, fresh)?;
        Ok(SetCache {
            policy,
            packed,
            last: NO_TOUCH,
        })
    }

    /// A touch of a line, which marks it if it is a store. On a miss the line
    /// takes the least empty way of its set, else the victim's.
    #[inline(always)]
    pub fn touch(&mut self, number: u32, store: bool) -> Touch
        ensures touch { IsTouch P.takes P.rule P.stands_for result number store self.old self.new }
        ensures epoch { self.new.epoch ≡ self.old.epoch }
    {
        if self.repeats(number, store) {
            return HIT;
        }
        let set = set_of(number, self.packed.count() as u32);
        match self.packed.find(set, number) {
            Some(way) => {
                self.hit(set, way, number, store);
                HIT
            }
            None => self.fill(set, number, store),
        }
    }

    /// Whether a touch finds everything as it would leave it.
    #[inline(always)]
    fn repeats(&self, number: u32, store: bool) -> bool
        ensures repeats { result ≡ true → IsTouch P.takes P.rule P.stands_for
            (record { hit = true; victim = None; dirty_victim = false }) number store self.now self.now }
    {
        self.last.number == u64::from(number)
            && (!store || self.packed.is_marked(self.last.place as usize))
    }

    /// A touch of a line that its set keeps at this way. Answers its place.
    #[inline(always)]
    fn hit(&mut self, set: usize, way: usize, number: u32, store: bool) -> u32
        requires home { set ≡ number % length self.old.table }
        requires found { way_of number (kept_at self.old.table set).places ≡ Some way }
        requires within { way < self.old.ways }
        ensures touch { IsTouch P.takes P.rule P.stands_for
            (record { hit = true; victim = None; dirty_victim = false }) number store self.old self.new }
        ensures place { result ≡ set * self.old.ways + way }
        ensures epoch { self.new.epoch ≡ self.old.epoch }
    {
        let ways = self.packed.ways();
        let place = (set * ways as usize + way) as u32;
        let state = self.policy.touch(ways, self.packed.state(set), way as u32);
        self.packed.write_hit(set, way, number, store, state);
        self.last.number = u64::from(number);
        self.last.place = place;
        place
    }

    /// A touch of a line that its set doesn't keep.
    #[inline(always)]
    fn fill(&mut self, set: usize, number: u32, store: bool) -> Touch
        requires home { set ≡ number % length self.old.table }
        requires missing { way_of number (kept_at self.old.table set).places ≡ None }
        ensures touch { IsTouch P.takes P.rule P.stands_for result number store self.old self.new }
        ensures epoch { self.new.epoch ≡ self.old.epoch }
    {
        let ways = self.packed.ways();
        let state = self.packed.state(set);
        let way = way_for(&self.policy, &self.packed, set, state);
        let state = self.policy.fill(ways, state, way as u32);
        let line = KeptLine {
            number,
            dirty: store,
        };
        let old = self.packed.write(set, way, line, state);
        self.last.number = u64::from(number);
        self.last.place = (set * ways as usize + way) as u32;
        Touch {
            hit: false,
            victim: old.number,
            dirty_victim: old.dirty,
        }
    }

    /// Whether a line is here.
    #[inline(always)]
    pub fn holds(&self, number: u32) -> bool
        ensures here { result ≡ is_some (place_in self.now number) }
        ensures stands { (sets : Sets) → StandsFor P.stands_for self.now sets
            → result ≡ is_some (place_of (shape_of P.rule self.now) sets number) }
    {
        self.place_of(number).is_some()
    }

    /// The place of a line, where it is here: its set times the ways, plus its way.
    #[inline(always)]
    pub fn place_of(&self, number: u32) -> Option<u32>
        ensures here { result ≡ place_in self.now number }
        ensures stands { (sets : Sets) → StandsFor P.stands_for self.now sets
            → result ≡ place_of (shape_of P.rule self.now) sets number }
        ensures below { IfSome result (λ place. place < length self.now.table * self.now.ways) }
        ensures sound { IsSound P.takes P.stands_for self.now }
    {
        if self.last.number == u64::from(number) {
            return Some(self.last.place);
        }
        let set = set_of(number, self.packed.count() as u32);
        let way = self.packed.find(set, number)?;
        Some(set as u32 * self.packed.ways() + way as u32)
    }

    /// The place of a line, where it is here: a touch then, that is no store.
    /// A look-up that misses changes nothing.
    #[inline(always)]
    pub fn find(&mut self, number: u32) -> Option<u32>
        ensures here { result ≡ place_in self.old number }
        ensures stands { (sets : Sets) → StandsFor P.stands_for self.old sets
            → result ≡ place_of (shape_of P.rule self.old) sets number }
        ensures below { IfSome result (λ place. place < length self.old.table * self.old.ways) }
        ensures missed { IfNone result (self.new ≡ self.old) }
        ensures touch { IfSome result (λ _.
            TellsHit P.takes P.rule P.stands_for true number self.old self.new) }
        ensures epoch { self.new.epoch ≡ self.old.epoch }
    {
        let sets = self.packed.count() as u32;
        if self.last.number == u64::from(number) {
            return Some(self.last.place);
        }
        let set = set_of(number, sets);
        let way = self.packed.find(set, number)?;
        Some(self.hit(set, way, number, false))
    }

    /// A touch of a line that isn't here. Beside `find` it lets a caller work a miss
    /// apart, so that a hit saves no registers for it.
    #[inline(always)]
    pub fn touch_absent(&mut self, number: u32, store: bool) -> Touch
        requires absent { place_in self.old number ≡ None }
        ensures touch { IsTouch P.takes P.rule P.stands_for result number store self.old self.new }
        ensures epoch { self.new.epoch ≡ self.old.epoch }
    {
        let set = set_of(number, self.packed.count() as u32);
        self.fill(set, number, store)
    }

    /// Marks a line that is here, and touches nothing: its set's policy state stays.
    pub fn mark(&mut self, number: u32)
        requires held { is_some (place_in self.old number) ≡ true }
        ensures marks { IsMark P.takes P.rule P.stands_for number self.old self.new }
        ensures epoch { self.new.epoch ≡ self.old.epoch }
    {
        let set = set_of(number, self.packed.count() as u32);
        if let Some(way) = self.packed.find(set, number) {
            self.packed
                .write_hit(set, way, number, true, self.packed.state(set));
        }
    }

    /// How many places lines have: the sets times the ways.
    pub fn places(&self) -> u32
        ensures value { result ≡ length (places_kept self.now.table) }
        ensures table { result ≡ length self.now.table * self.now.ways }
    {
        self.packed.count() as u32 * self.packed.ways()
    }

    /// The line at a place, its set times the ways plus its way, if it has a dirty mark.
    pub fn dirty_at(&self, place: u32) -> Option<u32>
        requires below { place < length self.now.table * self.now.ways }
        ensures here { (set way : ℕ) → set < length self.now.table → way < self.now.ways
            → place ≡ set * self.now.ways + way
            → result ≡ dirty_number (slice_index_or (kept_at self.now.table set).places way None) }
        ensures listed { result ≡ dirty_number (slice_index_or (places_kept self.now.table) place None) }
        ensures kept { IfSome result (λ number. is_some (place_in self.now number) ≡ true) }
    {
        self.packed.dirty_at(place as usize)
    }

    /// The number of lines with a dirty mark.
    #[inline(always)]
    pub fn dirty(&self) -> u32
        ensures here { result ≡ dirty_kept self.now }
        ensures stands { (sets : Sets) → StandsFor P.stands_for self.now sets
            → result ≡ dirty_of (shape_of P.rule self.now) sets }
        ensures few { result ≤ length self.now.table * self.now.ways }
    {
        self.packed.dirty()
    }

    /// Makes every set fresh, its policy state too, and answers how many lines
    /// had a dirty mark.
    #[inline(always)]
    pub fn flush(&mut self) -> u32
        ensures flush { IsFlush P.takes P.rule P.stands_for result self.old self.new }
        ensures epoch { self.new.epoch ≡ epoch_after self.old.epoch }
    {
        // For the prover: what is true of the packed sets bounds the steps.
        let _ = self.packed.ways();
        let mut steps = 0;
        self.flush_counted(&mut steps)
    }

    /// As `flush`, with a step counted for each entry, policy state or epoch
    /// that is written: one, but in the greatest epoch, in which everything is.
    #[inline(always)]
    pub fn flush_counted(&mut self, steps: &mut u64) -> u32
        requires room { steps.old + (1 + length self.old.table * (self.old.ways + 1)) < 2 ^ 64 }
        ensures flush { IsFlush P.takes P.rule P.stands_for result self.old self.new }
        ensures epoch { self.new.epoch ≡ epoch_after self.old.epoch }
        ensures steps { steps.new ≡ steps.old + flush_steps self.old }
    {
        let dirty = self.packed.dirty();
        self.packed.empty(steps);
        self.last = NO_TOUCH;
        dirty
    }
}
