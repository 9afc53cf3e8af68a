// The first-level cache of data, whose lines carry dirty marks.
use set_cache::{Policy, SetCache, Touch};
use std::alloc::Global;
use std::marker::Model;
use tp_base::{Line, Memory};

/// A first-level cache of data. It keeps the numbers of physical lines, writes
/// back, and allocates on stores.
#[derive(Drop)]
pub struct L1D<P: Policy> {
    cache: SetCache<P>,
}

impl<P: Policy> Model for L1D<P> {
    ghost use Rattle.tp_base.specs.Ranges.{IsLine};
    ghost use Rattle.set_cache.specs.Contents.{Contents, coded_contents};
    ghost use Rattle.set_cache.specs.Lines.{AllKept};

    ghost Value = { Contents P };

    ghost coded = { coded_contents P.code };

    ghost view = { λ a. a.cache };

    ghost invariant = { λ a. AllKept IsLine a.cache };
}

impl<P: Policy> L1D<P> {
    ghost use Rattle.std.specs.Prelude.{
      ◌≡◌,
      ◌<◌,
      ◌+◌,
      ◌*◌,
      ℕ,
      length,
      Some,
      None,
      false,
      true,
      IfOk,
      slice_index_or,
    };
    ghost use Rattle.tp_base.specs.Ranges.{IsLine};
    ghost use Rattle.set_cache.specs.Cache.{dirty_number};
    ghost use Rattle.set_cache.specs.Contents.{kept_at};
    ghost use Rattle.set_cache.specs.Lines.{dirty_kept, places_kept};
    ghost use Rattle.set_cache.specs.Calls.{IsGeometry, IsNew, IsTouch, IsFlush};

    /// A cache of fresh sets.
    ///
    /// # Errors
    ///
    /// `Memory`, where memory ran out.
    pub fn new(alloc: Global, policy: P, sets: u32, ways: u32) -> Result<Self, Memory>
        requires geometry { IsGeometry (P.takes policy) sets ways }
        ensures made { IfOk result (λ cache. IsNew P.takes P.stands_for policy sets ways cache) }
    {
        let cache = SetCache::new(alloc, policy, sets, ways)?;
        Ok(L1D { cache })
    }

    /// A load from a line, and the line that was given up for it.
    #[inline(always)]
    pub fn load(&mut self, line: Line) -> Touch
        ensures touch { IsTouch P.takes P.rule P.stands_for result line false self.old self.new }
        ensures victim { (victim : ℕ) → result.victim ≡ Some victim → IsLine victim }
    {
        self.cache.touch(line.number(), false)
    }

    /// A store to a line, which is dirty then, and the line that was given up for it.
    #[inline(always)]
    pub fn store(&mut self, line: Line) -> Touch
        ensures touch { IsTouch P.takes P.rule P.stands_for result line true self.old self.new }
        ensures victim { (victim : ℕ) → result.victim ≡ Some victim → IsLine victim }
    {
        self.cache.touch(line.number(), true)
    }

    /// How many lines are dirty.
    pub fn dirty(&self) -> u32
        ensures here { result ≡ dirty_kept self.now }
    {
        self.cache.dirty()
    }

    /// How many places lines have: the sets times the ways.
    pub fn places(&self) -> u32
        ensures value { result ≡ length (places_kept self.now.table) }
        ensures table { result ≡ length self.now.table * self.now.ways }
    {
        self.cache.places()
    }

    /// The line at a place, its set times the ways plus its way, if it is dirty.
    pub fn dirty_at(&self, place: u32) -> Option<Line>
        requires below { place < length self.now.table * self.now.ways }
        ensures here { (set way : ℕ) → set < length self.now.table → way < self.now.ways
            → place ≡ set * self.now.ways + way
            → result ≡ dirty_number (slice_index_or (kept_at self.now.table set).places way None) }
        ensures listed { result ≡ dirty_number (slice_index_or (places_kept self.now.table) place None) }
    {
        Some(Line::new(self.cache.dirty_at(place)?))
    }

    /// Makes every set fresh, and answers how many lines were dirty.
    #[inline(always)]
    pub fn flush(&mut self) -> u32
        ensures flush { IsFlush P.takes P.rule P.stands_for result self.old self.new }
    {
        self.cache.flush()
    }
}
