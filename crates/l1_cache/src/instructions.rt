// The first-level cache of instructions, in which nothing is ever dirty.
use set_cache::{Policy, SetCache};
use std::alloc::Global;
use std::marker::Model;
use tp_base::{Line, Memory};

/// A first-level cache of instructions. It keeps the numbers of physical
/// lines, and none is ever dirty.
#[derive(Drop)]
pub struct L1I<P: Policy> {
    cache: SetCache<P>,
}

impl<P: Policy> Model for L1I<P> {
    ghost use Rattle.set_cache.specs.Contents.{Contents, coded_contents};
    ghost use Rattle.set_cache.specs.Lines.{IsClean};

    ghost Value = { Contents P };

    ghost coded = { coded_contents P.code };

    ghost view = { λ a. a.cache };

    ghost invariant = { λ a. IsClean a.cache };
}

impl<P: Policy> L1I<P> {
    ghost use Rattle.std.specs.Prelude.{◌≡◌, IfOk};
    ghost use Rattle.set_cache.specs.Lines.{IsClean, dirty_kept};
    ghost use Rattle.set_cache.specs.Calls.{IsGeometry, IsNew, TellsHit, IsFlush};

    /// A cache of fresh sets.
    ///
    /// # Errors
    ///
    /// `Memory`, where memory ran out.
    pub fn new(alloc: Global, policy: P, sets: u32, ways: u32) -> Result<Self, Memory>
        requires geometry { IsGeometry (P.takes policy) sets ways }
        ensures made { IfOk result (λ cache. IsNew P.takes P.stands_for policy sets ways cache) }
        ensures clean { IfOk result (λ cache. IsClean cache) }
    {
        let cache = SetCache::new(alloc, policy, sets, ways)?;
        Ok(L1I { cache })
    }

    /// A fetch from a line; whether it was here. No line is dirty then.
    #[inline(always)]
    pub fn fetch(&mut self, line: Line) -> bool
        ensures touch { TellsHit P.takes P.rule P.stands_for result line self.old self.new }
        ensures clean { IsClean self.new }
        ensures none_counted { dirty_kept self.new ≡ 0 }
    {
        self.cache.touch(line.number(), false).hit
    }

    /// Makes every set fresh, and answers 0, since nothing is written back.
    #[inline(always)]
    pub fn flush(&mut self) -> u32
        ensures zero { result ≡ 0 }
        ensures flush { IsFlush P.takes P.rule P.stands_for result self.old self.new }
        ensures clean { IsClean self.new }
    {
        self.cache.flush();
        0
    }
}
