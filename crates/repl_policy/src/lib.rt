//! Replacement policies for a `set_cache`, with the state of a set in one
//! number of 64 bits. Each keeps the rule on lists of ways in specs/.
#![tactic(auto)]

ghost use Rattle.std.specs.Prelude.{◌≢◌, ◌<◌, ◌≤◌, ℕ, List};
ghost use Rattle.repl_policy.specs.Orders.{lru_rule, fifo_rule};
ghost use Rattle.repl_policy.specs.Halves.{plru_rule, depth_of, UpToSixteen, IsPowerUpToSixteen};
ghost use Rattle.repl_policy.specs.Marks.{nmru_rule, Marks};
ghost use Rattle.repl_policy.specs.Packed.{Packs};
ghost use Rattle.repl_policy.specs.Bits.{Points};

mod marks;
mod order;
mod tree;

use set_cache::Policy;

/// Gives up the way that was touched or filled longest ago; takes 1 to 16 ways.
#[derive(Clone, Copy, Debug, PartialEq, Eq)]
pub struct Lru;

impl Policy for Lru {
    ghost takes = { λ _ ways. UpToSixteen ways };

    ghost rule = { λ _. lru_rule };

    ghost stands_for = { λ _ ways state list. Packs ways state list };

    ghost use Rattle.repl_policy.specs.Victims.{oldest_below};

    ghost victim_below = { oldest_below };

    #[inline(always)]
    fn fresh(&self, ways: u32) -> u64 {
        order::fresh(ways)
    }

    #[inline(always)]
    fn touch(&self, ways: u32, state: u64, way: u32) -> u64 {
        order::to_front(ways, state, way)
    }

    #[inline(always)]
    fn fill(&self, ways: u32, state: u64, way: u32) -> u64 {
        order::to_front(ways, state, way)
    }

    #[inline(always)]
    fn victim(&self, ways: u32, state: u64) -> u32 {
        order::oldest(ways, state)
    }
}

/// Gives up the way that was filled longest ago; takes 1 to 16 ways.
#[derive(Clone, Copy, Debug, PartialEq, Eq)]
pub struct Fifo;

impl Policy for Fifo {
    ghost takes = { λ _ ways. UpToSixteen ways };

    ghost rule = { λ _. fifo_rule };

    ghost stands_for = { λ _ ways state list. Packs ways state list };

    ghost use Rattle.repl_policy.specs.Victims.{oldest_below};

    ghost victim_below = { oldest_below };

    #[inline(always)]
    fn fresh(&self, ways: u32) -> u64 {
        order::fresh(ways)
    }

    #[inline(always)]
    fn touch(&self, _ways: u32, state: u64, _way: u32) -> u64 {
        state
    }

    #[inline(always)]
    fn fill(&self, ways: u32, state: u64, way: u32) -> u64 {
        order::to_front(ways, state, way)
    }

    #[inline(always)]
    fn victim(&self, ways: u32, state: u64) -> u32 {
        order::oldest(ways, state)
    }
}

/// Halves the ways down to one, at each halving away from the newest; takes
/// 1, 2, 4, 8 or 16 ways.
#[derive(Clone, Copy, Debug, PartialEq, Eq)]
pub struct TreePlru;

impl Policy for TreePlru {
    ghost takes = { λ _ ways. IsPowerUpToSixteen ways };

    ghost rule = { λ _. plru_rule };

    ghost stands_for = { λ _ ways state list. Points (depth_of ways) 0 state list };

    ghost use Rattle.repl_policy.specs.Victims.{victim_in_below};

    ghost victim_below = { victim_in_below };

    #[inline(always)]
    fn fresh(&self, _ways: u32) -> u64 {
        0
    }

    #[inline(always)]
    fn touch(&self, ways: u32, state: u64, way: u32) -> u64 {
        tree::point_away(state, 0, ways, way)
    }

    #[inline(always)]
    fn fill(&self, ways: u32, state: u64, way: u32) -> u64 {
        tree::point_away(state, 0, ways, way)
    }

    #[inline(always)]
    fn victim(&self, ways: u32, state: u64) -> u32 {
        tree::victim(state, 0, ways)
    }
}

/// Gives up the least way without a mark: a way gets one as it is touched or
/// filled, and keeps it until every way has one; takes 1 to 16 ways.
#[derive(Clone, Copy, Debug, PartialEq, Eq)]
pub struct Nmru;

impl Policy for Nmru {
    ghost takes = { λ _ ways. UpToSixteen ways };

    ghost rule = { λ _. nmru_rule };

    ghost stands_for = { λ _ ways state list. Marks ways state list };

    ghost use Rattle.repl_policy.specs.Victims.{unmarked_below};

    ghost victim_below = { unmarked_below };

    #[inline(always)]
    fn fresh(&self, _ways: u32) -> u64 {
        0
    }

    #[inline(always)]
    fn touch(&self, ways: u32, state: u64, way: u32) -> u64 {
        marks::with_mark(ways, state, way)
    }

    #[inline(always)]
    fn fill(&self, ways: u32, state: u64, way: u32) -> u64 {
        marks::with_mark(ways, state, way)
    }

    #[inline(always)]
    fn victim(&self, ways: u32, state: u64) -> u32 {
        marks::least_unmarked(ways, state)
    }
}

/// One of the policies, chosen when the program runs.
#[derive(Clone, Copy, Debug, PartialEq, Eq)]
pub enum AnyPolicy {
    /// As `Lru`.
    Lru,
    /// As `Fifo`.
    Fifo,
    /// As `TreePlru`.
    TreePlru,
    /// As `Nmru`.
    Nmru,
}

impl Policy for AnyPolicy {
    ghost use Rattle.repl_policy.specs.Members.{any_takes, any_rule, any_stands_for};

    ghost takes = { any_takes };

    ghost rule = { any_rule };

    ghost stands_for = { any_stands_for };

    ghost use Rattle.repl_policy.specs.Victims.{any_victim_below};

    ghost victim_below = { any_victim_below };

    #[inline(always)]
    fn fresh(&self, ways: u32) -> u64 {
        match self {
            AnyPolicy::Lru => Lru.fresh(ways),
            AnyPolicy::Fifo => Fifo.fresh(ways),
            AnyPolicy::TreePlru => TreePlru.fresh(ways),
            AnyPolicy::Nmru => Nmru.fresh(ways),
        }
    }

    #[inline(always)]
    fn touch(&self, ways: u32, state: u64, way: u32) -> u64 {
        match self {
            AnyPolicy::Lru => Lru.touch(ways, state, way),
            AnyPolicy::Fifo => Fifo.touch(ways, state, way),
            AnyPolicy::TreePlru => TreePlru.touch(ways, state, way),
            AnyPolicy::Nmru => Nmru.touch(ways, state, way),
        }
    }

    #[inline(always)]
    fn fill(&self, ways: u32, state: u64, way: u32) -> u64 {
        match self {
            AnyPolicy::TreePlru => TreePlru.fill(ways, state, way),
            AnyPolicy::Nmru => Nmru.fill(ways, state, way),
            // Both fill alike.
            AnyPolicy::Lru | AnyPolicy::Fifo => Lru.fill(ways, state, way),
        }
    }

    #[inline(always)]
    fn victim(&self, ways: u32, state: u64) -> u32 {
        match self {
            AnyPolicy::TreePlru => TreePlru.victim(ways, state),
            AnyPolicy::Nmru => Nmru.victim(ways, state),
            // Both give up the oldest.
            AnyPolicy::Lru | AnyPolicy::Fifo => Lru.victim(ways, state),
        }
    }
}

/// The law that where there are two ways or more, the way that was touched last
/// is not given up next, by least recently used, by the tree, and by not most
/// recently used; by the last neither is the way that was filled last.
pub fn touched_way_stays(ways: u32, way: u32)
    requires two { 2 ≤ ways }
    requires below { way < ways }
    ensures lru { (list : List ℕ) → (lru_rule ways).victim ((lru_rule ways).touched list way) ≢ way }
    ensures plru { IsPowerUpToSixteen ways → (list : List ℕ)
        → (plru_rule ways).victim ((plru_rule ways).touched list way) ≢ way }
    ensures nmru { (list : List ℕ) → (nmru_rule ways).victim ((nmru_rule ways).touched list way) ≢ way }
    ensures nmru_filled { (list : List ℕ) → (nmru_rule ways).victim ((nmru_rule ways).filled list way) ≢ way }
{
    let _ = (ways, way);
}
