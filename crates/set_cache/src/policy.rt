// Replacement policies, of which a cache knows only the contract.
ghost use Rattle.std.specs.Prelude.{◌≡◌, ◌<◌, ℕ, List, [], All};
ghost use Rattle.set_cache.specs.Rule.{Rule};

/// A replacement policy. The state of one set is a number, and nothing but
/// that number decides which way is given up.
pub trait Policy: Drop {
    /// The numbers of ways that it takes.
    ghost takes: { Self → ℕ → Type 0 };

    /// What it does with that many ways, on lists of ways.
    ghost rule: { Self → ℕ → Rule };

    /// The state of a set with that many ways stands for a list of them, newest first.
    ghost stands_for: { Self → ℕ → ℕ → List ℕ → Type 0 };

    /// The state of a set with nothing in it.
    fn fresh(&self, ways: u32) -> u64
        requires taken { takes self.now ways }
        ensures fresh { stands_for self.now ways result [] };

    /// The state after a hit on a way.
    fn touch(&self, ways: u32, state: u64, way: u32) -> u64
        requires taken { takes self.now ways }
        requires valid { (list : List ℕ) × stands_for self.now ways state list }
        requires below { way < ways }
        ensures touched { (list : List ℕ) → stands_for self.now ways state list
            → stands_for self.now ways result ((rule self.now ways).touched list way) }

        // A second hit on the way changes nothing.
        ensures again { (list : List ℕ) → stands_for self.now ways result list
            → stands_for self.now ways result ((rule self.now ways).touched list way) };

    /// The state after a fill of a way.
    fn fill(&self, ways: u32, state: u64, way: u32) -> u64
        requires taken { takes self.now ways }
        requires valid { (list : List ℕ) × stands_for self.now ways state list }
        requires below { way < ways }
        ensures filled { (list : List ℕ) → stands_for self.now ways state list
            → stands_for self.now ways result ((rule self.now ways).filled list way) }

        // Neither does a hit on the way then.
        ensures again { (list : List ℕ) → stands_for self.now ways result list
            → stands_for self.now ways result ((rule self.now ways).touched list way) };

    /// The way to give up where none is empty.
    fn victim(&self, ways: u32, state: u64) -> u32
        requires taken { takes self.now ways }
        requires valid { (list : List ℕ) × stands_for self.now ways state list }
        ensures below { result < ways }
        ensures chosen { (list : List ℕ) → stands_for self.now ways state list
            → result ≡ (rule self.now ways).victim list };

    /// The way that the rule gives up is one of the ways.
    ghost victim_below: { (policy : Self) (ways : ℕ) (list : List ℕ) → takes policy ways
        → All (λ way. way < ways) list → (rule policy ways).victim list < ways };
}

/// The law that the way which a rule gives up is one of the ways.
pub fn victims_are_ways<P: Policy>(policy: &P, ways: u32)
    requires taken { P.takes policy.now ways }
    ensures below { (list : List ℕ) → All (λ way. way < ways) list
        → (P.rule policy.now ways).victim list < ways }
{
    let _ = policy;
    let _ = ways;
}
