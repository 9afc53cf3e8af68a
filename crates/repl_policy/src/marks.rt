// The ways with a mark in one number, a bit a way, the lowest for way 0.
ghost use Rattle.std.specs.Prelude.{◌≡◌, ℕ, ◌<◌, ◌≤◌, List};
ghost use Rattle.repl_policy.specs.Marks.{Marks, mark, unmarked};

/// The marks with that of the way; where each way then has one, that one alone.
#[inline(always)]
pub fn with_mark(ways: u32, state: u64, way: u32) -> u64
    requires few { ways ≤ 16 }
    requires below { way < ways }
    ensures marked { (list : List ℕ) → Marks ways state list → Marks ways result (mark ways list way) }

    // A second touch of the way changes nothing.
    ensures again { (list : List ℕ) → Marks ways result list → Marks ways result (mark ways list way) }
{
    let own = 1 << way;
    let marks = state | own;
    if marks == (1 << ways) - 1 { own } else { marks }
}

/// The least way without a mark; way 0, where each has one.
#[inline(always)]
pub fn least_unmarked(ways: u32, state: u64) -> u32
    requires some { 0 < ways }
    requires few { ways ≤ 16 }
    requires valid { (list : List ℕ) × Marks ways state list }
    ensures below { result < ways }
    ensures value { (list : List ℕ) → Marks ways state list → result ≡ unmarked ways list }
{
    let least = state.trailing_ones();
    if least < ways { least } else { 0 }
}
