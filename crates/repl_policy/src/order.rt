// An order of ways in one number, four bits a way, the newest lowest.
ghost use Rattle.std.specs.Prelude.{◌≡◌, ℕ, ◌<◌, ◌≤◌, List, [], length};
ghost use Rattle.repl_policy.specs.Orders.{to_front, oldest};
ghost use Rattle.repl_policy.specs.Packed.{Packs, StandsFirst};

/// The order of a set with nothing in it: the least way is the oldest.
pub fn fresh(ways: u32) -> u64
    requires few { ways ≤ 16 }
    ensures fresh { Packs ways result [] }
{
    let mut state = 0;
    for way in 0..ways {
        state = u64::from(way) + 16 * state;
    }
    state
}

/// Where a way stands in the order: how many ways are newer.
#[inline(always)]
fn place_of(ways: u32, state: u64, way: u32) -> u32
    requires few { ways ≤ 16 }
    requires below { way < ways }
    requires valid { (list : List ℕ) × Packs ways state list }
    ensures within { result < ways }
    ensures stands { StandsFirst state way result }
{
    let mut place = 0;
    while (state >> (4 * place)) % 16 != u64::from(way) {
        place += 1;
    }
    place
}

/// The order in which a way is the newest.
#[inline(always)]
pub fn to_front(ways: u32, state: u64, way: u32) -> u64
    requires few { ways ≤ 16 }
    requires below { way < ways }
    requires valid { (list : List ℕ) × Packs ways state list }
    ensures moved { (list : List ℕ) → Packs ways state list → Packs ways result (to_front list way) }
    ensures again { (list : List ℕ) → Packs ways result list → Packs ways result (to_front list way) }
{
    // Where the way is the newest already, nothing moves.
    let newest = u64::from(way);
    if state % 16 == newest {
        return state;
    }
    // The way that a miss takes is the oldest one: all others move by one place.
    let last = 4 * (ways - 1);
    if state >> last == newest {
        return newest + 16 * (state - (newest << last));
    }
    // The newer ways move by one place, and the older ones stay.
    let shift = 4 * place_of(ways, state, way);
    let newer = state & ((1 << shift) - 1);
    let older = (state >> shift >> 4) << shift;
    newest + 16 * (newer + older)
}

/// The last way of the order.
#[inline(always)]
pub fn oldest(ways: u32, state: u64) -> u32
    requires some { 0 < ways }
    requires few { ways ≤ 16 }
    requires valid { (list : List ℕ) × Packs ways state list }
    ensures below { result < ways }
    ensures value { (list : List ℕ) → Packs ways state list → result ≡ oldest ways list }
{
    (state >> (4 * (ways - 1))) as u32
}
