// A tree of halves of the ways in one number, a bit a range, at the number of
// the range's middle: 0 where the victim goes to the lower half.
ghost use Rattle.std.specs.Prelude.{◌≡◌, ℕ, ◌+◌, ◌^◌, ◌<◌, ◌≤◌, List};
ghost use Rattle.std.specs.Int.{bit_at};
ghost use Rattle.repl_policy.specs.Orders.{to_front};
ghost use Rattle.repl_policy.specs.Halves.{victim_in};
ghost use Rattle.repl_policy.specs.Bits.{Points};

/// Makes each range that has the way in it, within this one, point to its other half.
pub fn point_away(state: u64, low: u32, size: u32, way: u32) -> u64
    requires within { low + size ≤ 16 }
    requires from { low ≤ way }
    requires to { way < low + size }
    ensures below { (k : ℕ) → k ≤ low → bit_at result k ≡ bit_at state k }
    ensures above { (k : ℕ) → low + size ≤ k → k < 64 → bit_at result k ≡ bit_at state k }
    ensures points { (depth : ℕ) (list : List ℕ) → size ≡ 2 ^ depth → Points depth low state list
        → Points depth low result (to_front list way) }

    // A second touch of the way changes nothing.
    ensures again { (depth : ℕ) (list : List ℕ) → size ≡ 2 ^ depth → Points depth low result list
        → Points depth low result (to_front list way) }
{
    if size < 2 {
        return state;
    }
    let half = size / 2;
    let middle = low + half;
    if way < middle {
        point_away(state | 1 << middle, low, half, way)
    } else {
        point_away(state & !(1 << middle), middle, size - half, way)
    }
}

/// Follows the bits of a range down to one way.
pub fn victim(state: u64, low: u32, size: u32) -> u32
    requires within { low + size ≤ 16 }
    requires some { 0 < size }
    ensures from { low ≤ result }
    ensures to { result < low + size }
    ensures value { (depth : ℕ) (list : List ℕ) → size ≡ 2 ^ depth → Points depth low state list
        → result ≡ victim_in depth low list }
{
    if size < 2 {
        return low;
    }
    let half = size / 2;
    let middle = low + half;
    if (state >> middle) & 1 == 0 {
        victim(state, low, half)
    } else {
        victim(state, middle, size - half)
    }
}
