// What switches took.
ghost use Rattle.std.specs.Prelude.{◌≡◌, ℕ, ◌+◌, ◌^◌, ◌<◌, ◌∷◌, [], ◌++◌, List, length, IfOk};
ghost use Rattle.domain_step.specs.Usage.{IsUsed, CountedUpTo};

use std::alloc::Global;
use tp_base::Memory;
use world_view::Used;

/// For each entry of the schedule, that there was no switch.
///
/// # Errors
/// `Memory` where no memory is left for it.
pub fn unused(alloc: Global, entries: u32) -> Result<Vec<Used>, Memory>
    ensures all { IfOk result (λ us. length us.items ≡ entries) }
    ensures unused { IfOk result (λ us. IsUsed us.items []) }
    ensures few { IfOk result (λ us. CountedUpTo 0 us.items) }
{
    let used = vec![in alloc; Used {
        largest: 0,
        count: 0
    }; entries as usize]?;
    Ok(used)
}

/// Counts a switch of an entry that took so many cycles.
pub fn note_switch(used: &mut [Used], entry: usize, cycles: u64)
    requires entry { entry < length used.old }
    requires few { CountedUpTo (2 ^ 31) used.old }
    ensures noted { (us : List (ℕ × ℕ)) → IsUsed used.old us → IsUsed used.new (us ++ (entry, cycles) ∷ []) }
    ensures few { (n : ℕ) → CountedUpTo n used.old → CountedUpTo (n + 1) used.new }
{
    let noted = used[entry];
    used[entry] = Used {
        largest: noted.largest.max(cycles),
        count: noted.count + 1,
    };
}
