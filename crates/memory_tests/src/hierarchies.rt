// The hierarchies of the tests.
ghost use Rattle.std.specs.Prelude.{◌≡◌, IfOk};
ghost use Rattle.repl_policy.specs.Members.{any_takes};
ghost use Rattle.mem_system.specs.Geometry.{IsGeometry};

use branch_pred::Sizes;
use cycle_cost::Costs;
use l2_colour::L2;
use mem_system::{CacheGeometry, Geometry, MemSystem, OnCore, new_parts};
use repl_policy::AnyPolicy;
use std::alloc::Global;
use tp_base::Memory;

const COSTS: Costs = Costs {
    base: 1,
    l1: 1,
    l2: 8,
    mem: 40,
    wb: 10,
    tlb: 1,
    mispredict: 3,
    trap: 10,
    flush: 20,
};

fn cache(policy: AnyPolicy, sets: u32, ways: u32) -> CacheGeometry<AnyPolicy>
    ensures policy { result.policy ≡ policy }
    ensures sets { result.sets ≡ sets }
    ensures ways { result.ways ≡ ways }
{
    CacheGeometry { policy, sets, ways }
}

// Lines of 64 bytes, 4 colours.
fn small_geometry(policy: AnyPolicy, back: bool) -> Geometry<AnyPolicy>
    ensures sound { IsGeometry any_takes result }
    ensures line { result.line_size ≡ 64 }
{
    Geometry {
        line_size: 64,
        back,
        predictor: Sizes {
            counters: 16,
            history: 0,
            targets: 0,
        },
        l1i: cache(policy, 16, 2),
        l1d: cache(policy, 16, 2),
        l2: cache(policy, 256, 4),
        tlb: cache(policy, 4, 2),
    }
}

pub fn small(
    alloc: Global,
    policy: AnyPolicy,
    pinned: bool,
    back: bool,
) -> Result<MemSystem<AnyPolicy>, Memory> {
    MemSystem::new(alloc, small_geometry(policy, back), COSTS, None, pinned)
}

// The same as a core and a second level, without `back`.
pub fn small_parts(
    alloc: Global,
    policy: AnyPolicy,
) -> Result<(OnCore<AnyPolicy>, L2<AnyPolicy>), Memory>
    ensures line { IfOk result (λ made. made.1.line_size ≡ 64) }
{
    new_parts(alloc, small_geometry(policy, false), COSTS, None, false)
}

// The largest of each number.
pub fn largest(alloc: Global) -> Result<MemSystem<AnyPolicy>, Memory> {
    let geometry = Geometry {
        line_size: 16,
        back: true,
        predictor: Sizes {
            counters: 4096,
            history: 0,
            targets: 256,
        },
        l1i: cache(AnyPolicy::Lru, 1024, 16),
        l1d: cache(AnyPolicy::Lru, 1024, 16),
        l2: cache(AnyPolicy::Lru, 16_384, 16),
        tlb: cache(AnyPolicy::Lru, 256, 16),
    };
    MemSystem::new(alloc, geometry, COSTS, None, false)
}
