// The memory hierarchy of a machine.
ghost use Rattle.std.specs.Prelude.{◌≡◌};
ghost use Rattle.repl_policy.specs.Members.{any_rule, any_takes};
ghost use Rattle.mem_system.specs.Geometry.{IsGeometry, hierarchy_by};
ghost use Rattle.hardware_check.specs.Hardware.{IsHardware};
ghost use Rattle.hardware_check.specs.Models.{hardware_model, shape_model};
ghost use Rattle.world_view.specs.Cost.{hierarchy};
ghost use Rattle.world_view.specs.Geometry as spec;

use branch_pred::Sizes;
use image_check::{CacheShape, Hardware, Policy};
use mem_system::{CacheGeometry, Geometry};
use repl_policy::AnyPolicy;

fn policy_of(policy: Policy) -> AnyPolicy
    ensures value { result ≡ spec.any_of policy }
{
    match policy {
        Policy::Lru => AnyPolicy::Lru,
        Policy::Fifo => AnyPolicy::Fifo,
        Policy::Plru => AnyPolicy::TreePlru,
        Policy::Nmru => AnyPolicy::Nmru,
    }
}

fn cache_of(shape: CacheShape) -> CacheGeometry<AnyPolicy>
    ensures value { result ≡ spec.cache_geometry (shape_model shape) }
{
    CacheGeometry {
        policy: policy_of(shape.policy),
        sets: shape.sets,
        ways: shape.ways,
    }
}

/// The sizes and policies of a machine's memory hierarchy.
pub fn geometry_of(hardware: &Hardware) -> Geometry<AnyPolicy>
    requires hardware { IsHardware (hardware_model hardware.now) }
    ensures value { result ≡ spec.geometry (hardware_model hardware.now) }
    ensures sound { IsGeometry any_takes result }
    ensures hierarchy { hierarchy_by any_rule result hardware.now.costs hardware.now.muldiv
        ≡ hierarchy (hardware_model hardware.now) }
{
    Geometry {
        line_size: hardware.line,
        back: hardware.back,
        predictor: Sizes {
            counters: hardware.predictor,
            history: hardware.history,
            targets: hardware.targets,
        },
        l1i: cache_of(hardware.l1i),
        l1d: cache_of(hardware.l1d),
        l2: cache_of(hardware.l2),
        tlb: cache_of(hardware.tlb),
    }
}
