// What a guard that is off leaves out of the caches: nothing, where all are on.
ghost use Rattle.std.specs.Prelude.{true, false, ◌≡◌, ◌≢◌, Some};
ghost use Rattle.repl_policy.specs.Members.{any_rule, any_takes};
ghost use Rattle.mem_system.specs.Geometry.{IsGeometry, hierarchy_by};
ghost use Rattle.hardware_check.specs.Hardware.{IsHardware};
ghost use Rattle.hardware_check.specs.Models.{hardware_model};
ghost use Rattle.hart_orders.specs.Off.{levels_by};

use guards::Guard;
use image_check::Hardware;
use mem_system::Geometry;
use repl_policy::AnyPolicy;
use world_view::geometry_of;

/// The bytes of a frame.
const FRAME_SIZE: u32 = 4096;

/// Whether a guard is on.
#[inline(always)]
pub fn is_on(guard: Guard, off: Option<Guard>) -> bool
    ensures on { result ≡ true → off ≢ Some guard }
    ensures off { result ≡ false → off ≡ Some guard }
{
    match off {
        Some(other) => other != guard,
        None => true,
    }
}

/// The sizes and policies of the hierarchy: without colours the second level has
/// the sets of one.
pub(crate) fn geometry_off(off: Option<Guard>, hardware: &Hardware) -> Geometry<AnyPolicy>
    requires hardware { IsHardware (hardware_model hardware.now) }
    ensures sound { IsGeometry any_takes result }
    ensures hierarchy { hierarchy_by any_rule result hardware.now.costs hardware.now.muldiv
        ≡ levels_by off (hardware_model hardware.now) }
{
    let mut geometry = geometry_of(hardware);
    if !is_on(Guard::Colour, off) {
        geometry.l2.sets = FRAME_SIZE / hardware.line;
    }
    geometry
}
