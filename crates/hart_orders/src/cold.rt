// Harts before their boots.
ghost use Rattle.std.specs.Prelude.{◌≡◌, All, length, IfOk};
ghost use Rattle.hardware_check.specs.Hardware.{IsHardware};
ghost use Rattle.hardware_check.specs.Models.{hardware_model};
ghost use Rattle.hart_orders.specs.Cold.{IsColdL2, IsColdHart};
ghost use Rattle.hart_orders.specs.Off.{levels_by};

use crate::hart::Hart;
use crate::off::geometry_off;
use guards::Guard;
use image_check::Hardware;
use l2_colour::L2;
use mem_system::{Geometry, OnCore};
use repl_policy::AnyPolicy;
use std::alloc::Global;
use tp_base::Memory;

// A second level with nothing in it.
fn cold_l2(alloc: Global, off: Option<Guard>, hardware: &Hardware) -> Result<L2<AnyPolicy>, Memory>
    requires hardware { IsHardware (hardware_model hardware.now) }
    ensures cold { IfOk result (IsColdL2 (levels_by off (hardware_model hardware.now))) }
{
    let Geometry {
        line_size,
        back,
        l2,
        ..
    } = geometry_off(off, hardware);
    L2::new(alloc, line_size, l2.policy, l2.sets, l2.ways, back)
}

// A hart over such a second level.
fn cold_hart(
    alloc: Global,
    off: Option<Guard>,
    hardware: &Hardware,
    l2: &L2<AnyPolicy>,
) -> Result<Hart, Memory>
    requires hardware { IsHardware (hardware_model hardware.now) }
    requires l2 { IsColdL2 (levels_by off (hardware_model hardware.now)) l2.now }
    ensures cold { IfOk result (IsColdHart (levels_by off (hardware_model hardware.now)) l2.now) }
{
    let Geometry {
        predictor,
        l1i,
        l1d,
        tlb,
        ..
    } = geometry_off(off, hardware);
    let core = OnCore::new(
        alloc,
        predictor,
        l1i,
        l1d,
        tlb,
        hardware.costs,
        hardware.muldiv,
        false,
    )?;
    Ok(Hart {
        core,
        clock: 0,
        slots: 0,
        slot: None,
        ended: 0,
    })
}

// So many harts before their boots, over one second level with nothing in it.
fn cold_harts(
    alloc: Global,
    off: Option<Guard>,
    hardware: &Hardware,
    l2: &L2<AnyPolicy>,
    many: usize,
) -> Result<Vec<Hart>, Memory>
    requires hardware { IsHardware (hardware_model hardware.now) }
    requires l2 { IsColdL2 (levels_by off (hardware_model hardware.now)) l2.now }
    ensures all { IfOk result (λ harts. length harts.items ≡ many) }
    ensures each { IfOk result (λ harts.
        All (IsColdHart (levels_by off (hardware_model hardware.now)) l2.now) harts.items) }
{
    let mut harts = Vec::with_capacity(alloc, many)?;
    for _ in 0..many {
        harts.push_reserved(cold_hart(alloc, off, hardware, l2)?);
    }
    Ok(harts)
}

/// A second level with nothing in it, and so many harts before their boots over it, with
/// all guards on or with one off.
///
/// # Errors
/// `Memory` where no memory is left for them.
pub fn cold_caches(
    alloc: Global,
    off: Option<Guard>,
    hardware: &Hardware,
    many: usize,
) -> Result<(L2<AnyPolicy>, Vec<Hart>), Memory>
    requires hardware { IsHardware (hardware_model hardware.now) }
    ensures all { IfOk result (λ cold. length cold.1.items ≡ many) }
    ensures each { IfOk result (λ cold.
        All (IsColdHart (levels_by off (hardware_model hardware.now)) cold.0) cold.1.items) }
{
    let l2 = cold_l2(alloc, off, hardware)?;
    let harts = cold_harts(alloc, off, hardware, &l2, many)?;
    Ok((l2, harts))
}

/// Frees what was made. The drops of its parts are checked by this, and not again in each
/// crate that would drop it.
pub fn discard(l2: L2<AnyPolicy>, harts: Vec<Hart>) {
    drop(l2);
    drop(harts);
}
