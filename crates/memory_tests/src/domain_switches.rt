// Switches of a clone of colour 1 of 4, counted out by hand. For the prover the
// calls with contracts stand in functions with none, each proved alone.
ghost use Rattle.std.specs.Prelude.{◌≡◌};
ghost use Rattle.kernel_clone.specs.Footprints.{IsLayout};
ghost use Rattle.kernel_clone.specs.Models.{layout_model};

use crate::hierarchies::small_parts;
use domain_switch::{Switched, charge, switch};
use kernel_clone::{BAD_CALL, CloneLayout, EVERY_CALL, Work};
use l2_colour::L2;
use mem_system::OnCore;
use repl_policy::AnyPolicy;
use std::alloc::Global;
use std::process::Abort;
use std::test::Fail;
use tp_base::{FrameNo, Memory};

// A clone in frames of colour 1, and 8 shared lines.
fn red() -> CloneLayout
    ensures layout { IsLayout (layout_model result) }
    ensures line { result.line ≡ 64 }
    ensures shared { result.shared ≡ 512 }
{
    CloneLayout {
        text: [FrameNo::new(1), FrameNo::new(5)],
        stack: FrameNo::new(9),
        data: FrameNo::new(13),
        line: 64,
        shared: 512,
        colours: 4,
    }
}

// For the prover the parts are lent to functions that need not drop them.

// The boot, and a switch from the clone to itself at once.
fn switch_twice(core: &mut OnCore<AnyPolicy>, l2: &mut L2<AnyPolicy>) -> (Switched, Switched)
    requires line { l2.old.line_size ≡ 64 }
{
    let clone = red();
    let boot = switch(core, l2, None, &clone, 0, 0, 6150, EVERY_CALL);
    let again = switch(
        core,
        l2,
        Some(&clone),
        &clone,
        6150,
        6150,
        12300,
        EVERY_CALL,
    );
    (boot, again)
}

fn two_switches(alloc: Global, policy: AnyPolicy) -> Result<(Switched, Switched), Memory> {
    let (mut core, mut l2) = small_parts(alloc, policy)?;
    Ok(switch_twice(&mut core, &mut l2))
}

// A boot that begins late and is done past the next start.
fn late_boot(alloc: Global) -> Result<Switched, Memory> {
    let (mut core, mut l2) = small_parts(alloc, AnyPolicy::Lru)?;
    Ok(switch(&mut core, &mut l2, None, &red(), 100, 150, 200, EVERY_CALL))
}

// A call that is none, twice.
fn charge_twice(core: &mut OnCore<AnyPolicy>, l2: &mut L2<AnyPolicy>) -> (u32, u32) {
    let clone = red();
    let work = Work {
        op: BAD_CALL,
        zeroed: None,
        count: 0,
        entries: [0; 64],
    };
    let first = charge(core, l2, &clone, &work);
    (first, charge(core, l2, &clone, &work))
}

fn two_charges(alloc: Global) -> Result<(u32, u32), Memory> {
    let (mut core, mut l2) = small_parts(alloc, AnyPolicy::Lru)?;
    Ok(charge_twice(&mut core, &mut l2))
}

fn took(rt: &impl Abort, switched: Switched, used: u64, now: u64) {
    assert_eq!(rt; switched, Switched { used, now });
}

// From cold caches: 8 shared lines at 49 cycles, the flush 20, 7 lines at 49.
// Then: the leave 257, 8 shared lines that the second level holds, one of them
// over a dirty line, 82; the flush of 3 dirty lines 50; 7 lines at 9.
fn switches_take(rt: &impl Abort, alloc: Global, policy: AnyPolicy) -> Result<(), Fail> {
    let (boot, again) = two_switches(alloc, policy)?;
    took(rt, boot, 755, 6150);
    took(rt, again, 452, 12300);
    Ok(())
}

#[test]
fn switches_under_lru(rt: HostRuntime) -> Result<(), Fail> {
    switches_take(&rt, rt.alloc(), AnyPolicy::Lru)
}

#[test]
fn switches_under_fifo(rt: HostRuntime) -> Result<(), Fail> {
    switches_take(&rt, rt.alloc(), AnyPolicy::Fifo)
}

#[test]
fn switches_under_tree_plru(rt: HostRuntime) -> Result<(), Fail> {
    switches_take(&rt, rt.alloc(), AnyPolicy::TreePlru)
}

#[test]
fn a_late_switch_does_not_wait(rt: HostRuntime) -> Result<(), Fail> {
    took(&rt, late_boot(rt.alloc())?, 805, 905);
    Ok(())
}

// The trap and 9 lines: at 49 cycles, and then in the first level.
#[test]
fn an_operation_is_charged(rt: HostRuntime) -> Result<(), Fail> {
    assert_eq!(rt; two_charges(rt.alloc())?, (451, 19));
    Ok(())
}
