// The charge of an operation's footprint, line by line.
ghost use Rattle.std.specs.Prelude.{◌≡◌, ◌<◌, ◌≤◌, ◌+◌, ◌*◌, ◌^◌, map, IfSome};
ghost use Rattle.tp_base.specs.Ranges.{IsFrameNo};
ghost use Rattle.cycle_cost.specs.Ranges.{most_access, most_footprint, most_operation};
ghost use Rattle.kernel_clone.specs.Footprints.{IsLayout, run_of, shared_touches, own_touches, zeroed_touches, entry_touches};
ghost use Rattle.kernel_clone.specs.declared.Kind.TheVariants.{Fetch, Load, Store};
ghost use Rattle.kernel_clone.specs.Models.{layout_model, work_model, IsWork};
ghost use Rattle.mem_system.specs.Contents.{system, MakesTouches};
ghost use Rattle.mem_system.specs.Operations.{touch_of_line, footprint, operation};

use kernel_clone::{
    CloneLayout, STACK_LINES, TEXT_LINES, Work, data_count, data_start, entry_line, loaded_line,
    shared_count, stack_start, text_start,
};
use l2_colour::L2;
use mem_system::OnCore;
use set_cache::Policy;
use tp_base::{FrameNo, Line};

/// Charges an operation of the kernel that did this work, a call or a
/// delivery: the trap, and each line of its footprint. Answers the cycles.
pub fn charge<P: Policy>(
    core: &mut OnCore<P>,
    l2: &mut L2<P>,
    layout: &CloneLayout,
    work: &Work,
) -> u32
    requires layout { IsLayout (layout_model layout.now) }
    requires work { IsWork work.now }
    ensures makes { MakesTouches P.rule P.stands_for
        (operation core.old.costs (layout_model layout.now) (work_model work.now)) result
        (system core.old l2.old) (system core.new l2.new) }
    ensures buffer { core.new.tlb ≡ core.old.tlb }
    ensures some { 0 < result }
    ensures few { result ≤ most_operation }
{
    let trap = core.costs().trap;
    trap + charge_footprint(core, l2, layout, work)
}

/// Touches each line of an operation's footprint, in order. Answers the cycles.
#[inline(always)]
pub(crate) fn charge_footprint<P: Policy>(
    core: &mut OnCore<P>,
    l2: &mut L2<P>,
    layout: &CloneLayout,
    work: &Work,
) -> u32
    requires layout { IsLayout (layout_model layout.now) }
    requires work { IsWork work.now }
    ensures makes { MakesTouches P.rule P.stands_for
        (footprint (layout_model layout.now) (work_model work.now)) result (system core.old l2.old)
        (system core.new l2.new) }
    ensures buffer { core.new.tlb ≡ core.old.tlb }
    ensures few { result ≤ most_footprint }
{
    let own = charge_own(core, l2, layout, work.op);
    let zeroed = charge_zeroed(core, l2, layout, work.zeroed);
    let entries = charge_entries(core, l2, layout, work);
    own + zeroed + entries
}

/// Touches the lines of the operation itself, whatever it wrote. Answers the cycles.
pub(crate) fn charge_own<P: Policy>(
    core: &mut OnCore<P>,
    l2: &mut L2<P>,
    layout: &CloneLayout,
    op: u8,
) -> u32
    requires layout { IsLayout (layout_model layout.now) }
    ensures makes { MakesTouches P.rule P.stands_for
        (map touch_of_line (own_touches (layout_model layout.now) op)) result (system core.old l2.old)
        (system core.new l2.new) }
    ensures buffer { core.new.tlb ≡ core.old.tlb }
    ensures few { result ≤ most_access * 9 }
{
    let text = fetch_run(core, l2, text_start(layout, op), TEXT_LINES);
    let stack = store_run(core, l2, stack_start(layout), STACK_LINES);
    let stored = store_run(core, l2, data_start(layout, op), data_count(op));
    let loaded = charge_loaded(core, l2, layout, op);
    text + stack + stored + loaded
}

/// Loads the operation's shared line, if it has one. Answers the cycles.
#[inline(always)]
fn charge_loaded<P: Policy>(
    core: &mut OnCore<P>,
    l2: &mut L2<P>,
    layout: &CloneLayout,
    op: u8,
) -> u32
    requires layout { IsLayout (layout_model layout.now) }
    ensures makes { MakesTouches P.rule P.stands_for
        (map touch_of_line (shared_touches (layout_model layout.now) op)) result (system core.old l2.old)
        (system core.new l2.new) }
    ensures buffer { core.new.tlb ≡ core.old.tlb }
    ensures few { result ≤ most_access }
{
    let count = shared_count(op);
    // To find the line takes a division.
    if count == 0 {
        return 0;
    }
    load_run(core, l2, loaded_line(layout, op), count)
}

/// Stores each line of the frame that was zeroed, if one was. Answers the cycles.
#[inline(always)]
fn charge_zeroed<P: Policy>(
    core: &mut OnCore<P>,
    l2: &mut L2<P>,
    layout: &CloneLayout,
    zeroed: Option<u32>,
) -> u32
    requires layout { IsLayout (layout_model layout.now) }
    requires zeroed { IfSome zeroed IsFrameNo }
    ensures makes { MakesTouches P.rule P.stands_for
        (map touch_of_line (zeroed_touches (layout_model layout.now) zeroed)) result (system core.old l2.old)
        (system core.new l2.new) }
    ensures buffer { core.new.tlb ≡ core.old.tlb }
    ensures few { result ≤ most_access * 256 }
{
    let Some(frame) = zeroed else {
        return 0;
    };
    let first = layout.line_of(FrameNo::new(frame), 0);
    store_run(core, l2, first, layout.lines_in_frame())
}

/// Stores the line of each entry that was written. Answers the cycles.
#[inline(always)]
fn charge_entries<P: Policy>(
    core: &mut OnCore<P>,
    l2: &mut L2<P>,
    layout: &CloneLayout,
    work: &Work,
) -> u32
    requires layout { IsLayout (layout_model layout.now) }
    requires work { IsWork work.now }
    ensures makes { MakesTouches P.rule P.stands_for
        (map touch_of_line (entry_touches (layout_model layout.now) (work_model work.now).entries))
        result (system core.old l2.old) (system core.new l2.new) }
    ensures buffer { core.new.tlb ≡ core.old.tlb }
    ensures few { result ≤ most_access * 64 }
{
    let mut cycles = 0;
    for place in 0..work.count {
        cycles += core.access(l2, entry_line(layout, work, place), true);
    }
    cycles
}

// One way a function: one for all would be so large that each line would be a call.

/// Fetches lines side by side, ascending. Answers the cycles.
#[inline(always)]
fn fetch_run<P: Policy>(core: &mut OnCore<P>, l2: &mut L2<P>, first: Line, count: u32) -> u32
    requires few { count ≤ 256 }
    requires room { first + count ≤ 2 ^ 23 }
    ensures makes { MakesTouches P.rule P.stands_for (map touch_of_line (run_of Fetch first count))
        result (system core.old l2.old) (system core.new l2.new) }
    ensures buffer { core.new.tlb ≡ core.old.tlb }
    ensures few { result ≤ most_access * count }
{
    let mut cycles = 0;
    for place in 0..count {
        cycles += core.fetch(l2, Line::new(first.number() + place));
    }
    cycles
}

/// Loads lines side by side, ascending. Answers the cycles.
#[inline(always)]
pub(crate) fn load_run<P: Policy>(
    core: &mut OnCore<P>,
    l2: &mut L2<P>,
    first: Line,
    count: u32,
) -> u32
    requires few { count ≤ 256 }
    requires room { first + count ≤ 2 ^ 23 }
    ensures makes { MakesTouches P.rule P.stands_for (map touch_of_line (run_of Load first count))
        result (system core.old l2.old) (system core.new l2.new) }
    ensures buffer { core.new.tlb ≡ core.old.tlb }
    ensures few { result ≤ most_access * count }
{
    let mut cycles = 0;
    for place in 0..count {
        cycles += core.access(l2, Line::new(first.number() + place), false);
    }
    cycles
}

/// Stores lines side by side, ascending. Answers the cycles.
#[inline(always)]
fn store_run<P: Policy>(core: &mut OnCore<P>, l2: &mut L2<P>, first: Line, count: u32) -> u32
    requires few { count ≤ 256 }
    requires room { first + count ≤ 2 ^ 23 }
    ensures makes { MakesTouches P.rule P.stands_for (map touch_of_line (run_of Store first count))
        result (system core.old l2.old) (system core.new l2.new) }
    ensures buffer { core.new.tlb ≡ core.old.tlb }
    ensures few { result ≤ most_access * count }
{
    let mut cycles = 0;
    for place in 0..count {
        cycles += core.access(l2, Line::new(first.number() + place), true);
    }
    cycles
}
