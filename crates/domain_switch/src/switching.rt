// The switch: what is done between two slots, and the wait for the next one.
ghost use Rattle.std.specs.Prelude.{◌≡◌, ℕ, ◌+◌, ◌-◌, ◌*◌, ◌/◌, ◌^◌, ◌<◌, ◌≤◌, max, [], IfSome, if◌then◌else◌};
ghost use Rattle.cycle_cost.specs.Ranges.{most_footprint, most_operation, most_prefetch};
ghost use Rattle.std.specs.Option.{option_copied};
ghost use Rattle.phys_mem.specs.Mem.{Mem};
ghost use Rattle.kernel_clone.specs.Footprints.{IsLayout};
ghost use Rattle.kernel_clone.specs.Models.{layout_model};
ghost use Rattle.mem_system.specs.Cost.{Caches, EmptyTlb, Flush, touched_all};
ghost use Rattle.mem_system.specs.Contents.{system, SystemStands, MakesTouch, MakesTouches, hierarchy_of};
ghost use Rattle.mem_system.specs.Translation.{KeepsLeaves};
ghost use Rattle.mem_system.specs.Operations.{shared_region, prefetch};
ghost use Rattle.mem_system.specs.Operations as spec;
ghost use Rattle.domain_switch.specs.Switch.{IsCloneOn, IsInTime, IsSwitched, layout_if};

use crate::charging::{charge_own, load_run};
use kernel_clone::{CloneLayout, ENTER, LEAVE};
use l2_colour::L2;
use mem_system::OnCore;
use set_cache::Policy;

/// What a switch took.
#[derive(Clone, Copy, Debug, PartialEq, Eq)]
pub struct Switched {
    /// The cycles from the ended slot's end to the end of the work.
    pub used: u64,
    /// The clock after the wait.
    pub now: u64,
}

/// What a switch does between the leave and the enter.
#[derive(Clone, Copy, Debug, PartialEq, Eq)]
pub struct Parts {
    /// Each line of the shared region is loaded.
    pub loads: bool,
    /// All on-core state is made fresh, and not the translation buffer alone.
    pub flushes: bool,
}

const ALL_PARTS: Parts = Parts {
    loads: true,
    flushes: true,
};

/// Switches from one domain's clone to the next one's, in this order: `out`
/// leaves, which is nobody at the boot; each line of the shared region is
/// loaded, ascending; all on-core state is made fresh; `into` enters.
/// Then the clock waits for `until`, where it isn't past that already.
///
/// The slot before ended at `old_end`, the clock is `now`, and the next slot
/// starts at `until`, all in cycles below 2^62. Its domain may make `calls`, a
/// bit each; at the boot it counts as that of the last entry.
pub fn switch<P: Policy>(
    core: &mut OnCore<P>,
    l2: &mut L2<P>,
    out: Option<&CloneLayout>,
    into: &CloneLayout,
    old_end: u64,
    now: u64,
    until: u64,
    calls: u32,
) -> Switched
    requires out { IfSome (option_copied out) (IsCloneOn (hierarchy_of P.rule (system core.old l2.old))) }
    requires into { IsCloneOn (hierarchy_of P.rule (system core.old l2.old)) into.now }
    requires ended { old_end ≤ now }
    requires early { now < 2 ^ 62 }
    requires near { until < 2 ^ 62 }
    ensures hierarchy { hierarchy_of P.rule (system core.new l2.new) ≡ hierarchy_of P.rule
        (system core.old l2.old) }
    ensures pinned { core.new.pinned ≡ core.old.pinned }
    ensures work { (caches : Caches) → SystemStands P.stands_for (system core.old l2.old) caches
        → IsSwitched P.stands_for old_end now result.used (system core.new l2.new)
        (touched_all (hierarchy_of P.rule (system core.old l2.old)) core.old.pinned caches
        (spec.switch core.old.costs (layout_if (option_copied out.entry)) (layout_model into.now))) }
    ensures clock { result.now ≡ max (old_end + result.used) until }
    ensures within { (caches : Caches) → SystemStands P.stands_for (system core.old l2.old) caches
        → IsInTime (hierarchy_of P.rule
        (system core.old l2.old)) caches (layout_if (option_copied out.entry)) (layout_model into.now)
        into.now.shared calls old_end now until
        → result.used ≤ until - old_end }
    ensures on_time { (caches : Caches) → SystemStands P.stands_for (system core.old l2.old) caches
        → IsInTime (hierarchy_of P.rule
        (system core.old l2.old)) caches (layout_if (option_copied out.entry)) (layout_model into.now)
        into.now.shared calls old_end now until
        → result.now ≡ until }
    ensures kept { (mem : Mem) (frames root : ℕ) → KeepsLeaves mem frames root core.new.tlb }
    ensures later { now ≤ old_end + result.used }
    ensures few { old_end + result.used < now + 2 ^ 33 }
{
    let done = now + work(core, l2, ALL_PARTS, out, into);
    Switched {
        used: done - old_end,
        now: done.max(until),
    }
}

/// Switches so, but for the parts that are left out. Nothing is promised of when
/// it is done: the clock waits for `until` only where it isn't past that.
///
/// All times are in cycles below 2^62; `used` is 0 where the work is done before
/// `old_end`.
pub fn switch_off<P: Policy>(
    core: &mut OnCore<P>,
    l2: &mut L2<P>,
    parts: Parts,
    out: Option<&CloneLayout>,
    into: &CloneLayout,
    old_end: u64,
    now: u64,
    until: u64,
) -> Switched
    requires out { IfSome (option_copied out) (λ clone. IsLayout (layout_model clone)) }
    requires into { IsLayout (layout_model into.now) }
    requires early { now < 2 ^ 62 }
    requires near { until < 2 ^ 62 }
    ensures hierarchy { hierarchy_of P.rule (system core.new l2.new) ≡ hierarchy_of P.rule
        (system core.old l2.old) }
    ensures pinned { core.new.pinned ≡ core.old.pinned }
    ensures work { (caches : Caches) → SystemStands P.stands_for (system core.old l2.old) caches
        → IsSwitched P.stands_for old_end now result.used (system core.new l2.new)
        (touched_all (hierarchy_of P.rule (system core.old l2.old)) core.old.pinned caches
        (spec.switch_by parts.loads parts.flushes core.old.costs
        (layout_if (option_copied out.entry)) (layout_model into.now))) }
    ensures clock { (caches : Caches) → SystemStands P.stands_for (system core.old l2.old) caches
        → result.now ≡ max (now + (touched_all (hierarchy_of P.rule
        (system core.old l2.old)) core.old.pinned caches
        (spec.switch_by parts.loads parts.flushes core.old.costs
        (layout_if (option_copied out.entry)) (layout_model into.now))).cost) until }
    ensures kept { (mem : Mem) (frames root : ℕ) → KeepsLeaves mem frames root core.new.tlb }
    ensures later { now ≤ result.now }
    ensures few { result.now < max now until + 2 ^ 33 }
{
    let done = now + work(core, l2, parts, out, into);
    let begins = done.max(until);
    Switched {
        used: done.saturating_sub(old_end),
        now: begins,
    }
}

// The work of a switch: one clone leaves, what is between, the other enters.
// Answers the cycles.
#[inline(always)]
fn work<P: Policy>(
    core: &mut OnCore<P>,
    l2: &mut L2<P>,
    parts: Parts,
    out: Option<&CloneLayout>,
    into: &CloneLayout,
) -> u64
    requires out { IfSome (option_copied out) (λ clone. IsLayout (layout_model clone)) }
    requires into { IsLayout (layout_model into.now) }
    ensures makes { MakesTouches P.rule P.stands_for
        (spec.switch_by parts.loads parts.flushes core.old.costs
        (layout_if (option_copied out.entry)) (layout_model into.now))
        result (system core.old l2.old) (system core.new l2.new) }
    ensures kept { (mem : Mem) (frames root : ℕ) → KeepsLeaves mem frames root core.new.tlb }
    ensures few { result < 2 ^ 33 }
{
    let left = leave_if(core, l2, out);
    let loaded = prefetch_if(core, l2, into, parts.loads);
    let emptied = flush_if(core, l2, parts.flushes);
    let entered = enter(core, l2, into);
    u64::from(left) + u64::from(loaded) + u64::from(emptied) + u64::from(entered)
}

/// Charges that a clone enters. Answers the cycles.
pub fn enter<P: Policy>(core: &mut OnCore<P>, l2: &mut L2<P>, layout: &CloneLayout) -> u32
    requires layout { IsLayout (layout_model layout.now) }
    ensures makes { MakesTouches P.rule P.stands_for (spec.enter (layout_model layout.now))
        result (system core.old l2.old) (system core.new l2.new) }
    ensures buffer { core.new.tlb ≡ core.old.tlb }
    ensures few { result ≤ most_footprint }
{
    charge_own(core, l2, layout, ENTER)
}

/// Charges that a clone leaves. Answers the cycles.
pub fn leave<P: Policy>(core: &mut OnCore<P>, l2: &mut L2<P>, layout: &CloneLayout) -> u32
    requires layout { IsLayout (layout_model layout.now) }
    ensures makes { MakesTouches P.rule P.stands_for
        (spec.leave core.old.costs (layout_model layout.now)) result (system core.old l2.old)
        (system core.new l2.new) }
    ensures buffer { core.new.tlb ≡ core.old.tlb }
    ensures few { result ≤ most_operation }
{
    let trap = core.costs().trap;
    trap + charge_own(core, l2, layout, LEAVE)
}

// Charges that a clone leaves, if there is one. Answers the cycles.
fn leave_if<P: Policy>(core: &mut OnCore<P>, l2: &mut L2<P>, out: Option<&CloneLayout>) -> u32
    requires layout { IfSome (option_copied out) (λ clone. IsLayout (layout_model clone)) }
    ensures makes { MakesTouches P.rule P.stands_for
        (spec.leave_if core.old.costs (layout_if (option_copied out.entry)))
        result (system core.old l2.old) (system core.new l2.new) }
    ensures few { result ≤ most_operation }
{
    match out {
        Some(clone) => leave(core, l2, clone),
        None => 0,
    }
}

// Loads each shared line, if that is wanted. Answers the cycles.
#[inline(always)]
fn prefetch_if<P: Policy>(
    core: &mut OnCore<P>,
    l2: &mut L2<P>,
    layout: &CloneLayout,
    wanted: bool,
) -> u32
    requires layout { IsLayout (layout_model layout.now) }
    ensures makes { MakesTouches P.rule P.stands_for
        (if wanted then prefetch (shared_region (layout_model layout.now)) else [])
        result (system core.old l2.old) (system core.new l2.new) }
    ensures few { result ≤ most_prefetch }
{
    if wanted {
        prefetch(core, l2, layout)
    } else {
        0
    }
}

// Makes all on-core state fresh, or the translation buffer alone, at no cost.
// Answers the cycles.
#[inline(always)]
fn flush_if<P: Policy>(core: &mut OnCore<P>, l2: &mut L2<P>, all: bool) -> u32
    ensures makes { MakesTouch P.rule P.stands_for (if all then Flush else EmptyTlb)
        result (system core.old l2.old) (system core.new l2.new) }
    ensures kept { (mem : Mem) (frames root : ℕ) → KeepsLeaves mem frames root core.new.tlb }
{
    if all {
        core.flush(l2)
    } else {
        core.empty_tlb();
        0
    }
}

/// Loads each shared line, ascending. Answers the cycles.
fn prefetch<P: Policy>(core: &mut OnCore<P>, l2: &mut L2<P>, layout: &CloneLayout) -> u32
    requires layout { IsLayout (layout_model layout.now) }
    ensures makes { MakesTouches P.rule P.stands_for (prefetch (shared_region (layout_model layout.now)))
        result (system core.old l2.old) (system core.new l2.new) }
    ensures few { result ≤ most_prefetch }
{
    let shared = layout.shared_lines();
    let lines = layout.lines_in_frame();
    let mut cycles = 0;
    let mut place = 0;
    while place < shared {
        // In each frame they stand side by side.
        let count = lines.min(shared - place);
        cycles += load_run(core, l2, layout.shared_line(place), count);
        place += count;
    }
    cycles
}
