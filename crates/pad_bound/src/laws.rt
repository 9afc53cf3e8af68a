//! Laws of the bound: what each of its parts is the worst of.
ghost use Rattle.std.specs.Prelude.{◌≡◌, ℕ, ◌+◌, ◌*◌, ◌<◌, ◌≤◌, max, false, List, length};
ghost use Rattle.kernel_clone.specs.Footprints.{Layout, WorkDone, touches, is_of_switch, leave_op, enter_op};
ghost use Rattle.kernel_clone.specs.Laws.{IsPlain};
ghost use Rattle.pad_bound.specs.Bound.{MachineShape, IsShape, lines_in_frame, most_entries, most_written, most_dirty};
ghost use Rattle.pad_bound.specs.Bound.{worst_instruction, worst_operation, worst_leave, worst_enter};
ghost use Rattle.pad_bound.specs.Bound.{worst_prefetch, worst_flush, bound_of, with_calls};
ghost use Rattle.kernel_clone.specs.Permissions.{every_call};
ghost use Rattle.pad_bound.specs.Worst.{worst_of, lines_written, IsCloneOf, IsCallWork, IsNoSmaller, prefetch_touches};
ghost use Rattle.pad_bound.specs.Worst.{alloc_work, revoke_work, AreWithin, IsPermitted};

/// Each call's and delivery's trap, and what it touches at its worst, is within
/// the operation where it writes no more lines than that counts, and reaches it
/// where it writes as many. A leave and an enter touch just what theirs sum.
pub fn kernel_touches()
    ensures operation { (s : MachineShape) (l : Layout) (w : WorkDone) → is_of_switch w.op ≡ false
        → lines_written l w ≤ s.written
        → s.costs.trap + worst_of s.costs s.again (touches l w) ≤ worst_operation s }
    ensures reached { (s : MachineShape) (l : Layout) (w : WorkDone) → is_of_switch w.op ≡ false
        → lines_written l w ≡ s.written
        → s.costs.trap + worst_of s.costs s.again (touches l w) ≡ worst_operation s }
    ensures leave { (s : MachineShape) (l : Layout) (w : WorkDone) → IsPlain w
        → w.op ≡ leave_op
        → s.costs.trap + worst_of s.costs s.again (touches l w) ≡ worst_leave s }
    ensures enter { (s : MachineShape) (l : Layout) (w : WorkDone) → IsPlain w
        → w.op ≡ enter_op → worst_of s.costs s.again (touches l w) ≡ worst_enter s }
{}

/// No call that a domain may make writes more lines than the most; of every call
/// an ALLOC writes as many where a frame has 63 lines or more, and else a REVOKE
/// of 63 entries.
pub fn calls_write()
    ensures most { (calls : ℕ) (l : Layout) (w : WorkDone) → IsCallWork w → IsPermitted calls w
        → lines_written l w ≤ most_written calls l.line }
    ensures alloc { (l : Layout) (frame : ℕ) → most_entries ≤ lines_in_frame l.line
        → lines_written l (alloc_work frame) ≡ most_written every_call l.line }
    ensures revoke { (l : Layout) (entries : List ℕ) → lines_in_frame l.line ≤ most_entries
        → length entries ≡ most_entries
        → lines_written l (revoke_work entries) ≡ most_written every_call l.line }
    // the works that write as many are such work
    ensures alloc_is_call { (frame : ℕ) → IsCallWork (alloc_work frame) }
    ensures revoke_is_call { (entries : List ℕ) → length entries ≡ most_entries
        → IsCallWork (revoke_work entries) }
{}

/// The prefetch is a load of each shared line, each at its worst.
pub fn prefetches()
    ensures prefetch { (s : MachineShape) (l : Layout) → IsCloneOf s l
        → worst_of s.costs 0 (prefetch_touches l) ≡ worst_prefetch s }
{}

/// A flush that writes back any number of lines that the cache can hold is
/// within the bound's.
pub fn flushes()
    ensures flush { (s : MachineShape) (dirty : ℕ) → dirty ≤ most_dirty s
        → s.costs.flush + s.costs.wb * dirty ≤ worst_flush s }
{}

/// An instruction, with its operation, that begins before the slot's end, and
/// the parts of the switch after it, end by the bound past the slot's end; at
/// their worst, begun in the slot's last cycle, they end just there.
pub fn late_steps()
    ensures within { (s : MachineShape) (slot_end start step leave prefetch flush enter : ℕ)
        → start < slot_end → step ≤ worst_instruction s + worst_operation s
        → leave ≤ worst_leave s → prefetch ≤ worst_prefetch s → flush ≤ worst_flush s
        → enter ≤ worst_enter s
        → start + step + leave + prefetch + flush + enter ≤ slot_end + bound_of s }
    ensures reached { (s : MachineShape) (start : ℕ) → IsShape s
        → start + worst_instruction s + worst_operation s + worst_leave s + worst_prefetch s
        + worst_flush s + worst_enter s ≡ start + 1 + bound_of s }
{}

/// No cost that grows makes the bound smaller, nor does what an operation may
/// write more, a miss may cost again, or a product may add.
pub fn grows_with_machines()
    ensures bound { (s t : MachineShape) → IsNoSmaller s t → bound_of s ≤ bound_of t }
{}

/// Calls that are left out never raise the bound; with every call it is that of
/// a machine that leaves none out, and with none that writes anything the least.
pub fn grows_with_calls()
    ensures bound { (s : MachineShape) (calls others : ℕ) → AreWithin calls others
        → bound_of (with_calls s calls) ≤ bound_of (with_calls s others) }
    ensures every { (s : MachineShape) → most_written every_call s.line ≡ max (lines_in_frame s.line) most_entries }
    ensures none { (s : MachineShape) → most_written 0 s.line ≡ 0 }
{}
