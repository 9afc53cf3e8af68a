// What the bound depends on, and each of its parts.
ghost use Rattle.std.specs.Prelude.{◌≡◌, ◌≤◌};
ghost use Rattle.pad_bound.specs.Bound.{IsShape, worst_fetch, worst_access, worst_read, worst_look};
ghost use Rattle.pad_bound.specs.Bound.{worst_instruction, worst_operation, worst_leave, worst_enter};
ghost use Rattle.pad_bound.specs.Bound.{worst_prefetch, worst_flush, if_may, most_written as spec_most_written, most_dirty};
ghost use Rattle.pad_bound.specs.Models.{shape_model};
ghost use Rattle.cycle_cost.specs.Ranges.{most_again, most_read, most_fetch, most_access, most_look, most_prefetch};

use cycle_cost::Costs;
use kernel_clone::Call;

/// Bytes of a frame.
const FRAME: u32 = 4096;

/// The most page table entries that one call writes: a REVOKE.
const MOST_ENTRIES: u32 = 63;

// So many lines, where the call is one of these.
fn lines_if(calls: u32, call: Call, lines: u32) -> u32
    ensures value { result ≡ if_may calls call lines }
    ensures few { result ≤ lines }
{
    if call.is_in(calls) { lines } else { 0 }
}

/// The most lines, of so many bytes from 16 to 128, that one of these calls
/// writes: those of a frame that it zeroes, or of the entries that it writes.
/// Bit n of `calls` is that of call n; a bit of no call counts for nothing.
#[tactic(auto, unfolding(crate::specs::Bound::most_written))]
pub fn most_written(calls: u32, line: u32) -> u32
    requires line { 16 ≤ line }
    ensures value { result ≡ spec_most_written calls line }
    ensures few { result ≤ 256 }
{
    let mut most = lines_if(calls, Call::Alloc, FRAME / line);
    most = most.max(lines_if(calls, Call::Table, 1));
    most = most.max(lines_if(calls, Call::Map, 1));
    most = most.max(lines_if(calls, Call::Unmap, 1));
    most = most.max(lines_if(calls, Call::Delete, 1));
    most.max(lines_if(calls, Call::Revoke, MOST_ENTRIES))
}

/// What of a machine the bound depends on.
#[derive(Clone, Copy)]
pub struct Shape {
    pub costs: Costs,
    /// Bytes of a line, 16 to 128, a divisor of 4,096.
    pub line: u32,
    /// Bytes of the shared region: whole lines, one at least, 65,536 bytes at most.
    pub shared: u32,
    /// Sets of the first-level data cache, 1 to 1,024.
    pub sets: u32,
    /// Its ways, 1 to 16.
    pub ways: u32,
    /// The most lines that an operation of the domain that leaves writes, up to 256.
    pub written: u32,
    /// What a miss of the second level costs again where it writes a line back, up to 1,000 cycles.
    pub again: u32,
    /// The most that a product or a division adds to an instruction, up to 33,000 cycles.
    pub product: u32,
}

/// The most cycles of each part of a switch, and of what may run into it.
#[derive(Clone, Copy, Debug, PartialEq, Eq)]
pub struct Bound {
    /// The last instruction of the slot.
    pub instruction: u64,
    /// The kernel operation that it calls.
    pub operation: u64,
    /// The domain leaves.
    pub leave: u64,
    /// The shared lines are loaded.
    pub prefetch: u64,
    /// The caches are flushed.
    pub flush: u64,
    /// The next domain enters.
    pub enter: u64,
    /// The sum of the parts, less 1: the instruction began before the slot's end.
    pub total: u64,
}

impl Shape {
    /// A fetch that both levels miss, where the second costs so much again.
    fn fetch(&self, again: u32) -> u64
        requires again { again ≤ most_again }
        ensures value { result ≡ worst_fetch (shape_model self.now).costs again }
        ensures few { result ≤ most_fetch }
    {
        u64::from(self.costs.l1) + self.read(again)
    }

    /// A load or store that both levels miss, and whose victim is dirty.
    fn access(&self, again: u32) -> u64
        requires again { again ≤ most_again }
        ensures value { result ≡ worst_access (shape_model self.now).costs again }
        ensures few { result ≤ most_access }
    {
        self.fetch(again) + u64::from(self.costs.wb)
    }

    /// A walk's read of an entry, which the second level misses.
    fn read(&self, again: u32) -> u64
        requires again { again ≤ most_again }
        ensures value { result ≡ worst_read (shape_model self.now).costs again }
        ensures few { result ≤ most_read }
    {
        u64::from(self.costs.l2) + u64::from(self.costs.mem) + u64::from(again)
    }

    /// A look-up in the translation buffer that misses.
    fn look(&self, again: u32) -> u64
        requires again { again ≤ most_again }
        ensures value { result ≡ worst_look (shape_model self.now).costs again }
        ensures few { result ≤ most_look }
    {
        u64::from(self.costs.tlb) + 2 * self.read(again)
    }

    /// The lines that the first-level data cache holds.
    fn dirty(&self) -> u64
        requires shape { IsShape (shape_model self.now) }
        ensures value { result ≡ most_dirty (shape_model self.now) }
        ensures few { result ≤ 16384 }
    {
        u64::from(self.sets) * u64::from(self.ways)
    }

    /// An instruction whose two pages and two lines are held nowhere, a wrong
    /// guess and a product.
    #[tactic(auto, unfolding(crate::specs::Bound::worst_instruction))]
    pub(crate) fn instruction(&self) -> u64
        requires shape { IsShape (shape_model self.now) }
        ensures value { result ≡ worst_instruction (shape_model self.now) }
        ensures some { 1 ≤ result }
        ensures few { result ≤ 58000 }
    {
        let again = self.again;
        let touched = 2 * self.look(again) + self.fetch(again) + self.access(again);
        let computed = u64::from(self.costs.mispredict) + u64::from(self.product);
        u64::from(self.costs.base) + touched + computed
    }

    /// A call that writes as much as any can.
    #[tactic(auto, unfolding(crate::specs::Bound::worst_operation))]
    pub(crate) fn operation(&self) -> u64
        requires shape { IsShape (shape_model self.now) }
        ensures value { result ≡ worst_operation (shape_model self.now) }
        ensures few { result ≤ 1322000 }
    {
        let access = self.access(self.again);
        let own = 4 * self.fetch(self.again) + 5 * access;
        u64::from(self.costs.trap) + own + u64::from(self.written) * access
    }

    /// The domain leaves.
    #[tactic(auto, unfolding(crate::specs::Bound::worst_leave, crate::specs::Bound::worst_enter))]
    pub(crate) fn leave(&self) -> u64
        requires shape { IsShape (shape_model self.now) }
        ensures value { result ≡ worst_leave (shape_model self.now) }
        ensures few { result ≤ 32000 }
    {
        u64::from(self.costs.trap) + self.enter()
    }

    /// The next domain enters, with no trap.
    #[tactic(auto, unfolding(crate::specs::Bound::worst_enter))]
    pub(crate) fn enter(&self) -> u64
        requires shape { IsShape (shape_model self.now) }
        ensures value { result ≡ worst_enter (shape_model self.now) }
        ensures few { result ≤ 31000 }
    {
        4 * self.fetch(self.again) + 3 * self.access(self.again)
    }

    /// Each shared line is loaded, and none makes the second level write back.
    #[tactic(auto, unfolding(crate::specs::Bound::worst_prefetch))]
    pub(crate) fn prefetch(&self) -> u64
        requires shape { IsShape (shape_model self.now) }
        ensures value { result ≡ worst_prefetch (shape_model self.now) }
        ensures few { result ≤ most_prefetch }
    {
        u64::from(self.shared / self.line) * self.access(0)
    }

    /// All of the first-level data cache is written back.
    #[tactic(auto, unfolding(crate::specs::Bound::worst_flush))]
    pub(crate) fn flush(&self) -> u64
        requires shape { IsShape (shape_model self.now) }
        ensures value { result ≡ worst_flush (shape_model self.now) }
        ensures few { result ≤ 16385000 }
    {
        u64::from(self.costs.flush) + u64::from(self.costs.wb) * self.dirty()
    }
}
