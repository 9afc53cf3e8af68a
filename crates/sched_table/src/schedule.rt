// Entries, and the starts of their slots.
ghost use Rattle.std.specs.Prelude.{◌≡◌, ◌+◌, ◌*◌, ◌/◌, ◌<◌, ◌≤◌, length, IfOk};
ghost use Rattle.sched_table.specs.Schedule as spec;
ghost use Rattle.sched_table.specs.Schedule.{IsSchedule};

use std::alloc::Global;
use std::marker::Model;
use tp_base::Memory;

/// A slot of a domain, and the pad of the switch that ends it.
#[derive(Clone, Copy, Debug, PartialEq, Eq)]
pub struct Entry {
    pub domain: u8,
    /// Of the slot, in cycles.
    pub length: u32,
    /// In cycles.
    pub pad: u32,
    /// The hart on which it runs.
    pub hart: u8,
}

/// What the switch before a slot goes by, and the slot itself.
#[derive(Clone, Copy, Debug, PartialEq, Eq)]
pub struct Turn {
    /// The entry of the slot.
    pub entry: Entry,
    /// When the slot begins, in cycles.
    pub start: u64,
    /// The entry to which the switch belongs: it is that of the slot that ended, and
    /// the last one at the boot.
    pub ended: Entry,
    /// The place of that entry among all.
    pub place: u32,
    /// When the slot before ended, in cycles: a pad before the start, and 0 at the boot.
    pub last_end: u64,
}

/// 1 to 256 entries, whose slots follow one another cyclically. It stands for
/// their list.
#[derive(Drop)]
pub struct Schedule {
    entries: Vec<Entry>,
    /// For each entry, the cycles of the slots and pads of those before it.
    before: Vec<u64>,
    /// The cycles of all slots and pads.
    round: u64,
}

impl Model for Schedule {
    ghost use Rattle.std.specs.Prelude.{List};
    ghost use Rattle.sched_table.specs.declared.schedule.Entry.{Entry};
    ghost use Rattle.sched_table.specs.Tables.{IsTable};

    ghost Value = { List Entry };

    ghost view = { λ s. s.entries.items };

    ghost invariant = { λ s. IsTable s.entries.items s.before.items s.round };
}

impl Schedule {
    /// 1 to 256 entries, of lengths and pads up to 1,000,000 cycles.
    ///
    /// # Errors
    ///
    /// `Memory` where no memory is left for them.
    pub fn new(alloc: Global, entries: &[Entry]) -> Result<Self, Memory>
        requires schedule { IsSchedule entries.now }
        ensures entries { IfOk result (λ s. s ≡ entries.now) }
    {
        let mut before = Vec::with_capacity(alloc, entries.len())?;
        let mut round = 0;
        for entry in entries {
            before.push_reserved(round);
            round += u64::from(entry.length) + u64::from(entry.pad);
        }
        let entries = Vec::from_slice(alloc, entries)?;
        Ok(Schedule {
            entries,
            before,
            round,
        })
    }

    /// The number of entries, 1 to 256.
    pub fn len(&self) -> u32
        ensures value { result ≡ length self.now }
        ensures schedule { IsSchedule self.now }
    {
        self.entries.len() as u32
    }

    /// The entry of slot `k`.
    pub fn entry(&self, k: u32) -> Entry
        ensures value { result ≡ spec.entry_of_slot self.now k }
        ensures length { result.length ≤ 1000000 }
        ensures pad { result.pad ≤ 1000000 }
    {
        self.entries[k as usize % self.entries.len()]
    }

    /// The clock at which slot `k` begins, `k` being up to 65,536, in cycles.
    pub fn start(&self, k: u32) -> u64
        requires few { k ≤ 65536 }
        ensures value { result ≡ spec.start self.now k }
        ensures soon { result ≤ 2000000 * k + 1000000 }
    {
        self.round_start(k) + self.before[k as usize % self.entries.len()]
    }

    /// What the switch before slot `k` goes by, and the slot, `k` being up to 65,536.
    pub fn turn(&self, k: u32) -> Turn
        requires few { k ≤ 65536 }
        ensures entry { result.entry ≡ spec.entry_of_slot self.now k }
        ensures start { result.start ≡ spec.start self.now k }
        ensures ended { result.ended ≡ spec.entry_in self.now (spec.switch_entry self.now k) }
        ensures place { result.place ≡ spec.switch_entry self.now k }
        ensures last_end { result.last_end ≡ spec.last_end self.now k }
        ensures length { result.entry.length ≤ 1000000 }
        ensures within { result.place < length self.now }
        ensures soon { result.start ≤ 2000000 * k + 1000000 }
    {
        let place = self.switch_entry(k);
        let ended = self.entries[place as usize];
        let start = self.start(k);
        Turn {
            entry: self.entry(k),
            start,
            ended,
            place,
            last_end: start - u64::from(ended.pad),
        }
    }

    // The place of the entry to which the switch before slot `k` belongs.
    fn switch_entry(&self, k: u32) -> u32
        ensures value { result ≡ spec.switch_entry self.now k }
        ensures within { result < length self.now }
    {
        let entries = self.entries.len() as u32;
        if k == 0 {
            return entries - 1;
        }
        (k - 1) % entries
    }

    // The clock at which the first slot of slot `k`'s round begins.
    fn round_start(&self, k: u32) -> u64
        requires few { k ≤ 65536 }
        ensures value { result ≡ spec.start self.now (k / length self.now * length self.now) }
    {
        let entries = self.entries.len();
        let last = self.entries[entries - 1];
        u64::from(last.pad) + u64::from(k) / entries as u64 * self.round
    }
}
