// The entries of one hart, and the starts of their slots.
ghost use Rattle.std.specs.Prelude.{◌≡◌, ◌+◌, ◌*◌, ◌<◌, ◌≤◌, length, IfOk};
ghost use Rattle.sched_table.specs.Schedule as spec;
ghost use Rattle.sched_table.specs.Schedule.{IsSchedule, AreHarts};

use crate::schedule::{Entry, Schedule, Turn};
use std::alloc::Global;
use std::marker::Model;
use tp_base::Memory;

/// The entries of one hart in their order, each with its place among all. It stands
/// for their list, each after its place.
#[derive(Drop)]
pub struct HartSchedule {
    /// Its entries alone.
    schedule: Schedule,
    /// The place of each among all.
    places: Vec<u32>,
}

impl Model for HartSchedule {
    ghost use Rattle.std.specs.Prelude.{◌≡◌, ℕ, List, length, zip};
    ghost use Rattle.sched_table.specs.declared.schedule.Entry.{Entry};

    ghost Value = { List (ℕ × Entry) };

    ghost view = { λ s. zip s.places.items s.schedule };

    ghost invariant = { λ s. length s.schedule ≡ length s.places.items };
}

impl HartSchedule {
    /// Those of the entries that are on the hart, which has one.
    ///
    /// # Errors
    ///
    /// `Memory` where no memory is left for them.
    pub fn new(alloc: Global, entries: &[Entry], hart: u8) -> Result<Self, Memory>
        requires schedule { IsSchedule entries.now }
        requires some { 0 < length (spec.on_hart entries.now hart) }
        ensures entries { IfOk result (λ s. s ≡ spec.entries_on entries.now hart) }
    {
        let mut own = Vec::new(alloc);
        let mut places = Vec::new(alloc);
        for (place, entry) in entries.iter().enumerate() {
            if entry.hart == hart {
                own.push(*entry)?;
                places.push(place as u32)?;
            }
        }
        let schedule = Schedule::new(alloc, own.as_slice())?;
        Ok(HartSchedule { schedule, places })
    }

    /// The number of its entries, 1 to 256.
    pub fn len(&self) -> u32
        ensures value { result ≡ length self.now }
        ensures schedule { IsSchedule (spec.entries_alone self.now) }
    {
        self.schedule.len()
    }

    /// The entry of its slot `k`.
    pub fn entry(&self, k: u32) -> Entry
        ensures value { result ≡ spec.entry_of_slot (spec.entries_alone self.now) k }
        ensures length { result.length ≤ 1000000 }
        ensures pad { result.pad ≤ 1000000 }
    {
        self.schedule.entry(k)
    }

    /// The hart's clock at which its slot `k` begins, `k` being up to 65,536, in cycles.
    pub fn start(&self, k: u32) -> u64
        requires few { k ≤ 65536 }
        ensures value { result ≡ spec.start (spec.entries_alone self.now) k }
        ensures soon { result ≤ 2000000 * k + 1000000 }
    {
        self.schedule.start(k)
    }

    /// What the switch before its slot `k` goes by, and the slot, `k` being up to
    /// 65,536; the place is that among the entries of all harts.
    pub fn turn(&self, k: u32) -> Turn
        requires few { k ≤ 65536 }
        ensures entry { result.entry ≡ spec.entry_of_slot (spec.entries_alone self.now) k }
        ensures start { result.start ≡ spec.start (spec.entries_alone self.now) k }
        ensures ended { result.ended ≡ spec.entry_in (spec.entries_alone self.now)
            (spec.switch_entry (spec.entries_alone self.now) k) }
        ensures place { result.place ≡ spec.place_in self.now
            (spec.switch_entry (spec.entries_alone self.now) k) }
        ensures last_end { result.last_end ≡ spec.last_end (spec.entries_alone self.now) k }
        ensures length { result.entry.length ≤ 1000000 }
        ensures soon { result.start ≤ 2000000 * k + 1000000 }
    {
        let turn = self.schedule.turn(k);
        Turn {
            place: self.places[turn.place as usize],
            ..turn
        }
    }
}

/// How many harts there are: one more than the greatest that an entry names.
pub fn harts_in(entries: &[Entry]) -> u32
    ensures value { result ≡ spec.harts_in entries.now }
{
    let mut harts = 0;
    for entry in entries {
        harts = harts.max(u32::from(entry.hart) + 1);
    }
    harts
}

/// The schedule of each hart, ascending.
///
/// # Errors
///
/// `Memory` where no memory is left for them.
pub fn hart_schedules(alloc: Global, entries: &[Entry]) -> Result<Vec<HartSchedule>, Memory>
    requires schedule { IsSchedule entries.now }
    requires harts { AreHarts entries.now }
    ensures each { IfOk result (λ v. v.items ≡ spec.hart_schedules entries.now) }
{
    let mut schedules = Vec::new(alloc);
    for hart in 0..harts_in(entries) {
        schedules.push(HartSchedule::new(alloc, entries, hart as u8)?)?;
    }
    Ok(schedules)
}
