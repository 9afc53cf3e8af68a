// The sets of a cache in two flat vectors. What was written in an earlier epoch
// counts for nothing, so that a new epoch empties all of them at once.
ghost use Rattle.std.specs.Prelude.{◌≡◌, ◌<◌, ◌+◌, ◌^◌, ℕ, All, length, map, position, is_none};
ghost use Rattle.set_cache.specs.Cache.{is_line};
ghost use Rattle.set_cache.specs.Contents.{AreFirst};
ghost use Rattle.set_cache.specs.Packed.{line_in};

use crate::KeptLine;
use std::alloc::Global;
use std::marker::Model;
use tp_base::Memory;

/// What was written into a way, and in which epoch.
#[derive(Clone, Copy)]
pub struct Entry {
    number: u32,
    dirty: bool,
    epoch: u32,
}

/// What was written as the policy's state of a set, and in which epoch.
#[derive(Clone, Copy)]
pub struct WrittenState {
    state: u64,
    epoch: u32,
}

/// What a way kept until it was written.
#[derive(Clone, Copy)]
pub struct GivenUp {
    /// The line's number, if there was one.
    pub number: Option<u32>,
    /// Whether it had a dirty mark.
    pub dirty: bool,
}

/// Epoch 0 is no cache's, so what has it counts in none.
const UNWRITTEN: Entry = Entry {
    number: 0,
    dirty: false,
    epoch: 0,
};

const UNWRITTEN_STATE: WrittenState = WrittenState { state: 0, epoch: 0 };

/// The entries of all sets, set after set, and a policy's state for each set.
#[derive(Drop)]
pub struct PackedSets {
    ways: u32,
    epoch: u32,
    fresh: u64,
    dirty: u32,
    entries: Vec<Entry>,
    states: Vec<WrittenState>,
}

impl Model for PackedSets {
    ghost use Rattle.set_cache.specs.Packed.{KeptSets, coded_sets, table_in, IsPacked};

    ghost Value = { KeptSets };

    ghost coded = { coded_sets };

    ghost view = { λ a. record {
      ways = a.ways;
      epoch = a.epoch;
      fresh = a.fresh;
      table = table_in a.ways a.epoch a.fresh a.entries.items a.states.items;
    } };

    ghost invariant = { λ a. IsPacked a.ways a.epoch a.fresh a.dirty a.entries.items a.states.items };
}

impl Entry {
    ghost use Rattle.std.specs.Prelude.{is_none, option_map};
    ghost use Rattle.set_cache.specs.Cache.{is_line, is_dirty, dirty_number};
    ghost use Rattle.set_cache.specs.Packed.{line_in};

    #[inline(always)]
    fn keeps(self, epoch: u32, number: u32) -> bool
        ensures value { result ≡ is_line number (line_in epoch self) }
    {
        self.number == number && self.epoch == epoch
    }

    #[inline(always)]
    fn is_empty(self, epoch: u32) -> bool
        ensures value { result ≡ is_none (line_in epoch self) }
    {
        self.epoch != epoch
    }

    #[inline(always)]
    fn is_dirty(self, epoch: u32) -> bool
        ensures value { result ≡ is_dirty (line_in epoch self) }
    {
        self.epoch == epoch && self.dirty
    }

    #[inline(always)]
    fn number(self, epoch: u32) -> Option<u32>
        ensures value { result ≡ option_map (λ line. line.number) (line_in epoch self) }
    {
        if self.epoch == epoch {
            Some(self.number)
        } else {
            None
        }
    }

    #[inline(always)]
    fn dirty_number(self, epoch: u32) -> Option<u32>
        ensures value { result ≡ dirty_number (line_in epoch self) }
    {
        if self.is_dirty(epoch) {
            Some(self.number)
        } else {
            None
        }
    }
}

/// The first of these entries that keeps a line, of a set that fills in order.
#[inline(always)]
fn first_with(entries: &[Entry], epoch: u32, number: u32) -> Option<usize>
    requires first { AreFirst (map (line_in epoch) entries.now) }
    ensures value { result ≡ position (λ entry. is_line number (line_in epoch entry)) entries.now }
{
    // A set has few ways, so that the first two are worth a look of their own.
    if entries.first()?.keeps(epoch, number) {
        return Some(0);
    }
    if entries.get(1)?.keeps(epoch, number) {
        return Some(1);
    }
    // A set fills in order: where its third way is empty, no later one keeps a line.
    if entries.get(2)?.is_empty(epoch) {
        return None;
    }
    let mut way = 2;
    while way < entries.len() {
        if entries[way].keeps(epoch, number) {
            return Some(way);
        }
        way += 1;
    }
    None
}

/// The first of these entries that keeps nothing, of a set that fills in order.
#[inline(always)]
fn first_empty(entries: &[Entry], epoch: u32) -> Option<usize>
    requires first { AreFirst (map (line_in epoch) entries.now) }
    ensures value { result ≡ position (λ entry. is_none (line_in epoch entry)) entries.now }
{
    // Where the last one keeps a line, all do.
    if !entries.last()?.is_empty(epoch) {
        return None;
    }
    // After a flush the first one is.
    if entries.first()?.is_empty(epoch) {
        return Some(0);
    }
    entries.iter().position(|entry| entry.is_empty(epoch))
}

/// Makes each entry unwritten, in a step each.
fn unwrite_entries(entries: &mut [Entry], steps: &mut u64)
    requires room { steps.old + length entries.old < 2 ^ 64 }
    ensures same { length entries.new ≡ length entries.old }
    ensures unwritten { All (λ entry. entry.epoch ≡ 0) entries.new }
    ensures steps { steps.new ≡ steps.old + length entries.old }
{
    for entry in entries.iter_mut() {
        *entry = UNWRITTEN;
        *steps += 1;
    }
}

/// Makes each state unwritten, in a step each.
fn unwrite_states(states: &mut [WrittenState], steps: &mut u64)
    requires room { steps.old + length states.old < 2 ^ 64 }
    ensures same { length states.new ≡ length states.old }
    ensures unwritten { All (λ written. written.epoch ≡ 0) states.new }
    ensures steps { steps.new ≡ steps.old + length states.old }
{
    for state in states.iter_mut() {
        *state = UNWRITTEN_STATE;
        *steps += 1;
    }
}

impl PackedSets {
    ghost use Rattle.std.specs.Prelude.{option_map, ◌*◌, ◌||◌, true, None, Some, slice_index_or, slice_set, IfOk, IfSome, if◌then◌else◌, ◌==◌};
    ghost use Rattle.set_cache.specs.Cache.{way_of, is_dirty, dirty_number};
    ghost use Rattle.set_cache.specs.Contents.{kept_at};
    ghost use Rattle.set_cache.specs.Packed.{fresh_sets, with_kept, dirty_sum, epoch_after, greatest_epoch};

    /// Sets with nothing in them, by the state that the policy gives a fresh one.
    ///
    /// # Errors
    ///
    /// `Memory`, where memory ran out.
    pub fn new(alloc: Global, sets: u32, ways: u32, epoch: u32, fresh: u64) -> Result<Self, Memory>
        requires small { sets * ways < 2 ^ 32 }
        requires counts { 0 < epoch }
        ensures made { IfOk result (λ packed. packed ≡ fresh_sets sets ways epoch fresh) }
    {
        let entries = vec![in alloc; UNWRITTEN; (sets * ways) as usize]?;
        let states = vec![in alloc; UNWRITTEN_STATE; sets as usize]?;
        Ok(PackedSets {
            ways,
            epoch,
            fresh,
            dirty: 0,
            entries,
            states,
        })
    }

    /// How many sets there are.
    #[inline(always)]
    pub fn count(&self) -> usize
        ensures value { result ≡ length self.now.table }
        ensures small { result * self.now.ways < 2 ^ 32 }
    {
        self.states.len()
    }

    /// How many ways each set has.
    #[inline(always)]
    pub fn ways(&self) -> u32
        ensures value { result ≡ self.now.ways }
    {
        self.ways
    }

    /// How many lines have a dirty mark.
    #[inline(always)]
    pub fn dirty(&self) -> u32
        ensures value { result ≡ dirty_sum self.now.table }
    {
        self.dirty
    }

    /// The way at which a set keeps a line.
    #[tactic(auto, using(crate::proofs::Vectors::length_table))]
    #[inline(always)]
    pub fn find(&self, set: usize, number: u32) -> Option<usize>
        requires below { set < length self.now.table }
        requires first { AreFirst (kept_at self.now.table set).places }
        ensures value { result ≡ way_of number (kept_at self.now.table set).places }
        ensures below { IfSome result (λ way. way < self.now.ways) }
    {
        let base = set * self.ways as usize;
        first_with(
            &self.entries[base..base + self.ways as usize],
            self.epoch,
            number,
        )
    }

    /// The least way of a set that keeps nothing.
    #[tactic(auto, using(crate::proofs::Vectors::length_table))]
    #[inline(always)]
    pub fn empty_way(&self, set: usize) -> Option<usize>
        requires below { set < length self.now.table }
        requires first { AreFirst (kept_at self.now.table set).places }
        ensures value { result ≡ position is_none (kept_at self.now.table set).places }
        ensures below { IfSome result (λ way. way < self.now.ways) }
    {
        let base = set * self.ways as usize;
        first_empty(&self.entries[base..base + self.ways as usize], self.epoch)
    }

    /// The policy's state of a set.
    #[tactic(auto, using(crate::proofs::Vectors::length_table))]
    #[inline(always)]
    pub fn state(&self, set: usize) -> u64
        requires below { set < length self.now.table }
        ensures value { result ≡ (kept_at self.now.table set).state }
    {
        let written = self.states[set];
        if written.epoch == self.epoch {
            written.state
        } else {
            self.fresh
        }
    }

    /// Whether what stands at a place, a set times the ways plus a way, has a dirty mark.
    #[tactic(auto, using(crate::proofs::Vectors::length_table))]
    #[inline(always)]
    pub fn is_marked(&self, place: usize) -> bool
        requires below { place < length self.now.table * self.now.ways }
        ensures value { (set way : ℕ) → set < length self.now.table → way < self.now.ways
            → place ≡ set * self.now.ways + way
            → result ≡ is_dirty (slice_index_or (kept_at self.now.table set).places way None) }
    {
        self.entries[place].is_dirty(self.epoch)
    }

    /// The line at a place, as `is_marked` counts them, if it has a dirty mark.
    #[tactic(auto, using(crate::proofs::Vectors::length_table))]
    #[inline(always)]
    pub fn dirty_at(&self, place: usize) -> Option<u32>
        requires below { place < length self.now.table * self.now.ways }
        ensures value { (set way : ℕ) → set < length self.now.table → way < self.now.ways
            → place ≡ set * self.now.ways + way
            → result ≡ dirty_number (slice_index_or (kept_at self.now.table set).places way None) }
    {
        self.entries[place].dirty_number(self.epoch)
    }

    /// Writes the policy's state of a set.
    #[tactic(auto, using(crate::proofs::Vectors::length_table))]
    #[inline(always)]
    pub fn write_state(&mut self, set: usize, state: u64)
        requires below { set < length self.old.table }
        ensures written { self.new ≡ with_kept self.old set
            (record { places = (kept_at self.old.table set).places; state = state }) }
    {
        let epoch = self.epoch;
        let written = &mut self.states[set];
        written.state = state;
        written.epoch = epoch;
    }

    /// Writes a line into a way, and the policy's state of its set; answers what the way kept.
    #[tactic(auto, using(crate::proofs::Vectors::length_table))]
    #[inline(always)]
    pub fn write(&mut self, set: usize, way: usize, line: KeptLine, state: u64) -> GivenUp
        requires below { set < length self.old.table }
        requires within { way < self.old.ways }
        ensures number { result.number ≡ option_map (λ line. line.number)
            (slice_index_or (kept_at self.old.table set).places way None) }
        ensures dirty { result.dirty
            ≡ is_dirty (slice_index_or (kept_at self.old.table set).places way None) }
        ensures written { self.new ≡ with_kept self.old set (record {
          places = slice_set (kept_at self.old.table set).places way (Some line);
          state = state;
        }) }
    {
        let epoch = self.epoch;
        let place = set * self.ways as usize + way;
        let was = self.entries[place];
        let old = GivenUp {
            number: was.number(epoch),
            dirty: was.is_dirty(epoch),
        };
        let entry = &mut self.entries[place];
        entry.number = line.number;
        entry.dirty = line.dirty;
        entry.epoch = epoch;
        let written = &mut self.states[set];
        written.state = state;
        written.epoch = epoch;
        self.dirty -= u32::from(old.dirty);
        self.dirty += u32::from(line.dirty);
        old
    }

    /// Writes a hit on a way, whose line is marked if it is a store.
    #[inline(always)]
    pub fn write_hit(&mut self, set: usize, way: usize, number: u32, store: bool, state: u64)
        requires below { set < length self.old.table }
        requires within { way < self.old.ways }
        ensures written { self.new ≡ with_kept self.old set (record {
          places = if store then slice_set (kept_at self.old.table set).places way
              (Some (record { number = number; dirty = true })) else (kept_at self.old.table set).places;
          state = state;
        }) }
    {
        if store {
            let line = KeptLine {
                number,
                dirty: true,
            };
            self.write(set, way, line, state);
            return;
        }
        self.write_state(set, state);
    }

    /// Empties every set, by a new epoch. Counts a step for each entry, state
    /// and epoch that it writes.
    #[inline(always)]
    pub fn empty(&mut self, steps: &mut u64)
        requires room { steps.old + (1 + length self.old.table * (self.old.ways + 1)) < 2 ^ 64 }
        ensures emptied { self.new
            ≡ fresh_sets (length self.old.table) self.old.ways (epoch_after self.old.epoch) self.old.fresh }
        ensures steps { steps.new ≡ steps.old + (if self.old.epoch == greatest_epoch
            then 1 + length self.old.table * (self.old.ways + 1) else 1) }
    {
        self.dirty = 0;
        *steps += 1;
        if self.epoch != u32::MAX {
            self.epoch += 1;
            return;
        }
        unwrite_entries(&mut self.entries, steps);
        unwrite_states(&mut self.states, steps);
        self.epoch = 1;
    }
}
