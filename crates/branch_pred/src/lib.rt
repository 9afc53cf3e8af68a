//! A branch predictor: counters of two bits, chosen by a branch's pc and the
//! last outcomes, and a target buffer.
#![tactic(auto)]

ghost use Rattle.std.specs.Prelude.{◌≡◌, ◌≢◌, ◌+◌, ◌/◌, ◌%◌, ◌^◌, ◌<◌, ◌≤◌, Bool, true, List, ℕ, IfOk, length, slice_index, replicate, take, bit_xor, None};
ghost use Rattle.std.specs.Int.{IsPowerOfTwo};
ghost use Rattle.branch_pred.specs.Guesses as spec;
ghost use Rattle.branch_pred.specs.Guesses.{
  Guesses,
  AreSizes,
  AreCounters,
  fresh_guesses,
  counter_place,
  counter_of,
  guess_of,
  learned,
  next_counter,
  shifted,
  binary_number,
  history_after,
};

use std::alloc::Global;
use std::marker::Model;
use tp_base::Memory;

const STRONGLY_TAKEN: u8 = 3;

/// The sizes of a predictor.
#[derive(Clone, Copy, Debug, PartialEq, Eq)]
pub struct Sizes {
    /// Counters: a power of two.
    pub counters: u32,
    /// Outcomes that choose a counter besides its branch's pc: up to 8.
    pub history: u32,
    /// Places of the target buffer: a power of two, or 0 where there is none.
    pub targets: u32,
}

/// A jump, or a branch that is taken: where it stands, and where it goes, as
/// virtual addresses.
#[derive(Clone, Copy, Debug, PartialEq, Eq)]
pub struct Jump {
    pub pc: u32,
    pub target: u32,
}

/// Counters of two bits, of which a branch uses the one at its pc divided by 4,
/// exclusive or the last outcomes, modulo their number; and where jumps went.
#[derive(Drop)]
pub struct Predictor {
    counters: Vec<u8>,
    /// How many outcomes the history has.
    outcomes: u32,
    /// The largest history of so many.
    largest: u32,
    history: u32,
    targets: Vec<Option<Jump>>,
}

impl Model for Predictor {
    ghost use Rattle.branch_pred.specs.Guesses.{Guesses, IsPredictor};

    ghost Value = { Guesses };

    ghost view = { λ a. record {
      counters = a.counters.items;
      outcomes = a.outcomes;
      history = a.history;
      targets = a.targets.items;
    } };

    ghost invariant = { λ a. IsPredictor a.largest (record {
      counters = a.counters.items;
      outcomes = a.outcomes;
      history = a.history;
      targets = a.targets.items;
    }) };
}

fn new_counters(alloc: Global, count: u32) -> Result<Vec<u8>, Memory>
    ensures items { IfOk result (λ counters. counters.items ≡ replicate count 1) }
{
    Ok(vec![in alloc; 1; count as usize]?)
}

fn no_targets(alloc: Global, count: u32) -> Result<Vec<Option<Jump>>, Memory>
    ensures items { IfOk result (λ targets. targets.items ≡ replicate count None) }
{
    Ok(vec![in alloc; None; count as usize]?)
}

/// The next state of a counter.
fn next_counter(counter: u8, taken: bool) -> u8
    requires small { counter < 4 }
    ensures next { result ≡ next_counter taken counter }
    ensures small { result < 4 }
{
    if taken {
        if counter < STRONGLY_TAKEN {
            counter + 1
        } else {
            STRONGLY_TAKEN
        }
    } else {
        counter.saturating_sub(1)
    }
}

/// A number modulo a power of two.
#[inline(always)]
fn modulo(number: u32, power: usize) -> usize
    requires power { IsPowerOfTwo power }
    ensures value { result ≡ number % power }
    ensures below { result < power }
{
    number as usize & (power - 1)
}

/// A number modulo a power of two, of which one less is handed in.
#[inline(always)]
fn low_bits(number: u32, largest: u32) -> u32
    requires power { IsPowerOfTwo (largest + 1) }
    ensures value { result ≡ number % (largest + 1) }
{
    number & largest
}

impl Predictor {
    /// A predictor of these sizes, each counter at 1, without an outcome and a
    /// target.
    ///
    /// # Errors
    ///
    /// `Memory`, where memory ran out.
    pub fn new(alloc: Global, sizes: Sizes) -> Result<Self, Memory>
        requires sizes { AreSizes sizes }
        ensures fresh { IfOk result (λ predictor. predictor ≡ fresh_guesses sizes) }
    {
        Ok(Predictor {
            counters: new_counters(alloc, sizes.counters)?,
            outcomes: sizes.history,
            largest: (1 << sizes.history) - 1,
            history: 0,
            targets: no_targets(alloc, sizes.targets)?,
        })
    }

    /// The place of the counter of the branch at this pc.
    #[inline(always)]
    fn place(&self, pc: u32) -> usize
        ensures place { result ≡ counter_place self.now pc }
        ensures below { result < length self.now.counters }
        ensures sound { AreCounters self.now }
    {
        modulo(pc / 4 ^ self.history, self.counters.len())
    }

    /// Whether the branch at this pc is guessed to be taken: its counter is 2 or 3.
    #[inline(always)]
    pub fn guess(&self, pc: u32) -> bool
        ensures guess { result ≡ guess_of self.now pc }
        ensures sound { AreCounters self.now }
    {
        self.counters[self.place(pc)] >= 2
    }

    /// Moves the counter of the branch at this pc by its outcome, within 0 to 3,
    /// and then takes the outcome into the history.
    #[inline(always)]
    pub fn learn(&mut self, pc: u32, taken: bool)
        ensures learned { self.new ≡ learned self.old pc taken }
    {
        let place = self.place(pc);
        let counter = self.counters[place];
        self.counters[place] = next_counter(counter, taken);
        let outcomes = 2 * self.history + u32::from(taken);
        self.history = low_bits(outcomes, self.largest);
    }

    /// Looks a jump up, whose place in the target buffer then has it: whether it
    /// had it before. Without a target buffer each is known.
    #[inline(always)]
    pub fn look(&mut self, jump: Jump) -> bool
        ensures known { result ≡ spec.is_known self.old jump }
        ensures gone { self.new ≡ spec.gone self.old jump }
    {
        if self.targets.is_empty() {
            return true;
        }
        let place = modulo(jump.pc / 4, self.targets.len());
        let kept = self.targets[place];
        self.targets[place] = Some(jump);
        kept == Some(jump)
    }

    /// A jump from a pc to a target: whether the target buffer was wrong.
    #[inline(always)]
    pub fn jump(&mut self, pc: u32, target: u32) -> bool
        ensures wrong { result ≡ spec.is_wrong_jump self.old pc target }
        ensures jumped { self.new ≡ spec.jumped self.old pc target }
    {
        !self.look(Jump { pc, target })
    }

    /// A branch at a pc that is taken, to this target, or not: whether its guess
    /// was wrong, or the target buffer where it is taken.
    #[inline(always)]
    pub fn branch(&mut self, pc: u32, taken: bool, target: u32) -> bool
        ensures wrong { result ≡ spec.is_wrong_branch self.old pc taken target }
        ensures branched { self.new ≡ spec.branched self.old pc taken target }
    {
        let guess = self.guess(pc);
        self.learn(pc, taken);
        if !taken {
            return guess;
        }
        let wrong = self.jump(pc, target);
        !guess || wrong
    }

    /// Sets every counter to 1, and forgets all outcomes and targets.
    pub fn reset(&mut self)
        ensures fresh { self.new ≡ fresh_guesses (spec.sizes_of self.old) }
    {
        self.counters.fill(1);
        self.history = 0;
        self.targets.fill(None);
    }
}

/// The law that branches share a counter by their places alone: an outcome at
/// one is learned where another has its place, and every other counter stays.
pub fn counters_are_shared()
    ensures together { (guesses : Guesses) → AreCounters guesses → (pc other : ℕ) (taken : Bool)
        → counter_place guesses pc ≡ counter_place guesses other
        → slice_index (learned guesses pc taken).counters (counter_place guesses other)
        ≡ next_counter taken (counter_of guesses other) }
    ensures apart { (guesses : Guesses) → AreCounters guesses → (pc other : ℕ) (taken : Bool)
        → counter_place guesses pc ≢ counter_place guesses other
        → slice_index (learned guesses pc taken).counters (counter_place guesses other)
        ≡ counter_of guesses other }
{}

/// The law that the history is the last outcomes: after any outcomes, the newest
/// first, it is the number of which the first so many are the binary digits, the
/// newest the lowest.
pub fn the_history_is_the_last_outcomes()
    ensures last { (count : ℕ) (outcomes : List Bool)
        → history_after count outcomes ≡ binary_number (take count outcomes) }
{}

/// The law that the target buffer knows a jump until another one comes to its
/// place.
pub fn targets_are_kept()
    ensures same { (guesses : Guesses) → AreCounters guesses → (jump : Jump)
        → spec.is_known (spec.gone guesses jump) jump ≡ true }
    ensures apart { (guesses : Guesses) → AreCounters guesses → (jump other : Jump)
        → spec.target_place guesses.targets jump.pc ≢ spec.target_place guesses.targets other.pc
        → spec.is_known (spec.gone guesses other) jump ≡ spec.is_known guesses jump }
{}
