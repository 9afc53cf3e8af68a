//! The interrupts of a domain: moments, of which each is delivered once and in
//! order, and a bit for each of 32 lines.
#![tactic(auto)]

ghost use Rattle.std.specs.Prelude.{◌≡◌, ◌↔◌, ℕ, ◌+◌, ◌<◌, ◌≤◌, true, false, length, slice_get, Some, IfOk, IsNone, option_map};
ghost use Rattle.irq_partition.specs.Interrupts.{
  Interrupts,
  AreMoments,
  AreInterrupts,
  none_delivered,
  next_of,
  next_cycle,
  due,
  delivered,
  is_set,
  with_bit,
};

mod laws;

pub use laws::{bits_are_apart, due_is_least, moments_in_order};
use std::alloc::Global;
use std::marker::Model;
use tp_base::Memory;

const LINES: usize = 32;

/// When an interrupt comes.
#[derive(Clone, Copy, Debug, PartialEq, Eq)]
pub struct Moment {
    /// In cycles.
    pub at: u64,
    /// Below 32.
    pub line: u8,
}

/// The moments of a domain, how many of them were delivered, and which lines
/// have their bit set.
#[derive(Drop)]
pub struct IrqPart {
    moments: Vec<Moment>,
    delivered: usize,
    bits: [bool; LINES],
}

impl Model for IrqPart {
    ghost use Rattle.irq_partition.specs.Interrupts.{Interrupts, AreInterrupts};

    ghost Value = { Interrupts };

    ghost view = { λ a. record { moments = a.moments.items; delivered = a.delivered; bits = a.bits } };

    ghost invariant = { λ a. AreInterrupts
        (record { moments = a.moments.items; delivered = a.delivered; bits = a.bits }) };
}

impl IrqPart {
    /// None of these moments is delivered, and no bit is set.
    ///
    /// # Errors
    ///
    /// `Memory`, where memory ran out.
    #[tactic(auto, unfolding(crate::specs::Interrupts::none_delivered))]
    pub fn new(alloc: Global, moments: &[Moment]) -> Result<Self, Memory>
        requires moments { AreMoments moments.now }
        ensures opening { IfOk result (λ irqs. irqs ≡ none_delivered moments.now) }
    {
        let moments = Vec::from_slice(alloc, moments)?;
        Ok(IrqPart {
            moments,
            delivered: 0,
            bits: [false; LINES],
        })
    }

    /// The line of the first moment that isn't delivered, where it isn't after
    /// `now`.
    #[inline(always)]
    #[tactic(auto, unfolding(crate::specs::Interrupts::due))]
    pub fn due(&self, now: u64) -> Option<u8>
        ensures due { result ≡ due now self.now }
        ensures none { IsNone result ↔ ((k : ℕ) (x : Moment) → self.now.delivered ≤ k
            → slice_get self.now.moments k ≡ Some x → now < x.at) }
        ensures sound { AreInterrupts self.now }
    {
        match self.moments.get(self.delivered) {
            Some(next) if next.at <= now => Some(next.line),
            _ => None,
        }
    }

    /// Delivers the first moment that isn't, of which there must be one, and
    /// answers its line.
    #[tactic(auto, unfolding(crate::specs::Interrupts::delivered))]
    pub fn deliver(&mut self) -> u8
        requires left { self.old.delivered < length self.old.moments }
        ensures delivered { self.new ≡ delivered self.old }
        ensures line { option_map (λ moment. moment.line) (next_of self.old) ≡ Some result }
        ensures below { result < 32 }
    {
        let line = self.moments[self.delivered].line;
        self.delivered += 1;
        line
    }

    /// The cycle of the first moment that isn't delivered; `None` exactly where
    /// all are.
    #[inline(always)]
    #[tactic(auto, unfolding(crate::specs::Interrupts::next_cycle))]
    pub fn next_moment(&self) -> Option<u64>
        ensures next { result ≡ next_cycle self.now }
        ensures none { IsNone result ↔ (self.now.delivered ≡ length self.now.moments) }
        ensures sound { AreInterrupts self.now }
    {
        match self.moments.get(self.delivered) {
            Some(next) => Some(next.at),
            None => None,
        }
    }

    /// Sets the bit of a line, which is below 32.
    #[tactic(auto, unfolding(crate::specs::Interrupts::with_bit))]
    pub fn signal(&mut self, line: u8)
        requires below { line < 32 }
        ensures set { self.new ≡ with_bit self.old line true }
    {
        self.bits[line as usize] = true;
    }

    /// Whether the bit of a line, which is below 32, is set, and clears it.
    #[tactic(auto, unfolding(crate::specs::Interrupts::with_bit))]
    pub fn poll(&mut self, line: u8) -> bool
        requires below { line < 32 }
        ensures was_set { result ≡ is_set self.old line }
        ensures cleared { self.new ≡ with_bit self.old line false }
    {
        let was_set = self.bits[line as usize];
        self.bits[line as usize] = false;
        was_set
    }
}
