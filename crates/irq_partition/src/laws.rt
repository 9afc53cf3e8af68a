//! Laws of the definitions, in the words of moments and lines.
ghost use Rattle.std.specs.Prelude.{◌≡◌, ◌≢◌, ℕ, ◌<◌, ◌≤◌, Bool, List, slice_get, Some};
ghost use Rattle.irq_partition.specs.Interrupts.{
  Interrupts,
  IsBefore,
  AreMoments,
  AreInterrupts,
  none_delivered,
  next_of,
  due,
  delivered,
  after_deliveries,
  is_set,
  with_bit,
};

use crate::Moment;

/// Delivery n, from 0 on, is of moment n: each comes once, in their order, and
/// what is delivered after another is later, or at its cycle of a greater line.
pub fn moments_in_order()
    ensures each { (moments : List Moment) (n : ℕ)
        → next_of (after_deliveries n (none_delivered moments)) ≡ slice_get moments n }
    ensures later { (moments : List Moment) → AreMoments moments → (m n : ℕ) (x y : Moment) → m < n
        → next_of (after_deliveries m (none_delivered moments)) ≡ Some x
        → next_of (after_deliveries n (none_delivered moments)) ≡ Some y → IsBefore x y }
    ensures opening { (moments : List Moment) → AreMoments moments → AreInterrupts (none_delivered moments) }
    ensures sound { (s : Interrupts) (x : Moment) → AreInterrupts s → next_of s ≡ Some x
        → AreInterrupts (delivered s) }
{}

/// The line that is due is that of a moment that isn't delivered and isn't after
/// the clock, and every other such moment is later, or of a greater line at the
/// same cycle.
pub fn due_is_least()
    ensures there { (s : Interrupts) (now line : ℕ) → due now s ≡ Some line
        → (x : Moment) × (next_of s ≡ Some x) × (x.line ≡ line) × (x.at ≤ now) }
    ensures least { (s : Interrupts) (k : ℕ) (x y : Moment) → AreInterrupts s → s.delivered < k
        → next_of s ≡ Some x → slice_get s.moments k ≡ Some y → IsBefore x y }
{}

/// A write of a line's bit is seen at that line, and at no other.
pub fn bits_are_apart()
    ensures own { (s : Interrupts) (line : ℕ) (bit : Bool) → AreInterrupts s → line < 32
        → is_set (with_bit s line bit) line ≡ bit }
    ensures others { (s : Interrupts) (line other : ℕ) (bit : Bool) → other ≢ line
        → is_set (with_bit s line bit) other ≡ is_set s other }
    ensures sound { (s : Interrupts) (line : ℕ) (bit : Bool) → AreInterrupts s
        → AreInterrupts (with_bit s line bit) }
{}
