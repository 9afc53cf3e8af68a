//! Laws of the definitions: what products and divisions are, in integers, and how
//! many digits a word has.
ghost use Rattle.std.specs.Prelude.{◌≡◌, ◌≢◌, ℕ, ◌+◌, ◌-◌, ◌*◌, ◌^◌, ◌<◌, ◌≤◌, pos, ◌*ℤ◌};
ghost use Rattle.std.specs.Int.{w64, cast_signed};
ghost use Rattle.rv_core.specs.Products.{signed, product_of, division_of, digits_of};
ghost use Rattle.rv_core.specs.Laws.{together, IsDivision, Overflows};

use rv_decode::{Division, Product};

/// The two words of a product are the product, as a number of 64 bits: of MULH and
/// of MULHSU in two's complement.
pub fn products()
    ensures high { (a b : ℕ) → a < 2 ^ 32 → b < 2 ^ 32
        → cast_signed w64 (together (product_of Product.High a b) (product_of Product.Low a b))
        ≡ signed a *ℤ signed b }
    ensures mixed { (a b : ℕ) → a < 2 ^ 32 → b < 2 ^ 32
        → cast_signed w64 (together (product_of Product.HighSignedUnsigned a b) (product_of Product.Low a b))
        ≡ signed a *ℤ pos b }
    ensures unsigned { (a b : ℕ)
        → together (product_of Product.HighUnsigned a b) (product_of Product.Low a b) ≡ a * b }
{}

/// Quotient and remainder give the dividend back, and the remainder is nearer to 0
/// than the divisor. A signed remainder has the dividend's sign.
pub fn divisions()
    ensures division { (a b : ℕ) → a < 2 ^ 32 → b < 2 ^ 32 → b ≢ 0 → ¬ Overflows a b
        → IsDivision (signed a) (signed b)
        (signed (division_of Division.Quotient a b)) (signed (division_of Division.Remainder a b)) }
    ensures whole { (a b : ℕ) → b ≢ 0
        → division_of Division.QuotientUnsigned a b * b + division_of Division.RemainderUnsigned a b ≡ a }
    ensures small { (a b : ℕ) → b ≢ 0 → division_of Division.RemainderUnsigned a b < b }
{}

/// The two cases that are no divisions: one by zero gives all ones and the
/// dividend, and -2^31 by -1 gives -2^31 and 0.
pub fn special_divisions()
    ensures quotient { (a : ℕ) → division_of Division.Quotient a 0 ≡ 0xFFFFFFFF }
    ensures quotient_unsigned { (a : ℕ) → division_of Division.QuotientUnsigned a 0 ≡ 0xFFFFFFFF }
    ensures remainder { (a : ℕ) → division_of Division.Remainder a 0 ≡ a }
    ensures remainder_unsigned { (a : ℕ) → division_of Division.RemainderUnsigned a 0 ≡ a }
    ensures overflow { (a b : ℕ) → Overflows a b → division_of Division.Quotient a b ≡ a }
    ensures overflow_remainder { (a b : ℕ) → Overflows a b → division_of Division.Remainder a b ≡ 0 }
{}

/// A word has d digits where it is below 2^d and, if it is not 0, not below
/// 2^(d - 1).
pub fn digits()
    ensures above { (n : ℕ) → n < 2 ^ 32 → n < 2 ^ digits_of n }
    ensures least { (n : ℕ) → n < 2 ^ 32 → 0 < n → 2 ^ (digits_of n - 1) ≤ n }
    ensures few { (n : ℕ) → digits_of n ≤ 32 }
{}
