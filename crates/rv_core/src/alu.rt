// Operations and comparisons on words.
ghost use Rattle.std.specs.Prelude.{◌≡◌};
ghost use Rattle.rv_core.specs.Alu.{value_of, holds};

use rv_decode::{Comparison, Operation};

/// A shift takes the low five bits of `b`.
pub fn compute(operation: Operation, a: u32, b: u32) -> u32
    ensures value { result ≡ value_of operation a b }
{
    match operation {
        Operation::Add => a.wrapping_add(b),
        Operation::Subtract => a.wrapping_sub(b),
        Operation::ShiftLeft => a.wrapping_shl(b),
        Operation::SetLess => u32::from(a.cast_signed() < b.cast_signed()),
        Operation::SetLessUnsigned => u32::from(a < b),
        Operation::Xor => a ^ b,
        Operation::ShiftRight => a.wrapping_shr(b),
        Operation::ShiftRightArithmetic => a.cast_signed().wrapping_shr(b).cast_unsigned(),
        Operation::Or => a | b,
        Operation::And => a & b,
    }
}

pub fn holds(comparison: Comparison, a: u32, b: u32) -> bool
    ensures value { result ≡ holds comparison a b }
{
    match comparison {
        Comparison::Equal => a == b,
        Comparison::NotEqual => a != b,
        Comparison::Less => a.cast_signed() < b.cast_signed(),
        Comparison::GreaterOrEqual => a.cast_signed() >= b.cast_signed(),
        Comparison::LessUnsigned => a < b,
        Comparison::GreaterOrEqualUnsigned => a >= b,
    }
}
