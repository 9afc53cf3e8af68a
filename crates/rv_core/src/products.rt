// Products and divisions of words, and how long they are.
ghost use Rattle.std.specs.Prelude.{◌≡◌, ◌<◌, ◌≤◌};
ghost use Rattle.rv_core.specs.Registers.{register, with_register};
ghost use Rattle.rv_core.specs.Products.{upper_word, product_of, division_of};
ghost use Rattle.rv_core.specs.Products.{digits_of, dividend_of};

use crate::Regs;
use rv_decode::{Division, Product};

// It fits: a number of 64 bits is shifted down by 32.
fn upper_word(z: i64) -> u32
    ensures value { result ≡ upper_word z }
{
    ((z >> 32) as i32).cast_unsigned()
}

fn compute_product(product: Product, a: u32, b: u32) -> u32
    ensures value { result ≡ product_of product a b }
{
    match product {
        Product::Low => a.wrapping_mul(b),
        Product::High => upper_word(i64::from(a.cast_signed()) * i64::from(b.cast_signed())),
        Product::HighSignedUnsigned => upper_word(i64::from(a.cast_signed()) * i64::from(b)),
        Product::HighUnsigned => ((u64::from(a) * u64::from(b)) >> 32) as u32,
    }
}

// Of `a` by `b`. It never fails: a division by zero gives a quotient of all
// ones and the dividend as remainder, and -2^31 by -1 gives -2^31 and 0.
fn compute_division(division: Division, a: u32, b: u32) -> u32
    ensures value { result ≡ division_of division a b }
{
    if b == 0 {
        return match division {
            Division::Quotient | Division::QuotientUnsigned => u32::MAX,
            Division::Remainder | Division::RemainderUnsigned => a,
        };
    }
    match division {
        Division::Quotient => a
            .cast_signed()
            .wrapping_div(b.cast_signed())
            .cast_unsigned(),
        Division::QuotientUnsigned => a / b,
        Division::Remainder => a
            .cast_signed()
            .wrapping_rem(b.cast_signed())
            .cast_unsigned(),
        Division::RemainderUnsigned => a % b,
    }
}

fn dividend_of(division: Division, a: u32) -> u32
    ensures value { result ≡ dividend_of division a }
{
    match division {
        Division::Quotient | Division::Remainder => a.cast_signed().unsigned_abs(),
        Division::QuotientUnsigned | Division::RemainderUnsigned => a,
    }
}

fn digits_of(word: u32) -> u32
    ensures value { result ≡ digits_of word }
    ensures few { result ≤ 32 }
{
    32 - word.leading_zeros()
}

/// How many binary digits the magnitude of a dividend has, up to 32; 0 has none.
/// DIVU and REMU read it unsigned.
pub fn division_digits(division: Division, dividend: u32) -> u32
    ensures value { result ≡ digits_of (dividend_of division dividend) }
    ensures few { result ≤ 32 }
{
    digits_of(dividend_of(division, dividend))
}

/// Puts a product of two registers into a third; the numbers are below 32.
pub fn multiply(regs: &mut Regs, product: Product, rd: u8, rs1: u8, rs2: u8)
    requires rd { rd < 32 }
    requires rs1 { rs1 < 32 }
    requires rs2 { rs2 < 32 }
    ensures written { regs.new ≡ with_register regs.old rd
        (product_of product (register regs.old rs1) (register regs.old rs2)) }
{
    let word = compute_product(product, regs.get(rs1), regs.get(rs2));
    regs.set(rd, word);
}

/// Puts a quotient or a remainder of two registers into a third; the numbers are
/// below 32.
pub fn divide(regs: &mut Regs, division: Division, rd: u8, rs1: u8, rs2: u8)
    requires rd { rd < 32 }
    requires rs1 { rs1 < 32 }
    requires rs2 { rs2 < 32 }
    ensures written { regs.new ≡ with_register regs.old rd
        (division_of division (register regs.old rs1) (register regs.old rs2)) }
{
    let word = compute_division(division, regs.get(rs1), regs.get(rs2));
    regs.set(rd, word);
}
