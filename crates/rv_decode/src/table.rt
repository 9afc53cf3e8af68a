// Which instruction a word is.
ghost use Rattle.std.specs.Prelude.{◌≡◌, true, false, IfSome};
ghost use Rattle.rv_decode.specs.Fields.{funct3_of};
ghost use Rattle.rv_decode.specs.Table.{comparison_of, load_width_of, store_width_of};
ghost use Rattle.rv_decode.specs.Table.{immediate_operation_of, register_operation_of, operand_of};
ghost use Rattle.rv_decode.specs.Table.{product_of, division_of, muldiv_of, register_form_of, without_muldiv};
ghost use Rattle.rv_decode.specs.Table.{counter_of, system_of, decode_of};
ghost use Rattle.rv_decode.specs.Words.{IsWordOf};
ghost use Rattle.rv_decode.specs.Ranges.{HasRegisters, HasImmediates};
ghost use Rattle.rv_decode.specs.declared.Instr.{Instr};

use crate::fields::*;
use crate::{Comparison, Counter, Division, Instr, LoadWidth, Operation, Product, StoreWidth};

fn comparison_of(funct3: u32) -> Option<Comparison>
    ensures value { result ≡ comparison_of funct3 }
{
    match funct3 {
        0b000 => Some(Comparison::Equal),
        0b001 => Some(Comparison::NotEqual),
        0b100 => Some(Comparison::Less),
        0b101 => Some(Comparison::GreaterOrEqual),
        0b110 => Some(Comparison::LessUnsigned),
        0b111 => Some(Comparison::GreaterOrEqualUnsigned),
        _ => None,
    }
}

fn load_width_of(funct3: u32) -> Option<LoadWidth>
    ensures value { result ≡ load_width_of funct3 }
{
    match funct3 {
        0b000 => Some(LoadWidth::Byte),
        0b001 => Some(LoadWidth::Half),
        0b010 => Some(LoadWidth::Word),
        0b100 => Some(LoadWidth::ByteUnsigned),
        0b101 => Some(LoadWidth::HalfUnsigned),
        _ => None,
    }
}

fn store_width_of(funct3: u32) -> Option<StoreWidth>
    ensures value { result ≡ store_width_of funct3 }
{
    match funct3 {
        0b000 => Some(StoreWidth::Byte),
        0b001 => Some(StoreWidth::Half),
        0b010 => Some(StoreWidth::Word),
        _ => None,
    }
}

fn immediate_operation_of(funct3: u32, funct7: u32) -> Option<Operation>
    ensures value { result ≡ immediate_operation_of funct3 funct7 }
{
    match (funct3, funct7) {
        (0b000, _) => Some(Operation::Add),
        (0b001, 0b000_0000) => Some(Operation::ShiftLeft),
        (0b010, _) => Some(Operation::SetLess),
        (0b011, _) => Some(Operation::SetLessUnsigned),
        (0b100, _) => Some(Operation::Xor),
        (0b101, 0b000_0000) => Some(Operation::ShiftRight),
        (0b101, 0b010_0000) => Some(Operation::ShiftRightArithmetic),
        (0b110, _) => Some(Operation::Or),
        (0b111, _) => Some(Operation::And),
        _ => None,
    }
}

fn register_operation_of(funct3: u32, funct7: u32) -> Option<Operation>
    ensures value { result ≡ register_operation_of funct3 funct7 }
{
    match (funct7, funct3) {
        (0b000_0000, 0b000) => Some(Operation::Add),
        (0b000_0000, 0b001) => Some(Operation::ShiftLeft),
        (0b000_0000, 0b010) => Some(Operation::SetLess),
        (0b000_0000, 0b011) => Some(Operation::SetLessUnsigned),
        (0b000_0000, 0b100) => Some(Operation::Xor),
        (0b000_0000, 0b101) => Some(Operation::ShiftRight),
        (0b000_0000, 0b110) => Some(Operation::Or),
        (0b000_0000, 0b111) => Some(Operation::And),
        (0b010_0000, 0b000) => Some(Operation::Subtract),
        (0b010_0000, 0b101) => Some(Operation::ShiftRightArithmetic),
        _ => None,
    }
}

fn product_of(funct3: u32) -> Option<Product>
    ensures value { result ≡ product_of funct3 }
{
    match funct3 {
        0b000 => Some(Product::Low),
        0b001 => Some(Product::High),
        0b010 => Some(Product::HighSignedUnsigned),
        0b011 => Some(Product::HighUnsigned),
        _ => None,
    }
}

fn division_of(funct3: u32) -> Option<Division>
    ensures value { result ≡ division_of funct3 }
{
    match funct3 {
        0b100 => Some(Division::Quotient),
        0b101 => Some(Division::QuotientUnsigned),
        0b110 => Some(Division::Remainder),
        0b111 => Some(Division::RemainderUnsigned),
        _ => None,
    }
}

fn muldiv_of(word: u32) -> Option<Instr>
    ensures value { result ≡ muldiv_of word }
{
    if funct3(word) < 0b100 {
        Some(Instr::Multiply {
            product: product_of(funct3(word))?,
            rd: rd(word),
            rs1: rs1(word),
            rs2: rs2(word),
        })
    } else {
        Some(Instr::Divide {
            division: division_of(funct3(word))?,
            rd: rd(word),
            rs1: rs1(word),
            rs2: rs2(word),
        })
    }
}

#[inline(always)]
fn register_form_of(word: u32, muldiv: bool) -> Option<Instr>
    ensures value { result ≡ register_form_of muldiv word }
{
    match funct7(word) {
        0b000_0001 if muldiv => muldiv_of(word),
        _ => Some(Instr::Register {
            operation: register_operation_of(funct3(word), funct7(word))?,
            rd: rd(word),
            rs1: rs1(word),
            rs2: rs2(word),
        }),
    }
}

// The immediate of an operation: a shift keeps its amount where others keep rs2.
fn operand_of(word: u32) -> u32
    ensures value { result ≡ operand_of (funct3_of word) word }
{
    match funct3(word) {
        0b001 | 0b101 => u32::from(rs2(word)),
        _ => immediate_i(word),
    }
}

fn counter_of(csr: u32) -> Option<Counter>
    ensures value { result ≡ counter_of csr }
{
    match csr {
        0xc00 => Some(Counter::Cycle),
        0xc01 => Some(Counter::Time),
        0xc02 => Some(Counter::Instret),
        0xc80 => Some(Counter::CycleHigh),
        0xc81 => Some(Counter::TimeHigh),
        0xc82 => Some(Counter::InstretHigh),
        _ => None,
    }
}

// CSRRS, CSRRC, CSRRSI and CSRRCI only read where their rs1 field is 0.
fn system_of(word: u32) -> Option<Instr>
    ensures value { result ≡ system_of word }
{
    match funct3(word) {
        0b000 => match word {
            0x0000_0073 => Some(Instr::Ecall),
            0x0010_0073 => Some(Instr::Ebreak),
            _ => None,
        },
        0b010 | 0b011 | 0b110 | 0b111 if rs1(word) == 0 => Some(Instr::ReadCounter {
            counter: counter_of(csr(word))?,
            rd: rd(word),
        }),
        _ => None,
    }
}

// What `decode` promises beside the table's instruction is proved of the table,
// there, and not of each arm here.
#[inline(always)]
fn instruction_of(word: u32, muldiv: bool) -> Option<Instr>
    ensures value { result ≡ decode_of muldiv word }
{
    match opcode(word) {
        0b011_0111 => Some(Instr::Lui {
            rd: rd(word),
            imm: immediate_u(word),
        }),
        0b001_0111 => Some(Instr::Auipc {
            rd: rd(word),
            imm: immediate_u(word),
        }),
        0b110_1111 => Some(Instr::Jal {
            rd: rd(word),
            offset: immediate_j(word),
        }),
        0b110_0111 => match funct3(word) {
            0b000 => Some(Instr::Jalr {
                rd: rd(word),
                rs1: rs1(word),
                offset: immediate_i(word),
            }),
            _ => None,
        },
        0b110_0011 => Some(Instr::Branch {
            comparison: comparison_of(funct3(word))?,
            rs1: rs1(word),
            rs2: rs2(word),
            offset: immediate_b(word),
        }),
        0b000_0011 => Some(Instr::Load {
            width: load_width_of(funct3(word))?,
            rd: rd(word),
            rs1: rs1(word),
            offset: immediate_i(word),
        }),
        0b010_0011 => Some(Instr::Store {
            width: store_width_of(funct3(word))?,
            rs1: rs1(word),
            rs2: rs2(word),
            offset: immediate_s(word),
        }),
        0b001_0011 => Some(Instr::Immediate {
            operation: immediate_operation_of(funct3(word), funct7(word))?,
            rd: rd(word),
            rs1: rs1(word),
            imm: operand_of(word),
        }),
        0b011_0011 => register_form_of(word, muldiv),
        0b000_1111 => match funct3(word) {
            0b000 => Some(Instr::Fence),
            _ => None,
        },
        0b111_0011 => system_of(word),
        _ => None,
    }
}

/// The instruction that a word is, `None` where it is none of RV32I's 40
/// instructions and no read of a counter, nor, where `muldiv` says that the
/// machine has products and divisions, one of the M extension's 8. A FENCE
/// counts by its opcode and funct3 alone.
#[inline(always)]
pub fn decode(word: u32, muldiv: bool) -> Option<Instr>
    ensures value { result ≡ decode_of muldiv word }
    ensures word { IfSome result (λ instr. IsWordOf muldiv instr word) }
    ensures registers { IfSome result HasRegisters }
    ensures immediates { IfSome result HasImmediates }
{
    instruction_of(word, muldiv)
}

/// The other direction of `decode`: each word that the manual's table gives an
/// instruction decodes to it, so no instruction has a word that is `None`.
pub fn words_decode(word: u32, muldiv: bool)
    ensures some { (instr : Instr) → IsWordOf muldiv instr word → decode_of muldiv word ≡ Some instr }
    ensures none { decode_of muldiv word ≡ None → (instr : Instr) → ¬ IsWordOf muldiv instr word }
{
    let _ = (word, muldiv);
}

/// What a machine without products and divisions makes of a word: nothing of
/// those, and of each other word the same.
pub fn words_without_muldiv(word: u32)
    ensures rest { decode_of false word ≡ without_muldiv (decode_of true word) }
{
    let _ = word;
}
