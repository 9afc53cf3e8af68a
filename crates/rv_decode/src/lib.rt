//! The instruction words of RV32I, with the reads of its counters, and of the
//! products and divisions that a machine may have: what each word of 32 bits
//! means, and which words mean nothing. The words are those of the RISC-V
//! unprivileged specification, chapters 'RV32I Base Integer Instruction Set',
//! 'Zicntr' and '"M" Extension for Integer Multiplication and Division'.
//!
//! specs/ says it twice: `Table` is the map from a word to its instruction,
//! `Words` the manual's own table, the fields of each instruction's words. That
//! both are the same is a clause of `decode` and of `words_decode`.
#![tactic(auto)]

mod fields;
mod table;

pub use table::{decode, words_decode, words_without_muldiv};

/// The condition of a branch, on the words of its two registers.
#[derive(Clone, Copy, Debug, PartialEq, Eq)]
pub enum Comparison {
    Equal,
    NotEqual,
    /// As numbers in two's complement.
    Less,
    GreaterOrEqual,
    LessUnsigned,
    GreaterOrEqualUnsigned,
}

/// What a load reads: a byte, a half word of 2 bytes or a word of 4. The first
/// two are sign-extended, the unsigned ones have zeros above.
#[derive(Clone, Copy, Debug, PartialEq, Eq)]
pub enum LoadWidth {
    Byte,
    Half,
    Word,
    ByteUnsigned,
    HalfUnsigned,
}

/// What a store writes: a byte, a half word of 2 bytes or a word of 4.
#[derive(Clone, Copy, Debug, PartialEq, Eq)]
pub enum StoreWidth {
    Byte,
    Half,
    Word,
}

/// An operation on two words.
#[derive(Clone, Copy, Debug, PartialEq, Eq)]
pub enum Operation {
    Add,
    Subtract,
    ShiftLeft,
    /// 1 where the first is less, as numbers in two's complement, else 0.
    SetLess,
    SetLessUnsigned,
    Xor,
    ShiftRight,
    ShiftRightArithmetic,
    Or,
    And,
}

/// A word of the product of two words, which has 64 bits (MUL, MULH, MULHSU, MULHU).
#[derive(Clone, Copy, Debug, PartialEq, Eq)]
pub enum Product {
    /// The same whether the words are signed or not.
    Low,
    /// Of two numbers in two's complement.
    High,
    /// Of a first number in two's complement, and of a second that is unsigned.
    HighSignedUnsigned,
    HighUnsigned,
}

/// What is wanted of a division of two words (DIV, DIVU, REM, REMU).
#[derive(Clone, Copy, Debug, PartialEq, Eq)]
pub enum Division {
    /// Of numbers in two's complement, as is `Remainder`.
    Quotient,
    QuotientUnsigned,
    Remainder,
    RemainderUnsigned,
}

/// A counter of 64 bits, or its high half.
#[derive(Clone, Copy, Debug, PartialEq, Eq)]
pub enum Counter {
    Cycle,
    Time,
    Instret,
    CycleHigh,
    TimeHigh,
    InstretHigh,
}

/// An instruction. Registers are numbered from 0 to 31. Immediates and offsets
/// are words, with negative numbers in two's complement.
#[derive(Clone, Copy, Debug, PartialEq, Eq)]
pub enum Instr {
    /// `imm` is a multiple of 4,096.
    Lui {
        rd: u8,
        imm: u32,
    },
    /// `imm` is a multiple of 4,096.
    Auipc {
        rd: u8,
        imm: u32,
    },
    /// The offset is even, from -2^20 to 2^20 - 2.
    Jal {
        rd: u8,
        offset: u32,
    },
    /// The offset is from -2^11 to 2^11 - 1.
    Jalr {
        rd: u8,
        rs1: u8,
        offset: u32,
    },
    /// The offset is even, from -2^12 to 2^12 - 2.
    Branch {
        comparison: Comparison,
        rs1: u8,
        rs2: u8,
        offset: u32,
    },
    /// The offset is from -2^11 to 2^11 - 1.
    Load {
        width: LoadWidth,
        rd: u8,
        rs1: u8,
        offset: u32,
    },
    /// The word in `rs2` goes to `rs1` plus the offset, from -2^11 to 2^11 - 1.
    Store {
        width: StoreWidth,
        rs1: u8,
        rs2: u8,
        offset: u32,
    },
    /// An operation on a register and an immediate, never `Subtract`. A shift's
    /// immediate is below 32, another's from -2^11 to 2^11 - 1.
    Immediate {
        operation: Operation,
        rd: u8,
        rs1: u8,
        imm: u32,
    },
    /// An operation on two registers.
    Register {
        operation: Operation,
        rd: u8,
        rs1: u8,
        rs2: u8,
    },
    /// A word of a product; on a machine with products and divisions alone.
    Multiply {
        product: Product,
        rd: u8,
        rs1: u8,
        rs2: u8,
    },
    /// A division of the word in `rs1` by that in `rs2`; on such a machine alone.
    Divide {
        division: Division,
        rd: u8,
        rs1: u8,
        rs2: u8,
    },
    /// An order among accesses to memory; its other fields don't count.
    Fence,
    /// A call of the environment.
    Ecall,
    /// A breakpoint.
    Ebreak,
    /// A read of a counter: a CSR instruction that writes nothing.
    ReadCounter {
        counter: Counter,
        rd: u8,
    },
}
