// Words and what they mean, from outside: the words of LLVM's assembler for the
// text in each comment, and words that the manual leaves reserved or gives to
// extensions that are not here.
use rv_decode::Comparison::{
    Equal, GreaterOrEqual, GreaterOrEqualUnsigned, Less, LessUnsigned, NotEqual,
};
use rv_decode::Counter::{Cycle, CycleHigh, Instret, InstretHigh, Time, TimeHigh};
use rv_decode::Division::{Quotient, QuotientUnsigned, Remainder, RemainderUnsigned};
use rv_decode::Instr::{
    Auipc, Branch, Divide, Ebreak, Ecall, Fence, Immediate, Jal, Jalr, Load, Lui, Multiply,
    ReadCounter, Register, Store,
};
use rv_decode::Operation::{
    Add, And, Or, SetLess, SetLessUnsigned, ShiftLeft, ShiftRight, ShiftRightArithmetic, Subtract,
    Xor,
};
use rv_decode::Product::{High, HighSignedUnsigned, HighUnsigned, Low};
use rv_decode::{Instr, LoadWidth, StoreWidth, decode};
use std::process::Abort;

#[rattlefmt::skip]
const UPPER_IMMEDIATES: [(u32, Instr); 12] = [
    // lui x0, 0
    (0x0000_0037, Lui { rd: 0, imm: 0 }),
    // lui x31, 1048575
    (0xffff_ffb7, Lui { rd: 31, imm: 0xffff_f000 }),
    // lui x5, 524288
    (0x8000_02b7, Lui { rd: 5, imm: 0x8000_0000 }),
    // lui x10, 1
    (0x0000_1537, Lui { rd: 10, imm: 0x1000 }),
    // lui x7, 524287
    (0x7fff_f3b7, Lui { rd: 7, imm: 0x7fff_f000 }),
    // lui x16, 74565
    (0x1234_5837, Lui { rd: 16, imm: 0x1234_5000 }),
    // auipc x0, 0
    (0x0000_0017, Auipc { rd: 0, imm: 0 }),
    // auipc x31, 1048575
    (0xffff_ff97, Auipc { rd: 31, imm: 0xffff_f000 }),
    // auipc x5, 524288
    (0x8000_0297, Auipc { rd: 5, imm: 0x8000_0000 }),
    // auipc x10, 1
    (0x0000_1517, Auipc { rd: 10, imm: 0x1000 }),
    // auipc x7, 524287
    (0x7fff_f397, Auipc { rd: 7, imm: 0x7fff_f000 }),
    // auipc x16, 74565
    (0x1234_5817, Auipc { rd: 16, imm: 0x1234_5000 }),
];

#[rattlefmt::skip]
const JUMPS: [(u32, Instr); 13] = [
    // jal x0, 0
    (0x0000_006f, Jal { rd: 0, offset: 0 }),
    // jal x31, -2
    (0xffff_ffef, Jal { rd: 31, offset: 0xffff_fffe }),
    // jal x1, 1048574
    (0x7fff_f0ef, Jal { rd: 1, offset: 0x000f_fffe }),
    // jal x5, -1048576
    (0x8000_02ef, Jal { rd: 5, offset: 0xfff0_0000 }),
    // jal x8, 2048
    (0x0010_046f, Jal { rd: 8, offset: 2048 }),
    // jal x16, 2046
    (0x7fe0_086f, Jal { rd: 16, offset: 2046 }),
    // jal x30, 4096
    (0x0000_1f6f, Jal { rd: 30, offset: 0x1000 }),
    // jal x2, -4
    (0xffdf_f16f, Jal { rd: 2, offset: 0xffff_fffc }),
    // jalr x0, 0(x1)
    (0x0000_8067, Jalr { rd: 0, rs1: 1, offset: 0 }),
    // jalr x31, -1(x31)
    (0xffff_8fe7, Jalr { rd: 31, rs1: 31, offset: 0xffff_ffff }),
    // jalr x1, 2047(x5)
    (0x7ff2_80e7, Jalr { rd: 1, rs1: 5, offset: 2047 }),
    // jalr x5, -2048(x1)
    (0x8000_82e7, Jalr { rd: 5, rs1: 1, offset: 0xffff_f800 }),
    // jalr x8, 1(x16)
    (0x0018_0467, Jalr { rd: 8, rs1: 16, offset: 1 }),
];

#[rattlefmt::skip]
const BRANCHES: [(u32, Instr); 14] = [
    // beq x0, x0, 0
    (0x0000_0063, Branch { comparison: Equal, rs1: 0, rs2: 0, offset: 0 }),
    // beq x31, x31, -2
    (0xffff_8fe3, Branch { comparison: Equal, rs1: 31, rs2: 31, offset: 0xffff_fffe }),
    // beq x1, x1, 4094
    (0x7e10_8fe3, Branch { comparison: Equal, rs1: 1, rs2: 1, offset: 4094 }),
    // beq x16, x20, -4096
    (0x8148_0063, Branch { comparison: Equal, rs1: 16, rs2: 20, offset: 0xffff_f000 }),
    // bne x31, x31, 4094
    (0x7fff_9fe3, Branch { comparison: NotEqual, rs1: 31, rs2: 31, offset: 4094 }),
    // bne x1, x31, -4096
    (0x81f0_9063, Branch { comparison: NotEqual, rs1: 1, rs2: 31, offset: 0xffff_f000 }),
    // blt x1, x2, 2048
    (0x0020_c0e3, Branch { comparison: Less, rs1: 1, rs2: 2, offset: 2048 }),
    // blt x16, x31, 30
    (0x01f8_4f63, Branch { comparison: Less, rs1: 16, rs2: 31, offset: 30 }),
    // bge x16, x8, 2016
    (0x7e88_5063, Branch { comparison: GreaterOrEqual, rs1: 16, rs2: 8, offset: 2016 }),
    // bge x30, x31, 0
    (0x01ff_5063, Branch { comparison: GreaterOrEqual, rs1: 30, rs2: 31, offset: 0 }),
    // bltu x30, x0, -2
    (0xfe0f_6fe3, Branch { comparison: LessUnsigned, rs1: 30, rs2: 0, offset: 0xffff_fffe }),
    // bltu x0, x31, 4094
    (0x7ff0_6fe3, Branch { comparison: LessUnsigned, rs1: 0, rs2: 31, offset: 4094 }),
    // bgeu x0, x0, -4096
    (0x8000_7063, Branch { comparison: GreaterOrEqualUnsigned, rs1: 0, rs2: 0, offset: 0xffff_f000 }),
    // bgeu x31, x31, 2048
    (0x01ff_f0e3, Branch { comparison: GreaterOrEqualUnsigned, rs1: 31, rs2: 31, offset: 2048 }),
];

#[rattlefmt::skip]
const LOADS: [(u32, Instr); 10] = [
    // lb x0, 0(x0)
    (0x0000_0003, Load { width: LoadWidth::Byte, rd: 0, rs1: 0, offset: 0 }),
    // lb x1, -1(x2)
    (0xfff1_0083, Load { width: LoadWidth::Byte, rd: 1, rs1: 2, offset: 0xffff_ffff }),
    // lh x31, 2047(x31)
    (0x7fff_9f83, Load { width: LoadWidth::Half, rd: 31, rs1: 31, offset: 2047 }),
    // lh x16, -2048(x8)
    (0x8004_1803, Load { width: LoadWidth::Half, rd: 16, rs1: 8, offset: 0xffff_f800 }),
    // lw x1, 1(x2)
    (0x0011_2083, Load { width: LoadWidth::Word, rd: 1, rs1: 2, offset: 1 }),
    // lw x30, 32(x0)
    (0x0200_2f03, Load { width: LoadWidth::Word, rd: 30, rs1: 0, offset: 32 }),
    // lbu x16, 0(x8)
    (0x0004_4803, Load { width: LoadWidth::ByteUnsigned, rd: 16, rs1: 8, offset: 0 }),
    // lbu x0, -1(x0)
    (0xfff0_4003, Load { width: LoadWidth::ByteUnsigned, rd: 0, rs1: 0, offset: 0xffff_ffff }),
    // lhu x30, 2047(x0)
    (0x7ff0_5f03, Load { width: LoadWidth::HalfUnsigned, rd: 30, rs1: 0, offset: 2047 }),
    // lhu x31, -2048(x31)
    (0x800f_df83, Load { width: LoadWidth::HalfUnsigned, rd: 31, rs1: 31, offset: 0xffff_f800 }),
];

#[rattlefmt::skip]
const STORES: [(u32, Instr); 6] = [
    // sb x0, 0(x0)
    (0x0000_0023, Store { width: StoreWidth::Byte, rs1: 0, rs2: 0, offset: 0 }),
    // sb x2, -1(x1)
    (0xfe20_8fa3, Store { width: StoreWidth::Byte, rs1: 1, rs2: 2, offset: 0xffff_ffff }),
    // sh x31, 2047(x31)
    (0x7fff_9fa3, Store { width: StoreWidth::Half, rs1: 31, rs2: 31, offset: 2047 }),
    // sh x8, -2048(x16)
    (0x8088_1023, Store { width: StoreWidth::Half, rs1: 16, rs2: 8, offset: 0xffff_f800 }),
    // sw x2, 31(x1)
    (0x0020_afa3, Store { width: StoreWidth::Word, rs1: 1, rs2: 2, offset: 31 }),
    // sw x0, 32(x30)
    (0x020f_2023, Store { width: StoreWidth::Word, rs1: 30, rs2: 0, offset: 32 }),
];

#[rattlefmt::skip]
const IMMEDIATES: [(u32, Instr); 12] = [
    // addi x0, x0, -1
    (0xfff0_0013, Immediate { operation: Add, rd: 0, rs1: 0, imm: 0xffff_ffff }),
    // addi x1, x2, 2047
    (0x7ff1_0093, Immediate { operation: Add, rd: 1, rs1: 2, imm: 2047 }),
    // slti x31, x31, -2048
    (0x800f_af93, Immediate { operation: SetLess, rd: 31, rs1: 31, imm: 0xffff_f800 }),
    // slti x16, x8, 1
    (0x0014_2813, Immediate { operation: SetLess, rd: 16, rs1: 8, imm: 1 }),
    // sltiu x1, x2, 32
    (0x0201_3093, Immediate { operation: SetLessUnsigned, rd: 1, rs1: 2, imm: 32 }),
    // sltiu x30, x0, 0
    (0x0000_3f13, Immediate { operation: SetLessUnsigned, rd: 30, rs1: 0, imm: 0 }),
    // xori x16, x8, -1
    (0xfff4_4813, Immediate { operation: Xor, rd: 16, rs1: 8, imm: 0xffff_ffff }),
    // xori x0, x0, 2047
    (0x7ff0_4013, Immediate { operation: Xor, rd: 0, rs1: 0, imm: 2047 }),
    // ori x30, x0, -2048
    (0x8000_6f13, Immediate { operation: Or, rd: 30, rs1: 0, imm: 0xffff_f800 }),
    // ori x31, x31, 1
    (0x001f_ef93, Immediate { operation: Or, rd: 31, rs1: 31, imm: 1 }),
    // andi x0, x0, 32
    (0x0200_7013, Immediate { operation: And, rd: 0, rs1: 0, imm: 32 }),
    // andi x1, x2, 0
    (0x0001_7093, Immediate { operation: And, rd: 1, rs1: 2, imm: 0 }),
];

#[rattlefmt::skip]
const SHIFTS: [(u32, Instr); 9] = [
    // slli x0, x0, 0
    (0x0000_1013, Immediate { operation: ShiftLeft, rd: 0, rs1: 0, imm: 0 }),
    // slli x1, x2, 31
    (0x01f1_1093, Immediate { operation: ShiftLeft, rd: 1, rs1: 2, imm: 31 }),
    // slli x30, x0, 1
    (0x0010_1f13, Immediate { operation: ShiftLeft, rd: 30, rs1: 0, imm: 1 }),
    // srli x31, x31, 0
    (0x000f_df93, Immediate { operation: ShiftRight, rd: 31, rs1: 31, imm: 0 }),
    // srli x16, x8, 31
    (0x01f4_5813, Immediate { operation: ShiftRight, rd: 16, rs1: 8, imm: 31 }),
    // srli x0, x0, 16
    (0x0100_5013, Immediate { operation: ShiftRight, rd: 0, rs1: 0, imm: 16 }),
    // srai x1, x2, 0
    (0x4001_5093, Immediate { operation: ShiftRightArithmetic, rd: 1, rs1: 2, imm: 0 }),
    // srai x30, x0, 31
    (0x41f0_5f13, Immediate { operation: ShiftRightArithmetic, rd: 30, rs1: 0, imm: 31 }),
    // srai x31, x31, 16
    (0x410f_df93, Immediate { operation: ShiftRightArithmetic, rd: 31, rs1: 31, imm: 16 }),
];

#[rattlefmt::skip]
const REGISTERS: [(u32, Instr); 10] = [
    // add x12, x0, x31
    (0x01f0_0633, Register { operation: Add, rd: 12, rs1: 0, rs2: 31 }),
    // sub x31, x31, x31
    (0x41ff_8fb3, Register { operation: Subtract, rd: 31, rs1: 31, rs2: 31 }),
    // sll x1, x2, x3
    (0x0031_10b3, Register { operation: ShiftLeft, rd: 1, rs1: 2, rs2: 3 }),
    // slt x16, x8, x4
    (0x0044_2833, Register { operation: SetLess, rd: 16, rs1: 8, rs2: 4 }),
    // sltu x30, x0, x17
    (0x0110_3f33, Register { operation: SetLessUnsigned, rd: 30, rs1: 0, rs2: 17 }),
    // xor x0, x15, x16
    (0x0107_c033, Register { operation: Xor, rd: 0, rs1: 15, rs2: 16 }),
    // srl x31, x31, x31
    (0x01ff_dfb3, Register { operation: ShiftRight, rd: 31, rs1: 31, rs2: 31 }),
    // sra x1, x2, x3
    (0x4031_50b3, Register { operation: ShiftRightArithmetic, rd: 1, rs1: 2, rs2: 3 }),
    // or x16, x8, x4
    (0x0044_6833, Register { operation: Or, rd: 16, rs1: 8, rs2: 4 }),
    // and x30, x0, x17
    (0x0110_7f33, Register { operation: And, rd: 30, rs1: 0, rs2: 17 }),
];

#[rattlefmt::skip]
const PRODUCTS_AND_DIVISIONS: [(u32, Instr); 10] = [
    // mul x12, x0, x31
    (0x03f0_0633, Multiply { product: Low, rd: 12, rs1: 0, rs2: 31 }),
    // mul x0, x15, x16
    (0x0307_8033, Multiply { product: Low, rd: 0, rs1: 15, rs2: 16 }),
    // mulh x31, x31, x31
    (0x03ff_9fb3, Multiply { product: High, rd: 31, rs1: 31, rs2: 31 }),
    // mulhsu x1, x2, x3
    (0x0231_20b3, Multiply { product: HighSignedUnsigned, rd: 1, rs1: 2, rs2: 3 }),
    // mulhu x16, x8, x4
    (0x0244_3833, Multiply { product: HighUnsigned, rd: 16, rs1: 8, rs2: 4 }),
    // div x30, x0, x17
    (0x0310_4f33, Divide { division: Quotient, rd: 30, rs1: 0, rs2: 17 }),
    // divu x31, x31, x31
    (0x03ff_dfb3, Divide { division: QuotientUnsigned, rd: 31, rs1: 31, rs2: 31 }),
    // rem x1, x2, x3
    (0x0231_60b3, Divide { division: Remainder, rd: 1, rs1: 2, rs2: 3 }),
    // remu x16, x8, x4
    (0x0244_7833, Divide { division: RemainderUnsigned, rd: 16, rs1: 8, rs2: 4 }),
    // remu x0, x0, x0
    (0x0200_7033, Divide { division: RemainderUnsigned, rd: 0, rs1: 0, rs2: 0 }),
];

#[rattlefmt::skip]
const FENCES_AND_CALLS: [(u32, Instr); 7] = [
    // fence
    (0x0ff0_000f, Fence),
    // fence r, w
    (0x0210_000f, Fence),
    // fence.tso
    (0x8330_000f, Fence),
    // ecall
    (0x0000_0073, Ecall),
    // ebreak
    (0x0010_0073, Ebreak),
    // fence, other fields
    (0xffff_8f8f, Fence),
    // fence rd rs1
    (0x000f_8f8f, Fence),
];

#[rattlefmt::skip]
const COUNTERS: [(u32, Instr); 9] = [
    // csrrs x1, cycle, x0
    (0xc000_20f3, ReadCounter { counter: Cycle, rd: 1 }),
    // csrrs x6, time, x0
    (0xc010_2373, ReadCounter { counter: Time, rd: 6 }),
    // csrrs x11, instret, x0
    (0xc020_25f3, ReadCounter { counter: Instret, rd: 11 }),
    // csrrs x16, cycleh, x0
    (0xc800_2873, ReadCounter { counter: CycleHigh, rd: 16 }),
    // csrrs x21, timeh, x0
    (0xc810_2af3, ReadCounter { counter: TimeHigh, rd: 21 }),
    // csrrs x26, instreth, x0
    (0xc820_2d73, ReadCounter { counter: InstretHigh, rd: 26 }),
    // csrrc x0, cycle, x0
    (0xc000_3073, ReadCounter { counter: Cycle, rd: 0 }),
    // csrrsi x31, timeh, 0
    (0xc810_6ff3, ReadCounter { counter: TimeHigh, rd: 31 }),
    // csrrci x7, instret, 0
    (0xc020_73f3, ReadCounter { counter: Instret, rd: 7 }),
];

// Reserved funct3 of JALR, branches, loads, stores and fences (FENCE.I is among the last).
const RESERVED_FUNCT3: [u32; 24] = [
    0x0041_10e7,
    0x0041_20e7,
    0x0041_30e7,
    0x0041_40e7,
    0x0041_50e7,
    0x0041_60e7,
    0x0041_70e7,
    0x0041_2463,
    0x0041_3463,
    0x0041_3083,
    0x0041_6083,
    0x0041_7083,
    0x0041_3423,
    0x0041_4423,
    0x0041_5423,
    0x0041_6423,
    0x0041_7423,
    0x0000_100f,
    0x0000_200f,
    0x0000_300f,
    0x0000_400f,
    0x0000_500f,
    0x0000_600f,
    0x0000_700f,
];

// Reserved funct7 of shifts by an immediate.
const RESERVED_SHIFTS: [u32; 18] = [
    0x0251_1093,
    0x0451_1093,
    0x0851_1093,
    0x1051_1093,
    0x2051_1093,
    0x4051_1093,
    0x8051_1093,
    0xfe51_1093,
    0x0251_5093,
    0x0451_5093,
    0x0851_5093,
    0x1051_5093,
    0x2051_5093,
    0x4251_5093,
    0x6051_5093,
    0x8051_5093,
    0xc051_5093,
    0xfe51_5093,
];

// Reserved funct7 of operations on two registers.
const RESERVED_OPERATIONS: [u32; 22] = [
    0x4031_10b3,
    0x4031_20b3,
    0x4031_30b3,
    0x4031_40b3,
    0x4031_60b3,
    0x4031_70b3,
    0x0431_00b3,
    0x8031_00b3,
    0x0831_10b3,
    0x4231_10b3,
    0x1031_20b3,
    0xfe31_20b3,
    0x2031_30b3,
    0xc031_30b3,
    0x0631_40b3,
    0x4431_40b3,
    0x0a31_50b3,
    0x6031_50b3,
    0x0c31_60b3,
    0x4831_60b3,
    0x0e31_70b3,
    0x5031_70b3,
];

// All of the M extension on x1, x2 and x3, which a machine may have.
const PRODUCTS: [u32; 8] = [
    // mul, mulh, mulhsu, mulhu
    0x0231_00b3,
    0x0231_10b3,
    0x0231_20b3,
    0x0231_30b3,
    // div, divu, rem, remu
    0x0231_40b3,
    0x0231_50b3,
    0x0231_60b3,
    0x0231_70b3,
];

// Products that differ from those in a bit of their funct7, or in their opcode:
// a shift by an immediate, and words of 64-bit machines.
const NO_PRODUCTS: [u32; 12] = [
    0x0631_00b3,
    0x0a31_00b3,
    0x1231_40b3,
    0x2231_40b3,
    0x4231_00b3,
    0x8231_70b3,
    0x0231_1093,
    0x0231_5093,
    0x0231_00bb,
    0x0231_40bb,
    0x0231_60bb,
    0x0231_70bb,
];

// System words: calls with other fields, returns, waits, writes of counters, other registers.
const SYSTEM_WORDS: [u32; 31] = [
    0x0000_00f3,
    0x0000_8073,
    0x0010_00f3,
    0x0010_8073,
    0x0020_0073,
    0x1020_0073,
    0x3020_0073,
    0x1050_0073,
    0x1200_0073,
    0x8000_0073,
    0xc000_9073,
    0xc000_10f3,
    0xc000_1073,
    0xc010_5073,
    0xc02f_d2f3,
    0xc000_a0f3,
    0xc01f_a073,
    0xc021_30f3,
    0xc800_e0f3,
    0xc818_70f3,
    0x3000_20f3,
    0xc030_20f3,
    0xc830_20f3,
    0xbff0_20f3,
    0xc7f0_20f3,
    0x0000_20f3,
    0xfff0_20f3,
    0x4000_20f3,
    0xb000_20f3,
    0xc000_40f3,
    0xc020_40f3,
];

// Other opcodes: 64-bit words, floats, atomics, vectors, custom and reserved ones.
const OTHER_OPCODES: [u32; 21] = [
    0x0031_0087,
    0x0031_008b,
    0x0031_009b,
    0x0031_009f,
    0x0031_00a7,
    0x0031_00ab,
    0x0031_00af,
    0x0031_00bb,
    0x0031_00bf,
    0x0031_00c3,
    0x0031_00c7,
    0x0031_00cb,
    0x0031_00cf,
    0x0031_00d3,
    0x0031_00d7,
    0x0031_00db,
    0x0031_00df,
    0x0031_00eb,
    0x0031_00f7,
    0x0031_00fb,
    0x0031_00ff,
];

// Compressed words, and each legal opcode with a low bit cleared.
const OTHER_WORDS: [u32; 21] = [
    0x0000_0000,
    0x0000_0001,
    0x0000_0002,
    0x0000_4501,
    0x0000_8082,
    0x0000_9002,
    0x0000_a001,
    0x4505_4501,
    0xffff_fffc,
    0xffff_fffd,
    0xffff_fffe,
    0x0000_00b5,
    0x0000_00b6,
    0x0000_0012,
    0x0000_0011,
    0x0000_0032,
    0x0000_0070,
    0x0010_0071,
    0x0010_0072,
    0x0000_006d,
    0x0000_006e,
];

// On every machine.
fn check(rt: &impl Abort, rows: &[(u32, Instr)]) {
    for (word, instr) in rows {
        assert_eq!(rt; decode(*word, false), Some(*instr), "at {word:08x}");
        assert_eq!(rt; decode(*word, true), Some(*instr), "at {word:08x}");
    }
}

fn check_illegal(rt: &impl Abort, words: &[u32]) {
    for word in words {
        assert_eq!(rt; decode(*word, false), None, "at {word:08x}");
        assert_eq!(rt; decode(*word, true), None, "at {word:08x}");
    }
}

// A table of its own for each test: the prover reads a long one slowly.
#[test]
fn upper_immediates(rt: HostRuntime) {
    check(&rt, &UPPER_IMMEDIATES);
}

#[test]
fn jumps(rt: HostRuntime) {
    check(&rt, &JUMPS);
}

#[test]
fn branches(rt: HostRuntime) {
    check(&rt, &BRANCHES);
}

#[test]
fn loads(rt: HostRuntime) {
    check(&rt, &LOADS);
}

#[test]
fn stores(rt: HostRuntime) {
    check(&rt, &STORES);
}

#[test]
fn immediates(rt: HostRuntime) {
    check(&rt, &IMMEDIATES);
}

#[test]
fn shifts(rt: HostRuntime) {
    check(&rt, &SHIFTS);
}

#[test]
fn registers(rt: HostRuntime) {
    check(&rt, &REGISTERS);
}

#[test]
fn fences_and_calls(rt: HostRuntime) {
    check(&rt, &FENCES_AND_CALLS);
}

#[test]
fn counters(rt: HostRuntime) {
    check(&rt, &COUNTERS);
}

#[test]
fn no_reserved_funct3(rt: HostRuntime) {
    check_illegal(&rt, &RESERVED_FUNCT3);
}

#[test]
fn no_reserved_shifts(rt: HostRuntime) {
    check_illegal(&rt, &RESERVED_SHIFTS);
}

#[test]
fn no_reserved_operations(rt: HostRuntime) {
    check_illegal(&rt, &RESERVED_OPERATIONS);
}

#[test]
fn products_and_divisions(rt: HostRuntime) {
    for (word, instr) in PRODUCTS_AND_DIVISIONS {
        assert_eq!(rt; decode(word, true), Some(instr), "at {word:08x}");
        assert_eq!(rt; decode(word, false), None, "at {word:08x}");
    }
}

#[test]
fn no_products_on_other_machines(rt: HostRuntime) {
    for word in PRODUCTS {
        assert_eq!(rt; decode(word, false), None, "at {word:08x}");
        assert!(rt; decode(word, true).is_some(), "at {word:08x}");
    }
}

#[test]
fn no_words_near_products(rt: HostRuntime) {
    check_illegal(&rt, &NO_PRODUCTS);
}

#[test]
fn no_system_words(rt: HostRuntime) {
    check_illegal(&rt, &SYSTEM_WORDS);
}

#[test]
fn no_other_opcodes(rt: HostRuntime) {
    check_illegal(&rt, &OTHER_OPCODES);
}

#[test]
fn no_other_words(rt: HostRuntime) {
    check_illegal(&rt, &OTHER_WORDS);
}
