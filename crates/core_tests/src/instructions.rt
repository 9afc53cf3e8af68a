// Words, and what they do, from outside: the words are those of LLVM's assembler
// for the texts in the comments, the values were computed by a C program under
// gcc, and the rest was worked out from the manual.
use rv_core::{Effect, Exception, Regs, Store, Trap, address, execute, misalignment};
use rv_decode::decode;
use std::process::Abort;

mod products;

// The program counter of each instruction that doesn't name its own.
const PC: u32 = 0x0001_0000;

// Of operations on x5 and x6: the word, the words in both, and then in x7.
#[rattlefmt::skip]
const ADD_AND_SUB: [(u32, u32, u32, u32); 30] = [
    // add x7, x5, x6
    (0x0062_83b3, 0, 0, 0), (0x0062_83b3, 1, 1, 2),
    (0x0062_83b3, 0, 1, 1), (0x0062_83b3, 0xffff_ffff, 1, 0),
    (0x0062_83b3, 1, 0xffff_ffff, 0), (0x0062_83b3, 0xffff_ffff, 0xffff_ffff, 0xffff_fffe),
    (0x0062_83b3, 0, 0xffff_ffff, 0xffff_ffff), (0x0062_83b3, 0x8000_0000, 1, 0x8000_0001),
    (0x0062_83b3, 1, 0x8000_0000, 0x8000_0001), (0x0062_83b3, 0x7fff_ffff, 1, 0x8000_0000),
    (0x0062_83b3, 0x8000_0000, 0x7fff_ffff, 0xffff_ffff), (0x0062_83b3, 0x7fff_ffff, 0x8000_0000, 0xffff_ffff),
    (0x0062_83b3, 0x8000_0000, 0x8000_0000, 0), (0x0062_83b3, 0x8000_0000, 0xffff_ffff, 0x7fff_ffff),
    (0x0062_83b3, 0x1234_5678, 0x0f0f_f0f0, 0x2144_4768),
    // sub x7, x5, x6
    (0x4062_83b3, 0, 0, 0), (0x4062_83b3, 1, 1, 0),
    (0x4062_83b3, 0, 1, 0xffff_ffff), (0x4062_83b3, 0xffff_ffff, 1, 0xffff_fffe),
    (0x4062_83b3, 1, 0xffff_ffff, 2), (0x4062_83b3, 0xffff_ffff, 0xffff_ffff, 0),
    (0x4062_83b3, 0, 0xffff_ffff, 1), (0x4062_83b3, 0x8000_0000, 1, 0x7fff_ffff),
    (0x4062_83b3, 1, 0x8000_0000, 0x8000_0001), (0x4062_83b3, 0x7fff_ffff, 1, 0x7fff_fffe),
    (0x4062_83b3, 0x8000_0000, 0x7fff_ffff, 1), (0x4062_83b3, 0x7fff_ffff, 0x8000_0000, 0xffff_ffff),
    (0x4062_83b3, 0x8000_0000, 0x8000_0000, 0), (0x4062_83b3, 0x8000_0000, 0xffff_ffff, 0x8000_0001),
    (0x4062_83b3, 0x1234_5678, 0x0f0f_f0f0, 0x0324_6588),
];

#[rattlefmt::skip]
const SLL: [(u32, u32, u32, u32); 24] = [
    // sll x7, x5, x6
    (0x0062_93b3, 1, 0, 1), (0x0062_93b3, 1, 1, 2),
    (0x0062_93b3, 1, 0x1f, 0x8000_0000), (0x0062_93b3, 1, 0x20, 1),
    (0x0062_93b3, 1, 0x21, 2), (0x0062_93b3, 1, 0xffff_ffff, 0x8000_0000),
    (0x0062_93b3, 0xffff_ffff, 0, 0xffff_ffff), (0x0062_93b3, 0xffff_ffff, 1, 0xffff_fffe),
    (0x0062_93b3, 0xffff_ffff, 0x1f, 0x8000_0000), (0x0062_93b3, 0xffff_ffff, 0x20, 0xffff_ffff),
    (0x0062_93b3, 0xffff_ffff, 0x21, 0xffff_fffe), (0x0062_93b3, 0xffff_ffff, 0xffff_ffff, 0x8000_0000),
    (0x0062_93b3, 0x8000_0000, 0, 0x8000_0000), (0x0062_93b3, 0x8000_0000, 1, 0),
    (0x0062_93b3, 0x8000_0000, 0x1f, 0), (0x0062_93b3, 0x8000_0000, 0x20, 0x8000_0000),
    (0x0062_93b3, 0x8000_0000, 0x21, 0), (0x0062_93b3, 0x8000_0000, 0xffff_ffff, 0),
    (0x0062_93b3, 0x7fff_ffff, 0, 0x7fff_ffff), (0x0062_93b3, 0x7fff_ffff, 1, 0xffff_fffe),
    (0x0062_93b3, 0x7fff_ffff, 0x1f, 0x8000_0000), (0x0062_93b3, 0x7fff_ffff, 0x20, 0x7fff_ffff),
    (0x0062_93b3, 0x7fff_ffff, 0x21, 0xffff_fffe), (0x0062_93b3, 0x7fff_ffff, 0xffff_ffff, 0x8000_0000),
];

#[rattlefmt::skip]
const SLT_AND_SLTU: [(u32, u32, u32, u32); 30] = [
    // slt x7, x5, x6
    (0x0062_a3b3, 0, 0, 0), (0x0062_a3b3, 1, 1, 0),
    (0x0062_a3b3, 0, 1, 1), (0x0062_a3b3, 0xffff_ffff, 1, 1),
    (0x0062_a3b3, 1, 0xffff_ffff, 0), (0x0062_a3b3, 0xffff_ffff, 0xffff_ffff, 0),
    (0x0062_a3b3, 0, 0xffff_ffff, 0), (0x0062_a3b3, 0x8000_0000, 1, 1),
    (0x0062_a3b3, 1, 0x8000_0000, 0), (0x0062_a3b3, 0x7fff_ffff, 1, 0),
    (0x0062_a3b3, 0x8000_0000, 0x7fff_ffff, 1), (0x0062_a3b3, 0x7fff_ffff, 0x8000_0000, 0),
    (0x0062_a3b3, 0x8000_0000, 0x8000_0000, 0), (0x0062_a3b3, 0x8000_0000, 0xffff_ffff, 1),
    (0x0062_a3b3, 0x1234_5678, 0x0f0f_f0f0, 0),
    // sltu x7, x5, x6
    (0x0062_b3b3, 0, 0, 0), (0x0062_b3b3, 1, 1, 0),
    (0x0062_b3b3, 0, 1, 1), (0x0062_b3b3, 0xffff_ffff, 1, 0),
    (0x0062_b3b3, 1, 0xffff_ffff, 1), (0x0062_b3b3, 0xffff_ffff, 0xffff_ffff, 0),
    (0x0062_b3b3, 0, 0xffff_ffff, 1), (0x0062_b3b3, 0x8000_0000, 1, 0),
    (0x0062_b3b3, 1, 0x8000_0000, 1), (0x0062_b3b3, 0x7fff_ffff, 1, 0),
    (0x0062_b3b3, 0x8000_0000, 0x7fff_ffff, 0), (0x0062_b3b3, 0x7fff_ffff, 0x8000_0000, 1),
    (0x0062_b3b3, 0x8000_0000, 0x8000_0000, 0), (0x0062_b3b3, 0x8000_0000, 0xffff_ffff, 1),
    (0x0062_b3b3, 0x1234_5678, 0x0f0f_f0f0, 0),
];

#[rattlefmt::skip]
const XOR_OR_AND: [(u32, u32, u32, u32); 45] = [
    // xor x7, x5, x6
    (0x0062_c3b3, 0, 0, 0), (0x0062_c3b3, 1, 1, 0),
    (0x0062_c3b3, 0, 1, 1), (0x0062_c3b3, 0xffff_ffff, 1, 0xffff_fffe),
    (0x0062_c3b3, 1, 0xffff_ffff, 0xffff_fffe), (0x0062_c3b3, 0xffff_ffff, 0xffff_ffff, 0),
    (0x0062_c3b3, 0, 0xffff_ffff, 0xffff_ffff), (0x0062_c3b3, 0x8000_0000, 1, 0x8000_0001),
    (0x0062_c3b3, 1, 0x8000_0000, 0x8000_0001), (0x0062_c3b3, 0x7fff_ffff, 1, 0x7fff_fffe),
    (0x0062_c3b3, 0x8000_0000, 0x7fff_ffff, 0xffff_ffff), (0x0062_c3b3, 0x7fff_ffff, 0x8000_0000, 0xffff_ffff),
    (0x0062_c3b3, 0x8000_0000, 0x8000_0000, 0), (0x0062_c3b3, 0x8000_0000, 0xffff_ffff, 0x7fff_ffff),
    (0x0062_c3b3, 0x1234_5678, 0x0f0f_f0f0, 0x1d3b_a688),
    // or x7, x5, x6
    (0x0062_e3b3, 0, 0, 0), (0x0062_e3b3, 1, 1, 1),
    (0x0062_e3b3, 0, 1, 1), (0x0062_e3b3, 0xffff_ffff, 1, 0xffff_ffff),
    (0x0062_e3b3, 1, 0xffff_ffff, 0xffff_ffff), (0x0062_e3b3, 0xffff_ffff, 0xffff_ffff, 0xffff_ffff),
    (0x0062_e3b3, 0, 0xffff_ffff, 0xffff_ffff), (0x0062_e3b3, 0x8000_0000, 1, 0x8000_0001),
    (0x0062_e3b3, 1, 0x8000_0000, 0x8000_0001), (0x0062_e3b3, 0x7fff_ffff, 1, 0x7fff_ffff),
    (0x0062_e3b3, 0x8000_0000, 0x7fff_ffff, 0xffff_ffff), (0x0062_e3b3, 0x7fff_ffff, 0x8000_0000, 0xffff_ffff),
    (0x0062_e3b3, 0x8000_0000, 0x8000_0000, 0x8000_0000), (0x0062_e3b3, 0x8000_0000, 0xffff_ffff, 0xffff_ffff),
    (0x0062_e3b3, 0x1234_5678, 0x0f0f_f0f0, 0x1f3f_f6f8),
    // and x7, x5, x6
    (0x0062_f3b3, 0, 0, 0), (0x0062_f3b3, 1, 1, 1),
    (0x0062_f3b3, 0, 1, 0), (0x0062_f3b3, 0xffff_ffff, 1, 1),
    (0x0062_f3b3, 1, 0xffff_ffff, 1), (0x0062_f3b3, 0xffff_ffff, 0xffff_ffff, 0xffff_ffff),
    (0x0062_f3b3, 0, 0xffff_ffff, 0), (0x0062_f3b3, 0x8000_0000, 1, 0),
    (0x0062_f3b3, 1, 0x8000_0000, 0), (0x0062_f3b3, 0x7fff_ffff, 1, 1),
    (0x0062_f3b3, 0x8000_0000, 0x7fff_ffff, 0), (0x0062_f3b3, 0x7fff_ffff, 0x8000_0000, 0),
    (0x0062_f3b3, 0x8000_0000, 0x8000_0000, 0x8000_0000), (0x0062_f3b3, 0x8000_0000, 0xffff_ffff, 0x8000_0000),
    (0x0062_f3b3, 0x1234_5678, 0x0f0f_f0f0, 0x0204_5070),
];

#[rattlefmt::skip]
const SRL: [(u32, u32, u32, u32); 24] = [
    // srl x7, x5, x6
    (0x0062_d3b3, 1, 0, 1), (0x0062_d3b3, 1, 1, 0),
    (0x0062_d3b3, 1, 0x1f, 0), (0x0062_d3b3, 1, 0x20, 1),
    (0x0062_d3b3, 1, 0x21, 0), (0x0062_d3b3, 1, 0xffff_ffff, 0),
    (0x0062_d3b3, 0xffff_ffff, 0, 0xffff_ffff), (0x0062_d3b3, 0xffff_ffff, 1, 0x7fff_ffff),
    (0x0062_d3b3, 0xffff_ffff, 0x1f, 1), (0x0062_d3b3, 0xffff_ffff, 0x20, 0xffff_ffff),
    (0x0062_d3b3, 0xffff_ffff, 0x21, 0x7fff_ffff), (0x0062_d3b3, 0xffff_ffff, 0xffff_ffff, 1),
    (0x0062_d3b3, 0x8000_0000, 0, 0x8000_0000), (0x0062_d3b3, 0x8000_0000, 1, 0x4000_0000),
    (0x0062_d3b3, 0x8000_0000, 0x1f, 1), (0x0062_d3b3, 0x8000_0000, 0x20, 0x8000_0000),
    (0x0062_d3b3, 0x8000_0000, 0x21, 0x4000_0000), (0x0062_d3b3, 0x8000_0000, 0xffff_ffff, 1),
    (0x0062_d3b3, 0x7fff_ffff, 0, 0x7fff_ffff), (0x0062_d3b3, 0x7fff_ffff, 1, 0x3fff_ffff),
    (0x0062_d3b3, 0x7fff_ffff, 0x1f, 0), (0x0062_d3b3, 0x7fff_ffff, 0x20, 0x7fff_ffff),
    (0x0062_d3b3, 0x7fff_ffff, 0x21, 0x3fff_ffff), (0x0062_d3b3, 0x7fff_ffff, 0xffff_ffff, 0),
];

#[rattlefmt::skip]
const SRA: [(u32, u32, u32, u32); 24] = [
    // sra x7, x5, x6
    (0x4062_d3b3, 1, 0, 1), (0x4062_d3b3, 1, 1, 0),
    (0x4062_d3b3, 1, 0x1f, 0), (0x4062_d3b3, 1, 0x20, 1),
    (0x4062_d3b3, 1, 0x21, 0), (0x4062_d3b3, 1, 0xffff_ffff, 0),
    (0x4062_d3b3, 0xffff_ffff, 0, 0xffff_ffff), (0x4062_d3b3, 0xffff_ffff, 1, 0xffff_ffff),
    (0x4062_d3b3, 0xffff_ffff, 0x1f, 0xffff_ffff), (0x4062_d3b3, 0xffff_ffff, 0x20, 0xffff_ffff),
    (0x4062_d3b3, 0xffff_ffff, 0x21, 0xffff_ffff), (0x4062_d3b3, 0xffff_ffff, 0xffff_ffff, 0xffff_ffff),
    (0x4062_d3b3, 0x8000_0000, 0, 0x8000_0000), (0x4062_d3b3, 0x8000_0000, 1, 0xc000_0000),
    (0x4062_d3b3, 0x8000_0000, 0x1f, 0xffff_ffff), (0x4062_d3b3, 0x8000_0000, 0x20, 0x8000_0000),
    (0x4062_d3b3, 0x8000_0000, 0x21, 0xc000_0000), (0x4062_d3b3, 0x8000_0000, 0xffff_ffff, 0xffff_ffff),
    (0x4062_d3b3, 0x7fff_ffff, 0, 0x7fff_ffff), (0x4062_d3b3, 0x7fff_ffff, 1, 0x3fff_ffff),
    (0x4062_d3b3, 0x7fff_ffff, 0x1f, 0), (0x4062_d3b3, 0x7fff_ffff, 0x20, 0x7fff_ffff),
    (0x4062_d3b3, 0x7fff_ffff, 0x21, 0x3fff_ffff), (0x4062_d3b3, 0x7fff_ffff, 0xffff_ffff, 0),
];

// Of operations on x5 and an immediate: the word, the word in x5, and then in x7.
#[rattlefmt::skip]
const ADDI: [(u32, u32, u32); 13] = [
    // addi x7, x5, 0
    (0x0002_8393, 0x7fff_ffff, 0x7fff_ffff),
    // addi x7, x5, 1
    (0x0012_8393, 0x7fff_ffff, 0x8000_0000),
    // addi x7, x5, -1
    (0xfff2_8393, 0, 0xffff_ffff), (0xfff2_8393, 1, 0),
    (0xfff2_8393, 0xffff_ffff, 0xffff_fffe), (0xfff2_8393, 0x8000_0000, 0x7fff_ffff),
    (0xfff2_8393, 0x7fff_ffff, 0x7fff_fffe),
    // addi x7, x5, 2047
    (0x7ff2_8393, 0, 0x7ff), (0x7ff2_8393, 0xffff_ffff, 0x7fe),
    (0x7ff2_8393, 0x8000_0000, 0x8000_07ff),
    // addi x7, x5, -2048
    (0x8002_8393, 0, 0xffff_f800), (0x8002_8393, 0xffff_ffff, 0xffff_f7ff),
    (0x8002_8393, 0x8000_0000, 0x7fff_f800),
];

#[rattlefmt::skip]
const SLTI_AND_SLTIU: [(u32, u32, u32); 26] = [
    // slti x7, x5, 0
    (0x0002_a393, 0x7fff_ffff, 0),
    // slti x7, x5, 1
    (0x0012_a393, 0x7fff_ffff, 0),
    // slti x7, x5, -1
    (0xfff2_a393, 0, 0), (0xfff2_a393, 1, 0),
    (0xfff2_a393, 0xffff_ffff, 0), (0xfff2_a393, 0x8000_0000, 1),
    (0xfff2_a393, 0x7fff_ffff, 0),
    // slti x7, x5, 2047
    (0x7ff2_a393, 0, 1), (0x7ff2_a393, 0xffff_ffff, 1),
    (0x7ff2_a393, 0x8000_0000, 1),
    // slti x7, x5, -2048
    (0x8002_a393, 0, 0), (0x8002_a393, 0xffff_ffff, 0),
    (0x8002_a393, 0x8000_0000, 1),
    // sltiu x7, x5, 0
    (0x0002_b393, 0x7fff_ffff, 0),
    // sltiu x7, x5, 1
    (0x0012_b393, 0x7fff_ffff, 0),
    // sltiu x7, x5, -1
    (0xfff2_b393, 0, 1), (0xfff2_b393, 1, 1),
    (0xfff2_b393, 0xffff_ffff, 0), (0xfff2_b393, 0x8000_0000, 1),
    (0xfff2_b393, 0x7fff_ffff, 1),
    // sltiu x7, x5, 2047
    (0x7ff2_b393, 0, 1), (0x7ff2_b393, 0xffff_ffff, 0),
    (0x7ff2_b393, 0x8000_0000, 0),
    // sltiu x7, x5, -2048
    (0x8002_b393, 0, 1), (0x8002_b393, 0xffff_ffff, 0),
    (0x8002_b393, 0x8000_0000, 1),
];

#[rattlefmt::skip]
const XORI_ORI_ANDI: [(u32, u32, u32); 39] = [
    // xori x7, x5, 0
    (0x0002_c393, 0x7fff_ffff, 0x7fff_ffff),
    // xori x7, x5, 1
    (0x0012_c393, 0x7fff_ffff, 0x7fff_fffe),
    // xori x7, x5, -1
    (0xfff2_c393, 0, 0xffff_ffff), (0xfff2_c393, 1, 0xffff_fffe),
    (0xfff2_c393, 0xffff_ffff, 0), (0xfff2_c393, 0x8000_0000, 0x7fff_ffff),
    (0xfff2_c393, 0x7fff_ffff, 0x8000_0000),
    // xori x7, x5, 2047
    (0x7ff2_c393, 0, 0x7ff), (0x7ff2_c393, 0xffff_ffff, 0xffff_f800),
    (0x7ff2_c393, 0x8000_0000, 0x8000_07ff),
    // xori x7, x5, -2048
    (0x8002_c393, 0, 0xffff_f800), (0x8002_c393, 0xffff_ffff, 0x7ff),
    (0x8002_c393, 0x8000_0000, 0x7fff_f800),
    // ori x7, x5, 0
    (0x0002_e393, 0x7fff_ffff, 0x7fff_ffff),
    // ori x7, x5, 1
    (0x0012_e393, 0x7fff_ffff, 0x7fff_ffff),
    // ori x7, x5, -1
    (0xfff2_e393, 0, 0xffff_ffff), (0xfff2_e393, 1, 0xffff_ffff),
    (0xfff2_e393, 0xffff_ffff, 0xffff_ffff), (0xfff2_e393, 0x8000_0000, 0xffff_ffff),
    (0xfff2_e393, 0x7fff_ffff, 0xffff_ffff),
    // ori x7, x5, 2047
    (0x7ff2_e393, 0, 0x7ff), (0x7ff2_e393, 0xffff_ffff, 0xffff_ffff),
    (0x7ff2_e393, 0x8000_0000, 0x8000_07ff),
    // ori x7, x5, -2048
    (0x8002_e393, 0, 0xffff_f800), (0x8002_e393, 0xffff_ffff, 0xffff_ffff),
    (0x8002_e393, 0x8000_0000, 0xffff_f800),
    // andi x7, x5, 0
    (0x0002_f393, 0x7fff_ffff, 0),
    // andi x7, x5, 1
    (0x0012_f393, 0x7fff_ffff, 1),
    // andi x7, x5, -1
    (0xfff2_f393, 0, 0), (0xfff2_f393, 1, 1),
    (0xfff2_f393, 0xffff_ffff, 0xffff_ffff), (0xfff2_f393, 0x8000_0000, 0x8000_0000),
    (0xfff2_f393, 0x7fff_ffff, 0x7fff_ffff),
    // andi x7, x5, 2047
    (0x7ff2_f393, 0, 0), (0x7ff2_f393, 0xffff_ffff, 0x7ff),
    (0x7ff2_f393, 0x8000_0000, 0),
    // andi x7, x5, -2048
    (0x8002_f393, 0, 0), (0x8002_f393, 0xffff_ffff, 0xffff_f800),
    (0x8002_f393, 0x8000_0000, 0x8000_0000),
];

#[rattlefmt::skip]
const SLLI_SRLI_SRAI: [(u32, u32, u32); 27] = [
    // slli x7, x5, 0
    (0x0002_9393, 1, 1), (0x0002_9393, 0xffff_ffff, 0xffff_ffff),
    (0x0002_9393, 0x8000_0000, 0x8000_0000),
    // slli x7, x5, 1
    (0x0012_9393, 1, 2), (0x0012_9393, 0xffff_ffff, 0xffff_fffe),
    (0x0012_9393, 0x8000_0000, 0),
    // slli x7, x5, 31
    (0x01f2_9393, 1, 0x8000_0000), (0x01f2_9393, 0xffff_ffff, 0x8000_0000),
    (0x01f2_9393, 0x8000_0000, 0),
    // srli x7, x5, 0
    (0x0002_d393, 1, 1), (0x0002_d393, 0xffff_ffff, 0xffff_ffff),
    (0x0002_d393, 0x8000_0000, 0x8000_0000),
    // srli x7, x5, 1
    (0x0012_d393, 1, 0), (0x0012_d393, 0xffff_ffff, 0x7fff_ffff),
    (0x0012_d393, 0x8000_0000, 0x4000_0000),
    // srli x7, x5, 31
    (0x01f2_d393, 1, 0), (0x01f2_d393, 0xffff_ffff, 1),
    (0x01f2_d393, 0x8000_0000, 1),
    // srai x7, x5, 0
    (0x4002_d393, 1, 1), (0x4002_d393, 0xffff_ffff, 0xffff_ffff),
    (0x4002_d393, 0x8000_0000, 0x8000_0000),
    // srai x7, x5, 1
    (0x4012_d393, 1, 0), (0x4012_d393, 0xffff_ffff, 0xffff_ffff),
    (0x4012_d393, 0x8000_0000, 0xc000_0000),
    // srai x7, x5, 31
    (0x41f2_d393, 1, 0), (0x41f2_d393, 0xffff_ffff, 0xffff_ffff),
    (0x41f2_d393, 0x8000_0000, 0xffff_ffff),
];

// Of branches on x5 and x6 back by 2,048 bytes: the word, the words in both, and
// whether it is taken.
#[rattlefmt::skip]
const BRANCHES: [(u32, u32, u32, bool); 42] = [
    // beq x5, x6, -2048
    (0x8062_80e3, 0, 0, true), (0x8062_80e3, 0, 0xffff_ffff, false),
    (0x8062_80e3, 0xffff_ffff, 0, false), (0x8062_80e3, 1, 0x8000_0000, false),
    (0x8062_80e3, 0x8000_0000, 0x7fff_ffff, false), (0x8062_80e3, 0x7fff_ffff, 0x8000_0000, false),
    (0x8062_80e3, 0xffff_ffff, 0xffff_ffff, true),
    // bne x5, x6, -2048
    (0x8062_90e3, 0, 0, false), (0x8062_90e3, 0, 0xffff_ffff, true),
    (0x8062_90e3, 0xffff_ffff, 0, true), (0x8062_90e3, 1, 0x8000_0000, true),
    (0x8062_90e3, 0x8000_0000, 0x7fff_ffff, true), (0x8062_90e3, 0x7fff_ffff, 0x8000_0000, true),
    (0x8062_90e3, 0xffff_ffff, 0xffff_ffff, false),
    // blt x5, x6, -2048
    (0x8062_c0e3, 0, 0, false), (0x8062_c0e3, 0, 0xffff_ffff, false),
    (0x8062_c0e3, 0xffff_ffff, 0, true), (0x8062_c0e3, 1, 0x8000_0000, false),
    (0x8062_c0e3, 0x8000_0000, 0x7fff_ffff, true), (0x8062_c0e3, 0x7fff_ffff, 0x8000_0000, false),
    (0x8062_c0e3, 0xffff_ffff, 0xffff_ffff, false),
    // bge x5, x6, -2048
    (0x8062_d0e3, 0, 0, true), (0x8062_d0e3, 0, 0xffff_ffff, true),
    (0x8062_d0e3, 0xffff_ffff, 0, false), (0x8062_d0e3, 1, 0x8000_0000, true),
    (0x8062_d0e3, 0x8000_0000, 0x7fff_ffff, false), (0x8062_d0e3, 0x7fff_ffff, 0x8000_0000, true),
    (0x8062_d0e3, 0xffff_ffff, 0xffff_ffff, true),
    // bltu x5, x6, -2048
    (0x8062_e0e3, 0, 0, false), (0x8062_e0e3, 0, 0xffff_ffff, true),
    (0x8062_e0e3, 0xffff_ffff, 0, false), (0x8062_e0e3, 1, 0x8000_0000, true),
    (0x8062_e0e3, 0x8000_0000, 0x7fff_ffff, false), (0x8062_e0e3, 0x7fff_ffff, 0x8000_0000, true),
    (0x8062_e0e3, 0xffff_ffff, 0xffff_ffff, false),
    // bgeu x5, x6, -2048
    (0x8062_f0e3, 0, 0, true), (0x8062_f0e3, 0, 0xffff_ffff, false),
    (0x8062_f0e3, 0xffff_ffff, 0, true), (0x8062_f0e3, 1, 0x8000_0000, false),
    (0x8062_f0e3, 0x8000_0000, 0x7fff_ffff, true), (0x8062_f0e3, 0x7fff_ffff, 0x8000_0000, false),
    (0x8062_f0e3, 0xffff_ffff, 0xffff_ffff, true),
];

// Of stores of x6 at x5 plus 2,047: the word, the words in both, the address, the
// size in bytes, and what is stored; nothing where the address is misaligned.
#[rattlefmt::skip]
const STORES: [(u32, u32, u32, u32, u8, Option<u32>); 15] = [
    // sb x6, 2047(x5)
    (0x7e62_8fa3, 0xffff_f801, 0x1234_5678, 0, 1, Some(0x78)),
    (0x7e62_8fa3, 0xffff_f802, 0xffff_ffff, 1, 1, Some(0xff)),
    (0x7e62_8fa3, 0x0001_0001, 0x8000_8080, 0x0001_0800, 1, Some(0x80)),
    (0x7e62_8fa3, 0x0001_0004, 0x7fff_7f7f, 0x0001_0803, 1, Some(0x7f)),
    (0x7e62_8fa3, 0xffff_f800, 0x89ab_cdef, 0xffff_ffff, 1, Some(0xef)),
    // sh x6, 2047(x5)
    (0x7e62_9fa3, 0xffff_f801, 0x1234_5678, 0, 2, Some(0x5678)),
    (0x7e62_9fa3, 0xffff_f802, 0xffff_ffff, 1, 2, None),
    (0x7e62_9fa3, 0x0001_0001, 0x8000_8080, 0x0001_0800, 2, Some(0x8080)),
    (0x7e62_9fa3, 0x0001_0004, 0x7fff_7f7f, 0x0001_0803, 2, None),
    (0x7e62_9fa3, 0xffff_f800, 0x89ab_cdef, 0xffff_ffff, 2, None),
    // sw x6, 2047(x5)
    (0x7e62_afa3, 0xffff_f801, 0x1234_5678, 0, 4, Some(0x1234_5678)),
    (0x7e62_afa3, 0xffff_f802, 0xffff_ffff, 1, 4, None),
    (0x7e62_afa3, 0x0001_0001, 0x8000_8080, 0x0001_0800, 4, Some(0x8000_8080)),
    (0x7e62_afa3, 0x0001_0004, 0x7fff_7f7f, 0x0001_0803, 4, None),
    (0x7e62_afa3, 0xffff_f800, 0x89ab_cdef, 0xffff_ffff, 4, None),
];

// Of loads: the word, the word in x5, what memory holds, the address, and then x7;
// nothing where the address is misaligned.
#[rattlefmt::skip]
const LB_AND_LH: [(u32, u32, u32, u32, Option<u32>); 22] = [
    // lb x7, -4(x5)
    (0xffc2_8383, 0x8004, 0, 0x8000, Some(0)), (0xffc2_8383, 0x8004, 0x7f, 0x8000, Some(0x7f)),
    (0xffc2_8383, 0x8004, 0x80, 0x8000, Some(0xffff_ff80)), (0xffc2_8383, 0x8004, 0xff, 0x8000, Some(0xffff_ffff)),
    (0xffc2_8383, 0x8004, 0x12, 0x8000, Some(0x12)),
    // lh x7, -4(x5)
    (0xffc2_9383, 0x8004, 0, 0x8000, Some(0)), (0xffc2_9383, 0x8004, 0x7fff, 0x8000, Some(0x7fff)),
    (0xffc2_9383, 0x8004, 0x8000, 0x8000, Some(0xffff_8000)), (0xffc2_9383, 0x8004, 0xffff, 0x8000, Some(0xffff_ffff)),
    (0xffc2_9383, 0x8004, 0x80, 0x8000, Some(0x80)),
    // lb x7, 2047(x5)
    (0x7ff2_8383, 0xffff_f801, 0x17, 0, Some(0x17)), (0x7ff2_8383, 0xffff_f802, 0x17, 1, Some(0x17)),
    (0x7ff2_8383, 0x0001_0001, 0x17, 0x0001_0800, Some(0x17)), (0x7ff2_8383, 0x0001_0002, 0x17, 0x0001_0801, Some(0x17)),
    (0x7ff2_8383, 0x0001_0003, 0x17, 0x0001_0802, Some(0x17)), (0x7ff2_8383, 0x0001_0004, 0x17, 0x0001_0803, Some(0x17)),
    // lh x7, 2047(x5)
    (0x7ff2_9383, 0xffff_f801, 0x17, 0, Some(0x17)), (0x7ff2_9383, 0xffff_f802, 0x17, 1, None),
    (0x7ff2_9383, 0x0001_0001, 0x17, 0x0001_0800, Some(0x17)), (0x7ff2_9383, 0x0001_0002, 0x17, 0x0001_0801, None),
    (0x7ff2_9383, 0x0001_0003, 0x17, 0x0001_0802, Some(0x17)), (0x7ff2_9383, 0x0001_0004, 0x17, 0x0001_0803, None),
];

#[rattlefmt::skip]
const LW: [(u32, u32, u32, u32, Option<u32>); 10] = [
    // lw x7, -4(x5)
    (0xffc2_a383, 0x8004, 0, 0x8000, Some(0)), (0xffc2_a383, 0x8004, 0xffff_ffff, 0x8000, Some(0xffff_ffff)),
    (0xffc2_a383, 0x8004, 0x8000_0000, 0x8000, Some(0x8000_0000)), (0xffc2_a383, 0x8004, 0x7fff_ffff, 0x8000, Some(0x7fff_ffff)),
    // lw x7, 2047(x5)
    (0x7ff2_a383, 0xffff_f801, 0x17, 0, Some(0x17)), (0x7ff2_a383, 0xffff_f802, 0x17, 1, None),
    (0x7ff2_a383, 0x0001_0001, 0x17, 0x0001_0800, Some(0x17)), (0x7ff2_a383, 0x0001_0002, 0x17, 0x0001_0801, None),
    (0x7ff2_a383, 0x0001_0003, 0x17, 0x0001_0802, None), (0x7ff2_a383, 0x0001_0004, 0x17, 0x0001_0803, None),
];

#[rattlefmt::skip]
const LBU_AND_LHU: [(u32, u32, u32, u32, Option<u32>); 20] = [
    // lbu x7, -4(x5)
    (0xffc2_c383, 0x8004, 0, 0x8000, Some(0)), (0xffc2_c383, 0x8004, 0x7f, 0x8000, Some(0x7f)),
    (0xffc2_c383, 0x8004, 0x80, 0x8000, Some(0x80)), (0xffc2_c383, 0x8004, 0xff, 0x8000, Some(0xff)),
    // lhu x7, -4(x5)
    (0xffc2_d383, 0x8004, 0, 0x8000, Some(0)), (0xffc2_d383, 0x8004, 0x7fff, 0x8000, Some(0x7fff)),
    (0xffc2_d383, 0x8004, 0x8000, 0x8000, Some(0x8000)), (0xffc2_d383, 0x8004, 0xffff, 0x8000, Some(0xffff)),
    // lbu x7, 2047(x5)
    (0x7ff2_c383, 0xffff_f801, 0x17, 0, Some(0x17)), (0x7ff2_c383, 0xffff_f802, 0x17, 1, Some(0x17)),
    (0x7ff2_c383, 0x0001_0001, 0x17, 0x0001_0800, Some(0x17)), (0x7ff2_c383, 0x0001_0002, 0x17, 0x0001_0801, Some(0x17)),
    (0x7ff2_c383, 0x0001_0003, 0x17, 0x0001_0802, Some(0x17)), (0x7ff2_c383, 0x0001_0004, 0x17, 0x0001_0803, Some(0x17)),
    // lhu x7, 2047(x5)
    (0x7ff2_d383, 0xffff_f801, 0x17, 0, Some(0x17)), (0x7ff2_d383, 0xffff_f802, 0x17, 1, None),
    (0x7ff2_d383, 0x0001_0001, 0x17, 0x0001_0800, Some(0x17)), (0x7ff2_d383, 0x0001_0002, 0x17, 0x0001_0801, None),
    (0x7ff2_d383, 0x0001_0003, 0x17, 0x0001_0802, Some(0x17)), (0x7ff2_d383, 0x0001_0004, 0x17, 0x0001_0803, None),
];

// Of everything else: the word, its place, the words in x5 and x6, what is loaded;
// then x7, which was 0x7777, the next place, whether it is a branch taken, and
// the trap's code and value.
#[rattlefmt::skip]
const LUI_AND_AUIPC: [(u32, [u32; 4], u32, u32, bool, Option<(Exception, u32)>); 7] = [
    // lui x7, 0x80000
    (0x8000_03b7, [0x0001_0000, 0, 0, 0], 0x8000_0000, 0x0001_0004, false, None),
    // lui x7, 0xfffff
    (0xffff_f3b7, [0x0001_0000, 0, 0, 0], 0xffff_f000, 0x0001_0004, false, None),
    // lui x7, 0
    (0x0000_03b7, [0x0001_0000, 0, 0, 0], 0, 0x0001_0004, false, None),
    // auipc x7, 0
    (0x0000_0397, [0x0001_0000, 0, 0, 0], 0x0001_0000, 0x0001_0004, false, None),
    // auipc x7, 0xfffff
    (0xffff_f397, [0x0001_0000, 0, 0, 0], 0xf000, 0x0001_0004, false, None),
    // auipc x7, 0x80000
    (0x8000_0397, [0x8000_0ffc, 0, 0, 0], 0xffc, 0x8000_1000, false, None),
    // auipc x7, 1
    (0x0000_1397, [0xffff_fffc, 0, 0, 0], 0xffc, 0, false, None),
];

#[rattlefmt::skip]
const JAL: [(u32, [u32; 4], u32, u32, bool, Option<(Exception, u32)>); 7] = [
    // jal x7, 0
    (0x0000_03ef, [0x0001_0000, 0, 0, 0], 0x0001_0004, 0x0001_0000, false, None),
    // jal x7, 0xffffc
    (0x7fdf_f3ef, [0x0001_0000, 0, 0, 0], 0x0001_0004, 0x0010_fffc, false, None),
    // jal x7, -0x100000
    (0x8000_03ef, [0x0001_0000, 0, 0, 0], 0x0001_0004, 0xfff1_0000, false, None),
    // jal x7, 8
    (0x0080_03ef, [0xffff_fffc, 0, 0, 0], 0, 4, false, None),
    // jal x7, 2
    (0x0020_03ef, [0x0001_0000, 0, 0, 0], 0x7777, 0x0001_0000, false, Some((Exception::InstructionMisaligned, 0x0001_0002))),
    // jal x7, -2
    (0xffff_f3ef, [0x0001_0000, 0, 0, 0], 0x7777, 0x0001_0000, false, Some((Exception::InstructionMisaligned, 0xfffe))),
    // jal x0, 16
    (0x0100_006f, [0x0001_0000, 0, 0, 0], 0x7777, 0x0001_0010, false, None),
];

#[rattlefmt::skip]
const JALR: [(u32, [u32; 4], u32, u32, bool, Option<(Exception, u32)>); 10] = [
    // jalr x7, 0(x5)
    (0x0002_83e7, [0x0001_0000, 0x0002_0000, 0, 0], 0x0001_0004, 0x0002_0000, false, None),
    // jalr x7, 1(x5)
    (0x0012_83e7, [0x0001_0000, 0x0002_0000, 0, 0], 0x0001_0004, 0x0002_0000, false, None),
    // jalr x7, 2047(x5)
    (0x7ff2_83e7, [0x0001_0000, 0x0002_0001, 0, 0], 0x0001_0004, 0x0002_0800, false, None),
    // jalr x7, -2048(x5)
    (0x8002_83e7, [0x0001_0000, 0x100, 0, 0], 0x0001_0004, 0xffff_f900, false, None),
    // jalr x7, -1(x5)
    (0xfff2_83e7, [0x0001_0000, 0, 0, 0], 0x7777, 0x0001_0000, false, Some((Exception::InstructionMisaligned, 0xffff_fffe))),
    // jalr x7, 2(x5)
    (0x0022_83e7, [0x0001_0000, 0, 0, 0], 0x7777, 0x0001_0000, false, Some((Exception::InstructionMisaligned, 2))),
    // jalr x7, 0(x5)
    (0x0002_83e7, [0x0001_0000, 0x0002_0003, 0, 0], 0x7777, 0x0001_0000, false, Some((Exception::InstructionMisaligned, 0x0002_0002))),
    // jalr x7, 1(x7)
    (0x0013_83e7, [0x0001_0000, 0, 0, 0], 0x0001_0004, 0x7778, false, None),
    // jalr x7, 0(x7)
    (0x0003_83e7, [0x0001_0000, 0, 0, 0], 0x7777, 0x0001_0000, false, Some((Exception::InstructionMisaligned, 0x7776))),
    // jalr x0, 0(x5)
    (0x0002_8067, [0x0001_0000, 0xffff_fffd, 0, 0], 0x7777, 0xffff_fffc, false, None),
];

#[rattlefmt::skip]
const ENDS_OF_BRANCHES: [(u32, [u32; 4], u32, u32, bool, Option<(Exception, u32)>); 9] = [
    // beq x5, x6, 2
    (0x0062_8163, [0x0001_0000, 1, 1, 0], 0x7777, 0x0001_0000, false, Some((Exception::InstructionMisaligned, 0x0001_0002))),
    // beq x5, x6, 2
    (0x0062_8163, [0x0001_0000, 1, 2, 0], 0x7777, 0x0001_0004, false, None),
    // bne x5, x6, -2
    (0xfe62_9fe3, [0x0001_0000, 1, 2, 0], 0x7777, 0x0001_0000, false, Some((Exception::InstructionMisaligned, 0xfffe))),
    // bne x5, x6, -2
    (0xfe62_9fe3, [0x0001_0000, 1, 1, 0], 0x7777, 0x0001_0004, false, None),
    // blt x5, x6, 4094
    (0x7e62_cfe3, [0x0001_0000, 0xffff_ffff, 0, 0], 0x7777, 0x0001_0000, false, Some((Exception::InstructionMisaligned, 0x0001_0ffe))),
    // bge x5, x6, 4094
    (0x7e62_dfe3, [0x0001_0000, 0xffff_ffff, 0, 0], 0x7777, 0x0001_0004, false, None),
    // bgeu x5, x6, 4092
    (0x7e62_fee3, [0x0001_0000, 0xffff_ffff, 0, 0], 0x7777, 0x0001_0ffc, true, None),
    // bltu x5, x6, -4096
    (0x8062_e063, [0x0001_0000, 0, 0xffff_ffff, 0], 0x7777, 0xf000, true, None),
    // beq x5, x5, 4
    (0x0052_8263, [0xffff_fffc, 9, 0, 0], 0x7777, 0, true, None),
];

#[rattlefmt::skip]
const FENCES_AND_CALLS: [(u32, [u32; 4], u32, u32, bool, Option<(Exception, u32)>); 5] = [
    // fence
    (0x0ff0_000f, [0x0001_0000, 1, 2, 0], 0x7777, 0x0001_0004, false, None),
    // ecall
    (0x0000_0073, [0x0001_0000, 1, 2, 0], 0x7777, 0x0001_0000, false, Some((Exception::UserCall, 0))),
    // ebreak
    (0x0010_0073, [0x0001_0000, 1, 2, 0], 0x7777, 0x0001_0000, false, Some((Exception::Breakpoint, 0x0001_0000))),
    // ebreak
    (0x0010_0073, [0xffff_fffc, 1, 2, 0], 0x7777, 0xffff_fffc, false, Some((Exception::Breakpoint, 0xffff_fffc))),
    // fence
    (0x0ff0_000f, [0xffff_fffc, 1, 2, 0], 0x7777, 0, false, None),
];

#[rattlefmt::skip]
const COUNTERS: [(u32, [u32; 4], u32, u32, bool, Option<(Exception, u32)>); 7] = [
    // csrrs x7, cycle, x0
    (0xc000_23f3, [0x0001_0000, 1, 2, 0xffff_ffff], 0xffff_ffff, 0x0001_0004, false, None),
    // csrrs x7, time, x0
    (0xc010_23f3, [0x0001_0000, 1, 2, 0x8000_0000], 0x8000_0000, 0x0001_0004, false, None),
    // csrrs x7, instret, x0
    (0xc020_23f3, [0x0001_0000, 1, 2, 5], 5, 0x0001_0004, false, None),
    // csrrs x7, cycleh, x0
    (0xc800_23f3, [0x0001_0000, 1, 2, 0], 0, 0x0001_0004, false, None),
    // csrrs x7, timeh, x0
    (0xc810_23f3, [0x0001_0000, 1, 2, 1], 1, 0x0001_0004, false, None),
    // csrrs x7, instreth, x0
    (0xc820_23f3, [0x0001_0000, 1, 2, 0x7fff_ffff], 0x7fff_ffff, 0x0001_0004, false, None),
    // csrrs x0, cycle, x0
    (0xc000_2073, [0x0001_0000, 1, 2, 9], 0x7777, 0x0001_0004, false, None),
];

#[rattlefmt::skip]
const REGISTER_ZERO_AND_SELF: [(u32, [u32; 4], u32, u32, bool, Option<(Exception, u32)>); 5] = [
    // addi x0, x5, 1
    (0x0012_8013, [0x0001_0000, 1, 2, 0], 0x7777, 0x0001_0004, false, None),
    // add x7, x0, x0
    (0x0000_03b3, [0x0001_0000, 1, 2, 0], 0, 0x0001_0004, false, None),
    // sub x7, x0, x6
    (0x4060_03b3, [0x0001_0000, 1, 2, 0], 0xffff_fffe, 0x0001_0004, false, None),
    // add x7, x7, x7
    (0x0073_83b3, [0x0001_0000, 1, 2, 0], 0xeeee, 0x0001_0004, false, None),
    // lui x0, 1
    (0x0000_1037, [0x0001_0000, 0, 0, 0], 0x7777, 0x0001_0004, false, None),
];

/// All that an instruction leaves, with its address and that address's trap.
#[derive(Clone, Copy, Debug, PartialEq, Eq)]
struct Outcome {
    regs: Regs,
    effect: Effect,
    at: u32,
    misaligned: Option<Trap>,
}

// Registers of which x5, x6 and x7 have these words, and the others their numbers.
fn registers(x5: u32, x6: u32, x7: u32) -> Regs {
    let mut regs = Regs::new();
    for x in 0..32u8 {
        regs.set(x, u32::from(x));
    }
    regs.set(5, x5);
    regs.set(6, x6);
    regs.set(7, x7);
    regs
}

// x7 is 0x7777 before.
fn ran(word: u32, pc: u32, x5: u32, x6: u32, loaded: u32) -> Option<Outcome> {
    let instr = decode(word, true)?;
    let mut regs = registers(x5, x6, 0x7777);
    let at = address(&regs, instr);
    let effect = execute(&mut regs, pc, instr, loaded);
    Some(Outcome {
        regs,
        effect,
        at,
        misaligned: misalignment(instr, at),
    })
}

// What is left without an access to memory.
fn left(regs: Regs, next: u32, taken: bool, trap: Option<Trap>) -> Outcome {
    Outcome {
        regs,
        effect: Effect {
            next,
            store: None,
            taken,
            trap,
        },
        at: 0,
        misaligned: None,
    }
}

fn compare(rt: &impl Abort, word: u32, x5: u32, x6: u32, ran: Option<Outcome>, wanted: Outcome) {
    assert_eq!(rt; ran, Some(wanted), "at {word:08x} {x5:x} {x6:x}");
}

// A table of its own for each test: the prover reads a long one slowly.
fn check_operations(rt: &impl Abort, rows: &[(u32, u32, u32, u32)]) {
    for (word, x5, x6, x7) in rows {
        let wanted = left(registers(*x5, *x6, *x7), PC + 4, false, None);
        let found = ran(*word, PC, *x5, *x6, 0);
        compare(rt, *word, *x5, *x6, found, wanted);
    }
}

#[test]
fn add_and_sub(rt: HostRuntime) {
    check_operations(&rt, &ADD_AND_SUB);
}

#[test]
fn sll(rt: HostRuntime) {
    check_operations(&rt, &SLL);
}

#[test]
fn slt_and_sltu(rt: HostRuntime) {
    check_operations(&rt, &SLT_AND_SLTU);
}

#[test]
fn xor_or_and(rt: HostRuntime) {
    check_operations(&rt, &XOR_OR_AND);
}

#[test]
fn srl(rt: HostRuntime) {
    check_operations(&rt, &SRL);
}

#[test]
fn sra(rt: HostRuntime) {
    check_operations(&rt, &SRA);
}

fn check_operations_on_immediates(rt: &impl Abort, rows: &[(u32, u32, u32)]) {
    for (word, x5, x7) in rows {
        let wanted = left(registers(*x5, 6, *x7), PC + 4, false, None);
        compare(rt, *word, *x5, 6, ran(*word, PC, *x5, 6, 0), wanted);
    }
}

#[test]
fn addi(rt: HostRuntime) {
    check_operations_on_immediates(&rt, &ADDI);
}

#[test]
fn slti_and_sltiu(rt: HostRuntime) {
    check_operations_on_immediates(&rt, &SLTI_AND_SLTIU);
}

#[test]
fn xori_ori_andi(rt: HostRuntime) {
    check_operations_on_immediates(&rt, &XORI_ORI_ANDI);
}

#[test]
fn slli_srli_srai(rt: HostRuntime) {
    check_operations_on_immediates(&rt, &SLLI_SRLI_SRAI);
}

#[test]
fn branches(rt: HostRuntime) {
    for (word, x5, x6, taken) in BRANCHES {
        let next = if taken { PC - 2048 } else { PC + 4 };
        let wanted = left(registers(x5, x6, 0x7777), next, taken, None);
        compare(&rt, word, x5, x6, ran(word, PC, x5, x6, 0), wanted);
    }
}

fn check_loads(rt: &impl Abort, rows: &[(u32, u32, u32, u32, Option<u32>)]) {
    for (word, x5, loaded, at, x7) in rows {
        let trap = match x7 {
            Some(_) => None,
            None => Some(Exception::LoadMisaligned.with(*at)),
        };
        let next = if x7.is_some() { PC + 4 } else { PC };
        let regs = registers(*x5, 6, x7.unwrap_or(0x7777));
        let wanted = Outcome {
            at: *at,
            misaligned: trap,
            ..left(regs, next, false, trap)
        };
        let found = ran(*word, PC, *x5, 6, *loaded);
        compare(rt, *word, *x5, *loaded, found, wanted);
    }
}

#[test]
fn lb_and_lh(rt: HostRuntime) {
    check_loads(&rt, &LB_AND_LH);
}

#[test]
fn lw(rt: HostRuntime) {
    check_loads(&rt, &LW);
}

#[test]
fn lbu_and_lhu(rt: HostRuntime) {
    check_loads(&rt, &LBU_AND_LHU);
}

// What is left of a store; nothing is stored where its address is misaligned.
fn left_by_store(regs: Regs, at: u32, size: u8, stored: Option<u32>) -> Outcome {
    let misaligned = match stored {
        Some(_) => None,
        None => Some(Exception::StoreMisaligned.with(at)),
    };
    Outcome {
        regs,
        effect: Effect {
            next: if stored.is_some() { PC + 4 } else { PC },
            store: stored.map(|word| Store { at, size, word }),
            taken: false,
            trap: misaligned,
        },
        at,
        misaligned,
    }
}

#[test]
fn stores(rt: HostRuntime) {
    for (word, x5, x6, at, size, stored) in STORES {
        let wanted = left_by_store(registers(x5, x6, 0x7777), at, size, stored);
        compare(&rt, word, x5, x6, ran(word, PC, x5, x6, 0), wanted);
    }
}

// A row of everything else.
type Other = (u32, [u32; 4], u32, u32, bool, Option<(Exception, u32)>);

fn check_others(rt: &impl Abort, rows: &[Other]) {
    for (word, [pc, x5, x6, loaded], x7, next, taken, trap) in rows {
        let trap = trap.map(|(exception, value)| exception.with(value));
        let wanted = left(registers(*x5, *x6, *x7), *next, *taken, trap);
        let found = ran(*word, *pc, *x5, *x6, *loaded);
        compare(rt, *word, *x5, *x6, found, wanted);
    }
}

// The codes of the manual, which reports give.
#[test]
fn codes_of_exceptions(rt: HostRuntime) {
    assert_eq!(rt; Exception::StoreAccessFault.code(), 7);
    assert_eq!(rt; Exception::UserCall.code(), 8);
    assert_eq!(rt; Exception::InstructionPageFault.code(), 12);
    assert_eq!(rt; Exception::StorePageFault.code(), 15);
}

#[test]
fn lui_and_auipc(rt: HostRuntime) {
    check_others(&rt, &LUI_AND_AUIPC);
}

#[test]
fn jal(rt: HostRuntime) {
    check_others(&rt, &JAL);
}

#[test]
fn jalr(rt: HostRuntime) {
    check_others(&rt, &JALR);
}

#[test]
fn ends_of_branches(rt: HostRuntime) {
    check_others(&rt, &ENDS_OF_BRANCHES);
}

#[test]
fn fences_and_calls(rt: HostRuntime) {
    check_others(&rt, &FENCES_AND_CALLS);
}

#[test]
fn counters(rt: HostRuntime) {
    check_others(&rt, &COUNTERS);
}

#[test]
fn register_zero_and_self(rt: HostRuntime) {
    check_others(&rt, &REGISTER_ZERO_AND_SELF);
}
