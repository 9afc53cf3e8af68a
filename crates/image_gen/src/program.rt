// The program of a domain.
ghost use Rattle.std.specs.Prelude.{◌≡◌, ◌++◌, ◌<◌, ◌≤◌, ◌^◌, IfOk, OnOk};
ghost use Rattle.std.specs.Int.{to_le_bytes, w32};
ghost use Rattle.std.specs.List.{flat_map};
ghost use Rattle.seed_words.specs.Words.{after};
ghost use Rattle.image_gen.specs.Program as spec;

use crate::Memory;
use rand_pcg::Lcg64Xsh32;
use seed_words::draw;
use std::alloc::Global;

/// The opcodes.
const LOAD: u32 = 0b0000011;

const IMMEDIATE: u32 = 0b0010011;

const STORE: u32 = 0b0100011;

const REGISTER: u32 = 0b0110011;

const BRANCH: u32 = 0b1100011;

const SYSTEM: u32 = 0b1110011;

/// The register that has the address of the domain's data.
const BASE: u32 = 5;

/// The number of the counter of cycles.
const CYCLE: u32 = 0xC00;

const ECALL: u32 = 0x00000073;

/// LUI x5 with the address of page 32, and ADDI x17, x0, 1: an ECALL prints.
const FIRST_WORDS: [u32; 2] = [0x000202B7, 0x00100893];

/// ADDI x0, x0, 0 twice, as a branch may skip one instruction; then JAL x0 back
/// by 66 instructions, to the first that is drawn.
const LAST_WORDS: [u32; 3] = [0x00000013, 0x00000013, 0xEF9FF06F];

/// An instruction by its fields, of which `high` is the twelve bits above rs1.
fn encoded(opcode: u32, rd: u32, funct3: u32, rs1: u32, high: u32) -> u32
    requires opcode { opcode < 2 ^ 7 }
    requires rd { rd < 2 ^ 5 }
    requires funct3 { funct3 < 2 ^ 3 }
    requires rs1 { rs1 < 2 ^ 5 }
    requires high { high < 2 ^ 12 }
    ensures value { result ≡ spec.encoded opcode rd funct3 rs1 high }
{
    opcode + (rd << 7) + (funct3 << 12) + (rs1 << 15) + (high << 20)
}

/// The instruction that a word chooses.
#[tactic(auto, unfolding(crate::specs::Program::instruction))]
fn instruction(word: u32) -> u32
    ensures value { result ≡ spec.instruction word }
{
    let r = 6 + word / 8 % 8;
    let s = 6 + word / 64 % 8;
    let number = word / 512 % 2048;
    let offset = number - number % 4;
    match word % 8 {
        0 => encoded(IMMEDIATE, r, 0b000, s, number),
        1 => encoded(REGISTER, r, 0b100, r, s),
        2 => encoded(LOAD, r, 0b010, BASE, offset),
        3 => encoded(STORE, offset % 32, 0b010, BASE, offset / 32 * 32 + r),
        4 => encoded(REGISTER, r, 0b010, s, r),
        5 => encoded(SYSTEM, r, 0b010, 0, CYCLE),
        6 => encoded(BRANCH, 8, 0b000, r, s),
        _ => ECALL,
    }
}

/// The words' bytes in memory, the low one first.
fn bytes_of(alloc: Global, program: &[u32]) -> Result<Vec<u8>, Memory>
    ensures bytes { IfOk result (λ b. b.items ≡ flat_map (to_le_bytes w32) program.now) }
{
    let mut bytes = Vec::new(alloc);
    for word in program {
        bytes.extend_from_slice(&word.to_le_bytes())?;
    }
    Ok(bytes)
}

/// The bytes of the program that the next 64 words choose.
pub fn program(alloc: Global, words: &mut Lcg64Xsh32) -> Result<Vec<u8>, Memory>
    ensures bytes { IfOk result (λ b. b.items ≡ spec.program_bytes words.old) }
    ensures drawn { OnOk result (words.new ≡ after 64 words.old) }
{
    let mut program = Vec::from_array(alloc, FIRST_WORDS)?;
    for drawn in 0..64_u32 {
        program.push(instruction(draw(words)))?;
    }
    program.extend_from_slice(&LAST_WORDS)?;
    bytes_of(alloc, program.as_slice())
}
