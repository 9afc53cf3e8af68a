// What each instruction does.
ghost use Rattle.std.specs.Prelude.{◌≡◌, ℕ, ◌%◌, ◌<◌, [], IfSome};
ghost use Rattle.rv_decode.specs.Ranges.{HasRegisters};
ghost use Rattle.rv_core.specs.Effect.{continuation, register_write, memory_write, exception, arrival, jump, branch, effect_of, NothingElse, IsStore};

use crate::alu::{compute, holds};
use crate::memory::{address, loaded_word, misalignment, store_size, stored_word};
use crate::products::{divide, multiply};
use crate::{Effect, Exception, Regs, Store, Trap};
use rv_decode::{Instr, StoreWidth};

fn go_on(pc: u32) -> Effect
    ensures effect { result ≡ (continuation [] pc).effect }
{
    Effect {
        next: pc.wrapping_add(4),
        store: None,
        taken: false,
        trap: None,
    }
}

fn raise(pc: u32, trap: Trap) -> Effect
    ensures effect { result ≡ (exception [] pc trap).effect }
{
    Effect {
        next: pc,
        store: None,
        taken: false,
        trap: Some(trap),
    }
}

fn write_register(regs: &mut Regs, pc: u32, rd: u8, word: u32) -> Effect
    requires below { rd < 32 }
    ensures regs { regs.new ≡ (register_write regs.old pc rd word).regs }
    ensures effect { result ≡ (register_write regs.old pc rd word).effect }
{
    regs.set(rd, word);
    go_on(pc)
}

fn write_memory(pc: u32, width: StoreWidth, at: u32, word: u32) -> Effect
    ensures effect { result ≡ (memory_write [] pc width at word).effect }
{
    Effect {
        next: pc.wrapping_add(4),
        store: Some(Store {
            at,
            size: store_size(width),
            word: stored_word(width, word),
        }),
        taken: false,
        trap: None,
    }
}

fn arrive(pc: u32, target: u32, taken: bool) -> Effect
    ensures effect { result ≡ (arrival [] [] pc target taken).effect }
{
    if target % 4 != 0 {
        return raise(pc, Exception::InstructionMisaligned.with(target));
    }
    Effect {
        next: target,
        store: None,
        taken,
        trap: None,
    }
}

fn jump(regs: &mut Regs, pc: u32, rd: u8, target: u32) -> Effect
    requires below { rd < 32 }
    ensures regs { regs.new ≡ (jump regs.old pc rd target).regs }
    ensures effect { result ≡ (jump regs.old pc rd target).effect }
{
    let effect = arrive(pc, target, false);
    if effect.trap.is_none() {
        regs.set(rd, pc.wrapping_add(4));
    }
    effect
}

fn branch(pc: u32, target: u32, taken: bool) -> Effect
    ensures effect { result ≡ (branch [] pc target taken).effect }
{
    if taken {
        arrive(pc, target, true)
    } else {
        go_on(pc)
    }
}

// Runs one instruction. What the effects of all instructions have in common is
// proved of the table, in `execute`, and not of each arm here.
#[inline(always)]
fn run(regs: &mut Regs, pc: u32, instr: Instr, loaded: u32) -> Effect
    requires registers { HasRegisters instr }
    ensures regs { regs.new ≡ (effect_of regs.old pc instr loaded).regs }
    ensures effect { result ≡ (effect_of regs.old pc instr loaded).effect }
    ensures store { IfSome result.store IsStore }
{
    match instr {
        Instr::Lui { rd, imm } => write_register(regs, pc, rd, imm),
        Instr::Auipc { rd, imm } => write_register(regs, pc, rd, pc.wrapping_add(imm)),
        Instr::Jal { rd, offset } => jump(regs, pc, rd, pc.wrapping_add(offset)),
        Instr::Jalr { rd, rs1, offset } => {
            let target = regs.get(rs1).wrapping_add(offset) & 0xffff_fffe;
            jump(regs, pc, rd, target)
        }
        Instr::Branch {
            comparison,
            rs1,
            rs2,
            offset,
        } => {
            let taken = holds(comparison, regs.get(rs1), regs.get(rs2));
            branch(pc, pc.wrapping_add(offset), taken)
        }
        Instr::Load { width, rd, .. } => match misalignment(instr, address(regs, instr)) {
            Some(trap) => raise(pc, trap),
            None => write_register(regs, pc, rd, loaded_word(width, loaded)),
        },
        Instr::Store { width, rs2, .. } => {
            let at = address(regs, instr);
            match misalignment(instr, at) {
                Some(trap) => raise(pc, trap),
                None => write_memory(pc, width, at, regs.get(rs2)),
            }
        }
        Instr::Immediate {
            operation,
            rd,
            rs1,
            imm,
        } => {
            let word = compute(operation, regs.get(rs1), imm);
            write_register(regs, pc, rd, word)
        }
        Instr::Register {
            operation,
            rd,
            rs1,
            rs2,
        } => {
            let word = compute(operation, regs.get(rs1), regs.get(rs2));
            write_register(regs, pc, rd, word)
        }
        Instr::Multiply {
            product,
            rd,
            rs1,
            rs2,
        } => {
            multiply(regs, product, rd, rs1, rs2);
            go_on(pc)
        }
        Instr::Divide {
            division,
            rd,
            rs1,
            rs2,
        } => {
            divide(regs, division, rd, rs1, rs2);
            go_on(pc)
        }
        Instr::Fence => go_on(pc),
        Instr::Ecall => raise(pc, Exception::UserCall.with(0)),
        Instr::Ebreak => raise(pc, Exception::Breakpoint.with(pc)),
        Instr::ReadCounter { rd, .. } => write_register(regs, pc, rd, loaded),
    }
}

/// Runs one instruction at the address `pc`, and answers its effect.
///
/// `loaded` is what a load found, with zeros above it, or the value of a counter
/// that is read; for every other instruction it doesn't count. The numbers of
/// the instruction's registers are below 32.
///
/// A jump or a taken branch to an address that is no multiple of 4 traps, as do
/// a misaligned load or store, EBREAK and ECALL; where there is a trap, nothing
/// else changes (RISC-V unprivileged specification, "RV32I Base Integer
/// Instruction Set"). A caller that makes an ECALL's call itself takes the ECALL
/// before it runs it. FENCE changes nothing. No division traps ("M" Extension for
/// Integer Multiplication and Division).
#[inline(always)]
pub fn execute(regs: &mut Regs, pc: u32, instr: Instr, loaded: u32) -> Effect
    requires registers { HasRegisters instr }
    ensures regs { regs.new ≡ (effect_of regs.old pc instr loaded).regs }
    ensures effect { result ≡ (effect_of regs.old pc instr loaded).effect }
    ensures trap { IfSome result.trap (λ _. NothingElse regs.old regs.new pc result) }
    ensures aligned { pc % 4 ≡ 0 → result.next % 4 ≡ 0 }
    ensures store { IfSome result.store IsStore }
{
    run(regs, pc, instr, loaded)
}
