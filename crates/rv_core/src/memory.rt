// The addresses of loads and stores, and what goes between memory and registers.
ghost use Rattle.std.specs.Prelude.{◌≡◌, ◌%◌, ◌==◌};
ghost use Rattle.rv_decode.specs.Ranges.{HasRegisters};
ghost use Rattle.rv_core.specs.Memory.{load_size, store_size, loaded_word, stored_word, address_of, misalignment_of};

use crate::{Exception, Regs, Trap};
use rv_decode::{Instr, LoadWidth, StoreWidth};

fn load_is_aligned(width: LoadWidth, at: u32) -> bool
    ensures value { result ≡ (at % load_size width == 0) }
{
    match width {
        LoadWidth::Byte | LoadWidth::ByteUnsigned => true,
        LoadWidth::Half | LoadWidth::HalfUnsigned => at % 2 == 0,
        LoadWidth::Word => at % 4 == 0,
    }
}

fn store_is_aligned(width: StoreWidth, at: u32) -> bool
    ensures value { result ≡ (at % store_size width == 0) }
{
    match width {
        StoreWidth::Byte => true,
        StoreWidth::Half => at % 2 == 0,
        StoreWidth::Word => at % 4 == 0,
    }
}

/// In bytes.
pub fn store_size(width: StoreWidth) -> u8
    ensures value { result ≡ store_size width }
{
    match width {
        StoreWidth::Byte => 1,
        StoreWidth::Half => 2,
        StoreWidth::Word => 4,
    }
}

/// The register's word after a load that found `loaded`, whose bits above the
/// load's size don't count.
pub fn loaded_word(width: LoadWidth, loaded: u32) -> u32
    ensures value { result ≡ loaded_word width loaded }
{
    match width {
        LoadWidth::Byte => {
            let byte = (loaded & 0xff) as u8;
            i32::from(byte.cast_signed()).cast_unsigned()
        }
        LoadWidth::Half => {
            let half = (loaded & 0xffff) as u16;
            i32::from(half.cast_signed()).cast_unsigned()
        }
        LoadWidth::Word => loaded,
        LoadWidth::ByteUnsigned => loaded & 0xff,
        LoadWidth::HalfUnsigned => loaded & 0xffff,
    }
}

/// What a store writes of a register's word.
pub fn stored_word(width: StoreWidth, word: u32) -> u32
    ensures value { result ≡ stored_word width word }
{
    match width {
        StoreWidth::Byte => word & 0xff,
        StoreWidth::Half => word & 0xffff,
        StoreWidth::Word => word,
    }
}

/// The virtual address of a load or a store: the word in rs1 plus the offset,
/// modulo 2^32. For every other instruction it is 0.
pub fn address(regs: &Regs, instr: Instr) -> u32
    requires registers { HasRegisters instr }
    ensures address { result ≡ address_of regs.now instr }
{
    match instr {
        Instr::Load { rs1, offset, .. } | Instr::Store { rs1, offset, .. } => {
            regs.get(rs1).wrapping_add(offset)
        }
        _ => 0,
    }
}

/// The trap of a load or a store at an address that is no multiple of its size:
/// with the address. `None` for every other instruction. It comes before the address is translated; `execute` raises it
/// as well.
pub fn misalignment(instr: Instr, at: u32) -> Option<Trap>
    ensures trap { result ≡ misalignment_of instr at }
{
    match instr {
        Instr::Load { width, .. } if !load_is_aligned(width, at) => {
            Some(Exception::LoadMisaligned.with(at))
        }
        Instr::Store { width, .. } if !store_is_aligned(width, at) => {
            Some(Exception::StoreMisaligned.with(at))
        }
        _ => None,
    }
}
