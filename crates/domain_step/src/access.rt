// A domain's accesses to its memory, by its page tables. Each adds what it
// charged to the cycles spent, also where it ends with an exception.
ghost use Rattle.std.specs.Prelude.{◌≡◌, ◌+◌, ◌⊎◌, ◌*◌, ◌/◌, ◌%◌, ◌^◌, ◌<◌, ◌≤◌, IfOk, IfSome};
ghost use Rattle.cycle_cost.specs.Ranges.{most_look, most_data};
ghost use Rattle.phys_mem.specs.Address.{frame_of, word_place};
ghost use Rattle.phys_mem.specs.Holds.{Holds};
ghost use Rattle.phys_mem.specs.Mem.{Mem, word};
ghost use Rattle.page_map.specs.Tables.{StandsWith};
ghost use Rattle.rv_core.specs.Effect.{IsStore};
ghost use Rattle.rv_core.specs.Memory.{load_size};
ghost use Rattle.cap_table.specs.Slots.{Slots};
ghost use Rattle.mem_system.specs.Contents.{system};
ghost use Rattle.mem_system.specs.Translation.{KeepsLeaves};
ghost use Rattle.world_view.specs.Event as spec;
ghost use Rattle.world_view.specs.Machine.{Setting};
ghost use Rattle.domain_step.specs.Kept.{Kept};
ghost use Rattle.domain_step.specs.Moves.{Finds, frame_found, stored};

use l2_colour::L2;
use mem_system::OnCore;
use phys_mem::PhysMem;
use rv_core::{Exception, Store, Trap};
use rv_decode::LoadWidth;
use set_cache::Policy;
use sv32_walk::{Access, WalkFault};
use tp_base::FrameNo;

// ---- translation

// The exception of an access whose walk faults.
fn fault_of(access: Access, fault: WalkFault) -> Exception
    ensures value { result ≡ spec.fault_of access fault }
{
    match (access, fault) {
        (Access::Fetch, WalkFault::Page) => Exception::InstructionPageFault,
        (Access::Load, WalkFault::Page) => Exception::LoadPageFault,
        (Access::Store, WalkFault::Page) => Exception::StorePageFault,
        (Access::Fetch, WalkFault::Access) => Exception::InstructionAccessFault,
        (Access::Load, WalkFault::Access) => Exception::LoadAccessFault,
        (Access::Store, WalkFault::Access) => Exception::StoreAccessFault,
    }
}

/// The physical address of a virtual one, by the page tables of a root, or the
/// exception of a walk that faults.
#[inline(always)]
pub fn translate<P: Policy>(
    memory: &PhysMem,
    core: &mut OnCore<P>,
    l2: &mut L2<P>,
    spent: &mut u32,
    root: FrameNo,
    access: Access,
    va: u32,
) -> Result<u32, Trap>
    requires frames { memory.now.frames ≤ 2 ^ 15 }
    requires leaves { StandsWith memory.now
        (λ m. KeepsLeaves m memory.now.frames root core.old.tlb) }
    requires spent { spent.old < 2 ^ 31 }
    ensures finds { (w : Setting) (caps : Slots)
        → Finds w (λ d. spec.translate w.machine root d access va) (frame_found result)
        (Kept P.rule P.stands_for w caps root memory.now (system core.old l2.old) spent.old)
        (Kept P.rule P.stands_for w caps root memory.now (system core.new l2.new) spent.new) }
    ensures leaves { StandsWith memory.now
        (λ m. KeepsLeaves m memory.now.frames root core.new.tlb) }
    ensures within { IfOk result (λ at. frame_of at < memory.now.frames) }
    ensures place { IfOk result (λ at. at % 4096 ≡ va % 4096) }
    ensures few { spent.new ≤ spent.old + most_look }
{
    let found = core.translate(l2, memory, root.number(), va, access);
    *spent += found.cycles;
    match found.result {
        Ok(at) => Ok(at),
        Err(fault) => Err(Trap {
            exception: fault_of(access, fault),
            value: va,
        }),
    }
}

// ---- loads

// What a load finds at a physical address, with zeros above it.
#[inline(always)]
fn read(memory: &PhysMem, width: LoadWidth, at: u32) -> u32
    requires within { frame_of at < memory.now.frames }
    requires aligned { at % load_size width ≡ 0 }
    ensures value { (m : Mem) → Holds memory.now m
        → result ≡ spec.part_of_word (load_size width) (word m (frame_of at) (word_place at)) (at % 4) }
{
    match width {
        LoadWidth::Byte | LoadWidth::ByteUnsigned => u32::from(memory.read_byte(at)),
        LoadWidth::Half | LoadWidth::HalfUnsigned => u32::from(memory.read_half(at)),
        LoadWidth::Word => memory.read_word(at),
    }
}

/// What a load finds at an aligned virtual address, with zeros above it, or the
/// exception of its walk.
#[inline(always)]
pub fn load<P: Policy>(
    memory: &PhysMem,
    core: &mut OnCore<P>,
    l2: &mut L2<P>,
    spent: &mut u32,
    root: FrameNo,
    width: LoadWidth,
    va: u32,
) -> Result<u32, Trap>
    requires aligned { va % load_size width ≡ 0 }
    requires frames { memory.now.frames ≤ 2 ^ 15 }
    requires leaves { StandsWith memory.now
        (λ m. KeepsLeaves m memory.now.frames root core.old.tlb) }
    requires spent { spent.old < 2 ^ 31 }
    ensures finds { (w : Setting) (caps : Slots)
        → Finds w (λ d. spec.load w.machine root d width va) result
        (Kept P.rule P.stands_for w caps root memory.now (system core.old l2.old) spent.old)
        (Kept P.rule P.stands_for w caps root memory.now (system core.new l2.new) spent.new) }
    ensures leaves { StandsWith memory.now
        (λ m. KeepsLeaves m memory.now.frames root core.new.tlb) }
    ensures few { spent.new ≤ spent.old + most_data }
{
    let at = translate(memory, core, l2, spent, root, Access::Load, va)?;
    let line = l2.line_of(at);
    *spent += core.access(l2, line, false);
    Ok(read(memory, width, at))
}

// ---- stores

// Stores so many bytes at a physical address.
#[inline(always)]
fn write(memory: &mut PhysMem, at: u32, size: u8, value: u32)
    requires within { frame_of at < memory.old.frames }
    requires size { (size ≡ 1) ⊎ ((size ≡ 2) ⊎ (size ≡ 4)) }
    requires aligned { at % size ≡ 0 }
    requires cut { value < 2 ^ (8 * size) }
    ensures holds { (m : Mem) → Holds memory.old m
        → Holds memory.new (stored m (frame_of at) (word_place at) size (at % 4) value) }
    ensures frames { memory.new.frames ≡ memory.old.frames }
{
    match size {
        1 => memory.write_byte(at, value as u8),
        2 => memory.write_half(at, value as u16),
        _ => memory.write_word(at, value),
    }
}

/// Makes a store, where there is one, at an aligned virtual address, or answers
/// the exception of its walk.
#[inline(always)]
pub fn store<P: Policy>(
    memory: &mut PhysMem,
    core: &mut OnCore<P>,
    l2: &mut L2<P>,
    spent: &mut u32,
    root: FrameNo,
    made: Option<Store>,
) -> Result<(), Trap>
    requires store { IfSome made IsStore }
    requires frames { memory.old.frames ≤ 2 ^ 15 }
    requires leaves { StandsWith memory.old
        (λ m. KeepsLeaves m memory.old.frames root core.old.tlb) }
    requires spent { spent.old < 2 ^ 31 }
    ensures finds { (w : Setting) (caps : Slots)
        → Finds w (λ d. spec.store w.machine root d made) result
        (Kept P.rule P.stands_for w caps root memory.old (system core.old l2.old) spent.old)
        (Kept P.rule P.stands_for w caps root memory.new (system core.new l2.new) spent.new) }
    ensures frames { memory.new.frames ≡ memory.old.frames }
    ensures few { spent.new ≤ spent.old + most_data }
{
    let Some(made) = made else {
        return Ok(());
    };
    let at = translate(memory, core, l2, spent, root, Access::Store, made.at)?;
    let line = l2.line_of(at);
    *spent += core.access(l2, line, true);
    write(memory, at, made.size, made.word);
    Ok(())
}
