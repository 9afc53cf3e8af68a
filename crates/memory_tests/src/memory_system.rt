// Worked rows, and the whole hierarchy beside plain lists. For the prover the
// calls with contracts stand in functions with none, each proved alone.
ghost use Rattle.std.specs.Prelude.{◌≡◌, ◌≤◌, ◌^◌, IfOk};

mod plain;

use crate::hierarchies::{largest, small};
use mem_system::MemSystem;
use phys_mem::PhysMem;
use plain::PlainSystem;
use repl_policy::AnyPolicy;
use std::alloc::Global;
use std::process::Abort;
use std::test::Fail;
use sv32_walk::{Access, WalkFault};
use tp_base::{Line, Memory};

// A touch of a line or at a pc.
#[derive(Clone, Copy)]
enum Touch {
    Fetch(u32),
    Load(u32),
    Store(u32),
    WalkRead(u32),
    Branch(u32, bool),
    Flush,
}

fn cost_of(system: &mut MemSystem<AnyPolicy>, touch: Touch) -> u32 {
    match touch {
        Touch::Fetch(line) => system.fetch(line_at(line)),
        Touch::Load(line) => system.access(line_at(line), false),
        Touch::Store(line) => system.access(line_at(line), true),
        Touch::WalkRead(line) => system.walk_read(line_at(line)),
        Touch::Branch(pc, taken) => system.branch(pc, taken, pc),
        Touch::Flush => system.flush(),
    }
}

// A number of a line is below 2^23.
fn line_at(number: u32) -> Line {
    Line::new(number & 0x7f_ffff)
}

// Each touch costs what stands beside it.
fn costs_are(rt: &impl Abort, system: &mut MemSystem<AnyPolicy>, rows: &[(Touch, u32)]) {
    for &(touch, cycles) in rows {
        assert_eq!(rt; cost_of(system, touch), cycles);
    }
}

// So they do in a small hierarchy. For the prover it is held here alone.
fn small_costs_are(
    rt: &impl Abort,
    alloc: Global,
    pinned: bool,
    back: bool,
    rows: &[(Touch, u32)],
) -> Result<(), Fail> {
    let mut system = small(alloc, AnyPolicy::Lru, pinned, back)?;
    costs_are(rt, &mut system, rows);
    Ok(())
}

static OF_A_DIRTY_VICTIM: [(Touch, u32); 7] = [
    (Touch::Store(100), 49),
    (Touch::Store(116), 49),
    (Touch::Load(132), 59),
    (Touch::Load(100), 19),
    (Touch::WalkRead(100), 8),
    (Touch::WalkRead(7), 48),
    (Touch::Flush, 20),
];

#[test]
fn a_dirty_victim_is_charged(rt: HostRuntime) -> Result<(), Fail> {
    small_costs_are(&rt, rt.alloc(), false, false, &OF_A_DIRTY_VICTIM)
}

// Lines 100, 356 and so on to 1124 meet in one set of the second level, and 100, 116,
// 132 and 1124 in one of the first. Line 100 is written back when 132 comes, and given
// up with its mark when 1124 does.
static OF_A_MARKED_VICTIM: [(Touch, u32); 7] = [
    (Touch::Store(100), 49),
    (Touch::Store(116), 49),
    (Touch::Load(132), 59),
    (Touch::WalkRead(356), 48),
    (Touch::WalkRead(612), 48),
    (Touch::WalkRead(868), 48),
    (Touch::WalkRead(1124), 58),
];

#[test]
fn a_marked_victim_is_charged(rt: HostRuntime) -> Result<(), Fail> {
    small_costs_are(&rt, rt.alloc(), false, true, &OF_A_MARKED_VICTIM)
}

// Without the mark the last read costs a miss.
static OF_WHAT_PASSES: [(Touch, u32); 7] = [
    (Touch::Store(100), 49),
    (Touch::Store(116), 49),
    (Touch::Load(132), 59),
    (Touch::WalkRead(356), 48),
    (Touch::WalkRead(612), 48),
    (Touch::WalkRead(868), 48),
    (Touch::WalkRead(1124), 48),
];

#[test]
fn what_passes_is_charged_once(rt: HostRuntime) -> Result<(), Fail> {
    small_costs_are(&rt, rt.alloc(), false, false, &OF_WHAT_PASSES)
}

// Line 1124 gives up line 100 at both levels: first it is written back.
static OF_ONE_LOAD: [(Touch, u32); 6] = [
    (Touch::Store(100), 49),
    (Touch::WalkRead(356), 48),
    (Touch::WalkRead(612), 48),
    (Touch::WalkRead(868), 48),
    (Touch::Load(116), 49),
    (Touch::Load(1124), 69),
];

#[test]
fn a_victim_is_written_back_before_the_line_is_read(rt: HostRuntime) -> Result<(), Fail> {
    small_costs_are(&rt, rt.alloc(), false, true, &OF_ONE_LOAD)
}

// Of two dirty lines the second level holds one, line 100, when they are flushed.
static OF_A_FLUSH: [(Touch, u32); 12] = [
    (Touch::Store(101), 49),
    (Touch::WalkRead(357), 48),
    (Touch::WalkRead(613), 48),
    (Touch::WalkRead(869), 48),
    (Touch::WalkRead(1125), 48),
    (Touch::Store(100), 49),
    (Touch::Flush, 40),
    (Touch::WalkRead(356), 48),
    (Touch::WalkRead(612), 48),
    (Touch::WalkRead(868), 48),
    (Touch::WalkRead(1124), 58),
    (Touch::WalkRead(101), 48),
];

#[test]
fn a_flush_writes_back(rt: HostRuntime) -> Result<(), Fail> {
    small_costs_are(&rt, rt.alloc(), false, true, &OF_A_FLUSH)
}

// Lines of the frames 4, 1, 32,767, and 4 again.
static OF_PINNED_LINES: [(Touch, u32); 4] = [
    (Touch::WalkRead(256), 8),
    (Touch::WalkRead(64), 48),
    (Touch::WalkRead(2_097_151), 48),
    (Touch::WalkRead(256), 8),
];

#[test]
fn pinned_lines_are_always_there(rt: HostRuntime) -> Result<(), Fail> {
    small_costs_are(&rt, rt.alloc(), true, false, &OF_PINNED_LINES)
}

// 64 frames with these words, at places that count words.
fn memory_with(alloc: Global, words: &[(u32, u32)]) -> Result<PhysMem, Memory>
    ensures frames { IfOk result (λ mem. mem.frames ≤ 2 ^ 15) }
{
    let mut mem = PhysMem::new(alloc, 64)?;
    for &(place, word) in words {
        mem.write_word(place % 0x10000 * 4, word);
    }
    Ok(mem)
}

// What the address 0x00405008 is translated to, and the cost.
fn looked_up(
    system: &mut MemSystem<AnyPolicy>,
    mem: &PhysMem,
    access: Access,
) -> (Result<u32, WalkFault>, u32)
    requires frames { mem.now.frames ≤ 2 ^ 15 }
{
    let translated = system.translate(mem, 2, 0x0040_5008, access);
    (translated.result, translated.cycles)
}

fn is_translated(
    rt: &impl Abort,
    system: &mut MemSystem<AnyPolicy>,
    mem: &PhysMem,
    access: Access,
    wanted: Result<u32, WalkFault>,
    cycles: u32,
)
    requires frames { mem.now.frames ≤ 2 ^ 15 }
{
    assert_eq!(rt; looked_up(system, mem, access), (wanted, cycles));
}

fn leaf_is_asked(rt: &impl Abort, system: &mut MemSystem<AnyPolicy>, mem: &PhysMem)
    requires frames { mem.now.frames ≤ 2 ^ 15 }
{
    let page = Err(WalkFault::Page);
    is_translated(rt, system, mem, Access::Store, page, 97);
    is_translated(rt, system, mem, Access::Load, Ok(0x5008), 17);
    is_translated(rt, system, mem, Access::Load, Ok(0x5008), 1);
    is_translated(rt, system, mem, Access::Store, page, 1);
    system.empty_tlb();
    is_translated(rt, system, mem, Access::Load, Ok(0x5008), 17);
}

fn small_leaf_is_asked(rt: &impl Abort, alloc: Global, mem: &PhysMem) -> Result<(), Fail>
    requires frames { mem.now.frames ≤ 2 ^ 15 }
{
    let mut system = small(alloc, AnyPolicy::Lru, false, false)?;
    leaf_is_asked(rt, &mut system, mem);
    Ok(())
}

// A page of 4 KiB in frame 5 that is only read.
#[test]
fn a_kept_leaf_is_asked_for_its_rights(rt: HostRuntime) -> Result<(), Fail> {
    let mem = memory_with(rt.alloc(), &[(0x801, 0xc01), (0xc05, 0x1453)])?;
    small_leaf_is_asked(&rt, rt.alloc(), &mem)
}

// The last line of memory, and a branch that is learnt at once.
static OF_THE_LARGEST: [(Touch, u32); 4] = [
    (Touch::Fetch(0x007f_ffff), 49),
    (Touch::Fetch(0x007f_ffff), 1),
    (Touch::Branch(0x10000, true), 3),
    (Touch::Branch(0x10000, true), 0),
];

fn is_made(rt: &impl Abort, system: &mut MemSystem<AnyPolicy>) {
    assert_eq!(rt; system.line_of(0x07ff_ffff).number(), 0x007f_ffff);
    costs_are(rt, system, &OF_THE_LARGEST);
    assert_eq!(rt; system.costs().trap, 10);
}

#[test]
fn the_largest_hierarchy_is_made_at_once(rt: HostRuntime) -> Result<(), Fail> {
    let mut system = largest(rt.alloc())?;
    is_made(&rt, &mut system);
    Ok(())
}

// The tables of plain lists: pages 0x400 on under a table in frame 3, in frames
// 17, 18, 19, 33, 34 and 35, and one page of 4 MiB from page 0x800 on.
static TABLES: [(u32, u32); 8] = [
    (0x801, 0xc01),
    (0x802, 0xd7),
    (0xc01, 0x4453),
    (0xc02, 0x48d7),
    (0xc03, 0x4c59),
    (0xc11, 0x8453),
    (0xc12, 0x88d7),
    (0xc13, 0x8c59),
];

// For the prover the words come from a function of their own.
fn words_of_tables() -> &'static [(u32, u32)] {
    &TABLES
}

fn access_of(number: u32) -> Access {
    match number & 3 {
        0 => Access::Fetch,
        1 => Access::Store,
        _ => Access::Load,
    }
}

// Whether both do the same at the touch of a line that a word names.
fn agree_at_line(
    system: &mut MemSystem<AnyPolicy>,
    plain: &mut PlainSystem,
    word: u32,
) -> Result<bool, Fail> {
    let line = (word >> 8) & 0x741;
    let odd = word >> 31 == 1;
    Ok(match (word >> 27) & 15 {
        0..=2 => system.fetch(Line::new(line)) == plain.fetch(line)?,
        3..=6 => system.access(Line::new(line), odd) == plain.access(line, odd)?,
        _ => system.walk_read(Line::new(line)) == u32::from(plain.below(line)?),
    })
}

// The same of a translation.
fn agree_at_address(
    system: &mut MemSystem<AnyPolicy>,
    plain: &mut PlainSystem,
    mem: &PhysMem,
    word: u32,
) -> Result<bool, Fail>
    requires frames { mem.now.frames ≤ 2 ^ 15 }
{
    let va = ((word >> 9) & 0x00c1_3fff) | 0x8;
    let access = access_of(word >> 6);
    let translated = system.translate(mem, 2, va, access);
    Ok((translated.result.ok(), translated.cycles) == plain.translate(va, access)?)
}

// The same of any touch.
fn agree_at(
    system: &mut MemSystem<AnyPolicy>,
    plain: &mut PlainSystem,
    mem: &PhysMem,
    word: u32,
) -> Result<bool, Fail>
    requires frames { mem.now.frames ≤ 2 ^ 15 }
{
    let pc = (word >> 8) & 0x3c;
    let odd = word >> 31 == 1;
    match (word >> 27) & 15 {
        0..=7 => agree_at_line(system, plain, word),
        8 | 9 => Ok(system.branch(pc, odd, (word >> 8) & 0x741) == plain.branch(pc, odd)),
        _ => agree_at_address(system, plain, mem, word),
    }
}

// The first of 3,000 words at which they differ. A word in a thousand flushes
// all, and as many empty the buffer.
fn first_wrong_step(
    system: &mut MemSystem<AnyPolicy>,
    plain: &mut PlainSystem,
    mem: &PhysMem,
) -> Result<Option<u32>, Fail>
    requires frames { mem.now.frames ≤ 2 ^ 15 }
{
    let mut word = 12345u32;
    for step in 0..3000 {
        word = word.wrapping_mul(1664525).wrapping_add(1013904223);
        if !agree_at(system, plain, mem, word)? {
            return Ok(Some(step));
        }
        if (word >> 12) & 0x3ff == 0 && system.flush() != plain.flush() {
            return Ok(Some(step));
        }
        if (word >> 12) & 0x3ff == 1 {
            system.empty_tlb();
            plain.empty_tlb();
        }
    }
    Ok(None)
}

// The first line of which they differ: what each keeps, by the hits.
fn first_wrong_line(
    system: &mut MemSystem<AnyPolicy>,
    plain: &mut PlainSystem,
) -> Result<Option<u32>, Fail> {
    for line in 0..2048 {
        if system.fetch(Line::new(line)) != plain.fetch(line)?
            || system.access(Line::new(line), false) != plain.access(line, false)?
            || system.walk_read(Line::new(line)) != u32::from(plain.below(line)?)
        {
            return Ok(Some(line));
        }
    }
    Ok(None)
}

// The first step and the first line at which the two differ.
fn first_differences(
    system: &mut MemSystem<AnyPolicy>,
    plain: &mut PlainSystem,
    mem: &PhysMem,
) -> Result<(Option<u32>, Option<u32>), Fail>
    requires frames { mem.now.frames ≤ 2 ^ 15 }
{
    let step = first_wrong_step(system, plain, mem)?;
    let line = first_wrong_line(system, plain)?;
    Ok((step, line))
}

// The same of a new hierarchy and its plain lists.
fn first_wrong(
    alloc: Global,
    mem: &PhysMem,
    policy: AnyPolicy,
    pinned: bool,
    back: bool,
) -> Result<(Option<u32>, Option<u32>), Fail>
    requires frames { mem.now.frames ≤ 2 ^ 15 }
{
    let mut system = small(alloc, policy, pinned, back)?;
    let mut plain = PlainSystem::new(alloc, policy, pinned, back);
    first_differences(&mut system, &mut plain, mem)
}

// Not pinned and pinned, with lines that pass the second level and such as are written
// back into it.
fn does_as_plain_lists(
    rt: &impl Abort,
    alloc: Global,
    mem: &PhysMem,
    policy: AnyPolicy,
) -> Result<(), Fail>
    requires frames { mem.now.frames ≤ 2 ^ 15 }
{
    for (pinned, back) in [(false, false), (true, false), (false, true), (true, true)] {
        let found = first_wrong(alloc, mem, policy, pinned, back)?;
        assert_eq!(rt; found, (None, None));
    }
    Ok(())
}

fn all_do(rt: &impl Abort, alloc: Global, mem: &PhysMem) -> Result<(), Fail>
    requires frames { mem.now.frames ≤ 2 ^ 15 }
{
    does_as_plain_lists(rt, alloc, mem, AnyPolicy::Lru)?;
    does_as_plain_lists(rt, alloc, mem, AnyPolicy::Fifo)?;
    does_as_plain_lists(rt, alloc, mem, AnyPolicy::TreePlru)?;
    does_as_plain_lists(rt, alloc, mem, AnyPolicy::Nmru)
}

#[test]
fn it_does_as_plain_lists_do(rt: HostRuntime) -> Result<(), Fail> {
    let mem = memory_with(rt.alloc(), words_of_tables())?;
    all_do(&rt, rt.alloc(), &mem)
}
