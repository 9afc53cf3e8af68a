// Kernel calls of which two errors hold at once; and what those that are done
// store beside their clone's own lines.
ghost use Rattle.std.specs.Prelude.{IfSome};
ghost use Rattle.kernel_call.specs.Facts.{Valid};
ghost use Rattle.kernel_clone.specs.Models.{IsWork};

use crate::calls::{layout, made, opened};
use cap_table::Cap;
use kernel_call::{Domain, Outcome};
use kernel_clone::{BAD_CALL, Kind, Work, touches};
use phys_mem::PhysMem;
use std::alloc::Global;
use std::test::Fail;
use tp_base::{FrameNo, Memory, Rights};

const PUT: u32 = 1;

const ALLOC: u32 = 2;

const TABLE: u32 = 3;

const MAP: u32 = 4;

const UNMAP: u32 = 5;

const COPY: u32 = 6;

const DELETE: u32 = 7;

const REVOKE: u32 = 8;

const SPAWN: u32 = 12;

// ---- what a call stores

// The lines have 64 bytes, a frame 64 of them.
#[derive(Clone, Copy)]
enum Stored {
    Nothing,
    // Each line of a frame, upwards.
    Frame(u32),
    // The lines of the entries at these addresses; 0 is none.
    Entries([u32; 3]),
}

// The line that is stored at a place.
fn line_of(stored: Stored, place: u32) -> Option<u32> {
    match stored {
        Stored::Nothing => None,
        Stored::Frame(frame) if place < 64 => Some(frame.wrapping_mul(64).wrapping_add(place)),
        Stored::Frame(_) => None,
        Stored::Entries(at) => match at.get(place as usize) {
            None | Some(0) => None,
            Some(at) => Some(*at / 64),
        },
    }
}

// Whether an operation stores these lines, and no more, after the nine lines of its
// clone and of the shared region.
fn stores(work: &Work, stored: Stored) -> bool
    requires work { IsWork work.now }
{
    let layout = layout();
    let touches = touches(work.op, &layout, work);
    for place in 9..touches.len() {
        let (line, kind) = touches.get(place);
        if kind != Kind::Store || Some(line.number()) != line_of(stored, place - 9) {
            return false;
        }
    }
    line_of(stored, touches.len().wrapping_sub(9)).is_none()
}

// ---- tables of calls: numbers and arguments

// The code.
type Refused = (u32, [u32; 3], u32);

// The value, and what is stored.
type Done = (u32, [u32; 3], u32, Stored);

fn is_answered(outcome: Option<Outcome>, number: u32, reply: (u32, u32), stored: Stored) -> bool
    requires work { IfSome outcome (λ outcome. IsWork outcome.work) }
{
    let Some(outcome) = outcome else {
        return false;
    };
    let op = if number > 14 { BAD_CALL } else { number as u8 };
    let told = outcome.reply.map(|reply| (reply.code, reply.value));
    told == Some(reply) && outcome.work.op == op && stores(&outcome.work, stored)
}

// The first call that is not refused so: it has the value 0, and stores nothing.
fn not_refused(domain: &mut Domain, memory: &mut PhysMem, calls: &[Refused]) -> Option<usize>
    requires valid { Valid memory.old domain.old }
    ensures valid { Valid memory.new domain.new }
{
    for (place, (number, args, code)) in calls.iter().copied().enumerate() {
        let outcome = made(domain, memory, number, args);
        if !is_answered(outcome, number, (code, 0), Stored::Nothing) {
            return Some(place);
        }
    }
    None
}

// The first call that is not done so.
fn not_done(domain: &mut Domain, memory: &mut PhysMem, calls: &[Done]) -> Option<usize>
    requires valid { Valid memory.old domain.old }
    ensures valid { Valid memory.new domain.new }
{
    for (place, (number, args, value, stored)) in calls.iter().copied().enumerate() {
        let outcome = made(domain, memory, number, args);
        if !is_answered(outcome, number, (0, value), stored) {
            return Some(place);
        }
    }
    None
}

// ---- the order of errors

// Slot 1 has a table, frame 5, slot 0 line 3 and slot 2 line 5; the root is
// frame 1. Slot 3 gets a page that is mapped, slot 4 a table that is not
// installed, slot 5 the right to read that page, and slot 6 a page.
#[rattlefmt::skip]
const FIRST: [Done; 6] = [
    (TABLE, [1, 0x0040_0000, 0], 0, Stored::Entries([0x1004, 0, 0])),
    (ALLOC, [3, 0, 0], 0, Stored::Frame(9)),
    (MAP, [3, 0x0040_0000, 3], 0, Stored::Entries([0x5000, 0, 0])),
    (ALLOC, [4, 1, 0], 0, Stored::Frame(13)),
    (COPY, [3, 5, 1], 0, Stored::Nothing),
    (ALLOC, [6, 0, 0], 0, Stored::Frame(17)),
];

// Each error is so, and beside it the one that is named in the comment; slot 9
// is empty. Of MAP, the rights 2 are not good, 3 are beyond slot 5's, the
// address 0x40_1004 is not aligned, 0x40_0000 has a leaf, 0x80_0000 no table.
#[rattlefmt::skip]
const PAIRS: [Refused; 61] = [
    (ALLOC, [64, 2, 0], 2), // WrongKind
    (ALLOC, [0, 2, 0], 4), // WrongKind
    (ALLOC, [9, 2, 0], 5),
    (TABLE, [64, 0x0080_1000, 0], 2), // BadAddress
    (TABLE, [64, 0x0040_0000, 0], 2), // Mapped
    (TABLE, [9, 0x0080_1000, 0], 3), // BadAddress
    (TABLE, [9, 0x0040_0000, 0], 3), // Mapped
    (TABLE, [0, 0x0080_1000, 0], 5), // BadAddress
    (TABLE, [6, 0x0080_1000, 0], 5), // BadAddress
    (TABLE, [6, 0x0040_0000, 0], 5), // Mapped
    (TABLE, [1, 0x0080_1000, 0], 7), // Mapped: the table is installed
    (TABLE, [4, 0x0040_1000, 0], 7), // Mapped: the root's entry is valid
    (TABLE, [1, 0x0080_0000, 0], 8),
    (TABLE, [4, 0x0040_0000, 0], 8),
    (MAP, [64, 0x0040_1000, 2], 2), // BadRights
    (MAP, [64, 0x0040_1004, 1], 2), // BadAddress
    (MAP, [64, 0x0040_0000, 1], 2), // Mapped
    (MAP, [64, 0x0080_0000, 1], 2), // NoTable
    (MAP, [9, 0x0040_1000, 2], 3), // BadRights
    (MAP, [9, 0x0040_1004, 1], 3), // BadAddress
    (MAP, [9, 0x0040_0000, 1], 3), // Mapped
    (MAP, [9, 0x0080_0000, 1], 3), // NoTable
    (MAP, [4, 0x0040_1000, 2], 5), // BadRights
    (MAP, [4, 0x0040_1004, 1], 5), // BadAddress
    (MAP, [4, 0x0040_0000, 1], 5), // Mapped
    (MAP, [0, 0x0080_0000, 1], 5), // NoTable
    (MAP, [6, 0x0040_1004, 2], 6), // BadAddress
    (MAP, [6, 0x0040_0000, 2], 6), // Mapped: the address has a leaf
    (MAP, [3, 0x0040_1000, 2], 6), // Mapped: the capability is
    (MAP, [6, 0x0080_0000, 2], 6), // NoTable
    (MAP, [5, 0x0040_1004, 3], 6), // BadAddress
    (MAP, [5, 0x0040_0000, 3], 6), // Mapped
    (MAP, [5, 0x0080_0000, 3], 6), // NoTable
    (MAP, [6, 0x0040_0004, 1], 7), // Mapped: the address has a leaf
    (MAP, [3, 0x0040_1004, 1], 7), // Mapped: the capability is
    (MAP, [6, 0x0080_0004, 1], 7), // NoTable
    (MAP, [6, 0x0040_0000, 1], 8),
    (MAP, [3, 0x0080_0000, 1], 8), // NoTable
    (MAP, [6, 0x0080_0000, 1], 9),
    (UNMAP, [64, 0, 0], 2),
    (UNMAP, [9, 0, 0], 3),
    (UNMAP, [4, 0, 0], 5),
    (UNMAP, [0, 0, 0], 5),
    (UNMAP, [6, 0, 0], 7),
    (COPY, [64, 3, 1], 2), // Used
    (COPY, [9, 64, 1], 2), // Empty
    (COPY, [1, 64, 1], 2), // WrongKind
    (COPY, [3, 64, 2], 2), // BadRights
    (COPY, [9, 3, 1], 3), // Used
    (COPY, [1, 3, 1], 4), // WrongKind
    (COPY, [3, 6, 2], 4), // BadRights
    (COPY, [5, 6, 3], 4), // BadRights
    (COPY, [1, 9, 1], 5),
    (COPY, [3, 9, 2], 6),
    (COPY, [5, 9, 3], 6),
    (DELETE, [64, 0, 0], 2),
    (DELETE, [9, 0, 0], 3),
    (DELETE, [1, 0, 0], 12),
    (REVOKE, [64, 0, 0], 2),
    (REVOKE, [9, 0, 0], 3),
    (15, [64, 2, 2], 1),
];

// The other eleven frames are taken, and seven threads started.
#[rattlefmt::skip]
const LAST: [Done; 18] = [
    (ALLOC, [10, 0, 0], 0, Stored::Frame(21)), (ALLOC, [11, 1, 0], 0, Stored::Frame(25)),
    (ALLOC, [12, 0, 0], 0, Stored::Frame(29)), (ALLOC, [13, 1, 0], 0, Stored::Frame(33)),
    (ALLOC, [14, 0, 0], 0, Stored::Frame(37)), (ALLOC, [15, 1, 0], 0, Stored::Frame(41)),
    (ALLOC, [16, 0, 0], 0, Stored::Frame(45)), (ALLOC, [17, 1, 0], 0, Stored::Frame(49)),
    (ALLOC, [18, 0, 0], 0, Stored::Frame(53)), (ALLOC, [19, 1, 0], 0, Stored::Frame(57)),
    (ALLOC, [63, 0, 0], 0, Stored::Frame(61)),
    (SPAWN, [0x20000, 0, 0], 1, Stored::Nothing), (SPAWN, [0x20000, 0, 0], 2, Stored::Nothing),
    (SPAWN, [0x20000, 0, 0], 3, Stored::Nothing), (SPAWN, [0x20000, 0, 0], 4, Stored::Nothing),
    (SPAWN, [0x20000, 0, 0], 5, Stored::Nothing), (SPAWN, [0x20000, 0, 0], 6, Stored::Nothing),
    (SPAWN, [0x20000, 0, 0], 7, Stored::Nothing),
];

#[rattlefmt::skip]
const WITH_NO_FRAME: [Refused; 6] = [
    (ALLOC, [64, 0, 0], 2), // NoFrame
    (ALLOC, [0, 1, 0], 4), // NoFrame
    (ALLOC, [9, 2, 0], 5), // NoFrame
    (ALLOC, [9, 0, 0], 10),
    (SPAWN, [0x20002, 0, 0], 7), // NoThread
    (SPAWN, [0x20000, 0, 0], 13),
];

// The first call of each table that does not come out so. For the prover no assert
// stands where a domain is held.
fn wrong_ones(alloc: Global) -> Result<[Option<usize>; 4], Memory> {
    let (mut domain, mut memory) = opened(alloc)?;
    Ok([
        not_done(&mut domain, &mut memory, &FIRST),
        not_refused(&mut domain, &mut memory, &PAIRS),
        not_done(&mut domain, &mut memory, &LAST),
        not_refused(&mut domain, &mut memory, &WITH_NO_FRAME),
    ])
}

#[test]
fn errors_are_tested_in_the_order_of_their_numbers(rt: HostRuntime) -> Result<(), Fail> {
    assert_eq!(rt; wrong_ones(rt.alloc())?, [None; 4]);
    Ok(())
}

// ---- what is written

fn word_at(memory: &PhysMem, at: u32) -> Option<u32> {
    if at / 4096 >= memory.frames() || at % 4 != 0 {
        return None;
    }
    Some(memory.read_word(at))
}

// The first of the calls that is not done so, and the leaf that they write.
fn leaf_written(alloc: Global) -> Result<(Option<usize>, Option<u32>), Memory> {
    let (mut domain, mut memory) = opened(alloc)?;
    let wrong = not_done(&mut domain, &mut memory, &FIRST);
    Ok((wrong, word_at(&memory, 0x5000)))
}

// A page of all rights is mapped to be read and written: frame 9, and D, A, U, W, R and V.
#[test]
fn a_leaf_has_the_rights_that_are_asked_for(rt: HostRuntime) -> Result<(), Fail> {
    assert_eq!(rt; leaf_written(rt.alloc())?, (None, Some(0x24d7)));
    Ok(())
}

// ---- what is stored

// Slot 3 gets a page, mapped; its copies 7 to 10 are mapped, but for 9; slot 6
// gets a page of its own. A REVOKE writes the leaves in the order of the slots.
#[rattlefmt::skip]
const WRITES: [Done; 33] = [
    (PUT, [0x17f, 0, 0], 0, Stored::Nothing),
    (PUT, [0x80, 0, 0], 0, Stored::Nothing),
    (PUT, [0xffff_ffff, 0, 0], 0, Stored::Nothing),
    (REVOKE, [1, 0, 0], 0, Stored::Nothing),
    (TABLE, [1, 0xffc0_0000, 0], 0, Stored::Entries([0x1ffc, 0, 0])),
    (REVOKE, [1, 0, 0], 0, Stored::Nothing),
    (DELETE, [1, 0, 0], 0, Stored::Entries([0x1ffc, 0, 0])),
    (ALLOC, [1, 1, 0], 0, Stored::Frame(5)),
    (TABLE, [1, 0x0040_0000, 0], 0, Stored::Entries([0x1004, 0, 0])),
    (ALLOC, [3, 0, 0], 0, Stored::Frame(9)),
    (MAP, [3, 0x0040_0000, 7], 0, Stored::Entries([0x5000, 0, 0])),
    (ALLOC, [6, 0, 0], 0, Stored::Frame(13)),
    (MAP, [6, 0x007f_f000, 1], 0, Stored::Entries([0x5ffc, 0, 0])),
    (UNMAP, [6, 0, 0], 0, Stored::Entries([0x5ffc, 0, 0])),
    (MAP, [6, 0x0047_0000, 3], 0, Stored::Entries([0x51c0, 0, 0])),
    (COPY, [3, 7, 5], 0, Stored::Nothing),
    (COPY, [3, 8, 1], 0, Stored::Nothing),
    (COPY, [3, 9, 3], 0, Stored::Nothing),
    (COPY, [3, 10, 7], 0, Stored::Nothing),
    (MAP, [7, 0x0044_0000, 4], 0, Stored::Entries([0x5100, 0, 0])),
    (MAP, [8, 0x0046_0000, 1], 0, Stored::Entries([0x5180, 0, 0])),
    (MAP, [10, 0x0042_0000, 5], 0, Stored::Entries([0x5080, 0, 0])),
    (REVOKE, [7, 0, 0], 4, Stored::Entries([0x5000, 0x5180, 0x5080])),
    (REVOKE, [7, 0, 0], 0, Stored::Nothing),
    (REVOKE, [6, 0, 0], 0, Stored::Nothing),
    (DELETE, [7, 0, 0], 0, Stored::Entries([0x5100, 0, 0])),
    (DELETE, [6, 0, 0], 0, Stored::Entries([0x51c0, 0, 0])),
    (DELETE, [1, 0, 0], 0, Stored::Entries([0x1004, 0, 0])),
    (ALLOC, [4, 1, 0], 0, Stored::Frame(5)),
    (DELETE, [4, 0, 0], 0, Stored::Nothing),
    (DELETE, [0, 0, 0], 0, Stored::Nothing),
    (ALLOC, [0, 0, 0], 0, Stored::Frame(5)),
    (ALLOC, [63, 1, 0], 0, Stored::Frame(9)),
];

// The first of those calls that is not done so, whether this is printed, and what
// slot 0 has then.
fn written(alloc: Global, printed: &[u8]) -> Result<(Option<usize>, bool, Option<Cap>), Memory> {
    let (mut domain, mut memory) = opened(alloc)?;
    let wrong = not_done(&mut domain, &mut memory, &WRITES);
    let is_printed = domain.printed.as_slice() == printed;
    Ok((wrong, is_printed, domain.caps.get(0)))
}

#[test]
fn a_call_stores_what_it_writes(rt: HostRuntime) -> Result<(), Fail> {
    let page = Cap::Frame {
        frame: FrameNo::new(5),
        rights: Rights::new(7),
        mapped: None,
    };
    let (wrong, is_printed, slot) = written(rt.alloc(), &[0x7f, 0x80, 0xff])?;
    assert_eq!(rt; (wrong, is_printed), (None, true));
    assert_eq!(rt; slot, Some(page));
    Ok(())
}
