// What kernel calls cost in a slot, counted by hand, on a machine in which no line
// ever gives way: the first touch of one is a miss, 49, a store of one that only a
// walk has read 9, and any other 1.
ghost use Rattle.std.specs.Prelude.{◌≡◌};

use crate::images::{accepted, hex_of};
use call_table::Reply;
use domain_step::has_one_hart;
use domain_view::View;
use image_check::Checked;
use std::alloc::Global;
use std::test::Fail;
use tp_base::Memory;
use tp_machine::Machine;

// The root is frame 17, the table of page 32 frame 21; free are 33, 37, .. to 61.
// Page 32 is in slot 0. The code is written between the parts.
const FIRST: &str = "frames = 64
shared = 512
line = 64
l1i = { sets = 1024, ways = 4, policy = \"lru\" }
l1d = { sets = 1024, ways = 4, policy = \"lru\" }
l2 = { sets = 256, ways = 16, policy = \"lru\" }
tlb = { sets = 4, ways = 2, policy = \"lru\" }
predictor = 16
costs = { base = 1, l1 = 1, l2 = 8, mem = 40, wb = 10, tlb = 1, mispredict = 3, trap = 10, flush = 20 }
[[domain]]
name = \"red\"
colours = [1]
entry = 0x10000
segment = [
  { page = 32, pages = 1, rights = \"rw\", hex = \"\" },
  { page = 16, pages = 1, rights = \"rx\", hex = \"";

const LAST: &str = "\" },
]
caps = [\"page 32\"]
[[schedule]]
domain = 0
length = 1000000
pad = 50000
";

// ---- the program: for each call, in a line of its own, its arguments, the clock,
// the call and the clock again

fn load_upper(rd: u32, word: u32) -> u32 {
    (word & 0xffff_f000) | (rd << 7) | 0x37
}

fn add_immediate(rd: u32, rs: u32, immediate: u32) -> u32 {
    (immediate << 20) | (rs << 15) | (rd << 7) | 0x13
}

const READ_CLOCK: u32 = 0xc000_22f3; // csrrs x5, cycle, x0

const ECALL: u32 = 0x0000_0073; // ecall

const NOTHING: u32 = 0x0000_0013; // addi x0, x0, 0

fn code_of(call: Call) -> [u32; 16] {
    let (number, [a, b, c], ..) = call;
    let mut words = [NOTHING; 16];
    words[0] = add_immediate(17, 0, number); // addi x17, x0, number
    words[1] = add_immediate(10, 0, a); // addi x10, x0, a
    words[2] = load_upper(11, b); // lui x11, the upper bits of b
    words[3] = add_immediate(11, 11, b & 0xfff); // addi x11, x11, its low ones
    words[4] = add_immediate(12, 0, c); // addi x12, x0, c
    words[5] = READ_CLOCK;
    words[6] = ECALL;
    words[7] = READ_CLOCK;
    words
}

fn program(alloc: Global) -> Result<String, Memory> {
    let mut code = String::new(alloc);
    for &call in &CALLS {
        let line = hex_of(alloc, &code_of(call))?;
        code.push_str(line.as_str())?;
    }
    Ok(code)
}

// ---- the calls

// A number, the arguments a, b and c, the reply's code and value, and the charge.
type Call = (u32, [u32; 3], (u32, u32), u64);

const DONE: (u32, u32) = (0, 0);

const ALLOC: u32 = 2;

const TABLE: u32 = 3;

const MAP: u32 = 4;

const UNMAP: u32 = 5;

const COPY: u32 = 6;

const DELETE: u32 = 7;

const REVOKE: u32 = 8;

const POLL: u32 = 9;

const SPAWN: u32 = 12;

const YIELD: u32 = 13;

const COUNT: u32 = 27;

// An operation is charged the trap 10, 4 lines of text, 2 of stack, which the
// domain touched as it entered, 2 of data and 1 of the shared region, which the
// second level has: so at its first time 10 + 4 * 49 + 2 + 2 * 49 = 306 and the
// shared line, 9 or, where an operation of the same remainder by 8 came before, 1;
// and 19 later. A refused one is charged no more.
#[rattlefmt::skip]
static CALLS: [Call; COUNT as usize] = [
    (TABLE, [9, 0, 0], (3, 0), 315),
    // 64 cold lines of the frame, 3136.
    (ALLOC, [1, 1, 0], DONE, 3451),
    (ALLOC, [2, 0, 0], DONE, 3155),
    (ALLOC, [2, 0, 0], (4, 0), 19),
    (ALLOC, [5, 2, 0], (5, 0), 19),
    // Entry 16 of the root lies in a line that nothing has touched, 49.
    (TABLE, [1, 0x0400_0000, 0], DONE, 68),
    // The table's lines were stored as it was zeroed, 1 each.
    (MAP, [2, 0x0400_0000, 3], DONE, 316),
    (MAP, [2, 0x0400_0000, 3], (8, 0), 19),
    // Nothing has touched the line of page 32's leaf, 49.
    (UNMAP, [0, 0, 0], DONE, 364),
    (UNMAP, [0, 0, 0], (7, 0), 19),
    (MAP, [0, 0x0002_0000, 1], DONE, 20),
    (COPY, [2, 3, 1], DONE, 315),
    (COPY, [2, 4, 7], DONE, 19),
    (MAP, [3, 0x0401_0000, 1], DONE, 20),
    (MAP, [4, 0x0402_0000, 5], DONE, 20),
    // Two leaves, in two lines.
    (REVOKE, [2, 0, 0], (0, 2), 317),
    (REVOKE, [2, 0, 0], DONE, 19),
    (DELETE, [1, 0, 0], (12, 0), 315),
    // A leaf, and then the root's entry.
    (DELETE, [2, 0, 0], DONE, 20),
    (DELETE, [1, 0, 0], DONE, 20),
    (DELETE, [9, 0, 0], (3, 0), 19),
    // A bad call is operation 18: its shared line is line 2, which ALLOC has loaded.
    (15, [0, 0, 0], (1, 0), 307),
    (20, [0, 0, 0], (1, 0), 19),
    // The frame that was the table: its lines are kept.
    (ALLOC, [1, 0, 0], DONE, 83),
    (YIELD, [0, 0, 0], DONE, 307),
    (SPAWN, [2, 0, 0], (7, 0), 307),
    (POLL, [0, 0, 0], (5, 0), 315),
];

// The first call that has another reply, or is charged other cycles. From clock to
// clock are 3 cycles of the first reading, and 3 of the call's instruction: the
// base, the look-up and the fetch.
fn first_wrong(view: &View<'_>) -> Option<u32> {
    if view.replies() != u64::from(COUNT) || view.readings() != 2 * u64::from(COUNT) {
        return Some(COUNT);
    }
    for place in 0..COUNT {
        let (_, _, (code, value), charge) = CALLS[place as usize];
        let before = view.reading(2 * place);
        let after = view.reading(2 * place + 1);
        if view.reply(place) != (Reply { code, value })
            || after.wrapping_sub(before) != charge.wrapping_add(6)
        {
            return Some(place);
        }
    }
    None
}

// For the prover an image and a machine are lent to functions that need not drop them.

// Past the last call no code stands, and the domain is stopped.
fn run_slot(machine: &mut Machine<'_>) -> Option<u32>
    requires slots { machine.old.slots ≡ 0 }
{
    machine.image().runnable();
    machine.run_slot();
    first_wrong(&machine.view(0))
}

fn run(alloc: Global, image: &Checked) -> Result<Option<Option<u32>>, Memory> {
    if !has_one_hart(image) {
        return Ok(None);
    }
    // For the prover no `?`, which would move the machine once more.
    match Machine::load(alloc, image) {
        Ok(mut machine) => Ok(Some(run_slot(&mut machine))),
        Err(error) => Err(error),
    }
}

fn timed(alloc: Global) -> Result<Option<Checked>, Memory> {
    let code = program(alloc)?;
    accepted(alloc, &[FIRST, code.as_str(), LAST])
}

fn ran(alloc: Global) -> Result<Option<Option<u32>>, Memory> {
    match timed(alloc)? {
        Some(image) => run(alloc, &image),
        None => Ok(None),
    }
}

#[test]
fn calls_are_charged_what_they_touch(rt: HostRuntime) -> Result<(), Fail> {
    assert_eq!(rt; ran(rt.alloc())?, Some(None));
    Ok(())
}
