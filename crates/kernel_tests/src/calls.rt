// Calls that leave memory alone, and deliveries, step by step.
ghost use Rattle.std.specs.Prelude.{◌≡◌, ◌∷◌, [], Some, None, IfOk, IfSome};
ghost use Rattle.tp_base.specs.Table.{empty};
ghost use Rattle.phys_mem.specs.Holds.{Holds};
ghost use Rattle.frame_colours.specs.Colours.{whole_of, share_of};
ghost use Rattle.frame_colours.specs.FreeList.{all_free};
ghost use Rattle.cap_table.specs.declared.Cap.TheVariants as cap;
ghost use Rattle.cap_table.specs.Slots.{empty_slots, with_cap};
ghost use Rattle.kernel_clone.specs.Footprints.{IsLayout};
ghost use Rattle.kernel_clone.specs.Models.{layout_model, IsWork};
ghost use Rattle.kernel_call.specs.Facts.{Valid};

use call_table::{DomainStatus, Reply};
use cap_table::{CapTable, Given};
use frame_colours::{AllColours, Frame, Pool, Table};
use irq_partition::{IrqPart, Moment};
use kernel_call::{Beginning, Domain, Outcome, call_on_memory, deliver};
use kernel_clone::{CloneLayout, DELIVERY, EVERY_CALL};
use page_map::PageMap;
use phys_mem::PhysMem;
use rv_core::Regs;
use std::alloc::Global;
use std::test::Fail;
use thread_set::{ThreadSet, ThreadState};
use tp_base::{DomainNo, FrameNo, Memory};

// The frames 1, 5, .. to 61.
fn frames(alloc: Global) -> Result<Pool, Memory>
    ensures all { IfOk result (λ pool. pool ≡ all_free (share_of (whole_of 64 4) (1 ∷ []))) }
{
    let colours = vec![in alloc; Vec::from_slice(alloc, &[1])?]?;
    let mut shares = AllColours::new(64, 4).split(alloc, &colours)?;
    let share = shares.remove(0);
    shares.destroy_empty();
    Pool::new(alloc, share).map_err(|(share, error)| {
        share.discard();
        error
    })
}

// The clone whose lines the tests count: in a machine these frames are never free.
pub fn layout() -> CloneLayout
    ensures layout { IsLayout (layout_model result) }
{
    CloneLayout {
        text: [FrameNo::new(9), FrameNo::new(13)],
        stack: FrameNo::new(17),
        data: FrameNo::new(21),
        line: 64,
        shared: 512,
        colours: 4,
    }
}

// Slot 0 names line 3, slot 1 a table and slot 2 line 5.
fn slots(alloc: Global, table: Frame<Table>) -> Result<CapTable, Memory>
    ensures slots { IfOk result (λ caps. caps ≡ with_cap (with_cap (with_cap empty_slots
        1 (Some (cap.Table table None))) 0 (Some (cap.Irq 3))) 2 (Some (cap.Irq 5))) }
{
    let mut caps = CapTable::new(alloc)?;
    caps.put(1, Given::Table(table));
    caps.put(0, Given::Irq(3));
    caps.put(2, Given::Irq(5));
    Ok(caps)
}

// With those slots, and a moment for each line, in a memory that reads zero, which is
// lent for the prover. Thread 0 begins at 0x10000.
fn opened_in(alloc: Global, memory: &mut PhysMem) -> Result<Domain, Memory>
    requires size { memory.old.frames ≡ 64 }
    requires zero { Holds memory.old empty }
    ensures valid { IfOk result (λ domain. Valid memory.new domain) }
{
    let moments = [Moment { at: 100, line: 3 }, Moment { at: 100, line: 5 }];
    let interrupts = IrqPart::new(alloc, &moments)?;
    let mut pool = frames(alloc)?;
    let root = pool.take().ok_or(Memory)?.table(memory);
    let table = pool.take().ok_or(Memory)?.table(memory);
    let begin = Beginning {
        caps: slots(alloc, table)?,
        pool,
        tables: Vec::new(alloc),
        kept: Vec::new(alloc),
        map: PageMap::new(root),
        interrupts,
        threads: ThreadSet::new(0x10000),
        layout: layout(),
        calls: EVERY_CALL,
        number: DomainNo::new(0),
    };
    let domain = Domain::new(alloc, begin)?;
    Ok(domain)
}

pub fn opened(alloc: Global) -> Result<(Domain, PhysMem), Memory>
    ensures valid { IfOk result (λ made. Valid made.1 made.0) }
{
    let mut memory = PhysMem::new(alloc, 64)?;
    let domain = opened_in(alloc, &mut memory)?;
    Ok((domain, memory))
}

// A call by its number and two arguments, where a thread is ready; or a
// delivery, where a moment is left.
#[derive(Clone, Copy)]
enum Step {
    Call(u32, u32, u32),
    Deliver,
}

// What a call comes to; None where the current thread may not call.
pub fn made(
    domain: &mut Domain,
    memory: &mut PhysMem,
    number: u32,
    args: [u32; 3],
) -> Option<Outcome>
    requires valid { Valid memory.old domain.old }
    ensures valid { Valid memory.new domain.new }
    ensures work { IfSome result (λ outcome. IsWork outcome.work) }
{
    let is_ready = domain.threads.active.state.is_ready();
    if !is_ready || domain.replies.count > 1000 || memory.frames() > 64 {
        return None;
    }
    Some(call_on_memory(domain, memory, number, args))
}

// The reply's code and value. What may not be done is left out, and answers so.
fn run(domain: &mut Domain, memory: &mut PhysMem, step: Step) -> Option<(u32, u32)>
    requires valid { Valid memory.old domain.old }
    ensures valid { Valid memory.new domain.new }
{
    let left_out = Some((99, 99));
    if domain.replies.count > 1000 {
        return left_out;
    }
    match step {
        Step::Call(number, a, b) => match made(domain, memory, number, [a, b, 0]) {
            Some(outcome) => outcome.reply.map(|reply| (reply.code, reply.value)),
            None => left_out,
        },
        Step::Deliver => {
            if domain.interrupts.next_moment().is_none() || deliver(domain).op != DELIVERY {
                return left_out;
            }
            None
        }
    }
}

fn letter(state: ThreadState) -> u8 {
    match state {
        ThreadState::Never => b'n',
        ThreadState::Ready => b'r',
        ThreadState::Waiting(_) => b'w',
        ThreadState::Ended => b'e',
    }
}

// The states of the first four threads.
fn states(domain: &Domain) -> [u8; 4] {
    let mut letters = [b'?'; 4];
    for t in 0..4 {
        letters[t] = letter(domain.threads.thread(t as u8).state);
    }
    letters
}

// What is done, the reply, the number of the thread that is current then, and
// the states of the first four.
type Row = (Step, Option<(u32, u32)>, Option<u8>, [u8; 4]);

// The place of the first row that doesn't come out.
fn first_wrong(domain: &mut Domain, memory: &mut PhysMem, rows: &[Row]) -> Option<usize>
    requires valid { Valid memory.old domain.old }
    ensures valid { Valid memory.new domain.new }
{
    for (place, row) in rows.iter().enumerate() {
        let reply = run(domain, memory, row.0);
        if reply != row.1 || domain.threads.current() != row.2 || states(domain) != row.3 {
            return Some(place);
        }
    }
    None
}

const EXIT: u32 = 0;

const COPY: u32 = 6;

const REVOKE: u32 = 8;

const POLL: u32 = 9;

const WAIT: u32 = 10;

const SIGNAL: u32 = 11;

const SPAWN: u32 = 12;

const YIELD: Step = Step::Call(13, 0, 0);

const END: Step = Step::Call(14, 0, 0);

// A thread's pc, x10 and x11.
fn place(domain: &Domain, t: u8) -> [u32; 3] {
    if t > 7 {
        return [0; 3];
    }
    let thread = domain.threads.thread(t);
    [thread.pc, thread.regs.get(10), thread.regs.get(11)]
}

// Whether a thread has this word in x10 and 0 in each other register.
fn has_started(domain: &Domain, t: u8, x10: u32) -> bool {
    if t > 7 {
        return false;
    }
    let mut regs = Regs::new();
    regs.set(10, x10);
    domain.threads.thread(t).regs == regs
}

// Whether these are the replies so far, all with code 0.
fn has_told(domain: &Domain, values: &[u32]) -> bool {
    let first = domain.replies.first.as_slice();
    if first.len() != values.len() {
        return false;
    }
    for i in 0..values.len() {
        let value = values[i];
        if first[i] != (Reply { code: 0, value }) {
            return false;
        }
    }
    true
}

// What rows come to in an opened domain. For the prover no assert stands where one is
// held.
#[derive(Clone, Copy)]
struct Found {
    // The first row that doesn't come out.
    wrong: Option<usize>,
    status: DomainStatus,
    // Of threads 0 to 2.
    places: [[u32; 3]; 3],
    // Whether thread 2 has started with 9.
    has_started: bool,
}

fn after(alloc: Global, rows: &[Row]) -> Result<Found, Memory> {
    let (mut domain, mut memory) = opened(alloc)?;
    let wrong = first_wrong(&mut domain, &mut memory, rows);
    Ok(Found {
        wrong,
        status: domain.status,
        places: [place(&domain, 0), place(&domain, 1), place(&domain, 2)],
        has_started: has_started(&domain, 2, 9),
    })
}

// The one thread goes on.
#[rattlefmt::skip]
const ON_LINES: [Row; 25] = [
    (Step::Call(POLL, 64, 0), Some((2, 0)), Some(0), *b"rnnn"),
    (Step::Call(POLL, 9, 0), Some((3, 0)), Some(0), *b"rnnn"),
    (Step::Call(POLL, 1, 0), Some((5, 0)), Some(0), *b"rnnn"),
    (Step::Call(WAIT, 64, 0), Some((2, 0)), Some(0), *b"rnnn"),
    (Step::Call(WAIT, 9, 0), Some((3, 0)), Some(0), *b"rnnn"),
    (Step::Call(WAIT, 1, 0), Some((5, 0)), Some(0), *b"rnnn"),
    (Step::Call(SIGNAL, 64, 0), Some((2, 0)), Some(0), *b"rnnn"),
    (Step::Call(SIGNAL, 9, 0), Some((3, 0)), Some(0), *b"rnnn"),
    (Step::Call(SIGNAL, 1, 0), Some((5, 0)), Some(0), *b"rnnn"),
    (Step::Call(POLL, 0, 0), Some((0, 0)), Some(0), *b"rnnn"),
    (Step::Call(SIGNAL, 0, 0), Some((0, 0)), Some(0), *b"rnnn"),
    (Step::Call(POLL, 2, 0), Some((0, 0)), Some(0), *b"rnnn"),
    (Step::Call(POLL, 0, 0), Some((0, 1)), Some(0), *b"rnnn"),
    (Step::Call(POLL, 0, 0), Some((0, 0)), Some(0), *b"rnnn"),
    (Step::Call(SIGNAL, 0, 0), Some((0, 0)), Some(0), *b"rnnn"),
    (Step::Call(WAIT, 0, 0), Some((0, 1)), Some(0), *b"rnnn"),
    (Step::Call(POLL, 0, 0), Some((0, 0)), Some(0), *b"rnnn"),
    // A line's copy, with no rights, names the same line, and is revoked.
    (Step::Call(COPY, 0, 7), Some((0, 0)), Some(0), *b"rnnn"),
    (Step::Call(SIGNAL, 7, 0), Some((0, 0)), Some(0), *b"rnnn"),
    (Step::Call(POLL, 0, 0), Some((0, 1)), Some(0), *b"rnnn"),
    (Step::Call(POLL, 7, 0), Some((0, 0)), Some(0), *b"rnnn"),
    (Step::Call(REVOKE, 0, 0), Some((0, 1)), Some(0), *b"rnnn"),
    (Step::Call(POLL, 7, 0), Some((3, 0)), Some(0), *b"rnnn"),
    (Step::Call(POLL, 2, 0), Some((0, 0)), Some(0), *b"rnnn"),
    (Step::Call(15, 0, 0), Some((1, 0)), Some(0), *b"rnnn"),
];

#[test]
fn calls_on_lines(rt: HostRuntime) -> Result<(), Fail> {
    let found = after(rt.alloc(), &ON_LINES)?;
    assert_eq!(rt; (found.wrong, found.places[0]), (None, [0x10064, 1, 0]));
    Ok(())
}

const START: Step = Step::Call(SPAWN, 0x20004, 9);

#[rattlefmt::skip]
const TURNS: [Row; 18] = [
    (Step::Call(SPAWN, 0x20002, 9), Some((7, 0)), Some(0), *b"rnnn"),
    (START, Some((0, 1)), Some(0), *b"rrnn"),
    (YIELD, Some((0, 0)), Some(1), *b"rrnn"),
    (START, Some((0, 2)), Some(1), *b"rrrn"),
    (START, Some((0, 3)), Some(1), *b"rrrr"),
    (START, Some((0, 4)), Some(1), *b"rrrr"),
    (START, Some((0, 5)), Some(1), *b"rrrr"),
    (START, Some((0, 6)), Some(1), *b"rrrr"),
    (START, Some((0, 7)), Some(1), *b"rrrr"),
    (START, Some((13, 0)), Some(1), *b"rrrr"),
    (Step::Call(WAIT, 0, 0), None, Some(2), *b"rwrr"),
    (START, Some((13, 0)), Some(2), *b"rwrr"),
    // Thread 2 ends with 1 in x11; 3, which starts it anew, has that too.
    (Step::Call(SIGNAL, 2, 0), Some((0, 0)), Some(2), *b"rwrr"),
    (Step::Call(POLL, 2, 0), Some((0, 1)), Some(2), *b"rwrr"),
    (END, None, Some(3), *b"rwer"),
    (Step::Call(SIGNAL, 2, 0), Some((0, 0)), Some(3), *b"rwer"),
    (Step::Call(POLL, 2, 0), Some((0, 1)), Some(3), *b"rwer"),
    (START, Some((0, 2)), Some(3), *b"rwrr"),
];

#[test]
fn threads_start_and_take_turns(rt: HostRuntime) -> Result<(), Fail> {
    let found = after(rt.alloc(), &TURNS)?;
    let [_, first, second] = found.places;
    assert_eq!(rt; (found.wrong, found.has_started), (None, true));
    assert_eq!(rt; [first, second], [[0x20024, 13, 0], [0x20004, 9, 0]]);
    Ok(())
}

#[rattlefmt::skip]
const WAKES: [Row; 12] = [
    (Step::Call(SPAWN, 0x20000, 0), Some((0, 1)), Some(0), *b"rrnn"),
    (Step::Call(SPAWN, 0x20000, 0), Some((0, 2)), Some(0), *b"rrrn"),
    (Step::Call(WAIT, 0, 0), None, Some(1), *b"wrrn"),
    (Step::Call(WAIT, 0, 0), None, Some(2), *b"wwrn"),
    (Step::Call(SIGNAL, 2, 0), Some((0, 0)), Some(2), *b"wwrn"),
    (Step::Call(SIGNAL, 0, 0), Some((0, 0)), Some(2), *b"rwrn"),
    (Step::Deliver, None, Some(2), *b"rrrn"),
    (Step::Call(POLL, 2, 0), Some((0, 1)), Some(2), *b"rrrn"),
    (Step::Deliver, None, Some(2), *b"rrrn"),
    (Step::Deliver, Some((99, 99)), Some(2), *b"rrrn"),
    (Step::Call(POLL, 2, 0), Some((0, 1)), Some(2), *b"rrrn"),
    (Step::Call(POLL, 0, 0), Some((0, 0)), Some(2), *b"rrrn"),
];

// The first of those rows that doesn't come out, whether the values are told, and the
// place of thread 0 then.
fn woken(alloc: Global, values: &[u32]) -> Result<(Option<usize>, bool, [u32; 3]), Memory> {
    let (mut domain, mut memory) = opened(alloc)?;
    let wrong = first_wrong(&mut domain, &mut memory, &WAKES);
    Ok((wrong, has_told(&domain, values), place(&domain, 0)))
}

// Who is woken has its reply before the caller.
#[test]
fn a_line_wakes_the_least_that_waits(rt: HostRuntime) -> Result<(), Fail> {
    let values = [1, 2, 0, 1, 0, 1, 1, 1, 0];
    assert_eq!(rt; woken(rt.alloc(), &values)?, (None, true, [0x1000c, 0, 1]));
    Ok(())
}

// A domain of which a thread waits runs on, until that one has ended too. The
// code of an EXIT is its argument, that of the last ENDTHREAD is 0, whatever x10.
#[rattlefmt::skip]
const ENDS: [(&[Row], DomainStatus); 4] = [
    (&[
        (Step::Call(SPAWN, 0x20000, 0), Some((0, 1)), Some(0), *b"rrnn"),
        (Step::Call(WAIT, 0, 0), None, Some(1), *b"wrnn"),
        (END, None, None, *b"wenn"),
        (Step::Deliver, None, Some(0), *b"renn"),
    ], DomainStatus::Running),
    (&[(END, None, None, *b"ennn")], DomainStatus::Exited(0)),
    (&[
        (Step::Call(SPAWN, 0x20000, 9), Some((0, 1)), Some(0), *b"rrnn"),
        (END, None, Some(1), *b"ernn"),
        (END, None, None, *b"eenn"),
    ], DomainStatus::Exited(0)),
    // No moment wakes a thread that waited at an EXIT.
    (&[
        (Step::Call(SPAWN, 0x20000, 9), Some((0, 1)), Some(0), *b"rrnn"),
        (Step::Call(WAIT, 0, 0), None, Some(1), *b"wrnn"),
        (Step::Call(EXIT, 5, 0), None, None, *b"eenn"),
        (Step::Deliver, None, None, *b"eenn"),
    ], DomainStatus::Exited(5)),
];

#[test]
fn the_last_thread_ends_its_domain(rt: HostRuntime) -> Result<(), Fail> {
    for &(rows, status) in &ENDS {
        let found = after(rt.alloc(), rows)?;
        assert_eq!(rt; (found.wrong, found.status), (None, status));
    }
    Ok(())
}
