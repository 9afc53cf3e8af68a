// Threads, step by step.
ghost use Rattle.std.specs.Prelude.{◌<◌};

use rv_core::Regs;
use std::process::Abort;
use thread_set::{ThreadSet, ThreadState};

// What is done, the number of the thread that is current then, and which states
// the eight have: n never started, r ready, w waiting, e ended.
#[derive(Clone, Copy)]
enum Step {
    Spawn(Option<u8>),
    Yield,
    Block(u8),
    Finish,
    Wake(u8, bool),
    EndAll,
}

fn letter(state: ThreadState) -> u8 {
    match state {
        ThreadState::Never => b'n',
        ThreadState::Ready => b'r',
        ThreadState::Waiting(_) => b'w',
        ThreadState::Ended => b'e',
    }
}

const TURNS: [(Step, Option<u8>, [u8; 8]); 22] = [
    (Step::Yield, Some(0), *b"rnnnnnnn"),
    (Step::Spawn(Some(1)), Some(0), *b"rrnnnnnn"),
    (Step::Spawn(Some(2)), Some(0), *b"rrrnnnnn"),
    (Step::Yield, Some(1), *b"rrrnnnnn"),
    (Step::Block(5), Some(2), *b"rwrnnnnn"),
    (Step::Block(5), Some(0), *b"rwwnnnnn"),
    (Step::Yield, Some(0), *b"rwwnnnnn"),
    (Step::Block(3), None, *b"wwwnnnnn"),
    (Step::Wake(4, false), None, *b"wwwnnnnn"),
    (Step::Wake(5, true), Some(1), *b"wrwnnnnn"),
    (Step::Wake(5, true), Some(1), *b"wrrnnnnn"),
    (Step::Finish, Some(2), *b"wernnnnn"),
    (Step::Spawn(Some(1)), Some(2), *b"wrrnnnnn"),
    (Step::Spawn(Some(3)), Some(2), *b"wrrrnnnn"),
    (Step::Spawn(Some(4)), Some(2), *b"wrrrrnnn"),
    (Step::Spawn(Some(5)), Some(2), *b"wrrrrrnn"),
    (Step::Spawn(Some(6)), Some(2), *b"wrrrrrrn"),
    (Step::Spawn(Some(7)), Some(2), *b"wrrrrrrr"),
    (Step::Spawn(None), Some(2), *b"wrrrrrrr"),
    (Step::Wake(3, true), Some(2), *b"rrrrrrrr"),
    (Step::Finish, Some(3), *b"rrerrrrr"),
    (Step::EndAll, None, *b"eeeeeeee"),
];

// For the prover the threads are lent to functions with few asserts each.

fn is_done(rt: &impl Abort, threads: &mut ThreadSet, step: Step) {
    let is_ready = threads.active.state.is_ready();
    match step {
        Step::Spawn(number) => assert_eq!(rt; threads.spawn(0x10010, 7), number),
        Step::Yield if is_ready => threads.yield_now(),
        Step::Block(line) if is_ready => threads.block(line),
        Step::Finish if is_ready => threads.finish(),
        Step::Wake(line, woken) => assert_eq!(rt; threads.wake(line), woken),
        Step::EndAll => threads.end_all(),
        _ => assert!(rt; false, "the current thread isn't ready"),
    }
}

fn states_are(rt: &impl Abort, threads: &ThreadSet, states: [u8; 8]) {
    assert_eq!(rt; threads.live(), states != *b"eeeeeeee");
    for t in 0..8 {
        assert!(rt; letter(threads.thread(t).state) == states[t as usize]);
    }
}

fn turns_go_so(rt: &impl Abort, threads: &mut ThreadSet) {
    for &(step, current, states) in &TURNS {
        is_done(rt, threads, step);
        assert_eq!(rt; threads.current(), current);
        states_are(rt, threads, states);
    }
}

// A thread's pc, x10 and x11.
fn place(threads: &ThreadSet, t: u8) -> (u32, u32, u32)
    requires below { t < 8 }
{
    let thread = threads.thread(t);
    (thread.pc, thread.regs.get(10), thread.regs.get(11))
}

// Its pc, x5 and state, once it was set to 4 with 9 in x5.
fn set(threads: &mut ThreadSet, t: u8) -> (u32, u32, u8)
    requires below { t < 8 }
{
    let mut regs = threads.thread(t).regs;
    regs.set(5, 9);
    threads.set(t, 4, &regs);
    let thread = threads.thread(t);
    (thread.pc, thread.regs.get(5), letter(thread.state))
}

// Thread 0 was woken, thread 7 only started.
fn threads_are_set(rt: &impl Abort, threads: &mut ThreadSet) {
    assert_eq!(rt; place(threads, 0), (0x10000, 0, 1));
    assert_eq!(rt; set(threads, 0), (4, 9, b'e'));
    assert_eq!(rt; place(threads, 7), (0x10010, 7, 0));
    assert_eq!(rt; set(threads, 7), (4, 9, b'e'));
}

// A thread that is started anew has none of the words that it had.
fn a_new_one_has_no_words(rt: &impl Abort, threads: &mut ThreadSet) {
    let mut regs = Regs::new();
    regs.set(10, 8);
    assert_eq!(rt; threads.spawn(0x10014, 8), Some(0));
    assert_eq!(rt; threads.thread(0).regs, regs);
}

#[test]
fn turns_go_round_and_lines_wake_the_least(rt: HostRuntime) {
    let mut threads = ThreadSet::new(0x10000);
    turns_go_so(&rt, &mut threads);
    threads_are_set(&rt, &mut threads);
    a_new_one_has_no_words(&rt, &mut threads);
}
