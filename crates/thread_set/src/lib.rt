//! The eight threads of a domain, of which one is current. They don't preempt
//! each other: where the current one gives way, the next ready one in cyclic
//! order has its turn.
#![tactic(auto)]

mod laws;

ghost use Rattle.std.specs.Prelude.{◌≡◌, ◌↔◌, ◌+◌, ◌%◌, ◌<◌, true, if◌then◌else◌, ◌∷◌, ◌++◌, take, drop, position, option_map, All, not, IsNone, IfNone, IsTrue, IsSome, length, Some, None};
ghost use Rattle.std.specs.Bool.{OnFalse};
ghost use Rattle.std.specs.List.{list_any};
ghost use Rattle.thread_set.specs.Threads.{
  Threads,
  all_of,
  current_number,
  thread_at,
  is_ready,
  is_live,
  waits_for,
  yielded,
  given_way,
  with_thread,
  threads_at_entry,
  vacant,
  spawned,
  blocked,
  finished,
  waiter,
  started,
  resumed,
  woken,
  end_live,
  all_ended,
};

pub use laws::{
    are_eight, block_and_finish, each_is_apart, eight_are_kept, next_in_turn, start_the_least,
    wake_the_least,
};
use rv_core::Regs;
use std::slice;

const THREADS: usize = 8;

/// What a thread does.
#[derive(Clone, Copy, Debug, PartialEq, Eq)]
pub enum ThreadState {
    /// It was never started.
    Never,
    /// It may run.
    Ready,
    /// For an interrupt of this line.
    Waiting(u8),
    Ended,
}

/// A thread of a domain.
#[derive(Clone, Copy)]
pub struct Thread {
    pub state: ThreadState,
    pub pc: u32,
    pub regs: Regs,
}

impl ThreadState {
    /// Whether it may run.
    #[inline(always)]
    pub fn is_ready(self) -> bool
        ensures ready { result ≡ is_ready self }
    {
        matches!(self, ThreadState::Ready)
    }

    /// Whether it is ready or waiting.
    pub fn is_live(self) -> bool
        ensures live { result ≡ is_live self }
    {
        matches!(self, ThreadState::Ready | ThreadState::Waiting(_))
    }

    /// Whether it waits for this line.
    pub fn waits_for(self, line: u8) -> bool
        ensures waits { result ≡ waits_for line self }
    {
        match self {
            ThreadState::Waiting(other) => other == line,
            _ => false,
        }
    }
}

impl Thread {
    /// Ready at an entry, with all registers 0 but x10.
    pub fn started(entry: u32, argument: u32) -> Self
        ensures started { result ≡ started entry argument }
    {
        let mut regs = Regs::new();
        regs.set(10, argument);
        Thread {
            state: ThreadState::Ready,
            pc: entry,
            regs,
        }
    }

    /// Ready, with the reply (0, 1) in x10 and x11.
    pub fn resumed(mut self) -> Self
        ensures resumed { result ≡ resumed self }
    {
        self.state = ThreadState::Ready;
        self.regs.set(10, 0);
        self.regs.set(11, 1);
        self
    }

    /// Ended, where it is live; else as it is.
    pub fn ended(mut self) -> Self
        ensures ended { result ≡ end_live self }
    {
        if self.state.is_live() {
            self.state = ThreadState::Ended;
        }
        self
    }
}

/// Eight threads. The current one stands apart, so that an instruction works on
/// it directly.
#[derive(Drop)]
pub struct ThreadSet {
    /// The current thread.
    pub active: Thread,
    // its number
    number: u8,
    // by their numbers; what stands at the current one's is stale
    others: [Thread; THREADS],
    ghost below: { number < 8 },
    ghost eight: { length others ≡ 8 },
}

impl ThreadSet {
    ghost use Rattle.thread_set.specs.Models.{threads_model};

    /// Thread 0 is ready at the entry and current, and no other was ever started.
    #[tactic(auto, unfolding(crate::specs::Threads::threads_at_entry, crate::specs::Threads::never))]
    pub fn new(entry: u32) -> Self
        ensures opening { threads_model result ≡ threads_at_entry entry }
    {
        let never = Thread {
            state: ThreadState::Never,
            pc: 0,
            regs: Regs::new(),
        };
        ThreadSet {
            active: Thread {
                state: ThreadState::Ready,
                pc: entry,
                regs: Regs::new(),
            },
            number: 0,
            others: [never; THREADS],
        }
    }

    /// The current thread's number, exactly where it is ready.
    #[inline(always)]
    pub fn current(&self) -> Option<u8>
        ensures current { result ≡ (if is_ready (threads_model self.now).current.state
            then Some (current_number (threads_model self.now)) else None) }
    {
        if self.active.state.is_ready() {
            Some(self.number)
        } else {
            None
        }
    }

    /// Thread `t`, below 8.
    pub fn thread(&self, t: u8) -> Thread
        requires below { t < 8 }
        ensures thread { result ≡ thread_at (threads_model self.now) t }
    {
        if t == self.number {
            self.active
        } else {
            self.others[t as usize]
        }
    }

    /// Whether some thread is ready or waiting.
    pub fn live(&self) -> bool
        ensures live { result ≡ list_any (λ x. is_live x.state) (all_of (threads_model self.now)) }
    {
        let (before, after) = self.apart();
        is_any_live(before, &self.active, after)
    }

    /// Gives thread `t`, below 8, a pc and registers; its state stays.
    pub fn set(&mut self, t: u8, pc: u32, regs: &Regs)
        requires below { t < 8 }
        ensures set { threads_model self.new ≡ with_thread (threads_model self.old) t
            (record (thread_at (threads_model self.old) t) { pc = pc; regs = regs.now }) }
    {
        let mut thread = self.thread(t);
        thread.pc = pc;
        thread.regs = *regs;
        self.put(t, thread);
    }

    /// Starts the least-numbered thread that isn't live at an entry, all
    /// registers 0 but x10, and answers its number; `None` exactly where all
    /// eight are live, and then nothing changes.
    #[tactic(auto, unfolding(crate::specs::Threads::spawned))]
    pub fn spawn(&mut self, entry: u32, argument: u32) -> Option<u8>
        ensures spawned { threads_model self.new ≡ spawned (threads_model self.old) entry argument }
        ensures number { result ≡ vacant (threads_model self.old) }
        ensures none { IsNone result ↔ All (λ x. is_live x.state ≡ true) (all_of (threads_model self.old)) }
        ensures unchanged { IfNone result (threads_model self.new ≡ threads_model self.old) }
    {
        match self.vacant() {
            Some(t) => {
                self.put(t, Thread::started(entry, argument));
                Some(t)
            }
            None => None,
        }
    }

    /// The next ready thread in cyclic order is current; it may be the same one.
    pub fn yield_now(&mut self)
        requires ready { is_ready (threads_model self.old).current.state ≡ true }
        ensures yielded { threads_model self.new ≡ yielded (threads_model self.old) }
    {
        self.pass_turn();
    }

    /// The current thread waits for a line, and gives way.
    #[tactic(auto, unfolding(crate::specs::Threads::blocked, crate::specs::Threads::with_current))]
    pub fn block(&mut self, line: u8)
        requires ready { is_ready (threads_model self.old).current.state ≡ true }
        ensures blocked { threads_model self.new ≡ blocked line (threads_model self.old) }
    {
        self.active.state = ThreadState::Waiting(line);
        self.give_way();
    }

    /// The current thread is ended, and gives way.
    #[tactic(auto, unfolding(crate::specs::Threads::finished, crate::specs::Threads::with_current))]
    pub fn finish(&mut self)
        requires ready { is_ready (threads_model self.old).current.state ≡ true }
        ensures finished { threads_model self.new ≡ finished (threads_model self.old) }
    {
        self.active.state = ThreadState::Ended;
        self.give_way();
    }

    /// Makes the least-numbered thread that waits for a line ready, with the
    /// reply (0, 1); a current thread that isn't ready gives way. Answers whether
    /// one waited: where none did, nothing changes.
    #[tactic(auto, unfolding(crate::specs::Threads::woken))]
    pub fn wake(&mut self, line: u8) -> bool
        ensures woken { threads_model self.new ≡ woken line (threads_model self.old) }
        ensures waited { IsTrue result ↔ IsSome (waiter line (threads_model self.old)) }
        ensures unchanged { OnFalse result (threads_model self.new ≡ threads_model self.old) }
    {
        match self.waiter(line) {
            Some(t) => {
                let thread = self.thread(t).resumed();
                self.put(t, thread);
                self.give_way();
                true
            }
            None => false,
        }
    }

    /// Every live thread is ended.
    #[tactic(auto, unfolding(crate::specs::Threads::all_ended))]
    pub fn end_all(&mut self)
        ensures ended { threads_model self.new ≡ all_ended (threads_model self.old) }
    {
        self.active = self.active.ended();
        for t in 0..THREADS {
            self.others[t] = self.others[t].ended();
        }
    }

    // The least-numbered thread that isn't live.
    #[tactic(auto, unfolding(crate::specs::Threads::vacant))]
    fn vacant(&self) -> Option<u8>
        ensures vacant { result ≡ vacant (threads_model self.now) }
    {
        let (before, after) = self.apart();
        match place_of_vacant(before, &self.active, after) {
            Some(t) => Some(t as u8),
            None => None,
        }
    }

    // The least-numbered thread that waits for a line.
    #[tactic(auto, unfolding(crate::specs::Threads::waiter))]
    fn waiter(&self, line: u8) -> Option<u8>
        ensures waiter { result ≡ waiter line (threads_model self.now) }
    {
        let (before, after) = self.apart();
        match place_of_waiter(line, before, &self.active, after) {
            Some(t) => Some(t as u8),
            None => None,
        }
    }

    // The next ready thread but the current one, in cyclic order.
    fn next_ready(&self) -> Option<u8>
        ensures next { result ≡ option_map (λ n. (self.now.number + 1 + n) % 8)
            (position (λ x. is_ready x.state)
            (drop (self.now.number + 1) self.now.others ++ take self.now.number self.now.others)) }
    {
        let (before, after) = self.apart();
        match place_of_ready(after, before) {
            Some(n) => Some(((self.number as usize + 1 + n) % THREADS) as u8),
            None => None,
        }
    }

    // The threads before the current one, and those after it.
    fn apart(&self) -> (&[Thread], &[Thread])
        ensures before { result.0.now ≡ (threads_model self.now).before }
        ensures after { result.1.now ≡ (threads_model self.now).after }
        ensures eight { length result.0.now + 1 + length result.1.now ≡ 8 }
    {
        let others = self.others.as_slice();
        let n = self.number as usize;
        (&others[..n], &others[n + 1..])
    }

    // The next ready thread in cyclic order is current, where there is one.
    fn pass_turn(&mut self)
        ensures yielded { threads_model self.new ≡ yielded (threads_model self.old) }
    {
        if let Some(t) = self.next_ready() {
            self.others[self.number as usize] = self.active;
            self.active = self.others[t as usize];
            self.number = t;
        }
    }

    // A current thread that isn't ready gives way.
    #[tactic(auto, unfolding(crate::specs::Threads::given_way))]
    fn give_way(&mut self)
        ensures given { threads_model self.new ≡ given_way (threads_model self.old) }
    {
        if !self.active.state.is_ready() {
            self.pass_turn();
        }
    }

    // Thread `t` is this one.
    fn put(&mut self, t: u8, thread: Thread)
        requires below { t < 8 }
        ensures put { threads_model self.new ≡ with_thread (threads_model self.old) t thread }
    {
        if t == self.number {
            self.active = thread;
        } else {
            self.others[t as usize] = thread;
        }
    }
}

// Whether one of these threads is live.
fn is_any_live(before: &[Thread], current: &Thread, after: &[Thread]) -> bool
    ensures live { result ≡ list_any (λ x. is_live x.state) (before.now ++ current.now ∷ after.now) }
{
    let rest = slice::from_ref(current).iter().chain(after);
    before.iter().chain(rest).any(|x| x.state.is_live())
}

// The place of the first of these threads that isn't live.
fn place_of_vacant(before: &[Thread], current: &Thread, after: &[Thread]) -> Option<usize>
    ensures place { result ≡ position (λ x. not (is_live x.state)) (before.now ++ current.now ∷ after.now) }
{
    let rest = slice::from_ref(current).iter().chain(after);
    before.iter().chain(rest).position(|x| !x.state.is_live())
}

// The place of the first of these threads that waits for a line.
fn place_of_waiter(line: u8, before: &[Thread], current: &Thread, after: &[Thread]) -> Option<usize>
    ensures place { result ≡ position (λ x. waits_for line x.state) (before.now ++ current.now ∷ after.now) }
{
    let rest = slice::from_ref(current).iter().chain(after);
    before
        .iter()
        .chain(rest)
        .position(|x| x.state.waits_for(line))
}

// The place of the first of these threads that is ready.
fn place_of_ready(first: &[Thread], second: &[Thread]) -> Option<usize>
    ensures place { result ≡ position (λ x. is_ready x.state) (first.now ++ second.now) }
{
    first.iter().chain(second).position(|x| x.state.is_ready())
}
