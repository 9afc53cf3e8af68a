//! Laws of the definitions, in the words of threads and their numbers.
ghost use Rattle.std.specs.Prelude.{◌≡◌, ◌≢◌, ℕ, ◌<◌, ◌≤◌, true, false, Some};
ghost use Rattle.thread_set.specs.Threads.{
  Threads,
  AreThreads,
  current_number,
  thread_at,
  is_ready,
  is_live,
  waits_for,
  in_state,
  between,
  yielded,
  given_way,
  with_thread,
  threads_at_entry,
  vacant,
  started,
  spawned,
  blocked,
  finished,
  waiter,
  resumed,
  woken,
  end_live,
  all_ended,
};
ghost use Rattle.thread_set.specs.Models.{threads_model};
ghost use Rattle.thread_set.specs.declared.Thread.{Thread};
ghost use Rattle.thread_set.specs.declared.ThreadState.TheVariants.{Waiting, Ended};

use crate::ThreadSet;

/// After a turn is passed on, the current thread is a ready one where any is, and
/// no ready thread stands between the one that was current and it in cyclic order
/// (8 numbers, 0 after 7, the one that was current last). No thread changes. A
/// current thread that isn't ready gives way to a ready one wherever one is.
pub fn next_in_turn()
    ensures ready { (ts : Threads) (t : ℕ) → AreThreads ts → t < 8
        → is_ready (thread_at ts t).state ≡ true → is_ready (yielded ts).current.state ≡ true }
    ensures soonest { (ts : Threads) (t : ℕ) → AreThreads ts → t < 8
        → is_ready (thread_at ts t).state ≡ true
        → between (current_number ts) (current_number (yielded ts)) ≤ between (current_number ts) t }
    ensures none { (ts : Threads) → AreThreads ts
        → ((t : ℕ) → t < 8 → is_ready (thread_at ts t).state ≡ false) → yielded ts ≡ ts }
    ensures same { (ts : Threads) (t : ℕ) → AreThreads ts → thread_at (yielded ts) t ≡ thread_at ts t }
    ensures gives_way { (ts : Threads) (t : ℕ) → AreThreads ts → t < 8
        → is_ready (thread_at ts t).state ≡ true → is_ready (given_way ts).current.state ≡ true }
    ensures gives_same { (ts : Threads) (t : ℕ) → AreThreads ts
        → thread_at (given_way ts) t ≡ thread_at ts t }
{}

/// What blocks or ends changes the state of the thread that was current, and
/// nothing else of any thread.
pub fn block_and_finish()
    ensures blocked { (ts : Threads) (line : ℕ) → AreThreads ts
        → thread_at (blocked line ts) (current_number ts) ≡ in_state (Waiting line) ts.current }
    ensures block_others { (ts : Threads) (line t : ℕ) → AreThreads ts → t ≢ current_number ts
        → thread_at (blocked line ts) t ≡ thread_at ts t }
    ensures finished { (ts : Threads) → AreThreads ts
        → thread_at (finished ts) (current_number ts) ≡ in_state Ended ts.current }
    ensures finish_others { (ts : Threads) (t : ℕ) → AreThreads ts → t ≢ current_number ts
        → thread_at (finished ts) t ≡ thread_at ts t }
{}

/// A line wakes the thread that waits for it with the least number, and changes
/// no other; where none waits, nothing changes.
pub fn wake_the_least()
    ensures waits { (ts : Threads) (line w : ℕ) → AreThreads ts → waiter line ts ≡ Some w
        → waits_for line (thread_at ts w).state ≡ true }
    ensures least { (ts : Threads) (line w t : ℕ) → AreThreads ts → waiter line ts ≡ Some w → t < 8
        → waits_for line (thread_at ts t).state ≡ true → w ≤ t }
    ensures woken { (ts : Threads) (line w : ℕ) → AreThreads ts → waiter line ts ≡ Some w
        → thread_at (woken line ts) w ≡ resumed (thread_at ts w) }
    ensures others { (ts : Threads) (line w t : ℕ) → AreThreads ts → waiter line ts ≡ Some w → t ≢ w
        → thread_at (woken line ts) t ≡ thread_at ts t }
    ensures none { (ts : Threads) (line : ℕ) → AreThreads ts
        → ((t : ℕ) → t < 8 → waits_for line (thread_at ts t).state ≡ false) → woken line ts ≡ ts }
{}

/// What is started is the thread with the least number that isn't live, and no
/// other changes.
pub fn start_the_least()
    ensures vacant { (ts : Threads) (v : ℕ) → AreThreads ts → vacant ts ≡ Some v
        → is_live (thread_at ts v).state ≡ false }
    ensures least { (ts : Threads) (v t : ℕ) → AreThreads ts → vacant ts ≡ Some v → t < 8
        → is_live (thread_at ts t).state ≡ false → v ≤ t }
    ensures started { (ts : Threads) (entry argument v : ℕ) → AreThreads ts → vacant ts ≡ Some v
        → thread_at (spawned ts entry argument) v ≡ started entry argument }
    ensures others { (ts : Threads) (entry argument v t : ℕ) → AreThreads ts → vacant ts ≡ Some v → t ≢ v
        → thread_at (spawned ts entry argument) t ≡ thread_at ts t }
{}

/// A thread that is put in the place of another changes that one alone, and the
/// turn stays; and each thread is ended where it was live, where all are.
pub fn each_is_apart()
    ensures put { (ts : Threads) (t : ℕ) (x : Thread) → AreThreads ts → t < 8
        → thread_at (with_thread ts t x) t ≡ x }
    ensures put_others { (ts : Threads) (t other : ℕ) (x : Thread) → AreThreads ts → other ≢ t
        → thread_at (with_thread ts t x) other ≡ thread_at ts other }
    ensures put_turn { (ts : Threads) (t : ℕ) (x : Thread) → AreThreads ts
        → current_number (with_thread ts t x) ≡ current_number ts }
    ensures ended { (ts : Threads) (t : ℕ) → AreThreads ts → t < 8
        → thread_at (all_ended ts) t ≡ end_live (thread_at ts t) }
    ensures ended_turn { (ts : Threads) → current_number (all_ended ts) ≡ current_number ts }
{}

/// There are eight threads.
pub fn are_eight(threads: &ThreadSet)
    ensures eight { AreThreads (threads_model threads.now) }
{
    let _ = threads;
}

/// There are eight threads, whatever is done.
pub fn eight_are_kept()
    ensures opening { (entry : ℕ) → AreThreads (threads_at_entry entry) }
    ensures put { (ts : Threads) (t : ℕ) (x : Thread) → AreThreads ts → AreThreads (with_thread ts t x) }
    ensures yielded { (ts : Threads) → AreThreads ts → AreThreads (yielded ts) }
    ensures spawned { (ts : Threads) (entry argument : ℕ) → AreThreads ts
        → AreThreads (spawned ts entry argument) }
    ensures blocked { (ts : Threads) (line : ℕ) → AreThreads ts → AreThreads (blocked line ts) }
    ensures finished { (ts : Threads) → AreThreads ts → AreThreads (finished ts) }
    ensures woken { (ts : Threads) (line : ℕ) → AreThreads ts → AreThreads (woken line ts) }
    ensures ended { (ts : Threads) → AreThreads ts → AreThreads (all_ended ts) }
{}
