// Calls that leave memory alone: EXIT, and those on interrupt lines and on
// threads. Deliveries of interrupts.
ghost use Rattle.std.specs.Prelude.{◌≡◌, ◌≢◌, ℕ, ◌+◌, ◌^◌, ◌<◌, ◌≤◌, true, false, [], length, slice_index, Some, None, IfSome, option_map};
ghost use Rattle.phys_mem.specs.Contents.{Contents};
ghost use Rattle.kernel_clone.specs.Footprints.{call_number};
ghost use Rattle.kernel_clone.specs.Models.{work_model, IsWork};
ghost use Rattle.kernel_clone.specs.Permissions.{is_of_memory};
ghost use Rattle.pad_bound.specs.Worst.{IsCallWork};
ghost use Rattle.thread_set.specs.Threads.{is_ready};
ghost use Rattle.irq_partition.specs.Interrupts.{next_of};
ghost use Rattle.call_table.specs.Domain as domain_spec;
ghost use Rattle.call_table.specs.Calls as spec;
ghost use Rattle.kernel_call.specs.Models.{Becomes};
ghost use Rattle.kernel_call.specs.Facts.{Valid};
ghost use Rattle.kernel_call.specs.Calls.{KeepsParts, IsRefused};
ghost use Rattle.kernel_call.specs.Threads.{Answers, KeepsAtSignal, KeepsAtDelivery};

use crate::Domain;
use crate::error::CallError;
use crate::outcome::plain;
use crate::reply::reply_to;
use crate::slots::line_at;
use call_table::{DomainStatus, Reply};
use kernel_clone::{Call, DELIVERY, Work};

/// A call that leaves memory alone: EXIT, and those on interrupt lines and on
/// threads. Those on mailboxes are none here.
pub fn call_without_memory(domain: &mut Domain, call: Call, args: [u32; 3]) -> Option<Reply>
    requires ready { is_ready domain.old.threads.active.state ≡ true }
    requires replies { domain.old.replies.count < 2 ^ 63 }
    requires others { is_of_memory (call_number call) ≡ false }
    ensures answers { Answers
        (λ e d. spec.call_of e d (call_number call)
        (slice_index args 0) (slice_index args 1) (slice_index args 2))
        result domain.old domain.new }
    ensures keeps { KeepsParts domain.old domain.new }
    ensures caps { domain.new.caps ≡ domain.old.caps }
    ensures pool { domain.new.pool ≡ domain.old.pool }
    ensures refused { IfSome result (λ r. r.code ≢ 0 → IsRefused domain.old domain.new r) }
{
    let [a, b, _] = args;
    match call {
        Call::Exit => exit(domain, a),
        Call::Poll => poll(domain, a),
        Call::Wait => wait(domain, a),
        Call::Signal => signal(domain, a),
        Call::Spawn => spawn(domain, a, b),
        Call::Yield => yield_turn(domain),
        Call::EndThread => end_thread(domain),
        _ => Some(reply_to(domain, CallError::BadCall.reply())),
    }
}

// EXIT: the domain and its threads are ended.
#[tactic(auto, unfolding(call_table::specs::Domain::exited))]
fn exit(domain: &mut Domain, code: u32) -> Option<Reply>
    ensures reply { result ≡ None }
    ensures becomes { Becomes (domain_spec.exited code) domain.old domain.new }
    ensures keeps { KeepsParts domain.old domain.new }
    ensures caps { domain.new.caps ≡ domain.old.caps }
    ensures pool { domain.new.pool ≡ domain.old.pool }
{
    domain.status = DomainStatus::Exited(code);
    domain.threads.end_all();
    None
}

// POLL: whether the bit of the line in slot `a` is set, which is cleared.
#[tactic(auto, unfolding(irq_partition::specs::Interrupts::with_bit))]
fn poll(domain: &mut Domain, a: u32) -> Option<Reply>
    requires replies { domain.old.replies.count < 2 ^ 63 }
    ensures answers { Answers (λ e d. spec.poll d a) result domain.old domain.new }
    ensures keeps { KeepsParts domain.old domain.new }
    ensures caps { domain.new.caps ≡ domain.old.caps }
    ensures pool { domain.new.pool ≡ domain.old.pool }
    ensures refused { IfSome result (λ r. r.code ≢ 0 → IsRefused domain.old domain.new r) }
{
    let line = match line_at(domain, a) {
        Ok(line) => line,
        Err(error) => return Some(reply_to(domain, error.reply())),
    };
    let value = u32::from(domain.interrupts.poll(line));
    Some(reply_to(domain, Reply { code: 0, value }))
}

// WAIT: as POLL where the bit is set; else the thread waits for the line in
// slot `a`, past its call, and has its reply when it is woken.
#[tactic(auto, unfolding(irq_partition::specs::Interrupts::with_bit))]
fn wait(domain: &mut Domain, a: u32) -> Option<Reply>
    requires ready { is_ready domain.old.threads.active.state ≡ true }
    requires replies { domain.old.replies.count < 2 ^ 63 }
    ensures answers { Answers (λ e d. spec.wait d a) result domain.old domain.new }
    ensures keeps { KeepsParts domain.old domain.new }
    ensures caps { domain.new.caps ≡ domain.old.caps }
    ensures pool { domain.new.pool ≡ domain.old.pool }
    ensures refused { IfSome result (λ r. r.code ≢ 0 → IsRefused domain.old domain.new r) }
{
    let line = match line_at(domain, a) {
        Ok(line) => line,
        Err(error) => return Some(reply_to(domain, error.reply())),
    };
    if domain.interrupts.poll(line) {
        return Some(reply_to(domain, Reply { code: 0, value: 1 }));
    }
    domain.threads.active.pc = domain.threads.active.pc.wrapping_add(4);
    domain.threads.block(line);
    None
}

// SIGNAL: as a delivery of the line in slot `a`.
fn signal(domain: &mut Domain, a: u32) -> Option<Reply>
    requires replies { domain.old.replies.count < 2 ^ 63 }
    ensures answers { Answers (λ e d. spec.signal d a) result domain.old domain.new }
    ensures keeps { KeepsParts domain.old domain.new }
    ensures caps { domain.new.caps ≡ domain.old.caps }
    ensures pool { domain.new.pool ≡ domain.old.pool }
    ensures refused { IfSome result (λ r. r.code ≢ 0 → IsRefused domain.old domain.new r) }
{
    let line = match line_at(domain, a) {
        Ok(line) => line,
        Err(error) => return Some(reply_to(domain, error.reply())),
    };
    signal_line(domain, line);
    Some(reply_to(domain, Reply { code: 0, value: 0 }))
}

// SPAWN: the least-numbered thread that isn't live starts at `a`, with `b` in
// x10, and its number is the value.
fn spawn(domain: &mut Domain, a: u32, b: u32) -> Option<Reply>
    requires replies { domain.old.replies.count < 2 ^ 63 }
    ensures answers { Answers (λ e d. spec.spawn d a b) result domain.old domain.new }
    ensures keeps { KeepsParts domain.old domain.new }
    ensures caps { domain.new.caps ≡ domain.old.caps }
    ensures pool { domain.new.pool ≡ domain.old.pool }
    ensures refused { IfSome result (λ r. r.code ≢ 0 → IsRefused domain.old domain.new r) }
{
    if !a.is_multiple_of(4) {
        return Some(reply_to(domain, CallError::BadAddress.reply()));
    }
    match domain.threads.spawn(a, b) {
        Some(t) => {
            let value = u32::from(t);
            Some(reply_to(domain, Reply { code: 0, value }))
        }
        None => Some(reply_to(domain, CallError::NoThread.reply())),
    }
}

// YIELD: the next ready thread is current, once this one has its reply.
fn yield_turn(domain: &mut Domain) -> Option<Reply>
    requires ready { is_ready domain.old.threads.active.state ≡ true }
    requires replies { domain.old.replies.count < 2 ^ 63 }
    ensures reply { result ≡ Some (record { code = 0; value = 0 }) }
    ensures becomes { Becomes (λ d. domain_spec.turned (domain_spec.done 0 d)) domain.old domain.new }
    ensures keeps { KeepsParts domain.old domain.new }
    ensures caps { domain.new.caps ≡ domain.old.caps }
    ensures pool { domain.new.pool ≡ domain.old.pool }
{
    let reply = reply_to(domain, Reply { code: 0, value: 0 });
    domain.threads.yield_now();
    Some(reply)
}

// ENDTHREAD: the current thread is ended, at its call, and the domain with the
// last live one.
#[tactic(auto, unfolding(call_table::specs::Domain::thread_ended))]
fn end_thread(domain: &mut Domain) -> Option<Reply>
    requires ready { is_ready domain.old.threads.active.state ≡ true }
    ensures reply { result ≡ None }
    ensures becomes { Becomes domain_spec.thread_ended domain.old domain.new }
    ensures keeps { KeepsParts domain.old domain.new }
    ensures caps { domain.new.caps ≡ domain.old.caps }
    ensures pool { domain.new.pool ≡ domain.old.pool }
{
    domain.threads.finish();
    if !domain.threads.live() {
        domain.status = DomainStatus::Exited(0);
    }
    None
}

// Where a thread waits for the line, the least-numbered such is ready, and its
// reply is recorded; else the line's bit is set.
#[tactic(auto, unfolding(irq_partition::specs::Interrupts::with_bit))]
fn signal_line(domain: &mut Domain, line: u8)
    requires below { line < 32 }
    requires replies { domain.old.replies.count < 2 ^ 63 }
    ensures becomes { Becomes (domain_spec.signalled line) domain.old domain.new }
    ensures keeps { KeepsAtSignal domain.old.interrupts.delivered domain.old domain.new }
{
    if domain.threads.wake(line) {
        domain.replies.push(Reply { code: 0, value: 1 });
        return;
    }
    domain.interrupts.signal(line);
}

/// Delivers the first moment that isn't delivered, of which there must be one:
/// where a thread waits for its line, the least-numbered such is ready; else
/// the line's bit is set. Takes no memory.
#[tactic(auto, unfolding(irq_partition::specs::Interrupts::delivered))]
pub fn deliver(domain: &mut Domain) -> Work
    requires left { domain.old.interrupts.delivered < length domain.old.interrupts.moments }
    requires replies { domain.old.replies.count < 2 ^ 63 }
    ensures delivers { (line : ℕ) → option_map (λ x. x.line) (next_of domain.old.interrupts) ≡ Some line
        → Becomes (domain_spec.delivered_on line) domain.old domain.new }
    ensures work { work_model result ≡ record { op = 15; zeroed = None; entries = [] } }
    ensures is_work { IsWork result }
    ensures call_work { IsCallWork (work_model result) }
    ensures keeps { KeepsAtDelivery domain.old domain.new }
    ensures valid { (memory : Contents) → Valid memory domain.old → Valid memory domain.new }
{
    let due = domain.interrupts.deliver();
    signal_line(domain, due);
    plain(DELIVERY)
}
