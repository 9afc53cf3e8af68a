// The kernel call that a domain makes.
ghost use Rattle.std.specs.Prelude.{◌≡◌, ◌≢◌, ◌^◌, ◌<◌, ◌≤◌, not, true, false, IfErr, IfNone, IfSome, slice_index};
ghost use Rattle.kernel_clone.specs.Footprints.{call_number};
ghost use Rattle.kernel_clone.specs.Models.{work_model, IsWork};
ghost use Rattle.kernel_clone.specs.Permissions.{is_call, is_mail, is_of_memory, may_make, permitted as spec_permitted};
ghost use Rattle.pad_bound.specs.Worst.{IsCallWork, IsPermitted};
ghost use Rattle.thread_set.specs.Threads.{is_ready};
ghost use Rattle.call_table.specs.Calls as spec;
ghost use Rattle.kernel_call.specs.Facts.{Valid, Does, KeepsRest, nothing, with_work};
ghost use Rattle.kernel_call.specs.Calls.{Calls, KeepsParts, IsRefused};
ghost use Rattle.kernel_call.specs.Mailboxes.{CallsIn};

use crate::error::CallError;
use crate::frames::{alloc, delete, revoke};
use crate::mailboxes::mail_call;
use crate::outcome::{Outcome, has_places, no_work, plain};
use crate::reply::reply_to;
use crate::slots::copy;
use crate::tables::{install, map_page, unmap};
use crate::threads::call_without_memory;
use crate::{Domain, PRINTED};
use call_table::Reply;
use kernel_clone::{BAD_CALL, Call, Work, has_call, is_mail};
use mail_slots::Mail;
use phys_mem::PhysMem;

// PUT: prints the low byte of `a`.
fn put_byte(domain: &mut Domain, memory: &PhysMem, a: u32) -> Result<u32, CallError>
    requires valid { Valid memory.now domain.old }
    ensures does { (work : Work) → work_model work ≡ nothing 1
        → Does 1 (λ e d. spec.put_byte d a) (with_work result work) memory.now domain.old memory.now domain.new }
    ensures rest { KeepsRest domain.old domain.new }
    ensures unchanged { IfErr result (λ error. domain.new ≡ domain.old) }
{
    if domain.printed.len() >= PRINTED {
        return Err(CallError::OutputFull);
    }
    domain.printed.push((a & 0xff) as u8).unwrap();
    Ok(0)
}

// Whether a call leaves memory, frames and slots alone: one that ends the
// domain, or is on interrupt lines or threads.
fn leaves_memory(call: Call) -> bool
    ensures value { result ≡ not (is_of_memory (call_number call)) }
{
    !matches!(
        call,
        Call::Put
            | Call::Alloc
            | Call::Table
            | Call::Map
            | Call::Unmap
            | Call::Copy
            | Call::Delete
            | Call::Revoke
    )
}

// A call on memory, frames or slots: its value. It tells its work where that stands
// in the end, since a work is large, and a copy of it costs.
fn perform(
    domain: &mut Domain,
    memory: &mut PhysMem,
    work: &mut Work,
    call: Call,
    args: [u32; 3],
) -> Result<u32, CallError>
    requires valid { Valid memory.old domain.old }
    requires on_memory { is_of_memory (call_number call) ≡ true }
    requires fresh { work_model work.old ≡ nothing (call_number call) }
    ensures does { Does (call_number call)
        (λ e d. spec.call_of e d (call_number call)
        (slice_index args 0) (slice_index args 1) (slice_index args 2))
        (with_work result work.new) memory.old domain.old memory.new domain.new }
    ensures rest { KeepsRest domain.old domain.new }
    ensures unchanged { IfErr result (λ error. domain.new ≡ domain.old) }
    ensures memory { IfErr result (λ error. memory.new ≡ memory.old) }
    ensures unwritten { IfErr result (λ error. work.new ≡ work.old) }
    ensures frames { memory.new.frames ≡ memory.old.frames }
{
    let [a, b, c] = args;
    match call {
        Call::Put => put_byte(domain, memory, a),
        Call::Alloc => alloc(domain, memory, work, a, b),
        Call::Table => install(domain, memory, work, a, b),
        Call::Map => map_page(domain, memory, work, a, b, c),
        Call::Unmap => unmap(domain, memory, work, a),
        Call::Copy => copy(domain, memory, a, b, c),
        Call::Delete => delete(domain, memory, work, a),
        _ => revoke(domain, memory, work, a),
    }
}

// A call, with its reply.
fn make(domain: &mut Domain, memory: &mut PhysMem, call: Call, args: [u32; 3]) -> Outcome
    requires valid { Valid memory.old domain.old }
    requires ready { is_ready domain.old.threads.active.state ≡ true }
    requires replies { domain.old.replies.count < 2 ^ 63 }
    ensures calls { Calls (call_number call) args result memory.old domain.old memory.new domain.new }
    ensures valid { Valid memory.new domain.new }
    ensures keeps { KeepsParts domain.old domain.new }
    ensures frames { memory.new.frames ≡ memory.old.frames }
    ensures refused { IfSome result.reply (λ r. r.code ≢ 0 → IsRefused domain.old domain.new r) }
    ensures memory { IfSome result.reply (λ r. r.code ≢ 0 → memory.new ≡ memory.old) }
    ensures operation { result.work.op ≡ call_number call }
    ensures work { IsCallWork (work_model result.work) }
    ensures in_memory { memory.old.frames ≤ 2 ^ 15 → IsWork result.work }
{
    let mut work = no_work(call);
    if leaves_memory(call) {
        return Outcome {
            reply: call_without_memory(domain, call, args),
            work,
        };
    }
    match perform(domain, memory, &mut work, call, args) {
        Ok(value) => {
            has_places(&work);
            Outcome {
                reply: Some(reply_to(domain, Reply { code: 0, value })),
                work,
            }
        }
        Err(error) => Outcome {
            reply: Some(reply_to(domain, error.reply())),
            work,
        },
    }
}

// The call with this number, if it is one of these.
fn permitted(calls: u32, number: u32) -> Option<Call>
    ensures number { IfSome result (λ call. call_number call ≡ spec_permitted calls number) }
    ensures allowed { IfSome result (λ call. may_make calls (call_number call) ≡ true) }
    ensures none { IfNone result (is_call (spec_permitted calls number) ≡ false) }
{
    let call = Call::of(number)?;
    if call.is_in(calls) { Some(call) } else { None }
}

/// The kernel call with this number and these arguments, of the domain's
/// current thread, which must be ready, where there are no mailboxes. A number of no
/// call, or of a call that the domain may not make, is a bad call, and so is one on
/// mailboxes. Takes no memory.
pub fn call_on_memory(
    domain: &mut Domain,
    memory: &mut PhysMem,
    number: u32,
    args: [u32; 3],
) -> Outcome
    requires valid { Valid memory.old domain.old }
    requires ready { is_ready domain.old.threads.active.state ≡ true }
    requires replies { domain.old.replies.count < 2 ^ 63 }
    ensures calls { Calls (spec_permitted domain.old.calls number) args result
        memory.old domain.old memory.new domain.new }
    ensures valid { Valid memory.new domain.new }
    ensures keeps { KeepsParts domain.old domain.new }
    ensures frames { memory.new.frames ≡ memory.old.frames }
    ensures refused { IfSome result.reply (λ r. r.code ≢ 0 → IsRefused domain.old domain.new r) }
    ensures memory { IfSome result.reply (λ r. r.code ≢ 0 → memory.new ≡ memory.old) }
    ensures operation { result.work.op ≡ spec.op_of (spec_permitted domain.old.calls number) }
    ensures permitted { IsPermitted domain.old.calls (work_model result.work) }
    ensures work { IsCallWork (work_model result.work) }
    ensures in_memory { memory.old.frames ≤ 2 ^ 15 → IsWork result.work }
    ensures buffer { spec.empties_buffer result.work.op result.reply
        ≡ spec.empties_buffer (spec_permitted domain.old.calls number) result.reply }
{
    match permitted(domain.calls, number) {
        Some(call) => make(domain, memory, call, args),
        None => Outcome {
            reply: Some(reply_to(domain, CallError::BadCall.reply())),
            work: plain(BAD_CALL),
        },
    }
}

// Whether it is a call on mailboxes that is made, and the domain may make it.
fn is_mail_made(calls: u32, number: u32) -> bool
    ensures value { result ≡ is_mail (spec_permitted calls number) }
    ensures number { result ≡ true → spec_permitted calls number ≡ number }
    ensures allowed { result ≡ true → may_make calls number ≡ true }
{
    is_mail(number) && has_call(calls, number)
}

/// The kernel call with this number and these arguments, of the domain's current
/// thread, which must be ready. A number of no call, or of a call that the domain may
/// not make, is a bad call. Takes no memory.
pub fn call(
    domain: &mut Domain,
    memory: &mut PhysMem,
    number: u32,
    args: [u32; 3],
    mail: &mut Mail,
) -> Outcome
    requires valid { Valid memory.old domain.old }
    requires ready { is_ready domain.old.threads.active.state ≡ true }
    requires replies { domain.old.replies.count < 2 ^ 63 }
    ensures calls { CallsIn (spec_permitted domain.old.calls number) args result
        memory.old mail.old domain.old memory.new mail.new domain.new }
    ensures valid { Valid memory.new domain.new }
    ensures keeps { KeepsParts domain.old domain.new }
    ensures frames { memory.new.frames ≡ memory.old.frames }
    ensures refused { IfSome result.reply (λ r. r.code ≢ 0 → IsRefused domain.old domain.new r) }
    ensures memory { IfSome result.reply (λ r. r.code ≢ 0 → memory.new ≡ memory.old) }
    ensures mail { IfSome result.reply (λ r. r.code ≢ 0 → mail.new ≡ mail.old) }
    ensures operation { result.work.op ≡ spec.op_of (spec_permitted domain.old.calls number) }
    ensures permitted { IsPermitted domain.old.calls (work_model result.work) }
    ensures work { IsCallWork (work_model result.work) }
    ensures in_memory { memory.old.frames ≤ 2 ^ 15 → IsWork result.work }
    ensures buffer { spec.empties_buffer result.work.op result.reply
        ≡ spec.empties_buffer (spec_permitted domain.old.calls number) result.reply }
{
    if is_mail_made(domain.calls, number) {
        return mail_call(domain, memory, number, args, mail);
    }
    call_on_memory(domain, memory, number, args)
}
