// The calls on mailboxes.
ghost use Rattle.std.specs.Prelude.{◌≡◌, ◌≢◌, ◌^◌, ◌<◌, ◌≤◌, true, IfSome, slice_index};
ghost use Rattle.kernel_clone.specs.Models.{work_model, IsWork};
ghost use Rattle.kernel_clone.specs.Permissions.{is_mail};
ghost use Rattle.pad_bound.specs.Worst.{IsCallWork};
ghost use Rattle.call_table.specs.Domain.{Dom};
ghost use Rattle.call_table.specs.Claims.{Estate};
ghost use Rattle.call_table.specs.Mail as spec;
ghost use Rattle.kernel_call.specs.Facts.{Valid};
ghost use Rattle.kernel_call.specs.Calls.{KeepsParts, IsRefused};
ghost use Rattle.kernel_call.specs.Mailboxes.{ComesTo, IsRefusal, CallsIn};

use crate::Domain;
use crate::error::mail_error;
use crate::outcome::{Outcome, plain};
use crate::reply::reply_to;
use call_table::Reply;
use kernel_clone::Call;
use mail_slots::Mail;
use phys_mem::PhysMem;
use tp_base::DomainNo;

// SEND: domain `d` puts the word `b` into box `a`.
fn send(mail: &mut Mail, d: DomainNo, a: u32, b: u32) -> Reply
    ensures comes_to { (e : Estate) (x : Dom) → e.number ≡ d
        → ComesTo (spec.send_word e x a b mail.old) mail.new result x }
    ensures refused { IsRefusal mail.old mail.new result }
{
    match mail.send(d, a, b) {
        Ok(()) => Reply { code: 0, value: 0 },
        Err(refusal) => mail_error(refusal).reply(),
    }
}

// RECV: domain `d` takes the first word that came in box `a`.
fn receive(mail: &mut Mail, d: DomainNo, a: u32) -> Reply
    ensures comes_to { (e : Estate) (x : Dom) → e.number ≡ d
        → ComesTo (spec.receive_word e x a mail.old) mail.new result x }
    ensures refused { IsRefusal mail.old mail.new result }
{
    match mail.recv(d, a) {
        Ok(value) => Reply { code: 0, value },
        Err(refusal) => mail_error(refusal).reply(),
    }
}

/// The call on mailboxes with this number.
pub fn mail_call(
    domain: &mut Domain,
    memory: &PhysMem,
    number: u32,
    args: [u32; 3],
    mail: &mut Mail,
) -> Outcome
    requires valid { Valid memory.now domain.old }
    requires replies { domain.old.replies.count < 2 ^ 63 }
    requires number { is_mail number ≡ true }
    ensures calls { CallsIn number args result memory.now mail.old domain.old memory.now mail.new domain.new }
    ensures valid { Valid memory.now domain.new }
    ensures keeps { KeepsParts domain.old domain.new }
    ensures refused { IfSome result.reply (λ r. r.code ≢ 0 → IsRefused domain.old domain.new r) }
    ensures mail { IfSome result.reply (λ r. r.code ≢ 0 → mail.new ≡ mail.old) }
    ensures operation { result.work.op ≡ number }
    ensures work { IsCallWork (work_model result.work) }
    ensures in_memory { IsWork result.work }
{
    // For the prover: what is said of memory.
    let _ = memory;
    let [a, b, _] = args;
    let reply = if number == u32::from(Call::Send.number()) {
        send(mail, domain.number, a, b)
    } else {
        receive(mail, domain.number, a)
    };
    Outcome {
        reply: Some(reply_to(domain, reply)),
        work: plain(number as u8),
    }
}
