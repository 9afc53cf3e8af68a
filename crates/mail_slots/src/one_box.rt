// What is done to one box.
ghost use Rattle.std.specs.Prelude.{◌≡◌, Ok, Err, IfOk, IfErr};
ghost use Rattle.mail_slots.specs.Boxes as spec;
ghost use Rattle.mail_slots.specs.Models.{box_model};

use crate::MailRefusal;
use crate::slot::Slot;
use std::alloc::Global;
use std::mem;
use tp_base::{DomainNo, Memory};

// How many words each list of a box has at most.
const MOST_WORDS: usize = 16;

// A box with no words, and with room for all that it may ever have.
pub(crate) fn empty(alloc: Global, from: DomainNo, to: DomainNo) -> Result<Slot, Memory>
    ensures empty { IfOk result (λ slot. box_model slot ≡ spec.empty_box (from, to)) }
{
    Ok(Slot {
        from,
        to,
        out: Vec::with_capacity(alloc, MOST_WORDS)?,
        sent: Vec::with_capacity(alloc, MOST_WORDS)?,
        inbox: Vec::with_capacity(alloc, MOST_WORDS)?,
    })
}

// Domain `d` puts a word in.
pub(crate) fn put_in(slot: &mut Slot, d: DomainNo, word: u32) -> Result<(), MailRefusal>
    ensures put { IfOk result (λ done. spec.put_in d word (box_model slot.old) ≡ Ok (box_model slot.new)) }
    ensures refused { IfErr result (λ refusal. spec.put_in d word (box_model slot.old) ≡ Err refusal) }
    ensures unchanged { IfErr result (λ refusal. slot.new ≡ slot.old) }
{
    if slot.from != d {
        return Err(MailRefusal::NoBox);
    }
    if slot.out.len() >= MOST_WORDS {
        return Err(MailRefusal::BoxFull);
    }
    slot.out.push(word).unwrap();
    Ok(())
}

// Domain `d` takes the first word that came in.
pub(crate) fn take_out(slot: &mut Slot, d: DomainNo) -> Result<u32, MailRefusal>
    ensures taken { IfOk result (λ word. spec.take_out d (box_model slot.old)
        ≡ Ok (record { word = word; box = box_model slot.new })) }
    ensures refused { IfErr result (λ refusal. spec.take_out d (box_model slot.old) ≡ Err refusal) }
    ensures unchanged { IfErr result (λ refusal. slot.new ≡ slot.old) }
{
    if slot.to != d {
        return Err(MailRefusal::NoBox);
    }
    if slot.inbox.is_empty() {
        return Err(MailRefusal::NoMail);
    }
    Ok(slot.inbox.remove(0))
}

// What was put in waits, in the place of what waited.
fn send_off(slot: &mut Slot)
    ensures becomes { box_model slot.new ≡ spec.sent_off (box_model slot.old) (box_model slot.old).out }
{
    if slot.out.is_empty() {
        return;
    }
    mem::swap(&mut slot.sent, &mut slot.out);
    slot.out.clear();
}

// What waits comes in, in the place of what was not taken.
fn come_in(slot: &mut Slot)
    ensures becomes { box_model slot.new ≡ spec.come_in (box_model slot.old) (box_model slot.old).sent }
{
    if slot.sent.is_empty() {
        return;
    }
    mem::swap(&mut slot.inbox, &mut slot.sent);
    slot.sent.clear();
}

// A slot of domain `d` ends.
pub(crate) fn end_one(slot: &mut Slot, d: DomainNo)
    ensures becomes { box_model slot.new ≡ spec.box_ends d (box_model slot.old) }
{
    if slot.from == d {
        send_off(slot);
    }
}

// A slot of domain `d` begins.
pub(crate) fn begin_one(slot: &mut Slot, d: DomainNo)
    ensures becomes { box_model slot.new ≡ spec.box_begins d (box_model slot.old) }
{
    if slot.to == d {
        come_in(slot);
    }
}
