// K20, the rule of mailboxes, and the boxes that it lets through.
ghost use Rattle.std.specs.Prelude.{◌≡◌, ◌<◌, ◌≤◌, ◌^◌, length, map, IfSome, IfOk};
ghost use Rattle.image_record.specs.Models.{raw_model};
ghost use Rattle.image_record.specs.Parts.{mailbox_model};
ghost use Rattle.image_record.specs.Cases.{first_in};
ghost use Rattle.image_record.specs.Numbers.{natural_of as spec_natural_of};
ghost use Rattle.image_record.specs.Outcomes.{IsVerdict, IsVerdictOrMemory};
ghost use Rattle.schedule_check.specs.Mail as spec;

use crate::schedule::is_number;
use image_record::cases::refusal;
use image_record::{Raw, RawMailbox, ReadRefusal, Refusal, natural_of};
use std::alloc::Global;
use tp_base::DomainNo;

/// The most boxes that an image has.
const MOST_BOXES: usize = 64;

/// The domain at an end of a box.
#[tactic(auto, unfolding(crate::specs::Mail::k20_end))]
fn k20_end(domains: usize, place: usize, number: i64) -> Result<DomainNo, Refusal>
    requires domains { domains ≤ 32 }
    requires place { place < 2 ^ 63 }
    ensures verdict { IsVerdict result (spec.k20_end domains place number) }
    ensures value { IfOk result (λ d. d ≡ spec_natural_of number) }
{
    if !is_number(domains, number) {
        return Err(refusal(20, place as i64, number, 2));
    }
    Ok(DomainNo::new(natural_of(number) as u8))
}

#[tactic(auto, unfolding(crate::specs::Mail::k20_apart))]
fn k20_apart(place: usize, mailbox: &RawMailbox) -> Result<(), Refusal>
    requires place { place < 2 ^ 63 }
    ensures verdict { IsVerdict result (spec.k20_apart place (mailbox_model mailbox.now)) }
{
    if mailbox.from == mailbox.to {
        return Err(refusal(20, place as i64, mailbox.from, 3));
    }
    Ok(())
}

fn alike(mailbox: &RawMailbox, other: &RawMailbox) -> bool
    ensures value { result ≡ spec.alike (mailbox_model mailbox.now) (mailbox_model other.now) }
{
    other.from == mailbox.from && other.to == mailbox.to
}

/// The number of the first of these boxes that is from and to the same.
fn first_alike(earlier: &[RawMailbox], mailbox: &RawMailbox) -> Option<usize>
    ensures value { result
        ≡ first_in (spec.if_alike (mailbox_model mailbox.now)) (map mailbox_model earlier.now) }
    ensures small { IfSome result (λ e. e < 2 ^ 63) }
{
    for (e, other) in earlier.iter().enumerate() {
        if alike(mailbox, other) {
            return Some(e);
        }
    }
    None
}

#[tactic(auto, unfolding(crate::specs::Mail::k20_once))]
fn k20_once(earlier: &[RawMailbox], mailbox: &RawMailbox) -> Result<(), Refusal>
    requires place { length earlier.now < 2 ^ 63 }
    ensures verdict { IsVerdict result
        (spec.k20_once (map mailbox_model earlier.now) (mailbox_model mailbox.now)) }
{
    match first_alike(earlier, mailbox) {
        Some(e) => Err(refusal(20, earlier.len() as i64, e as i64, 4)),
        None => Ok(()),
    }
}

#[tactic(auto, unfolding(crate::specs::Mail::k20_box, crate::specs::Mail::box_of))]
fn k20_box(
    domains: usize,
    earlier: &[RawMailbox],
    mailbox: &RawMailbox,
) -> Result<(DomainNo, DomainNo), Refusal>
    requires domains { domains ≤ 32 }
    requires place { length earlier.now < 2 ^ 63 }
    ensures verdict { IsVerdict result
        (spec.k20_box domains (map mailbox_model earlier.now) (mailbox_model mailbox.now)) }
    ensures value { IfOk result (λ b. b ≡ spec.box_of (mailbox_model mailbox.now)) }
{
    let place = earlier.len();
    let from = k20_end(domains, place, mailbox.from)?;
    let to = k20_end(domains, place, mailbox.to)?;
    k20_apart(place, mailbox)?;
    k20_once(earlier, mailbox)?;
    Ok((from, to))
}

fn boxes_in(
    alloc: Global,
    domains: usize,
    mail: &[RawMailbox],
) -> Result<Vec<(DomainNo, DomainNo)>, ReadRefusal>
    requires domains { domains ≤ 32 }
    ensures verdict { IsVerdictOrMemory result
        (first_in (spec.k20_box domains) (map mailbox_model mail.now)) }
    ensures value { IfOk result (λ v. v.items ≡ map spec.box_of (map mailbox_model mail.now)) }
{
    let mut boxes = Vec::new(alloc);
    for (place, mailbox) in mail.iter().enumerate() {
        boxes.push(k20_box(domains, &mail[..place], mailbox)?)?;
    }
    Ok(boxes)
}

/// K20: at most 64 boxes, each from a domain that is there to another one, and no
/// two from the same to the same; so the boxes.
///
/// # Errors
///
/// `Broken` with the first broken case; `Memory` where memory runs out.
#[tactic(auto, unfolding(crate::specs::Mail::k20, crate::specs::Mail::k20_mail))]
pub fn k20(alloc: Global, raw: &Raw) -> Result<Vec<(DomainNo, DomainNo)>, ReadRefusal>
    requires domains { length (raw_model raw.now).domains ≤ 32 }
    ensures verdict { IsVerdictOrMemory result (spec.k20 (raw_model raw.now)) }
    ensures value { IfOk result (λ v. v.items ≡ map spec.box_of (raw_model raw.now).mail) }
{
    let mail = raw.mail.as_slice();
    if mail.len() > MOST_BOXES {
        return Err(ReadRefusal::Broken(refusal(20, 0, mail.len() as i64, 1)));
    }
    boxes_in(alloc, raw.domains.len(), mail)
}
