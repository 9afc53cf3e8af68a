// Which domains the tenant's record keeps: those from which a chain of boxes leads to its own.
ghost use Rattle.std.specs.Prelude.{◌≡◌, ◌||◌, length, map, nat_eq, IfOk};
ghost use Rattle.image_record.specs.Models.{raw_model};
ghost use Rattle.image_record.specs.Parts.{mailbox_model};
ghost use Rattle.image_record.specs.Numbers.{natural_of};
ghost use Rattle.image_redact.specs.Redacted as spec;

use image_record::{Raw, RawMailbox};
use std::alloc::Global;
use tp_base::Memory;

/// Of each domain whether a chain of boxes leads from it to domain `d`.
///
/// # Errors
///
/// `Memory` where memory runs out.
#[tactic(auto, unfolding(crate::specs::Redacted::kept_domains))]
pub(crate) fn kept_domains(alloc: Global, raw: &Raw, d: usize) -> Result<Vec<bool>, Memory>
    ensures kept { IfOk result (λ v. v.items ≡ spec.kept_domains (raw_model raw.now) d) }
{
    let domains = raw.domains.len();
    let mut kept = itself(alloc, domains, d)?;
    for _ in 0..domains {
        kept = with_senders(alloc, raw.mail.as_slice(), kept.as_slice())?;
    }
    Ok(kept)
}

// Domain `d` alone.
fn itself(alloc: Global, domains: usize, d: usize) -> Result<Vec<bool>, Memory>
    ensures kept { IfOk result (λ v. v.items ≡ spec.each_below domains (λ e. nat_eq e d)) }
{
    let mut kept = Vec::new(alloc);
    for e in 0..domains {
        kept.push(e == d)?;
    }
    Ok(kept)
}

// These, and those from which a box leads to one of them.
fn with_senders(alloc: Global, mail: &[RawMailbox], kept: &[bool]) -> Result<Vec<bool>, Memory>
    ensures kept { IfOk result (λ v. v.items ≡ spec.each_below (length kept.now)
        (λ e. spec.is_among kept.now e || spec.tells (map mailbox_model mail.now) kept.now e)) }
{
    let mut more = Vec::new(alloc);
    for e in 0..kept.len() {
        let keeps = is_among(kept, e as u64) || tells(mail, kept, e as u64);
        more.push(keeps)?;
    }
    Ok(more)
}

// Whether a box leads from domain `e` to one of these.
fn tells(mail: &[RawMailbox], kept: &[bool], e: u64) -> bool
    ensures value { result ≡ spec.tells (map mailbox_model mail.now) kept.now e }
{
    for mailbox in mail {
        if number_of(mailbox.from) == e && is_among(kept, number_of(mailbox.to)) {
            return true;
        }
    }
    false
}

// The number of a domain; of a record that breaks no rule each is one.
fn number_of(number: i64) -> u64
    ensures value { result ≡ natural_of number }
{
    if number < 0 { 0 } else { number as u64 }
}

// Whether domain `e` is one of these.
fn is_among(kept: &[bool], e: u64) -> bool
    ensures value { result ≡ spec.is_among kept.now e }
{
    if e < kept.len() as u64 {
        kept[e as usize]
    } else {
        false
    }
}
