// K19, the rule of harts, and the entries that it lets through.
ghost use Rattle.std.specs.Prelude.{◌≡◌, ◌<◌, ◌≤◌, ◌^◌, length, map, None, IfOk};
ghost use Rattle.std.specs.List.{All, list_any};
ghost use Rattle.image_record.specs.Models.{raw_model};
ghost use Rattle.image_record.specs.Parts.{entry_model};
ghost use Rattle.image_record.specs.Cases.{first_in};
ghost use Rattle.image_record.specs.Outcomes.{IsVerdict, IsVerdictOrMemory, Makes};
ghost use Rattle.schedule_check.specs.Schedule.{k16, IsSmallEntry, entry_of};
ghost use Rattle.schedule_check.specs.Harts as spec;

use image_record::cases::{outside, refusal};
use image_record::{Raw, RawEntry, ReadRefusal, Refusal, natural_of};
use sched_table::{Entry, harts_in};
use std::alloc::Global;

#[tactic(auto, unfolding(crate::specs::Harts::hart_case))]
fn hart_case(place: usize, text: &RawEntry) -> Result<(), Refusal>
    requires place { place < 2 ^ 63 }
    ensures verdict { IsVerdict result (spec.hart_case place (entry_model text.now)) }
{
    if outside(0, 3, text.hart) {
        return Err(refusal(19, place as i64, text.hart, 1));
    }
    Ok(())
}

fn hart_cases(texts: &[RawEntry]) -> Result<(), Refusal>
    ensures verdict { IsVerdict result (first_in spec.k19_entry (map entry_model texts.now)) }
{
    for (place, text) in texts.iter().enumerate() {
        hart_case(place, text)?;
    }
    Ok(())
}

fn entry_from(text: &RawEntry) -> Entry
    requires small { IsSmallEntry (entry_model text.now) }
    ensures value { result ≡ entry_of (entry_model text.now) }
{
    Entry {
        domain: natural_of(text.domain) as u8,
        length: natural_of(text.length) as u32,
        pad: natural_of(text.pad) as u32,
        hart: natural_of(text.hart) as u8,
    }
}

fn entries_in(alloc: Global, texts: &[RawEntry]) -> Result<Vec<Entry>, ReadRefusal>
    requires small { All (λ e. IsSmallEntry (entry_model e)) texts.now }
    ensures value { Makes (λ v. v.items) result (map entry_of (map entry_model texts.now)) }
{
    let mut entries = Vec::new(alloc);
    for text in texts {
        entries.push(entry_from(text))?;
    }
    Ok(entries)
}

fn has_entry(entries: &[Entry], hart: u8) -> bool
    ensures value { result ≡ spec.has_entry entries.now hart }
{
    for entry in entries {
        if entry.hart == hart {
            return true;
        }
    }
    false
}

#[tactic(auto, unfolding(crate::specs::Harts::k19_hart))]
fn k19_hart(entries: &[Entry], hart: u8) -> Result<(), Refusal>
    ensures verdict { IsVerdict result (spec.k19_hart entries.now hart) }
{
    if u32::from(hart) + 1 < harts_in(entries) && !has_entry(entries, hart) {
        return Err(refusal(19, i64::from(hart), 0, 2));
    }
    Ok(())
}

/// Whether one of the entries is of the same domain on another hart.
fn is_elsewhere(entry: &Entry, earlier: &[Entry]) -> bool
    ensures value { result ≡ list_any (spec.is_elsewhere entry.now) earlier.now }
{
    for other in earlier {
        if other.domain == entry.domain && other.hart != entry.hart {
            return true;
        }
    }
    false
}

fn k19_domains(entries: &[Entry]) -> Result<(), Refusal>
    ensures verdict { IsVerdict result (first_in spec.k19_domain entries.now) }
{
    for (place, entry) in entries.iter().enumerate() {
        if is_elsewhere(entry, &entries[..place]) {
            return Err(refusal(19, place as i64, i64::from(entry.domain), 3));
        }
    }
    Ok(())
}

fn k19_entries(entries: &[Entry]) -> Result<(), Refusal>
    ensures verdict { IsVerdict result (spec.k19_entries entries.now) }
{
    k19_hart(entries, 0)?;
    k19_hart(entries, 1)?;
    k19_hart(entries, 2)?;
    k19_domains(entries)
}

/// K19: each entry is on one of harts 0 to 3, each hart below the greatest has an
/// entry, and no domain is on two; so the entries.
///
/// # Errors
///
/// `Broken` with the first broken case; `Memory` where memory runs out.
#[tactic(auto, unfolding(crate::specs::Harts::k19))]
pub fn k19(alloc: Global, raw: &Raw) -> Result<Vec<Entry>, ReadRefusal>
    requires domains { length (raw_model raw.now).domains ≤ 32 }
    requires schedule { k16 (raw_model raw.now) ≡ None }
    ensures verdict { IsVerdictOrMemory result (spec.k19 (raw_model raw.now)) }
    ensures value { IfOk result (λ v. v.items ≡ map entry_of (raw_model raw.now).schedule) }
{
    let texts = raw.schedule.as_slice();
    hart_cases(texts)?;
    let entries = entries_in(alloc, texts)?;
    k19_entries(entries.as_slice())?;
    Ok(entries)
}
