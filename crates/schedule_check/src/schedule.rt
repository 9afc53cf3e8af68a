// K16, the rule of the schedule.
ghost use Rattle.std.specs.Prelude.{◌≡◌, ◌<◌, ◌^◌, map};
ghost use Rattle.image_record.specs.Models.{raw_model};
ghost use Rattle.image_record.specs.Parts.{entry_model};
ghost use Rattle.image_record.specs.Cases as cases;
ghost use Rattle.image_record.specs.Outcomes.{IsVerdict};
ghost use Rattle.schedule_check.specs.Schedule as spec;

use image_record::cases::{count_case, outside, refusal};
use image_record::{Raw, RawEntry, Refusal};

pub(crate) fn is_number(many: usize, number: i64) -> bool
    requires small { many < 2 ^ 63 }
    ensures value { result ≡ spec.is_number many number }
{
    0 <= number && number < many as i64
}

fn entry_case(domains: usize, place: usize, text: &RawEntry) -> Result<(), Refusal>
    requires domains { domains < 2 ^ 63 }
    requires place { place < 2 ^ 63 }
    ensures verdict { IsVerdict result (spec.k16_case domains place (entry_model text.now)) }
{
    if !is_number(domains, text.domain) {
        return Err(refusal(16, place as i64, text.domain, 2));
    }
    if outside(1000, 1_000_000, text.length) {
        return Err(refusal(16, place as i64, text.length, 3));
    }
    if outside(0, 1_000_000, text.pad) {
        return Err(refusal(16, place as i64, text.pad, 4));
    }
    Ok(())
}

fn entry_cases(domains: usize, texts: &[RawEntry]) -> Result<(), Refusal>
    requires domains { domains < 2 ^ 63 }
    ensures verdict { IsVerdict result
        (cases.first_in (spec.k16_entry domains) (map entry_model texts.now)) }
{
    for (place, text) in texts.iter().enumerate() {
        entry_case(domains, place, text)?;
    }
    Ok(())
}

fn most_entries(version: u8) -> usize
    ensures value { result ≡ spec.most_entries version }
{
    if version == 1 { 64 } else { 256 }
}

/// K16: 1 to 64 entries, in the second version 256, each of a domain that is
/// there, a length and a pad.
///
/// # Errors
///
/// The first broken case.
pub fn k16(raw: &Raw) -> Result<(), Refusal>
    ensures verdict { IsVerdict result (spec.k16 (raw_model raw.now)) }
{
    let texts = raw.schedule.as_slice();
    count_case(16, 0, 1, most_entries(raw.version), texts.len())?;
    entry_cases(raw.domains.len(), texts)
}
