//! The refusals that name a broken case.
ghost use Rattle.std.specs.Prelude.{◌≡◌, ◌≤◌, ◌<◌, ◌^◌, OnOk};
ghost use Rattle.image_record.specs.Cases as spec;
ghost use Rattle.image_record.specs.Outcomes.{IsVerdict};

use crate::refusal::Refusal;

/// A rule, and its three numbers.
pub fn refusal(rule: u8, at: i64, found: i64, wanted: i64) -> Refusal
    ensures value { result ≡ spec.refusal rule at found wanted }
{
    Refusal {
        rule,
        at,
        found,
        wanted,
    }
}

/// Whether a number is below `low` or above `high`.
pub fn outside(low: i64, high: i64, number: i64) -> bool
    ensures value { result ≡ spec.outside low high number }
{
    number < low || high < number
}

/// The refusal of a number outside its range, which names the end that it
/// passes.
///
/// # Errors
///
/// That refusal.
pub fn range_case(rule: u8, at: i64, low: u32, high: u32, number: i64) -> Result<(), Refusal>
    ensures verdict { IsVerdict result (spec.range_case rule at low high number) }
{
    if number < i64::from(low) {
        return Err(refusal(rule, at, number, i64::from(low)));
    }
    if i64::from(high) < number {
        return Err(refusal(rule, at, number, i64::from(high)));
    }
    Ok(())
}

/// How many there are, where they are not 1 to `most`.
///
/// # Errors
///
/// That refusal.
pub fn count_case(rule: u8, at: u32, wanted: u32, most: usize, many: usize) -> Result<(), Refusal>
    requires small { many < 2 ^ 63 }
    ensures verdict { IsVerdict result (spec.count_case rule at wanted most many) }
    ensures few { OnOk result (many ≤ most) }
{
    if many == 0 || most < many {
        return Err(refusal(rule, i64::from(at), many as i64, i64::from(wanted)));
    }
    Ok(())
}
