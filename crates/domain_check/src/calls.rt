// K18, the rule of the calls that a domain may make; and which those are.
ghost use Rattle.std.specs.Prelude.{◌≡◌, ◌-◌, ◌<◌, ◌^◌, ◌&&◌, pos, if◌then◌else◌, map, length, slice_get, option_map};
ghost use Rattle.kernel_clone.specs.Permissions.{is_call as spec_is_call, calls_end, calls_of as spec_calls_of};
ghost use Rattle.image_record.specs.Models.{raw_model};
ghost use Rattle.image_record.specs.Cases.{first_in};
ghost use Rattle.image_record.specs.Outcomes.{IsVerdict, Makes};
ghost use Rattle.domain_check.specs.Calls as spec;
ghost use Rattle.image_record.specs.Numbers.{names as spec_names};

use image_record::cases::refusal;
use image_record::{Raw, ReadRefusal, Refusal, names};
use kernel_clone::{CALLS_END, EVERY_CALL, is_call};
use std::alloc::Global;

/// The number that a refusal names: that of the last call that is on no mailboxes.
const LAST_CALL: i64 = 14;

/// Whether a number that an image says is a call's.
fn names_call(number: i64) -> bool
    ensures value { result ≡ spec.names_call number }
{
    0 <= number && number < i64::from(CALLS_END) && is_call(number as u32)
}

/// Whether a number is above the last of the earlier ones, if there is one.
fn is_next(earlier: &[i64], number: i64) -> bool
    ensures value { result ≡ spec.is_next (slice_get earlier.now (length earlier.now - 1)) number }
{
    match earlier.last() {
        Some(before) => *before < number,
        None => true,
    }
}

#[tactic(auto, unfolding(crate::specs::Calls::k18_call))]
fn k18_call(d: usize, earlier: &[i64], call: i64) -> Result<(), Refusal>
    requires domain { d < 2 ^ 63 }
    requires place { length earlier.now < 2 ^ 63 }
    ensures verdict { IsVerdict result (spec.k18_call d earlier.now call) }
{
    if !names_call(call) || !is_next(earlier, call) {
        return Err(refusal(18, d as i64, earlier.len() as i64, LAST_CALL));
    }
    Ok(())
}

fn k18_calls(d: usize, calls: &[i64]) -> Result<(), Refusal>
    requires domain { d < 2 ^ 63 }
    ensures verdict { IsVerdict result (first_in (spec.k18_call d) calls.now) }
{
    for (place, call) in calls.iter().enumerate() {
        k18_call(d, &calls[..place], *call)?;
    }
    Ok(())
}

fn listed(calls: &Option<Vec<i64>>) -> &[i64]
    ensures value { result.now ≡ spec.listed (option_map (λ v. v.items) calls.now) }
{
    match calls {
        Some(calls) => calls.as_slice(),
        None => &[],
    }
}

/// K18: each number that a domain lists is a call's, and above the one before.
///
/// # Errors
///
/// The first broken case.
#[tactic(auto, unfolding(crate::specs::Calls::k18))]
pub fn k18(raw: &Raw) -> Result<(), Refusal>
    ensures verdict { IsVerdict result (spec.k18 (raw_model raw.now)) }
{
    for (d, domain) in raw.domains.iter().enumerate() {
        k18_calls(d, listed(&domain.calls))?;
    }
    Ok(())
}

/// The bit of a call, where it is named.
fn bit_of(numbers: &[i64], call: u32) -> u32
    requires call { call < calls_end }
    ensures value { result ≡ (if spec_is_call call && spec_names numbers.now (pos call) then 2 ^ call else 0) }
{
    if is_call(call) && names(numbers, i64::from(call)) {
        1 << call
    } else {
        0
    }
}

fn calls_among(numbers: &[i64]) -> u32
    ensures value { result ≡ spec_calls_of (λ n. spec_names numbers.now (pos n)) }
{
    let mut calls = 0;
    for call in 0..CALLS_END {
        calls += bit_of(numbers, call);
    }
    calls
}

/// The calls that a list names, a bit each: bit n is that of call n. Numbers that
/// are no call's count for nothing; without a list it is every call.
#[tactic(auto, unfolding(crate::specs::Calls::calls_in, kernel_clone::specs::Permissions::calls_below))]
pub fn calls_of(calls: &Option<Vec<i64>>) -> u32
    ensures value { result ≡ spec.calls_in (option_map (λ v. v.items) calls.now) }
{
    match calls {
        Some(calls) => calls_among(calls.as_slice()),
        None => EVERY_CALL,
    }
}

/// The calls of each domain.
///
/// # Errors
///
/// `Memory` alone.
pub fn calls_in(alloc: Global, raw: &Raw) -> Result<Vec<u32>, ReadRefusal>
    ensures value { Makes (λ v. v.items) result (map spec.own_calls (raw_model raw.now).domains) }
{
    let mut found = Vec::new(alloc);
    let domains = raw.domains.as_slice();
    for domain in domains {
        found.push(calls_of(&domain.calls))?;
    }
    Ok(found)
}
