// K21, the rule of lent colours.
ghost use Rattle.std.specs.Prelude.{◌≡◌, ◌<◌, ◌≤◌, ◌^◌, ◌++◌, length, map, take, OnOk};
ghost use Rattle.frame_colours.specs.Colours.{whole_of};
ghost use Rattle.image_record.specs.Numbers.{names as spec_names};
ghost use Rattle.image_record.specs.Cases.{first_in, first_case};
ghost use Rattle.image_record.specs.Outcomes.{IsVerdict};
ghost use Rattle.lend_check.specs.Lending.{said, lent_by, lend_of};
ghost use Rattle.lend_check.specs.Parties.{parties};
ghost use Rattle.lend_check.specs.Models.{domain_model, entry_model, lending_model};
ghost use Rattle.lend_check.specs.Rule as spec;

use crate::lending::{Lending, LendingDomain, LendingEntry};
use crate::parties::lent_count;
use frame_colours::pool_length;
use image_record::cases::{outside, refusal};
use image_record::{Refusal, names, natural_of};

/// The frames that a child needs: four for its clone of the kernel, a root, a table
/// and a page.
const LEAST_FRAMES: u32 = 7;

fn is_own(domains: &[LendingDomain], colour: i64) -> bool
    ensures value { result ≡ spec.is_own (map domain_model domains.now) colour }
{
    for domain in domains {
        if names(domain.colours.as_slice(), colour) {
            return true;
        }
    }
    false
}

/// Whether one of these first domains lends the colour.
fn is_lent(domains: &[LendingDomain], colour: i64) -> bool
    ensures value { result ≡ spec.is_lent (said (map domain_model domains.now)) colour }
{
    for domain in domains {
        if names(domain.lend.as_slice(), colour) {
            return true;
        }
    }
    false
}

/// Whether a domain before `d` lends the colour, or `d` among those that come earlier.
#[tactic(auto, using(crate::proofs::Walks::any_before))]
fn is_lent_before(domains: &[LendingDomain], d: usize, earlier: &[i64], colour: i64) -> bool
    requires domain { d < length domains.now }
    ensures value { result ≡ spec.is_lent
        (said (map domain_model (take d domains.now)) ++ lent_by d earlier.now) colour }
{
    is_lent(&domains[..d], colour) || names(earlier, colour)
}

fn is_barred(
    colours: u32,
    domains: &[LendingDomain],
    d: usize,
    earlier: &[i64],
    colour: i64,
) -> bool
    requires some { 0 < colours }
    requires few { colours ≤ 64 }
    requires domain { d < length domains.now }
    ensures value { result ≡ spec.is_barred colours (map domain_model domains.now)
        (said (map domain_model (take d domains.now)) ++ lent_by d earlier.now) colour }
{
    outside(1, i64::from(colours - 1), colour)
        || is_own(domains, colour)
        || is_lent_before(domains, d, earlier, colour)
}

/// The cases of a colour that domain `d` lends after others.
#[tactic(auto, unfolding(crate::specs::Rule::k21_colour))]
fn k21_colour(
    frames: u32,
    colours: u32,
    domains: &[LendingDomain],
    d: usize,
    earlier: &[i64],
    colour: i64,
) -> Result<(), Refusal>
    requires some { 0 < colours }
    requires few { colours ≤ 64 }
    requires domain { d < length domains.now }
    ensures verdict { IsVerdict result
        (spec.k21_colour (whole_of frames colours) (map domain_model domains.now)
        (said (map domain_model (take d domains.now)) ++ lent_by d earlier.now) (d, colour)) }
{
    if is_barred(colours, domains, d, earlier, colour) {
        return Err(refusal(21, d as i64, colour, 1));
    }
    if pool_length(frames, colours, &[natural_of(colour) as u8]) < LEAST_FRAMES {
        return Err(refusal(21, d as i64, colour, 2));
    }
    Ok(())
}

/// The cases of the colours that domain `d` lends.
fn k21_domain(
    frames: u32,
    colours: u32,
    domains: &[LendingDomain],
    d: usize,
    lend: &[i64],
) -> Result<(), Refusal>
    requires some { 0 < colours }
    requires few { colours ≤ 64 }
    requires domain { d < length domains.now }
    ensures verdict { IsVerdict result
        (first_case (spec.k21_colour (whole_of frames colours) (map domain_model domains.now))
        (said (map domain_model (take d domains.now))) (lent_by d lend.now)) }
{
    for (place, colour) in lend.iter().enumerate() {
        k21_colour(frames, colours, domains, d, &lend[..place], *colour)?;
    }
    Ok(())
}

fn k21_colours(frames: u32, colours: u32, domains: &[LendingDomain]) -> Result<(), Refusal>
    requires some { 0 < colours }
    requires few { colours ≤ 64 }
    ensures verdict { let own = map domain_model domains.now in IsVerdict result
        (first_in (spec.k21_colour (whole_of frames colours) own) (said own)) }
{
    for (d, domain) in domains.iter().enumerate() {
        k21_domain(frames, colours, domains, d, domain.lend.as_slice())?;
    }
    Ok(())
}

/// Whether a domain lends the colour, by the domain's number.
fn lends(domains: &[LendingDomain], number: i64, colour: i64) -> bool
    ensures value { result ≡ spec_names (lend_of (map domain_model domains.now) number) colour }
{
    if number < 0 || number >= domains.len() as i64 {
        return false;
    }
    names(domains[number as usize].lend.as_slice(), colour)
}

/// The case of an entry, whose place in the schedule is this.
fn k21_entry(domains: &[LendingDomain], place: usize, entry: &LendingEntry) -> Result<(), Refusal>
    requires place { place < 2 ^ 63 }
    ensures verdict { IsVerdict result (spec.k21_lend place
        (lend_of (map domain_model domains.now) entry.now.domain) entry.now.lend) }
{
    if let Some(colour) = entry.lend {
        if !lends(domains, entry.domain, colour) {
            return Err(refusal(21, place as i64, colour, 3));
        }
    }
    Ok(())
}

fn k21_entries(domains: &[LendingDomain], entries: &[LendingEntry]) -> Result<(), Refusal>
    ensures verdict { IsVerdict result
        (first_in (spec.k21_entry (map domain_model domains.now)) (map entry_model entries.now)) }
{
    for (place, entry) in entries.iter().enumerate() {
        k21_entry(domains, place, entry)?;
    }
    Ok(())
}

/// The most domains and lent colours together.
fn most_parties(version: u8) -> usize
    ensures value { result ≡ spec.most_parties version }
    ensures few { result ≤ 32 }
{
    if version == 1 { 16 } else { 32 }
}

#[tactic(auto, unfolding(crate::specs::Rule::k21_parties))]
fn k21_parties(version: u8, domains: &[LendingDomain]) -> Result<(), Refusal>
    requires few { parties (map domain_model domains.now) < 2 ^ 63 }
    ensures verdict { IsVerdict result (spec.k21_parties version (map domain_model domains.now)) }
    ensures few { OnOk result (parties (map domain_model domains.now) ≤ 32) }
{
    let parties = domains.len() + lent_count(domains);
    if parties > most_parties(version) {
        return Err(refusal(21, 0, parties as i64, 4));
    }
    Ok(())
}

/// K21, where a memory of so many frames has so many colours: a lent colour is one of
/// them, none but the kernel's, no domain's own, lent once, and of at least seven
/// frames; an entry that is set aside is for a colour that its domain lends; and
/// domains and lent colours are at most 16, in the second version 32.
///
/// # Errors
///
/// The first broken case.
#[tactic(auto, unfolding(crate::specs::Rule::k21))]
pub fn k21(frames: u32, colours: u32, lending: &Lending) -> Result<(), Refusal>
    requires some { 0 < colours }
    requires few { colours ≤ 64 }
    ensures verdict { IsVerdict result (spec.k21 (whole_of frames colours) (lending_model lending.now)) }
    ensures few { OnOk result (parties (lending_model lending.now).domains ≤ 32) }
{
    let domains = lending.domains.as_slice();
    k21_colours(frames, colours, domains)?;
    k21_entries(domains, lending.schedule.as_slice())?;
    k21_parties(lending.version, domains)
}
