// The rules of colours and of the frames that have them, each with its first
// broken case.
ghost use Rattle.std.specs.Prelude.{◌≡◌, ◌<◌, ◌≤◌, ◌^◌, map, length, None, IfSome, IfOk};
ghost use Rattle.std.specs.List.{All};
ghost use Rattle.frame_colours.specs.Colours.{whole_of};
ghost use Rattle.image_record.specs.Models.{raw_model};
ghost use Rattle.image_record.specs.Parts.{domain_model};
ghost use Rattle.image_record.specs.Cases.{first_in};
ghost use Rattle.image_record.specs.Numbers.{natural_of as spec_natural_of};
ghost use Rattle.image_record.specs.Outcomes.{IsVerdict, IsVerdictOrMemory};
ghost use Rattle.domain_check.specs.Colours as spec;

use crate::regions::need_of;
use frame_colours::pool_length;
use image_record::cases::{outside, refusal};
use image_record::{Raw, RawDomain, ReadRefusal, Refusal, names, natural_of};
use std::alloc::Global;

#[tactic(auto, unfolding(crate::specs::Colours::k8_colour), using(crate::proofs::Shares::colour_most, crate::proofs::Shares::colour_natural))]
fn k8_colour(colours: u32, d: usize, earlier: &[i64], colour: i64) -> Result<u8, Refusal>
    requires few { colours ≤ 64 }
    requires domain { d < 2 ^ 63 }
    ensures verdict { IsVerdict result (spec.k8_colour colours d earlier.now colour) }
    ensures value { IfOk result (λ c. c ≡ spec_natural_of colour) }
{
    if outside(1, i64::from(colours.saturating_sub(1)), colour) {
        return Err(refusal(8, d as i64, colour, i64::from(colours)));
    }
    if names(earlier, colour) {
        return Err(refusal(8, d as i64, colour, i64::from(colours)));
    }
    Ok(natural_of(colour) as u8)
}

fn k8_colours(alloc: Global, colours: u32, d: usize, own: &[i64]) -> Result<Vec<u8>, ReadRefusal>
    requires few { colours ≤ 64 }
    requires domain { d < 2 ^ 63 }
    ensures verdict { IsVerdictOrMemory result (first_in (spec.k8_colour colours d) own.now) }
    ensures value { IfOk result (λ v. v.items ≡ map spec_natural_of own.now) }
{
    let mut found = Vec::new(alloc);
    for (place, colour) in own.iter().enumerate() {
        found.push(k8_colour(colours, d, &own[..place], *colour)?)?;
    }
    Ok(found)
}

fn k8_domains(
    alloc: Global,
    colours: u32,
    domains: &[RawDomain],
) -> Result<Vec<Vec<u8>>, ReadRefusal>
    requires few { colours ≤ 64 }
    ensures verdict { IsVerdictOrMemory result
        (first_in (spec.k8_domain colours) (map domain_model domains.now)) }
    ensures value { IfOk result (λ v. map (λ c. c.items) v.items
        ≡ map spec.own_colours (map domain_model domains.now)) }
{
    let mut found = Vec::new(alloc);
    for (d, domain) in domains.iter().enumerate() {
        found.push(k8_colours(alloc, colours, d, domain.colours.as_slice())?)?;
    }
    Ok(found)
}

/// K8, where there are so many colours: each colour is below their number, none
/// is the kernel's, and a domain names none twice; so the colours of each domain.
///
/// # Errors
///
/// `Broken` with the first broken case; `Memory` where memory runs out.
#[tactic(auto, unfolding(crate::specs::Colours::k8))]
pub fn k8(alloc: Global, colours: u32, raw: &Raw) -> Result<Vec<Vec<u8>>, ReadRefusal>
    requires few { colours ≤ 64 }
    ensures verdict { IsVerdictOrMemory result (spec.k8 colours (raw_model raw.now)) }
    ensures value { IfOk result (λ v. map (λ c. c.items) v.items
        ≡ map spec.own_colours (raw_model raw.now).domains) }
{
    k8_domains(alloc, colours, raw.domains.as_slice())
}

/// The place of the first domain that has this colour.
fn coloured_so(colour: i64, domains: &[RawDomain]) -> Option<usize>
    ensures value { result ≡ first_in (spec.coloured_so colour) (map domain_model domains.now) }
    ensures small { IfSome result (λ e. e < 2 ^ 63) }
{
    for (e, domain) in domains.iter().enumerate() {
        if names(domain.colours.as_slice(), colour) {
            return Some(e);
        }
    }
    None
}

fn k9_colours(earlier: &[RawDomain], colours: &[i64]) -> Result<(), Refusal>
    requires domain { length earlier.now < 2 ^ 63 }
    ensures verdict { IsVerdict result
        (first_in (spec.k9_colour (map domain_model earlier.now)) colours.now) }
{
    for colour in colours {
        if let Some(e) = coloured_so(*colour, earlier) {
            return Err(refusal(9, earlier.len() as i64, *colour, e as i64));
        }
    }
    Ok(())
}

/// K9: no colour is that of an earlier domain.
///
/// # Errors
///
/// The first broken case.
#[tactic(auto, unfolding(crate::specs::Colours::k9))]
pub fn k9(raw: &Raw) -> Result<(), Refusal>
    ensures verdict { IsVerdict result (spec.k9 (raw_model raw.now)) }
{
    let domains = raw.domains.as_slice();
    for (d, domain) in domains.iter().enumerate() {
        k9_colours(&domains[..d], domain.colours.as_slice())?;
    }
    Ok(())
}

#[tactic(auto, unfolding(crate::specs::Colours::k10_case))]
fn k10_case(
    frames: u32,
    colours: u32,
    d: usize,
    own: &[u8],
    domain: &RawDomain,
) -> Result<(), Refusal>
    requires some { 0 < colours }
    requires few { colours ≤ 64 }
    requires domain { d < 2 ^ 63 }
    requires small { spec.IsSmallDomain (domain_model domain.now) }
    requires own { own.now ≡ spec.own_colours (domain_model domain.now) }
    ensures verdict { IsVerdict result
        (spec.k10_case (whole_of frames colours) d (domain_model domain.now)) }
{
    let pool = pool_length(frames, colours, own);
    let need = need_of(domain.segments.as_slice());
    if u64::from(pool) < need {
        return Err(refusal(10, d as i64, i64::from(pool), need as i64));
    }
    Ok(())
}

fn k10_domains(
    frames: u32,
    colours: u32,
    owns: &[Vec<u8>],
    domains: &[RawDomain],
) -> Result<(), Refusal>
    requires some { 0 < colours }
    requires few { colours ≤ 64 }
    requires small { All (λ o. spec.IsSmallDomain (domain_model o)) domains.now }
    requires owns { map (λ c. c.items) owns.now ≡ map spec.own_colours (map domain_model domains.now) }
    ensures verdict { IsVerdict result
        (first_in (spec.k10_domain (whole_of frames colours)) (map domain_model domains.now)) }
{
    for (d, domain) in domains.iter().enumerate() {
        k10_case(frames, colours, d, owns[d].as_slice(), domain)?;
    }
    Ok(())
}

/// K10, where a memory of so many frames has so many colours: a domain's colours,
/// as K8 hands them out, have frames for its pages, its page tables and its clone
/// of the kernel.
///
/// # Errors
///
/// The first broken case.
#[tactic(auto, unfolding(crate::specs::Colours::k10))]
pub fn k10(frames: u32, colours: u32, owns: &[Vec<u8>], raw: &Raw) -> Result<(), Refusal>
    requires some { 0 < colours }
    requires few { colours ≤ 64 }
    requires owns { map (λ c. c.items) owns.now ≡ map spec.own_colours (raw_model raw.now).domains }
    ensures verdict { IsVerdict result (spec.k10 (whole_of frames colours) (raw_model raw.now)) }
{
    k10_domains(frames, colours, owns, raw.domains.as_slice())
}
