// The record of an image with all domains emptied but those that are kept.
ghost use Rattle.std.specs.Prelude.{◌≡◌, ◌<◌, ◌∷◌, [], ◌^◌, length, map, option_map, string_bytes, IfOk, OnOk};
ghost use Rattle.image_record.specs.Models.{raw_model};
ghost use Rattle.image_record.specs.Parts.{domain_model, segment_model};
ghost use Rattle.image_redact.specs.Redacted as spec;

use crate::keeping::kept_domains;
use crate::naming::name_beside;
use image_record::{Raw, RawDomain, RawSegment};
use std::alloc::Global;
use tp_base::Memory;

/// The address at which an emptied domain begins.
const ENTRY: u32 = 0x1_0000;

/// ADDI x17, x0, 0 and ECALL: it exits.
const EXIT: &str = "9308000073000000";

/// The record that the tenant of domain `d` may hold: of every domain other than that one
/// and those from which a chain of boxes leads to it, it has the place and the colours alone.
///
/// # Errors
///
/// `Memory` where memory runs out.
#[tactic(auto, unfolding(crate::specs::Redacted::redacted))]
pub fn redacted(alloc: Global, mut raw: Raw, d: u8) -> Result<Raw, Memory>
    requires domain { d < length raw.domains.items }
    ensures made { IfOk result (λ r. raw_model r ≡ spec.redacted (raw_model raw) d) }
{
    let kept = kept_domains(alloc, &raw, usize::from(d))?;
    let taken = names_of(alloc, kept.as_slice(), raw.domains.as_slice())?;
    let domains = all_but(
        alloc,
        raw.version,
        kept.as_slice(),
        taken.as_slice(),
        raw.domains,
    )?;
    raw.domains = domains;
    Ok(raw)
}

// The names of the domains that are kept.
fn names_of(alloc: Global, kept: &[bool], domains: &[RawDomain]) -> Result<Vec<String>, Memory>
    requires each { length kept.now ≡ length domains.now }
    ensures names { IfOk result (λ v. map (λ s. string_bytes s) v.items
        ≡ spec.names_from kept.now 0 (map domain_model domains.now)) }
{
    let mut names = Vec::new(alloc);
    for (e, domain) in domains.iter().enumerate() {
        if kept[e] {
            names.push(String::from_str(alloc, domain.name.as_str())?)?;
        }
    }
    Ok(names)
}

// The domains, with all emptied but those that are kept.
fn all_but(
    alloc: Global,
    version: u8,
    kept: &[bool],
    taken: &[String],
    mut domains: Vec<RawDomain>,
) -> Result<Vec<RawDomain>, Memory>
    requires each { length kept.now ≡ length domains.items }
    ensures made { IfOk result (λ v. map domain_model v.items
        ≡ spec.redacted_from version kept.now (map (λ s. string_bytes s) taken.now) 0 (map domain_model domains.items)) }
{
    for n in 0..domains.len() {
        if kept[n] {
            continue;
        }
        empty(alloc, version, taken, n, &mut domains[n])?;
    }
    Ok(domains)
}

// Leaves domain `n` nothing of its own but its colours.
#[tactic(auto, unfolding(crate::specs::Redacted::emptied))]
fn empty(
    alloc: Global,
    version: u8,
    taken: &[String],
    n: usize,
    domain: &mut RawDomain,
) -> Result<(), Memory>
    requires few { n < 2 ^ 63 }
    ensures emptied { OnOk result (domain_model domain.new
        ≡ spec.emptied version (map (λ s. string_bytes s) taken.now) n (domain_model domain.old)) }
{
    let name = name_beside(alloc, taken, n)?;
    let segments = exit_segments(alloc)?;
    let calls = exit_alone(alloc, version)?;
    domain.name = name;
    domain.entry = ENTRY;
    domain.segments = segments;
    domain.caps.clear();
    domain.lines.clear();
    domain.moments.clear();
    domain.calls = calls;
    Ok(())
}

// A page of a program that exits at once.
fn exit_segments(alloc: Global) -> Result<Vec<RawSegment>, Memory>
    ensures made { IfOk result (λ v. map segment_model v.items ≡ spec.exit_segment ∷ []) }
{
    let rights = String::from_str(alloc, "x")?;
    let hex = String::from_str(alloc, EXIT)?;
    let mut segments = Vec::new(alloc);
    segments.push(RawSegment {
        page: 16,
        pages: 1,
        rights,
        hex,
    })?;
    Ok(segments)
}

// The call EXIT alone; in the first version of the format no domain says its calls.
fn exit_alone(alloc: Global, version: u8) -> Result<Option<Vec<i64>>, Memory>
    ensures calls { IfOk result (λ calls. option_map (λ v. v.items) calls ≡ spec.exit_alone version) }
{
    if version == 1 {
        return Ok(None);
    }
    let mut calls = Vec::new(alloc);
    calls.push(0)?;
    Ok(Some(calls))
}
