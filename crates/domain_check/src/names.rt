// K7, the rule of domains and their names.
ghost use Rattle.std.specs.Prelude.{◌≡◌, ◌≤◌, ◌<◌, map, length, IfSome, IfNone};
ghost use Rattle.std.specs.List.{list_all};
ghost use Rattle.image_record.specs.Models.{raw_model};
ghost use Rattle.image_record.specs.Parts.{domain_model};
ghost use Rattle.image_record.specs.Cases as cases;
ghost use Rattle.image_record.specs.Outcomes.{IsVerdict};
ghost use Rattle.domain_check.specs.Names as spec;

use image_record::cases::{count_case, refusal};
use image_record::{Raw, RawDomain, Refusal};

fn has_name_bytes(text: &[u8]) -> bool
    ensures value { result ≡ list_all spec.is_name_byte text.now }
{
    text.iter().all(|&c| matches!(c, b'a'..=b'z' | b'0'..=b'9'))
}

fn is_name(text: &str) -> bool
    ensures value { result ≡ spec.is_name text.now }
{
    if text.is_empty() || text.len() > 16 {
        return false;
    }
    has_name_bytes(text.as_bytes())
}

/// The place of the first domain of this name.
fn named_so(name: &str, domains: &[RawDomain]) -> Option<usize>
    requires few { length domains.now ≤ 32 }
    ensures value { result ≡ cases.first_in (spec.named_so name.now) (map domain_model domains.now) }
    ensures small { IfSome result (λ e. e < 32) }
{
    for (e, domain) in domains.iter().enumerate() {
        if domain.name.as_str() == name {
            return Some(e);
        }
    }
    None
}

#[tactic(auto, unfolding(crate::specs::Names::k7_domain))]
fn k7_domain(earlier: &[RawDomain], domain: &RawDomain) -> Result<(), Refusal>
    requires few { length earlier.now ≤ 32 }
    ensures verdict { IsVerdict result
        (spec.k7_domain (map domain_model earlier.now) (domain_model domain.now)) }
{
    let d = earlier.len() as i64;
    let name = domain.name.as_str();
    if !is_name(name) {
        return Err(refusal(7, d, name.len() as i64, 16));
    }
    match named_so(name, earlier) {
        Some(e) => Err(refusal(7, d, e as i64, 0)),
        None => Ok(()),
    }
}

fn k7_domains(domains: &[RawDomain]) -> Result<(), Refusal>
    requires few { length domains.now ≤ 32 }
    ensures verdict { IsVerdict result (cases.first_in spec.k7_domain (map domain_model domains.now)) }
{
    for (d, domain) in domains.iter().enumerate() {
        k7_domain(&domains[..d], domain)?;
    }
    Ok(())
}

fn most_domains(version: u8) -> u32
    ensures value { result ≡ spec.most_domains version }
    ensures few { result ≤ 32 }
{
    if version == 1 { 16 } else { 32 }
}

/// K7: 1 to 16 domains, in the second version 32, each of a name of its own.
///
/// # Errors
///
/// The first broken case.
#[tactic(auto, unfolding(crate::specs::Names::k7))]
pub fn k7(raw: &Raw) -> Result<(), Refusal>
    ensures verdict { IsVerdict result (spec.k7 (raw_model raw.now)) }
{
    let domains = raw.domains.as_slice();
    let most = most_domains(raw.version);
    count_case(7, most, most, most as usize, domains.len())?;
    k7_domains(domains)
}
