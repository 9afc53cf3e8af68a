// The numbers of parties.
ghost use Rattle.std.specs.Prelude.{◌≡◌, ◌<◌, ◌≤◌, ◌^◌, length, map, IfSome};
ghost use Rattle.std.specs.List.{position};
ghost use Rattle.image_record.specs.Numbers.{is_same};
ghost use Rattle.lend_check.specs.Lending.{said};
ghost use Rattle.lend_check.specs.Parties as spec;
ghost use Rattle.lend_check.specs.Rule.{IsOfDomain};
ghost use Rattle.lend_check.specs.Models.{domain_model, entry_model};

use crate::lending::{LendingDomain, LendingEntry};
use image_record::natural_of;
use tp_base::DomainNo;

/// How many colours these domains lend.
pub(crate) fn lent_count(domains: &[LendingDomain]) -> usize
    requires few { length (said (map domain_model domains.now)) < 2 ^ 63 }
    ensures value { result ≡ length (said (map domain_model domains.now)) }
{
    let mut count = 0;
    for domain in domains {
        count += domain.lend.len();
    }
    count
}

/// The place of a colour in a domain's list.
fn place_in(lend: &[i64], colour: i64) -> Option<usize>
    ensures value { result ≡ position (λ other. is_same other colour) lend.now }
    ensures within { IfSome result (λ k. k < length lend.now) }
{
    lend.iter().position(|&other| other == colour)
}

/// The number of the child of a colour that a domain lends: how many domains there
/// are, and the colour's place among all that are lent. None where it lends no such.
pub fn child_number(domains: &[LendingDomain], domain: usize, colour: i64) -> Option<DomainNo>
    requires few { spec.parties (map domain_model domains.now) ≤ 32 }
    ensures value { result ≡ spec.child_number (map domain_model domains.now) domain colour }
{
    let place = place_in(domains.get(domain)?.lend.as_slice(), colour)?;
    let number = domains.len() + lent_count(&domains[..domain]) + place;
    Some(DomainNo::new(number as u8))
}

/// The number of the party whose entry it is, which is its domain or a child of this
/// one. None where the domain doesn't lend the child's colour.
pub fn entry_number(domains: &[LendingDomain], entry: &LendingEntry) -> Option<DomainNo>
    requires few { spec.parties (map domain_model domains.now) ≤ 32 }
    requires domain { IsOfDomain (length domains.now) (entry_model entry.now) }
    ensures value { result
        ≡ spec.number_of (map domain_model domains.now) (spec.party_of (entry_model entry.now)) }
{
    let domain = natural_of(entry.domain);
    match entry.lend {
        None => Some(DomainNo::new(domain as u8)),
        Some(colour) => child_number(domains, domain as usize, colour),
    }
}
