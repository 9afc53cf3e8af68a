// What is one domain's own.
ghost use Rattle.std.specs.Prelude.{◌≡◌, [], map, ◌≤◌, length};
ghost use Rattle.std.specs.List.{All};
ghost use Rattle.image_record.specs.Models.{raw_model};
ghost use Rattle.image_record.specs.Parts.{domain_model};
ghost use Rattle.image_record.specs.Outcomes.{Makes};
ghost use Rattle.image_check.specs.Checking.{broken_but_pads};
ghost use Rattle.image_check.specs.Own as spec;
ghost use Rattle.image_check.specs.Parts.{IsPartOf, ArePartsOf};
ghost use Rattle.image_check.specs.Models.{own_model};

use crate::CheckRefusal;
use domain_check::{InitialCap, Named, Segment, caps_from};
use image_record::{Raw, RawDomain};
use irq_partition::Moment;
use kernel_clone::without_mail;
use std::alloc::Global;
use tp_base::DomainNo;

/// What is one domain's own.
#[derive(Drop)]
pub struct Own {
    /// Its place in the image.
    pub number: DomainNo,
    pub name: String,
    /// The colours of its frames.
    pub colours: Vec<u8>,
    /// The address at which it begins.
    pub entry: u32,
    pub segments: Vec<Segment>,
    /// What each capability slot names as it begins; at most 64.
    pub caps: Vec<InitialCap>,
    /// Its interrupt lines, each below 32, which no other domain has.
    pub lines: Vec<u8>,
    /// When its lines interrupt it, in their order; at most 1,024.
    pub moments: Vec<Moment>,
    /// The calls that it lists, a bit each: bit n is that of call n. Its pads are
    /// bound by them.
    pub calls: u32,
    /// The calls that it may make in this image, a bit each: in one without mailboxes
    /// none on them.
    pub makes: u32,
}

/// What the rules let through of one domain.
#[derive(Drop)]
pub struct DomainPart {
    pub colours: Vec<u8>,
    pub segments: Vec<Segment>,
    /// What the slots name.
    pub caps: Vec<Named>,
    pub lines: Vec<u8>,
    pub moments: Vec<Moment>,
    /// The calls that it lists, a bit each.
    pub calls: u32,
}

/// What the rules let through of the domains: of each, in their order.
#[derive(Drop)]
pub struct DomainParts {
    pub colours: Vec<Vec<u8>>,
    pub segments: Vec<Vec<Segment>>,
    /// What the slots name.
    pub caps: Vec<Vec<Named>>,
    pub lines: Vec<Vec<u8>>,
    pub moments: Vec<Vec<Moment>>,
    /// Those that each lists, a bit each.
    pub calls: Vec<u32>,
}

impl DomainParts {
    ghost use Rattle.image_check.specs.Parts.{HasFirst, BeginsWith};

    /// Takes out the parts of the first domain.
    #[tactic(auto, using(crate::proofs::FirstParts::first_and_rest))]
    fn take_first(&mut self) -> DomainPart
        requires first { HasFirst self.old }
        ensures taken { BeginsWith result self.new self.old }
    {
        DomainPart {
            colours: self.colours.remove(0),
            segments: self.segments.remove(0),
            caps: self.caps.remove(0),
            lines: self.lines.remove(0),
            moments: self.moments.remove(0),
            calls: self.calls.remove(0),
        }
    }
}

// Those of the calls that a domain lists which it may make: in an image without
// mailboxes none on them.
fn makes_of(calls: u32, mail: bool) -> u32
    ensures value { result ≡ spec.makes_of mail calls }
{
    if mail { calls } else { without_mail(calls) }
}

#[tactic(auto, unfolding(crate::specs::Own::own_from))]
fn own_from(
    alloc: Global,
    number: DomainNo,
    mail: bool,
    domain: &RawDomain,
    part: DomainPart,
) -> Result<Own, CheckRefusal>
    requires small { spec.IsSmallOwn (domain_model domain.now) }
    requires part { IsPartOf part (domain_model domain.now) }
    ensures value { Makes own_model result (spec.own_from number mail (domain_model domain.now)) }
{
    let name = String::from_str(alloc, domain.name.as_str())?;
    let caps = caps_from(alloc, part.caps.as_slice())?;
    Ok(Own {
        number,
        name,
        colours: part.colours,
        entry: domain.entry,
        segments: part.segments,
        caps,
        lines: part.lines,
        moments: part.moments,
        calls: part.calls,
        makes: makes_of(part.calls, mail),
    })
}

fn owns_in(
    alloc: Global,
    domains: &[RawDomain],
    parts: &mut DomainParts,
    mail: bool,
) -> Result<Vec<Own>, CheckRefusal>
    requires small { All (λ o. spec.IsSmallOwn (domain_model o)) domains.now }
    requires few { length domains.now ≤ 32 }
    requires parts { ArePartsOf parts.old (map domain_model domains.now) }
    ensures value { Makes (λ v. map own_model v.items) result
        (spec.owns_from 0 mail (map domain_model domains.now)) }
{
    let mut owns = Vec::new(alloc);
    for (number, domain) in domains.iter().enumerate() {
        owns.push(own_from(
            alloc,
            DomainNo::new(number as u8),
            mail,
            domain,
            parts.take_first(),
        )?)?;
    }
    Ok(owns)
}

// Whether the image declares a mailbox.
fn has_mail(raw: &Raw) -> bool
    ensures value { result ≡ spec.has_mail (raw_model raw.now) }
{
    !raw.mail.is_empty()
}

/// What is each domain's own, of an image that breaks no rule but that of pads,
/// of its parts.
///
/// # Errors
///
/// `Memory` alone.
#[tactic(auto, unfolding(crate::specs::Own::owns_of))]
pub fn owns_of(alloc: Global, raw: &Raw, mut parts: DomainParts) -> Result<Vec<Own>, CheckRefusal>
    requires accepted { broken_but_pads (raw_model raw.now) ≡ [] }
    requires parts { ArePartsOf parts (raw_model raw.now).domains }
    ensures value { Makes (λ v. map own_model v.items) result (spec.owns_of (raw_model raw.now)) }
{
    owns_in(alloc, raw.domains.as_slice(), &mut parts, has_mail(raw))
}
