// What the rules before that of pads let through, tested in their order; and the calls of each domain.
ghost use Rattle.std.specs.Prelude.{◌≡◌, ◌≤◌, [], ◌∷◌, map, IfOk, IfErr, OnOk};
ghost use Rattle.image_record.specs.Models.{raw_model};
ghost use Rattle.image_check.specs.Outcomes.{IsFirst};
ghost use Rattle.domain_check.specs.Names.{k7 as spec_k7};
ghost use Rattle.domain_check.specs.Colours.{own_colours, k9 as spec_k9};
ghost use Rattle.domain_check.specs.Segments.{k12 as spec_k12};
ghost use Rattle.domain_check.specs.Capabilities.{k13 as spec_k13};
ghost use Rattle.schedule_check.specs.Interrupts.{k14 as spec_k14, k15 as spec_k15};
ghost use Rattle.schedule_check.specs.Schedule.{k16 as spec_k16};
ghost use Rattle.image_check.specs.Checking.{k8_in_machine, k10_in_machine, broken_of, broken_before_pads};
ghost use Rattle.hardware_check.specs.Hardware.{colours_of, hardware_of};
ghost use Rattle.image_check.specs.Parts.{ArePartsOf};
ghost use Rattle.image_check.specs.Models.{hardware_model};

use crate::CheckRefusal;
use crate::own::DomainParts;
use domain_check::{calls_in, k7, k8, k9, k10, k12, k13};
use hardware_check::{Hardware, k3, k4, k5, k6, k11};
use image_record::Raw;
use schedule_check::{k14, k15, k16};
use std::alloc::Global;

/// What the rules before that of pads let through of an image, and the calls of
/// each domain, whose rule comes later.
#[derive(Drop)]
pub struct Parts {
    pub hardware: Hardware,
    pub domains: DomainParts,
}

/// What the rules from K12 on let through of the domains, whose colours are these,
/// and their calls.
fn own_parts(alloc: Global, colours: Vec<Vec<u8>>, raw: &Raw) -> Result<DomainParts, CheckRefusal>
    requires colours { map (λ v. v.items) colours.items ≡ map own_colours (raw_model raw.now).domains }
    ensures refused { let rules = spec_k12 ∷ spec_k13 ∷ spec_k14 ∷ spec_k15 ∷ spec_k16 ∷ [] in
        IfErr result (IsFirst (broken_of rules (raw_model raw.now) [])) }
    ensures accepted { let rules = spec_k12 ∷ spec_k13 ∷ spec_k14 ∷ spec_k15 ∷ spec_k16 ∷ [] in
        OnOk result (broken_of rules (raw_model raw.now) [] ≡ []) }
    ensures parts { IfOk result (λ p. ArePartsOf p (raw_model raw.now).domains) }
{
    let segments = k12(alloc, raw)?;
    let caps = k13(alloc, raw)?;
    let lines = k14(alloc, raw)?;
    let moments = k15(alloc, raw)?;
    k16(raw)?;
    let calls = calls_in(alloc, raw)?;
    Ok(DomainParts {
        colours,
        segments,
        caps,
        lines,
        moments,
        calls,
    })
}

// The colours of each domain, in a machine of so many frames and colours, where no
// rule of the domains' names, colours and frames is broken.
fn colours_in(
    alloc: Global,
    frames: u32,
    colours: u32,
    raw: &Raw,
) -> Result<Vec<Vec<u8>>, CheckRefusal>
    requires frames { frames ≡ (hardware_of (raw_model raw.now)).frames }
    requires colours { colours ≡ colours_of (hardware_of (raw_model raw.now)) }
    requires some { 2 ≤ colours }
    requires few { colours ≤ 64 }
    ensures refused { let rules = spec_k7 ∷ k8_in_machine ∷ spec_k9 ∷ k10_in_machine ∷ [] in
        IfErr result (IsFirst (broken_of rules (raw_model raw.now) [])) }
    ensures accepted { let rules = spec_k7 ∷ k8_in_machine ∷ spec_k9 ∷ k10_in_machine ∷ [] in
        OnOk result (broken_of rules (raw_model raw.now) [] ≡ []) }
    ensures value { IfOk result (λ c. map (λ v. v.items) c.items ≡ map own_colours (raw_model raw.now).domains) }
{
    k7(raw)?;
    let owns = k8(alloc, colours, raw)?;
    k9(raw)?;
    k10(frames, colours, owns.as_slice(), raw)?;
    Ok(owns)
}

/// The parts, where no rule before that of pads is broken.
///
/// # Errors
///
/// `Broken` with the first of those rules that is broken; `Memory` where memory
/// runs out.
#[tactic(auto, unfolding(crate::specs::Checking::broken_before_pads, crate::specs::Checking::rules_before_pads))]
pub fn parts_of(alloc: Global, raw: &Raw) -> Result<Parts, CheckRefusal>
    ensures refused { IfErr result (IsFirst (broken_before_pads (raw_model raw.now))) }
    ensures accepted { OnOk result (broken_before_pads (raw_model raw.now) ≡ []) }
    ensures hardware { IfOk result (λ p. hardware_model p.hardware ≡ hardware_of (raw_model raw.now)) }
    ensures domains { IfOk result (λ p. ArePartsOf p.domains (raw_model raw.now).domains) }
{
    let caches = k3(raw)?;
    let frames = k4(raw)?;
    let colours = k5(raw)?;
    k6(raw)?;
    let owns = colours_in(alloc, frames, colours, raw)?;
    let hardware = k11(raw, caches)?;
    let domains = own_parts(alloc, owns, raw)?;
    Ok(Parts { hardware, domains })
}
