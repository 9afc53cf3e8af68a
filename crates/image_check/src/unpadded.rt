// An image that breaks no rule but that of pads.
ghost use Rattle.std.specs.Prelude.{◌≡◌, ◌<◌, [], map, length, IfOk, IfErr, OnOk};
ghost use Rattle.image_record.specs.Record.{InKeyRanges};
ghost use Rattle.image_record.specs.Models.{raw_model};
ghost use Rattle.pad_bound.specs.Bound.{IsShape};
ghost use Rattle.pad_bound.specs.Models.{shape_model};
ghost use Rattle.image_record.specs.Outcomes.{Makes};
ghost use Rattle.image_check.specs.Outcomes.{IsFirst};
ghost use Rattle.image_check.specs.Checking.{rules_after_pads, broken_of};
ghost use Rattle.image_check.specs.Checking.{broken_before_pads, broken_but_pads};
ghost use Rattle.schedule_check.specs.Schedule.{entry_of};
ghost use Rattle.schedule_check.specs.Mail.{box_of};
ghost use Rattle.image_check.specs.Image.{image_from, own_of};
ghost use Rattle.image_check.specs.Laws.{NamesDomains};
ghost use Rattle.hardware_check.specs.Hardware.{hardware_of};
ghost use Rattle.image_check.specs.Parts.{ArePartsOf};
ghost use Rattle.image_check.specs.Models.{hardware_model, public_model, own_model};
ghost use Rattle.image_check.specs.Pads as spec;

use crate::own::{Own, owns_of};
use crate::pads::shape_for_every_call;
use crate::parts::{Parts, parts_of};
use crate::public::{Public, public_of};
use crate::{CheckRefusal, laws};
use domain_check::k18;
use hardware_check::k22;
use image_record::Raw;
use pad_bound::Shape;
use sched_table::Entry;
use schedule_check::{k19, k20};
use std::alloc::Global;
use std::marker::Model;
use tp_base::DomainNo;

/// An image that breaks no rule but that of pads, if any. It stands for the
/// record of its text.
#[derive(Drop)]
pub struct Unpadded {
    raw: Raw,
    public: Public,
    owns: Vec<Own>,
}

impl Model for Unpadded {
    ghost use Rattle.std.specs.Prelude.{map};
    ghost use Rattle.image_record.specs.Record.{Raw};
    ghost use Rattle.image_record.specs.Models.{raw_model};
    ghost use Rattle.image_check.specs.Models.{public_model, own_model};
    ghost use Rattle.image_check.specs.Standing.{IsUnpadded};

    ghost Value = { Raw };

    ghost view = { λ u. raw_model u.raw };

    ghost invariant = { λ u. IsUnpadded (raw_model u.raw) (public_model u.public)
        (map own_model u.owns.items) };
}

impl Unpadded {
    /// That it breaks no rule but that of pads; so each entry is of one of its
    /// domains.
    pub fn kept(&self)
        ensures ranges { InKeyRanges self.now }
        ensures kept { broken_but_pads self.now ≡ [] }
        ensures named { NamesDomains (image_from self.now) }
    {
        laws::named();
        let _ = &self.raw;
    }

    /// What of its machine the bound on a switch depends on, where a domain leaves
    /// that may make every call.
    pub fn shape(&self) -> Shape
        ensures value { shape_model result ≡ spec.shape_for_every_call (image_from self.now).all.hardware }
        ensures sound { IsShape (shape_model result) }
    {
        shape_for_every_call(&self.public.hardware)
    }

    /// What all domains may know.
    pub fn public(&self) -> &Public
        ensures value { public_model result.now ≡ (image_from self.now).all }
    {
        &self.public
    }

    /// What is domain `d`'s own; there are `public().domains` of them.
    pub fn own(&self, d: usize) -> &Own
        requires domain { d < length (image_from self.now).owns }
        ensures value { own_model result.now ≡ own_of (image_from self.now) d }
    {
        &self.owns[d]
    }

    /// Frees it. The drops of its parts are checked by this, and not again in each crate
    /// that would drop it.
    pub fn discard(self) {
        drop(self);
    }
}

/// What the rules after that of pads let through: the entries of the schedule, and the
/// boxes, each from a domain to another.
type Later = (Vec<Entry>, Vec<(DomainNo, DomainNo)>);

/// The entries and the boxes, where none of the rules after that of pads is broken.
///
/// # Errors
///
/// `Broken` with the first of those rules that is broken; `Memory` where memory
/// runs out.
#[tactic(auto, unfolding(crate::specs::Checking::rules_after_pads))]
fn later_of(alloc: Global, raw: &Raw) -> Result<Later, CheckRefusal>
    requires before { broken_before_pads (raw_model raw.now) ≡ [] }
    ensures refused { IfErr result (IsFirst (broken_of rules_after_pads (raw_model raw.now) [])) }
    ensures accepted { OnOk result (broken_of rules_after_pads (raw_model raw.now) [] ≡ []) }
    ensures entries { IfOk result (λ later. later.0.items ≡ map entry_of (raw_model raw.now).schedule) }
    ensures mail { IfOk result (λ later. later.1.items ≡ map box_of (raw_model raw.now).mail) }
{
    k18(raw)?;
    let entries = k19(alloc, raw)?;
    let mail = k20(alloc, raw)?;
    k22(raw)?;
    Ok((entries, mail))
}

/// The image of these parts, entries and boxes.
///
/// # Errors
///
/// `Memory` alone.
fn image_of(
    alloc: Global,
    raw: Raw,
    parts: Parts,
    entries: &[Entry],
    mail: Vec<(DomainNo, DomainNo)>,
) -> Result<Unpadded, CheckRefusal>
    requires accepted { broken_but_pads (raw_model raw) ≡ [] }
    requires hardware { hardware_model parts.hardware ≡ hardware_of (raw_model raw) }
    requires domains { ArePartsOf parts.domains (raw_model raw).domains }
    requires entries { entries.now ≡ map entry_of (raw_model raw).schedule }
    requires mail { mail.items ≡ map box_of (raw_model raw).mail }
    ensures value { Makes (λ u. u) result (raw_model raw) }
{
    let owns = owns_of(alloc, &raw, parts.domains)?;
    let public = public_of(alloc, &raw, parts.hardware, entries, mail)?;
    Ok(Unpadded { raw, public, owns })
}

/// The image of these parts, where none of the rules after that of pads is broken.
///
/// # Errors
///
/// `Broken` with the first of those rules that is broken; `Memory` where memory
/// runs out.
pub(crate) fn image_with(alloc: Global, raw: Raw, parts: Parts) -> Result<Unpadded, CheckRefusal>
    requires before { broken_before_pads (raw_model raw) ≡ [] }
    requires hardware { hardware_model parts.hardware ≡ hardware_of (raw_model raw) }
    requires domains { ArePartsOf parts.domains (raw_model raw).domains }
    ensures refused { IfErr result (IsFirst (broken_of rules_after_pads (raw_model raw) [])) }
    ensures accepted { IfOk result (λ u. broken_of rules_after_pads u [] ≡ []) }
    ensures same { IfOk result (λ u. u ≡ raw_model raw) }
{
    let (entries, mail) = later_of(alloc, &raw)?;
    image_of(alloc, raw, parts, entries.as_slice(), mail)
}

/// The image, where the list of the rules that it breaks is empty but for that
/// of pads.
///
/// # Errors
///
/// `Broken` with the first item of that list without the rule of pads. `Memory`
/// where memory runs out.
pub fn check_but_pads(alloc: Global, raw: Raw) -> Result<Unpadded, CheckRefusal>
    ensures refused { IfErr result (IsFirst (broken_but_pads (raw_model raw))) }
    ensures accepted { IfOk result (λ u. broken_but_pads u ≡ []) }
    ensures same { IfOk result (λ u. u ≡ raw_model raw) }
{
    let parts = parts_of(alloc, &raw)?;
    image_with(alloc, raw, parts)
}
