// An image that breaks no rule.
ghost use Rattle.std.specs.Prelude.{◌≡◌, ◌<◌, [], length, IfOk, IfErr};
ghost use Rattle.image_record.specs.Models.{raw_model};
ghost use Rattle.image_check.specs.Outcomes.{IsFirst};
ghost use Rattle.image_check.specs.Checking.{broken};
ghost use Rattle.image_check.specs.Laws.{Runnable};
ghost use Rattle.image_check.specs.Image.{image_from, own_of};
ghost use Rattle.image_check.specs.Models.{public_model, own_model};

use crate::own::Own;
use crate::pads::k17;
use crate::parts::parts_of;
use crate::public::Public;
use crate::unpadded::{Unpadded, image_with};
use crate::{CheckRefusal, laws};
use image_record::Raw;
use std::alloc::Global;
use std::marker::Model;

/// An image that breaks no rule. It stands for the record of its text.
#[derive(Drop)]
pub struct Checked {
    image: Unpadded,
}

impl Model for Checked {
    ghost use Rattle.std.specs.Prelude.{◌≡◌, []};
    ghost use Rattle.image_record.specs.Record.{Raw};
    ghost use Rattle.image_check.specs.Checking.{broken};

    ghost Value = { Raw };

    ghost view = { λ c. c.image };

    ghost invariant = { λ c. broken c.image ≡ [] };
}

impl Checked {
    /// That it breaks no rule, in natural numbers.
    pub fn runnable(&self)
        ensures runnable { Runnable (image_from self.now) }
    {
        self.image.kept();
        laws::runnable();
    }

    /// What all domains may know.
    pub fn public(&self) -> &Public
        ensures value { public_model result.now ≡ (image_from self.now).all }
    {
        self.image.public()
    }

    /// What is domain `d`'s own; there are `public().domains` of them.
    pub fn own(&self, d: usize) -> &Own
        requires domain { d < length (image_from self.now).owns }
        ensures value { own_model result.now ≡ own_of (image_from self.now) d }
    {
        self.image.own(d)
    }

    /// Frees it. The drops of its parts are checked by this, and not again in each crate
    /// that would drop it.
    pub fn discard(self) {
        drop(self);
    }
}

/// The image, where the list of the rules that it breaks is empty.
///
/// # Errors
///
/// `Broken` with the first item of that list: the first broken rule, and the
/// three numbers of its first broken case. `Memory` where memory runs out.
pub fn check(alloc: Global, raw: Raw) -> Result<Checked, CheckRefusal>
    ensures refused { IfErr result (IsFirst (broken (raw_model raw))) }
    ensures accepted { IfOk result (λ c. broken c ≡ []) }
    ensures same { IfOk result (λ c. c ≡ raw_model raw) }
{
    let parts = parts_of(alloc, &raw)?;
    k17(&parts.hardware, parts.domains.calls.as_slice(), &raw)?;
    let image = image_with(alloc, raw, parts)?;
    Ok(Checked { image })
}
