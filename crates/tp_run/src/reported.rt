// What a report tells of: a machine after its slots.
ghost use Rattle.std.specs.Prelude.{◌≡◌, ◌<◌, length};
ghost use Rattle.image_check.specs.Image.{Image, image_from};
ghost use Rattle.world_view.specs.Machine.{World, whole, whole_off};
ghost use Rattle.world_view.specs.View.{view_in};
ghost use Rattle.domain_view.specs.Models.{view_model};
ghost use Rattle.domain_step.specs.Usage.{IsUsed};
ghost use Rattle.hart_set.specs.Run.{image_of, world_of};

use domain_view::View;
use hart_set::HartRun;
use image_check::Checked;
use tp_machine::{Ablated, Machine};
use world_view::Used;

/// A machine after its slots.
pub trait Reported {
    /// The image that it runs.
    ghost image: { Self → Image };

    /// What it has come to.
    ghost world: { Self → World };

    /// The image that it runs.
    fn checked(&self) -> &Checked
        ensures image { image_from result.now ≡ image self.now };

    /// What is seen of a domain.
    fn seen(&self, d: u8) -> View<'_>
        requires domain { d < length (image self.now).owns }
        ensures view { view_model result ≡ view_in (image self.now) d (world self.now) };

    /// What the switches of each entry took.
    fn switches(&self) -> &[Used]
        ensures all { length result.now ≡ length (image self.now).all.schedule }
        ensures each { IsUsed result.now (world self.now).used };
}

impl<'a> Reported for Machine<'a> {
    ghost image = { λ m. image_from m.record_of };

    ghost world = { λ m. whole (image_from m.record_of) m.slots };

    fn checked(&self) -> &Checked {
        self.image()
    }

    fn seen(&self, d: u8) -> View<'_> {
        self.view(d)
    }

    fn switches(&self) -> &[Used] {
        self.all_used()
    }
}

impl<'a> Reported for Ablated<'a> {
    ghost image = { λ m. image_from m.record_of };

    ghost world = { λ m. whole_off m.off (image_from m.record_of) m.slots };

    fn checked(&self) -> &Checked {
        self.image()
    }

    fn seen(&self, d: u8) -> View<'_> {
        self.view(d)
    }

    fn switches(&self) -> &[Used] {
        self.all_used()
    }
}

impl<'a> Reported for HartRun<'a> {
    ghost image = { λ r. image_of r };

    ghost world = { λ r. world_of r };

    fn checked(&self) -> &Checked {
        self.image()
    }

    fn seen(&self, d: u8) -> View<'_> {
        self.view(d)
    }

    fn switches(&self) -> &[Used] {
        self.all_used()
    }
}
