// The whole machine with one guard off.
use domain_view::View;
use guards::Guard;
use hart_set::HartSet;
use image_check::Checked;
use std::alloc::Global;
use std::marker::Model;
use tp_base::Memory;
use world_view::Used;

/// The machine of an image of one hart with one guard off, between two slots: the hart set
/// of that hart. It stands for the definition of that machine after so many slots; no
/// isolation and no pad is promised of it.
#[derive(Drop)]
pub struct Ablated<'a> {
    off: Guard,
    harts: HartSet<'a>,
    slots: u32,
}

impl<'a> Model for Ablated<'a> {
    ghost use Rattle.std.specs.Prelude.{Some};
    ghost use Rattle.tp_machine.specs.Ablated.{Ablation};
    ghost use Rattle.tp_machine.specs.OneHart.{HasRun};

    ghost Value = { Ablation };

    ghost view = { λ m. record { record_of = m.harts.0; off = m.off; slots = m.slots } };

    ghost invariant = { λ m. HasRun (Some m.off) m.harts m.slots };
}

impl<'a> Ablated<'a> {
    ghost use Rattle.std.specs.Prelude.{◌≡◌, ◌+◌, ◌<◌, ◌≤◌, length, IfOk};
    ghost use Rattle.image_check.specs.Image.{image_from};
    ghost use Rattle.world_view.specs.View.{view_off};
    ghost use Rattle.world_view.specs.Harts.{IsOnOneHart};
    ghost use Rattle.domain_view.specs.Models.{view_model};
    ghost use Rattle.world_view.specs.Used.{largest_of, count_of};
    ghost use Rattle.domain_step.specs.Usage.{IsUsed};
    ghost use Rattle.tp_machine.specs.Ablated.{image_off, world_off};

    /// The machine of an image of one hart, before its first slot. All that it will need is
    /// allocated here.
    ///
    /// # Errors
    /// `Memory` where no memory is left for it.
    pub fn load(alloc: Global, image: &'a Checked, off: Guard) -> Result<Self, Memory>
        requires one { IsOnOneHart (image_from image.now) }
        ensures slots { IfOk result (λ m. m.slots ≡ 0) }
        ensures image { IfOk result (λ m. m.record_of ≡ image.now) }
        ensures off { IfOk result (λ m. m.off ≡ off) }
    {
        image.runnable();
        let harts = HartSet::without(alloc, image, off)?;
        Ok(Ablated {
            off,
            harts,
            slots: 0,
        })
    }

    /// The machine of an image of one hart after so many slots, 65,536 at most.
    ///
    /// # Errors
    /// `Memory` where no memory is left for it.
    pub fn after(alloc: Global, image: &'a Checked, off: Guard, slots: u32) -> Result<Self, Memory>
        requires few { slots ≤ 65536 }
        requires one { IsOnOneHart (image_from image.now) }
        ensures slots { IfOk result (λ m. m.slots ≡ slots) }
        ensures image { IfOk result (λ m. m.record_of ≡ image.now) }
        ensures off { IfOk result (λ m. m.off ≡ off) }
    {
        let mut machine = match Ablated::load(alloc, image, off) {
            Ok(machine) => machine,
            Err(Memory) => return Err(Memory),
        };
        for slot in 0..slots {
            machine.run_slot();
        }
        Ok(machine)
    }

    /// The image that it runs.
    pub fn image(&self) -> &Checked
        ensures image { result.now ≡ self.now.record_of }
    {
        self.harts.image()
    }

    /// The guard that is off.
    pub fn off(&self) -> Guard
        ensures off { result ≡ self.now.off }
    {
        self.off
    }

    /// Switches to the domain of the next slot, and runs it. Never allocates.
    pub fn run_slot(&mut self)
        requires slots { self.old.slots < 65536 }
        ensures slots { self.new.slots ≡ self.old.slots + 1 }
        ensures image { self.new.record_of ≡ self.old.record_of }
        ensures off { self.new.off ≡ self.old.off }
    {
        self.harts.run_slot(0);
        self.slots += 1;
    }

    /// What is seen of a domain after the slots that have run.
    pub fn view(&self, d: u8) -> View<'_>
        requires domain { d < length (image_off self.now).owns }
        ensures view { view_model result ≡ view_off self.now.off (image_off self.now) d self.now.slots }
    {
        self.harts.view(d)
    }

    /// What the switches of an entry took.
    pub fn used(&self, entry: u32) -> Used
        requires entry { entry < length (image_off self.now).all.schedule }
        ensures largest { result.largest ≡ largest_of entry (world_off self.now).used }
        ensures count { result.count ≡ count_of entry (world_off self.now).used }
    {
        self.harts.used(entry)
    }

    /// What the switches of each entry took.
    pub fn all_used(&self) -> &[Used]
        ensures all { length result.now ≡ length (image_off self.now).all.schedule }
        ensures each { IsUsed result.now (world_off self.now).used }
    {
        self.harts.all_used()
    }

    /// Frees it. The drops of its parts are checked by this, and not again in each crate
    /// that would drop it.
    pub fn discard(self) {
        self.harts.discard();
    }
}
