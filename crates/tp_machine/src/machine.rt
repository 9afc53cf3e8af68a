// The machine of one hart with all guards on: what the laws say of it holds of what it shows.
use domain_view::View;
use hart_set::HartSet;
use image_check::Checked;
use std::alloc::Global;
use std::marker::Model;
use tp_base::Memory;
use world_view::Used;

/// The machine of an image of one hart between two slots, with all guards on: the hart set of
/// that hart. It stands for the definition of the machine after so many slots.
#[derive(Drop)]
pub struct Machine<'a> {
    harts: HartSet<'a>,
    slots: u32,
}

impl<'a> Model for Machine<'a> {
    ghost use Rattle.std.specs.Prelude.{None};
    ghost use Rattle.tp_machine.specs.Models.{Ran};
    ghost use Rattle.tp_machine.specs.OneHart.{HasRun};

    ghost Value = { Ran };

    ghost view = { λ m. record { record_of = m.harts.0; slots = m.slots } };

    ghost invariant = { λ m. HasRun None m.harts m.slots };
}

impl<'a> Machine<'a> {
    ghost use Rattle.std.specs.Prelude.{◌≡◌, ◌+◌, ◌<◌, ◌≤◌, length, IfOk};
    ghost use Rattle.sched_table.specs.Schedule as schedule;
    ghost use Rattle.sched_table.specs.Schedule.{entry_in};
    ghost use Rattle.image_check.specs.Image.{image_from, own_of};
    ghost use Rattle.world_view.specs.Machine as spec;
    ghost use Rattle.world_view.specs.View.{view_whole, view_mailed, view_alone};
    ghost use Rattle.world_view.specs.Relations.{HasNoMail};
    ghost use Rattle.world_view.specs.Harts.{IsOnOneHart};
    ghost use Rattle.domain_view.specs.Models.{view_model};
    ghost use Rattle.world_view.specs.Used.{largest_of, count_of};
    ghost use Rattle.domain_step.specs.Usage.{IsUsed};
    ghost use Rattle.tp_machine.specs.Models.{image_of, world_of};

    /// The machine of an image of one hart, before its first slot. All that it will need is
    /// allocated here.
    ///
    /// # Errors
    /// `Memory` where no memory is left for it.
    pub fn load(alloc: Global, image: &'a Checked) -> Result<Self, Memory>
        requires one { IsOnOneHart (image_from image.now) }
        ensures slots { IfOk result (λ m. m.slots ≡ 0) }
        ensures image { IfOk result (λ m. m.record_of ≡ image.now) }
    {
        image.runnable();
        let harts = HartSet::load(alloc, image)?;
        Ok(Machine { harts, slots: 0 })
    }

    /// The machine of an image of one hart after so many slots, 65,536 at most.
    ///
    /// # Errors
    /// `Memory` where no memory is left for it.
    pub fn after(alloc: Global, image: &'a Checked, slots: u32) -> Result<Self, Memory>
        requires few { slots ≤ 65536 }
        requires one { IsOnOneHart (image_from image.now) }
        ensures slots { IfOk result (λ m. m.slots ≡ slots) }
        ensures image { IfOk result (λ m. m.record_of ≡ image.now) }
    {
        let mut machine = match Machine::load(alloc, image) {
            Ok(machine) => machine,
            Err(Memory) => return Err(Memory),
        };
        for slot in 0..slots {
            machine.run_slot();
        }
        Ok(machine)
    }

    /// The image that it runs.
    pub fn image(&self) -> &Checked
        ensures image { result.now ≡ self.now.record_of }
    {
        self.harts.image()
    }

    /// Switches to the domain of the next slot, waits for its start, and runs it.
    /// The slot begins at exactly its start. Never allocates.
    pub fn run_slot(&mut self)
        requires slots { self.old.slots < 65536 }
        ensures slots { self.new.slots ≡ self.old.slots + 1 }
        ensures image { self.new.record_of ≡ self.old.record_of }
        ensures begins { spec.clock_of 0 (spec.switch (image_of self.old) self.old.slots (world_of self.old))
            ≡ schedule.start (image_of self.old).all.schedule self.old.slots }
    {
        self.harts.run_slot(0);
        self.slots += 1;
    }

    /// What is seen of a domain after the slots that have run: what is seen of it
    /// alone after them, with what came to it in boxes: where no box leads to it, nothing.
    pub fn view(&self, d: u8) -> View<'_>
        requires domain { d < length (image_of self.now).owns }
        ensures view { view_model result ≡ view_whole (image_of self.now) d self.now.slots }
        ensures mailed { view_model result ≡ view_mailed (image_of self.now).all (own_of (image_of self.now) d) d
            (spec.arrivals d (world_of self.now)) self.now.slots }
        ensures alone { HasNoMail (image_of self.now) d → view_model result
            ≡ view_alone (image_of self.now).all (own_of (image_of self.now) d) d self.now.slots }
    {
        self.harts.view(d)
    }

    /// What the switches of an entry took: none more than the entry's pad.
    pub fn used(&self, entry: u32) -> Used
        requires entry { entry < length (image_of self.now).all.schedule }
        ensures largest { result.largest ≡ largest_of entry (world_of self.now).used }
        ensures count { result.count ≡ count_of entry (world_of self.now).used }
        ensures within { result.largest ≤ (entry_in (image_of self.now).all.schedule entry).pad }
    {
        self.harts.used(entry)
    }

    /// What the switches of each entry took.
    pub fn all_used(&self) -> &[Used]
        ensures all { length result.now ≡ length (image_of self.now).all.schedule }
        ensures each { IsUsed result.now (world_of self.now).used }
    {
        self.harts.all_used()
    }

    /// Frees it. The drops of its parts are checked by this, and not again in each crate
    /// that would drop it.
    pub fn discard(self) {
        self.harts.discard();
    }
}
