// A run of an image's harts.
ghost use Rattle.std.specs.Prelude.{◌≡◌, ◌<◌, ◌≤◌, [], List, None};
ghost use Rattle.image_check.specs.Image.{image_from};
ghost use Rattle.sched_table.specs.Schedule.{harts_in};
ghost use Rattle.hart_set.specs.Models.{image_of as image_of_set, StandsAfter};
ghost use Rattle.hart_orders.specs.Order as spec;
ghost use Rattle.hart_machine.specs.Laws.{slot_by_slot, drawn_slot_by_slot};
ghost use Rattle.hart_set.specs.Run.{StandsAt, HasRun};

use crate::choice::{first, left, named};
use crate::set::HartSet;
use domain_view::View;
use hart_orders::Choice;
use image_check::Checked;
use seed_words::{draw, seeded};
use std::alloc::Global;
use std::marker::Model;
use tp_base::Memory;
use world_view::Used;

/// An image's harts after so many slots of each.
#[derive(Drop)]
pub struct HartRun<'a> {
    harts: HartSet<'a>,
    choice: Choice,
    slots: u32,
}

impl<'a> Model for HartRun<'a> {
    ghost use Rattle.hart_set.specs.Run.{Run, HasRun};

    ghost Value = { Run };

    ghost view = { λ r. record { record_of = r.harts.0; choice = r.choice; slots = r.slots } };

    ghost invariant = { λ r. HasRun r.harts r.choice r.slots };
}

// The cycles before this slot of each hart, in sum.
fn cycles_before(image: &Checked, slot: u32) -> u64
    requires few { slot ≤ 65536 }
    ensures value { result ≡ spec.cycles_before (image_from image.now) slot
        (harts_in (image_from image.now).all.schedule) }
{
    image.runnable();
    let mut cycles = 0;
    for schedule in &image.public().harts {
        cycles += schedule.start(slot);
    }
    cycles
}

// Runs harts before their first event until each has had so many slots. The one with the
// least clock has its next slot whole: its switch comes when it would event by event, and
// the events of its slot touch nothing that another hart's go by.
fn run_by_slots(harts: &mut HartSet<'_>, slots: u32)
    requires few { slots ≤ 65536 }
    requires all { harts.old.1.off ≡ None }
    requires first { StandsAfter harts.old [] }
    ensures image { harts.new.0 ≡ harts.old.0 }
    ensures slots { StandsAt harts.new (slot_by_slot (image_of_set harts.new) slots).world }
{
    harts.image().runnable();
    let most = cycles_before(harts.image(), slots);
    for _ in 0..most {
        let Some(h) = first(harts, slots) else {
            return;
        };
        harts.run_slot(h);
    }
}

// Runs them in the order that a seed draws. A hart has its next slot whole where its switch
// is drawn, and each later draw counts off one of the slot's events.
fn run_drawn(harts: &mut HartSet<'_>, seed: u32, slots: u32)
    requires few { slots ≤ 65536 }
    requires all { harts.old.1.off ≡ None }
    requires first { StandsAfter harts.old [] }
    ensures image { harts.new.0 ≡ harts.old.0 }
    ensures slots { StandsAt harts.new (drawn_slot_by_slot (image_of_set harts.new) seed slots).world }
{
    harts.image().runnable();
    let most = cycles_before(harts.image(), slots);
    let mut words = seeded(u64::from(seed));
    let mut owed = [0; 4];
    let mut names = left(harts, slots, owed);
    for _ in 0..most {
        let Some(h) = named(&names, draw(&mut words)) else {
            return;
        };
        let at = usize::from(h);
        if 1 < owed[at] {
            owed[at] -= 1;
        } else if owed[at] == 1 {
            owed[at] = 0;
            names = left(harts, slots, owed);
        } else {
            owed[at] = harts.run_counted(h) - 1;
            names = left(harts, slots, owed);
        }
    }
}

// Runs them until each has had so many slots: what is seen of them then is what the order
// of a choice leads to.
fn run_all(harts: &mut HartSet<'_>, choice: Choice, slots: u32)
    requires few { slots ≤ 65536 }
    requires all { harts.old.1.off ≡ None }
    requires first { StandsAfter harts.old [] }
    ensures image { harts.new.0 ≡ harts.old.0 }
    ensures run { HasRun harts.new choice slots }
{
    harts.image().runnable();
    match choice {
        Choice::LeastClock => run_by_slots(harts, slots),
        // Of one hart every order of events is the same.
        Choice::Drawn(seed) => {
            if harts.harts() == 1 {
                run_by_slots(harts, slots);
            } else {
                run_drawn(harts, seed, slots);
            }
        }
    }
}

impl<'a> HartRun<'a> {
    ghost use Rattle.std.specs.Prelude.{◌≡◌, ◌<◌, ◌≤◌, length, IfOk};
    ghost use Rattle.world_view.specs.Harts.{view_mailed_on, view_alone_on};
    ghost use Rattle.world_view.specs.Machine.{arrivals};
    ghost use Rattle.world_view.specs.Relations.{HasNoMail};
    ghost use Rattle.world_view.specs.View.{view_in};
    ghost use Rattle.domain_view.specs.Models.{view_model};
    ghost use Rattle.domain_step.specs.Usage.{IsUsed};
    ghost use Rattle.hart_set.specs.Run.{image_of, world_of};

    /// Runs an image's harts for so many slots of each, 65,536 at most.
    ///
    /// # Errors
    /// `Memory` where no memory is left for them.
    pub fn new(
        alloc: Global,
        image: &'a Checked,
        choice: Choice,
        slots: u32,
    ) -> Result<Self, Memory>
        requires few { slots ≤ 65536 }
        ensures image { IfOk result (λ r. r.record_of ≡ image.now) }
        ensures choice { IfOk result (λ r. r.choice ≡ choice) }
        ensures slots { IfOk result (λ r. r.slots ≡ slots) }
    {
        image.runnable();
        let mut harts = HartSet::load(alloc, image)?;
        run_all(&mut harts, choice, slots);
        Ok(HartRun {
            harts,
            choice,
            slots,
        })
    }

    /// The image whose harts they are.
    pub fn image(&self) -> &Checked
        ensures value { result.now ≡ self.now.record_of }
    {
        self.harts.image()
    }

    /// What is seen of a domain: that is what is seen of it alone, whatever the choice, with
    /// what came to it in boxes: where no box leads to it, nothing.
    pub fn view(&self, d: u8) -> View<'_>
        requires domain { d < length (image_of self.now).owns }
        ensures view { view_model result ≡ view_in (image_of self.now) d (world_of self.now) }
        ensures mailed { view_model result ≡ view_mailed_on (image_of self.now) d
            (arrivals d (world_of self.now)) self.now.slots }
        ensures alone { HasNoMail (image_of self.now) d
            → view_model result ≡ view_alone_on (image_of self.now) d self.now.slots }
    {
        self.harts.view(d)
    }

    /// What the switches of each entry took.
    pub fn all_used(&self) -> &[Used]
        ensures all { length result.now ≡ length (image_of self.now).all.schedule }
        ensures each { IsUsed result.now (world_of self.now).used }
    {
        self.harts.all_used()
    }

    /// Frees it. The drops of its parts are checked by this, and not again in each crate
    /// that would drop it.
    pub fn discard(self) {
        self.harts.discard();
    }
}
