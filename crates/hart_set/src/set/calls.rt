// The calls of an image's harts.
ghost use Rattle.std.specs.Prelude.{◌≡◌, suc, ◌+◌, ◌<◌, ◌≤◌, Some, None};

use super::{HartSet, State};
use crate::mail::switch_boxes;
use crate::off::{begins_by, open_off, parts_off, until_off};
use domain_open::discard as discard_opened;
use domain_step::{note_switch, open_slot, run_until, unused};
use domain_switch::switch_off;
use domain_view::View;
use guards::Guard;
use hart_orders::{Slot, cold_caches, discard as discard_cold, is_on};
use image_check::Checked;
use kernel_clone::CloneLayout;
use mail_slots::Mail;
use sched_table::{Entry, Turn};
use std::alloc::Global;
use tp_base::Memory;
use world_view::Used;

// How far a hart goes in its slot.
#[derive(Clone, Copy)]
enum Stride {
    // By one event.
    Event,
    // To the slot's end.
    Slot,
}

// Until when its events begin, in cycles, at this clock in a slot that ends then: each takes
// a cycle or more.
fn until(stride: Stride, clock: u64, end: u64) -> u64
    requires before { clock < end }
    ensures event { stride ≡ Stride.Event → result ≡ clock + 1 }
    ensures slot { stride ≡ Stride.Slot → result ≡ end }
    ensures later { clock < result }
    ensures within { result ≤ end }
{
    match stride {
        Stride::Event => clock + 1,
        Stride::Slot => end,
    }
}

// How many slots of a hart have ended, and whether it is in this one, which it was about to
// begin or go on with at this clock: while that is below the slot's end.
fn settled(slots: u32, slot: Slot, now: u64) -> (u32, Option<Slot>)
    requires few { slots < 65536 }
    ensures inside { now < slot.end → result ≡ (slots, Some slot) }
    ensures over { slot.end ≤ now → result ≡ (suc slots, None) }
{
    if now < slot.end {
        (slots, Some(slot))
    } else {
        (slots + 1, None)
    }
}

impl<'a> HartSet<'a> {
    ghost use Rattle.std.specs.Prelude.{◌≡◌, ◌≢◌, ℕ, ◌^◌, ◌<◌, ◌≤◌, length};
    ghost use Rattle.std.specs.Prelude.{List, ◌++◌, ◌∷◌, [], Some, None, option_map, IfOk, IfSome};
    ghost use Rattle.kernel_clone.specs.Models.{layout_model};
    ghost use Rattle.sched_table.specs.Schedule.{harts_in, entry_in, place_on, switch_entry, outgoing};
    ghost use Rattle.world_view.specs.Machine.{guards_of, clone_by, arrivals};
    ghost use Rattle.world_view.specs.Relations.{HasNoMail};
    ghost use Rattle.world_view.specs.HartLaws.{AreHartsOf};
    ghost use Rattle.hart_set.specs.Turns.{IsTurn};
    ghost use Rattle.image_check.specs.Image.{image_from};
    ghost use Rattle.domain_view.specs.Models.{view_model};
    ghost use Rattle.world_view.specs.Used.{largest_of, count_of};
    ghost use Rattle.domain_step.specs.Usage.{IsUsed};
    ghost use Rattle.world_view.specs.Harts as spec;
    ghost use Rattle.world_view.specs.Harts.{IsOnOneHart, Harts};
    ghost use Rattle.hart_set.specs.Standing.{StandsFor, AtHart};
    ghost use Rattle.hart_orders.specs.Off.{IsServed};
    ghost use Rattle.hart_set.specs.Slots.{NextStands, SlotEnds, SlotEndsIn};
    ghost use Rattle.hart_set.specs.declared.set.State.{State};
    ghost use Rattle.hart_set.specs.Models.{image_of, entries_of};

    /// An image's harts before their first event, with all guards on. All that they will need
    /// is allocated here.
    ///
    /// # Errors
    /// `Memory` where no memory is left for it.
    pub fn load(alloc: Global, image: &'a Checked) -> Result<Self, Memory>
        ensures image { IfOk result (λ s. s.0 ≡ image.now) }
        ensures off { IfOk result (λ s. s.1.off ≡ None) }
        ensures stands { IfOk result (λ s.
            StandsFor (image_from image.now) (spec.harts (image_from image.now) []) s.1) }
    {
        image.runnable();
        HartSet::load_by(alloc, image, None)
    }

    /// The hart of an image of one before its first event, with this guard off. All that it
    /// will need is allocated here.
    ///
    /// # Errors
    /// `Memory` where no memory is left for it.
    pub fn without(alloc: Global, image: &'a Checked, off: Guard) -> Result<Self, Memory>
        requires one { IsOnOneHart (image_from image.now) }
        ensures image { IfOk result (λ s. s.0 ≡ image.now) }
        ensures off { IfOk result (λ s. s.1.off ≡ Some off) }
        ensures stands { IfOk result (λ s.
            StandsFor (image_from image.now) (spec.harts_by (Some off) (image_from image.now) []) s.1) }
    {
        image.runnable();
        HartSet::load_by(alloc, image, Some(off))
    }

    // With all guards on, or of one hart with one off.
    fn load_by(alloc: Global, image: &'a Checked, off: Option<Guard>) -> Result<Self, Memory>
        requires served { IsServed off (image_from image.now) }
        ensures image { IfOk result (λ s. s.0 ≡ image.now) }
        ensures off { IfOk result (λ s. s.1.off ≡ off) }
        ensures stands { IfOk result (λ s.
            StandsFor (image_from image.now) (spec.harts_by off (image_from image.now) []) s.1) }
    {
        image.runnable();
        let public = image.public();
        let used = unused(alloc, public.schedule.len())?;
        let mail = Mail::new(alloc, public.mail.as_slice())?;
        let (l2, harts) = cold_caches(alloc, off, &public.hardware, public.harts.len())?;
        // What has the most parts comes last, since all before it is dropped where it fails.
        let (memory, domains) = match open_off(alloc, image, off) {
            Ok(opened) => opened,
            Err(Memory) => {
                discard_cold(l2, harts);
                return Err(Memory);
            }
        };
        Ok(HartSet {
            image,
            state: State {
                off,
                memory,
                l2,
                harts,
                domains,
                mail,
                used,
            },
        })
    }

    /// The image whose harts they are.
    pub fn image(&self) -> &Checked
        ensures value { result.now ≡ self.now.0 }
    {
        self.image
    }

    /// How many harts there are, 1 to 4.
    pub fn harts(&self) -> u8
        ensures value { result ≡ harts_in (image_of self.now).all.schedule }
        ensures few { result ≤ 4 }
    {
        self.state.harts.len() as u8
    }

    /// A hart's clock, in cycles: far below what 64 bits hold.
    pub fn clock(&self, h: u8) -> u64
        requires hart { h < harts_in (image_of self.now).all.schedule }
        ensures value { AtHart self.now.1 h (λ x. result ≡ x.clock) }
        ensures soon { self.now.1.off ≡ None → result < 2 ^ 61 }
    {
        self.state.harts[usize::from(h)].clock
    }

    /// How many slots of a hart have ended.
    pub fn slots(&self, h: u8) -> u32
        requires hart { h < harts_in (image_of self.now).all.schedule }
        ensures value { AtHart self.now.1 h (λ x. result ≡ x.slots) }
    {
        self.state.harts[usize::from(h)].slots
    }

    /// A hart's next event: the switch into its next slot, or one event of the
    /// domain whose slot it is in. Never allocates.
    pub fn step(&mut self, h: u8)
        requires hart { h < harts_in (image_of self.old).all.schedule }
        requires slots { AtHart self.old.1 h (λ x. x.slots < 65536) }
        requires moments { self.old.1.off ≢ Some Guard.Irq }
        ensures image { self.new.0 ≡ self.old.0 }
        ensures off { self.new.1.off ≡ self.old.1.off }
        ensures next { NextStands (image_of self.old) h self.old.1 self.new.1 }
    {
        let at = usize::from(h);
        match self.state.harts[at].slot {
            Some(slot) => {
                self.advance(at, slot, Stride::Event);
            }
            None => {
                self.begin(at);
            }
        }
    }

    /// Runs a hart to the end of the slot that it is in, or of its next one where it is in
    /// none: events of it, none of another's between them. Never allocates.
    pub fn run_slot(&mut self, h: u8)
        requires hart { h < harts_in (image_of self.old).all.schedule }
        requires slots { AtHart self.old.1 h (λ x. x.slots < 65536) }
        ensures image { self.new.0 ≡ self.old.0 }
        ensures off { self.new.1.off ≡ self.old.1.off }
        ensures ends { SlotEnds (image_of self.old) h self.old.1 self.new.1 }
    {
        let at = usize::from(h);
        match self.state.harts[at].slot {
            Some(slot) => self.finish(at, slot),
            None => {
                if let Some(slot) = self.begin(at) {
                    self.finish(at, slot);
                }
            }
        }
    }

    /// The same where the slot's own domain alone has moments in it. Answers how many events
    /// they were, with the switch where there was one.
    pub fn run_counted(&mut self, h: u8) -> u64
        requires hart { h < harts_in (image_of self.old).all.schedule }
        requires slots { AtHart self.old.1 h (λ x. x.slots < 65536) }
        requires moments { self.old.1.off ≢ Some Guard.Irq }
        ensures image { self.new.0 ≡ self.old.0 }
        ensures off { self.new.1.off ≡ self.old.1.off }
        ensures ends { SlotEndsIn (image_of self.old) h result self.old.1 self.new.1 }
    {
        let at = usize::from(h);
        if let Some(slot) = self.state.harts[at].slot {
            return self.advance(at, slot, Stride::Slot);
        }
        match self.begin(at) {
            Some(slot) => 1 + self.advance(at, slot, Stride::Slot),
            None => 1,
        }
    }

    // The rest of the slot that a hart is in.
    fn finish(&mut self, h: usize, slot: Slot)
        requires hart { h < harts_in (image_of self.old).all.schedule }
        requires inside { AtHart self.old.1 h (λ x. x.slot ≡ Some slot) }
        requires slots { AtHart self.old.1 h (λ x. x.slots < 65536) }
        ensures image { self.new.0 ≡ self.old.0 }
        ensures off { self.new.1.off ≡ self.old.1.off }
        ensures ends { SlotEnds (image_of self.old) h self.old.1 self.new.1 }
    {
        if is_on(Guard::Irq, self.state.off) {
            self.advance(h, slot, Stride::Slot);
        } else {
            self.advance_among(h, slot);
        }
    }

    // The switch into a hart's next slot, which it answers; nothing, where the slot was over
    // by then, as it can be without pads. It stands apart, since a step would pay at each
    // event for the room of its work.
    #[inline(never)]
    fn begin(&mut self, h: usize) -> Option<Slot>
        requires hart { h < harts_in (image_of self.old).all.schedule }
        requires between { AtHart self.old.1 h (λ x. x.slot ≡ None) }
        requires slots { AtHart self.old.1 h (λ x. x.slots < 65536) }
        ensures image { self.new.0 ≡ self.old.0 }
        ensures off { self.new.1.off ≡ self.old.1.off }
        ensures next { NextStands (image_of self.old) h self.old.1 self.new.1 }
        ensures inside { IfSome result (λ slot. AtHart self.new.1 h (λ x. x.slot ≡ Some slot)) }
        ensures slots { IfSome result (λ slot. AtHart self.new.1 h (λ x. x.slots < 65536)) }
        ensures rest { IfSome result (λ slot. (later : State) → self.new.1.off ≡ later.off
            → SlotEnds (image_of self.old) h self.new.1 later → SlotEnds (image_of self.old) h self.old.1 later) }
        ensures counted { IfSome result (λ slot. (later : State) (events : ℕ) → self.new.1.off ≡ later.off
            → SlotEndsIn (image_of self.old) h events self.new.1 later
            → SlotEndsIn (image_of self.old) h (suc events) self.old.1 later) }
        ensures over { result ≡ None → SlotEndsIn (image_of self.old) h 1 self.old.1 self.new.1 }
    {
        let turn = self.next_turn(h);
        let leaving = self.leaving(h, turn.ended);
        let out = self.clone_of(leaving);
        let off = self.state.off;
        let d = usize::from(turn.entry.domain);
        let hart = &mut self.state.harts[h];
        let switched = switch_off(
            &mut hart.core,
            &mut self.state.l2,
            parts_off(off),
            out.as_ref(),
            &self.state.domains[d].layout,
            hart.ended,
            hart.clock,
            until_off(off, turn.start),
        );
        let end = begins_by(off, turn.start, switched.now) + u64::from(turn.entry.length);
        let domain = turn.entry.domain;
        let (slots, slot) = settled(hart.slots, Slot { domain, end }, switched.now);
        hart.clock = switched.now;
        hart.slots = slots;
        hart.slot = slot;
        hart.ended = end;
        switch_boxes(&mut self.state.mail, leaving, domain);
        note_switch(
            self.state.used.as_mut_slice(),
            turn.place as usize,
            switched.used,
        );
        slot
    }

    // Events of the domain whose slot a hart is in, where its own moments alone come. All of a
    // hart's events but its switches are this one call, so that the code of an instruction
    // stands in one place. Answers how many they were.
    #[inline(never)]
    fn advance(&mut self, h: usize, slot: Slot, stride: Stride) -> u64
        requires hart { h < harts_in (image_of self.old).all.schedule }
        requires inside { AtHart self.old.1 h (λ x. x.slot ≡ Some slot) }
        requires slots { AtHart self.old.1 h (λ x. x.slots < 65536) }
        requires moments { self.old.1.off ≢ Some Guard.Irq }
        ensures image { self.new.0 ≡ self.old.0 }
        ensures off { self.new.1.off ≡ self.old.1.off }
        ensures next { stride ≡ Stride.Event → NextStands (image_of self.old) h self.old.1 self.new.1 }
        ensures ends { stride ≡ Stride.Slot
            → SlotEndsIn (image_of self.old) h result self.old.1 self.new.1 }
        ensures few { result < 2 ^ 63 }
    {
        let hart = &mut self.state.harts[h];
        let until = until(stride, hart.clock, slot.end);
        let ran = run_until(
            &mut self.state.memory,
            &mut hart.core,
            &mut self.state.l2,
            &mut self.state.domains[usize::from(slot.domain)],
            hart.clock,
            until,
            slot.end,
            &mut self.state.mail,
        );
        hart.clock = ran.clock;
        if slot.end <= hart.clock {
            hart.slots += 1;
            hart.slot = None;
        }
        ran.events
    }

    // All events of the domain whose slot a hart is in, where moments of all domains come.
    fn advance_among(&mut self, h: usize, slot: Slot)
        requires hart { h < harts_in (image_of self.old).all.schedule }
        requires inside { AtHart self.old.1 h (λ x. x.slot ≡ Some slot) }
        requires slots { AtHart self.old.1 h (λ x. x.slots < 65536) }
        requires moments { self.old.1.off ≡ Some Guard.Irq }
        ensures image { self.new.0 ≡ self.old.0 }
        ensures off { self.new.1.off ≡ self.old.1.off }
        ensures ends { SlotEnds (image_of self.old) h self.old.1 self.new.1 }
    {
        let hart = &mut self.state.harts[h];
        hart.clock = open_slot(
            &mut self.state.memory,
            &mut hart.core,
            &mut self.state.l2,
            self.state.domains.as_mut_slice(),
            usize::from(slot.domain),
            hart.clock,
            slot.end,
            &mut self.state.mail,
        );
        hart.slots += 1;
        hart.slot = None;
    }

    // What a hart's next switch goes by, and its next slot.
    fn next_turn(&self, h: usize) -> Turn
        requires hart { h < harts_in (image_of self.now).all.schedule }
        ensures turn { AtHart self.now.1 h (λ x. IsTurn (entries_of self.now h) x.slots result) }
        ensures place { AtHart self.now.1 h (λ x. result.place ≡ place_on (image_of self.now).all.schedule h
            (switch_entry (entries_of self.now h) x.slots)) }
        ensures domain { result.entry.domain < length (image_of self.now).owns }
        ensures ended { result.ended.domain < length (image_of self.now).owns }
        ensures length { result.entry.length ≤ 1000000 }
        ensures within { result.place < length (image_of self.now).all.schedule }
        ensures soon { result.start < 2 ^ 61 }
    {
        self.image.public().harts[h].turn(self.state.harts[h].slots)
    }

    // The domain whose slot was last on a hart: nobody before its first.
    fn leaving(&self, h: usize, ended: Entry) -> Option<u8>
        requires hart { h < harts_in (image_of self.now).all.schedule }
        requires ended { AtHart self.now.1 h (λ x. ended ≡ entry_in (entries_of self.now h)
            (switch_entry (entries_of self.now h) x.slots)) }
        requires domain { ended.domain < length (image_of self.now).owns }
        ensures domain { AtHart self.now.1 h (λ x. result ≡ outgoing (entries_of self.now h) x.slots) }
        ensures there { IfSome result (λ d. d < length (image_of self.now).owns) }
    {
        if self.state.harts[h].slots == 0 {
            return None;
        }
        Some(ended.domain)
    }

    // The kernel clone that works for it.
    fn clone_of(&self, leaving: Option<u8>) -> Option<CloneLayout>
        requires there { IfSome leaving (λ d. d < length (image_of self.now).owns) }
        ensures clone { option_map layout_model result
            ≡ clone_by (guards_of self.now.1.off (image_of self.now)) leaving }
    {
        let d = leaving?;
        Some(self.state.domains[usize::from(d)].layout)
    }

    /// What is seen of a domain; with all guards on, where its hart has not begun its next
    /// slot, that is what is seen of it alone after as many slots of its hart, with what came
    /// to it in boxes as they began: where no box leads to it, nothing.
    pub fn view(&self, d: u8) -> View<'_>
        requires domain { d < length (image_of self.now).owns }
        ensures view { (s : Harts) → StandsFor (image_of self.now) s self.now.1
            → view_model result ≡ spec.view_on (image_of self.now) d s }
        ensures mailed { self.now.1.off ≡ None → (order : List ℕ) → AreHartsOf (image_of self.now) order
            → StandsFor (image_of self.now) (spec.harts (image_of self.now) order) self.now.1
            → AtHart self.now.1 (spec.hart_of_domain (image_of self.now) d)
            (λ x. x.clock
            < spec.start_on (image_of self.now) (spec.hart_of_domain (image_of self.now) d) x.slots
            → view_model result ≡ spec.view_mailed_on (image_of self.now) d
            (arrivals d (spec.harts (image_of self.now) order).world) x.slots) }
        ensures alone { self.now.1.off ≡ None → HasNoMail (image_of self.now) d
            → AtHart self.now.1 (spec.hart_of_domain (image_of self.now) d)
            (λ x. x.clock
            < spec.start_on (image_of self.now) (spec.hart_of_domain (image_of self.now) d) x.slots
            → view_model result ≡ spec.view_alone_on (image_of self.now) d x.slots) }
    {
        View::new(&self.state.domains[usize::from(d)], &self.state.memory)
    }

    /// What the switches of an entry took: with all guards on, none more than the entry's pad.
    pub fn used(&self, entry: u32) -> Used
        requires entry { entry < length (image_of self.now).all.schedule }
        ensures largest { (s : Harts) → StandsFor (image_of self.now) s self.now.1
            → result.largest ≡ largest_of entry s.world.used }
        ensures count { (s : Harts) → StandsFor (image_of self.now) s self.now.1
            → result.count ≡ count_of entry s.world.used }
        ensures within { self.now.1.off ≡ None → result.largest ≤ (entry_in (image_of self.now).all.schedule entry).pad }
    {
        self.state.used[entry as usize]
    }

    /// What the switches of each entry took.
    pub fn all_used(&self) -> &[Used]
        ensures all { length result.now ≡ length (image_of self.now).all.schedule }
        ensures each { (s : Harts) → StandsFor (image_of self.now) s self.now.1
            → IsUsed result.now s.world.used }
    {
        self.state.used.as_slice()
    }

    /// Frees it.
    pub fn discard(self) {
        let State {
            memory,
            l2,
            harts,
            domains,
            mail,
            used,
            ..
        } = self.state;
        discard_cold(l2, harts);
        discard_opened(memory, domains);
        drop(mail);
        drop(used);
    }
}
