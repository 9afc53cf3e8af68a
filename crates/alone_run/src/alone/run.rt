// The calls.
use super::{Alone, share_of};
use crate::hart::schedule_for;
use domain_open::{load_domain, open_domain};
use domain_step::stretch;
use domain_switch::{enter, leave};
use domain_view::View;
use image_check::{Own, Public};
use mail_slots::Mail;
use mem_system::new_parts;
use phys_mem::PhysMem;
use std::alloc::Global;
use tp_base::Memory;
use world_view::geometry_of;

impl<'a> Alone<'a> {
    ghost use Rattle.std.specs.Prelude.{◌≡◌, ◌+◌, ◌<◌, IfOk};
    ghost use Rattle.image_check.specs.Models.{public_model, own_model};
    ghost use Rattle.image_check.specs.Image.{Image, own_of};
    ghost use Rattle.world_view.specs.View.{view_alone};
    ghost use Rattle.world_view.specs.Harts.{view_alone_on};
    ghost use Rattle.domain_view.specs.Models.{view_model};
    ghost use Rattle.alone_run.specs.Runs.{public_for, IsOf};

    /// A domain before its first slot. All that it will need is allocated here.
    ///
    /// `public` and `own` are of one accepted image, `own` that of its domain `d`.
    ///
    /// # Errors
    /// `Memory` where no memory is left for it.
    pub fn load(alloc: Global, public: &'a Public, own: &'a Own, d: u8) -> Result<Self, Memory>
        requires image { IsOf (public_model public.now) (own_model own.now) d }
        ensures slots { IfOk result (λ a. a.slots ≡ 0) }
        ensures number { IfOk result (λ a. a.number ≡ d) }
        ensures public { IfOk result (λ a. a.public.now ≡ public.now) }
        ensures own { IfOk result (λ a. a.own.now ≡ own.now) }
    {
        let schedule = schedule_for(public, d);
        let hardware = &public.hardware;
        let mail = Mail::new(alloc, public.mail.as_slice())?;
        let mut memory = PhysMem::new(alloc, hardware.frames)?;
        let share = share_of(alloc, hardware, own)?;
        let domain = open_domain(alloc, hardware, own, share, &mut memory)?;
        load_domain(hardware, own, &domain, &mut memory);
        // The caches come last: they have the most to drop where memory runs out, and a check
        // takes minutes where that can be in several places.
        let geometry = geometry_of(hardware);
        let (core, l2) = new_parts(alloc, geometry, hardware.costs, hardware.muldiv, true)?;
        Ok(Alone {
            public,
            own,
            number: d,
            slots: 0,
            schedule,
            memory,
            core,
            l2,
            domain,
            mail,
            clock: 0,
        })
    }

    /// Passes the next slot of its hart. One of its own is run, from exactly
    /// its start and with a fresh core: the domain enters and leaves without
    /// charge. Never allocates.
    pub fn run_slot(&mut self)
        requires slots { self.old.slots < 65536 }
        ensures slots { self.new.slots ≡ self.old.slots + 1 }
        ensures number { self.new.number ≡ self.old.number }
        ensures public { self.new.public.now ≡ self.old.public.now }
        ensures own { self.new.own.now ≡ self.old.own.now }
    {
        let slot = self.slots;
        self.slots += 1;
        let entry = self.schedule.entry(slot);
        if entry.domain != self.number {
            return;
        }
        let start = self.schedule.start(slot);
        let layout = self.domain.layout;
        // For the prover: the core is fresh, so that no leaf is kept.
        self.core.empty_tlb();
        enter(&mut self.core, &mut self.l2, &layout);
        self.clock = stretch(
            &mut self.memory,
            &mut self.core,
            &mut self.l2,
            &mut self.domain,
            start,
            start + u64::from(entry.length),
            &mut self.mail,
        );
        leave(&mut self.core, &mut self.l2, &layout);
        // Its dirty lines are written back, and the next slot finds a fresh core.
        self.core.flush(&mut self.l2);
        // What it put into boxes goes off, and nothing comes back.
        self.mail.ends(self.domain.number);
    }

    /// What is seen of the domain after the slots that have passed: what the
    /// definitions see of it alone, by the entries of its hart.
    pub fn view(&self) -> View<'_>
        ensures view { view_model result ≡ view_alone
            (public_for (public_model self.now.public.now) self.now.number)
            (own_model self.now.own.now) self.now.number self.now.slots }
        ensures image { (i : Image) → public_model self.now.public.now ≡ i.all
            → own_model self.now.own.now ≡ own_of i self.now.number
            → view_model result ≡ view_alone_on i self.now.number self.now.slots }
    {
        View::new(&self.domain, &self.memory)
    }

    /// Frees it. The drops of its parts are checked by this, and not again in each crate
    /// that would drop it.
    pub fn discard(self) {
        drop(self);
    }
}
