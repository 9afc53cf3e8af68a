// One domain alone, one slot of its hart after another.
ghost use Rattle.std.specs.Prelude.{◌≡◌, ◌≤◌, ◌∷◌, [], IfOk};
ghost use Rattle.frame_colours.specs.Colours.{AreDisjoint};
ghost use Rattle.hardware_check.specs.Hardware.{IsHardware, colours_of};
ghost use Rattle.hardware_check.specs.Models.{hardware_model};
ghost use Rattle.sched_table.specs.Schedule.{entries_alone};
ghost use Rattle.mem_system.specs.Contents.{system};
ghost use Rattle.image_check.specs.Models.{public_model, own_model};
ghost use Rattle.image_check.specs.Pages as pages;
ghost use Rattle.alone_run.specs.Runs.{public_for, alone_after, RunsAlone};
ghost use Rattle.alone_run.specs.Standing.{kept, StandsFor, HasFacts, IsInBounds};
ghost use Rattle.alone_run.specs.Propositions.{stands_prop};

mod run;

use frame_colours::{AllColours, ColourShare};
use image_check::{Hardware, Own, Public};
use kernel_call::Domain;
use l2_colour::L2;
use mail_slots::Mail;
use mem_system::OnCore;
use phys_mem::PhysMem;
use repl_policy::AnyPolicy;
use sched_table::HartSchedule;
use std::alloc::Global;
use tp_base::Memory;

/// One domain alone, between two slots of its hart. Its data stand for the
/// definition of the domain alone after so many slots.
#[derive(Drop)]
pub struct Alone<'a> {
    /// What all domains may know.
    pub public: &'a Public,
    /// What is the domain's own.
    pub own: &'a Own,
    /// The domain, as the schedule names it.
    pub number: u8,
    /// How many slots of its hart have passed, its own and others'.
    pub slots: u32,
    /// That of its hart.
    schedule: &'a HartSchedule,
    memory: PhysMem,
    /// The kernel's lines are pinned in it.
    core: OnCore<AnyPolicy>,
    l2: L2<AnyPolicy>,
    domain: Domain,
    /// The boxes, in which nothing comes to it.
    mail: Mail,
    /// In cycles, as its last slot ended.
    clock: u64,
    ghost on_hart: { entries_alone schedule.now ≡ (public_for (public_model public.now) number).schedule },
    ghost runs: { RunsAlone (public_for (public_model public.now) number) (own_model own.now) number },
    ghost stands: { StandsFor (hardware_model public.now.hardware) (own_model own.now)
        (alone_after (public_model public.now) (own_model own.now) number slots)
        (kept memory mail (system core l2) domain clock) } by { stands_prop (hardware_model public.now.hardware)
            (own_model own.now) (alone_after (public_model public.now) (own_model own.now) number slots)
            (kept memory mail (system core l2) domain clock) },
    ghost facts: { ∥ HasFacts (hardware_model public.now.hardware) (own_model own.now)
        (alone_after (public_model public.now) (own_model own.now) number slots)
        (kept memory mail (system core l2) domain clock) ∥₁ },
    ghost in_bounds: { IsInBounds slots (kept memory mail (system core l2) domain clock) },
}

// The frames of the domain's colours.
fn share_of(alloc: Global, hardware: &Hardware, own: &Own) -> Result<ColourShare, Memory>
    requires hardware { IsHardware (hardware_model hardware.now) }
    requires colours { AreDisjoint (colours_of (hardware_model hardware.now))
        ((own_model own.now).colours ∷ []) }
    ensures share { IfOk result (λ share.
        share ≡ pages.share_of (hardware_model hardware.now) (own_model own.now)) }
{
    let all = AllColours::new(hardware.frames, hardware.colours());
    let mut shares = all.split(alloc, std::slice::from_ref(&own.colours))?;
    let share = shares.remove(0);
    shares.destroy_empty();
    Ok(share)
}
