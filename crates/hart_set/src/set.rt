// An image's harts, one event after another.
use guards::Guard;
use hart_orders::Hart;
use image_check::Checked;
use kernel_call::Domain;
use l2_colour::L2;
use mail_slots::Mail;
use phys_mem::PhysMem;
use repl_policy::AnyPolicy;
use std::marker::Model;
use world_view::Used;

mod calls;

/// What the harts share, and each of them.
#[derive(Drop)]
pub struct State {
    /// The guard that is off, if one is: only where there is one hart.
    pub off: Option<Guard>,
    pub memory: PhysMem,
    pub l2: L2<AnyPolicy>,
    pub harts: Vec<Hart>,
    pub domains: Vec<Domain>,
    pub mail: Mail,
    /// By entry of the schedule.
    pub used: Vec<Used>,
}

/// The harts of an image between two events, with all guards on or one hart with one off. It
/// stands for the definition of them after some order of events; it keeps no order.
#[derive(Drop)]
pub struct HartSet<'a> {
    image: &'a Checked,
    state: State,
}

impl<'a> Model for HartSet<'a> {
    ghost use Rattle.image_record.specs.Record.{Raw};
    ghost use Rattle.image_check.specs.Image.{image_from};
    ghost use Rattle.hart_set.specs.declared.set.State.{State};
    ghost use Rattle.hart_set.specs.Reached.{IsReached};

    ghost Value = { Raw × State };

    ghost view = { λ s. (s.image.now, s.state) };

    ghost invariant = { λ s. IsReached (image_from s.image.now) s.state };
}
