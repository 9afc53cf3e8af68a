// What all domains may know of an image.
ghost use Rattle.std.specs.Prelude.{◌≡◌};
ghost use Rattle.sched_table.specs.Schedule.{hart_schedules};

mod making;

use hardware_check::Hardware;
pub use making::public_of;
use sched_table::{HartSchedule, Schedule};
use tp_base::DomainNo;

/// What all domains may know: the hardware, the schedule, and the mailboxes.
#[derive(Drop)]
pub struct Public {
    /// Of the image's format, 1 or 2.
    pub version: u8,
    pub hardware: Hardware,
    pub schedule: Schedule,
    /// That of each hart, ascending.
    pub harts: Vec<HartSchedule>,
    /// How many domains there are.
    pub domains: u32,
    /// The mailboxes by their numbers, at most 64: from which domain, and to which.
    pub mail: Vec<(DomainNo, DomainNo)>,
    pub ghost each_hart: { harts.items ≡ hart_schedules schedule },
}
