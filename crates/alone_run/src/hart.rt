// Whose schedule a domain goes by.
ghost use Rattle.std.specs.Prelude.{◌≡◌, ◌<◌};
ghost use Rattle.sched_table.specs.Schedule as spec;
ghost use Rattle.sched_table.specs.Schedule.{entries_alone, harts_in};
ghost use Rattle.image_check.specs.Models.{public_model};
ghost use Rattle.alone_run.specs.Runs.{public_for};

use image_check::Public;
use sched_table::{HartSchedule, Schedule};

// That of the first entry that names the domain, 0 where none does.
fn hart_for(schedule: &Schedule, d: u8) -> u8
    ensures value { result ≡ spec.hart_for schedule.now d }
    ensures there { result < harts_in schedule.now }
{
    for k in 0..schedule.len() {
        let entry = schedule.entry(k);
        if entry.domain == d {
            return entry.hart;
        }
    }
    0
}

/// The schedule of the domain's hart.
pub fn schedule_for(public: &Public, d: u8) -> &HartSchedule
    ensures entries { entries_alone result.now ≡ (public_for (public_model public.now) d).schedule }
{
    &public.harts[usize::from(hart_for(&public.schedule, d))]
}
