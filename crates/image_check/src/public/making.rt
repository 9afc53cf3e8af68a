// What all domains may know, made of an image's parts.
ghost use Rattle.std.specs.Prelude.{◌≡◌, [], map};
ghost use Rattle.sched_table.specs.Schedule.{IsSchedule, AreHarts};
ghost use Rattle.sched_table.specs.Schedule.{hart_schedules as spec_hart_schedules};
ghost use Rattle.image_record.specs.Models.{raw_model};
ghost use Rattle.image_record.specs.Outcomes.{Makes};
ghost use Rattle.image_check.specs.Checking.{broken_but_pads};
ghost use Rattle.image_check.specs.Public as spec;
ghost use Rattle.schedule_check.specs.Schedule.{entry_of};
ghost use Rattle.schedule_check.specs.Mail.{box_of};
ghost use Rattle.hardware_check.specs.Hardware.{hardware_of as spec_hardware_of};
ghost use Rattle.image_check.specs.Models.{hardware_model, public_model};

use crate::CheckRefusal;
use crate::public::Public;
use hardware_check::Hardware;
use image_record::Raw;
use sched_table::{Entry, HartSchedule, Schedule, hart_schedules};
use std::alloc::Global;
use tp_base::{DomainNo, Memory};

fn schedule_of(alloc: Global, entries: &[Entry]) -> Result<Schedule, CheckRefusal>
    requires schedule { IsSchedule entries.now }
    ensures value { Makes (λ s. s) result entries.now }
{
    match Schedule::new(alloc, entries) {
        Ok(schedule) => Ok(schedule),
        Err(Memory) => Err(CheckRefusal::Memory),
    }
}

fn harts_of(alloc: Global, entries: &[Entry]) -> Result<Vec<HartSchedule>, CheckRefusal>
    requires schedule { IsSchedule entries.now }
    requires harts { AreHarts entries.now }
    ensures value { Makes (λ v. v.items) result (spec_hart_schedules entries.now) }
{
    match hart_schedules(alloc, entries) {
        Ok(harts) => Ok(harts),
        Err(Memory) => Err(CheckRefusal::Memory),
    }
}

/// What all domains may know of an image that breaks no rule but that of pads,
/// of this machine, these entries and these boxes.
///
/// # Errors
///
/// `Memory` alone.
pub fn public_of(
    alloc: Global,
    raw: &Raw,
    hardware: Hardware,
    entries: &[Entry],
    mail: Vec<(DomainNo, DomainNo)>,
) -> Result<Public, CheckRefusal>
    requires accepted { broken_but_pads (raw_model raw.now) ≡ [] }
    requires hardware { hardware_model hardware ≡ spec_hardware_of (raw_model raw.now) }
    requires entries { entries.now ≡ map entry_of (raw_model raw.now).schedule }
    requires mail { mail.items ≡ map box_of (raw_model raw.now).mail }
    ensures value { Makes public_model result (spec.public_of (raw_model raw.now)) }
{
    let schedule = schedule_of(alloc, entries)?;
    let harts = harts_of(alloc, entries)?;
    let domains = raw.domains.len() as u32;
    Ok(Public {
        version: raw.version,
        hardware,
        schedule,
        harts,
        domains,
        mail,
    })
}
