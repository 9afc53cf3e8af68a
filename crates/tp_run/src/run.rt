// A run of an image: so many slots, and then the report.
ghost use Rattle.std.specs.Prelude.{◌<◌, ◌≤◌, length};
ghost use Rattle.tp_io.specs.Sends.{Sends};
ghost use Rattle.tp_io.specs.Sink.{state};
ghost use Rattle.image_check.specs.Image.{image_from};
ghost use Rattle.world_view.specs.View.{view_in};
ghost use Rattle.world_view.specs.Harts.{IsOnOneHart};
ghost use Rattle.tp_report.specs.Report as spec;
ghost use Rattle.tp_answer.specs.Runs as runs;
ghost use Rattle.tp_answer.specs.TopCall.{Delivers};

use crate::reported::Reported;
use guards::Guard;
use hart_orders::Choice;
use hart_set::HartRun;
use image_check::Checked;
use std::alloc::Global;
use tp_answer::{Status, domains_of, status_unless_failed};
use tp_base::Memory;
use tp_io::{Failed, Sink};
use tp_machine::Ablated;
use tp_report::{write_section, write_switches, write_unprotected};

/// Runs the image for so many slots of each hart, and writes the report. Of several harts
/// the one whose event is next is chosen so.
pub fn run_image<K: Sink>(
    alloc: Global,
    image: &Checked,
    choice: Choice,
    slots: u32,
    out: &mut K,
) -> Status
    requires few { slots ≤ 65536 }
    ensures delivers { Delivers (Status.Done, runs.report (image_from image.now) choice slots)
        result (state K.Sink out.old) (state K.Sink out.new) }
{
    match HartRun::new(alloc, image, choice, slots) {
        Ok(run) => {
            let status = status_unless_failed(Status::Done, write_report(out, &run));
            run.discard();
            status
        }
        Err(Memory) => Status::Memory,
    }
}

/// Runs the image with a guard off for so many slots and writes which one, and the report.
pub fn run_off<K: Sink>(
    alloc: Global,
    image: &Checked,
    off: Guard,
    slots: u32,
    out: &mut K,
) -> Status
    requires few { slots ≤ 65536 }
    requires one { IsOnOneHart (image_from image.now) }
    ensures delivers { Delivers (Status.Done, spec.report_off off (image_from image.now) slots)
        result (state K.Sink out.old) (state K.Sink out.new) }
{
    match Ablated::after(alloc, image, off, slots) {
        Ok(machine) => {
            let status = status_unless_failed(Status::Done, write_report_off(out, &machine));
            machine.discard();
            status
        }
        Err(Memory) => Status::Memory,
    }
}

// Which guard is off, and the report after the slots that have run.
#[tactic(auto, unfolding(tp_report::specs::Report::report_off))]
fn write_report_off<K: Sink>(out: &mut K, machine: &Ablated<'_>) -> Result<(), Failed>
    ensures sends { Sends (state K.Sink out.old) (state K.Sink out.new)
        result (spec.report_off machine.now.off (image_from machine.now.record_of) machine.now.slots) }
{
    write_unprotected(out, machine.off())?;
    write_report(out, machine)
}

// The report after the slots that have run.
fn write_report<K: Sink, M: Reported>(out: &mut K, machine: &M) -> Result<(), Failed>
    ensures sends { Sends (state K.Sink out.old) (state K.Sink out.new)
        result (spec.report_of (M.image machine.now) (M.world machine.now)) }
{
    write_sections(out, machine)?;
    write_ending(out, machine)
}

/// Writes the switch lines and the last line.
pub fn write_ending<K: Sink, M: Reported>(out: &mut K, machine: &M) -> Result<(), Failed>
    ensures sends { Sends (state K.Sink out.old) (state K.Sink out.new)
        result (spec.ending_of (M.image machine.now) (M.world machine.now)) }
{
    let public = machine.checked().public();
    write_switches(out, &public.schedule, machine.switches())
}

// The section of each domain.
fn write_sections<K: Sink, M: Reported>(out: &mut K, machine: &M) -> Result<(), Failed>
    ensures sends { Sends (state K.Sink out.old) (state K.Sink out.new)
        result (spec.sections (M.image machine.now)
        (λ d. view_in (M.image machine.now) d (M.world machine.now))) }
{
    for d in 0..domains_of(machine.checked()) {
        write_domain(out, machine, d)?;
    }
    Ok(())
}

#[tactic(auto, unfolding(tp_report::specs::Report::section_of))]
fn write_domain<K: Sink, M: Reported>(out: &mut K, machine: &M, d: u8) -> Result<(), Failed>
    requires domain { d < length (M.image machine.now).owns }
    ensures sends { Sends (state K.Sink out.old) (state K.Sink out.new)
        result (spec.section_of (M.image machine.now)
        (λ e. view_in (M.image machine.now) e (M.world machine.now)) d) }
{
    let own = machine.checked().own(usize::from(d));
    write_section(out, d, own.name.as_str(), &machine.seen(d))
}
