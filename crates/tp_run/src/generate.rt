// The run of the image that a seed makes.
ghost use Rattle.tp_io.specs.Sends.{Sends};
ghost use Rattle.tp_io.specs.Sink.{state};
ghost use Rattle.image_check.specs.Image.{image_from};
ghost use Rattle.world_view.specs.Harts.{IsOnOneHart};
ghost use Rattle.tp_report.specs.Demo as report_spec;
ghost use Rattle.tp_answer.specs.Answer as spec;
ghost use Rattle.tp_answer.specs.TopCall.{Delivers};

use crate::run::write_ending;
use image_check::Checked;
use std::alloc::Global;
use tp_answer::{Status, domains_of, generated_image, status_unless_failed};
use tp_base::Memory;
use tp_io::{Failed, Sink};
use tp_machine::Machine;
use tp_report::{DemoPart, write_demo};

/// How many slots a seed's image is run for.
const DEMO_SLOTS: u32 = 64;

/// Runs the image that a seed makes and writes the summary.
pub fn run_demo<K: Sink>(alloc: Global, seed: u32, out: &mut K) -> Status
    ensures delivers { Delivers (spec.answer_demo seed) result (state K.Sink out.old) (state K.Sink out.new) }
{
    match generated_image(alloc, seed) {
        Ok(image) => {
            let status = run_image_of(alloc, &image, seed, out);
            image.discard();
            status
        }
        Err(_) => Status::Memory,
    }
}

// Runs the image of a seed and writes the summary.
fn run_image_of<K: Sink>(alloc: Global, image: &Checked, seed: u32, out: &mut K) -> Status
    requires one { IsOnOneHart (image_from image.now) }
    ensures delivers { Delivers (Status.Done, report_spec.demo_text (image_from image.now) seed)
        result (state K.Sink out.old) (state K.Sink out.new) }
{
    match Machine::after(alloc, image, DEMO_SLOTS) {
        Ok(machine) => {
            let status = status_unless_failed(Status::Done, write_summary(out, seed, &machine));
            machine.discard();
            status
        }
        Err(Memory) => Status::Memory,
    }
}

// The summary after the slots that have run.
fn write_summary<K: Sink>(out: &mut K, seed: u32, machine: &Machine<'_>) -> Result<(), Failed>
    ensures sends { Sends (state K.Sink out.old) (state K.Sink out.new)
        result (report_spec.demo_after (image_from machine.now.record_of) machine.now.slots seed) }
{
    write_demo(out, DemoPart::Head(u64::from(seed)))?;
    write_lines(out, machine)?;
    write_ending(out, machine)
}

// The line of each domain.
fn write_lines<K: Sink>(out: &mut K, machine: &Machine<'_>) -> Result<(), Failed>
    ensures sends { Sends (state K.Sink out.old) (state K.Sink out.new)
        result (report_spec.demo_lines (image_from machine.now.record_of) machine.now.slots) }
{
    for d in 0..domains_of(machine.image()) {
        write_demo(out, DemoPart::Domain(d, &machine.view(d)))?;
    }
    Ok(())
}
