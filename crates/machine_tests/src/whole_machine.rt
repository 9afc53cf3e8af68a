// A run of two domains, slot by slot.
ghost use Rattle.std.specs.Prelude.{◌≡◌};

mod calls;
mod timed_calls;

use crate::images::{MACHINE, RED_AND_BLUE, accepted};
use crate::seen::{Seen, told};
use call_table::{DomainStatus, Reply};
use domain_step::has_one_hart;
use image_check::Checked;
use std::alloc::Global;
use std::test::Fail;
use tp_base::Memory;
use tp_machine::Machine;
use world_view::Used;

const SCHEDULE: &str = "[[schedule]]
domain = 0
length = 1000
pad = 7000
[[schedule]]
domain = 1
length = 2000
pad = 6150
";

// For the prover an image and a machine are lent to functions that need not drop them.

fn run_slots(machine: &mut Machine<'_>) -> Option<(Seen, Used)>
    requires slots { machine.old.slots ≡ 0 }
{
    machine.image().runnable();
    machine.run_slot();
    machine.run_slot();
    machine.run_slot();
    let used = machine.used(0);
    told(&machine.view(0)).map(|seen| (seen, used))
}

fn run(alloc: Global, image: &Checked) -> Result<Option<(Seen, Used)>, Memory> {
    if !has_one_hart(image) {
        return Ok(None);
    }
    // For the prover no `?`, which would move the machine once more.
    match Machine::load(alloc, image) {
        Ok(mut machine) => Ok(run_slots(&mut machine)),
        Err(error) => Err(error),
    }
}

// Red after three slots, and what the switches of the first entry took.
fn ran(alloc: Global) -> Result<Option<(Seen, Used)>, Memory> {
    match accepted(alloc, &[MACHINE, RED_AND_BLUE, SCHEDULE])? {
        Some(image) => run(alloc, &image),
        None => Ok(None),
    }
}

// The first slot begins after the last entry's pad, at 6150.
#[test]
fn slots_are_run(rt: HostRuntime) -> Result<(), Fail> {
    let red = Seen {
        status: DomainStatus::Exited(0),
        retired: 6,
        pc: 0x1_0020,
        readings: (6150, 6150),
        replies: (1, Reply { code: 0, value: 0 }),
        printed: 1,
        pool: 16,
        frame: 37,
        word: 6150,
    };
    let used = Used {
        largest: 820,
        count: 1,
    };
    assert_eq!(rt; ran(rt.alloc())?, Some((red, used)));
    Ok(())
}
