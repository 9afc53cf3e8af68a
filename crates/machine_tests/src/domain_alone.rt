// Red of two domains, slot by slot.
ghost use Rattle.std.specs.Prelude.{◌≡◌};

use crate::images::{MACHINE, RED_AND_BLUE, accepted};
use crate::seen::{Seen, told};
use alone_run::Alone;
use call_table::{DomainStatus, Reply};
use image_check::Checked;
use std::alloc::Global;
use std::test::Fail;
use tp_base::Memory;

const SCHEDULE: &str = "[[schedule]]
domain = 1
length = 2000
pad = 6150
[[schedule]]
domain = 0
length = 1000
pad = 7000
";

// For the prover an image and a domain are lent to functions that need not drop them.

fn run_slots(red: &mut Alone<'_>) -> Option<(u64, Seen)>
    requires slots { red.old.slots ≡ 0 }
{
    red.run_slot();
    let retired = red.view().retired();
    red.run_slot();
    red.run_slot();
    told(&red.view()).map(|seen| (retired, seen))
}

fn run(alloc: Global, image: &Checked) -> Result<Option<(u64, Seen)>, Memory> {
    image.runnable();
    // For the prover no `?`, which would move the domain once more.
    match Alone::load(alloc, image.public(), image.own(0), 0) {
        Ok(mut red) => Ok(run_slots(&mut red)),
        Err(error) => Err(error),
    }
}

// How many instructions of red retired in the first slot, and red after three.
fn ran(alloc: Global) -> Result<Option<(u64, Seen)>, Memory> {
    match accepted(alloc, &[MACHINE, RED_AND_BLUE, SCHEDULE])? {
        Some(image) => run(alloc, &image),
        None => Ok(None),
    }
}

// The first slot is blue's, after the last entry's pad; red's begins 7000 + 2000 +
// 6150 cycles after the start.
#[test]
fn its_own_slots_are_run(rt: HostRuntime) -> Result<(), Fail> {
    let seen = Seen {
        status: DomainStatus::Exited(0),
        retired: 6,
        pc: 0x1_0020,
        readings: (15150, 15150),
        replies: (1, Reply { code: 0, value: 0 }),
        printed: 1,
        pool: 16,
        frame: 37,
        word: 15150,
    };
    assert_eq!(rt; ran(rt.alloc())?, Some((0, seen)));
    Ok(())
}
