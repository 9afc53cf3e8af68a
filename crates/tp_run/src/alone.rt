// A run of one domain alone: so many slots of its hart, and then its section.
ghost use Rattle.std.specs.Prelude.{◌≡◌, ◌<◌, ◌≤◌, length};
ghost use Rattle.tp_io.specs.Sink.{state};
ghost use Rattle.image_check.specs.Own.{owns_of};
ghost use Rattle.image_check.specs.Image.{image_from};
ghost use Rattle.tp_answer.specs.Runs as spec;
ghost use Rattle.tp_answer.specs.TopCall.{Delivers};

use alone_run::Alone;
use image_check::Checked;
use std::alloc::Global;
use tp_answer::{Status, status_unless_failed};
use tp_io::Sink;
use tp_report::write_section;

/// Runs domain `d` of the image alone for so many slots of its hart, and writes its section.
pub fn run_domain<K: Sink>(alloc: Global, image: &Checked, d: u8, slots: u32, out: &mut K) -> Status
    requires domain { d < length (owns_of image.now) }
    requires few { slots ≤ 65536 }
    ensures delivers { Delivers (Status.Done, spec.section_alone (image_from image.now) d slots)
        result (state K.Sink out.old) (state K.Sink out.new) }
{
    image.runnable();
    let own = image.own(usize::from(d));
    let mut alone = match Alone::load(alloc, image.public(), own, d) {
        Ok(alone) => alone,
        Err(_) => return Status::Memory,
    };
    for slot in 0..slots {
        alone.run_slot();
    }
    let name = alone.own.name.as_str();
    let status = status_unless_failed(Status::Done, write_section(out, d, name, &alone.view()));
    alone.discard();
    status
}
