// The bounds on the switches of an image.
ghost use Rattle.std.specs.Prelude.{◌≡◌, map, IfOk};
ghost use Rattle.tp_io.specs.Sink.{state};
ghost use Rattle.image_check.specs.Image.{image_from};
ghost use Rattle.tp_report.specs.Report as spec;
ghost use Rattle.tp_answer.specs.TopCall.{Delivers};

use crate::Status;
use crate::accept::status_unless_failed;
use image_check::Unpadded;
use pad_bound::bound;
use std::alloc::Global;
use tp_base::Memory;
use tp_io::Sink;
use tp_report::{write_bound, write_bound_2};

// The calls that each domain may make, a bit each.
fn calls_of(alloc: Global, image: &Unpadded) -> Result<Vec<u32>, Memory>
    ensures calls { IfOk result (λ v. v.items ≡ map (λ o. o.calls) (image_from image.now).owns) }
{
    image.kept();
    let domains = image.public().domains as usize;
    let mut calls = Vec::with_capacity(alloc, domains)?;
    for d in 0..domains {
        calls.push(image.own(d).calls)?;
    }
    Ok(calls)
}

/// Writes the bound on the switches of an image of the first version, and of the
/// second that of each entry, in cycles.
pub fn write_bounds<K: Sink>(alloc: Global, image: &Unpadded, out: &mut K) -> Status
    ensures delivers { Delivers (Status.Done, spec.bounds_of (image_from image.now))
        result (state K.Sink out.old) (state K.Sink out.new) }
{
    image.kept();
    let shape = image.shape();
    let public = image.public();
    if public.version == 1 {
        return status_unless_failed(Status::Done, write_bound(out, &bound(&shape)));
    }
    match calls_of(alloc, image) {
        Ok(calls) => {
            let written = write_bound_2(out, &shape, &public.schedule, calls.as_slice());
            status_unless_failed(Status::Done, written)
        }
        Err(Memory) => Status::Memory,
    }
}
