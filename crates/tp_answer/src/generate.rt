// The image that a seed makes: written, or read back.
ghost use Rattle.std.specs.Prelude.{◌≡◌, IfOk, IfErr};
ghost use Rattle.tp_io.specs.Sink.{state};
ghost use Rattle.image_check.specs.Image.{image_from};
ghost use Rattle.image_gen.specs.Generated.{generated};
ghost use Rattle.tp_answer.specs.Answer as spec;
ghost use Rattle.tp_answer.specs.TopCall.{Delivers, ReadsBack};

use crate::Status;
use crate::accept::{accepted, status_unless_failed};
use image_check::{CheckRefusal, Checked};
use image_gen::generate;
use std::alloc::Global;
use tp_base::Memory;
use tp_io::{Sink, write_all_of};

/// Writes the image that a seed makes.
pub fn write_generated<K: Sink>(alloc: Global, seed: u32, out: &mut K) -> Status
    ensures delivers { Delivers (spec.answer_gen seed) result (state K.Sink out.old) (state K.Sink out.new) }
    ensures reads_back { result ≡ Status.Done → ReadsBack seed }
{
    match generate(alloc, u64::from(seed)) {
        Ok(text) => status_unless_failed(Status::Done, write_all_of(out, text.as_bytes())),
        Err(Memory) => Status::Memory,
    }
}

/// The image that a seed makes. It is never refused but for want of memory.
pub fn generated_image(alloc: Global, seed: u32) -> Result<Checked, CheckRefusal>
    ensures made { IfOk result (λ image. image_from image ≡ image_from (generated seed)) }
    ensures never_broken { IfErr result (λ refusal. refusal ≡ CheckRefusal.Memory) }
{
    match generate(alloc, u64::from(seed)) {
        Ok(text) => accepted(alloc, text.as_bytes()),
        Err(Memory) => Err(CheckRefusal::Memory),
    }
}
