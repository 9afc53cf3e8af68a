// The image that bytes are, or the rule that it breaks, and the answers that need no more than that.
ghost use Rattle.std.specs.Prelude.{◌≡◌, ◌≢◌, ℕ, Result, length, OnOk, OnErr};
ghost use Rattle.tp_io.specs.Sink.{state};
ghost use Rattle.guards.specs.declared.Guard.{Guard};
ghost use Rattle.image_record.specs.declared.refusal.Refusal.{Refusal};
ghost use Rattle.image_record.specs.Record.{Raw};
ghost use Rattle.image_check.specs.Own.{owns_of};
ghost use Rattle.image_check.specs.Image.{image_from};
ghost use Rattle.tp_words.specs.declared.Command.{Command};
ghost use Rattle.tp_answer.specs.Answer as spec;
ghost use Rattle.tp_answer.specs.TopCall.{Delivers};
ghost use Rattle.tp_answer.specs.Accepting.{Accepting, IsRefused};
ghost use Rattle.tp_answer.specs.Reading.{record_for};

use crate::Status;
use crate::bounds::write_bounds;
use image_check::{CheckRefusal, Checked, Unpadded, check, check_but_pads};
use image_text::read_image;
use std::alloc::Global;
use tp_io::{Failed, Sink};
use tp_report::{write_accepted, write_refusal};

/// Answers whether the image that bytes are breaks no rule.
pub fn answer_check<K: Sink>(alloc: Global, bytes: &[u8], out: &mut K) -> Status
    ensures delivers { Delivers
        (spec.answer_unless_broken Command.Check (record_for Command.Check bytes.now))
        result (state K.Sink out.old) (state K.Sink out.new) }
{
    match accepted(alloc, bytes) {
        Ok(image) => {
            image.discard();
            status_unless_failed(Status::Done, write_accepted(out))
        }
        Err(refusal) => refuse(&refusal, out),
    }
}

/// Answers the bound of the image that bytes are, where it breaks no rule but that of pads.
pub fn answer_bound<K: Sink>(alloc: Global, bytes: &[u8], out: &mut K) -> Status
    ensures delivers { Delivers
        (spec.answer_unless_broken Command.Bound (record_for Command.Bound bytes.now))
        result (state K.Sink out.old) (state K.Sink out.new) }
{
    match accepted_but_pads(alloc, bytes) {
        Ok(image) => {
            let status = write_bounds(alloc, &image, out);
            image.discard();
            status
        }
        Err(refusal) => refuse(&refusal, out),
    }
}

/// Names the rule that is broken, unless memory ran out.
pub fn refuse<K: Sink>(refusal: &CheckRefusal, out: &mut K) -> Status
    ensures delivers { (c : Command) (found : Result Raw Refusal) → IsRefused refusal.now found
        → Delivers (spec.answer_unless_broken c found) result (state K.Sink out.old) (state K.Sink out.new) }
    ensures never_done { result ≢ Status.Done }
{
    match refusal {
        CheckRefusal::Memory => Status::Memory,
        CheckRefusal::Broken(refusal) => {
            status_unless_failed(Status::Refused, write_refusal(out, refusal))
        }
    }
}

/// The image that bytes are, where it breaks no rule.
#[tactic(auto, unfolding(crate::specs::Reading::record_for, crate::specs::Reading::checked_for))]
pub fn accepted(alloc: Global, bytes: &[u8]) -> Result<Checked, CheckRefusal>
    ensures check { Accepting result (record_for Command.Check bytes.now) }
    ensures run { (slots : ℕ) → Accepting result (record_for (Command.Run slots) bytes.now) }
    ensures alone { (d slots : ℕ) → Accepting result (record_for (Command.Alone d slots) bytes.now) }
    ensures ablate { (off : Guard) (slots : ℕ)
        → Accepting result (record_for (Command.Ablate off slots) bytes.now) }
    ensures harts { (slots seed : ℕ) → Accepting result (record_for (Command.Harts slots seed) bytes.now) }
    ensures redact { (d : ℕ) → Accepting result (record_for (Command.Redact d) bytes.now) }
{
    match read_image(alloc, bytes) {
        Ok(raw) => check(alloc, raw),
        Err(refusal) => Err(refusal),
    }
}

// The image that bytes are, where it breaks no rule but that of pads.
#[tactic(auto, unfolding(crate::specs::Reading::record_for, crate::specs::Reading::checked_for))]
fn accepted_but_pads(alloc: Global, bytes: &[u8]) -> Result<Unpadded, CheckRefusal>
    ensures accepts { Accepting result (record_for Command.Bound bytes.now) }
{
    match read_image(alloc, bytes) {
        Ok(raw) => check_but_pads(alloc, raw),
        Err(refusal) => Err(refusal),
    }
}

/// The status, unless its text could not be written.
pub fn status_unless_failed(status: Status, written: Result<(), Failed>) -> Status
    ensures ok { OnOk written (result ≡ status) }
    ensures err { OnErr written (result ≡ Status.WriteFault) }
{
    match written {
        Ok(()) => status,
        Err(Failed) => Status::WriteFault,
    }
}

/// How many domains the image has.
pub fn domains_of(image: &Checked) -> u8
    ensures value { result ≡ length (owns_of image.now) }
    ensures counted { result ≡ (image_from image.now).all.domains }
{
    image.runnable();
    image.public().domains as u8
}
