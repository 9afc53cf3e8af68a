// The image as the tenant of one of its domains may hold it.
ghost use Rattle.std.specs.Prelude.{◌≡◌, ◌<◌, Ok, IfOk, length, string_bytes};
ghost use Rattle.tp_io.specs.Sink.{state};
ghost use Rattle.image_record.specs.Record as text;
ghost use Rattle.image_text.specs.Record.{image_of};
ghost use Rattle.image_redact.specs.Redacted.{redacted};
ghost use Rattle.image_writing.specs.Text.{text_of};
ghost use Rattle.tp_words.specs.declared.Command.{Command};
ghost use Rattle.tp_answer.specs.Answer as spec;
ghost use Rattle.tp_answer.specs.Reading.{record_for};
ghost use Rattle.tp_answer.specs.TopCall.{Delivers, KeptReadsBack};

use crate::Status;
use crate::accept::{accepted, domains_of, refuse, status_unless_failed};
use image_redact::write_redacted;
use image_text::read_image;
use std::alloc::Global;
use tp_base::Memory;
use tp_io::{Sink, write_all_of};
use tp_report::write_usage;

/// Writes the image that bytes are as the tenant of a domain may hold it, where it breaks
/// no rule and has that domain.
pub fn answer_redact<K: Sink>(alloc: Global, bytes: &[u8], domain: u8, out: &mut K) -> Status
    ensures delivers { Delivers (spec.answer_unless_broken
        (Command.Redact domain) (record_for (Command.Redact domain) bytes.now))
        result (state K.Sink out.old) (state K.Sink out.new) }
    ensures reads_back { result ≡ Status.Done → KeptReadsBack domain bytes.now }
{
    match accepted(alloc, bytes) {
        Ok(image) => {
            let domains = domains_of(&image);
            image.discard();
            if domain < domains {
                write_kept(alloc, bytes, domain, out)
            } else {
                status_unless_failed(Status::Usage, write_usage(out))
            }
        }
        Err(refusal) => refuse(&refusal, out),
    }
}

// Writes the image that bytes are, which breaks no rule and has the domain.
fn write_kept<K: Sink>(alloc: Global, bytes: &[u8], domain: u8, out: &mut K) -> Status
    requires domain { (i : text.Raw) → image_of bytes.now ≡ Ok i → domain < length i.domains }
    ensures delivers { (i : text.Raw) → image_of bytes.now ≡ Ok i
        → Delivers (Status.Done, text_of (redacted i domain)) result (state K.Sink out.old) (state K.Sink out.new) }
    ensures reads_back { result ≡ Status.Done → KeptReadsBack domain bytes.now }
{
    match kept_text(alloc, bytes, domain) {
        Ok(text) => status_unless_failed(Status::Done, write_all_of(out, text.as_bytes())),
        Err(Memory) => Status::Memory,
    }
}

// Its text. An image that was accepted gives its record to nobody, so the bytes are read once
// more: nothing can be wrong with them but that memory runs out.
fn kept_text(alloc: Global, bytes: &[u8], domain: u8) -> Result<String, Memory>
    requires domain { (i : text.Raw) → image_of bytes.now ≡ Ok i → domain < length i.domains }
    ensures text { (i : text.Raw) → image_of bytes.now ≡ Ok i
        → IfOk result (λ s. string_bytes s ≡ text_of (redacted i domain)) }
    ensures reads_back { IfOk result (λ s. KeptReadsBack domain bytes.now) }
{
    match read_image(alloc, bytes) {
        Ok(raw) => write_redacted(alloc, raw, domain),
        Err(_) => Err(Memory),
    }
}
