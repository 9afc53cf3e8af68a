// The text of the record of an image with all domains but one emptied.
ghost use Rattle.std.specs.Prelude.{◌≡◌, ◌<◌, Ok, length, string_bytes, IfOk};
ghost use Rattle.image_record.specs.Models.{raw_model};
ghost use Rattle.image_text.specs.Record.{image_of};
ghost use Rattle.image_writing.specs.Text.{text_of};
ghost use Rattle.image_writing.specs.Writing.{IsWritable};
ghost use Rattle.image_redact.specs.Redacted as spec;

use crate::redacting::redacted;
use image_record::Raw;
use image_writing::write_image;
use std::alloc::Global;
use tp_base::Memory;

/// The text of the record that the tenant of domain `d` may hold. It reads as that record,
/// where the record that it is made of could have been read and breaks no rule.
///
/// # Errors
///
/// `Memory` where memory runs out.
pub fn write_redacted(alloc: Global, raw: Raw, d: u8) -> Result<String, Memory>
    requires domain { d < length raw.domains.items }
    ensures text { IfOk result (λ s. string_bytes s ≡ text_of (spec.redacted (raw_model raw) d)) }
    ensures reads { IfOk result (λ s. IsWritable (raw_model raw)
        → image_of (string_bytes s) ≡ Ok (spec.redacted (raw_model raw) d)) }
{
    match redacted(alloc, raw, d) {
        Ok(kept) => {
            let written = write_image(alloc, &kept);
            drop(kept);
            written
        }
        Err(Memory) => Err(Memory),
    }
}
