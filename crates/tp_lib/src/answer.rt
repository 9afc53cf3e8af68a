// What is asked for, done; its text in the caller's buffer, and the number of how that ended.
ghost use Rattle.std.specs.Prelude.{◌≡◌, ◌<◌, ◌≤◌, ℕ, length, [], Some, None, IfSome, ◌++◌, drop};
ghost use Rattle.tp_io.specs.Sink.{state};
ghost use Rattle.tp_words.specs.declared.Command.{Command};
ghost use Rattle.tp_words.specs.Words.{IsInRange, Reads};
ghost use Rattle.tp_answer.specs.Answer as spec;
ghost use Rattle.tp_answer.specs.TopCall.{Delivers, KeptReadsBack, ReadsBack, Writes};
ghost use Rattle.tp_lib.specs.Answers.{Answers};

use crate::text_sink::TextSink;
use std::alloc::Global;
use tp_answer::{Status, status_unless_failed};
use tp_io::Sink;
use tp_report::write_usage;
use tp_run::answer_bytes;
use tp_words::Command;

/// The number where memory ran out.
const MEMORY: u32 = 5;

/// The number where the buffer is too small for the text.
const TOO_SMALL: u32 = 7;

/// Does what is asked for, or tells the usage where that is no command, and hands the
/// text over.
pub fn answer(
    alloc: Global,
    asked: Option<Command>,
    image: &[u8],
    text: &mut [u8],
    taken: &mut usize,
) -> u32
    requires range { IfSome asked IsInRange }
    requires none { IfSome asked (λ c. ¬ Reads c → image.now ≡ []) }
    ensures answers { Answers (spec.answer_by asked image.now) result taken.new text.old text.new }
    ensures reads_back { (seed : ℕ) → asked ≡ Some (Command.Gen seed) → result ≡ 0 → ReadsBack seed }
    ensures kept_reads_back { (d : ℕ) → asked ≡ Some (Command.Redact d) → result ≡ 0
        → KeptReadsBack d image.now }
{
    let mut sink = TextSink::new(alloc);
    let status = answer_asked(alloc, asked, image, &mut sink);
    hand_over(status, sink.text(), text, taken)
}

// Does what is asked for.
fn answer_asked<K: Sink>(alloc: Global, asked: Option<Command>, image: &[u8], out: &mut K) -> Status
    requires range { IfSome asked IsInRange }
    requires none { IfSome asked (λ c. ¬ Reads c → image.now ≡ []) }
    ensures delivers { Delivers (spec.answer_by asked image.now)
        result (state K.Sink out.old) (state K.Sink out.new) }
    ensures reads_back { (seed : ℕ) → asked ≡ Some (Command.Gen seed) → result ≡ Status.Done
        → ReadsBack seed }
    ensures kept_reads_back { (d : ℕ) → asked ≡ Some (Command.Redact d) → result ≡ Status.Done
        → KeptReadsBack d image.now }
{
    match asked {
        Some(command) => answer_bytes(alloc, command, image, out),
        None => status_unless_failed(Status::Usage, write_usage(out)),
    }
}

// Hands over the text of a status. (A sink that fails has no memory to grow.)
fn hand_over(status: Status, written: &[u8], text: &mut [u8], taken: &mut usize) -> u32
    ensures answers { (due : spec.Answer) → Writes status due (Some []) (Some written.now)
        → Answers due result taken.new text.old text.new }
    ensures done { result ≡ 0 → status ≡ Status.Done }
{
    match status {
        Status::Done => hand_text(0, written, text, taken),
        Status::Refused => hand_text(1, written, text, taken),
        Status::Usage => hand_text(2, written, text, taken),
        Status::TooLong => hand_text(6, written, text, taken),
        Status::ReadFault | Status::WriteFault | Status::Memory => {
            *taken = 0;
            MEMORY
        }
    }
}

// Puts the text at the front of the buffer, where it has the room, and answers the number.
fn hand_text(number: u32, written: &[u8], text: &mut [u8], taken: &mut usize) -> u32
    ensures taken { taken.new ≡ length written.now }
    ensures fits { length written.now ≤ length text.old
        → (result ≡ number) × (text.new ≡ written.now ++ drop taken.new text.old) }
    ensures too_small { length text.old < length written.now → (result ≡ 7) × (text.new ≡ text.old) }
{
    *taken = written.len();
    if written.len() > text.len() {
        return TOO_SMALL;
    }
    text[..written.len()].copy_from_slice(written);
    number
}
