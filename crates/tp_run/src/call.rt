// The top call.
ghost use Rattle.std.specs.Prelude.{◌≡◌, ◌≢◌, ◌<◌, ◌≤◌, ◌+◌, ◌-◌, ◌^◌, ◌⊎◌};
ghost use Rattle.std.specs.Prelude.{List, [], ℕ, Some, None, Err, length, IfOk};
ghost use Rattle.tp_io.specs.Bytes.{before_known, AtEnd};
ghost use Rattle.tp_io.specs.Causes.{TellsFault};
ghost use Rattle.tp_io.specs.Sink.{state};
ghost use Rattle.guards.specs.declared.Guard.{Guard};
ghost use Rattle.tp_answer.specs.Answer as spec;
ghost use Rattle.tp_answer.specs.TopCall.{Writes, EndsUsage, Delivers, ComesTo, Answered, IsOver};
ghost use Rattle.tp_answer.specs.TopCall.{Isolated, Padded, MayBeUsage};
ghost use Rattle.tp_answer.specs.TopCall.{Refuses, Accepts, Bounds};
ghost use Rattle.tp_answer.specs.TopCall.{LacksDomain, HasManyHarts, WritesSection, SameSection, WritesOff};
ghost use Rattle.tp_answer.specs.TopCall.{KeptReadsBack, Redacts, ReadsBack, Generates, Summarizes};
ghost use Rattle.tp_answer.specs.Reading.{record_for};
ghost use Rattle.tp_words.specs.Words.{IsInRange, Reads, command, words_of};

use crate::alone::run_domain;
use crate::generate::run_demo;
use crate::run::{run_image, run_off};
use domain_step::has_one_hart;
use guards::Guard;
use hart_orders::Choice;
use std::alloc::Global;
use tp_answer::{
    Status, accepted, answer_bound, answer_check, answer_redact, domains_of, refuse,
    status_unless_failed, write_generated,
};
use tp_base::Memory;
use tp_io::{ReadError, Sink, Source, read_within};
use tp_report::{write_too_long, write_usage};
use tp_words::{Command, parse};

/// The most bytes of an image.
const MOST_BYTES: usize = 1_048_576;

/// Does what the words ask for, and answers how that ended. `words` begins
/// with the program's name. An image is read from `src` to its end, or to one
/// byte past the most that an image may have, unless the words name the seed
/// that makes it; the text goes to `out`.
pub fn tp_main<S: Source, K: Sink>(
    alloc: Global,
    words: &[String],
    src: &mut S,
    out: &mut K,
) -> Status
    requires source { S.faults src.old < 2 ^ 64 - 1 }
    requires sink { K.faults out.old < 2 ^ 64 - 1 }

    // The status and the text are those that the words and all bytes of the source have coming:
    // of a source that tells its bytes, and of one that doesn't.
    ensures told { (bytes : List ℕ) → S.left src.old ≡ Some bytes
        → Writes result (spec.answer (words_of words.now) bytes) (K.written out.old) (K.written out.new) }
    ensures answered { result ≢ Status.ReadFault → result ≢ Status.Memory
        → Answered (words_of words.now) result (S.left src.old) (S.left src.new)
        (K.written out.old) (K.written out.new) }

    // Words that are no command have the usage line, and leave the source as it was.
    ensures no_command { command (words_of words.now) ≡ None
        → EndsUsage result (K.written out.old) (K.written out.new) }
    ensures untouched { command (words_of words.now) ≡ None → src.new ≡ src.old }

    // Other words have it only where they name a domain that the image lacks, or a guard, and the image has
    // several harts.
    ensures usage { result ≡ Status.Usage → MayBeUsage (command (words_of words.now)) }
    ensures no_domain { (d slots : ℕ)
        → command (words_of words.now) ≡ Some (Command.Alone d slots) → result ≡ Status.Usage
        → LacksDomain d (S.left src.old) (S.left src.new) (K.written out.old) (K.written out.new) }
    ensures many_harts { (off : Guard) (slots : ℕ)
        → command (words_of words.now) ≡ Some (Command.Ablate off slots) → result ≡ Status.Usage
        → HasManyHarts (S.left src.old) (S.left src.new) (K.written out.old) (K.written out.new) }
    ensures no_kept_domain { (d : ℕ)
        → command (words_of words.now) ≡ Some (Command.Redact d) → result ≡ Status.Usage
        → LacksDomain d (S.left src.old) (S.left src.new) (K.written out.old) (K.written out.new) }

    // What is read, and that words that name a seed leave the source as it was.
    ensures done_reads { (c : Command) → command (words_of words.now) ≡ Some c → Reads c
        → result ≡ Status.Done → AtEnd (S.left src.new) }
    ensures refused_reads { result ≡ Status.Refused → AtEnd (S.left src.new) }
    ensures too_long_reads { result ≡ Status.TooLong → IsOver (S.left src.old) (S.left src.new) }
    ensures makes_untouched { (c : Command) → command (words_of words.now) ≡ Some c → ¬ Reads c
        → src.new ≡ src.old }

    // A failed read, and a failed write, come where they are told.
    ensures read_fault { TellsFault (result ≡ Status.ReadFault) (S.faults src.old) (S.faults src.new) }
    ensures write_fault { TellsFault (result ≡ Status.WriteFault) (K.faults out.old) (K.faults out.new) }

    // Nothing is written before all that may fail is done.
    ensures nothing_read { result ≡ Status.ReadFault → K.written out.new ≡ K.written out.old }
    ensures nothing_held { result ≡ Status.Memory → K.written out.new ≡ K.written out.old }

    // Where no read and no write failed, the status is the one that is due, but for want of memory.
    ensures complete { (bytes : List ℕ) → S.left src.old ≡ Some bytes
        → S.faults src.new ≡ S.faults src.old → K.faults out.new ≡ K.faults out.old
        → ComesTo (spec.answer (words_of words.now) bytes) result }

    // So it is where the sink surely takes the text that is due, unless a read fails.
    ensures complete_sure { (bytes : List ℕ) (room : ℕ)
        → S.left src.old ≡ Some bytes → K.sure out.old ≡ Some room
        → length (spec.answer (words_of words.now) bytes).1 ≤ room
        → ComesTo (spec.answer (words_of words.now) bytes) result ⊎ (result ≡ Status.ReadFault) }

    // A broken rule is named, and the first one; where there is none, that is said, or the bound.
    ensures refused { (c : Command)
        → command (words_of words.now) ≡ Some c → result ≡ Status.Refused
        → Refuses c (S.left src.old) (S.left src.new) (K.written out.old) (K.written out.new) }
    ensures accepted { command (words_of words.now) ≡ Some Command.Check → result ≡ Status.Done
        → Accepts (S.left src.old) (S.left src.new) (K.written out.old) (K.written out.new) }
    ensures bound { command (words_of words.now) ≡ Some Command.Bound → result ≡ Status.Done
        → Bounds (S.left src.old) (S.left src.new) (K.written out.old) (K.written out.new) }

    // A run that is done: what each domain's section says, that domain alone says; no switch overran its pad.
    ensures isolation { (slots : ℕ)
        → command (words_of words.now) ≡ Some (Command.Run slots) → result ≡ Status.Done → Isolated
        Choice.LeastClock slots (S.left src.old) (S.left src.new) (K.written out.old) (K.written out.new) }
    ensures pad { (slots : ℕ)
        → command (words_of words.now) ≡ Some (Command.Run slots) → result ≡ Status.Done
        → Padded Choice.LeastClock slots (S.left src.old) (S.left src.new) }

    // So it is in every order of harts that a seed draws.
    ensures harts_isolation { (slots seed : ℕ)
        → command (words_of words.now) ≡ Some (Command.Harts slots seed) → result ≡ Status.Done → Isolated
        (Choice.Drawn seed) slots (S.left src.old) (S.left src.new) (K.written out.old) (K.written out.new) }
    ensures harts_pad { (slots seed : ℕ)
        → command (words_of words.now) ≡ Some (Command.Harts slots seed) → result ≡ Status.Done
        → Padded (Choice.Drawn seed) slots (S.left src.old) (S.left src.new) }

    // A domain alone: its section, which is that of the report of the whole machine.
    ensures alone { (d slots : ℕ)
        → command (words_of words.now) ≡ Some (Command.Alone d slots) → result ≡ Status.Done
        → WritesSection d slots (S.left src.old) (S.left src.new) (K.written out.old) (K.written out.new) }
    ensures same_section { (d slots : ℕ)
        → command (words_of words.now) ≡ Some (Command.Alone d slots) → result ≡ Status.Done
        → SameSection d slots (S.left src.old) (S.left src.new) (K.written out.old) (K.written out.new) }

    // A run with a guard off: which one, and what that machine reports, of which no isolation and no
    // pad is promised.
    ensures unprotected { (off : Guard) (slots : ℕ)
        → command (words_of words.now) ≡ Some (Command.Ablate off slots) → result ≡ Status.Done
        → WritesOff off slots (S.left src.old) (S.left src.new) (K.written out.old) (K.written out.new) }

    // The image as the tenant of a domain may hold it: a text that reads as that record, which breaks no rule and has
    // the same section of the domain.
    ensures redacted { (d : ℕ)
        → command (words_of words.now) ≡ Some (Command.Redact d) → result ≡ Status.Done
        → Redacts d (S.left src.old) (S.left src.new) (K.written out.old) (K.written out.new) }

    // The image that a seed makes, as a text that reads as its record; and the summary of its run.
    ensures generated { (seed : ℕ)
        → command (words_of words.now) ≡ Some (Command.Gen seed) → result ≡ Status.Done
        → Generates seed (K.written out.old) (K.written out.new) }
    ensures demo { (seed : ℕ)
        → command (words_of words.now) ≡ Some (Command.Demo seed) → result ≡ Status.Done
        → Summarizes seed (K.written out.old) (K.written out.new) }
{
    let command = match parse(alloc, words) {
        Ok(Some(command)) => command,
        Ok(None) => return status_unless_failed(Status::Usage, write_usage(out)),
        Err(Memory) => return Status::Memory,
    };
    let bytes = match read_for(alloc, command, src) {
        Ok(bytes) => bytes,
        Err(ReadError::Failed) => return Status::ReadFault,
        Err(ReadError::Memory) => return Status::Memory,
    };
    answer_bytes(alloc, command, bytes.as_slice(), out)
}

// The bytes that a command works on: all of the source, or one more than an
// image may have. One that works on no image takes none.
fn read_for<S: Source>(alloc: Global, command: Command, src: &mut S) -> Result<Vec<u8>, ReadError>
    ensures taken { IfOk result (λ v. S.left src.old ≡ before_known v.items (S.left src.new)) }
    ensures whole { IfOk result (λ v. Reads command → length v.items ≤ MOST_BYTES → AtEnd (S.left src.new)) }
    ensures most { IfOk result (λ v. length v.items ≤ MOST_BYTES + 1) }
    ensures cause { TellsFault (result ≡ Err ReadError.Failed) (S.faults src.old) (S.faults src.new) }
    ensures none { ¬ Reads command → IfOk result (λ v. v.items ≡ []) }
    ensures untouched { ¬ Reads command → src.new ≡ src.old }
{
    if !command.reads_image() {
        return Ok(Vec::new(alloc));
    }
    read_within(alloc, src, MOST_BYTES)
}

/// Answers all bytes of a source, or one more than an image may have, or none
/// where the command works on no image.
pub fn answer_bytes<K: Sink>(alloc: Global, command: Command, bytes: &[u8], out: &mut K) -> Status
    requires range { IsInRange command }
    requires none { ¬ Reads command → bytes.now ≡ [] }
    ensures delivers { Delivers (spec.answer_of_bytes command bytes.now)
        result (state K.Sink out.old) (state K.Sink out.new) }
    ensures reads_back { (seed : ℕ) → command ≡ Command.Gen seed → result ≡ Status.Done → ReadsBack seed }
    ensures kept_reads_back { (d : ℕ) → command ≡ Command.Redact d → result ≡ Status.Done
        → KeptReadsBack d bytes.now }
{
    if bytes.len() > MOST_BYTES {
        return status_unless_failed(Status::TooLong, write_too_long(out));
    }
    match command {
        Command::Check => answer_check(alloc, bytes, out),
        Command::Bound => answer_bound(alloc, bytes, out),
        Command::Run { slots } => answer_run(alloc, bytes, Choice::LeastClock, slots, out),
        Command::Alone { domain, slots } => answer_alone(alloc, bytes, domain, slots, out),
        Command::Gen { seed } => write_generated(alloc, seed, out),
        Command::Demo { seed } => run_demo(alloc, seed, out),
        Command::Ablate { off, slots } => answer_off(alloc, bytes, off, slots, out),
        Command::Harts { slots, seed } => {
            answer_run(alloc, bytes, Choice::Drawn(seed), slots, out)
        }
        Command::Redact { domain } => answer_redact(alloc, bytes, domain, out),
    }
}

// A run of the image that bytes are, where it breaks no rule.
fn answer_run<K: Sink>(
    alloc: Global,
    bytes: &[u8],
    choice: Choice,
    slots: u32,
    out: &mut K,
) -> Status
    requires few { slots ≤ 65536 }
    ensures run { choice ≡ Choice.LeastClock → Delivers
        (spec.answer_unless_broken (Command.Run slots) (record_for (Command.Run slots) bytes.now))
        result (state K.Sink out.old) (state K.Sink out.new) }
    ensures harts { (seed : ℕ) → choice ≡ Choice.Drawn seed → Delivers
        (spec.answer_unless_broken (Command.Harts slots seed) (record_for (Command.Harts slots seed) bytes.now))
        result (state K.Sink out.old) (state K.Sink out.new) }
{
    match accepted(alloc, bytes) {
        Ok(image) => {
            let status = run_image(alloc, &image, choice, slots, out);
            image.discard();
            status
        }
        Err(refusal) => refuse(&refusal, out),
    }
}

// One domain alone of the image that bytes are, where it breaks no rule and has that domain.
fn answer_alone<K: Sink>(alloc: Global, bytes: &[u8], domain: u8, slots: u32, out: &mut K) -> Status
    requires few { slots ≤ 65536 }
    ensures delivers { Delivers (spec.answer_unless_broken
        (Command.Alone domain slots) (record_for (Command.Alone domain slots) bytes.now))
        result (state K.Sink out.old) (state K.Sink out.new) }
{
    match accepted(alloc, bytes) {
        Ok(image) => {
            if domain < domains_of(&image) {
                let status = run_domain(alloc, &image, domain, slots, out);
                image.discard();
                status
            } else {
                image.discard();
                status_unless_failed(Status::Usage, write_usage(out))
            }
        }
        Err(refusal) => refuse(&refusal, out),
    }
}

// A run with a guard off of the image that bytes are, where it breaks no rule.
fn answer_off<K: Sink>(alloc: Global, bytes: &[u8], off: Guard, slots: u32, out: &mut K) -> Status
    requires few { slots ≤ 65536 }
    ensures delivers { Delivers (spec.answer_unless_broken
        (Command.Ablate off slots) (record_for (Command.Ablate off slots) bytes.now))
        result (state K.Sink out.old) (state K.Sink out.new) }
{
    match accepted(alloc, bytes) {
        Ok(image) => {
            if has_one_hart(&image) {
                let status = run_off(alloc, &image, off, slots, out);
                image.discard();
                status
            } else {
                image.discard();
                status_unless_failed(Status::Usage, write_usage(out))
            }
        }
        Err(refusal) => refuse(&refusal, out),
    }
}
