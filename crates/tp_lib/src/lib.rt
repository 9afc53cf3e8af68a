//! The program as a library for C: a call for each command. The bytes of an image and
//! the values of the command go in; a number comes back, and a text. Both are those that
//! the program has for the same words. A call has no memory of another.
#![tactic(auto)]

ghost use Rattle.std.specs.Prelude.{◌≡◌, ◌≤◌, [], Some, take};
ghost use Rattle.guards.specs.declared.Guard.{Guard};
ghost use Rattle.hart_orders.specs.declared.choice.Choice.TheVariants.{LeastClock, Drawn};
ghost use Rattle.tp_answer.specs.Answer.{answer_by};
ghost use Rattle.tp_answer.specs.TopCall.{Isolated, Padded, Refuses, Accepts, Bounds};
ghost use Rattle.tp_answer.specs.TopCall.{LacksDomain, HasManyHarts, WritesSection, SameSection, WritesOff};
ghost use Rattle.tp_answer.specs.TopCall.{Redacts, Generates, Summarizes};
ghost use Rattle.tp_words.specs.declared.Command.TheVariants.{Check, Bound, Run, Alone, Gen, Demo, Ablate, Harts, Redact};
ghost use Rattle.tp_lib.specs.Asked as spec;
ghost use Rattle.tp_lib.specs.Answers.{Answers, InMemory};

mod answer;
mod asked;
mod text_sink;

use crate::answer::answer;
use crate::asked::{ask_ablate, ask_alone, ask_harts, ask_redact, ask_run};
use std::alloc::Global;
use tp_words::Command;

/// Tests the image's rules.
#[unsafe(no_mangle)]
pub extern "C" fn tp_check(alloc: Global, image: &[u8], text: &mut [u8], taken: &mut usize) -> u32
    ensures answers { Answers (answer_by (Some Check) image.now) result taken.new text.old text.new }
    ensures refused { result ≡ 1 → InMemory (Refuses Check) image.now taken.new text.new }
    ensures accepted { result ≡ 0 → InMemory Accepts image.now taken.new text.new }
{
    answer(alloc, Some(Command::Check), image, text, taken)
}

/// Tells the most cycles that a switch can use on the image's machine.
#[unsafe(no_mangle)]
pub extern "C" fn tp_bound(alloc: Global, image: &[u8], text: &mut [u8], taken: &mut usize) -> u32
    ensures answers { Answers (answer_by (Some Bound) image.now) result taken.new text.old text.new }
    ensures refused { result ≡ 1 → InMemory (Refuses Bound) image.now taken.new text.new }
    ensures bound { result ≡ 0 → InMemory Bounds image.now taken.new text.new }
{
    answer(alloc, Some(Command::Bound), image, text, taken)
}

/// Runs the image for so many slots of each hart, at most 65,536.
#[unsafe(no_mangle)]
pub extern "C" fn tp_run(
    alloc: Global,
    image: &[u8],
    slots: u32,
    text: &mut [u8],
    taken: &mut usize,
) -> u32
    ensures answers { Answers (answer_by (spec.ask_run slots) image.now) result taken.new text.old text.new }
    ensures refused { result ≡ 1 → InMemory (Refuses (Run slots)) image.now taken.new text.new }

    // What each domain's section says, that domain alone says; no switch overran its pad.
    ensures isolation { result ≡ 0 → InMemory (Isolated LeastClock slots) image.now taken.new text.new }
    ensures pad { result ≡ 0 → Padded LeastClock slots (Some image.now) (Some []) }
{
    answer(alloc, ask_run(slots), image, text, taken)
}

/// Runs the image for so many slots of each hart, at most 65,536, in the order of
/// events that the seed draws.
#[unsafe(no_mangle)]
pub extern "C" fn tp_harts(
    alloc: Global,
    image: &[u8],
    slots: u32,
    seed: u32,
    text: &mut [u8],
    taken: &mut usize,
) -> u32
    ensures answers { Answers (answer_by (spec.ask_harts slots seed) image.now)
        result taken.new text.old text.new }
    ensures refused { result ≡ 1 → InMemory (Refuses (Harts slots seed)) image.now taken.new text.new }

    // So it is in every order.
    ensures isolation { result ≡ 0 → InMemory (Isolated (Drawn seed) slots) image.now taken.new text.new }
    ensures pad { result ≡ 0 → Padded (Drawn seed) slots (Some image.now) (Some []) }
{
    answer(alloc, ask_harts(slots, seed), image, text, taken)
}

/// Runs one domain of the image alone, 0 to 31, for so many slots of its hart, at most
/// 65,536.
#[unsafe(no_mangle)]
pub extern "C" fn tp_alone(
    alloc: Global,
    image: &[u8],
    domain: u32,
    slots: u32,
    text: &mut [u8],
    taken: &mut usize,
) -> u32
    ensures answers { Answers (answer_by (spec.ask_alone domain slots) image.now)
        result taken.new text.old text.new }
    ensures refused { result ≡ 1 → InMemory (Refuses (Alone domain slots)) image.now taken.new text.new }
    ensures no_domain { domain ≤ 31 → slots ≤ 65536 → result ≡ 2
        → InMemory (LacksDomain domain) image.now taken.new text.new }

    // Its section, which is that of the report of the whole machine.
    ensures alone { result ≡ 0 → InMemory (WritesSection domain slots) image.now taken.new text.new }
    ensures same_section { result ≡ 0 → InMemory (SameSection domain slots) image.now taken.new text.new }
{
    answer(alloc, ask_alone(domain, slots), image, text, taken)
}

/// Runs the image for so many slots, at most 65,536, with the guard of this number off:
/// 0 flush, 1 prefetch, 2 pad, 3 colour, 4 clone, 5 irq.
#[unsafe(no_mangle)]
pub extern "C" fn tp_ablate(
    alloc: Global,
    image: &[u8],
    off: u32,
    slots: u32,
    text: &mut [u8],
    taken: &mut usize,
) -> u32
    ensures answers { Answers (answer_by (spec.ask_ablate off slots) image.now)
        result taken.new text.old text.new }
    ensures refused { (guard : Guard) → spec.guard_numbered off ≡ Some guard → result ≡ 1
        → InMemory (Refuses (Ablate guard slots)) image.now taken.new text.new }
    ensures many_harts { (guard : Guard) → spec.guard_numbered off ≡ Some guard → slots ≤ 65536 → result ≡ 2
        → InMemory HasManyHarts image.now taken.new text.new }

    // No isolation and no pad is promised of it.
    ensures unprotected { (guard : Guard) → spec.guard_numbered off ≡ Some guard → result ≡ 0
        → InMemory (WritesOff guard slots) image.now taken.new text.new }
{
    answer(alloc, ask_ablate(off, slots), image, text, taken)
}

/// Writes the image as the tenant of one of its domains, 0 to 31, may hold it.
#[unsafe(no_mangle)]
pub extern "C" fn tp_redact(
    alloc: Global,
    image: &[u8],
    domain: u32,
    text: &mut [u8],
    taken: &mut usize,
) -> u32
    ensures answers { Answers (answer_by (spec.ask_redact domain) image.now) result taken.new text.old text.new }
    ensures refused { result ≡ 1 → InMemory (Refuses (Redact domain)) image.now taken.new text.new }
    ensures no_domain { domain ≤ 31 → result ≡ 2 → InMemory (LacksDomain domain) image.now taken.new text.new }

    // It reads as that record, which breaks no rule and has the same section of the domain.
    ensures redacted { result ≡ 0 → InMemory (Redacts domain) image.now taken.new text.new }
{
    answer(alloc, ask_redact(domain), image, text, taken)
}

/// Writes the image that the seed makes.
#[unsafe(no_mangle)]
pub extern "C" fn tp_gen(alloc: Global, seed: u32, text: &mut [u8], taken: &mut usize) -> u32
    ensures answers { Answers (answer_by (Some (Gen seed)) []) result taken.new text.old text.new }

    // It reads as the seed's record, which breaks no rule.
    ensures generated { result ≡ 0 → Generates seed (Some []) (Some (take taken.new text.new)) }
{
    answer(alloc, Some(Command::Gen { seed }), &[], text, taken)
}

/// Runs the image that the seed makes for 64 slots, and writes a summary.
#[unsafe(no_mangle)]
pub extern "C" fn tp_demo(alloc: Global, seed: u32, text: &mut [u8], taken: &mut usize) -> u32
    ensures answers { Answers (answer_by (Some (Demo seed)) []) result taken.new text.old text.new }
    ensures demo { result ≡ 0 → Summarizes seed (Some []) (Some (take taken.new text.new)) }
{
    answer(alloc, Some(Command::Demo { seed }), &[], text, taken)
}
