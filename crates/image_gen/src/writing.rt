// The parts of a generated image's text.
ghost use Rattle.std.specs.Prelude.{◌≡◌, ◌++◌, ◌<◌, ◌^◌, string_bytes, IfOk, OnOk};
ghost use Rattle.hex.specs.Hex.{encode_lower};
ghost use Rattle.seed_words.specs.Words.{after};
ghost use Rattle.image_gen.specs.Program.{program_bytes};
ghost use Rattle.image_gen.specs.Text as spec;

use crate::Memory;
use crate::program::program;
use rand_pcg::Lcg64Xsh32;
use seed_words::draw;
use std::alloc::{AllocError, Global};
use std::fmt::Write;

/// Where the text comes from.
#[tactic(auto, unfolding(crate::specs::Text::heading))]
pub fn write_heading(text: &mut String, seed: u64) -> Result<(), AllocError>
    ensures added { OnOk result (string_bytes text.new ≡ string_bytes text.old ++ spec.heading seed) }
{
    writeln!(
        text,
        "# Generated from seed {seed}, by: ./tp gen --seed {seed}"
    )
}

/// The machine, whose second level has this policy.
#[tactic(auto, unfolding(crate::specs::Text::machine_text))]
pub fn write_machine(text: &mut String, policy: &str) -> Result<(), AllocError>
    ensures added { OnOk result (string_bytes text.new
        ≡ string_bytes text.old ++ spec.machine_text policy.now) }
{
    write!(
        text,
        "
# ---- the machine

frames = 128
shared = 512
line = 64
l1i = {{ sets = 16, ways = 2, policy = \"lru\" }}
l1d = {{ sets = 16, ways = 2, policy = \"lru\" }}
l2 = {{ sets = 512, ways = 4, policy = \"{policy}\" }}
tlb = {{ sets = 4, ways = 2, policy = \"lru\" }}
predictor = 16
costs = {{ base = 1, l1 = 1, l2 = 8, mem = 40, wb = 10, tlb = 1, mispredict = 3, trap = 10, flush = 20 }}
"
    )
}

/// The title of the schedule.
pub fn write_schedule_title(text: &mut String) -> Result<(), AllocError>
    ensures added { OnOk result (string_bytes text.new ≡ string_bytes text.old ++ spec.schedule_title) }
{
    text.push_str("\n# ---- the schedule\n")
}

/// What stands before an item of a list.
fn separator(place: u32) -> &'static str
    ensures value { result.now ≡ spec.separator place }
{
    if place == 0 { "" } else { ", " }
}

/// The items of the list of domain `number`'s interrupts, at the moments that the
/// next 8 words choose.
fn moments(alloc: Global, number: u32, words: &mut Lcg64Xsh32) -> Result<String, Memory>
    ensures text { IfOk result (λ s. string_bytes s ≡ spec.moments_text number words.old) }
    ensures drawn { OnOk result (words.new ≡ after 8 words.old) }
{
    let mut text = String::new(alloc);
    for place in 0..8 {
        let at = 20000 * place + draw(words) % 20000;
        let separator = separator(place);
        write!(text, "{separator}[{at}, {number}]")?;
    }
    Ok(text)
}

/// What domain `number` is called, its colour and its entry.
#[tactic(auto, unfolding(crate::specs::Text::name_text))]
fn write_name(text: &mut String, number: u32) -> Result<(), AllocError>
    requires number { number < 2 ^ 8 }
    ensures added { OnOk result (string_bytes text.new ≡ string_bytes text.old ++ spec.name_text number) }
{
    let colour = number + 1;
    write!(
        text,
        "
# ---- domain {number}

[[domain]]
name = \"g{number}\"
colours = [{colour}]
entry = 0x10000
"
    )
}

/// Its capability and its line, and when it is interrupted.
#[tactic(auto, unfolding(crate::specs::Text::interrupts_text))]
fn write_interrupts(text: &mut String, number: u32, moments: &str) -> Result<(), AllocError>
    ensures added { OnOk result (string_bytes text.new
        ≡ string_bytes text.old ++ spec.interrupts_text number moments.now) }
{
    write!(
        text,
        "caps = [\"irq {number}\"]
lines = [{number}]
moments = [{moments}]
"
    )
}

/// A page of its program, and an empty one for its data.
#[tactic(auto, unfolding(crate::specs::Text::segments_text))]
fn write_segments(text: &mut String, hex: &str) -> Result<(), AllocError>
    ensures added { OnOk result (string_bytes text.new ≡ string_bytes text.old ++ spec.segments_text hex.now) }
{
    write!(
        text,
        "segment = [
    {{ page = 16, pages = 1, rights = \"rx\", hex = \"{hex}\" }},
    {{ page = 32, pages = 1, rights = \"rw\", hex = \"\" }},
]
"
    )
}

/// The program that the next 64 words choose, in hexadecimal.
fn program_hex(alloc: Global, words: &mut Lcg64Xsh32) -> Result<String, Memory>
    ensures text { IfOk result (λ s. string_bytes s ≡ encode_lower (program_bytes words.old)) }
    ensures drawn { OnOk result (words.new ≡ after 64 words.old) }
{
    let program = program(alloc, words)?;
    Ok(hex::encode(alloc, program.as_slice())?)
}

/// Domain `number`, with these interrupts and this program.
fn write_with(text: &mut String, number: u32, moments: &str, hex: &str) -> Result<(), AllocError>
    requires number { number < 2 ^ 8 }
    ensures added { OnOk result (string_bytes text.new
        ≡ string_bytes text.old ++ spec.domain_text_with number moments.now hex.now) }
{
    write_name(text, number)?;
    write_interrupts(text, number, moments)?;
    write_segments(text, hex)
}

/// Domain `number`, made by the next 72 words.
pub fn write_domain(
    alloc: Global,
    text: &mut String,
    number: u32,
    words: &mut Lcg64Xsh32,
) -> Result<(), Memory>
    requires number { number < 2 ^ 8 }
    ensures added { OnOk result (string_bytes text.new
        ≡ string_bytes text.old ++ spec.domain_text number words.old) }
    ensures drawn { OnOk result (words.new ≡ after 72 words.old) }
{
    let hex = program_hex(alloc, words)?;
    let moments = moments(alloc, number, words)?;
    write_with(text, number, moments.as_str(), hex.as_str())?;
    Ok(())
}

/// A slot of domain `number`, of a length that the word chooses.
#[tactic(auto, unfolding(crate::specs::Text::slot_text))]
pub fn write_slot(text: &mut String, number: u32, word: u32) -> Result<(), AllocError>
    ensures added { OnOk result (string_bytes text.new ≡ string_bytes text.old ++ spec.slot_text number word) }
{
    let length = 5000 + word % 5000;
    write!(
        text,
        "
[[schedule]]
domain = {number}
length = {length}
pad = 6150
"
    )
}
