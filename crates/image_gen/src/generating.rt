// An image for a seed.
ghost use Rattle.std.specs.Prelude.{◌≡◌, string_bytes, IfOk, Ok};
ghost use Rattle.image_text.specs.Record.{image_of};
ghost use Rattle.image_gen.specs.Generated.{generated, policy_of as spec_policy_of};
ghost use Rattle.image_gen.specs.Text.{text as spec_text};
ghost use Rattle.image_gen.specs.Laws.{AcceptedLaw};

use crate::writing::{
    write_domain, write_heading, write_machine, write_schedule_title, write_slot,
};
use crate::{Memory, laws};
use seed_words::{draw, seeded};
use std::alloc::Global;

/// The policy of the second level.
#[tactic(auto, unfolding(crate::specs::Generated::policy_of))]
fn policy_of(seed: u64) -> &'static str
    ensures value { result.now ≡ spec_policy_of seed }
{
    match seed % 3 {
        0 => "lru",
        1 => "fifo",
        _ => "plru",
    }
}

/// The text of the image that a seed makes, laid out for people. It is always
/// the same for the same seed, reads as the seed's record, and is accepted.
///
/// # Errors
///
/// `Memory` where memory runs out.
pub fn generate(alloc: Global, seed: u64) -> Result<String, Memory>
    ensures text { IfOk result (λ s. string_bytes s ≡ spec_text seed) }
    ensures reads { IfOk result (λ s. image_of (string_bytes s) ≡ Ok (generated seed)) }
    ensures accepted { AcceptedLaw }
{
    laws::accepted();
    let mut words = seeded(seed);
    let count = 2 + draw(&mut words) % 4;
    let mut text = String::new(alloc);
    write_heading(&mut text, seed)?;
    write_machine(&mut text, policy_of(seed))?;
    for number in 0..count {
        write_domain(alloc, &mut text, number, &mut words)?;
    }
    write_schedule_title(&mut text)?;
    for number in 0..count {
        write_slot(&mut text, number, draw(&mut words))?;
    }
    Ok(text)
}
