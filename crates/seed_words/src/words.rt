// The generator that a seed begins.
ghost use Rattle.std.specs.Prelude.{◌≡◌};
ghost use Rattle.seed_words.specs.Words as spec;

use rand_core::utils::NextWord;
use rand_pcg::Lcg64Xsh32;

/// The generator of a seed, before its first word.
pub fn seeded(seed: u64) -> Lcg64Xsh32
    ensures value { result ≡ spec.seeded seed }
{
    Lcg64Xsh32::new(seed, 1)
}

/// The next word.
#[tactic(auto, unfolding(crate::specs::Words::word, rand_pcg::specs::Lcg::state_after))]
pub fn draw(words: &mut Lcg64Xsh32) -> u32
    ensures value { result ≡ spec.word words.old 0 }
    ensures drawn { words.new ≡ spec.after 1 words.old }
{
    words.next_word()
}
