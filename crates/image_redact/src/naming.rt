// What the domains are called that the tenant's record doesn't keep.
ghost use Rattle.std.specs.Prelude.{◌≡◌, ◌<◌, ◌+◌, ◌^◌, length, map, string_bytes, IfOk};
ghost use Rattle.image_redact.specs.Redacted as spec;

use std::alloc::Global;
use std::fmt::Write;
use tp_base::Memory;

/// What is added to the number in a name, where a kept domain has that name; wide enough for
/// whatever many names.
const ANOTHER: u128 = 32;

/// The name of domain `n` beside those that are kept, which have these names.
///
/// # Errors
///
/// `Memory` where memory runs out.
#[tactic(auto, unfolding(crate::specs::Redacted::name_beside))]
pub(crate) fn name_beside(alloc: Global, taken: &[String], n: usize) -> Result<String, Memory>
    requires few { n < 2 ^ 63 }
    ensures name { IfOk result (λ s. string_bytes s ≡ spec.name_beside (map (λ s. string_bytes s) taken.now) n) }
{
    let mut number = n as u128;
    let tries = taken.len() + 1;
    for _ in 0..tries {
        let name = numbered(alloc, number)?;
        if !is_taken(taken, name.as_str()) {
            return Ok(name);
        }
        drop(name);
        number += ANOTHER;
    }
    numbered(alloc, number)
}

fn is_taken(taken: &[String], name: &str) -> bool
    ensures value { result ≡ spec.is_taken (map (λ s. string_bytes s) taken.now) name.now }
{
    for other in taken {
        if other.as_str() == name {
            return true;
        }
    }
    false
}

// `e` and a number.
fn numbered(alloc: Global, number: u128) -> Result<String, Memory>
    ensures name { IfOk result (λ s. string_bytes s ≡ spec.numbered number) }
{
    let mut name = String::new(alloc);
    write!(name, "e{number}")?;
    Ok(name)
}
