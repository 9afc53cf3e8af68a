// What a call asks for.
ghost use Rattle.std.specs.Prelude.{◌≡◌, IfSome};
ghost use Rattle.tp_words.specs.Words.{IsInRange};
ghost use Rattle.tp_lib.specs.Asked as spec;

use guards::Guard;
use tp_words::Command;

/// The most slots of a run.
const MOST_SLOTS: u32 = 65_536;

/// The greatest number of a domain.
const LAST_DOMAIN: u32 = 31;

/// A run of so many slots.
pub fn ask_run(slots: u32) -> Option<Command>
    ensures asked { result ≡ spec.ask_run slots }
    ensures range { IfSome result IsInRange }
{
    if slots > MOST_SLOTS {
        return None;
    }
    Some(Command::Run { slots })
}

/// A run of so many slots of each hart in the order that a seed draws.
pub fn ask_harts(slots: u32, seed: u32) -> Option<Command>
    ensures asked { result ≡ spec.ask_harts slots seed }
    ensures range { IfSome result IsInRange }
{
    if slots > MOST_SLOTS {
        return None;
    }
    Some(Command::Harts { slots, seed })
}

/// So many slots of a domain alone.
pub fn ask_alone(domain: u32, slots: u32) -> Option<Command>
    ensures asked { result ≡ spec.ask_alone domain slots }
    ensures range { IfSome result IsInRange }
{
    if domain > LAST_DOMAIN {
        return None;
    }
    if slots > MOST_SLOTS {
        return None;
    }
    let domain = domain as u8;
    Some(Command::Alone { domain, slots })
}

/// The image as the tenant of a domain may hold it.
pub fn ask_redact(domain: u32) -> Option<Command>
    ensures asked { result ≡ spec.ask_redact domain }
    ensures range { IfSome result IsInRange }
{
    if domain > LAST_DOMAIN {
        return None;
    }
    let domain = domain as u8;
    Some(Command::Redact { domain })
}

/// A run of so many slots with the guard of this number off.
pub fn ask_ablate(off: u32, slots: u32) -> Option<Command>
    ensures asked { result ≡ spec.ask_ablate off slots }
    ensures range { IfSome result IsInRange }
{
    let off = guard_numbered(off)?;
    if slots > MOST_SLOTS {
        return None;
    }
    Some(Command::Ablate { off, slots })
}

// The guard of a number, in the order in which the documents name them.
fn guard_numbered(number: u32) -> Option<Guard>
    ensures guard { result ≡ spec.guard_numbered number }
{
    match number {
        0 => Some(Guard::Flush),
        1 => Some(Guard::Prefetch),
        2 => Some(Guard::Pad),
        3 => Some(Guard::Colour),
        4 => Some(Guard::Clone),
        5 => Some(Guard::Irq),
        _ => None,
    }
}
