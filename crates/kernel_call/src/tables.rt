// Calls that change page tables: TABLE, MAP and UNMAP.
ghost use Rattle.std.specs.Prelude.{◌≡◌, IfErr};
ghost use Rattle.call_table.specs.Calls as spec;
ghost use Rattle.kernel_clone.specs.Models.{work_model};
ghost use Rattle.kernel_call.specs.Facts.{Valid, Does, KeepsRest, nothing, with_work};

use crate::Domain;
use crate::error::{CallError, refusal_error};
use crate::outcome::tell_entry;
use crate::slots::{filled, given_rights};
use cap_table::Cap;
use kernel_clone::Work;
use phys_mem::PhysMem;

// What a page has in bytes, and what the pages of one table have together.
const PAGE: u32 = 4096;

const REGION: u32 = 4_194_304;

/// TABLE: installs the table in slot `a` at the address `b`.
pub fn install(
    domain: &mut Domain,
    memory: &mut PhysMem,
    work: &mut Work,
    a: u32,
    b: u32,
) -> Result<u32, CallError>
    requires valid { Valid memory.old domain.old }
    requires fresh { work_model work.old ≡ nothing 3 }
    ensures does { Does 3 (λ e d. spec.install e d a b) (with_work result work.new)
        memory.old domain.old memory.new domain.new }
    ensures rest { KeepsRest domain.old domain.new }
    ensures unchanged { IfErr result (λ error. domain.new ≡ domain.old) }
    ensures memory { IfErr result (λ error. memory.new ≡ memory.old) }
    ensures unwritten { IfErr result (λ error. work.new ≡ work.old) }
    ensures frames { memory.new.frames ≡ memory.old.frames }
{
    let Cap::Table { frame, installed } = filled(domain, a)? else {
        return Err(CallError::WrongKind);
    };
    if !b.is_multiple_of(REGION) {
        return Err(CallError::BadAddress);
    }
    if installed.is_some() {
        return Err(CallError::Mapped);
    }
    let entry = match domain.map.install_table(memory, b, frame) {
        Ok(entry) => entry,
        Err(refusal) => return Err(refusal_error(refusal)),
    };
    domain.caps.note(a, Some(b)); // installed there
    tell_entry(work, entry);
    Ok(0)
}

/// MAP: maps the page in slot `a` at the address `b`, with rights `c`.
pub fn map_page(
    domain: &mut Domain,
    memory: &mut PhysMem,
    work: &mut Work,
    a: u32,
    b: u32,
    c: u32,
) -> Result<u32, CallError>
    requires valid { Valid memory.old domain.old }
    requires fresh { work_model work.old ≡ nothing 4 }
    ensures does { Does 4 (λ e d. spec.map_page e d a b c) (with_work result work.new)
        memory.old domain.old memory.new domain.new }
    ensures rest { KeepsRest domain.old domain.new }
    ensures unchanged { IfErr result (λ error. domain.new ≡ domain.old) }
    ensures memory { IfErr result (λ error. memory.new ≡ memory.old) }
    ensures unwritten { IfErr result (λ error. work.new ≡ work.old) }
    ensures frames { memory.new.frames ≡ memory.old.frames }
{
    let Cap::Frame {
        frame,
        rights,
        mapped,
    } = filled(domain, a)?
    else {
        return Err(CallError::WrongKind);
    };
    let Some(given) = given_rights(rights, c) else {
        return Err(CallError::BadRights);
    };
    if !b.is_multiple_of(PAGE) {
        return Err(CallError::BadAddress);
    }
    if mapped.is_some() {
        return Err(CallError::Mapped);
    }
    let entry = match domain.map.map(memory, b, frame, given) {
        Ok(entry) => entry,
        Err(refusal) => return Err(refusal_error(refusal)),
    };
    domain.caps.note(a, Some(b)); // mapped there
    tell_entry(work, entry);
    Ok(0)
}

/// UNMAP: clears the leaf of the page in slot `a`.
pub fn unmap(
    domain: &mut Domain,
    memory: &mut PhysMem,
    work: &mut Work,
    a: u32,
) -> Result<u32, CallError>
    requires valid { Valid memory.old domain.old }
    requires fresh { work_model work.old ≡ nothing 5 }
    ensures does { Does 5 (λ e d. spec.unmap e d a) (with_work result work.new)
        memory.old domain.old memory.new domain.new }
    ensures rest { KeepsRest domain.old domain.new }
    ensures unchanged { IfErr result (λ error. domain.new ≡ domain.old) }
    ensures memory { IfErr result (λ error. memory.new ≡ memory.old) }
    ensures unwritten { IfErr result (λ error. work.new ≡ work.old) }
    ensures frames { memory.new.frames ≡ memory.old.frames }
{
    let Cap::Frame { mapped, .. } = filled(domain, a)? else {
        return Err(CallError::WrongKind);
    };
    let va = mapped.ok_or(CallError::BadAddress)?;
    let entry = domain.map.unmap(memory, va);
    domain.caps.note(a, None);
    tell_entry(work, entry);
    Ok(0)
}
