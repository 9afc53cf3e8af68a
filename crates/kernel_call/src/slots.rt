// Calls on slots alone, and what several calls read of a slot.
ghost use Rattle.std.specs.Prelude.{◌≡◌, ℕ, ◌<◌, true, false, Some, None, IfOk, IfErr, IfSome, IfNone};
ghost use Rattle.cap_table.specs.Slots.{cap_at, line_of, copied};
ghost use Rattle.call_table.specs.Calls as spec;
ghost use Rattle.kernel_clone.specs.Models.{work_model};
ghost use Rattle.kernel_clone.specs.declared.Work.{Work};
ghost use Rattle.kernel_call.specs.Facts.{Valid, Finds, Does, KeepsRest, code_of, nothing, with_work};

use crate::error::CallError;
use crate::{Domain, SLOTS};
use cap_table::Cap;
use phys_mem::PhysMem;
use tp_base::Rights;

/// The capability in a slot.
#[tactic(auto, unfolding(call_table::specs::Calls::filled))]
pub fn filled(domain: &Domain, slot: u32) -> Result<Cap, CallError>
    ensures finds { Finds (λ d. spec.filled d slot) result domain.now }
    ensures below { IfOk result (λ c. slot < 64) }
    ensures there { IfOk result (λ c. cap_at domain.now.caps slot ≡ Some c) }
    ensures line { IfOk result (λ c. (line : ℕ) → line_of (Some c) ≡ Some line → line < 32) }
{
    if slot >= SLOTS {
        return Err(CallError::BadSlot);
    }
    domain.caps.get(slot).ok_or(CallError::Empty)
}

/// The interrupt line that a slot names.
#[tactic(auto, unfolding(call_table::specs::Calls::line_at))]
pub fn line_at(domain: &Domain, slot: u32) -> Result<u8, CallError>
    ensures finds { Finds (λ d. spec.line_at d slot) result domain.now }
    ensures below { IfOk result (λ line. line < 32) }
{
    let Cap::Irq { line } = filled(domain, slot)? else {
        return Err(CallError::WrongKind);
    };
    Ok(line)
}

/// No right that the other lacks.
fn is_within(rights: Rights, wider: Rights) -> bool
    ensures value { result ≡ spec.is_within rights wider }
{
    let rights = rights.number();
    let wider = wider.number();
    rights % 2 <= wider % 2 && rights / 2 % 2 <= wider / 2 % 2 && rights / 4 % 2 <= wider / 4 % 2
}

/// The rights of a number that a program says, where a capability with such rights
/// may give them.
pub fn given_rights(held: Rights, number: u32) -> Option<Rights>
    ensures given { IfSome result (λ rights. spec.may_give held number ≡ true) }
    ensures number { IfSome result (λ rights. rights ≡ number) }
    ensures refused { IfNone result (spec.may_give held number ≡ false) }
{
    if !matches!(number, 1 | 3 | 4 | 5 | 7) {
        return None;
    }
    let rights = Rights::new(number as u8);
    if !is_within(rights, held) {
        return None;
    }
    Some(rights)
}

// The rights of a capability's copy, where it may be copied with these. An
// interrupt line has none.
fn copied_rights(cap: Cap, number: u32) -> Result<Rights, CallError>
    ensures refused { IfErr result (λ error. spec.copy_refusal cap number ≡ Some (code_of error)) }
    ensures allowed { IfOk result (λ rights. spec.copy_refusal cap number ≡ None) }
    ensures copied { IfOk result (λ rights. copied (Some cap) rights ≡ copied (Some cap) number) }
{
    match cap {
        Cap::Table { .. } => Err(CallError::WrongKind),
        Cap::Frame { rights: held, .. } => given_rights(held, number).ok_or(CallError::BadRights),
        Cap::Irq { .. } => Ok(Rights::new(0)),
    }
}

/// COPY: slot `b` names what slot `a` does: the same page with rights `c`, not
/// mapped, or the same line.
pub fn copy(domain: &mut Domain, memory: &PhysMem, a: u32, b: u32, c: u32) -> Result<u32, CallError>
    requires valid { Valid memory.now domain.old }
    ensures does { (work : Work) → work_model work ≡ nothing 6
        → Does 6 (λ e d. spec.copy d a b c) (with_work result work) memory.now domain.old memory.now domain.new }
    ensures rest { KeepsRest domain.old domain.new }
    ensures unchanged { IfErr result (λ error. domain.new ≡ domain.old) }
{
    if a >= SLOTS || b >= SLOTS {
        return Err(CallError::BadSlot);
    }
    let cap = domain.caps.get(a).ok_or(CallError::Empty)?;
    if domain.caps.get(b).is_some() {
        return Err(CallError::Used);
    }
    let rights = copied_rights(cap, c)?;
    domain.caps.copy(a, b, rights);
    Ok(0)
}
