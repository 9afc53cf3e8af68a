// Calls that take frames and give them back: ALLOC, DELETE and REVOKE.
ghost use Rattle.std.specs.Prelude.{◌≡◌, ◌<◌, ◌≤◌, false, take, IfErr, IfSome};
ghost use Rattle.phys_mem.specs.Mem.{Mem, zeroed_frame};
ghost use Rattle.phys_mem.specs.Holds.{Holds};
ghost use Rattle.frame_colours.specs.Colours.{IsOwn};
ghost use Rattle.frame_colours.specs.FreeList.{is_free};
ghost use Rattle.page_map.specs.Tables.{StandsWith};
ghost use Rattle.cap_table.specs.Slots.{Slots};
ghost use Rattle.cap_table.specs.Owning.{IsUnnamed, IsNew, given_cap};
ghost use Rattle.call_table.specs.Calls as spec;
ghost use Rattle.kernel_clone.specs.Models.{work_model};
ghost use Rattle.kernel_call.specs.Facts.{Valid, Does, KeepsRest, nothing, with_work};
ghost use Rattle.kernel_call.specs.Entries.{clear_at, CanClear, Leaves, CanUnmapAll, given_back};

use crate::error::CallError;
use crate::outcome::{no_work, tell_entry, tell_zeroed};
use crate::slots::filled;
use crate::{Domain, SLOTS};
use cap_table::{Given, Gone, Revoked};
use frame_colours::{Frame, Free, Held, Pool, Table};
use kernel_clone::{Call, Work};
use page_map::PageMap;
use phys_mem::PhysMem;
use tp_base::Rights;

/// ALLOC: slot `a` names the least free frame, zeroed: a page where `b` is 0, a
/// table where it is 1.
pub fn alloc(
    domain: &mut Domain,
    memory: &mut PhysMem,
    work: &mut Work,
    a: u32,
    b: u32,
) -> Result<u32, CallError>
    requires valid { Valid memory.old domain.old }
    requires fresh { work_model work.old ≡ nothing 2 }
    ensures does { Does 2 (λ e d. spec.alloc e d a b) (with_work result work.new)
        memory.old domain.old memory.new domain.new }
    ensures unchanged { IfErr result (λ error. domain.new ≡ domain.old) }
    ensures memory { IfErr result (λ error. memory.new ≡ memory.old) }
    ensures unwritten { IfErr result (λ error. work.new ≡ work.old) }
    ensures rest { KeepsRest domain.old domain.new }
    ensures frames { memory.new.frames ≡ memory.old.frames }
{
    if a >= SLOTS {
        return Err(CallError::BadSlot);
    }
    if domain.caps.get(a).is_some() {
        return Err(CallError::Used);
    }
    if b > 1 {
        return Err(CallError::WrongKind);
    }
    let Some(frame) = domain.pool.take() else {
        return Err(CallError::NoFrame);
    };
    let number = frame.number().number();
    let given = given_of(frame, memory, b);
    domain.caps.put(a, given);
    tell_zeroed(work, number);
    Ok(0)
}

// A frame that was free as what a slot is given: a page where `b` is 0, else a
// table. It is zeroed.
fn given_of(frame: Frame<Free>, memory: &mut PhysMem, b: u32) -> Given
    requires there { frame < memory.old.frames }
    ensures given { given_cap result ≡ spec.fresh_cap b frame }
    ensures new { (slots : Slots) → IsUnnamed slots frame → IsNew slots result }
    ensures zeroed { (m : Mem) → Holds memory.old m → Holds memory.new (zeroed_frame m frame) }
    ensures frames { memory.new.frames ≡ memory.old.frames }
{
    if b == 0 {
        // to read, to write and to execute
        return Given::Page(frame.hold(memory), Rights::with(true, true, true));
    }
    Given::Table(frame.table(memory))
}

/// DELETE: empties slot `a`, and clears the entry for which it accounted. A
/// frame that no slot names then is free.
pub fn delete(
    domain: &mut Domain,
    memory: &mut PhysMem,
    work: &mut Work,
    a: u32,
) -> Result<u32, CallError>
    requires valid { Valid memory.old domain.old }
    requires fresh { work_model work.old ≡ nothing 7 }
    ensures does { Does 7 (λ e d. spec.delete e d a) (with_work result work.new)
        memory.old domain.old memory.new domain.new }
    ensures unchanged { IfErr result (λ error. domain.new ≡ domain.old) }
    ensures memory { IfErr result (λ error. memory.new ≡ memory.old) }
    ensures unwritten { IfErr result (λ error. work.new ≡ work.old) }
    ensures rest { KeepsRest domain.old domain.new }
    ensures frames { memory.new.frames ≡ memory.old.frames }
{
    filled(domain, a)?;
    if domain.caps.in_use(a) {
        return Err(CallError::InUse);
    }
    let gone = domain.caps.delete(a);
    clear_entry(
        &mut domain.map,
        memory,
        work,
        gone.unmapped,
        gone.uninstalled,
    );
    let Gone { held, table, .. } = gone;
    give_back(&mut domain.pool, held, table);
    Ok(0)
}

// Clears the entry for which a capability accounted, where it did: the leaf of
// a page that was mapped, or the root's entry of a table that was installed.
fn clear_entry(
    map: &mut PageMap,
    memory: &mut PhysMem,
    work: &mut Work,
    unmapped: Option<u32>,
    uninstalled: Option<u32>,
)
    requires there { StandsWith memory.old (λ m. CanClear m map.old memory.old.frames unmapped uninstalled) }
    requires fresh { work_model work.old ≡ nothing 7 }
    ensures clears { (m : Mem) → Holds memory.old m
        → Leaves 7 memory.new work.new (clear_at map.old unmapped uninstalled m) }
    ensures map { map.new ≡ map.old }
    ensures frames { memory.new.frames ≡ memory.old.frames }
{
    if let Some(va) = unmapped {
        tell_entry(work, map.unmap(memory, va));
        return;
    }
    let Some(va) = uninstalled else {
        return;
    };
    tell_entry(work, map.uninstall_table(memory, va));
}

// Frees the frames that no slot names any more.
fn give_back(pool: &mut Pool, held: Option<Frame<Held>>, table: Option<Frame<Table>>)
    requires own_page { IfSome held (λ f. IsOwn pool.old.share f) }
    requires page_out { IfSome held (λ f. is_free pool.old f ≡ false) }
    requires own_table { IfSome table (λ f. IsOwn pool.old.share f) }
    requires table_out { IfSome table (λ f. is_free pool.old f ≡ false) }
    ensures becomes { pool.new ≡ given_back pool.old held table }
{
    if let Some(frame) = held {
        pool.give(frame.release());
        return;
    }
    if let Some(frame) = table {
        pool.give(frame.release());
    }
}

/// REVOKE: deletes every other slot that names the same page or line as slot
/// `a`, and gives their number.
pub fn revoke(
    domain: &mut Domain,
    memory: &mut PhysMem,
    work: &mut Work,
    a: u32,
) -> Result<u32, CallError>
    requires valid { Valid memory.old domain.old }
    ensures does { Does 8 (λ e d. spec.revoke e d a) (with_work result work.new)
        memory.old domain.old memory.new domain.new }
    ensures unchanged { IfErr result (λ error. domain.new ≡ domain.old) }
    ensures memory { IfErr result (λ error. memory.new ≡ memory.old) }
    ensures unwritten { IfErr result (λ error. work.new ≡ work.old) }
    ensures rest { KeepsRest domain.old domain.new }
    ensures frames { memory.new.frames ≡ memory.old.frames }
{
    filled(domain, a)?;
    let revoked = domain.caps.revoke(a);
    *work = clear_all(&mut domain.map, memory, &revoked);
    Ok(revoked.count)
}

// Clears the leaves of the pages that were revoked. Its work is one of its own: LLVM
// would keep the work of every call in memory, if a place of it were found by a number.
fn clear_all(map: &mut PageMap, memory: &mut PhysMem, revoked: &Revoked) -> Work
    requires few { revoked.now.written ≤ 64 }
    requires there { StandsWith memory.old (λ m.
        CanUnmapAll m map.old memory.old.frames (take revoked.now.written revoked.now.entries)) }
    ensures unmaps { (m : Mem) → Holds memory.old m
        → Leaves 8 memory.new result (spec.unmap_all map.old (take revoked.now.written revoked.now.entries) m) }
    ensures map { map.new ≡ map.old }
    ensures frames { memory.new.frames ≡ memory.old.frames }
{
    let mut work = no_work(Call::Revoke);
    for i in 0..revoked.written as usize {
        work.entries[i] = map.unmap(memory, revoked.entries[i]);
    }
    work.count = revoked.written;
    work
}
