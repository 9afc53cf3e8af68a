// The slots, and the frames that they own.
ghost use Rattle.std.specs.Prelude.{◌≡◌, ◌≢◌, ℕ, ◌<◌, ◌≤◌, true, false, Some, None, length, take, replicate, IfOk};
ghost use Rattle.cap_table.specs.Slots.{
  Slots,
  cap_at,
  is_filled,
  empty_slots,
  page_of,
  table_of,
  line_of,
  mapped_at,
  installed_at,
  with_cap,
  copied,
  noted,
  maps_in,
  in_use,
  revoked,
  revoked_count,
  revoked_entries,
};
ghost use Rattle.cap_table.specs.Owning.{IsOwned, IsNew, given_cap, Back, IsOther};

use crate::caps::{
    REGION, are_alike, copied, installed_at, is_in_region, mapped_at, noted, page_of,
};
use crate::{Cap, Given, Gone, Revoked};
use frame_colours::{Frame, Held, Table};
use std::alloc::Global;
use std::marker::Model;
use tp_base::{FrameNo, Memory, Rights};

/// How many slots a domain has for capabilities.
pub const SLOTS: u32 = 64;

/// 64 slots, and the frames that they own. Only `new` takes memory.
#[derive(Drop)]
pub struct CapTable {
    slots: Vec<Option<Cap>>,
    // By slot, the page that it owns: of the slots that name a page, one owns it.
    held: Vec<Option<Frame<Held>>>,
    // By slot, the table that it owns: each one that it names.
    tables: Vec<Option<Frame<Table>>>,
}

impl Model for CapTable {
    ghost use Rattle.cap_table.specs.Slots.{Slots};
    ghost use Rattle.cap_table.specs.Owning.{IsSound};

    ghost Value = { Slots };

    ghost view = { λ t. t.slots.items };

    ghost invariant = { λ t. IsSound t.slots.items t.held.items t.tables.items };
}

// A place for each slot, all empty.
fn all_empty<T: Drop>(alloc: Global) -> Result<Vec<Option<T>>, Memory>
    ensures empty { IfOk result (λ places. places.items ≡ replicate 64 None) }
{
    let mut places = Vec::with_capacity(alloc, SLOTS as usize)?;
    for _ in 0..SLOTS {
        places.push_reserved(None);
    }
    Ok(places)
}

// Another slot that names a page.
fn other_of(slots: &[Option<Cap>], slot: usize, frame: FrameNo) -> Option<usize>
    ensures other { IsOther slots.now slot frame result }
{
    for i in 0..slots.len() {
        if i != slot && page_of(&slots[i]) == Some(frame) {
            return Some(i);
        }
    }
    None
}

// Takes the page that a slot owns from it. Where another slot names the page,
// that one owns it then.
fn disowned(
    slots: &[Option<Cap>],
    held: &mut [Option<Frame<Held>>],
    slot: usize,
) -> Option<Frame<Held>>
    requires below { slot < 64 }
    requires places { length slots.now ≡ 64 }
    requires owned { IsOwned page_of slots.now held.old }
    ensures back { Back slots.now slot result }
    ensures owned { IsOwned page_of (with_cap slots.now slot None) held.new }
{
    let frame = held[slot].take()?;
    let Some(other) = other_of(slots, slot, frame.number()) else {
        return Some(frame);
    };
    held[other] = Some(frame);
    None
}

// Whether some page is mapped in a region, an address divided by 4 MiB.
#[tactic(auto, unfolding(crate::specs::Slots::maps_in))]
fn maps_in(slots: &[Option<Cap>], region: u32) -> bool
    ensures value { result ≡ maps_in slots.now region }
{
    slots.iter().any(|cap| is_in_region(region, mapped_at(cap)))
}

impl CapTable {
    /// A table whose slots are all empty.
    ///
    /// # Errors
    /// `Memory`, where no memory is left for it.
    #[tactic(auto, unfolding(crate::specs::Slots::empty_slots))]
    pub fn new(alloc: Global) -> Result<Self, Memory>
        ensures empty { IfOk result (λ table. table ≡ empty_slots) }
    {
        Ok(CapTable {
            slots: all_empty(alloc)?,
            held: all_empty(alloc)?,
            tables: all_empty(alloc)?,
        })
    }

    /// What a slot names; `None` where it is empty.
    pub fn get(&self, slot: u32) -> Option<Cap>
        requires below { slot < 64 }
        ensures cap { result ≡ cap_at self.now slot }
        ensures places { length self.now ≡ 64 }
        ensures line { (line : ℕ) → line_of result ≡ Some line → line < 32 }
    {
        self.slots[slot as usize]
    }

    /// Lets an empty slot name what is given, mapped or installed nowhere. No
    /// slot may name the frame already.
    pub fn put(&mut self, slot: u32, given: Given)
        requires below { slot < 64 }
        requires empty { cap_at self.old slot ≡ None }
        requires new { IsNew self.old given }
        ensures becomes { self.new ≡ with_cap self.old slot (Some (given_cap given)) }
    {
        let slot = slot as usize;
        match given {
            Given::Page(frame, rights) => {
                self.slots[slot] = Some(Cap::Frame {
                    frame: frame.number(),
                    rights,
                    mapped: None,
                });
                self.held[slot] = Some(frame);
            }
            Given::Table(frame) => {
                self.slots[slot] = Some(Cap::Table {
                    frame: frame.number(),
                    installed: None,
                });
                self.tables[slot] = Some(frame);
            }
            Given::Irq(line) => self.slots[slot] = Some(Cap::Irq { line }),
        }
    }

    /// Lets an empty slot name the page of another with these rights, not
    /// mapped, or its line. A table can't be copied.
    pub fn copy(&mut self, from: u32, to: u32, rights: Rights)
        requires from { from < 64 }
        requires to { to < 64 }
        requires filled { is_filled (cap_at self.old from) ≡ true }
        requires no_table { table_of (cap_at self.old from) ≡ None }
        requires empty { cap_at self.old to ≡ None }
        ensures becomes { self.new ≡ with_cap self.old to (copied (cap_at self.old from) rights) }
    {
        self.slots[to as usize] = copied(&self.slots[from as usize], rights);
    }

    /// Notes the address at which a slot's page is now mapped, or its table
    /// installed; `None` where it is nowhere.
    pub fn note(&mut self, slot: u32, at: Option<u32>)
        requires below { slot < 64 }
        requires filled { is_filled (cap_at self.old slot) ≡ true }
        requires no_line { line_of (cap_at self.old slot) ≡ None }
        ensures becomes { self.new ≡ with_cap self.old slot (noted (cap_at self.old slot) at) }
    {
        let slot = slot as usize;
        self.slots[slot] = noted(self.slots[slot], at);
    }

    /// Whether a slot's table is installed, and some page is mapped through it:
    /// at an address of the same 4 MiB.
    #[tactic(auto, unfolding(crate::specs::Slots::in_use))]
    pub fn in_use(&self, slot: u32) -> bool
        requires below { slot < 64 }
        ensures value { result ≡ in_use self.now slot }
    {
        let Some(at) = installed_at(&self.slots[slot as usize]) else {
            return false;
        };
        maps_in(&self.slots, at / REGION)
    }

    /// Empties a slot. A page comes back exactly where no other slot names it,
    /// and a table always. A table that is in use can't be deleted.
    pub fn delete(&mut self, slot: u32) -> Gone
        requires below { slot < 64 }
        requires filled { is_filled (cap_at self.old slot) ≡ true }
        requires unused { in_use self.old slot ≡ false }
        ensures becomes { self.new ≡ with_cap self.old slot None }
        ensures unmapped { result.unmapped ≡ mapped_at (cap_at self.old slot) }
        ensures uninstalled { result.uninstalled ≡ installed_at (cap_at self.old slot) }
        ensures held { Back self.old slot result.held }
        ensures table { result.table ≡ table_of (cap_at self.old slot) }
        ensures no_page { (f i : ℕ) → result.held ≡ Some f
            → page_of (cap_at self.new i) ≢ Some f }
        ensures no_table { (f i : ℕ) → result.table ≡ Some f
            → table_of (cap_at self.new i) ≢ Some f }
    {
        let slot = slot as usize;
        let held = disowned(&self.slots, &mut self.held, slot);
        let table = self.tables[slot].take();
        let cap = self.slots[slot].take();
        Gone {
            unmapped: mapped_at(&cap),
            uninstalled: installed_at(&cap),
            held,
            table,
        }
    }

    /// Empties each other slot that names the same page or line.
    pub fn revoke(&mut self, slot: u32) -> Revoked
        requires below { slot < 64 }
        requires filled { is_filled (cap_at self.old slot) ≡ true }
        ensures becomes { self.new ≡ revoked self.old slot }
        ensures count { result.count ≡ revoked_count self.old slot }
        ensures written { result.written ≡ length (revoked_entries self.old slot) }
        ensures entries { take result.written result.entries ≡ revoked_entries self.old slot }
        ensures few { result.count ≤ 63 }
        ensures fewer { result.written ≤ result.count }
    {
        let cap = self.get(slot);
        let mut revoked = Revoked::none();
        for i in 0..SLOTS {
            if i != slot && are_alike(&cap, &self.get(i)) {
                let gone = self.delete(i);
                // This slot still names the page, so none comes back.
                prove!(gone.held.is_none());
                revoked.push(gone.unmapped);
            }
        }
        revoked
    }
}
