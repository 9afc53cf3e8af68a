// What capabilities name at first: each page is its capability's, or kept where
// none names it.
ghost use Rattle.std.specs.Prelude.{
  ◌≡◌,
  ℕ,
  ◌+◌,
  ◌*◌,
  ◌^◌,
  ◌<◌,
  ◌≤◌,
  ◌++◌,
  ◌∷◌,
  [],
  List,
  Some,
  None,
  map,
  length,
  drop,
  take,
  IfOk,
  IfSome,
  IfNone,
};
ghost use Rattle.std.specs.List.Sorted.{IsStrictlyIncreasing};
ghost use Rattle.std.specs.Vec.{vec_len, vec_capacity};
ghost use Rattle.cap_table.specs.Slots as slots;
ghost use Rattle.cap_table.specs.Slots.{with_cap};
ghost use Rattle.cap_table.specs.Owning.{IsUnnamed};
ghost use Rattle.domain_check.specs.declared.capabilities.InitialCap.TheVariants.{Irq};
ghost use Rattle.image_check.specs.Models.{segment_model, own_model};
ghost use Rattle.image_check.specs.Laws.{IsOwn};
ghost use Rattle.image_check.specs.Own.{cap_at};
ghost use Rattle.image_check.specs.Pages as pages;
ghost use Rattle.domain_open.specs.Placing.{AreZeroed};
ghost use Rattle.domain_open.specs.Giving as spec;
ghost use Rattle.domain_open.specs.Giving.{IsGiving, line_slots, slots_after, unnamed};

use crate::frames::take_one;
use crate::segments::{page_rights, pages_below, pages_in};
use cap_table::{CapTable, Given};
use frame_colours::{Frame, Held, Pool};
use image_check::{InitialCap, Own, Segment};
use phys_mem::PhysMem;
use std::alloc::Global;
use tp_base::Memory;

/// Bytes of a page.
const PAGE_BYTES: u32 = 4096;

// ---- lines

// Lets an empty slot name its line, if it has one.
fn put_line(caps: &mut CapTable, slot: u32, cap: InitialCap)
    requires places { length caps.old ≡ 64 }
    requires below { slot < 64 }
    requires empty { slots.cap_at caps.old slot ≡ None }
    requires line { (line : ℕ) → cap ≡ Irq line → line < 32 }
    ensures becomes { caps.new ≡ with_cap caps.old slot (spec.line_cap cap) }
{
    let InitialCap::Irq(line) = cap else {
        return;
    };
    caps.put(slot, Given::Irq(line));
}

/// The slots of a domain that name its lines, and no page yet.
///
/// # Errors
/// `Memory` where no memory is left for them.
pub fn lines_of(alloc: Global, own: &Own) -> Result<CapTable, Memory>
    requires sound { IsOwn (own_model own.now) }
    ensures lines { IfOk result (λ caps. caps ≡ line_slots (own_model own.now)) }
{
    let mut caps = CapTable::new(alloc)?;
    for slot in 0..own.caps.len() {
        put_line(&mut caps, slot as u32, own.caps[slot]);
    }
    Ok(caps)
}

// ---- pages

// A slot, and the page that it names.
#[derive(Clone, Copy)]
struct Namer {
    slot: u32,
    page: u32,
}

// The page that is named, if it stands at this place among the pages of segments.
fn page_at(segments: &[Segment], place: u32, cap: InitialCap) -> Option<u32>
    requires few { pages.pages_in (map segment_model segments.now) ≤ 2 ^ 15 }
    ensures page { result ≡ spec.page_at (map segment_model segments.now) place cap }
{
    let InitialCap::Page(page) = cap else {
        return None;
    };
    if pages_below(segments, page) != place {
        return None;
    }
    Some(page)
}

// The slot that names the page at a place among a domain's pages.
fn namer_of(own: &Own, place: u32) -> Option<Namer>
    requires sound { IsOwn (own_model own.now) }
    requires few { pages.pages_in (own_model own.now).segments ≤ 2 ^ 15 }
    ensures slot { IfSome result (λ at. at.slot < 64) }
    ensures page { IfSome result (λ at.
        spec.page_at (own_model own.now).segments place (cap_at (own_model own.now) at.slot) ≡ Some at.page) }
    ensures none { IfNone result ((i : ℕ)
        → spec.page_at (own_model own.now).segments place (cap_at (own_model own.now) i) ≡ None) }
{
    let segments = own.segments.as_slice();
    for slot in 0..own.caps.len() {
        if let Some(page) = page_at(segments, place, own.caps[slot]) {
            return Some(Namer {
                slot: slot as u32,
                page,
            });
        }
    }
    None
}

// Lets an empty slot name its page, in this frame.
fn give_page(own: &Own, caps: &mut CapTable, at: Namer, frame: Frame<Held>)
    requires places { length caps.old ≡ 64 }
    requires slot { at.slot < 64 }
    requires page { at.page < 2 ^ 20 }
    requires empty { slots.cap_at caps.old at.slot ≡ None }
    requires new { IsUnnamed caps.old frame }
    ensures becomes { caps.new
        ≡ with_cap caps.old at.slot (Some (spec.page_cap (own_model own.now) frame at.page)) }
{
    let rights = page_rights(own.segments.as_slice(), at.page);
    caps.put(at.slot, Given::Page(frame, rights));
    caps.note(at.slot, Some(PAGE_BYTES * at.page));
}

// The page at a place, in this frame: its capability's, or kept.
fn place_page(
    own: &Own,
    place: u32,
    frame: Frame<Held>,
    caps: &mut CapTable,
    kept: &mut Vec<Frame<Held>>,
)
    requires sound { IsOwn (own_model own.now) }
    requires few { pages.pages_in (own_model own.now).segments ≤ 2 ^ 15 }
    requires there { place < pages.pages_in (own_model own.now).segments }
    requires giving { (frames : List ℕ) × IsGiving (own_model own.now) frames place frame caps.old }
    requires room { vec_len kept.old < vec_capacity kept.old }
    ensures caps { (frames : List ℕ) → IsGiving (own_model own.now) frames place frame caps.old
        → caps.new ≡ slots_after (own_model own.now) frames (place + 1) }
    ensures kept { (frames : List ℕ) → IsGiving (own_model own.now) frames place frame caps.old
        → kept.new.items ≡ kept.old.items ++ unnamed
        (slots_after (own_model own.now) frames (pages.pages_in (own_model own.now).segments)) (frame ∷ []) }
    ensures few { vec_len kept.new ≤ vec_len kept.old + 1 }
    ensures room { vec_capacity kept.new ≡ vec_capacity kept.old }
{
    if let Some(at) = namer_of(own, place) {
        give_page(own, caps, at, frame);
        return;
    }
    kept.push_reserved(frame);
}

/// Takes a frame for each page of a domain, the least first, each as the page
/// of the capability that names it, or to those that are kept.
pub fn give_pages(
    own: &Own,
    pool: &mut Pool,
    memory: &mut PhysMem,
    caps: &mut CapTable,
    kept: &mut Vec<Frame<Held>>,
)
    requires sound { IsOwn (own_model own.now) }
    requires few { pages.pages_in (own_model own.now).segments ≤ 2 ^ 15 }
    requires enough { pages.pages_in (own_model own.now).segments ≤ length pool.old.free }
    requires ascend { IsStrictlyIncreasing pool.old.free }
    requires size { pool.old.share.frames ≤ memory.old.frames }
    requires lines { caps.old ≡ line_slots (own_model own.now) }
    requires room { vec_len kept.old + pages.pages_in (own_model own.now).segments ≤ vec_capacity kept.old }
    ensures caps { caps.new
        ≡ slots_after (own_model own.now) pool.old.free (pages.pages_in (own_model own.now).segments) }
    ensures kept { kept.new.items
        ≡ kept.old.items
        ++ unnamed caps.new (take (pages.pages_in (own_model own.now).segments) pool.old.free) }
    ensures free { pool.new.free ≡ drop (pages.pages_in (own_model own.now).segments) pool.old.free }
    ensures share { pool.new.share ≡ pool.old.share }
    ensures zeroed { AreZeroed (take (pages.pages_in (own_model own.now).segments) pool.old.free)
        memory.old memory.new }
    ensures size { memory.new.frames ≡ memory.old.frames }
{
    for place in 0..pages_in(own.segments.as_slice()) {
        let frame = take_one(pool, memory);
        place_page(own, place, frame, caps, kept);
    }
}
