// The memory of the machine before its first slot.
ghost use Rattle.std.specs.Prelude.{◌≡◌, ℕ, ◌+◌, ◌*◌, ◌%◌, ◌^◌, ◌<◌, ◌≤◌, slice_index};
ghost use Rattle.tp_base.specs.Table.{empty, at, put};
ghost use Rattle.phys_mem.specs.Holds.{Holds};
ghost use Rattle.phys_mem.specs.Address.{frame_of, word_place};
ghost use Rattle.phys_mem.specs.Contents.{word_at};
ghost use Rattle.phys_mem.specs.Mem.{Mem, Frame, written};
ghost use Rattle.hardware_check.specs.Models.{hardware_model};
ghost use Rattle.image_check.specs.Models.{own_model};
ghost use Rattle.image_check.specs.Image.{image_from};
ghost use Rattle.kernel_call.specs.Facts.{Has};
ghost use Rattle.world_view.specs.Kernel.{estate};
ghost use Rattle.world_view.specs.Opening as spec;
ghost use Rattle.domain_open.specs.Placing.{HasPool, HasPages, AllOpened, SameElsewhere, placed_all};

use crate::placement::Placement;
use crate::segments::{REGIONS, has_region};
use image_check::{Checked, Hardware, Own, Segment};
use kernel_call::Domain;
use phys_mem::PhysMem;
use tp_base::FrameNo;

/// Bytes of a page.
const PAGE_BYTES: usize = 4096;

/// Places the page tables and pages of each domain in their frames, in a memory
/// that reads zero.
pub fn load_pages(image: &Checked, domains: &[Domain], memory: &mut PhysMem)
    requires opened { AllOpened (image_from image.now) domains.now }
    requires size { memory.old.frames ≡ (image_from image.now).all.hardware.frames }
    requires blank { Holds memory.old empty }
    ensures size { memory.new.frames ≡ memory.old.frames }
    ensures holds { Holds memory.new (placed_all (image_from image.now)) }
{
    image.runnable();
    let public = image.public();
    // From the last domain to the first, as the definition places them.
    let mut left = public.domains as usize;
    while left > 0 {
        left -= 1;
        load_domain(&public.hardware, image.own(left), &domains[left], memory);
    }
}

/// Places the page tables and pages of one domain in its frames, whatever was in
/// memory; frames that are not of its pool stay as they were.
pub fn load_domain(hardware: &Hardware, own: &Own, domain: &Domain, memory: &mut PhysMem)
    requires has_pool { HasPool (hardware_model hardware.now) (own_model own.now) }
    requires has { Has (estate (hardware_model hardware.now) (own_model own.now)) domain.now }
    requires size { memory.old.frames ≡ hardware.now.frames }
    ensures size { memory.new.frames ≡ memory.old.frames }
    ensures placed { (m : Mem) → Holds memory.old m
        → Holds memory.new (spec.placed (hardware_model hardware.now) (own_model own.now) m) }
    ensures elsewhere { (m : Mem) → Holds memory.old m
        → SameElsewhere (hardware_model hardware.now) (own_model own.now) memory.new memory.old }
{
    let placement = Placement::new(hardware, own, domain.pool.frames());
    place_domain(memory, &placement);
}

// Places a domain's page tables and pages in its frames.
#[tactic(auto, unfolding(world_view::specs::Opening::placed))]
fn place_domain(memory: &mut PhysMem, at: &Placement<'_>)
    requires size { memory.old.frames ≡ at.now.hardware.now.frames }
    ensures placed { (m : Mem) → Holds memory.old m
        → Holds memory.new (spec.placed (hardware_model at.now.hardware.now) (own_model at.now.own.now) m) }
    ensures frames { memory.new.frames ≡ memory.old.frames }
{
    place_frame(memory, at.root_frame(), &Root { at });
    place_tables(memory, at);
    place_segments(memory, at);
}

// ---- page tables

// Places the table of a region, if it has a page.
fn place_table(memory: &mut PhysMem, at: &Placement<'_>, region: u32)
    requires size { memory.old.frames ≡ at.now.hardware.now.frames }
    requires region { region < 1024 }
    ensures placed { (m : Mem)
        → Holds memory.old
        (spec.tables_placed (hardware_model at.now.hardware.now) (own_model at.now.own.now) region m)
        → Holds memory.new
        (spec.tables_placed (hardware_model at.now.hardware.now) (own_model at.now.own.now) (region + 1) m) }
    ensures frames { memory.new.frames ≡ memory.old.frames }
{
    if !has_region(at.own.segments.as_slice(), region) {
        return;
    }
    place_frame(memory, at.table_frame(region), &Table { at, region });
}

// Places the tables of all regions that have a page.
fn place_tables(memory: &mut PhysMem, at: &Placement<'_>)
    requires size { memory.old.frames ≡ at.now.hardware.now.frames }
    ensures placed { (m : Mem) → Holds memory.old m
        → Holds memory.new
        (spec.tables_placed (hardware_model at.now.hardware.now) (own_model at.now.own.now) 1024 m) }
    ensures frames { memory.new.frames ≡ memory.old.frames }
{
    for region in 0..REGIONS {
        place_table(memory, at, region);
    }
}

// ---- pages

// Places a domain's segments.
fn place_segments(memory: &mut PhysMem, at: &Placement<'_>)
    requires size { memory.old.frames ≡ at.now.hardware.now.frames }
    ensures placed { (m : Mem) → Holds memory.old m → Holds memory.new
        (spec.segments_placed (hardware_model at.now.hardware.now) (own_model at.now.own.now)
        (own_model at.now.own.now).segments m) }
    ensures frames { memory.new.frames ≡ memory.old.frames }
{
    for segment in at.own.segments.as_slice() {
        place_segment(memory, at, segment);
    }
}

// Places a segment's pages.
fn place_segment(memory: &mut PhysMem, at: &Placement<'_>, segment: &Segment)
    requires size { memory.old.frames ≡ at.now.hardware.now.frames }
    requires few { segment.now.page + segment.now.pages ≤ 2 ^ 20 }
    requires pages { HasPages (own_model at.now.own.now) segment.now.page segment.now.pages }
    ensures placed { (m : Mem) → Holds memory.old m → Holds memory.new
        (spec.pages_placed (hardware_model at.now.hardware.now) (own_model at.now.own.now)
        segment.now.page segment.now.pages segment.now.bytes.items m) }
    ensures frames { memory.new.frames ≡ memory.old.frames }
{
    let mut rest = segment.bytes.as_slice();
    for i in 0..segment.pages {
        let (bytes, left) = rest.split_at(rest.len().min(PAGE_BYTES));
        place_frame(memory, at.page_frame(segment.page + i), &Page { bytes });
        rest = left;
    }
}

// ---- frames

// What stands in a frame, word by word.
trait Words {
    ghost words: { Self → ℕ → ℕ };

    fn word(&self, i: u32) -> u32
        requires place { i < 1024 }
        ensures value { result ≡ words self.now i };
}

// A domain's root.
#[derive(Drop)]
struct Root<'a> {
    at: &'a Placement<'a>,
}

impl<'a> Words for Root<'a> {
    ghost words = { λ root.
        spec.root_entry (hardware_model root.at.now.hardware.now) (own_model root.at.now.own.now) };

    fn word(&self, i: u32) -> u32 {
        self.at.root_entry(i)
    }
}

// The table of a region.
#[derive(Drop)]
struct Table<'a> {
    at: &'a Placement<'a>,
    region: u32,
    ghost few: { region < 1024 },
}

impl<'a> Words for Table<'a> {
    ghost words = { λ table i.
        spec.leaf_entry (hardware_model table.at.now.hardware.now) (own_model table.at.now.own.now)
        (1024 * table.region + i) };

    fn word(&self, i: u32) -> u32 {
        self.at.leaf_entry(1024 * self.region + i)
    }
}

// A page: its bytes, and zeros after them.
#[derive(Drop)]
struct Page<'a> {
    bytes: &'a [u8],
}

impl<'a> Words for Page<'a> {
    ghost words = { λ page. spec.word_of page.bytes.now };

    // The least byte comes first.
    fn word(&self, i: u32) -> u32 {
        let at = 4 * i as usize;
        if at >= self.bytes.len() {
            return 0;
        }
        byte_at(self.bytes, at)
            + (1 << 8) * byte_at(self.bytes, at + 1)
            + (1 << 16) * byte_at(self.bytes, at + 2)
            + (1 << 24) * byte_at(self.bytes, at + 3)
    }
}

fn byte_at(bytes: &[u8], i: usize) -> u32
    ensures value { result ≡ slice_index bytes.now i }
    ensures byte { result < 256 }
{
    match bytes.get(i) {
        Some(byte) => u32::from(*byte),
        None => 0,
    }
}

// Fills a frame.
fn place_frame<W: Words>(memory: &mut PhysMem, frame: FrameNo, words: &W)
    requires frame { frame < memory.old.frames }
    ensures placed { (m : Mem) (x : Frame) → Holds memory.old m
        → ((i : ℕ) → i < 1024 → at 0 x i ≡ W.words words.now i)
        → Holds memory.new (put m frame x) }
    ensures frames { memory.new.frames ≡ memory.old.frames }
{
    let number = frame.number();
    for i in 0..1024 {
        place_word(memory, 4096 * number + 4 * i, words.word(i));
    }
}

// Sees that a word stands at an address, a multiple of 4. One that stands there
// already is not written: a frame that is to read zero, and does, takes no memory.
fn place_word(memory: &mut PhysMem, at: u32, word: u32)
    requires within { frame_of at < memory.old.frames }
    requires aligned { at % 4 ≡ 0 }
    ensures placed { (m : Mem) → Holds memory.old m
        → Holds memory.new (written m (frame_of at) (word_place at) word) }
    ensures kept { word_at memory.old at ≡ word → memory.new ≡ memory.old }
    ensures frames { memory.new.frames ≡ memory.old.frames }
{
    if memory.read_word(at) == word {
        return;
    }
    memory.write_word(at, word);
}
