// The domains at their entries.
ghost use Rattle.std.specs.Prelude.{◌≡◌, ◌<◌, ◌≤◌, [], length, IfOk};
ghost use Rattle.std.specs.Vec.{vec_capacity};
ghost use Rattle.tp_base.specs.Table.{empty};
ghost use Rattle.phys_mem.specs.Holds.{Holds};
ghost use Rattle.hardware_check.specs.Models.{hardware_model};
ghost use Rattle.image_check.specs.Models.{own_model};
ghost use Rattle.image_check.specs.Laws.{IsOwn};
ghost use Rattle.image_check.specs.Pages.{share_of};
ghost use Rattle.image_check.specs.Image.{image_from, own_of};
ghost use Rattle.image_check.specs.Own as own_spec;
ghost use Rattle.irq_partition.specs.Interrupts.{none_delivered};
ghost use Rattle.kernel_clone.specs.Models.{layout_model};
ghost use Rattle.world_view.specs.Frames.{clone_frames};
ghost use Rattle.world_view.specs.Kernel.{layout};
ghost use Rattle.domain_open.specs.Giving.{line_slots};
ghost use Rattle.domain_open.specs.Placing.{HasPool, AreApart, AreZeroed, SameElsewhere, used_frames, IsOpened, AllOpened};

use crate::frames::{discard_all, shares_of, take_into, take_one};
use crate::giving::{give_pages, lines_of};
use crate::segments::{REGIONS, pages_in, regions_below};
use cap_table::CapTable;
use frame_colours::{ColourShare, Frame, Held, Pool, Table};
use image_check::{Checked, Hardware, Own};
use irq_partition::IrqPart;
use kernel_call::{Beginning, Domain};
use kernel_clone::CloneLayout;
use page_map::PageMap;
use phys_mem::PhysMem;
use std::alloc::Global;
use thread_set::ThreadSet;
use tp_base::Memory;

/// Frames of a domain's kernel clone: two of text, one of stack, one of data.
const CLONE_FRAMES: u32 = 4;

/// A domain at its entry, in the frames of its share. They are taken in this
/// order: those of its kernel clone, the root, a table for each region that has a
/// page, and a frame for each page, each ascending; a page that a capability names
/// is that capability's. Those that are taken are zeroed, whatever was in them; a
/// frame of no colour of the share stays as it was, also on an error.
///
/// # Errors
/// `Memory` where no memory is left for what it keeps; the share is spent then.
pub fn open_domain(
    alloc: Global,
    hardware: &Hardware,
    own: &Own,
    share: ColourShare,
    memory: &mut PhysMem,
) -> Result<Domain, Memory>
    requires has_pool { HasPool (hardware_model hardware.now) (own_model own.now) }
    requires apart { AreApart (own_model own.now).segments }
    requires share { share ≡ share_of (hardware_model hardware.now) (own_model own.now) }
    requires size { memory.old.frames ≡ hardware.now.frames }
    ensures opened { IfOk result (IsOpened (hardware_model hardware.now) (own_model own.now)) }
    ensures zeroed { IfOk result (λ _.
        AreZeroed (used_frames (hardware_model hardware.now) (own_model own.now)) memory.old memory.new) }
    ensures elsewhere { SameElsewhere (hardware_model hardware.now) (own_model own.now) memory.new memory.old }
    // so a memory that reads zero still does
    ensures blank { Holds memory.old empty → Holds memory.new empty }
    ensures size { memory.new.frames ≡ memory.old.frames }
{
    let mut pool = match Pool::new(alloc, share) {
        Ok(pool) => pool,
        Err((share, error)) => {
            share.discard();
            return Err(error);
        }
    };
    let segments = own.segments.as_slice();
    let regions = regions_below(segments, REGIONS);
    let pages = pages_in(segments);
    let frames = CLONE_FRAMES + pages;
    let Room {
        mut kept,
        mut tables,
        mut caps,
        interrupts,
    } = room_of(alloc, own, frames, regions)?;
    take_into(&mut kept, &mut pool, memory, CLONE_FRAMES);
    let layout = layout_of(hardware, kept.as_slice());
    let root = take_one(&mut pool, memory);
    take_into(&mut tables, &mut pool, memory, regions);
    give_pages(own, &mut pool, memory, &mut caps, &mut kept);
    let begin = Beginning {
        pool,
        tables,
        kept,
        caps,
        map: PageMap::new(root),
        interrupts,
        threads: ThreadSet::new(own.entry),
        layout,
        calls: own.makes,
        number: own.number,
    };
    Domain::new(alloc, begin)
}

// What a domain keeps, before its frames are taken: room for them, the slots that
// name its lines, and its moments.
struct Room {
    kept: Vec<Frame<Held>>,
    tables: Vec<Frame<Table>>,
    caps: CapTable,
    interrupts: IrqPart,
}

// Room for so many frames and page tables. It is made by itself, as each step that
// may fail drops what was made before it.
fn room_of(alloc: Global, own: &Own, frames: u32, tables: u32) -> Result<Room, Memory>
    requires sound { IsOwn (own_model own.now) }
    ensures kept { IfOk result (λ room. room.kept.items ≡ []) }
    ensures frames { IfOk result (λ room. frames ≤ vec_capacity room.kept) }
    ensures no_tables { IfOk result (λ room. room.tables.items ≡ []) }
    ensures tables { IfOk result (λ room. tables ≤ vec_capacity room.tables) }
    ensures caps { IfOk result (λ room. room.caps ≡ line_slots (own_model own.now)) }
    ensures opening { IfOk result (λ room. room.interrupts ≡ none_delivered (own_model own.now).moments) }
{
    let kept = Vec::with_capacity(alloc, frames as usize)?;
    let tables = Vec::with_capacity(alloc, tables as usize)?;
    let interrupts = IrqPart::new(alloc, own.moments.as_slice())?;
    let caps = lines_of(alloc, own)?;
    Ok(Room {
        kept,
        tables,
        caps,
        interrupts,
    })
}

// Where the kernel clone of a domain lies, whose frames these are.
fn layout_of(hardware: &Hardware, clone: &[Frame<Held>]) -> CloneLayout
    requires four { length clone.now ≡ 4 }
    ensures layout { (o : own_spec.Own) → clone.now ≡ clone_frames (hardware_model hardware.now) o
        → layout_model result ≡ layout (hardware_model hardware.now) o }
{
    CloneLayout {
        text: [clone[0].number(), clone[1].number()],
        stack: clone[2].number(),
        data: clone[3].number(),
        line: hardware.line,
        shared: hardware.shared,
        colours: hardware.colours(),
    }
}

// Domain `d` at its entry, in the frames of its share.
fn open_one(
    alloc: Global,
    image: &Checked,
    d: usize,
    share: ColourShare,
    memory: &mut PhysMem,
) -> Result<Domain, Memory>
    requires domain { d < length (image_from image.now).owns }
    requires share { share
        ≡ share_of (image_from image.now).all.hardware (own_of (image_from image.now) d) }
    requires size { memory.old.frames ≡ (image_from image.now).all.hardware.frames }
    ensures opened { IfOk result
        (IsOpened (image_from image.now).all.hardware (own_of (image_from image.now) d)) }
    ensures blank { Holds memory.old empty → Holds memory.new empty }
    ensures size { memory.new.frames ≡ memory.old.frames }
{
    image.runnable();
    open_domain(alloc, &image.public().hardware, image.own(d), share, memory)
}

/// Each domain at its entry, in the frames of its share. Memory reads zero
/// before and after.
///
/// # Errors
/// `Memory` where no memory is left for them; no share is left then.
pub fn open_all(alloc: Global, image: &Checked, memory: &mut PhysMem) -> Result<Vec<Domain>, Memory>
    requires size { memory.old.frames ≡ (image_from image.now).all.hardware.frames }
    ensures opened { IfOk result (λ ds. AllOpened (image_from image.now) ds.items) }
    ensures blank { Holds memory.old empty → Holds memory.new empty }
    ensures size { memory.new.frames ≡ memory.old.frames }
{
    image.runnable();
    let many = image.public().domains as usize;
    let mut domains = Vec::with_capacity(alloc, many)?;
    let mut shares = shares_of(alloc, image)?;
    for d in 0..many {
        let share = shares.remove(0);
        match open_one(alloc, image, d, share, memory) {
            Ok(domain) => domains.push_reserved(domain),
            Err(error) => {
                discard_all(shares);
                return Err(error);
            }
        }
    }
    shares.destroy_empty();
    Ok(domains)
}
