// The frames of a domain, taken from the pool of its share.
ghost use Rattle.std.specs.Prelude.{◌≡◌, ◌+◌, ◌<◌, ◌≤◌, ◌∷◌, [], ◌++◌, length, take, drop, map, IfOk};
ghost use Rattle.std.specs.Vec.{vec_len, vec_capacity};
ghost use Rattle.frame_colours.specs.Colours.{colours_in};
ghost use Rattle.image_check.specs.Own.{Own};
ghost use Rattle.image_check.specs.Image.{image_from};
ghost use Rattle.domain_open.specs.Placing.{AreZeroed, all_shares};

use frame_colours::{AllColours, ColourShare, Frame, Free, Held, Pool, Table};
use image_check::Checked;
use phys_mem::PhysMem;
use std::alloc::Global;
use tp_base::Memory;

/// What a frame may be used as.
pub trait Purpose: Sized {
    /// The frame with this purpose, all its words zero. No other frame changes.
    fn of(frame: Frame<Free>, memory: &mut PhysMem) -> Frame<Self>
        requires frame { frame < memory.old.frames }
        ensures frame { result ≡ frame }
        ensures zeroed { AreZeroed (result ∷ []) memory.old memory.new }
        ensures size { memory.new.frames ≡ memory.old.frames };
}

impl Purpose for Held {
    fn of(frame: Frame<Free>, memory: &mut PhysMem) -> Frame<Held> {
        frame.hold(memory)
    }
}

impl Purpose for Table {
    fn of(frame: Frame<Free>, memory: &mut PhysMem) -> Frame<Table> {
        frame.table(memory)
    }
}

/// Takes the least free frame, of which there is one.
pub fn take_one<P: Purpose>(pool: &mut Pool, memory: &mut PhysMem) -> Frame<P>
    requires some { 0 < length pool.old.free }
    requires size { pool.old.share.frames ≤ memory.old.frames }
    ensures frame { pool.old.free ≡ result ∷ pool.new.free }
    ensures share { pool.new.share ≡ pool.old.share }
    ensures zeroed { AreZeroed (result ∷ []) memory.old memory.new }
    ensures size { memory.new.frames ≡ memory.old.frames }
{
    let frame = pool.take().unwrap();
    P::of(frame, memory)
}

/// Takes the `many` least free frames, into a list that has room for them.
pub fn take_into<P: Purpose>(
    frames: &mut Vec<Frame<P>>,
    pool: &mut Pool,
    memory: &mut PhysMem,
    many: u32,
)
    requires room { vec_len frames.old + many ≤ vec_capacity frames.old }
    requires enough { many ≤ length pool.old.free }
    requires size { pool.old.share.frames ≤ memory.old.frames }
    ensures frames { frames.new.items ≡ frames.old.items ++ take many pool.old.free }
    ensures free { pool.new.free ≡ drop many pool.old.free }
    ensures share { pool.new.share ≡ pool.old.share }
    ensures room { vec_capacity frames.new ≡ vec_capacity frames.old }
    ensures zeroed { AreZeroed (take many pool.old.free) memory.old memory.new }
    ensures size { memory.new.frames ≡ memory.old.frames }
{
    for _ in 0..many {
        frames.push_reserved(take_one(pool, memory));
    }
}

// ---- shares

/// The share of each domain: the frames of the colours that it names.
///
/// # Errors
/// `Memory` where no memory is left for them; no share is left then.
pub fn shares_of(alloc: Global, image: &Checked) -> Result<Vec<ColourShare>, Memory>
    ensures shares { IfOk result (λ shares. shares.items ≡ all_shares (image_from image.now)) }
{
    image.runnable();
    let hardware = &image.public().hardware;
    let lists = colours_of(alloc, image)?;
    AllColours::new(hardware.frames, hardware.colours()).split(alloc, &lists)
}

// The colours that each domain names.
fn colours_of(alloc: Global, image: &Checked) -> Result<Vec<Vec<u8>>, Memory>
    ensures colours { IfOk result (λ lists.
        colours_in lists.items ≡ map (λ (o : Own). o.colours) (image_from image.now).owns) }
{
    image.runnable();
    let many = image.public().domains as usize;
    let mut lists = Vec::with_capacity(alloc, many)?;
    for d in 0..many {
        lists.push_reserved(Vec::from_slice(alloc, image.own(d).colours.as_slice())?);
    }
    Ok(lists)
}

/// Spends shares on nothing.
pub fn discard_all(mut shares: Vec<ColourShare>) {
    while let Some(share) = shares.pop() {
        share.discard();
    }
    shares.destroy_empty();
}
