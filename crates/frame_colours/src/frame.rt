// A frame that is owned, with what it is used as in its type.
ghost use Rattle.std.specs.Prelude.{◌≡◌, ◌≢◌, ℕ};

use std::marker::{Model, PhantomData};
use tp_base::{FrameNo, Zero};

/// The state of a frame that is used as nothing.
#[derive(Drop)]
pub struct Free;

/// The state of a frame that is used as a page.
#[derive(Drop)]
pub struct Held;

/// The state of a frame that is used as a page table.
#[derive(Drop)]
pub struct Table;

/// A frame of memory that is owned, in the state `Free`, `Held` or `Table`.
/// None is made but by a pool, and none can be copied.
#[derive(Drop)]
pub struct Frame<S> {
    number: FrameNo,
    state: PhantomData<S>,
}

impl<S> Model for Frame<S> {
    ghost use Rattle.std.specs.Prelude.{ℕ};

    ghost Value = { ℕ };

    ghost view = { λ f. f.number };
}

impl<S> Frame<S> {
    /// Its number.
    pub fn number(&self) -> FrameNo
        ensures number { result ≡ self.now }
    {
        self.number
    }

    pub(crate) fn of(number: FrameNo) -> Self
        ensures number { result ≡ number }
    {
        Frame {
            number,
            state: PhantomData,
        }
    }
}

impl Frame<Free> {
    /// The frame as a page, with all its words zero.
    pub fn hold<Z: Zero>(self, memory: &mut Z) -> Frame<Held>
        requires there { Z.has_frame memory.old self }
        ensures frame { result ≡ self }
        ensures memory { memory.new ≡ Z.zeroed memory.old self }
        ensures zero { (i : ℕ) → Z.word memory.new self i ≡ 0 }
        ensures others { (f i : ℕ) → f ≢ self → Z.word memory.new f i ≡ Z.word memory.old f i }
        ensures frames { (f : ℕ) → Z.has_frame memory.old f → Z.has_frame memory.new f }
    {
        let page = Frame::of(self.number);
        memory.zero_frame(page.number);
        page
    }

    /// The frame as a page table, with all its words zero.
    pub fn table<Z: Zero>(self, memory: &mut Z) -> Frame<Table>
        requires there { Z.has_frame memory.old self }
        ensures frame { result ≡ self }
        ensures memory { memory.new ≡ Z.zeroed memory.old self }
        ensures zero { (i : ℕ) → Z.word memory.new self i ≡ 0 }
        ensures others { (f i : ℕ) → f ≢ self → Z.word memory.new f i ≡ Z.word memory.old f i }
        ensures frames { (f : ℕ) → Z.has_frame memory.old f → Z.has_frame memory.new f }
    {
        let table = Frame::of(self.number);
        memory.zero_frame(table.number);
        table
    }
}

impl Frame<Held> {
    /// The frame, no longer a page.
    pub fn release(self) -> Frame<Free>
        ensures same { result ≡ self }
    {
        Frame::of(self.number)
    }
}

impl Frame<Table> {
    /// The frame, no longer a page table.
    pub fn release(self) -> Frame<Free>
        ensures same { result ≡ self }
    {
        Frame::of(self.number)
    }
}
