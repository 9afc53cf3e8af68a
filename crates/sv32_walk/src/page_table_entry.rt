// A page table entry, how a walk ends at it, and the words that the kernel writes.
ghost use Rattle.std.specs.Prelude.{◌≡◌, ◌+◌, ◌*◌, ◌^◌, ◌<◌, ◌≤◌, true, IfOk, IfSome};
ghost use Rattle.tp_base.specs.Rights.{are_good};
ghost use Rattle.sv32_walk.specs.PageTableEntry.{bit, valid, ppn, ppn_0, ppn_1, with_ppn, vpn_0, is_reserved, is_leaf, is_pointer, has_right, is_marked, permits, table_word, leaf_word};
ghost use Rattle.sv32_walk.specs.Walk.{leaf, superpage, first_level, last_level};

use crate::{Access, WalkFault};
use tp_base::{FrameNo, Rights};

/// A page table entry (RISC-V privileged specification, Sv32, "Addressing and
/// Memory Protection"), by its word of 32 bits.
#[derive(Clone, Copy, Debug, PartialEq, Eq)]
pub struct PageTableEntry(pub u32);

// The places of its bits.
const VALID: u32 = 0;

const READ: u32 = 1;

const WRITE: u32 = 2;

const EXECUTE: u32 = 3;

const USER: u32 = 4;

const ACCESSED: u32 = 6;

const DIRTY: u32 = 7;

/// The word of an entry that points to the table in a frame: V is set alone.
#[tactic(auto, unfolding(crate::specs::PageTableEntry::table_word))]
pub fn table_word(frame: FrameNo) -> u32
    ensures value { result ≡ table_word frame }
{
    (frame.number() << 10) + (1 << VALID)
}

/// The word of a leaf whose page lies in a frame, with rights that a page may have:
/// 1, 3, 4, 5 or 7. V, U and A are set, and D exactly where the page may be
/// written: so no walk has to set a bit.
#[tactic(auto, unfolding(crate::specs::PageTableEntry::leaf_word, crate::specs::PageTableEntry::leaf_bits))]
pub fn leaf_word(frame: FrameNo, rights: Rights) -> u32
    requires good { are_good rights ≡ true }
    ensures value { result ≡ leaf_word frame rights }
{
    let rights = u32::from(rights.number());
    let dirty = (rights & 2) << 6;
    let always = (1 << VALID) + (1 << USER) + (1 << ACCESSED);
    (frame.number() << 10) + always + (rights << READ) + dirty
}

impl PageTableEntry {
    /// Whether V is set.
    pub fn is_valid(self) -> bool
        ensures value { result ≡ valid self.0 }
    {
        self.bit(VALID)
    }

    /// The number of the frame that it names, below 2^22: PPN[1] and PPN[0].
    #[tactic(auto, unfolding(crate::specs::PageTableEntry::ppn))]
    pub fn frame(self) -> u32
        ensures value { result ≡ ppn self.0 }
        ensures range { result < 2 ^ 22 }
    {
        self.0 >> 10
    }

    /// Whether a leaf permits an access from user mode: U, the bit of its right
    /// (X for a fetch, R for a load, W for a store), A, and D for a store are
    /// set. Of a leaf that a walk found this is all that a walk of another
    /// access to the same page asks.
    pub fn permits(self, access: Access) -> bool
        ensures value { result ≡ permits access self.0 }
    {
        self.bit(USER) && self.has_right(access) && self.is_marked(access)
    }

    // The end of a walk at a first-level entry; None where it points to a table.
    // `frames` is the size of memory.
    #[tactic(auto, unfolding(crate::specs::Walk::first_level))]
    pub(crate) fn first_level(
        self,
        va: u32,
        access: Access,
        frames: u32,
    ) -> Option<Result<u32, WalkFault>>
        ensures value { result ≡ first_level frames va access self.0 }
        ensures page { IfSome result (λ end. IfOk end (λ leaf. ppn leaf < frames)) }
    {
        if self.is_reserved() {
            return Some(Err(WalkFault::Page));
        }
        if self.is_leaf() {
            return Some(self.superpage(va, access, frames));
        }
        if self.is_pointer() {
            return None;
        }
        Some(Err(WalkFault::Page))
    }

    // The end of a walk at a last-level entry.
    #[tactic(auto, unfolding(crate::specs::Walk::last_level))]
    pub(crate) fn last_level(self, access: Access, frames: u32) -> Result<u32, WalkFault>
        ensures value { result ≡ last_level frames access self.0 }
        ensures page { IfOk result (λ leaf. ppn leaf < frames) }
    {
        if self.is_reserved() || !self.is_leaf() {
            return Err(WalkFault::Page);
        }
        self.leaf(access, self.frame(), frames)
    }

    #[tactic(auto, unfolding(crate::specs::Walk::superpage))]
    fn superpage(self, va: u32, access: Access, frames: u32) -> Result<u32, WalkFault>
        ensures value { result ≡ superpage frames va access self.0 }
        ensures page { IfOk result (λ leaf. ppn leaf < frames) }
    {
        if self.low_frame() != 0 {
            return Err(WalkFault::Page);
        }
        self.leaf(access, self.frame_within(va), frames)
    }

    #[tactic(auto, unfolding(crate::specs::Walk::leaf))]
    fn leaf(self, access: Access, frame: u32, frames: u32) -> Result<u32, WalkFault>
        requires range { frame < 2 ^ 22 }
        ensures value { result ≡ leaf frames access self.0 frame }
        ensures page { IfOk result (λ leaf. ppn leaf < frames) }
    {
        if !self.permits(access) {
            return Err(WalkFault::Page);
        }
        if frame >= frames {
            return Err(WalkFault::Access);
        }
        Ok(self.with_frame(frame))
    }

    fn is_reserved(self) -> bool
        ensures value { result ≡ is_reserved self.0 }
    {
        !self.bit(VALID) || (!self.bit(READ) && self.bit(WRITE))
    }

    fn is_leaf(self) -> bool
        ensures value { result ≡ is_leaf self.0 }
    {
        self.bit(READ) || self.bit(EXECUTE)
    }

    fn is_pointer(self) -> bool
        ensures value { result ≡ is_pointer self.0 }
    {
        !(self.bit(ACCESSED) || self.bit(DIRTY) || self.bit(USER))
    }

    fn has_right(self, access: Access) -> bool
        ensures value { result ≡ has_right access self.0 }
    {
        match access {
            Access::Fetch => self.bit(EXECUTE),
            Access::Load => self.bit(READ),
            Access::Store => self.bit(WRITE),
        }
    }

    fn is_marked(self, access: Access) -> bool
        ensures value { result ≡ is_marked access self.0 }
    {
        match access {
            Access::Fetch | Access::Load => self.bit(ACCESSED),
            Access::Store => self.bit(ACCESSED) && self.bit(DIRTY),
        }
    }

    #[tactic(auto, unfolding(crate::specs::PageTableEntry::bit))]
    fn bit(self, place: u32) -> bool
        requires place { place < 32 }
        ensures value { result ≡ bit self.0 place }
    {
        (self.0 >> place) & 1 == 1
    }

    // PPN[0].
    #[tactic(auto, unfolding(crate::specs::PageTableEntry::ppn_0))]
    fn low_frame(self) -> u32
        ensures value { result ≡ ppn_0 self.0 }
    {
        (self.0 >> 10) & 0x3ff
    }

    // The frame for an address in a page of 4 MiB.
    #[tactic(auto, unfolding(crate::specs::PageTableEntry::ppn_1, crate::specs::PageTableEntry::vpn_0))]
    fn frame_within(self, va: u32) -> u32
        ensures value { result ≡ ppn_1 self.0 * 2 ^ 10 + vpn_0 va }
        ensures range { result < 2 ^ 22 }
    {
        ((self.0 >> 20) << 10) + ((va >> 12) & 0x3ff)
    }

    #[tactic(auto, unfolding(crate::specs::PageTableEntry::with_ppn, crate::specs::PageTableEntry::ppn))]
    fn with_frame(self, frame: u32) -> u32
        requires range { frame < 2 ^ 22 }
        ensures value { result ≡ with_ppn self.0 frame }
        ensures frame { ppn result ≡ frame }
    {
        (frame << 10) + (self.0 & 0x3ff)
    }
}
