//! Which physical lines a kernel operation touches: its footprint.
#![tactic(auto)]

ghost use Rattle.std.specs.Prelude.{◌≡◌};
ghost use Rattle.kernel_clone.specs.Footprints.{IsLayout};
ghost use Rattle.kernel_clone.specs.Footprints as spec;
ghost use Rattle.kernel_clone.specs.Models.{layout_model, work_model, IsWork};

mod footprint;
mod laws;
mod layout;
mod operation;

pub use footprint::{
    STACK_LINES, TEXT_LINES, Touches, data_count, data_start, entry_line, loaded_line, own_count,
    own_touch, shared_count, stack_start, text_start,
};
pub use laws::{counts, entries_lie_in_their_frames, lines, permissions, places};
pub use operation::{
    BAD_CALL, CALLS_END, Call, DELIVERY, ENTER, EVERY_CALL, LEAVE, has_call, is_call, is_mail,
    without_mail,
};
use tp_base::FrameNo;

/// How a line is touched.
#[derive(Clone, Copy, Debug, PartialEq, Eq)]
pub enum Kind {
    Fetch,
    Load,
    Store,
}

/// A domain's kernel clone, in frames of its own, and the region that all clones share.
#[derive(Clone, Copy)]
pub struct CloneLayout {
    /// Its text, in this order.
    pub text: [FrameNo; 2],
    pub stack: FrameNo,
    pub data: FrameNo,
    /// Bytes of a line: a power of two from 16 to 128.
    pub line: u32,
    /// Bytes of the shared region: whole lines, one at least, 65,536 bytes at most.
    pub shared: u32,
    /// The number of page colours, 2 to 64; the shared region's frames have colour 0.
    pub colours: u32,
}

/// What an operation did.
#[derive(Clone, Copy)]
pub struct Work {
    /// Its number: a call's, or one of the others.
    pub op: u8,
    /// The frame that it zeroed, below 32,768.
    pub zeroed: Option<u32>,
    /// How many page table entries it wrote, up to 64.
    pub count: u32,
    /// Their physical addresses, each below 2^27, in the order of the writes; past
    /// the count anything may stand.
    pub entries: [u32; 64],
}

/// What an operation that did this work touches, in its order: of its domain's
/// clone, of the shared region, and of the frames that it wrote.
pub fn touches<'a>(op: u8, layout: &'a CloneLayout, work: &'a Work) -> Touches<'a>
    requires layout { IsLayout (layout_model layout.now) }
    requires work { IsWork work.now }
    requires same { op ≡ work.now.op }
    ensures touches { result ≡ spec.touches (layout_model layout.now) (work_model work.now) }
{
    Touches::new(op, layout, work)
}
