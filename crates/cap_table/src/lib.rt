//! The 64 capability slots of a domain. A capability names a page, a page
//! table or an interrupt line, and the slots own the frames that they name:
//! a frame comes back exactly with the last capability that names it.
//!
//! specs/Slots.antt has what each change makes of the slots; `laws` tells what
//! follows from it.
#![tactic(auto)]

mod caps;
pub mod laws;
mod table;
mod tally;

use frame_colours::{Frame, Held, Table};
pub use table::{CapTable, SLOTS};
use tp_base::{FrameNo, Rights};

/// What a slot names.
#[derive(Clone, Copy, Debug, PartialEq, Eq)]
pub enum Cap {
    /// A page.
    Frame {
        /// Its frame.
        frame: FrameNo,
        /// What it may be used for.
        rights: Rights,
        /// The address at which it is mapped through this capability.
        mapped: Option<u32>,
    },
    /// A page table.
    Table {
        /// Its frame.
        frame: FrameNo,
        /// The address at which it is installed.
        installed: Option<u32>,
    },
    /// An interrupt line.
    Irq {
        /// Its number, below 32.
        line: u8,
    },
}

/// What a slot is given to name, and to own.
#[derive(Drop)]
pub enum Given {
    /// A page, and its rights.
    Page(Frame<Held>, Rights),
    /// A page table.
    Table(Frame<Table>),
    /// An interrupt line, below 32.
    Irq(u8),
}

/// What a slot named that was emptied, and the frame that no slot owns any more.
#[derive(Drop)]
pub struct Gone {
    /// The address at which its page was mapped.
    pub unmapped: Option<u32>,
    /// The address at which its table was installed.
    pub uninstalled: Option<u32>,
    /// Its page, where no other slot names it.
    pub held: Option<Frame<Held>>,
    /// Its table.
    pub table: Option<Frame<Table>>,
}

/// The slots that a revocation emptied.
#[derive(Debug, Drop, PartialEq, Eq)]
pub struct Revoked {
    /// How many they were, at most 63.
    pub count: u32,
    /// How many addresses follow, at most `count`.
    pub written: u32,
    /// In the first `written` places the addresses at which they were mapped, in
    /// the order of the slots.
    pub entries: [u32; 64],
}
