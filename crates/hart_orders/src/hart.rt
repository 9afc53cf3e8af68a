// What a hart has to itself.
use mem_system::OnCore;
use repl_policy::AnyPolicy;

/// The slot that a hart is in.
#[derive(Clone, Copy)]
pub struct Slot {
    pub domain: u8,
    /// When it ends, in cycles.
    pub end: u64,
}

/// A hart between two events.
#[derive(Drop)]
pub struct Hart {
    pub core: OnCore<AnyPolicy>,
    /// In cycles.
    pub clock: u64,
    /// How many of its slots have ended.
    pub slots: u32,
    /// None before its boot, and between two slots.
    pub slot: Option<Slot>,
    /// When the slot that it is in ends, or the last one ended, in cycles.
    pub ended: u64,
}
