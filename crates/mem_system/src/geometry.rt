// The sizes and policies of all that is cached.
use branch_pred::Sizes;
use set_cache::Policy;

/// The sizes of a cache, and its policy.
#[derive(Drop)]
pub struct CacheGeometry<P: Policy> {
    /// What decides the line that is given up.
    pub policy: P,
    /// The number of sets, a power of two.
    pub sets: u32,
    /// The number of ways of each set.
    pub ways: u32,
}

/// The sizes and policies of a memory hierarchy.
#[derive(Drop)]
pub struct Geometry<P: Policy> {
    /// The bytes of a line: a power of two from 16 on.
    pub line_size: u32,
    /// Whether the dirty lines that leave the first level are written back into
    /// the second, where that holds them; else all go past it to memory.
    pub back: bool,
    /// The predictor's sizes.
    pub predictor: Sizes,
    /// The first level of instructions.
    pub l1i: CacheGeometry<P>,
    /// The first level of data.
    pub l1d: CacheGeometry<P>,
    /// The second level, of 1 to 64 whole colours.
    pub l2: CacheGeometry<P>,
    /// The translation buffer.
    pub tlb: CacheGeometry<P>,
}
