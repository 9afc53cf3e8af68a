// The machine: its sizes, policies and costs.
ghost use Rattle.std.specs.Prelude.{◌*◌, ◌/◌, ◌≤◌};

use cycle_cost::{Costs, ProductCosts};

/// Which way of a full set gives up its line.
#[derive(Clone, Copy, Debug, PartialEq, Eq)]
pub enum Policy {
    /// The least recently used.
    Lru,
    /// The first in.
    Fifo,
    /// That to which a binary tree points; the ways are a power of two.
    Plru,
    /// The least without a mark, which each gets as it is used, until all have one.
    Nmru,
}

/// A cache, or the translation buffer, in the ranges of an image that breaks no
/// rule.
#[derive(Clone, Copy, Debug, PartialEq, Eq)]
pub struct CacheShape {
    /// A power of two.
    pub sets: u32,
    /// 1 to 16.
    pub ways: u32,
    pub policy: Policy,
}

/// The caches and the translation buffer of a machine.
#[derive(Clone, Copy, Debug, PartialEq, Eq)]
pub struct Caches {
    pub l1i: CacheShape,
    pub l1d: CacheShape,
    pub l2: CacheShape,
    pub tlb: CacheShape,
}

/// What all domains share of the machine. The ranges are those of an image that
/// breaks no rule.
#[derive(Clone, Copy, Debug, PartialEq, Eq)]
pub struct Hardware {
    /// Frames of 4,096 bytes: 64 to 16,384.
    pub frames: u32,
    /// Bytes of the kernel's shared region: whole lines, up to 65,536.
    pub shared: u32,
    /// Bytes of a cache's line: a power of two from 16 to 128.
    pub line: u32,
    pub l1i: CacheShape,
    pub l1d: CacheShape,
    pub l2: CacheShape,
    /// Whether dirty lines are written back into the second level, else past it.
    pub back: bool,
    /// The translation buffer.
    pub tlb: CacheShape,
    /// The predictor's counters: a power of two up to 4,096.
    pub predictor: u32,
    /// Outcomes of branches that the predictor's index takes in: 0 to 8.
    pub history: u32,
    pub costs: Costs,
    /// None where products and divisions (RV32M) are no instructions.
    pub muldiv: Option<ProductCosts>,
    /// Places of the target buffer: a power of two up to 256; 0 where there is no
    /// such buffer.
    pub targets: u32,
    pub ghost few_colours: { l2.sets * line / 4096 ≤ 64 },
}

impl Hardware {
    ghost use Rattle.std.specs.Prelude.{◌≡◌, ◌≤◌, ◌^◌};
    ghost use Rattle.hardware_check.specs.Hardware as spec;
    ghost use Rattle.hardware_check.specs.Models.{hardware_model};

    /// The number of page colours: 2 to 64.
    pub fn colours(&self) -> u32
        ensures value { result ≡ spec.colours_of (hardware_model self.now) }
        ensures few { result ≤ 64 }
    {
        (u64::from(self.l2.sets) * u64::from(self.line) / 4096) as u32
    }

    /// The frames of the shared region.
    pub fn shared_frames(&self) -> u32
        ensures value { result ≡ spec.shared_frames (hardware_model self.now) }
        ensures few { result ≤ 2 ^ 20 }
    {
        ((u64::from(self.shared) + 4095) / 4096) as u32
    }

    /// The number of the last of them.
    pub fn last_shared_frame(&self) -> u32
        ensures value { result ≡ spec.last_shared_frame (hardware_model self.now) }
    {
        self.shared_frames().saturating_sub(1) * self.colours()
    }
}
