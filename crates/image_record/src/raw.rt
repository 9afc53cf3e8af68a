// The record of an image, as its text says it: numbers of any size, where the
// key table names no range.
ghost use Rattle.std.specs.Prelude.{map};
ghost use Rattle.image_record.specs.Record.{AreInKeyRanges};
ghost use Rattle.image_record.specs.Parts.{domain_model};

/// A cache, or the translation buffer.
#[derive(Drop)]
pub struct RawCache {
    /// How many sets.
    pub sets: i64,
    /// How many ways each set has.
    pub ways: i64,
    /// The name of its replacement policy.
    pub policy: String,
}

/// Costs in cycles.
#[derive(Clone, Copy, Debug, PartialEq, Eq)]
pub struct RawCosts {
    /// Of each instruction.
    pub base: i64,
    /// Of a touch of a first-level cache.
    pub l1: i64,
    /// Of a touch of the second-level cache.
    pub l2: i64,
    /// Of a touch of memory.
    pub mem: i64,
    /// Of a line that is written back.
    pub wb: i64,
    /// Of a look into the translation buffer.
    pub tlb: i64,
    /// Of a branch that was predicted wrongly.
    pub mispredict: i64,
    /// Of an entry into the kernel, and of a return from it.
    pub trap: i64,
    /// Of the flush at a switch, before the lines that it writes back.
    pub flush: i64,
}

/// What products and divisions cost beside their instruction, in cycles.
#[derive(Clone, Copy, Debug, PartialEq, Eq)]
pub struct RawMuldiv {
    /// A product.
    pub mul: i64,
    /// A step of a division: there is one, and one for each binary digit of the
    /// dividend's magnitude.
    pub div: i64,
}

/// Pages of a domain's address space, one after the other.
#[derive(Drop)]
pub struct RawSegment {
    /// The first page's number, 0 to 1,048,575.
    pub page: u32,
    /// How many there are, 1 to 64.
    pub pages: u32,
    /// The letters of its rights, as they are written.
    pub rights: String,
    /// Its first bytes, as they are written.
    pub hex: String,
}

/// An interrupt of a line, at a cycle.
#[derive(Clone, Copy, Debug, PartialEq, Eq)]
pub struct RawMoment {
    /// The cycle.
    pub at: i64,
    /// The line's number.
    pub line: i64,
}

/// What an image says of a domain.
#[derive(Drop)]
pub struct RawDomain {
    pub name: String,
    /// The colours of its frames.
    pub colours: Vec<i64>,
    /// The address at which it begins.
    pub entry: u32,
    /// At most 16 of them.
    pub segments: Vec<RawSegment>,
    /// Its capabilities, as they are written.
    pub caps: Vec<String>,
    /// The interrupt lines that it has.
    pub lines: Vec<i64>,
    /// When its lines interrupt it.
    pub moments: Vec<RawMoment>,
    /// The numbers of the calls that it may make; None where the image says none:
    /// every call.
    pub calls: Option<Vec<i64>>,
}

/// A slot of a domain, and the pad of the switch that ends it, in cycles.
#[derive(Clone, Copy, Debug, PartialEq, Eq)]
pub struct RawEntry {
    /// The domain's number, from 0.
    pub domain: i64,
    /// Cycles.
    pub length: i64,
    /// Cycles.
    pub pad: i64,
    /// The number of the hart on which it runs, from 0; 0 where the image says none.
    pub hart: i64,
}

/// A box of words, one way from a domain to another.
#[derive(Clone, Copy, Debug, PartialEq, Eq)]
pub struct RawMailbox {
    /// The number of the domain that puts words in, from 0.
    pub from: i64,
    /// The number of the domain that takes them, from 0.
    pub to: i64,
}

/// The record of an image that breaks no row of the key table: its numbers and
/// lists are in the ranges of their keys.
#[derive(Drop)]
pub struct Raw {
    /// Of the format: 1, also where the image says none, or 2.
    pub version: u8,
    /// Of 4,096 bytes.
    pub frames: i64,
    /// Bytes that all domains share.
    pub shared: i64,
    /// Bytes of a cache's line.
    pub line: i64,
    pub l1i: RawCache,
    pub l1d: RawCache,
    pub l2: RawCache,
    /// Whether dirty lines are written back into the second level, else past it;
    /// false where the image doesn't say.
    pub back: bool,
    pub tlb: RawCache,
    /// Counters.
    pub predictor: i64,
    /// Outcomes of branches that the predictor's index takes in; 0 where the
    /// image says none.
    pub history: i64,
    pub costs: RawCosts,
    /// None where the machine has no products and divisions (RV32M).
    pub muldiv: Option<RawMuldiv>,
    /// Places of the target buffer; None where there is no such buffer.
    pub targets: Option<i64>,
    pub domains: Vec<RawDomain>,
    pub schedule: Vec<RawEntry>,
    /// None where the image says none.
    pub mail: Vec<RawMailbox>,
    pub ghost in_ranges: { AreInKeyRanges (map domain_model domains.items) },
}
