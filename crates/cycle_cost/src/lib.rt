//! What the machine's events cost, and the charge of a cost to a clock.
#![tactic(auto)]

ghost use Rattle.std.specs.Prelude.{◌≡◌, ◌+◌, ◌^◌, ◌<◌, ◌≤◌};
ghost use Rattle.tp_base.specs.Ranges.{IsCycles};
ghost use Rattle.cycle_cost.specs.Costs.{IsCost, ChargesFit};

use tp_base::Cycles;

/// The costs of the machine's events, each 1 to 1,000 cycles.
#[derive(Clone, Copy, Debug, PartialEq, Eq)]
pub struct Costs {
    /// Each instruction.
    pub base: u32,
    /// A fetch, load or store, at the first level.
    pub l1: u32,
    /// What misses the first level, and each read of a page table entry, at the second level.
    pub l2: u32,
    /// What misses the second level.
    pub mem: u32,
    /// A dirty line that is written back.
    pub wb: u32,
    /// A look-up in the translation buffer.
    pub tlb: u32,
    /// A branch that was guessed wrongly.
    pub mispredict: u32,
    /// An operation of the kernel, beside the lines that it touches.
    pub trap: u32,
    /// A flush, beside the dirty lines that it writes back.
    pub flush: u32,
    ghost base_range: { IsCost base },
    ghost l1_range: { IsCost l1 },
    ghost l2_range: { IsCost l2 },
    ghost mem_range: { IsCost mem },
    ghost wb_range: { IsCost wb },
    ghost tlb_range: { IsCost tlb },
    ghost mispredict_range: { IsCost mispredict },
    ghost trap_range: { IsCost trap },
    ghost flush_range: { IsCost flush },
}

/// What products and divisions cost beside their instruction, each up to 1,000 cycles.
#[derive(Clone, Copy, Debug, PartialEq, Eq)]
pub struct ProductCosts {
    /// A product.
    pub mul: u32,
    /// A step of a division: there is one, and one for each binary digit of the
    /// dividend's magnitude.
    pub div: u32,
    ghost few_mul: { mul ≤ 1000 },
    ghost few_div: { div ≤ 1000 },
}

/// The most binary digits that a dividend has.
const MOST_DIGITS: u32 = 32;

impl ProductCosts {
    ghost use Rattle.std.specs.Prelude.{◌≡◌, ◌≤◌};
    ghost use Rattle.cycle_cost.specs.Costs.{division_cost, most_cost};
    ghost use Rattle.cycle_cost.specs.Models.{product_costs_of};
    ghost use Rattle.cycle_cost.specs.Ranges.{most_product};

    /// What a division costs whose dividend has so many digits, up to 32.
    pub fn division(&self, digits: u32) -> u32
        requires digits { digits ≤ 32 }
        ensures value { result ≡ division_cost (product_costs_of self.now) digits }
        ensures few { result ≤ most_product }
    {
        self.div * (1 + digits)
    }

    /// The most that an instruction costs more by them.
    pub fn most(&self) -> u32
        ensures value { result ≡ most_cost (product_costs_of self.now) }
        ensures few { result ≤ most_product }
    {
        self.mul.max(self.division(MOST_DIGITS))
    }
}

/// Adds a number of cycles to a clock.
pub fn charge(clock: &mut Cycles, cycles: u32)
    requires room { IsCycles (clock.old + cycles) }
    ensures becomes { clock.new ≡ clock.old + cycles }
{
    *clock = Cycles::new(clock.number() + u64::from(cycles));
}

/// The law that a clock below 2^62 has room for 2^30 charges.
pub fn charges_fit(clock: u64)
    requires early { clock < 2 ^ 62 }
    ensures fits { ChargesFit clock }
{
    let _ = clock;
}
