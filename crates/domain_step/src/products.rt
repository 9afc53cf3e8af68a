// Products and divisions, with their time. They stand apart from the other
// instructions, and are handed no instruction: else every one would pay for it.
ghost use Rattle.std.specs.Prelude.{◌≡◌, ℕ, ◌+◌, ◌^◌, ◌<◌, ◌≤◌, true, option_map};
ghost use Rattle.cycle_cost.specs.Models.{product_costs_of};
ghost use Rattle.cycle_cost.specs.Ranges.{most_product};
ghost use Rattle.phys_mem.specs.Contents.{Contents};
ghost use Rattle.rv_core.specs.Products.{digits_of, dividend_of};
ghost use Rattle.rv_decode.specs.declared.Instr.TheVariants.{Multiply, Divide};
ghost use Rattle.l2_colour.specs.Contents.{L2Contents};
ghost use Rattle.mem_system.specs.Contents.{system};
ghost use Rattle.world_view.specs.Event as event;
ghost use Rattle.world_view.specs.Machine.{Setting};
ghost use Rattle.domain_step.specs.Stands.{HasRoom, Grows, KeepsFrames, GoesOn};
ghost use Rattle.domain_step.specs.Kept.{Kept};
ghost use Rattle.domain_step.specs.Moves.{Leaves};

use crate::instruction::retire;
use cycle_cost::ProductCosts;
use kernel_call::Domain;
use mem_system::OnCore;
use rv_core::division_digits;
use rv_decode::{Division, Product};
use set_cache::Policy;

fn product_time(products: Option<ProductCosts>) -> u32
    ensures value { result ≡ event.product_time (option_map product_costs_of products) }
    ensures few { result ≤ most_product }
{
    match products {
        Some(costs) => costs.mul,
        None => 0,
    }
}

fn division_time(products: Option<ProductCosts>, division: Division, dividend: u32) -> u32
    ensures value { result ≡ event.division_time (option_map product_costs_of products)
        (digits_of (dividend_of division dividend)) }
    ensures few { result ≤ most_product }
{
    match products {
        Some(costs) => costs.division(division_digits(division, dividend)),
        None => 0,
    }
}

/// A product of two registers. Answers the cycles spent then, of which so many were before.
#[inline(never)]
pub fn multiply<P: Policy>(
    core: &OnCore<P>,
    domain: &mut Domain,
    spent: u32,
    product: Product,
    rd: u8,
    rs1: u8,
    rs2: u8,
) -> u32
    requires rd { rd < 32 }
    requires rs1 { rs1 < 32 }
    requires rs2 { rs2 < 32 }
    requires room { HasRoom domain.old }
    requires spent { spent < 2 ^ 31 }
    ensures leaves { (w : Setting) (l2 : L2Contents P) (memory : Contents) (root now : ℕ)
        → Leaves w (λ d. event.timed w.machine root now d (Multiply product rd rs1 rs2))
        domain.old (Kept P.rule P.stands_for w domain.old.caps root memory (system core.now l2) spent)
        domain.new (Kept P.rule P.stands_for w domain.old.caps root memory (system core.now l2) result) }
    ensures grows { Grows 1 1 0 domain.old domain.new }
    ensures keeps { KeepsFrames domain.old domain.new }
    ensures goes_on { GoesOn domain.old domain.new }
    ensures few { result ≤ spent + most_product }
{
    let after = spent + product_time(core.products());
    let next = domain.threads.active.pc.wrapping_add(4);
    rv_core::multiply(&mut domain.threads.active.regs, product, rd, rs1, rs2);
    retire(domain, next);
    after
}

/// A quotient or a remainder of two registers. Answers the cycles spent then, of
/// which so many were before.
#[inline(never)]
pub fn divide<P: Policy>(
    core: &OnCore<P>,
    domain: &mut Domain,
    spent: u32,
    division: Division,
    rd: u8,
    rs1: u8,
    rs2: u8,
) -> u32
    requires rd { rd < 32 }
    requires rs1 { rs1 < 32 }
    requires rs2 { rs2 < 32 }
    requires room { HasRoom domain.old }
    requires spent { spent < 2 ^ 31 }
    ensures leaves { (w : Setting) (l2 : L2Contents P) (memory : Contents) (root now : ℕ)
        → Leaves w (λ d. event.timed w.machine root now d (Divide division rd rs1 rs2))
        domain.old (Kept P.rule P.stands_for w domain.old.caps root memory (system core.now l2) spent)
        domain.new (Kept P.rule P.stands_for w domain.old.caps root memory (system core.now l2) result) }
    ensures grows { Grows 1 1 0 domain.old domain.new }
    ensures keeps { KeepsFrames domain.old domain.new }
    ensures goes_on { GoesOn domain.old domain.new }
    ensures few { result ≤ spent + most_product }
{
    let dividend = domain.threads.active.regs.get(rs1);
    let after = spent + division_time(core.products(), division, dividend);
    let next = domain.threads.active.pc.wrapping_add(4);
    rv_core::divide(&mut domain.threads.active.regs, division, rd, rs1, rs2);
    retire(domain, next);
    after
}
