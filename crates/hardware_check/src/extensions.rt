// Products and divisions, and the target buffer: what an image says of them, and
// their rule.
ghost use Rattle.std.specs.Prelude.{◌≡◌, ◌≤◌, option_map};
ghost use Rattle.cycle_cost.specs.Models.{product_costs_of};
ghost use Rattle.image_record.specs.Parts.{muldiv_model};
ghost use Rattle.image_record.specs.Models.{raw_model};
ghost use Rattle.hardware_check.specs.Extensions as spec;
ghost use Rattle.hardware_check.specs.Hardware.{cost_or_none as spec_cost_or_none};
ghost use Rattle.hardware_check.specs.Hardware.{products_of as spec_products_of};
ghost use Rattle.hardware_check.specs.Hardware.{places_of as spec_places_of};
ghost use Rattle.hardware_check.specs.Hardware.{targets_of as spec_targets_of};
ghost use Rattle.image_record.specs.Outcomes.{IsVerdict};

use crate::numbers::is_size;
use cycle_cost::ProductCosts;
use image_record::cases::{outside, refusal};
use image_record::{Raw, RawMuldiv, Refusal, natural_of};

fn cost_or_none(cost: i64) -> u32
    ensures value { result ≡ spec_cost_or_none cost }
    ensures few { result ≤ 1000 }
{
    if outside(1, 1000, cost) {
        return 0;
    }
    natural_of(cost) as u32
}

#[tactic(auto, unfolding(crate::specs::Hardware::products_of))]
fn products_of(said: RawMuldiv) -> ProductCosts
    ensures value { product_costs_of result ≡ spec_products_of (muldiv_model said) }
{
    ProductCosts {
        mul: cost_or_none(said.mul),
        div: cost_or_none(said.div),
    }
}

/// What products and divisions cost, in cycles; a cost that isn't 1 to 1,000
/// counts as 0.
pub fn muldiv_of(said: Option<RawMuldiv>) -> Option<ProductCosts>
    ensures value { option_map product_costs_of result
        ≡ option_map spec_products_of (option_map muldiv_model said) }
{
    match said {
        Some(said) => Some(products_of(said)),
        None => None,
    }
}

fn places_of(said: i64) -> u32
    ensures value { result ≡ spec_places_of said }
{
    if !is_size(1, 256, said) {
        return 0;
    }
    natural_of(said) as u32
}

/// The places of the target buffer; 0 where there is none, or no power of two
/// from 1 to 256.
pub fn targets_of(said: Option<i64>) -> u32
    ensures value { result ≡ spec_targets_of said }
{
    match said {
        Some(said) => places_of(said),
        None => 0,
    }
}

fn product_case(case: u8, cost: i64) -> Result<(), Refusal>
    ensures verdict { IsVerdict result (spec.product_case case cost) }
{
    if outside(1, 1000, cost) {
        return Err(refusal(22, i64::from(case), cost, 1000));
    }
    Ok(())
}

fn muldiv_case(said: Option<RawMuldiv>) -> Result<(), Refusal>
    ensures verdict { IsVerdict result (spec.muldiv_case (option_map muldiv_model said)) }
{
    let Some(costs) = said else {
        return Ok(());
    };
    product_case(1, costs.mul)?;
    product_case(2, costs.div)
}

fn targets_case(said: Option<i64>) -> Result<(), Refusal>
    ensures verdict { IsVerdict result (spec.targets_case said) }
{
    let Some(places) = said else {
        return Ok(());
    };
    if !is_size(1, 256, places) {
        return Err(refusal(22, 3, places, 256));
    }
    Ok(())
}

/// K22: a product, and a step of a division, cost 1 to 1,000 cycles; the target
/// buffer has a power of two of places, up to 256.
#[tactic(auto, unfolding(crate::specs::Extensions::k22))]
pub fn k22(raw: &Raw) -> Result<(), Refusal>
    ensures verdict { IsVerdict result (spec.k22 (raw_model raw.now)) }
{
    muldiv_case(raw.muldiv)?;
    targets_case(raw.targets)
}
