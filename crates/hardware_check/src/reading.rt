// The machine, as an image says it.
ghost use Rattle.std.specs.Prelude.{◌≡◌, true};
ghost use Rattle.cycle_cost.specs.Costs.{IsCost, AreCosts};
ghost use Rattle.cycle_cost.specs.Models.{costs_of as cost_table_of};
ghost use Rattle.image_record.specs.Numbers.{natural_of as natural_number};
ghost use Rattle.image_record.specs.Parts.{costs_model};
ghost use Rattle.image_record.specs.Models.{raw_model};
ghost use Rattle.hardware_check.specs.Hardware as spec;
ghost use Rattle.hardware_check.specs.Laws.{KeepsParts};
ghost use Rattle.hardware_check.specs.Models.{AreCaches, hardware_model};
ghost use Rattle.hardware_check.specs.Rules.{is_region};

use crate::extensions::{muldiv_of, targets_of};
use crate::hardware::{Caches, Hardware};
use cycle_cost::Costs;
use image_record::{Raw, RawCosts, natural_of};

fn cost_of(cost: i64) -> u32
    requires range { IsCost (natural_number cost) }
    ensures value { result ≡ natural_number cost }
    ensures range { IsCost result }
{
    natural_of(cost) as u32
}

#[tactic(auto, unfolding(crate::specs::Hardware::costs_of))]
fn costs_of(costs: &RawCosts) -> Costs
    requires ranges { AreCosts (spec.costs_of (costs_model costs.now)) }
    ensures value { cost_table_of result ≡ spec.costs_of (costs_model costs.now) }
{
    Costs {
        base: cost_of(costs.base),
        l1: cost_of(costs.l1),
        l2: cost_of(costs.l2),
        mem: cost_of(costs.mem),
        wb: cost_of(costs.wb),
        tlb: cost_of(costs.tlb),
        mispredict: cost_of(costs.mispredict),
        trap: cost_of(costs.trap),
        flush: cost_of(costs.flush),
    }
}

/// The machine of an image whose parts and shared region break no rule, of the
/// caches that K3 hands out.
#[tactic(auto, unfolding(crate::specs::Hardware::hardware_of))]
pub fn hardware_of(raw: &Raw, caches: Caches) -> Hardware
    requires parts { KeepsParts (raw_model raw.now) }
    requires caches { AreCaches caches (raw_model raw.now) }
    requires region { is_region raw.now.line raw.now.shared ≡ true }
    ensures value { hardware_model result ≡ spec.hardware_of (raw_model raw.now) }
{
    Hardware {
        frames: natural_of(raw.frames) as u32,
        shared: natural_of(raw.shared) as u32,
        line: natural_of(raw.line) as u32,
        l1i: caches.l1i,
        l1d: caches.l1d,
        l2: caches.l2,
        back: raw.back,
        tlb: caches.tlb,
        predictor: natural_of(raw.predictor) as u32,
        history: natural_of(raw.history) as u32,
        costs: costs_of(&raw.costs),
        muldiv: muldiv_of(raw.muldiv),
        targets: targets_of(raw.targets),
    }
}
