// The rule of pads: none is below the bound on its switch, by the calls of the domain that leaves.
ghost use Rattle.std.specs.Prelude.{◌≡◌, ◌<◌, ◌≤◌, ◌^◌, false, not, [], length, map, slice_index_or, option_map};
ghost use Rattle.std.specs.List.{All};
ghost use Rattle.cycle_cost.specs.Models.{product_costs_of};
ghost use Rattle.image_record.specs.Models.{raw_model};
ghost use Rattle.image_record.specs.Parts.{entry_model};
ghost use Rattle.kernel_clone.specs.Permissions.{every_call};
ghost use Rattle.pad_bound.specs.Bound.{IsShape, bound_of, with_calls};
ghost use Rattle.pad_bound.specs.Models.{shape_model};
ghost use Rattle.image_record.specs.Cases as cases;
ghost use Rattle.image_record.specs.Numbers.{natural_of as spec_natural_of};
ghost use Rattle.hardware_check.specs.Hardware.{hardware_of};
ghost use Rattle.hardware_check.specs.Models.{hardware_model};
ghost use Rattle.image_record.specs.Outcomes.{IsVerdict};
ghost use Rattle.domain_check.specs.Calls.{own_calls};
ghost use Rattle.image_check.specs.Checking.{broken_before_pads};
ghost use Rattle.schedule_check.specs.Schedule.{is_number};
ghost use Rattle.image_check.specs.Pads as spec;

use cycle_cost::ProductCosts;
use hardware_check::Hardware;
use image_record::cases::refusal;
use image_record::{Raw, RawEntry, Refusal, natural_of};
use kernel_clone::EVERY_CALL;
use pad_bound::{Shape, bound_from, most_written};

/// The most that a product or a division adds to an instruction, in cycles.
fn most_added(muldiv: Option<ProductCosts>) -> u32
    ensures value { result ≡ spec.most_added (option_map product_costs_of muldiv) }
{
    match muldiv {
        Some(costs) => costs.most(),
        None => 0,
    }
}

/// What a miss of the second level costs again, in cycles: one more write-back, if
/// lines are written back into it.
fn again_of(hardware: &Hardware) -> u32
    ensures value { result ≡ spec.again_of (hardware_model hardware.now) }
{
    if hardware.back { hardware.costs.wb } else { 0 }
}

/// What of a machine the bound on a switch depends on, where a domain leaves that
/// may make these calls, a bit each.
pub fn shape_for(hardware: &Hardware, calls: u32) -> Shape
    requires line { 16 ≤ hardware.now.line }
    ensures value { shape_model result ≡ spec.shape_for (hardware_model hardware.now) calls }
{
    Shape {
        costs: hardware.costs,
        line: hardware.line,
        shared: hardware.shared,
        sets: hardware.l1d.sets,
        ways: hardware.l1d.ways,
        written: most_written(calls, hardware.line),
        again: again_of(hardware),
        product: most_added(hardware.muldiv),
    }
}

/// The same, where the domain may make every call.
#[tactic(auto, unfolding(kernel_clone::specs::Permissions::calls_below))]
pub fn shape_for_every_call(hardware: &Hardware) -> Shape
    requires line { 16 ≤ hardware.now.line }
    ensures value { shape_model result ≡ spec.shape_for_every_call (hardware_model hardware.now) }
{
    shape_for(hardware, EVERY_CALL)
}

#[tactic(auto, unfolding(crate::specs::Pads::k17_case))]
fn k17_case(bound: u64, place: usize, entry: &RawEntry) -> Result<(), Refusal>
    requires bound { bound < 2 ^ 63 }
    requires place { place < 2 ^ 63 }
    ensures verdict { IsVerdict result (spec.k17_case bound place (entry_model entry.now)) }
{
    if entry.pad < bound as i64 {
        return Err(refusal(17, place as i64, entry.pad, bound as i64));
    }
    Ok(())
}

/// The calls of the domain that leaves at an entry's end: its own.
#[tactic(auto, using(schedule_check::proofs::Entries::number_below, schedule_check::proofs::Entries::number_natural))]
fn leaving_calls(calls: &[u32], entry: &RawEntry) -> u32
    requires domain { not (is_number (length calls.now) entry.now.domain) ≡ false }
    ensures value { result ≡ slice_index_or calls.now (spec_natural_of entry.now.domain) every_call }
{
    calls[natural_of(entry.domain) as usize]
}

fn k17_entries(shape: &Shape, calls: &[u32], entries: &[RawEntry]) -> Result<(), Refusal>
    requires shape { IsShape (shape_model shape.now) }
    requires domains { All (λ e. not (is_number (length calls.now) e.domain) ≡ false) entries.now }
    ensures verdict { IsVerdict result
        (cases.first_in (spec.k17_by (shape_model shape.now) calls.now) (map entry_model entries.now)) }
{
    for (place, entry) in entries.iter().enumerate() {
        let bound = bound_from(shape, leaving_calls(calls, entry)).total;
        k17_case(bound, place, entry)?;
    }
    Ok(())
}

/// K17: each pad is at least the bound on its switch of the image's machine, by
/// the calls of the entry's domain, in cycles.
///
/// # Errors
///
/// The refusal with the first broken case.
pub fn k17(hardware: &Hardware, calls: &[u32], raw: &Raw) -> Result<(), Refusal>
    requires before { broken_before_pads (raw_model raw.now) ≡ [] }
    requires hardware { hardware_model hardware.now ≡ hardware_of (raw_model raw.now) }
    requires calls { calls.now ≡ map own_calls (raw_model raw.now).domains }
    ensures verdict { IsVerdict result (spec.k17 (raw_model raw.now)) }
{
    k17_entries(
        &shape_for_every_call(hardware),
        calls,
        raw.schedule.as_slice(),
    )
}
