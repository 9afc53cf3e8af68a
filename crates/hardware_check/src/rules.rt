// The rules of the machine, each with its first broken case.
ghost use Rattle.std.specs.Prelude.{◌≡◌, ◌<◌, ◌≤◌, None, is_some, IfOk, IfSome};
ghost use Rattle.image_record.specs.Models.{raw_model};
ghost use Rattle.image_record.specs.Parts.{cache_model};
ghost use Rattle.image_record.specs.Cases.{first_in};
ghost use Rattle.image_record.specs.Numbers.{IsNatural, natural_of as spec_natural_of};
ghost use Rattle.hardware_check.specs.Hardware.{hardware_of as spec_hardware_of, colours_of};
ghost use Rattle.hardware_check.specs.Hardware.{policy_of, cache_shape_of};
ghost use Rattle.hardware_check.specs.Laws.{KeepsParts};
ghost use Rattle.hardware_check.specs.Models.{AreCaches, shape_model, hardware_model};
ghost use Rattle.image_record.specs.Outcomes.{IsVerdict};
ghost use Rattle.hardware_check.specs.Rules as spec;

use crate::hardware::{CacheShape, Caches, Hardware, Policy};
use crate::numbers::{is_power_of_two, is_size};
use crate::reading::hardware_of;
use image_record::cases::{outside, range_case, refusal};
use image_record::{Raw, RawCache, Refusal, natural_of};

fn size_case(part: u8, low: u32, high: u32, number: i64) -> Result<u32, Refusal>
    ensures verdict { IsVerdict result (spec.size_case part low high number) }
    ensures value { IfOk result (λ n. n ≡ spec_natural_of number) }
{
    if !is_size(low, high, number) {
        return Err(refusal(3, i64::from(part), number, 1));
    }
    Ok(natural_of(number) as u32)
}

/// The policy of a name, if it is one's.
fn policy_in(name: &str) -> Option<Policy>
    ensures known { is_some result ≡ spec.is_policy name.now }
    ensures value { IfSome result (λ p. p ≡ policy_of name.now) }
{
    match name {
        "fifo" => Some(Policy::Fifo),
        "plru" => Some(Policy::Plru),
        "nmru" => Some(Policy::Nmru),
        "lru" => Some(Policy::Lru),
        _ => None,
    }
}

fn is_uneven_tree(cache: &RawCache) -> bool
    requires natural { IsNatural cache.now.ways }
    ensures value { result ≡ spec.is_uneven_tree (cache_model cache.now) }
{
    cache.policy.as_str() == "plru" && !is_power_of_two(cache.ways)
}

fn ways_case(part: u8, sets: u32, cache: &RawCache) -> Result<CacheShape, Refusal>
    requires sets { sets ≡ spec_natural_of cache.now.sets }
    ensures verdict { IsVerdict result (spec.ways_case part (cache_model cache.now)) }
    ensures value { IfOk result (λ s. shape_model s ≡ cache_shape_of (cache_model cache.now)) }
{
    if outside(1, 16, cache.ways) {
        return Err(refusal(3, i64::from(part), cache.ways, 2));
    }
    let Some(policy) = policy_in(cache.policy.as_str()) else {
        return Err(refusal(3, i64::from(part), cache.ways, 3));
    };
    if is_uneven_tree(cache) {
        return Err(refusal(3, i64::from(part), cache.ways, 4));
    }
    Ok(CacheShape {
        sets,
        ways: natural_of(cache.ways) as u32,
        policy,
    })
}

fn cache_case(part: u8, most_sets: u32, cache: &RawCache) -> Result<CacheShape, Refusal>
    ensures verdict { IsVerdict result (spec.cache_case part most_sets (cache_model cache.now)) }
    ensures value { IfOk result (λ s. shape_model s ≡ cache_shape_of (cache_model cache.now)) }
{
    let sets = size_case(part, 1, most_sets, cache.sets)?;
    ways_case(part, sets, cache)
}

fn history_case(history: i64) -> Result<(), Refusal>
    ensures verdict { IsVerdict result (spec.history_case history) }
{
    if outside(0, 8, history) {
        return Err(refusal(3, 6, history, 2));
    }
    Ok(())
}

fn predictor_case(size: i64, history: i64) -> Result<(), Refusal>
    ensures verdict { IsVerdict result (spec.predictor_case size history) }
{
    size_case(6, 1, 4096, size)?;
    history_case(history)
}

/// K3: the line, the caches, the translation buffer and the predictor have
/// sizes, ways and policies that there are, and the predictor's history is not too
/// long; so these caches.
pub fn k3(raw: &Raw) -> Result<Caches, Refusal>
    ensures verdict { IsVerdict result (spec.k3 (raw_model raw.now)) }
    ensures value { IfOk result (λ c. AreCaches c (raw_model raw.now)) }
{
    size_case(1, 16, 128, raw.line)?;
    let l1i = cache_case(2, 1024, &raw.l1i)?;
    let l1d = cache_case(3, 1024, &raw.l1d)?;
    let l2 = cache_case(4, 16384, &raw.l2)?;
    let tlb = cache_case(5, 256, &raw.tlb)?;
    predictor_case(raw.predictor, raw.history)?;
    Ok(Caches { l1i, l1d, l2, tlb })
}

fn most_frames(version: u8) -> u32
    ensures value { result ≡ spec.most_frames version }
{
    if version == 1 { 4096 } else { 16384 }
}

#[tactic(auto, unfolding(crate::specs::Hardware::hardware_of))]
fn frames_in(raw: &Raw) -> u32
    requires frames { spec.k4 (raw_model raw.now) ≡ None }
    ensures value { result ≡ (spec_hardware_of (raw_model raw.now)).frames }
{
    natural_of(raw.frames) as u32
}

/// K4: 64 to 4,096 frames, in the second version 16,384; so their number.
pub fn k4(raw: &Raw) -> Result<u32, Refusal>
    ensures verdict { IsVerdict result (spec.k4 (raw_model raw.now)) }
    ensures value { IfOk result (λ f. f ≡ (spec_hardware_of (raw_model raw.now)).frames) }
{
    range_case(4, 0, 64, most_frames(raw.version), raw.frames)?;
    Ok(frames_in(raw))
}

/// The number of page colours, at most 512; K5 asks for 2 to 64.
#[tactic(auto, unfolding(crate::specs::Hardware::hardware_of, crate::specs::Hardware::cache_shape_of))]
fn colours_in(raw: &Raw) -> u32
    requires parts { spec.k3 (raw_model raw.now) ≡ None }
    ensures value { result ≡ colours_of (spec_hardware_of (raw_model raw.now)) }
{
    (natural_of(raw.l2.sets) * natural_of(raw.line) / 4096) as u32
}

/// K5: 2 to 64 colours; so their number.
pub fn k5(raw: &Raw) -> Result<u32, Refusal>
    requires parts { spec.k3 (raw_model raw.now) ≡ None }
    ensures verdict { IsVerdict result (spec.k5 (raw_model raw.now)) }
    ensures value { IfOk result (λ c. c ≡ colours_of (spec_hardware_of (raw_model raw.now))) }
    ensures some { IfOk result (λ c. 2 ≤ c) }
    ensures few { IfOk result (λ c. c ≤ 64) }
{
    let colours = colours_in(raw);
    range_case(5, 0, 2, 64, i64::from(colours))?;
    Ok(colours)
}

fn first_dear(costs: &[i64]) -> Result<(), Refusal>
    ensures verdict { IsVerdict result (first_in spec.k6_cost costs.now) }
{
    for (place, cost) in costs.iter().enumerate() {
        range_case(6, (place + 1) as i64, 1, 1000, *cost)?;
    }
    Ok(())
}

/// K6: each cost is 1 to 1,000 cycles.
#[tactic(auto, unfolding(crate::specs::Rules::k6))]
pub fn k6(raw: &Raw) -> Result<(), Refusal>
    ensures verdict { IsVerdict result (spec.k6 (raw_model raw.now)) }
{
    let c = &raw.costs;
    first_dear(&[
        c.base,
        c.l1,
        c.l2,
        c.mem,
        c.wb,
        c.tlb,
        c.mispredict,
        c.trap,
        c.flush,
    ])
}

fn is_region(line: i64, shared: i64) -> bool
    requires line { 0 < spec_natural_of line }
    ensures value { result ≡ spec.is_region line shared }
{
    if outside(line, 65536, shared) {
        return false;
    }
    natural_of(shared) % natural_of(line) == 0
}

#[tactic(auto, unfolding(crate::specs::Rules::room_case))]
fn room_case(hardware: &Hardware) -> Result<(), Refusal>
    ensures verdict { IsVerdict result (spec.room_case (hardware_model hardware.now)) }
{
    let frames = hardware.shared_frames();
    if hardware.l2.ways < frames {
        return Err(refusal(11, 2, i64::from(frames), i64::from(hardware.l2.ways)));
    }
    let last = hardware.last_shared_frame();
    if hardware.frames <= last {
        return Err(refusal(11, 3, i64::from(last), i64::from(hardware.frames)));
    }
    Ok(())
}

/// K11: the shared region is whole lines up to 65,536 bytes, and its frames
/// have their ways in the second level and their places in memory. Then the
/// machine is whole, with the caches that K3 hands out.
pub fn k11(raw: &Raw, caches: Caches) -> Result<Hardware, Refusal>
    requires parts { KeepsParts (raw_model raw.now) }
    requires caches { AreCaches caches (raw_model raw.now) }
    ensures verdict { IsVerdict result (spec.k11 (raw_model raw.now)) }
    ensures value { IfOk result (λ h. hardware_model h ≡ spec_hardware_of (raw_model raw.now)) }
{
    if !is_region(raw.line, raw.shared) {
        return Err(refusal(11, 1, raw.shared, 65536));
    }
    let hardware = hardware_of(raw, caches);
    room_case(&hardware)?;
    Ok(hardware)
}
