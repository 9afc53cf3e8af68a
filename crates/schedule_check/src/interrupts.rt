// The rules of interrupts: K14 of lines, K15 of moments.
ghost use Rattle.std.specs.Prelude.{◌≡◌, ◌-◌, ◌<◌, ◌^◌, map, length, slice_get, None, IfSome, IfOk};
ghost use Rattle.image_record.specs.Models.{raw_model};
ghost use Rattle.image_record.specs.Parts.{domain_model, moment_model};
ghost use Rattle.image_record.specs.Cases.{first_in};
ghost use Rattle.image_record.specs.Numbers.{IsNatural, natural_of as spec_natural_of};
ghost use Rattle.image_record.specs.Outcomes.{IsVerdict, IsVerdictOrMemory};
ghost use Rattle.schedule_check.specs.Interrupts as spec;

use image_record::cases::{outside, refusal};
use image_record::{Raw, RawDomain, RawMoment, ReadRefusal, Refusal, names, natural_of};
use irq_partition::Moment;
use std::alloc::Global;

/// The most moments that a domain has.
const MOST_MOMENTS: usize = 1024;

/// The last cycle at which an interrupt may come.
const LAST_CYCLE: i64 = 1_000_000_000_000;

/// The place of the first domain that has this line.
fn lined_so(line: i64, domains: &[RawDomain]) -> Option<usize>
    ensures value { result ≡ first_in (spec.lined_so line) (map domain_model domains.now) }
    ensures small { IfSome result (λ e. e < 2 ^ 63) }
{
    for (e, domain) in domains.iter().enumerate() {
        if names(domain.lines.as_slice(), line) {
            return Some(e);
        }
    }
    None
}

/// The domain that named the line before: an earlier one, or the same.
fn named_before(domains: &[RawDomain], earlier: &[i64], line: i64) -> Option<usize>
    requires domain { length domains.now < 2 ^ 63 }
    ensures value { result ≡ spec.named_before (map domain_model domains.now) earlier.now line }
    ensures small { IfSome result (λ e. e < 2 ^ 63) }
{
    if let Some(e) = lined_so(line, domains) {
        return Some(e);
    }
    if names(earlier, line) {
        return Some(domains.len());
    }
    None
}

fn k14_line(domains: &[RawDomain], earlier: &[i64], line: i64) -> Result<u8, Refusal>
    requires domain { length domains.now < 2 ^ 63 }
    ensures verdict { IsVerdict result (spec.k14_line (map domain_model domains.now) earlier.now line) }
    ensures value { IfOk result (λ n. n ≡ spec_natural_of line) }
{
    let d = domains.len() as i64;
    if outside(0, 31, line) {
        return Err(refusal(14, d, line, 32));
    }
    match named_before(domains, earlier, line) {
        Some(e) => Err(refusal(14, d, line, e as i64)),
        None => Ok(natural_of(line) as u8),
    }
}

fn k14_lines(alloc: Global, domains: &[RawDomain], lines: &[i64]) -> Result<Vec<u8>, ReadRefusal>
    requires domain { length domains.now < 2 ^ 63 }
    ensures verdict { IsVerdictOrMemory result
        (first_in (spec.k14_line (map domain_model domains.now)) lines.now) }
    ensures value { IfOk result (λ v. v.items ≡ map spec_natural_of lines.now) }
{
    let mut found = Vec::new(alloc);
    for (place, line) in lines.iter().enumerate() {
        found.push(k14_line(domains, &lines[..place], *line)?)?;
    }
    Ok(found)
}

/// K14: each line is one of 32, and no line is named twice, by one domain or by
/// two; so the lines of each domain.
///
/// # Errors
///
/// `Broken` with the first broken case; `Memory` where memory runs out.
pub fn k14(alloc: Global, raw: &Raw) -> Result<Vec<Vec<u8>>, ReadRefusal>
    ensures verdict { IsVerdictOrMemory result (spec.k14 (raw_model raw.now)) }
    ensures value { IfOk result (λ v. map (λ l. l.items) v.items
        ≡ map spec.own_lines (raw_model raw.now).domains) }
{
    let mut lines = Vec::new(alloc);
    let domains = raw.domains.as_slice();
    for (d, domain) in domains.iter().enumerate() {
        lines.push(k14_lines(alloc, &domains[..d], domain.lines.as_slice())?)?;
    }
    Ok(lines)
}

/// Whether a moment is later than another, or at its cycle of a greater line.
fn is_above(moment: &RawMoment, other: &RawMoment) -> bool
    ensures value { result ≡ spec.is_above (moment_model moment.now) (moment_model other.now) }
{
    other.at < moment.at || (other.at == moment.at && other.line < moment.line)
}

/// The case of a moment that is not above the one before.
fn order_case(d: usize, earlier: &[RawMoment], moment: &RawMoment) -> Result<(), Refusal>
    requires domain { d < 2 ^ 63 }
    requires place { length earlier.now < 2 ^ 63 }
    ensures verdict { let before = map moment_model earlier.now in
        IsVerdict result (spec.order_case d (length before) (moment_model moment.now)
        (slice_get before (length before - 1))) }
{
    if let Some(before) = earlier.last() {
        if !is_above(moment, before) {
            return Err(refusal(15, d as i64, earlier.len() as i64, 4));
        }
    }
    Ok(())
}

#[tactic(auto, unfolding(crate::specs::Interrupts::moment_of))]
fn moment_of(moment: &RawMoment) -> Moment
    requires at { IsNatural moment.now.at }
    requires line { IsNatural moment.now.line }
    requires small { spec_natural_of moment.now.line < 2 ^ 8 }
    ensures value { result ≡ spec.moment_of (moment_model moment.now) }
{
    Moment {
        at: natural_of(moment.at),
        line: natural_of(moment.line) as u8,
    }
}

fn k15_moment(
    lines: &[i64],
    d: usize,
    earlier: &[RawMoment],
    moment: &RawMoment,
) -> Result<Moment, Refusal>
    requires domain { d < 2 ^ 63 }
    requires place { length earlier.now < 2 ^ 63 }
    requires lines { spec.AreSmall lines.now }
    ensures verdict { IsVerdict result (spec.k15_moment lines.now d (map moment_model earlier.now)
        (moment_model moment.now)) }
    ensures value { IfOk result (λ m. m ≡ spec.moment_of (moment_model moment.now)) }
{
    let place = earlier.len() as i64;
    if outside(0, LAST_CYCLE, moment.at) {
        return Err(refusal(15, d as i64, place, 2));
    }
    if !names(lines, moment.line) {
        return Err(refusal(15, d as i64, place, 3));
    }
    order_case(d, earlier, moment)?;
    Ok(moment_of(moment))
}

fn k15_domain(
    alloc: Global,
    earlier: &[RawDomain],
    domain: &RawDomain,
) -> Result<Vec<Moment>, ReadRefusal>
    requires domain { length earlier.now < 2 ^ 63 }
    requires lines { spec.AreSmall (domain_model domain.now).lines }
    ensures verdict { IsVerdictOrMemory result
        (spec.k15_domain (map domain_model earlier.now) (domain_model domain.now)) }
    ensures value { IfOk result (λ v. v.items ≡ spec.own_moments (domain_model domain.now)) }
{
    let moments = domain.moments.as_slice();
    let d = earlier.len();
    if moments.len() > MOST_MOMENTS {
        return Err(ReadRefusal::Broken(refusal(15, d as i64, moments.len() as i64, 1)));
    }
    let mut found = Vec::new(alloc);
    for (place, moment) in moments.iter().enumerate() {
        found.push(k15_moment(domain.lines.as_slice(), d, &moments[..place], moment)?)?;
    }
    Ok(found)
}

/// K15: at most 1,024 moments, each from cycle 0 to 1,000,000,000,000, of a line
/// of its domain, and above the one before; so the moments of each domain.
///
/// # Errors
///
/// `Broken` with the first broken case; `Memory` where memory runs out.
pub fn k15(alloc: Global, raw: &Raw) -> Result<Vec<Vec<Moment>>, ReadRefusal>
    requires lines { spec.k14 (raw_model raw.now) ≡ None }
    ensures verdict { IsVerdictOrMemory result (spec.k15 (raw_model raw.now)) }
    ensures value { IfOk result (λ v. map (λ m. m.items) v.items
        ≡ map spec.own_moments (raw_model raw.now).domains) }
{
    let mut moments = Vec::new(alloc);
    let domains = raw.domains.as_slice();
    for (d, domain) in domains.iter().enumerate() {
        moments.push(k15_domain(alloc, &domains[..d], domain)?)?;
    }
    Ok(moments)
}
