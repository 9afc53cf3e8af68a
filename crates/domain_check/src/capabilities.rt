// K13, the rule of initial capabilities: what the text of each slot names.
ghost use Rattle.std.specs.Prelude.{◌≡◌, ◌<◌, ◌≤◌, ◌^◌, true, map, length, string_bytes, option_map, Some, IfSome, IfOk};
ghost use Rattle.std.specs.Char.{is_ascii_digit};
ghost use Rattle.std.specs.List.{All, list_any, list_all};
ghost use Rattle.std.specs.Str.{bytes_eq};
ghost use Rattle.std.specs.Str.Parse.{digits_value};
ghost use Rattle.image_record.specs.Models.{raw_model};
ghost use Rattle.image_record.specs.Parts.{domain_model, segment_model};
ghost use Rattle.image_record.specs.Outcomes.{IsVerdict, IsVerdictOrMemory, Makes};
ghost use Rattle.domain_check.specs.CapTexts as texts;
ghost use Rattle.domain_check.specs.Capabilities as spec;
ghost use Rattle.domain_check.specs.Models.{named_model};

use crate::segments::has_page;
use image_record::{Raw, RawDomain, RawSegment, ReadRefusal, Refusal, names};
use std::alloc::Global;

/// The most capability slots that a domain has.
const MOST_SLOTS: usize = 64;

/// What a capability slot names as its domain begins.
#[derive(Clone, Copy, Debug, PartialEq, Eq)]
pub enum InitialCap {
    /// Nothing.
    None,
    /// A page of the domain's, by its address divided by 4,096.
    Page(u32),
    /// An interrupt line, by its number.
    Irq(u8),
}

/// What the text of a slot names. There may be no page or line of that number.
#[derive(Clone, Copy)]
pub enum Named {
    Nothing,
    Page(u64),
    Irq(u64),
}

fn has_digits(text: &[u8]) -> bool
    ensures value { result ≡ list_all is_ascii_digit text.now }
{
    text.iter().all(|c| c.is_ascii_digit())
}

fn is_numeral(text: &[u8]) -> bool
    ensures value { result ≡ texts.is_numeral text.now }
{
    if text.is_empty() || text.len() > 10 {
        return false;
    }
    if text.len() > 1 && text[0] == b'0' {
        return false;
    }
    has_digits(text)
}

/// The number that digits write.
fn value_of(digits: &[u8]) -> u64
    requires digits { list_all is_ascii_digit digits.now ≡ true }
    requires few { length digits.now ≤ 10 }
    ensures value { result ≡ digits_value 10 digits.now }
    ensures small { result < 10 ^ 10 }
{
    let mut number = 0;
    for digit in digits {
        number = number * 10 + u64::from(*digit - b'0');
    }
    number
}

fn number_in(text: &[u8]) -> Option<u64>
    ensures value { result ≡ texts.number_in text.now }
    ensures small { IfSome result (λ n. n < 10 ^ 10) }
{
    if !is_numeral(text) {
        return None;
    }
    Some(value_of(text))
}

/// The number that follows a word with which the text begins.
#[tactic(auto, unfolding(crate::specs::CapTexts::number_after))]
fn number_after(word: &[u8], text: &[u8]) -> Option<u64>
    ensures value { result ≡ texts.number_after word.now text.now }
    ensures small { IfSome result (λ n. n < 10 ^ 10) }
{
    match text.strip_prefix(word) {
        Some(rest) => number_in(rest),
        None => None,
    }
}

/// What the text of a slot names, if it is such a text.
#[tactic(auto, unfolding(crate::specs::CapTexts::cap_in))]
fn cap_in(text: &str) -> Option<Named>
    ensures value { option_map named_model result ≡ texts.cap_in text.now }
    ensures small { IfSome result (λ n. texts.IsShort (named_model n)) }
{
    if text == "none" {
        return Some(Named::Nothing);
    }
    if let Some(page) = number_after(b"page ", text.as_bytes()) {
        return Some(Named::Page(page));
    }
    if let Some(line) = number_after(b"irq ", text.as_bytes()) {
        return Some(Named::Irq(line));
    }
    None
}

fn k13_refusal(d: usize, found: usize, case: u8) -> Refusal
    requires domain { d < 2 ^ 63 }
    requires found { found < 2 ^ 63 }
    ensures value { Some result ≡ spec.k13_refusal d found case }
{
    Refusal {
        rule: 13,
        at: d as i64,
        found: found as i64,
        wanted: i64::from(case),
    }
}

fn lies_in_any(page: u64, segments: &[RawSegment]) -> bool
    ensures value { result ≡ list_any (spec.lies_in page) (map segment_model segments.now) }
{
    for segment in segments {
        if has_page(segment, page) {
            return true;
        }
    }
    false
}

/// The case of a text that an earlier slot has, too.
fn again_case(d: usize, earlier: &[String], text: &str) -> Result<(), Refusal>
    requires domain { d < 2 ^ 63 }
    requires place { length earlier.now < 2 ^ 63 }
    ensures verdict { IsVerdict result
        (spec.again_case d (map (λ s. string_bytes s) earlier.now) text.now) }
{
    for other in earlier {
        if text == other.as_str() {
            return Err(k13_refusal(d, earlier.len(), 5));
        }
    }
    Ok(())
}

/// The cases of what a text names: a page in no segment or a line of none of the
/// domain's; then those of an earlier slot.
fn named_case(
    domain: &RawDomain,
    d: usize,
    earlier: &[String],
    text: &str,
    named: Named,
) -> Result<(), Refusal>
    requires domain { d < 2 ^ 63 }
    requires place { length earlier.now < 2 ^ 63 }
    requires short { texts.IsShort (named_model named) }
    ensures verdict { IsVerdict result (spec.named_case (domain_model domain.now) d
        (map (λ s. string_bytes s) earlier.now) text.now (Some (named_model named))) }
{
    match named {
        Named::Nothing => Ok(()),
        Named::Page(page) => {
            if !lies_in_any(page, domain.segments.as_slice()) {
                return Err(k13_refusal(d, earlier.len(), 3));
            }
            again_case(d, earlier, text)
        }
        Named::Irq(line) => {
            if !names(domain.lines.as_slice(), line as i64) {
                return Err(k13_refusal(d, earlier.len(), 4));
            }
            again_case(d, earlier, text)
        }
    }
}

#[tactic(auto, unfolding(crate::specs::Capabilities::k13_case, crate::specs::Capabilities::cap_of))]
fn named_in(domain: &RawDomain, d: usize, earlier: &[String], text: &str) -> Result<Named, Refusal>
    requires domain { d < 2 ^ 63 }
    requires place { length earlier.now < 2 ^ 63 }
    ensures verdict { IsVerdict result (spec.k13_case (domain_model domain.now) d
        (map (λ s. string_bytes s) earlier.now) text.now) }
    ensures value { IfOk result (λ n. named_model n ≡ spec.cap_of text.now) }
{
    let Some(named) = cap_in(text) else {
        return Err(k13_refusal(d, earlier.len(), 2));
    };
    named_case(domain, d, earlier, text, named)?;
    Ok(named)
}

#[tactic(auto, unfolding(crate::specs::Capabilities::k13_domain))]
fn k13_domain(
    alloc: Global,
    earlier: &[RawDomain],
    domain: &RawDomain,
) -> Result<Vec<Named>, ReadRefusal>
    requires domain { length earlier.now < 2 ^ 63 }
    ensures verdict { IsVerdictOrMemory result
        (spec.k13_domain (map domain_model earlier.now) (domain_model domain.now)) }
    ensures value { IfOk result (λ v. map named_model v.items ≡ spec.caps_of (domain_model domain.now)) }
{
    let caps = domain.caps.as_slice();
    let d = earlier.len();
    if caps.len() > MOST_SLOTS {
        return Err(ReadRefusal::Broken(k13_refusal(d, caps.len(), 1)));
    }
    let mut found = Vec::new(alloc);
    for (slot, text) in caps.iter().enumerate() {
        found.push(named_in(domain, d, &caps[..slot], text.as_str())?)?;
    }
    Ok(found)
}

/// K13: at most 64 slots, each empty or of a page or a line that the domain has
/// and no earlier slot names; so what the slots of each domain name.
///
/// # Errors
///
/// `Broken` with the first broken case; `Memory` where memory runs out.
#[tactic(auto, unfolding(crate::specs::Capabilities::k13))]
pub fn k13(alloc: Global, raw: &Raw) -> Result<Vec<Vec<Named>>, ReadRefusal>
    ensures verdict { IsVerdictOrMemory result (spec.k13 (raw_model raw.now)) }
    ensures value { IfOk result (λ v. map (λ c. map named_model c.items) v.items
        ≡ map spec.caps_of (raw_model raw.now).domains) }
{
    let mut caps = Vec::new(alloc);
    let domains = raw.domains.as_slice();
    for (d, domain) in domains.iter().enumerate() {
        caps.push(k13_domain(alloc, &domains[..d], domain)?)?;
    }
    Ok(caps)
}

fn cap_from(named: Named) -> InitialCap
    requires small { spec.IsSmallCap (named_model named) }
    ensures value { result ≡ named_model named }
{
    match named {
        Named::Nothing => InitialCap::None,
        Named::Page(page) => InitialCap::Page(page as u32),
        Named::Irq(line) => InitialCap::Irq(line as u8),
    }
}

/// What the slots of a domain name, where the numbers are known to be those of
/// pages and lines.
///
/// # Errors
///
/// `Memory` alone.
pub fn caps_from(alloc: Global, slots: &[Named]) -> Result<Vec<InitialCap>, ReadRefusal>
    requires small { All (λ n. spec.IsSmallCap (named_model n)) slots.now }
    ensures value { Makes (λ v. v.items) result (map named_model slots.now) }
{
    let mut caps = Vec::new(alloc);
    for named in slots {
        caps.push(cap_from(*named))?;
    }
    Ok(caps)
}
