// K12, the rule of segments: their pages, rights and bytes, and the entry.
ghost use Rattle.std.specs.Prelude.{◌≡◌, ◌<◌, ◌^◌, map, length, Some, option_map, IfOk};
ghost use Rattle.std.specs.List.{list_any};
ghost use Rattle.image_record.specs.Models.{raw_model};
ghost use Rattle.image_record.specs.Parts.{domain_model, segment_model};
ghost use Rattle.image_record.specs.Outcomes.{Makes, IsVerdict, IsVerdictOrMemory};
ghost use Rattle.image_record.specs.Cases.{first_in};
ghost use Rattle.domain_check.specs.Models.{segment_model as part_model};
ghost use Rattle.domain_check.specs.Segments as spec;

use hex::FromHexError;
use image_record::{Raw, RawDomain, RawSegment, ReadRefusal, Refusal};
use std::alloc::Global;
use tp_base::Rights;

/// The pages of an address space: 4 GiB of 4,096 bytes.
const ALL_PAGES: u32 = 1_048_576;

/// Pages of a domain's address space, one after the other.
#[derive(Drop)]
pub struct Segment {
    /// The first page's address divided by 4,096.
    pub page: u32,
    pub pages: u32,
    /// What they may be used for.
    pub rights: Rights,
    /// The first bytes; zeros follow to the end of the pages.
    pub bytes: Vec<u8>,
}

fn k12_refusal(d: usize, found: usize, case: u8) -> Refusal
    requires domain { d < 2 ^ 63 }
    requires found { found < 2 ^ 63 }
    ensures value { Some result ≡ spec.k12_refusal d found case }
{
    Refusal {
        rule: 12,
        at: d as i64,
        found: found as i64,
        wanted: i64::from(case),
    }
}

/// The rights to execute, and perhaps others.
fn has_execute(rights: &str) -> bool
    ensures value { result ≡ spec.has_execute rights.now }
{
    matches!(rights, "x" | "rx" | "rwx")
}

fn is_rights(rights: &str) -> bool
    ensures value { result ≡ spec.is_rights rights.now }
{
    matches!(rights, "r" | "rw") || has_execute(rights)
}

/// Whether the page is one of the segment's.
pub fn has_page(segment: &RawSegment, page: u64) -> bool
    ensures value { result ≡ spec.has_page (segment_model segment.now) page }
{
    u64::from(segment.page) <= page && page < u64::from(segment.page) + u64::from(segment.pages)
}

fn share_page(segment: &RawSegment, earlier: &RawSegment) -> bool
    ensures value { result ≡ spec.share_page (segment_model segment.now) (segment_model earlier.now) }
{
    u64::from(earlier.page) < u64::from(segment.page) + u64::from(segment.pages)
        && u64::from(segment.page) < u64::from(earlier.page) + u64::from(earlier.pages)
}

fn shares_any(segment: &RawSegment, earlier: &[RawSegment]) -> bool
    ensures value { result ≡ list_any (spec.share_page (segment_model segment.now))
        (map segment_model earlier.now) }
{
    for other in earlier {
        if share_page(segment, other) {
            return true;
        }
    }
    false
}

/// The bytes that a text of hexadecimal digits writes, if it writes any.
///
/// # Errors
///
/// `Memory` alone.
fn bytes_in(alloc: Global, hex: &str) -> Result<Option<Vec<u8>>, ReadRefusal>
    ensures value { Makes (option_map (λ v. v.items)) result (spec.bytes_in hex.now) }
{
    match hex::decode(alloc, hex) {
        Ok(bytes) => Ok(Some(bytes)),
        Err(FromHexError::OutOfMemory) => Err(ReadRefusal::Memory),
        Err(_) => Ok(None),
    }
}

/// The rights to read, and perhaps others.
fn has_read(rights: &str) -> bool
    ensures value { result ≡ spec.has_read rights.now }
{
    matches!(rights, "r" | "rw" | "rx" | "rwx")
}

/// The rights to write, and perhaps others.
fn has_write(rights: &str) -> bool
    ensures value { result ≡ spec.has_write rights.now }
{
    matches!(rights, "rw" | "rwx")
}

fn rights_of(text: &str) -> Rights
    ensures value { result ≡ spec.rights_of text.now }
{
    Rights::with(has_read(text), has_write(text), has_execute(text))
}

/// The cases of the bytes: more than the pages hold; then pages of another segment.
fn bytes_case(
    d: usize,
    earlier: &[RawSegment],
    segment: &RawSegment,
    bytes: &[u8],
) -> Result<(), Refusal>
    requires domain { d < 2 ^ 63 }
    requires place { length earlier.now < 2 ^ 63 }
    ensures verdict { IsVerdict result (spec.bytes_case d (map segment_model earlier.now)
        (segment_model segment.now) (Some bytes.now)) }
{
    if segment.pages as usize * 4096 < bytes.len() {
        return Err(k12_refusal(d, earlier.len(), 4));
    }
    if shares_any(segment, earlier) {
        return Err(k12_refusal(d, earlier.len(), 5));
    }
    Ok(())
}

#[tactic(auto, unfolding(crate::specs::Segments::segment_case, crate::specs::Segments::segment_of))]
fn segment_in(
    alloc: Global,
    d: usize,
    earlier: &[RawSegment],
    segment: &RawSegment,
) -> Result<Segment, ReadRefusal>
    requires domain { d < 2 ^ 63 }
    requires place { length earlier.now < 2 ^ 63 }
    ensures verdict { IsVerdictOrMemory result
        (spec.segment_case d (map segment_model earlier.now) (segment_model segment.now)) }
    ensures value { IfOk result (λ s. part_model s ≡ spec.segment_of (segment_model segment.now)) }
{
    if u64::from(ALL_PAGES) < u64::from(segment.page) + u64::from(segment.pages) {
        return Err(ReadRefusal::Broken(k12_refusal(d, earlier.len(), 1)));
    }
    if !is_rights(segment.rights.as_str()) {
        return Err(ReadRefusal::Broken(k12_refusal(d, earlier.len(), 2)));
    }
    let Some(bytes) = bytes_in(alloc, segment.hex.as_str())? else {
        return Err(ReadRefusal::Broken(k12_refusal(d, earlier.len(), 3)));
    };
    bytes_case(d, earlier, segment, &bytes)?;
    Ok(Segment {
        page: segment.page,
        pages: segment.pages,
        rights: rights_of(segment.rights.as_str()),
        bytes,
    })
}

fn segments_in(alloc: Global, d: usize, texts: &[RawSegment]) -> Result<Vec<Segment>, ReadRefusal>
    requires domain { d < 2 ^ 63 }
    ensures verdict { IsVerdictOrMemory result (first_in (spec.segment_case d) (map segment_model texts.now)) }
    ensures value { IfOk result (λ v. map part_model v.items
        ≡ map spec.segment_of (map segment_model texts.now)) }
{
    let mut segments = Vec::new(alloc);
    for (place, text) in texts.iter().enumerate() {
        segments.push(segment_in(alloc, d, &texts[..place], text)?)?;
    }
    Ok(segments)
}

fn executes(page: u64, segment: &RawSegment) -> bool
    ensures value { result ≡ spec.executes page (segment_model segment.now) }
{
    has_execute(segment.rights.as_str()) && has_page(segment, page)
}

fn any_executes(page: u64, segments: &[RawSegment]) -> bool
    ensures value { result ≡ list_any (spec.executes page) (map segment_model segments.now) }
{
    for segment in segments {
        if executes(page, segment) {
            return true;
        }
    }
    false
}

#[tactic(auto, unfolding(crate::specs::Segments::entry_case))]
fn entry_case(d: usize, domain: &RawDomain) -> Result<(), Refusal>
    requires domain { d < 2 ^ 63 }
    ensures verdict { IsVerdict result (spec.entry_case d (domain_model domain.now)) }
{
    if domain.entry % 4 == 0
        && any_executes(u64::from(domain.entry / 4096), domain.segments.as_slice())
    {
        Ok(())
    } else {
        Err(k12_refusal(d, domain.entry as usize, 6))
    }
}

#[tactic(auto, unfolding(crate::specs::Segments::k12_domain))]
fn k12_domain(
    alloc: Global,
    earlier: &[RawDomain],
    domain: &RawDomain,
) -> Result<Vec<Segment>, ReadRefusal>
    requires domain { length earlier.now < 2 ^ 63 }
    ensures verdict { IsVerdictOrMemory result
        (spec.k12_domain (map domain_model earlier.now) (domain_model domain.now)) }
    ensures value { IfOk result (λ v. map part_model v.items ≡ spec.segments_of (domain_model domain.now)) }
{
    let segments = segments_in(alloc, earlier.len(), domain.segments.as_slice())?;
    entry_case(earlier.len(), domain)?;
    Ok(segments)
}

/// K12: the pages, rights and bytes of segments, and the entry; so the segments
/// of each domain.
///
/// # Errors
///
/// `Broken` with the first broken case; `Memory` where memory runs out.
#[tactic(auto, unfolding(crate::specs::Segments::k12))]
pub fn k12(alloc: Global, raw: &Raw) -> Result<Vec<Vec<Segment>>, ReadRefusal>
    ensures verdict { IsVerdictOrMemory result (spec.k12 (raw_model raw.now)) }
    ensures value { IfOk result (λ v. map (λ s. map part_model s.items) v.items
        ≡ map spec.segments_of (raw_model raw.now).domains) }
{
    let mut segments = Vec::new(alloc);
    let domains = raw.domains.as_slice();
    for (d, domain) in domains.iter().enumerate() {
        segments.push(k12_domain(alloc, &domains[..d], domain)?)?;
    }
    Ok(segments)
}
