// The frames that segments need.
ghost use Rattle.std.specs.Prelude.{◌≡◌, ◌<◌, ◌≤◌, ◌^◌, map, length};
ghost use Rattle.image_record.specs.Parts.{segment_model};
ghost use Rattle.domain_check.specs.Colours as colours_spec;
ghost use Rattle.domain_check.specs.Segments.{segment_of};
ghost use Rattle.domain_check.specs.Pages as spec;

use image_record::RawSegment;

/// The regions in which a segment may have a page: its last page may be past
/// the last of the address space, as its rule comes later.
const REGIONS: u32 = 1025;

#[tactic(auto, unfolding(crate::specs::Segments::segment_of))]
fn meets(segment: &RawSegment, region: u32) -> bool
    ensures value { result ≡ spec.meets (segment_of (segment_model segment.now)) region }
{
    let first = 1024 * u64::from(region);
    u64::from(segment.page) < first + 1024
        && first < u64::from(segment.page) + u64::from(segment.pages)
}

#[tactic(auto, unfolding(crate::specs::Pages::has_region))]
fn has_region(segments: &[RawSegment], region: u32) -> bool
    ensures value { result ≡ spec.has_region (map segment_of (map segment_model segments.now)) region }
{
    for segment in segments {
        if meets(segment, region) {
            return true;
        }
    }
    false
}

#[tactic(auto, unfolding(crate::specs::Pages::regions_below))]
fn regions_in(segments: &[RawSegment]) -> u32
    ensures value { result ≡ spec.regions_below (map segment_of (map segment_model segments.now)) 1025 }
    ensures few { result ≤ 1025 }
{
    let mut count = 0;
    let mut region = 0;
    while region < REGIONS {
        if has_region(segments, region) {
            count += 1;
        }
        region += 1;
    }
    count
}

#[tactic(auto, unfolding(crate::specs::Pages::pages_in, crate::specs::Segments::segment_of))]
fn pages_in(segments: &[RawSegment]) -> u64
    requires few { length segments.now ≤ 16 }
    ensures value { result ≡ spec.pages_in (map segment_of (map segment_model segments.now)) }
    ensures small { result ≤ 2 ^ 36 }
{
    let mut pages = 0;
    for segment in segments {
        pages += u64::from(segment.pages);
    }
    pages
}

/// The frames that a domain of these segments needs.
pub fn need_of(segments: &[RawSegment]) -> u64
    requires few { length segments.now ≤ 16 }
    ensures value { result ≡ colours_spec.need_of (map segment_of (map segment_model segments.now)) }
    ensures small { result < 2 ^ 63 }
{
    5 + u64::from(regions_in(segments)) + pages_in(segments)
}
