// What a domain's segments have: pages, regions and rights.
ghost use Rattle.std.specs.Prelude.{◌≡◌, ◌<◌, ◌≤◌, ◌^◌, map};
ghost use Rattle.image_check.specs.Models.{segment_model};
ghost use Rattle.image_check.specs.Pages as spec;
ghost use Rattle.domain_open.specs.Placing.{AreSegments};
ghost use Rattle.world_view.specs.Opening as opening;
ghost use Rattle.world_view.specs.Kernel as kernel;

use image_check::Segment;
use tp_base::Rights;

/// How many regions there are.
pub const REGIONS: u32 = 1024;

// Pages of a region, the 4 MiB of one table.
const REGION_PAGES: u32 = 1024;

// How many page numbers there are.
const PAGES: u32 = 1 << 20;

fn has_page(segment: &Segment, page: u32) -> bool
    ensures value { result ≡ spec.has_page (segment_model segment.now) page }
{
    segment.page <= page && page - segment.page < segment.pages
}

// Some page of the segment lies in the region.
fn meets(segment: &Segment, region: u32) -> bool
    requires region { region < 1024 }
    ensures value { result ≡ spec.meets (segment_model segment.now) region }
{
    let first = region * REGION_PAGES;
    segment.page < first + REGION_PAGES
        && (first < segment.page || first - segment.page < segment.pages)
}

/// Whether some page lies in a region.
pub fn has_region(segments: &[Segment], region: u32) -> bool
    requires region { region < 1024 }
    ensures value { result ≡ spec.has_region (map segment_model segments.now) region }
{
    for segment in segments {
        if meets(segment, region) {
            return true;
        }
    }
    false
}

/// The rights of a page, if there is that page.
pub fn rights_of(segments: &[Segment], page: u32) -> Option<Rights>
    ensures value { result ≡ opening.rights_in (map segment_model segments.now) page }
{
    for segment in segments {
        if has_page(segment, page) {
            return Some(segment.rights);
        }
    }
    None
}

/// The rights of a page, none where there isn't that page.
pub fn page_rights(segments: &[Segment], page: u32) -> Rights
    ensures value { result ≡ kernel.rights_or_none (opening.rights_in (map segment_model segments.now) page) }
{
    rights_of(segments, page).unwrap_or(Rights::new(0))
}

/// How many regions below one have a page.
pub fn regions_below(segments: &[Segment], region: u32) -> u32
    requires region { region ≤ 1024 }
    ensures value { result ≡ spec.regions_below (map segment_model segments.now) region }
    ensures few { result ≤ region }
{
    let mut regions = 0;
    for r in 0..region {
        regions += u32::from(has_region(segments, r));
    }
    regions
}

/// How many pages there are.
pub fn pages_in(segments: &[Segment]) -> u32
    requires few { spec.pages_in (map segment_model segments.now) ≤ 2 ^ 15 }
    requires sound { AreSegments (map segment_model segments.now) }
    ensures value { result ≡ spec.pages_in (map segment_model segments.now) }
{
    pages_below(segments, PAGES)
}

/// How many pages there are below one.
pub fn pages_below(segments: &[Segment], page: u32) -> u32
    requires few { spec.pages_in (map segment_model segments.now) ≤ 2 ^ 15 }
    ensures value { result ≡ spec.pages_below (map segment_model segments.now) page }
{
    let mut pages = 0;
    for segment in segments {
        pages += segment.pages.min(page.saturating_sub(segment.page));
    }
    pages
}
