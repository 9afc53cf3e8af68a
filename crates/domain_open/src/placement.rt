// In which frames of its pool a domain's page tables and pages stand, and the
// entries that name them.
ghost use Rattle.std.specs.Prelude.{◌≡◌, ◌+◌};
ghost use Rattle.hardware_check.specs.Models.{hardware_model};
ghost use Rattle.image_check.specs.Models.{own_model};
ghost use Rattle.image_check.specs.Pages as pages;
ghost use Rattle.world_view.specs.Frames as spec;
ghost use Rattle.world_view.specs.Opening as opening;
ghost use Rattle.domain_open.specs.Placing.{HasPool};

use crate::segments::{REGIONS, has_region, pages_below, regions_below, rights_of};
use image_check::{Hardware, Own};
use sv32_walk::{leaf_word, table_word};
use tp_base::FrameNo;

// The place of the root in the pool.
const ROOT: usize = 4;

// The place of the first table.
const FIRST_TABLE: u32 = 5;

/// A domain and the frames of its pool, ascending: the first four are those of its
/// kernel clone, then come its root, its tables, by ascending regions, and its
/// pages, by ascending numbers.
#[derive(Drop)]
pub struct Placement<'a> {
    pub hardware: &'a Hardware,
    pub own: &'a Own,
    pool: &'a [FrameNo],
    // The place in the pool of the least page's frame.
    first_page: u32,
    ghost has_pool: { HasPool (hardware_model hardware.now) (own_model own.now) },
    ghost is_pool: { pool.now ≡ spec.pool (hardware_model hardware.now) (own_model own.now) },
    ghost follows: { first_page ≡ 5 + pages.regions_in (own_model own.now).segments },
}

impl<'a> Placement<'a> {
    ghost use Rattle.std.specs.Prelude.{◌≡◌, ◌<◌, ◌≤◌, true};
    ghost use Rattle.hardware_check.specs.Models.{hardware_model};
    ghost use Rattle.image_check.specs.Models.{own_model};
    ghost use Rattle.image_check.specs.Pages as pages;
    ghost use Rattle.world_view.specs.Frames as spec;
    ghost use Rattle.world_view.specs.Opening as opening;
    ghost use Rattle.domain_open.specs.Placing.{HasPool};

    /// A domain in its pool.
    pub fn new(hardware: &'a Hardware, own: &'a Own, pool: &'a [FrameNo]) -> Self
        requires has_pool { HasPool (hardware_model hardware.now) (own_model own.now) }
        requires is_pool { pool.now ≡ spec.pool (hardware_model hardware.now) (own_model own.now) }
        ensures hardware { result.hardware.now ≡ hardware.now }
        ensures own { result.own.now ≡ own.now }
    {
        let first_page = FIRST_TABLE + regions_below(own.segments.as_slice(), REGIONS);
        Placement {
            hardware,
            own,
            pool,
            first_page,
        }
    }

    /// The frame of the root.
    pub fn root_frame(&self) -> FrameNo
        ensures value { result
            ≡ spec.root_of (hardware_model self.now.hardware.now) (own_model self.now.own.now) }
        ensures within { result < self.now.hardware.now.frames }
    {
        self.pool[ROOT]
    }

    /// The frame of the table of a region that has a page.
    pub fn table_frame(&self, region: u32) -> FrameNo
        requires region { region < 1024 }
        requires some { pages.has_region (own_model self.now.own.now).segments region ≡ true }
        ensures value { result
            ≡ spec.table_frame (hardware_model self.now.hardware.now) (own_model self.now.own.now) region }
        ensures within { result < self.now.hardware.now.frames }
    {
        let place = FIRST_TABLE + regions_below(self.own.segments.as_slice(), region);
        self.pool[place as usize]
    }

    /// The frame of a page that there is.
    pub fn page_frame(&self, page: u32) -> FrameNo
        requires there { pages.pages_below (own_model self.now.own.now).segments page
            < pages.pages_in (own_model self.now.own.now).segments }
        ensures value { result
            ≡ spec.page_frame (hardware_model self.now.hardware.now) (own_model self.now.own.now) page }
        ensures within { result < self.now.hardware.now.frames }
    {
        let place = self.first_page + pages_below(self.own.segments.as_slice(), page);
        self.pool[place as usize]
    }

    /// The root's entry for a region.
    pub fn root_entry(&self, region: u32) -> u32
        requires region { region < 1024 }
        ensures value { result
            ≡ opening.root_entry (hardware_model self.now.hardware.now) (own_model self.now.own.now) region }
    {
        if !has_region(self.own.segments.as_slice(), region) {
            return 0;
        }
        table_word(self.table_frame(region))
    }

    /// A table's entry for a page.
    pub fn leaf_entry(&self, page: u32) -> u32
        ensures value { result
            ≡ opening.leaf_entry (hardware_model self.now.hardware.now) (own_model self.now.own.now) page }
    {
        let Some(rights) = rights_of(self.own.segments.as_slice(), page) else {
            return 0;
        };
        leaf_word(self.page_frame(page), rights)
    }
}
