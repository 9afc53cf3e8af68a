// What a slot says, and what it says after a change.
ghost use Rattle.std.specs.Prelude.{◌≡◌};
ghost use Rattle.cap_table.specs.Slots.{page_of, line_of, mapped_at, installed_at, alike, copied, noted, is_in_region};

use crate::Cap;
use tp_base::{FrameNo, Rights};

/// The bytes of addresses that one page table maps.
pub(crate) const REGION: u32 = 4 << 20;

pub(crate) fn page_of(cap: &Option<Cap>) -> Option<FrameNo>
    ensures value { result ≡ page_of cap.now }
{
    match cap {
        Some(Cap::Frame { frame, .. }) => Some(*frame),
        _ => None,
    }
}

pub(crate) fn mapped_at(cap: &Option<Cap>) -> Option<u32>
    ensures value { result ≡ mapped_at cap.now }
{
    match cap {
        Some(Cap::Frame { mapped, .. }) => *mapped,
        _ => None,
    }
}

pub(crate) fn installed_at(cap: &Option<Cap>) -> Option<u32>
    ensures value { result ≡ installed_at cap.now }
{
    match cap {
        Some(Cap::Table { installed, .. }) => *installed,
        _ => None,
    }
}

// Whether an address is in a region, that is an address divided by 4 MiB.
pub(crate) fn is_in_region(region: u32, at: Option<u32>) -> bool
    ensures value { result ≡ is_in_region region at }
{
    match at {
        Some(at) => at / REGION == region,
        None => false,
    }
}

// Whether both name the same page, or the same line.
pub(crate) fn are_alike(cap: &Option<Cap>, other: &Option<Cap>) -> bool
    ensures value { result ≡ alike cap.now other.now }
{
    match (cap, other) {
        (Some(Cap::Frame { frame, .. }), Some(Cap::Frame { frame: page, .. })) => frame == page,
        (Some(Cap::Irq { line }), Some(Cap::Irq { line: number })) => line == number,
        _ => false,
    }
}

// The same page with these rights, not mapped, or the same line.
pub(crate) fn copied(cap: &Option<Cap>, rights: Rights) -> Option<Cap>
    ensures value { result ≡ copied cap.now rights }
{
    match cap {
        Some(Cap::Frame { frame, .. }) => Some(Cap::Frame {
            frame: *frame,
            rights,
            mapped: None,
        }),
        _ => *cap,
    }
}

// The same page or table, now mapped or installed at this address.
pub(crate) fn noted(mut cap: Option<Cap>, at: Option<u32>) -> Option<Cap>
    ensures value { result ≡ noted cap at }
{
    match &mut cap {
        Some(Cap::Frame { mapped, .. }) => *mapped = at,
        Some(Cap::Table { installed, .. }) => *installed = at,
        _ => {}
    }
    cap
}
