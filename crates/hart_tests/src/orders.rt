// The orders in which harts take their events.
ghost use Rattle.std.specs.Prelude.{◌≡◌, None};

use crate::images::sections;
use hart_set::HartSet;
use image_check::Checked;
use rand_core::utils::NextWord;
use rand_pcg::Lcg64Xsh32;
use std::alloc::Global;
use std::process::Abort;
use std::test::Fail;

// A run here has fewer events: each takes a cycle at least, and each of 4 harts at most
// ends its 2 slots within 40,000.
const EVENTS: u32 = 200_000;

/// Which hart's event is next, of those that have slots left.
#[derive(Drop)]
pub enum Order {
    /// That of the least clock.
    LeastClock,
    /// This hart's until it has no slot left, then those of the next numbers, and round.
    OneByOne(u8),
    /// As these words have it.
    Drawn(Lcg64Xsh32),
}

/// How far a hart goes at a time.
#[derive(Clone, Copy)]
pub enum Stride {
    /// One event.
    Event,
    /// To the end of a slot.
    Slot,
}

impl Order {
    /// The order that a seed draws.
    pub fn drawn(seed: u64) -> Self {
        Order::Drawn(Lcg64Xsh32::new(seed, 1))
    }

    // The next event is of the hart that ranks lowest, and of such with the lowest number.
    fn rank(&mut self, h: u8, clock: u64) -> u64 {
        match self {
            Order::LeastClock => clock,
            Order::OneByOne(first) => u64::from(h.wrapping_sub(*first) % 4),
            Order::Drawn(words) => u64::from(words.next_word()),
        }
    }

    // The hart whose event is next, where one has fewer slots than these.
    fn next(&mut self, harts: &HartSet<'_>, slots: u32) -> Option<u8> {
        let mut next = None;
        let mut least = u64::MAX;
        for h in 0..harts.harts() {
            let rank = self.rank(h, harts.clock(h));
            if harts.slots(h) < slots && rank < least {
                least = rank;
                next = Some(h);
            }
        }
        next
    }
}

/// Runs the harts in this order until each has had so many slots, 65,536 at most.
pub fn run(rt: &impl Abort, harts: &mut HartSet<'_>, slots: u32, mut order: Order, stride: Stride)
    requires all { harts.old.1.off ≡ None }
    ensures image { harts.new.0 ≡ harts.old.0 }
{
    for _ in 0..EVENTS {
        let Some(h) = order.next(harts, slots) else {
            return;
        };
        assert!(rt; h < harts.harts() && harts.slots(h) < 65536);
        match stride {
            Stride::Event => harts.step(h),
            Stride::Slot => harts.run_slot(h),
        }
    }
    assert_eq!(rt; order.next(harts, slots), None);
}

/// The sections of an image's domains after each hart has had 2 slots.
pub fn sections_after(
    rt: &impl Abort,
    alloc: Global,
    image: &Checked,
    order: Order,
) -> Result<String, Fail> {
    let mut harts = HartSet::load(alloc, image)?;
    run(rt, &mut harts, 2, order, Stride::Event);
    sections(alloc, image, &harts)
}
