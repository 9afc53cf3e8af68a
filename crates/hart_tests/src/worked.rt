// Two domains, each on a hart of its own and counted by hand: each reads the clock
// before and after it prints.
ghost use Rattle.std.specs.Prelude.{◌≡◌, None};

use crate::images::{on_harts, sections, sections_alone, without_last};
use crate::orders::{Order, Stride, run, sections_after};
use hart_set::HartSet;
use image_check::Checked;
use std::alloc::Global;
use std::process::Abort;
use std::test::Fail;
use world_view::Used;

// The program of red, and that of blue with 0x42:
//
//     csrrs x5, cycle, x0
//     addi x10, x0, 0x41; addi x17, x0, 1; ecall
//     csrrs x6, cycle, x0
//     addi x17, x0, 0; ecall
const IMAGE: &str = "frames = 64
shared = 512
line = 64
l1i = { sets = 16, ways = 2, policy = \"lru\" }
l1d = { sets = 16, ways = 2, policy = \"lru\" }
l2 = { sets = 256, ways = 4, policy = \"lru\" }
tlb = { sets = 4, ways = 2, policy = \"lru\" }
predictor = 16
costs = { base = 1, l1 = 1, l2 = 8, mem = 40, wb = 10, tlb = 1, mispredict = 3, trap = 10, flush = 20 }
[[domain]]
name = \"red\"
colours = [1]
entry = 0x10000
segment = [{ page = 16, pages = 1, rights = \"rx\", hex = \"f32200c0130510049308100073000000732300c09308000073000000\" }]
[[domain]]
name = \"blue\"
colours = [2]
entry = 0x10000
segment = [{ page = 16, pages = 1, rights = \"rx\", hex = \"f32200c0130520049308100073000000732300c09308000073000000\" }]
[[schedule]]
domain = 0
length = 10000
pad = 6150
[[schedule]]
domain = 1
length = 10000
pad = 6150
";

// Both read the same: each is the first on its hart, at 6150.
const SECTIONS: &str = "domain 0 red
status exited 0
retired 5
thread 0 ended pc 00010018 x5=00001806 x6=000019dd
readings 2 last 6621 list 6150 6621
replies 1 last 0:0 list 0:0
out 1 41
mem 842115e1
domain 1 blue
status exited 0
retired 5
thread 0 ended pc 00010018 x5=00001806 x6=000019dd
readings 2 last 6621 list 6150 6621
replies 1 last 0:0 list 0:0
out 1 42
mem 84311de1
";

// Where no entry names blue.
const UNNAMED: &str = "domain 0 red
status exited 0
retired 5
thread 0 ended pc 00010018 x5=00001806 x6=000019dd
readings 2 last 6621 list 6150 6621
replies 1 last 0:0 list 0:0
out 1 41
mem 842115e1
domain 1 blue
status running
retired 0
thread 0 ready pc 00010000
readings 0
replies 0
out 0
mem 84311de1
";

fn took(largest: u64, count: u32) -> Used {
    Used { largest, count }
}

// For the prover an image and its harts are lent to functions that need not drop them.

// Runs so many slots of each hart; answers what the switches of each took.
fn run_both(
    rt: &impl Abort,
    harts: &mut HartSet<'_>,
    slots: u32,
    order: Order,
    stride: Stride,
) -> (Used, Used)
    requires all { harts.old.1.off ≡ None }
    ensures image { harts.new.0 ≡ harts.old.0 }
{
    run(rt, harts, slots, order, stride);
    assert_eq!(rt; harts.all_used().len(), 2);
    (harts.used(0), harts.used(1))
}

// The sections after so many slots of each hart, and what the switches of each took.
fn ran(
    rt: &impl Abort,
    alloc: Global,
    image: &Checked,
    slots: u32,
    order: Order,
    stride: Stride,
) -> Result<(String, (Used, Used)), Fail> {
    let mut harts = HartSet::load(alloc, image)?;
    let used = run_both(rt, &mut harts, slots, order, stride);
    Ok((sections(alloc, image, &harts)?, used))
}

// Each hart has two switches, and of these the one that took more is told.
fn two_slots_are_told(
    rt: &impl Abort,
    alloc: Global,
    order: Order,
    stride: Stride,
) -> Result<(), Fail> {
    let image = on_harts(alloc, IMAGE, 2)?;
    let (text, used) = ran(rt, alloc, &image, 2, order, stride)?;
    drop(image);
    assert_eq!(rt; text.as_str(), SECTIONS);
    assert_eq!(rt; used, (took(755, 2), took(580, 2)));
    Ok(())
}

#[test]
fn the_least_clock_goes_first(rt: HostRuntime) -> Result<(), Fail> {
    two_slots_are_told(&rt, rt.alloc(), Order::LeastClock, Stride::Event)
}

// A slot at a time, with hart 0 first, they come to what they do by the least clock.
#[test]
fn whole_slots_come_to_the_same(rt: HostRuntime) -> Result<(), Fail> {
    two_slots_are_told(&rt, rt.alloc(), Order::OneByOne(0), Stride::Slot)
}

fn any_order_is_told(rt: &impl Abort, alloc: Global, image: &Checked) -> Result<(), Fail> {
    for seed in 0..16 {
        let found = sections_after(rt, alloc, image, Order::drawn(seed))?;
        assert_eq!(rt; found.as_str(), SECTIONS, "seed {seed}");
    }
    Ok(())
}

#[test]
fn sections_are_the_same_in_any_order(rt: HostRuntime) -> Result<(), Fail> {
    let image = on_harts(rt.alloc(), IMAGE, 2)?;
    any_order_is_told(&rt, rt.alloc(), &image)
}

fn boots_took(
    rt: &impl Abort,
    alloc: Global,
    image: &Checked,
    first: u8,
    boots: (Used, Used),
) -> Result<(), Fail> {
    let order = Order::OneByOne(first);
    let (_, used) = ran(rt, alloc, image, 1, order, Stride::Event)?;
    assert_eq!(rt; used, boots, "hart {first} first");
    let found = sections_after(rt, alloc, image, Order::OneByOne(first))?;
    assert_eq!(rt; found.as_str(), SECTIONS, "hart {first} first");
    Ok(())
}

fn both_boots_took(rt: &impl Abort, alloc: Global, image: &Checked) -> Result<(), Fail> {
    let (cold, warm) = (took(755, 1), took(435, 1));
    boots_took(rt, alloc, image, 0, (cold, warm))?;
    boots_took(rt, alloc, image, 1, (warm, cold))
}

// One hart has all its slots before the other begins; after one slot of each, the boots
// alone are counted. The first finds none of the kernel's shared lines in the second
// level; the other finds all.
#[test]
fn the_first_boot_takes_longest(rt: HostRuntime) -> Result<(), Fail> {
    let image = on_harts(rt.alloc(), IMAGE, 2)?;
    both_boots_took(&rt, rt.alloc(), &image)
}

fn are_told_alone(
    rt: &impl Abort,
    alloc: Global,
    image: &Checked,
    wanted: &str,
) -> Result<(), Fail> {
    let found = sections_alone(alloc, image)?;
    assert_eq!(rt; found.as_str(), wanted);
    Ok(())
}

// Alone, each goes by the entry of its own hart.
#[test]
fn each_is_the_same_alone(rt: HostRuntime) -> Result<(), Fail> {
    let image = on_harts(rt.alloc(), IMAGE, 2)?;
    are_told_alone(&rt, rt.alloc(), &image, SECTIONS)
}

fn blue_has_no_slot(rt: &impl Abort, alloc: Global, image: &Checked) -> Result<(), Fail> {
    are_told_alone(rt, alloc, image, UNNAMED)?;
    let among = sections_after(rt, alloc, image, Order::LeastClock)?;
    assert_eq!(rt; among.as_str(), UNNAMED);
    Ok(())
}

// Blue has no entry, and so no slot, neither among others nor alone.
#[test]
fn a_domain_that_no_entry_names_gets_no_slot(rt: HostRuntime) -> Result<(), Fail> {
    let image = without_last(rt.alloc(), IMAGE)?;
    blue_has_no_slot(&rt, rt.alloc(), &image)
}
