// Generated images, whose domains are dealt out to harts.
use crate::images::{on_harts, sections_alone};
use crate::orders::{Order, sections_after};
use image_check::Checked;
use image_gen::generate;
use std::alloc::Global;
use std::process::Abort;
use std::test::Fail;

// A seed, and how many harts. The images have 2, 3, 3, 4, 5 and 5 domains; each policy
// of the second level is that of two: a tree's of the first, lru of the second, fifo of
// the third.
const IMAGES: [(u64, u8); 6] = [(8, 2), (0, 3), (1, 2), (2, 4), (4, 4), (6, 3)];

// For the prover an image and a text are lent to functions that need not drop them.

fn image_of(alloc: Global, seed: u64, harts: u8) -> Result<Checked, Fail> {
    let text = generate(alloc, seed)?;
    on_harts(alloc, text.as_str(), harts)
}

fn is_told_in(
    rt: &impl Abort,
    alloc: Global,
    image: &Checked,
    seed: u64,
    order: Order,
    due: &str,
) -> Result<(), Fail> {
    let found = sections_after(rt, alloc, image, order)?;
    assert_eq!(rt; found.as_str(), due, "seed {seed}");
    Ok(())
}

fn is_told_alone(
    rt: &impl Abort,
    alloc: Global,
    image: &Checked,
    seed: u64,
    due: &str,
) -> Result<(), Fail> {
    let alone = sections_alone(alloc, image)?;
    assert_eq!(rt; alone.as_str(), due, "seed {seed}");
    Ok(())
}

fn is_told(
    rt: &impl Abort,
    alloc: Global,
    image: &Checked,
    seed: u64,
    due: &str,
) -> Result<(), Fail> {
    is_told_in(rt, alloc, image, seed, Order::OneByOne(0), due)?;
    is_told_in(rt, alloc, image, seed, Order::OneByOne(1), due)?;
    is_told_in(rt, alloc, image, seed, Order::drawn(seed), due)?;
    is_told_alone(rt, alloc, image, seed, due)
}

fn is_the_same(
    rt: &impl Abort,
    alloc: Global,
    image: &Checked,
    seed: u64,
    harts: u8,
) -> Result<(), Fail> {
    assert_eq!(rt;
        image.public().harts.len(),
        usize::from(harts),
        "seed {seed}"
    );
    let due = sections_after(rt, alloc, image, Order::LeastClock)?;
    is_told(rt, alloc, image, seed, due.as_str())
}

#[test]
fn sections_are_the_same_in_any_order_and_alone(rt: HostRuntime) -> Result<(), Fail> {
    for (seed, harts) in IMAGES {
        let image = image_of(rt.alloc(), seed, harts)?;
        is_the_same(&rt, rt.alloc(), &image, seed, harts)?;
    }
    Ok(())
}
