// Two domains, each on a hart of its own: what a run reports, in any order of the harts.
use crate::answers::{READS_A, USAGE, expect, image, tells};
use std::alloc::Global;
use std::test::Fail;
use tp_run::Status;

// Both read the same: each is the first on its hart, at 6150.
const RED: &str = "domain 0 red
status exited 0
retired 5
thread 0 ended pc 00010018 x5=00001806 x6=000019dd
readings 2 last 6621 list 6150 6621
replies 1 last 0:0 list 0:0
out 1 41
mem 842115e1
";

const BLUE: &str = "domain 1 blue
status exited 0
retired 5
thread 0 ended pc 00010018 x5=00001806 x6=000019dd
readings 2 last 6621 list 6150 6621
replies 1 last 0:0 list 0:0
out 1 42
mem 84311de1
";

// Hart 0 boots first, and finds the shared lines in no cache.
const SWITCHES: &str =
    "switch 0 used 755 pad 6150 count 2\nswitch 1 used 580 pad 6150 count 2\nend\n";

// The image of red and blue, blue's entry, which is the last, on hart 1.
fn on_two_harts(alloc: Global) -> Result<String, Fail> {
    let image = image(alloc, "", "", READS_A)?;
    Ok(format!(in alloc; "{image}hart = 1\n")?)
}

#[test]
fn the_hart_of_the_least_clock_comes_first(rt: HostRuntime) -> Result<(), Fail> {
    let alloc = rt.alloc();
    let image = on_two_harts(alloc)?;
    let report = format!(in alloc; "{RED}{BLUE}{SWITCHES}")?;
    expect(
        &rt,
        alloc,
        "tp run --slots 2",
        image.as_str(),
        Status::Done,
        report.as_str(),
    )
}

#[test]
fn sections_are_the_same_in_every_order(rt: HostRuntime) -> Result<(), Fail> {
    let alloc = rt.alloc();
    let image = on_two_harts(alloc)?;
    let sections = format!(in alloc; "{RED}{BLUE}switch 0 ")?;
    for seed in 0..16 {
        let line = format!(in alloc; "tp harts --slots 2 --seed {seed}")?;
        tells(&rt, alloc, line.as_str(), image.as_str(), sections.as_str())?;
    }
    Ok(())
}

#[test]
fn a_domain_alone_goes_by_its_hart(rt: HostRuntime) -> Result<(), Fail> {
    let alloc = rt.alloc();
    let image = on_two_harts(alloc)?;
    expect(
        &rt,
        alloc,
        "tp alone --domain 0 --slots 2",
        image.as_str(),
        Status::Done,
        RED,
    )?;
    expect(
        &rt,
        alloc,
        "tp alone --domain 1 --slots 2",
        image.as_str(),
        Status::Done,
        BLUE,
    )
}

#[test]
fn no_guard_is_turned_off_where_there_are_two(rt: HostRuntime) -> Result<(), Fail> {
    let alloc = rt.alloc();
    let image = on_two_harts(alloc)?;
    expect(
        &rt,
        alloc,
        "tp ablate --off pad --slots 2",
        image.as_str(),
        Status::Usage,
        USAGE,
    )
}

// An image of one hart has one order.
#[test]
fn one_hart_is_drawn_from_one(rt: HostRuntime) -> Result<(), Fail> {
    let alloc = rt.alloc();
    let image = image(alloc, "", "", READS_A)?;
    let text =
        "list 22300 22771\n|switch 0 used 820 pad 6150 count 1\nswitch 1 used 755 pad 6150 count 1\nend\n";
    tells(&rt, alloc, "tp run --slots 2", image.as_str(), text)?;
    tells(
        &rt,
        alloc,
        "tp harts --slots 2 --seed 7",
        image.as_str(),
        text,
    )
}
