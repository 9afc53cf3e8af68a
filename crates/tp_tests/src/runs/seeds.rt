// The images that seeds make, through whole runs.
use super::{Due, USAGE, answer, expect_each, is_answered};
use std::alloc::Global;
use std::process::Abort;
use std::test::Fail;
use tp_run::Status;

const NOTHING: &[u8] = b"";

// Of four domains over a second level that is FIFO, and of two over one that is a tree.
const DEMO_7: &str = "demo 7 slots 64
domain 0 retired 16027 readings 1603 replies 2885 mem 5841f3ff
domain 1 retired 11909 readings 1701 replies 2128 mem 6c500a9c
domain 2 retired 15195 readings 2461 replies 2733 mem 47148c03
domain 3 retired 25009 readings 3630 replies 1614 mem f8053918
switch 0 used 809 pad 6150 count 16
switch 1 used 838 pad 6150 count 16
switch 2 used 805 pad 6150 count 16
switch 3 used 755 pad 6150 count 16
end
";

const DEMO_8: &str = "demo 8 slots 64
domain 0 retired 29518 readings 2036 replies 3563 mem a42f0ad5
domain 1 retired 35502 readings 4892 replies 5590 mem 87774844
switch 0 used 808 pad 6150 count 32
switch 1 used 755 pad 6150 count 32
end
";

// What these words write of this image.
fn done(rt: &impl Abort, alloc: Global, line: &str, image: &[u8]) -> Result<Vec<u8>, Fail> {
    let (status, text) = answer(alloc, line, image, 4096, &[], &[])?;
    assert_eq!(rt; status, Status::Done, "at {line}");
    Ok(text)
}

fn is_accepted(rt: &impl Abort, alloc: Global, image: &[u8]) -> Result<(), Fail> {
    let text = done(rt, alloc, "tp check", image)?;
    assert_eq!(rt; text.as_slice(), "accepted\n".as_bytes());
    Ok(())
}

fn makes_an_image(rt: &impl Abort, alloc: Global, line: &str) -> Result<(), Fail> {
    let image = done(rt, alloc, line, NOTHING)?;
    is_accepted(rt, alloc, image.as_slice())
}

#[test]
fn a_seed_makes_an_image(rt: HostRuntime) -> Result<(), Fail> {
    let alloc = rt.alloc();
    makes_an_image(&rt, alloc, "tp gen --seed 7")?;
    makes_an_image(&rt, alloc, "tp gen --seed 4294967295")
}

const DEMOS: [Due; 2] = [
    ("tp demo --seed 7", Status::Done, DEMO_7),
    ("tp demo --seed 8", Status::Done, DEMO_8),
];

#[test]
fn a_seeds_run_is_summarized(rt: HostRuntime) -> Result<(), Fail> {
    expect_each(&rt, rt.alloc(), "", &DEMOS)
}

fn takes_no_image(rt: &impl Abort, alloc: Global, line: &str) -> Result<(), Fail> {
    let text = done(rt, alloc, line, NOTHING)?;
    let same = answer(alloc, line, b"no image", 4096, &[1], &[])?;
    is_same(rt, line, &same, text.as_slice());
    Ok(())
}

fn is_same(rt: &impl Abort, line: &str, found: &(Status, Vec<u8>), text: &[u8]) {
    assert_eq!(rt; found.0, Status::Done, "at {line}");
    assert_eq!(rt; found.1.as_slice(), text, "at {line}");
}

// The source isn't read, not even where it would fail.
#[test]
fn a_seed_takes_no_image(rt: HostRuntime) -> Result<(), Fail> {
    takes_no_image(&rt, rt.alloc(), "tp gen --seed 7")?;
    takes_no_image(&rt, rt.alloc(), "tp demo --seed 7")
}

// The eighth write of a byte fails.
fn fails_to_write(rt: &impl Abort, alloc: Global, line: &str, written: &str) -> Result<(), Fail> {
    let found = answer(alloc, line, NOTHING, 1, &[], &[8])?;
    is_answered(rt, line, &found, Status::WriteFault, written);
    Ok(())
}

#[test]
fn a_write_of_a_seeds_text_that_fails_is_told(rt: HostRuntime) -> Result<(), Fail> {
    fails_to_write(&rt, rt.alloc(), "tp gen --seed 7", "# Gener")?;
    fails_to_write(&rt, rt.alloc(), "tp demo --seed 7", "demo 7 ")
}

const OF_NO_SEED: [Due; 4] = [
    ("tp gen", Status::Usage, USAGE),
    ("tp demo", Status::Usage, USAGE),
    ("tp gen --seed 4294967296", Status::Usage, USAGE),
    ("tp demo --seed 4294967296", Status::Usage, USAGE),
];

#[test]
fn words_without_their_seed_have_the_usage_line(rt: HostRuntime) -> Result<(), Fail> {
    expect_each(&rt, rt.alloc(), "", &OF_NO_SEED)
}

fn alone(alloc: Global, image: &[u8], d: u32) -> Result<(Status, Vec<u8>), Fail> {
    let line = format!(in alloc; "tp alone --domain {d} --slots 8")?;
    answer(alloc, line.as_str(), image, 4096, &[], &[])
}

// Appends the section of a domain alone, if the image has it.
fn has_section(alloc: Global, image: &[u8], d: u32, sections: &mut Vec<u8>) -> Result<bool, Fail> {
    let (status, text) = alone(alloc, image, d)?;
    if status == Status::Usage {
        return Ok(false);
    }
    sections.extend_from_slice(text.as_slice())?;
    Ok(true)
}

// The sections of all domains, each alone, and what follows them in a report.
fn sections_apart(alloc: Global, image: &[u8]) -> Result<Vec<u8>, Fail> {
    let mut sections = Vec::new(alloc);
    for d in 0..5u32 {
        if !has_section(alloc, image, d, &mut sections)? {
            break;
        }
    }
    sections.extend_from_slice(b"switch 0 used ")?;
    Ok(sections)
}

fn says_the_same(rt: &impl Abort, alloc: Global, seed: u32, image: &[u8]) -> Result<(), Fail> {
    is_accepted(rt, alloc, image)?;
    let report = done(rt, alloc, "tp run --slots 8", image)?;
    let apart = sections_apart(alloc, image)?;
    assert!(rt; report.starts_with(apart.as_slice()), "seed {seed}");
    Ok(())
}

fn generated(rt: &impl Abort, alloc: Global, seed: u32) -> Result<Vec<u8>, Fail> {
    let line = format!(in alloc; "tp gen --seed {seed}")?;
    done(rt, alloc, line.as_str(), NOTHING)
}

#[test]
fn each_domain_of_a_seed_says_the_same_alone(rt: HostRuntime) -> Result<(), Fail> {
    let alloc = rt.alloc();
    for seed in 0..100u32 {
        let image = generated(&rt, alloc, seed)?;
        says_the_same(&rt, alloc, seed, image.as_slice())?;
    }
    Ok(())
}
