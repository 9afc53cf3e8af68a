// Seeds that generate, read and are accepted with ample memory; and whole texts, by hand.
mod texts;

use image_check::{CheckRefusal, check};
use image_gen::generate;
use image_record::Raw;
use image_text::read_image;
use std::alloc::Global;
use std::process::Abort;
use std::test::Fail;
use texts::{MADE, Made};

fn made(alloc: Global, seed: u64) -> Result<Raw, CheckRefusal> {
    let text = generate(alloc, seed).map_err(|_| CheckRefusal::Memory)?;
    read_image(alloc, text.as_bytes())
}

#[test]
fn every_seed_is_accepted(rt: HostRuntime) -> Result<(), CheckRefusal> {
    let alloc = rt.alloc();
    for seed in 0..10 {
        let checked = check(alloc, made(alloc, seed)?)?;
        drop(checked);
    }
    Ok(())
}

fn first_word(line: &str) -> &str {
    line.split(' ').next().unwrap_or("")
}

// The bytes of a program, of which each line has a word's and its instruction.
fn bytes_in(alloc: Global, lines: &str) -> Result<String, Fail> {
    let mut bytes = String::new(alloc);
    for line in lines.split('\n') {
        bytes.push_str(first_word(line))?;
    }
    Ok(bytes)
}

// The text with the bytes of a program in the place of its mark.
fn filled(alloc: Global, text: &str, mark: &str, lines: &str) -> Result<String, Fail> {
    let bytes = bytes_in(alloc, lines)?;
    Ok(text.replace(alloc, mark, bytes.as_str())?)
}

fn text_of(alloc: Global, made: &Made) -> Result<String, Fail> {
    let (_, text, [first, second]) = *made;
    let text = filled(alloc, text, "@0", first)?;
    filled(alloc, text.as_str(), "@1", second)
}

fn is_text(rt: &impl Abort, seed: u64, found: &str, due: &str) {
    assert_eq!(rt; found, due, "seed {seed}");
}

fn is_made(rt: &impl Abort, alloc: Global, made: &Made) -> Result<(), Fail> {
    let found = generate(alloc, made.0)?;
    let due = text_of(alloc, made)?;
    is_text(rt, made.0, found.as_str(), due.as_str());
    Ok(())
}

fn all_are_made(rt: &impl Abort, alloc: Global, rows: &[Made]) -> Result<(), Fail> {
    for made in rows {
        is_made(rt, alloc, made)?;
    }
    Ok(())
}

#[test]
fn a_seed_has_its_text(rt: HostRuntime) -> Result<(), Fail> {
    all_are_made(&rt, rt.alloc(), &MADE)
}
