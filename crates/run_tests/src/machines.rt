// A domain alone, and the same domain in the whole machine.
ghost use Rattle.std.specs.Prelude.{◌<◌};

use crate::answers::{MACHINE, READS_A, USAGE, answer, expect, image};
use crate::timed::BLUE;
use std::alloc::Global;
use std::process::Abort;
use std::test::Fail;
use tp_run::Status;

const ALONE: &str = "tp alone --domain 1 --slots 4";

const NO_DOMAIN: &str = "tp alone --domain 2 --slots 4";

const LAST_NUMBER: &str = "tp alone --domain 31 --slots 4";

#[test]
fn a_domain_alone_has_its_section(rt: HostRuntime) -> Result<(), Fail> {
    let alloc = rt.alloc();
    let image = image(alloc, "", "", READS_A)?;
    expect(&rt, alloc, ALONE, image.as_str(), Status::Done, BLUE)
}

// Words that name no domain have the usage line; but a broken rule is named before.
#[test]
fn a_domain_that_the_image_lacks_is_not_run(rt: HostRuntime) -> Result<(), Fail> {
    let alloc = rt.alloc();
    let image = image(alloc, "", "", READS_A)?;
    for words in [NO_DOMAIN, LAST_NUMBER] {
        expect(&rt, alloc, words, image.as_str(), Status::Usage, USAGE)?;
    }
    let broken = image.replace(alloc, "pad = 6150", "pad = 6149")?;
    let line = "refused K17 at 0 found 6149 wanted 6150\n";
    expect(
        &rt,
        alloc,
        NO_DOMAIN,
        broken.as_str(),
        Status::Refused,
        line,
    )?;
    expect(&rt, alloc, ALONE, broken.as_str(), Status::Refused, line)
}

// Numbers drawn one after the other.
#[derive(Drop)]
struct Dice {
    state: u32,
}

impl Dice {
    // A number below this one.
    fn below(&mut self, count: u32) -> u32
        requires some { 0 < count }
        ensures small { result < count }
    {
        self.state = self
            .state
            .wrapping_mul(1_664_525)
            .wrapping_add(1_013_904_223);
        (self.state >> 8) % count
    }
}

fn push(alloc: Global, code: &mut String, word: u32) -> Result<(), Fail> {
    let text = format!(in alloc; "{:08x}", word.swap_bytes())?;
    code.push_str(text.as_str())?;
    Ok(())
}

fn add_immediate(rd: u32, rs1: u32, immediate: u32) -> u32 {
    (immediate << 20) | (rs1 << 15) | (rd << 7) | 0x13
}

fn load_upper(rd: u32, immediate: u32) -> u32 {
    (immediate << 12) | (rd << 7) | 0x37
}

// Sums, a load and a store in the data page, counters, branches over one instruction,
// and, where the machine has them, products and divisions.
fn instruction(dice: &mut Dice, muldiv: bool) -> u32 {
    let rd = 6 + dice.below(4);
    let rs = 6 + dice.below(12);
    let at = 4 * dice.below(512);
    let kinds = if muldiv { 8 } else { 6 };
    match dice.below(kinds) {
        // addi rd, rs, at
        0 => add_immediate(rd, rs, at),
        // xor rd, rd, rs
        1 => (rs << 20) | (rd << 15) | 0x4000 | (rd << 7) | 0x33,
        // lw rd, at(x5)
        2 => (at << 20) | (5 << 15) | 0x2000 | (rd << 7) | 0x03,
        // sw rs, at(x5)
        3 => ((at >> 5) << 25) | (rs << 20) | (5 << 15) | 0x2000 | ((at & 31) << 7) | 0x23,
        // csrrs rd, cycle (or time, or instret), x0
        4 => ((0xc00 + dice.below(3)) << 20) | 0x2000 | (rd << 7) | 0x73,
        // beq (or bne) rd, rs, .+8
        5 => (rs << 20) | (rd << 15) | (dice.below(2) << 12) | 0x400 | 0x63,
        // mul (or mulh, to remu) rd, rd, rs
        _ => 0x0200_0033 | (rs << 20) | (rd << 15) | (dice.below(8) << 12) | (rd << 7),
    }
}

// A kernel call, with arguments of its kind; few are the last of their thread.
fn push_call(alloc: Global, code: &mut String, dice: &mut Dice) -> Result<(), Fail> {
    let number = match dice.below(60) {
        0 => 0,
        1 => 14,
        2 => 15,
        any => 1 + any % 13,
    };
    // addi x10, x0, the first argument; of SPAWN lui x10, 0x10
    let first = match number {
        12 => load_upper(10, 0x10),
        _ => add_immediate(10, 0, dice.below(8)),
    };
    // addi x11, x0, the second argument; of TABLE and MAP lui x11, the upper bits of an address
    let second = match number {
        3 => load_upper(11, 0x400 * dice.below(4)),
        4 => load_upper(11, 0x400 * dice.below(3) + 0x20 + dice.below(4)),
        _ => add_immediate(11, 0, dice.below(8)),
    };
    push(alloc, code, first)?;
    push(alloc, code, second)?;
    // addi x12, x0, the rights; addi x17, x0, number; ecall
    push(alloc, code, add_immediate(12, 0, 1 + 2 * dice.below(4)))?;
    push(alloc, code, add_immediate(17, 0, number))?;
    push(alloc, code, 0x73)
}

// A program that goes round for ever, unless a call or an exception ends it.
fn program(alloc: Global, dice: &mut Dice, muldiv: bool) -> Result<String, Fail> {
    let mut code = String::new(alloc);
    // lui x5, 0x20
    push(alloc, &mut code, load_upper(5, 0x20))?;
    for item in 0..40 {
        match dice.below(3) {
            0 => push_call(alloc, &mut code, dice)?,
            _ => push(alloc, &mut code, instruction(dice, muldiv))?,
        }
    }
    // lui x18, 0x10; jalr x0, 0(x18)
    push(alloc, &mut code, load_upper(18, 0x10))?;
    push(alloc, &mut code, (18 << 15) | 0x67)?;
    Ok(code)
}

// Six moments of the lines of domain `d`.
fn moments(alloc: Global, dice: &mut Dice, d: u32) -> Result<String, Fail>
    requires few { d < 8 }
{
    let mut moments = String::new(alloc);
    let mut at = 0u32;
    for _ in 0..6 {
        at = at.wrapping_add(1 + dice.below(20_000));
        let line = d + 8 * dice.below(2);
        let moment = format!(in alloc; "[{at}, {line}], ")?;
        moments.push_str(moment.as_str())?;
    }
    Ok(moments)
}

// The line of some of the calls, two of three each.
fn some_calls(alloc: Global, dice: &mut Dice) -> Result<String, Fail> {
    let mut calls = String::new(alloc);
    for number in 0..15 {
        if dice.below(3) > 0 {
            let call = format!(in alloc; "{number}, ")?;
            calls.push_str(call.as_str())?;
        }
    }
    Ok(format!(in alloc; "calls = [{calls}]\n")?)
}

fn push_domain(
    alloc: Global,
    image: &mut String,
    dice: &mut Dice,
    d: u32,
    parts: Parts,
) -> Result<(), Fail>
    requires few { d < 8 }
{
    let program = program(alloc, dice, parts.muldiv)?;
    let moments = moments(alloc, dice, d)?;
    let calls = if parts.calls {
        some_calls(alloc, dice)?
    } else {
        String::new(alloc)
    };
    let (colour, other) = (d + 1, d + 8);
    let domain = format!(in alloc;
        "[[domain]]\nname = \"g{d}\"\n{calls}colours = [{colour}]\nentry = 0x10000\ncaps = [\"irq {d}\", \"page 32\", \"irq {other}\"]\nlines = [{d}, {other}]\nmoments = [{moments}]\nsegment = [{{ page = 16, pages = 1, rights = \"rx\", hex = \"{program}\" }}, {{ page = 32, pages = 1, rights = \"rw\", hex = \"\" }}]\n"
    )?;
    image.push_str(domain.as_str())?;
    Ok(())
}

// Two entries, one of each domain, and up to two more.
fn push_schedule(alloc: Global, image: &mut String, dice: &mut Dice) -> Result<(), Fail> {
    for e in 0..2 + dice.below(3) {
        let domain = match e {
            0 | 1 => e,
            _ => dice.below(2),
        };
        let length = 1000 + dice.below(6000);
        let pad = 6216 + dice.below(100);
        let entry = format!(in alloc;
            "[[schedule]]\ndomain = {domain}\nlength = {length}\npad = {pad}\n"
        )?;
        image.push_str(entry.as_str())?;
    }
    Ok(())
}

fn policy(number: u32) -> &'static str {
    match number % 4 {
        0 => "lru",
        1 => "fifo",
        2 => "plru",
        _ => "nmru",
    }
}

// What an image has beside its machine: whether products and divisions, and
// whether it is of the second version, with the calls of each domain.
#[derive(Clone, Copy)]
struct Parts {
    muldiv: bool,
    calls: bool,
}

// A predictor with or without a history and targets, and what `parts` says of the machine.
fn keys(alloc: Global, seed: u32, parts: Parts) -> Result<String, Fail> {
    let history = [0, 2, 8][seed as usize % 3];
    let targets = ["", "targets = 1\n", "targets = 16\n"][seed as usize / 3 % 3];
    let costs = if parts.muldiv {
        "muldiv = { mul = 4, div = 2 }\n"
    } else {
        ""
    };
    let version = if parts.calls { "version = 2\n" } else { "" };
    Ok(format!(in alloc; "{version}predictor = 16\nhistory = {history}\n{targets}{costs}")?)
}

fn generated(alloc: Global, seed: u32) -> Result<String, Fail> {
    let mut dice = Dice { state: seed };
    let (second, first) = (policy(seed), policy(seed / 4));
    let parts = Parts {
        muldiv: seed % 2 == 1,
        calls: seed / 16 % 2 == 1,
    };
    let keys = keys(alloc, seed, parts)?;
    let mut image = MACHINE
        .replace(alloc, "predictor = 16\n", keys.as_str())?
        .replace(
            alloc,
            "4, policy = \"lru\"",
            format!(in alloc; "4, policy = \"{second}\"")?.as_str(),
        )?
        .replace(
            alloc,
            "2, policy = \"lru\"",
            format!(in alloc; "2, policy = \"{first}\"")?.as_str(),
        )?;
    push_domain(alloc, &mut image, &mut dice, 0, parts)?;
    push_domain(alloc, &mut image, &mut dice, 1, parts)?;
    push_schedule(alloc, &mut image, &mut dice)?;
    Ok(image)
}

// What these words, which end in a number of slots, write.
fn done(
    rt: &impl Abort,
    alloc: Global,
    words: &str,
    slots: u32,
    image: &str,
) -> Result<Vec<u8>, Fail> {
    let line = format!(in alloc; "tp {words} --slots {slots}")?;
    let (status, text) = answer(alloc, line.as_str(), image)?;
    assert_eq!(rt; status, Status::Done, "at {line}");
    Ok(text)
}

// The sections of both domains, each alone, and then the switch lines.
fn says_the_same(rt: &impl Abort, alloc: Global, seed: u32, slots: u32) -> Result<(), Fail> {
    let image = generated(alloc, seed)?;
    let report = done(rt, alloc, "run", slots, image.as_str())?;
    let mut apart = done(rt, alloc, "alone --domain 0", slots, image.as_str())?;
    let blue = done(rt, alloc, "alone --domain 1", slots, image.as_str())?;
    apart.extend_from_slice(blue.as_slice())?;
    apart.extend_from_slice(b"switch 0 used ")?;
    assert!(rt;
        report.starts_with(apart.as_slice()),
        "seed {seed}, {slots} slots"
    );
    Ok(())
}

#[test]
fn a_domain_says_the_same_alone(rt: HostRuntime) -> Result<(), Fail> {
    for seed in 0..100 {
        for slots in [1, 5, 24] {
            says_the_same(&rt, rt.alloc(), seed, slots)?;
        }
    }
    Ok(())
}
