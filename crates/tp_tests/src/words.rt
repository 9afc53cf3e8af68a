// Lines of words, and what they ask for.
use guards::Guard;
use std::alloc::Global;
use std::process::Abort;
use std::test::Fail;
use tp_words::{Command, parse};

// A line, a bar, and what it asks for, if anything: a number of slots asks for a run, and
// a domain's number before it for that domain alone, a guard before it for a run without that
// guard; a seed has its command before it, and so have the slots and the seed of an order of
// harts, and the domain whose tenant may hold an image.
const LINES: &str = "tp check|check
tp bound|bound
tp run --slots 4|4
tp run --slots=4|4
tp run --slots 0|0
tp run --slots 65536|65536
tp run --slots 00004|4
tp run --slots 000004|4
tp run --slots +4|4
tp run --slots=-0|0
tp run --slots=-00000|0
tp run --slots 4 --|4
tp check --|check
tp bound --|bound
tp alone --domain 1 --slots 4|1 4
tp alone --slots 4 --domain 1|1 4
tp alone --slots=0 --domain=31|31 0
tp alone --domain +0 --slots 65536|0 65536
tp alone --domain=-0 --slots=-0|0 0
tp gen --seed 7|gen 7
tp gen --seed=0|gen 0
tp gen --seed=-0|gen 0
tp gen --seed 4294967295|gen 4294967295
tp demo --seed 7|demo 7
tp demo --seed +4294967295|demo 4294967295
tp ablate --off flush --slots 4|flush 4
tp ablate --off=flush --slots=4|flush 4
tp ablate --slots 4 --off prefetch|prefetch 4
tp ablate --off pad --slots 0|pad 0
tp ablate --off colour --slots 65536|colour 65536
tp ablate --off clone --slots +4|clone 4
tp ablate --off irq --slots=-0|irq 0
tp harts --slots 4 --seed 7|harts 4 7
tp harts --seed 7 --slots 4|harts 4 7
tp harts --slots=65536 --seed=4294967295|harts 65536 4294967295
tp harts --slots +0 --seed=-0|harts 0 0
tp redact --domain 1|redact 1
tp redact --domain=31|redact 31
tp redact --domain=-0|redact 0
|
tp|
tp fly|
tp fly --slots 4|
tp check --slots 4|
tp bound --slots 4|
tp check x|
tp check -- x|
tp check -- --|
tp -- check|
tp --|
tp check bound|
tp bound check|
tp --check|
tp Check|
tp check --help|
tp help bound|
tp help|
tp help run|
tp --help|
tp -h|
tp --version|
tp run|
tp run --help|
tp run --slot 4|
tp run --slots|
tp run --slots 65537|
tp run --slots 99999999999999999999|
tp run --slots x|
tp run --slots 4x|
tp run --slots -1|
tp run --slots=-1|
tp run --slots -0|
tp run --slots=--0|
tp run --slots=-+0|
tp run --slots=-|
tp run --slots --|
tp run --slots=|
tp run --slots 4 5|
tp run --slots 4 x|
tp run --slots 4 --slots 5|
tp run --slots 4 --domain 1|
tp alone|
tp alone --slots 4|
tp alone --domain 1|
tp alone --domain 32 --slots 4|
tp alone --domain -1 --slots 4|
tp alone --domain x --slots 4|
tp alone --domain 1 --slots 65537|
tp alone --domain 1 --domain 1 --slots 4|
tp alone --domain 1 --slots 4 5|
tp alone 1 4|
tp alone --help|
tp help alone|
tp gen|
tp gen 7|
tp gen --seed|
tp gen --seed 4294967296|
tp gen --seed -1|
tp gen --seed x|
tp gen --seed 7 --seed 7|
tp gen --seed 7 --slots 4|
tp gen --help|
tp help gen|
tp demo|
tp demo --seed 4294967296|
tp demo --seed 7 --slots 64|
tp ablate|
tp ablate --slots 4|
tp ablate --off flush|
tp ablate --off|
tp ablate --off --slots 4|
tp ablate --off= --slots 4|
tp ablate --off=flus --slots 4|
tp ablate --off flushes --slots 4|
tp ablate --off Flush --slots 4|
tp ablate --off flush --slots 65537|
tp ablate --off flush --slots -1|
tp ablate --off flush --off pad --slots 4|
tp ablate --off flush --off flush --slots 4|
tp ablate --off flush --slots 4 --slots 4|
tp ablate --off flush pad --slots 4|
tp ablate --off flush --domain 1 --slots 4|
tp ablate flush --slots 4|
tp ablate --help|
tp help ablate|
tp harts|
tp harts --slots 4|
tp harts --seed 7|
tp harts --slots 65537 --seed 7|
tp harts --slots 4 --seed 4294967296|
tp harts --slots -1 --seed 7|
tp harts --slots 4 --seed x|
tp harts --slots 4 --slots 4 --seed 7|
tp harts --slots 4 --seed 7 --seed 7|
tp harts --slots 4 --seed 7 --domain 1|
tp harts 4 7|
tp harts --help|
tp help harts|
tp hart --slots 4 --seed 7|
tp redact|
tp redact --domain|
tp redact --domain 32|
tp redact --domain -1|
tp redact --domain x|
tp redact --domain 1 --domain 1|
tp redact --domain 1 --slots 4|
tp redact --domain 1 2|
tp redact --slots 4|
tp redact 1|
tp redact --help|
tp help redact|
tp run --slots 4 --seed 7|
tp run --off flush --slots 4|
tp --off flush --slots 4|
tp --seed 7|
tp --domain 1 --slots 4|";

fn asked_in(alloc: Global, line: &str) -> Result<Option<Command>, Fail> {
    let mut words = Vec::new(alloc);
    for word in line.split_whitespace() {
        words.reserve(1)?;
        words.push_reserved(String::from_str(alloc, word)?);
    }
    Ok(parse(alloc, words.as_slice())?)
}

fn wanted(asked: &str) -> Option<Command> {
    match asked {
        "check" => Some(Command::Check),
        "bound" => Some(Command::Bound),
        _ => wanted_of_numbers(asked),
    }
}

fn wanted_of_numbers(asked: &str) -> Option<Command> {
    let Some((first, last)) = asked.split_once(' ') else {
        let slots = asked.parse::<u32>().ok()?;
        return Some(Command::Run { slots });
    };
    if first == "harts" {
        return with_harts(last);
    }
    let number = last.parse::<u32>().ok()?;
    match first {
        "gen" => Some(Command::Gen { seed: number }),
        "redact" => Some(Command::Redact {
            domain: last.parse::<u8>().ok()?,
        }),
        "demo" => Some(Command::Demo { seed: number }),
        "flush" => without(Guard::Flush, number),
        "prefetch" => without(Guard::Prefetch, number),
        "pad" => without(Guard::Pad, number),
        "colour" => without(Guard::Colour, number),
        "clone" => without(Guard::Clone, number),
        "irq" => without(Guard::Irq, number),
        _ => Some(Command::Alone {
            domain: first.parse::<u8>().ok()?,
            slots: number,
        }),
    }
}

fn without(off: Guard, slots: u32) -> Option<Command> {
    Some(Command::Ablate { off, slots })
}

fn with_harts(numbers: &str) -> Option<Command> {
    let (slots, seed) = numbers.split_once(' ')?;
    Some(Command::Harts {
        slots: slots.parse::<u32>().ok()?,
        seed: seed.parse::<u32>().ok()?,
    })
}

fn is_asked(rt: &impl Abort, line: &str, asked: Option<Command>, due: Option<Command>) {
    assert_eq!(rt; asked, due, "at {line}");
}

fn asks(rt: &impl Abort, alloc: Global, row: &str) -> Result<(), Fail> {
    let (line, due) = row.split_once('|').unwrap_or((row, ""));
    is_asked(rt, line, asked_in(alloc, line)?, wanted(due));
    Ok(())
}

#[test]
fn words_ask_for_a_command_or_for_nothing(rt: HostRuntime) -> Result<(), Fail> {
    for row in LINES.split('\n') {
        asks(&rt, rt.alloc(), row)?;
    }
    Ok(())
}
