// The words of the command line.
ghost use Rattle.std.specs.Prelude.{◌≡◌, ◌≤◌, IfOk, IfSome, Some, true, false, pos};
ghost use Rattle.clap.specs.Words.{App, app_of, found_of, rows_of, rule_of, subcommand_rows_of, with_subcommand};
ghost use Rattle.clap.specs.Words.{new_app, new_rule, with_rule};
ghost use Rattle.clap.specs.declared.builder.action.ArgAction.TheVariants.{Set};
ghost use Rattle.clap.specs.declared.builder.command.Command.TheViews.{out-Command};
ghost use Rattle.tp_words.specs.Words as spec;
ghost use Rattle.tp_words.specs.Words.{IsInRange};

use crate::Command;
use clap::builder::ValueParser;
use clap::error::ErrorKind;
use clap::{Arg, ArgAction, ArgMatches};
use guards::Guard;
use std::alloc::{AllocError, Global};
use tp_base::Memory;

/// The most slots of a run.
const MOST_SLOTS: u32 = 65_536;

/// The greatest number of a domain.
const LAST_DOMAIN: u32 = 31;

/// The greatest seed.
const LAST_SEED: u32 = u32::MAX;

/// What the words ask for, the first being the program's name: `None` exactly
/// where clap finds a fault in them, or where a guard is to be off and none has
/// the name that is given. `Err` is for want of memory alone.
pub fn parse(alloc: Global, words: &[String]) -> Result<Option<Command>, Memory>
    ensures value { IfOk result (λ asked. asked ≡ spec.command (spec.words_of words.now)) }
    ensures range { IfOk result (λ asked. IfSome asked IsInRange) }
{
    let command = tp_command(alloc)?;
    match command.try_get_matches_from(words) {
        Ok(matches) => {
            let command = asked(&matches);
            drop(matches);
            Ok(command)
        }
        Err(error) => match error.kind() {
            ErrorKind::OutOfMemory => Err(Memory),
            _ => Ok(None),
        },
    }
}

// The program's command, with its subcommands.
fn tp_command<'a>(alloc: Global) -> Result<clap::Command<'a>, AllocError>
    ensures app { IfOk result (λ c. app_of c ≡ spec.tp_app) }
{
    let top = clap::Command::new(alloc, "tp").subcommand_required(true);
    let one = with(Ok(top), Ok(clap::Command::new(alloc, "check")));
    let two = with(one, Ok(clap::Command::new(alloc, "bound")));
    let three = with(two, number_command(alloc, "run", "slots", MOST_SLOTS));
    let four = with(three, alone_command(alloc));
    let five = with(four, number_command(alloc, "gen", "seed", LAST_SEED));
    let six = with(five, number_command(alloc, "demo", "seed", LAST_SEED));
    let seven = with(six, ablate_command(alloc));
    let eight = with(seven, harts_command(alloc));
    with(
        eight,
        number_command(alloc, "redact", "domain", LAST_DOMAIN),
    )
}

// A command with one subcommand more, where both could be made. (Handed on as it is, a
// `Result` is nothing that `tp_command` would have to drop; by its name a command is dropped
// in one step.)
fn with<'a>(
    command: Result<clap::Command<'a>, AllocError>,
    made: Result<clap::Command<'a>, AllocError>,
) -> Result<clap::Command<'a>, AllocError>
    ensures app { (top sub : App) → IfOk command.entry (λ c. app_of c ≡ top) → IfOk made.entry (λ c. app_of c ≡ sub)
        → IfOk made.entry (λ c. (out-Command c).has_globals ≡ false)
        → IfOk result (λ c. app_of c ≡ with_subcommand top sub.top) }
{
    let sub = match made {
        Ok(sub) => sub,
        Err(error) => {
            drop(command);
            return Err(error);
        }
    };
    match command {
        Ok(command) => command.subcommand(sub),
        Err(error) => {
            drop(sub);
            Err(error)
        }
    }
}

// A subcommand with one number.
fn number_command<'a>(
    alloc: Global,
    name: &'a str,
    option: &'a str,
    greatest: u32,
) -> Result<clap::Command<'a>, AllocError>
    ensures app { IfOk result (λ c. app_of c ≡ with_rule (new_app name.now) (spec.number_rule option.now greatest)) }
    ensures local { IfOk result (λ c. (out-Command c).has_globals ≡ false) }
{
    clap::Command::new(alloc, name).arg(number_arg(alloc, option, greatest))
}

// A command with one number more, where it could be made.
fn with_number<'a>(
    alloc: Global,
    command: Result<clap::Command<'a>, AllocError>,
    option: &'a str,
    greatest: u32,
) -> Result<clap::Command<'a>, AllocError>
    ensures app { (top : App) → IfOk command.entry (λ c. app_of c ≡ top)
        → IfOk result (λ c. app_of c ≡ with_rule top (spec.number_rule option.now greatest)) }
    ensures local { IfOk command.entry (λ c. (out-Command c).has_globals ≡ false)
        → IfOk result (λ c. (out-Command c).has_globals ≡ false) }
{
    command?.arg(number_arg(alloc, option, greatest))
}

fn alone_command<'a>(alloc: Global) -> Result<clap::Command<'a>, AllocError>
    ensures app { IfOk result (λ c. app_of c ≡ spec.alone_app) }
    ensures local { IfOk result (λ c. (out-Command c).has_globals ≡ false) }
{
    let alone = number_command(alloc, "alone", "domain", LAST_DOMAIN);
    with_number(alloc, alone, "slots", MOST_SLOTS)
}

fn ablate_command<'a>(alloc: Global) -> Result<clap::Command<'a>, AllocError>
    ensures app { IfOk result (λ c. app_of c ≡ spec.ablate_app) }
    ensures local { IfOk result (λ c. (out-Command c).has_globals ≡ false) }
{
    let ablate = clap::Command::new(alloc, "ablate").arg(text_arg(alloc, "off"));
    with_number(alloc, ablate, "slots", MOST_SLOTS)
}

fn harts_command<'a>(alloc: Global) -> Result<clap::Command<'a>, AllocError>
    ensures app { IfOk result (λ c. app_of c ≡ spec.harts_app) }
    ensures local { IfOk result (λ c. (out-Command c).has_globals ≡ false) }
{
    let harts = number_command(alloc, "harts", "slots", MOST_SLOTS);
    with_number(alloc, harts, "seed", LAST_SEED)
}

// The option `--name`, which must be given. (Which texts name a guard clap isn't told: its
// list of names is of references, of which no definition can speak.)
fn text_arg<'a>(alloc: Global, name: &'a str) -> Arg<'a>
    ensures rule { rule_of result
        ≡ record (new_rule name.now) { long = Some name.now; action = Some Set; required = true } }
    ensures local { result.global ≡ false }
{
    Arg::new(alloc, name)
        .long(name)
        .action(ArgAction::Set)
        .required(true)
}

// The option `--name`, which must be given, a whole number 0 to the greatest.
fn number_arg<'a>(alloc: Global, name: &'a str, greatest: u32) -> Arg<'a>
    ensures rule { rule_of result ≡ spec.number_rule name.now greatest }
    ensures local { result.global ≡ false }
{
    text_arg(alloc, name).value_parser(number_parser(greatest))
}

// What reads a whole number 0 to the greatest.
fn number_parser<'a>(greatest: u32) -> ValueParser<'a>
    ensures value { result ≡ ValueParser.Signed (pos 0) (pos greatest) }
{
    clap::value_parser!(i64).range(0..=i64::from(greatest))
}

// What the matches ask for. clap gives no matches without one of the names below and its
// options, so the rest is never asked for.
fn asked(matches: &ArgMatches<'_>) -> Option<Command>
    ensures value { result ≡ spec.asked_for (subcommand_rows_of matches.now) }
    ensures range { IfSome result IsInRange }
{
    match matches.subcommand() {
        Some((name, found)) => asked_by(name, found),
        None => Some(Command::Run { slots: 0 }),
    }
}

// What a subcommand asks for, by its name; nothing where `--off` names no guard.
fn asked_by(name: &str, found: &ArgMatches<'_>) -> Option<Command>
    ensures value { result ≡ spec.asked_by name.now (rows_of (found_of found.now)) }
    ensures range { IfSome result IsInRange }
{
    let command = match name {
        "check" => Command::Check,
        "bound" => Command::Bound,
        "run" => Command::Run {
            slots: number_or_zero(found, "slots", MOST_SLOTS),
        },
        "alone" => Command::Alone {
            domain: number_or_zero(found, "domain", LAST_DOMAIN) as u8,
            slots: number_or_zero(found, "slots", MOST_SLOTS),
        },
        "gen" => Command::Gen {
            seed: number_or_zero(found, "seed", LAST_SEED),
        },
        "demo" => Command::Demo {
            seed: number_or_zero(found, "seed", LAST_SEED),
        },
        "ablate" => Command::Ablate {
            off: guard_in(found)?,
            slots: number_or_zero(found, "slots", MOST_SLOTS),
        },
        "harts" => Command::Harts {
            slots: number_or_zero(found, "slots", MOST_SLOTS),
            seed: number_or_zero(found, "seed", LAST_SEED),
        },
        "redact" => Command::Redact {
            domain: number_or_zero(found, "domain", LAST_DOMAIN) as u8,
        },
        _ => Command::Run { slots: 0 },
    };
    Some(command)
}

// The guard whose name is the value of `--off`.
#[tactic(auto, unfolding(crate::specs::Words::guard_in))]
fn guard_in(found: &ArgMatches<'_>) -> Option<Guard>
    ensures value { result ≡ spec.guard_in (rows_of (found_of found.now)) }
{
    Guard::named(found.get_str("off")?)
}

// The value of `--name`, which clap gives no matches without.
fn number_or_zero(found: &ArgMatches<'_>, name: &str, greatest: u32) -> u32
    ensures value { result ≡ spec.or_zero (spec.number_in name.now greatest (rows_of (found_of found.now))) }
    ensures range { result ≤ greatest }
{
    number_in(found, name, greatest).unwrap_or(0)
}

// The number, where it is 0 to the greatest.
fn up_to(greatest: u32, number: i64) -> Option<u32>
    ensures value { result ≡ spec.up_to greatest number }
    ensures range { IfSome result (λ n. n ≤ greatest) }
{
    let number = u32::try_from(number).ok()?;
    (number <= greatest).then_some(number)
}

// The value of `--name`. Its parser let none past the greatest through already.
#[tactic(auto, unfolding(crate::specs::Words::number_in))]
fn number_in(found: &ArgMatches<'_>, name: &str, greatest: u32) -> Option<u32>
    ensures value { result ≡ spec.number_in name.now greatest (rows_of (found_of found.now)) }
    ensures range { IfSome result (λ n. n ≤ greatest) }
{
    let number = found.get_one::<i64>(name)?;
    up_to(greatest, number)
}
