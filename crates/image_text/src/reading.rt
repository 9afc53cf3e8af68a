// The record of an image's table.
ghost use Rattle.std.specs.Prelude.{◌≡◌, ◌<◌, ◌^◌, map, option_map, None, Some, codes};
ghost use Rattle.toml.specs.View.{view, items_view, table_view};
ghost use Rattle.toml.specs.Data.{get_member, as_table};
ghost use Rattle.image_text.specs.Record as spec;
ghost use Rattle.image_text.specs.Unknown.{broken_key as spec_broken_key};
ghost use Rattle.image_text.specs.Models.{broken_model};
ghost use Rattle.image_record.specs.Record as parts;
ghost use Rattle.image_record.specs.Parts.{cache_model, costs_model, muldiv_model, domain_model, entry_model, mailbox_model};
ghost use Rattle.image_record.specs.Parts.{segment_model, moment_model};
ghost use Rattle.image_record.specs.Models.{raw_model};
ghost use Rattle.image_record.specs.Outcomes.{Makes};
ghost use Rattle.image_text.specs.Reads.{Agrees};

use crate::items::{Item, read_items};
use crate::key_table::{broken_key, version_of};
use crate::lookup::{get, items_at, items_of};
use crate::rows::Broken;
use crate::values::{
    integer_at, integer_if_at, integer_of, integers_at, integers_if_at, natural_at, table_at,
    table_of, text_at, truth_at,
};
use image_record::{
    Raw, RawCache, RawCosts, RawDomain, RawEntry, RawMailbox, RawMoment, RawMuldiv, RawSegment,
    ReadRefusal, Refusal,
};
use std::alloc::Global;
use toml::{Table, Value};

/// The first rule's refusal has no numbers.
const NOT_TOML: Refusal = Refusal {
    rule: 1,
    at: 0,
    found: 0,
    wanted: 0,
};

#[tactic(auto, unfolding(crate::specs::Record::cache_of))]
fn cache_of(alloc: Global, table: &Table) -> Result<RawCache, ReadRefusal>
    ensures read { Makes cache_model result (spec.cache_of (table_view table.now)) }
{
    let policy = text_at(alloc, table, "policy")?;
    Ok(RawCache {
        sets: integer_at(table, "sets"),
        ways: integer_at(table, "ways"),
        policy,
    })
}

fn cache_at(alloc: Global, table: &Table, key: &str) -> Result<RawCache, ReadRefusal>
    ensures read { Makes cache_model result (spec.cache_at key.now (table_view table.now)) }
{
    let empty = Table::new(alloc);
    cache_of(alloc, table_at(table, key, &empty))
}

/// Whether dirty lines are written back into the second level.
fn back_at(alloc: Global, table: &Table) -> bool
    ensures value { result ≡ spec.back_at (table_view table.now) }
{
    let empty = Table::new(alloc);
    truth_at(table_at(table, "l2", &empty), "back")
}

#[tactic(auto, unfolding(crate::specs::Record::costs_of))]
fn costs_of(table: &Table) -> RawCosts
    ensures value { costs_model result ≡ spec.costs_of (table_view table.now) }
{
    RawCosts {
        base: integer_at(table, "base"),
        l1: integer_at(table, "l1"),
        l2: integer_at(table, "l2"),
        mem: integer_at(table, "mem"),
        wb: integer_at(table, "wb"),
        tlb: integer_at(table, "tlb"),
        mispredict: integer_at(table, "mispredict"),
        trap: integer_at(table, "trap"),
        flush: integer_at(table, "flush"),
    }
}

fn costs_at(alloc: Global, table: &Table) -> RawCosts
    ensures value { costs_model result ≡ spec.costs_at (table_view table.now) }
{
    let empty = Table::new(alloc);
    costs_of(table_at(table, "costs", &empty))
}

#[tactic(auto, unfolding(crate::specs::Record::muldiv_of))]
fn muldiv_of(table: &Table) -> RawMuldiv
    ensures value { muldiv_model result ≡ spec.muldiv_of (table_view table.now) }
{
    RawMuldiv {
        mul: integer_at(table, "mul"),
        div: integer_at(table, "div"),
    }
}

fn muldiv_in(value: &Value) -> Option<RawMuldiv>
    ensures value { option_map muldiv_model result
        ≡ option_map spec.muldiv_of (as_table (view value.now)) }
{
    match value.as_table() {
        Some(table) => Some(muldiv_of(table)),
        None => None,
    }
}

fn muldiv_at(table: &Table) -> Option<RawMuldiv>
    ensures value { option_map muldiv_model result ≡ spec.muldiv_at (table_view table.now) }
{
    match get(table, "muldiv") {
        Some(value) => muldiv_in(value),
        None => None,
    }
}

#[tactic(auto, unfolding(crate::specs::Record::segment_of))]
fn segment_of(alloc: Global, table: &Table) -> Result<RawSegment, ReadRefusal>
    ensures read { Makes segment_model result (spec.segment_of (table_view table.now)) }
{
    let rights = text_at(alloc, table, "rights")?;
    let hex = text_at(alloc, table, "hex")?;
    Ok(RawSegment {
        page: natural_at(table, "page", 0, 1_048_575),
        pages: natural_at(table, "pages", 1, 64),
        rights,
        hex,
    })
}

impl Item for RawSegment {
    ghost Part = { parts.RawSegment };

    ghost model = { segment_model };

    ghost part_in = { spec.segment_in };

    fn read(alloc: Global, value: &Value) -> Result<Self, ReadRefusal> {
        let empty = Table::new(alloc);
        segment_of(alloc, table_of(value, &empty))
    }
}

fn first_item(values: &[Value]) -> i64
    ensures value { result ≡ spec.first_item (items_view values.now) }
{
    match values {
        [first, ..] => integer_of(first),
        [] => 0,
    }
}

fn second_item(values: &[Value]) -> i64
    ensures value { result ≡ spec.second_item (items_view values.now) }
{
    match values {
        [_, rest @ ..] => first_item(rest),
        [] => 0,
    }
}

fn moment_of(value: &Value) -> RawMoment
    ensures value { moment_model result ≡ spec.moment_in (view value.now) }
{
    let pair = items_of(value);
    RawMoment {
        at: first_item(pair),
        line: second_item(pair),
    }
}

impl Item for RawMoment {
    ghost Part = { parts.RawMoment };

    ghost model = { moment_model };

    ghost part_in = { spec.moment_in };

    fn read(_alloc: Global, value: &Value) -> Result<Self, ReadRefusal> {
        Ok(moment_of(value))
    }
}

#[tactic(auto, unfolding(crate::specs::Record::domain_of))]
fn domain_of(alloc: Global, table: &Table) -> Result<RawDomain, ReadRefusal>
    ensures read { Makes domain_model result (spec.domain_of (table_view table.now)) }
{
    let name = text_at(alloc, table, "name")?;
    let colours = integers_at(alloc, table, "colours")?;
    let segments = read_items(alloc, items_at(table, "segment"))?;
    let caps = read_items(alloc, items_at(table, "caps"))?;
    let lines = integers_at(alloc, table, "lines")?;
    let moments = read_items(alloc, items_at(table, "moments"))?;
    let calls = integers_if_at(alloc, table, "calls")?;
    Ok(RawDomain {
        name,
        colours,
        entry: natural_at(table, "entry", 0, 4_294_967_295),
        segments,
        caps,
        lines,
        moments,
        calls,
    })
}

impl Item for RawDomain {
    ghost Part = { parts.RawDomain };

    ghost model = { domain_model };

    ghost part_in = { spec.domain_in };

    fn read(alloc: Global, value: &Value) -> Result<Self, ReadRefusal> {
        let empty = Table::new(alloc);
        domain_of(alloc, table_of(value, &empty))
    }
}

#[tactic(auto, unfolding(crate::specs::Record::entry_of))]
fn entry_of(table: &Table) -> RawEntry
    ensures value { entry_model result ≡ spec.entry_of (table_view table.now) }
{
    RawEntry {
        domain: integer_at(table, "domain"),
        length: integer_at(table, "length"),
        pad: integer_at(table, "pad"),
        hart: integer_at(table, "hart"),
    }
}

impl Item for RawEntry {
    ghost Part = { parts.RawEntry };

    ghost model = { entry_model };

    ghost part_in = { spec.entry_in };

    fn read(alloc: Global, value: &Value) -> Result<Self, ReadRefusal> {
        let empty = Table::new(alloc);
        Ok(entry_of(table_of(value, &empty)))
    }
}

#[tactic(auto, unfolding(crate::specs::Record::mailbox_of))]
fn mailbox_of(table: &Table) -> RawMailbox
    ensures value { mailbox_model result ≡ spec.mailbox_of (table_view table.now) }
{
    RawMailbox {
        from: integer_at(table, "from"),
        to: integer_at(table, "to"),
    }
}

impl Item for RawMailbox {
    ghost Part = { parts.RawMailbox };

    ghost model = { mailbox_model };

    ghost part_in = { spec.mailbox_in };

    fn read(alloc: Global, value: &Value) -> Result<Self, ReadRefusal> {
        let empty = Table::new(alloc);
        Ok(mailbox_of(table_of(value, &empty)))
    }
}

#[tactic(auto, unfolding(crate::specs::Record::record_of))]
fn record_of(alloc: Global, table: &Table) -> Result<Raw, ReadRefusal>
    requires whole { spec_broken_key (table_view table.now) ≡ None }
    ensures read { Makes raw_model result (spec.record_of (table_view table.now)) }
{
    let l1i = cache_at(alloc, table, "l1i")?;
    let l1d = cache_at(alloc, table, "l1d")?;
    let l2 = cache_at(alloc, table, "l2")?;
    let tlb = cache_at(alloc, table, "tlb")?;
    let domains = read_items(alloc, items_at(table, "domain"))?;
    let schedule = read_items(alloc, items_at(table, "schedule"))?;
    let mail = read_items(alloc, items_at(table, "mail"))?;
    Ok(Raw {
        version: version_of(table),
        frames: integer_at(table, "frames"),
        shared: integer_at(table, "shared"),
        line: integer_at(table, "line"),
        l1i,
        l1d,
        l2,
        back: back_at(alloc, table),
        tlb,
        predictor: integer_at(table, "predictor"),
        history: integer_at(table, "history"),
        costs: costs_at(alloc, table),
        muldiv: muldiv_at(table),
        targets: integer_if_at(table, "targets"),
        domains,
        schedule,
        mail,
    })
}

/// The refusal of the second rule, that names the row.
fn broken_row(broken: Broken) -> Refusal
    requires small { broken.found < 2 ^ 63 }
    ensures value { result ≡ spec.broken_row (broken_model broken) }
{
    Refusal {
        rule: 2,
        at: i64::from(broken.row),
        found: broken.found as i64,
        wanted: 0,
    }
}

fn read_table(alloc: Global, table: &Table) -> Result<Raw, ReadRefusal>
    ensures found { Agrees raw_model result (spec.read_table (Some (table_view table.now))) }
{
    match broken_key(table) {
        Some(broken) => Err(ReadRefusal::Broken(broken_row(broken))),
        None => record_of(alloc, table),
    }
}

#[tactic(auto, unfolding(crate::specs::Record::image_of, crate::specs::Record::document))]
fn read_text(alloc: Global, bytes: &[u8]) -> Result<Raw, ReadRefusal>
    ensures found { Agrees raw_model result (spec.image_of bytes.now) }
{
    match toml::table_from_slice(alloc, bytes) {
        Ok(table) => read_table(alloc, &table),
        Err(error) => {
            if error.is_memory() {
                Err(ReadRefusal::Memory)
            } else {
                Err(ReadRefusal::Broken(NOT_TOML))
            }
        }
    }
}

/// The record that the bytes of an image give.
///
/// # Errors
///
/// `Broken` with K1 where the bytes are no UTF-8 or no TOML, and with K2 where
/// they break a row of the key table: the least such row, and the least domain,
/// entry or box that breaks it, from 0. `Memory` where memory runs out.
pub fn read_image(alloc: Global, bytes: &[u8]) -> Result<Raw, ReadRefusal>
    ensures found { Agrees raw_model result (spec.image_of bytes.now) }
{
    read_text(alloc, bytes)
}
