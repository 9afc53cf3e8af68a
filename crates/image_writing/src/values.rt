// The parts of a record as values of TOML.
ghost use Rattle.std.specs.Prelude.{◌≡◌, IfOk};
ghost use Rattle.toml.specs.Data.{array, table};
ghost use Rattle.toml.specs.View.{table_view, view};
ghost use Rattle.image_record.specs.Parts.{cache_model, costs_model, muldiv_model, segment_model, moment_model};
ghost use Rattle.image_record.specs.Parts.{domain_model, entry_model, mailbox_model};
ghost use Rattle.image_writing.specs.Data as spec;

use crate::Memory;
use crate::tables::{AsValue, array_of, nested, put};
use image_record::{
    RawCache, RawCosts, RawDomain, RawEntry, RawMailbox, RawMoment, RawMuldiv, RawSegment,
};
use std::alloc::Global;
use toml::{Table, Value};

/// A cache.
pub fn cache_table(alloc: Global, cache: &RawCache) -> Result<Table, Memory>
    ensures made { IfOk result (λ t. table_view t ≡ spec.cache_members (cache_model cache.now)) }
{
    let ways = put(
        alloc,
        Ok(Table::new(alloc)),
        "ways",
        cache.ways.value(alloc),
    );
    let sets = put(alloc, ways, "sets", cache.sets.value(alloc));
    put(alloc, sets, "policy", cache.policy.value(alloc))
}

/// Costs.
pub fn costs_table(alloc: Global, costs: &RawCosts) -> Result<Table, Memory>
    ensures made { IfOk result (λ t. table_view t ≡ spec.costs_members (costs_model costs.now)) }
{
    let wb = put(alloc, Ok(Table::new(alloc)), "wb", costs.wb.value(alloc));
    let trap = put(alloc, wb, "trap", costs.trap.value(alloc));
    let tlb = put(alloc, trap, "tlb", costs.tlb.value(alloc));
    let mispredict = put(alloc, tlb, "mispredict", costs.mispredict.value(alloc));
    let mem = put(alloc, mispredict, "mem", costs.mem.value(alloc));
    let l2 = put(alloc, mem, "l2", costs.l2.value(alloc));
    let l1 = put(alloc, l2, "l1", costs.l1.value(alloc));
    let flush = put(alloc, l1, "flush", costs.flush.value(alloc));
    put(alloc, flush, "base", costs.base.value(alloc))
}

/// What products and divisions cost.
pub fn muldiv_table(alloc: Global, costs: &RawMuldiv) -> Result<Table, Memory>
    ensures made { IfOk result (λ t. table_view t ≡ spec.muldiv_members (muldiv_model costs.now)) }
{
    let mul = put(alloc, Ok(Table::new(alloc)), "mul", costs.mul.value(alloc));
    put(alloc, mul, "div", costs.div.value(alloc))
}

fn segment_table(alloc: Global, segment: &RawSegment) -> Result<Table, Memory>
    ensures made { IfOk result (λ t. table_view t ≡ spec.segment_members (segment_model segment.now)) }
{
    let rights = put(
        alloc,
        Ok(Table::new(alloc)),
        "rights",
        segment.rights.value(alloc),
    );
    let pages = put(
        alloc,
        rights,
        "pages",
        i64::from(segment.pages).value(alloc),
    );
    let page = put(alloc, pages, "page", i64::from(segment.page).value(alloc));
    put(alloc, page, "hex", segment.hex.value(alloc))
}

impl AsValue for RawSegment {
    ghost says = { λ s. spec.segment_data (segment_model s) };

    fn value(&self, alloc: Global) -> Result<Value, Memory> {
        nested(segment_table(alloc, self))
    }
}

impl AsValue for RawMoment {
    ghost says = { λ m. spec.moment_data (moment_model m) };

    fn value(&self, alloc: Global) -> Result<Value, Memory> {
        array_of(alloc, &[self.at, self.line])
    }
}

// What every domain has.
fn plain_domain(alloc: Global, domain: &RawDomain) -> Result<Table, Memory>
    ensures made { IfOk result (λ t. table_view t ≡ spec.plain_domain (domain_model domain.now)) }
{
    let segment = put(
        alloc,
        Ok(Table::new(alloc)),
        "segment",
        array_of(alloc, domain.segments.as_slice()),
    );
    let name = put(alloc, segment, "name", domain.name.value(alloc));
    let moments = put(
        alloc,
        name,
        "moments",
        array_of(alloc, domain.moments.as_slice()),
    );
    let lines = put(
        alloc,
        moments,
        "lines",
        array_of(alloc, domain.lines.as_slice()),
    );
    let entry = put(alloc, lines, "entry", i64::from(domain.entry).value(alloc));
    let colours = put(
        alloc,
        entry,
        "colours",
        array_of(alloc, domain.colours.as_slice()),
    );
    put(
        alloc,
        colours,
        "caps",
        array_of(alloc, domain.caps.as_slice()),
    )
}

fn domain_table(alloc: Global, domain: &RawDomain) -> Result<Table, Memory>
    ensures made { IfOk result (λ t. table_view t ≡ spec.domain_members (domain_model domain.now)) }
{
    let table = plain_domain(alloc, domain);
    match &domain.calls {
        Some(calls) => put(alloc, table, "calls", array_of(alloc, calls.as_slice())),
        None => table,
    }
}

impl AsValue for RawDomain {
    ghost says = { λ o. spec.domain_data (domain_model o) };

    fn value(&self, alloc: Global) -> Result<Value, Memory> {
        nested(domain_table(alloc, self))
    }
}

fn entry_table(alloc: Global, entry: &RawEntry) -> Result<Table, Memory>
    ensures made { IfOk result (λ t. table_view t ≡ spec.entry_members (entry_model entry.now)) }
{
    let pad = put(alloc, Ok(Table::new(alloc)), "pad", entry.pad.value(alloc));
    let length = put(alloc, pad, "length", entry.length.value(alloc));
    let hart = put(alloc, length, "hart", entry.hart.value(alloc));
    put(alloc, hart, "domain", entry.domain.value(alloc))
}

impl AsValue for RawEntry {
    ghost says = { λ e. spec.entry_data (entry_model e) };

    fn value(&self, alloc: Global) -> Result<Value, Memory> {
        nested(entry_table(alloc, self))
    }
}

fn mailbox_table(alloc: Global, mailbox: &RawMailbox) -> Result<Table, Memory>
    ensures made { IfOk result (λ t. table_view t ≡ spec.mailbox_members (mailbox_model mailbox.now)) }
{
    let to = put(alloc, Ok(Table::new(alloc)), "to", mailbox.to.value(alloc));
    put(alloc, to, "from", mailbox.from.value(alloc))
}

impl AsValue for RawMailbox {
    ghost says = { λ b. spec.mailbox_data (mailbox_model b) };

    fn value(&self, alloc: Global) -> Result<Value, Memory> {
        nested(mailbox_table(alloc, self))
    }
}
