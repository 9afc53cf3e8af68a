// The text of a record.
ghost use Rattle.std.specs.Prelude.{◌≡◌, false, string_bytes, IfOk, Ok};
ghost use Rattle.toml.specs.Text.{IsDocumentText};
ghost use Rattle.toml.specs.View.{table_view};
ghost use Rattle.image_record.specs.Models.{raw_model};
ghost use Rattle.image_text.specs.Record.{image_of};
ghost use Rattle.image_writing.specs.Data as spec;
ghost use Rattle.image_writing.specs.Text.{text_of};
ghost use Rattle.image_writing.specs.Writing.{IsWritable};

use crate::Memory;
use crate::tables::{AsValue, array_of, nested, put};
use crate::values::{cache_table, costs_table, muldiv_table};
use image_record::Raw;
use std::alloc::Global;
use toml::Table;

/// The text of a record. It reads as the record again, where this could have been read and
/// breaks no rule.
///
/// # Errors
///
/// `Memory` where memory runs out.
pub fn write_image(alloc: Global, raw: &Raw) -> Result<String, Memory>
    ensures text { IfOk result (λ s. IsDocumentText false (spec.record_members (raw_model raw.now)) (string_bytes s)) }
    ensures written { IfOk result (λ s. string_bytes s ≡ text_of (raw_model raw.now)) }
    ensures reads { IfOk result (λ s. IsWritable (raw_model raw.now)
        → image_of (string_bytes s) ≡ Ok (raw_model raw.now)) }
{
    match image_table(alloc, raw) {
        Ok(table) => {
            let written = toml::table_to_string(alloc, &table);
            drop(table);
            match written {
                Ok(text) => Ok(text),
                Err(_) => Err(Memory),
            }
        }
        Err(error) => Err(error),
    }
}

// With the keys that an image may leave out.
fn image_table(alloc: Global, raw: &Raw) -> Result<Table, Memory>
    ensures made { IfOk result (λ t. table_view t ≡ spec.record_members (raw_model raw.now)) }
{
    let table = with_muldiv(alloc, raw);
    if raw.mail.is_empty() {
        return table;
    }
    put(alloc, table, "mail", array_of(alloc, raw.mail.as_slice()))
}

fn with_muldiv(alloc: Global, raw: &Raw) -> Result<Table, Memory>
    ensures made { IfOk result (λ t. table_view t ≡ spec.with_muldiv (raw_model raw.now)) }
{
    let table = with_targets(alloc, raw);
    match &raw.muldiv {
        Some(costs) => put(alloc, table, "muldiv", nested(muldiv_table(alloc, costs))),
        None => table,
    }
}

fn with_targets(alloc: Global, raw: &Raw) -> Result<Table, Memory>
    ensures made { IfOk result (λ t. table_view t ≡ spec.with_targets (raw_model raw.now)) }
{
    let table = plain_table(alloc, raw);
    match &raw.targets {
        Some(targets) => put(alloc, table, "targets", targets.value(alloc)),
        None => table,
    }
}

// What every image has.
fn plain_table(alloc: Global, raw: &Raw) -> Result<Table, Memory>
    ensures made { IfOk result (λ t. table_view t ≡ spec.plain_members (raw_model raw.now)) }
{
    let table = machine_table(alloc, raw);
    let domain = put(
        alloc,
        table,
        "domain",
        array_of(alloc, raw.domains.as_slice()),
    );
    put(
        alloc,
        domain,
        "costs",
        nested(costs_table(alloc, &raw.costs)),
    )
}

// The machine, its schedule, and the version of the format.
fn machine_table(alloc: Global, raw: &Raw) -> Result<Table, Memory>
    ensures made { IfOk result (λ t. table_view t ≡ spec.machine_members (raw_model raw.now)) }
{
    let table = scheduled_table(alloc, raw);
    let line = put(alloc, table, "line", raw.line.value(alloc));
    let l2 = put(alloc, line, "l2", nested(level2_table(alloc, raw)));
    let l1i = put(alloc, l2, "l1i", nested(cache_table(alloc, &raw.l1i)));
    let l1d = put(alloc, l1i, "l1d", nested(cache_table(alloc, &raw.l1d)));
    let history = put(alloc, l1d, "history", raw.history.value(alloc));
    put(alloc, history, "frames", raw.frames.value(alloc))
}

fn scheduled_table(alloc: Global, raw: &Raw) -> Result<Table, Memory>
    ensures made { IfOk result (λ t. table_view t ≡ spec.scheduled_members (raw_model raw.now)) }
{
    let number = i64::from(raw.version).value(alloc);
    let version = put(alloc, Ok(Table::new(alloc)), "version", number);
    let tlb = put(alloc, version, "tlb", nested(cache_table(alloc, &raw.tlb)));
    let shared = put(alloc, tlb, "shared", raw.shared.value(alloc));
    let schedule = put(
        alloc,
        shared,
        "schedule",
        array_of(alloc, raw.schedule.as_slice()),
    );
    put(alloc, schedule, "predictor", raw.predictor.value(alloc))
}

fn level2_table(alloc: Global, raw: &Raw) -> Result<Table, Memory>
    ensures made { IfOk result (λ t. table_view t ≡ spec.level2_of (raw_model raw.now)) }
{
    put(
        alloc,
        cache_table(alloc, &raw.l2),
        "back",
        raw.back.value(alloc),
    )
}
