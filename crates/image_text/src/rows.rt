// Rows of the key table, and where they are broken.
ghost use Rattle.std.specs.Prelude.{◌≡◌, ◌<◌, ◌^◌, map, option_map, codes, IfSome};
ghost use Rattle.toml.specs.Data.{get_member};
ghost use Rattle.toml.specs.View.{view, items_view, table_view};
ghost use Rattle.image_text.specs.Rows as spec;
ghost use Rattle.image_text.specs.Models.{row_model, broken_model};

use crate::kinds::{Kind, Place, fits};
use crate::lookup::{get, items_at};
use toml::{Table, Value};

/// What must stand at a key.
#[derive(Clone, Copy)]
pub struct Row<'a> {
    pub number: u8,
    /// The version of the format in which the key came.
    pub since: u8,
    pub place: Place,
    pub needed: bool,
    pub key: &'a str,
    pub kind: Kind<'a>,
}

/// What is broken: the row, and the domain, entry or box.
#[derive(Clone, Copy)]
pub struct Broken {
    pub row: u8,
    pub found: usize,
}

#[tactic(auto, unfolding(crate::specs::Rows::whole_in))]
fn whole_in(row: &Row<'_>, table: &Table) -> bool
    ensures value { result ≡ spec.whole_in (row_model row.now) (table_view table.now) }
{
    match get(table, row.key) {
        Some(value) => fits(row.kind, value),
        None => !row.needed,
    }
}

#[tactic(auto, unfolding(crate::specs::Rows::whole_item))]
fn whole_item(row: &Row<'_>, value: &Value) -> bool
    ensures value { result ≡ spec.whole_item (row_model row.now) (view value.now) }
{
    match value.as_table() {
        Some(table) => whole_in(row, table),
        None => true,
    }
}

fn all_whole(row: &Row<'_>, values: &[Value]) -> bool
    ensures value { result ≡ spec.all_items (spec.whole_item (row_model row.now)) (items_view values.now) }
{
    for value in values {
        if !whole_item(row, value) {
            return false;
        }
    }
    true
}

#[tactic(auto, unfolding(crate::specs::Rows::whole_segments))]
fn whole_segments(row: &Row<'_>, value: &Value) -> bool
    ensures value { result ≡ spec.whole_segments (row_model row.now) (view value.now) }
{
    match value.as_table() {
        Some(table) => all_whole(row, items_at(table, "segment")),
        None => true,
    }
}

/// What is no table breaks the second level's own row.
fn whole_level2(row: &Row<'_>, table: &Table) -> bool
    ensures value { result
        ≡ spec.whole_level2 (row_model row.now) (get_member (codes "l2") (table_view table.now)) }
{
    match get(table, "l2") {
        Some(value) => whole_item(row, value),
        None => true,
    }
}

fn passes(row: &Row<'_>, value: &Value) -> bool
    ensures value { result ≡ spec.passes row.now.place (row_model row.now) (view value.now) }
{
    match row.place {
        Place::Segment => whole_segments(row, value),
        Place::Top => whole_item(row, value),
        Place::Level2 => whole_item(row, value),
        Place::Domain => whole_item(row, value),
        Place::Entry => whole_item(row, value),
        Place::Mail => whole_item(row, value),
    }
}

fn first_failing(row: &Row<'_>, values: &[Value]) -> Option<usize>
    ensures value { result ≡ spec.first_broken_item (row_model row.now) (items_view values.now) }
    ensures small { IfSome result (λ number. number < 2 ^ 63) }
{
    for (number, value) in values.iter().enumerate() {
        if !passes(row, value) {
            return Some(number);
        }
    }
    None
}

fn broken_at(row: &Row<'_>, table: &Table) -> Option<usize>
    ensures value { result ≡ spec.broken_at row.now.place (row_model row.now) (table_view table.now) }
    ensures small { IfSome result (λ number. number < 2 ^ 63) }
{
    match row.place {
        Place::Top => { if whole_in(row, table) { None } else { Some(0) } }
        Place::Level2 => {
            if whole_level2(row, table) {
                None
            } else {
                Some(0)
            }
        }
        Place::Domain => first_failing(row, items_at(table, "domain")),
        Place::Segment => first_failing(row, items_at(table, "domain")),
        Place::Entry => first_failing(row, items_at(table, "schedule")),
        Place::Mail => first_failing(row, items_at(table, "mail")),
    }
}

#[tactic(auto, unfolding(crate::specs::Rows::broken_in))]
fn broken_in(version: u8, row: &Row<'_>, table: &Table) -> Option<usize>
    ensures value { result ≡ spec.broken_in version (row_model row.now) (table_view table.now) }
    ensures small { IfSome result (λ number. number < 2 ^ 63) }
{
    if row.since > version {
        return None;
    }
    broken_at(row, table)
}

/// The first of these rows that is broken.
#[tactic(auto, unfolding(crate::specs::Rows::first_broken))]
pub fn first_broken(version: u8, rows: &[Row<'_>], table: &Table) -> Option<Broken>
    ensures value { option_map broken_model result
        ≡ spec.first_broken version (map row_model rows.now) (table_view table.now) }
    ensures small { IfSome result (λ broken. broken.found < 2 ^ 63) }
{
    for row in rows {
        if let Some(found) = broken_in(version, row, table) {
            return Some(Broken {
                row: row.number,
                found,
            });
        }
    }
    None
}
