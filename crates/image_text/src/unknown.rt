// Row 26 of the key table: keys that no row names.
ghost use Rattle.std.specs.Prelude.{◌≡◌, ◌||◌, map, is_some};
ghost use Rattle.toml.specs.Data.{as_table};
ghost use Rattle.toml.specs.View.{view, items_view, array_view, table_view};
ghost use Rattle.image_text.specs.Rows.{all_items};
ghost use Rattle.image_text.specs.Unknown as spec;
ghost use Rattle.image_text.specs.Models.{field_model, kind_model, row_model};

use crate::kinds::{Field, Kind, Place, Simple};
use crate::lookup::{get, items_at};
use crate::rows::Row;
use toml::value::Array;
use toml::{Table, Value};

fn same_place(first: Place, second: Place) -> bool
    ensures value { result ≡ spec.same_place first second }
{
    match (first, second) {
        (Place::Top, Place::Top) => true,
        (Place::Level2, Place::Level2) => true,
        (Place::Domain, Place::Domain) => true,
        (Place::Segment, Place::Segment) => true,
        (Place::Entry, Place::Entry) => true,
        (Place::Mail, Place::Mail) => true,
        _ => false,
    }
}

fn is_of(version: u8, place: Place, row: &Row<'_>) -> bool
    ensures value { result ≡ spec.is_of version place (row_model row.now) }
{
    row.since <= version && same_place(place, row.place)
}

fn names(version: u8, place: Place, row: &Row<'_>, key: &str) -> bool
    ensures value { result ≡ spec.names version place (row_model row.now) key.now }
{
    is_of(version, place, row) && row.key == key
}

fn is_known(version: u8, place: Place, rows: &[Row<'_>], key: &str) -> bool
    ensures value { result ≡ spec.is_known version place (map row_model rows.now) key.now }
{
    for row in rows {
        if names(version, place, row, key) {
            return true;
        }
    }
    false
}

fn all_keys_known(version: u8, place: Place, rows: &[Row<'_>], table: &Table) -> bool
    ensures value { result
        ≡ spec.all_keys_known version place (map row_model rows.now) (table_view table.now) }
{
    for (key, _value) in table.iter() {
        if !is_known(version, place, rows, key.as_str()) {
            return false;
        }
    }
    true
}

fn is_field(fields: &[Field<'_>], key: &str) -> bool
    ensures value { result ≡ spec.is_field (map field_model fields.now) key.now }
{
    for field in fields {
        if field.key == key {
            return true;
        }
    }
    false
}

#[tactic(auto, using(crate::proofs::Counts::no_member))]
fn is_empty(table: &Table) -> bool
    ensures value { result ≡ spec.is_empty (table_view table.now) }
{
    table.is_empty()
}

#[cycle(no_key)]
fn all_hold_no_key(values: &Array) -> bool
    ensures value { result ≡ spec.no_key_in (array_view values.now) }
{
    for value in values {
        if !holds_no_key(value) {
            return false;
        }
    }
    true
}

/// No table in the value has a key, however deep it stands.
#[cycle(no_key)]
fn holds_no_key(value: &Value) -> bool
    ensures value { result ≡ spec.no_key (view value.now) }
{
    match value {
        Value::Table(table) => is_empty(table),
        Value::Array(array) => all_hold_no_key(array),
        _ => true,
    }
}

fn is_lone_field(fields: &[Field<'_>], key: &str, value: &Value) -> bool
    ensures value { result ≡ spec.is_lone_field (map field_model fields.now) key.now (view value.now) }
{
    is_field(fields, key) && holds_no_key(value)
}

fn all_fields(fields: &[Field<'_>], table: &Table) -> bool
    ensures value { result ≡ spec.all_fields (map field_model fields.now) (table_view table.now) }
{
    for (key, value) in table.iter() {
        if !is_lone_field(fields, key.as_str(), value) {
            return false;
        }
    }
    true
}

fn fields_alone(fields: &[Field<'_>], value: &Value) -> bool
    ensures value { result ≡ spec.fields_alone (map field_model fields.now) (view value.now) }
{
    match value.as_table() {
        Some(table) => all_fields(fields, table),
        None => holds_no_key(value),
    }
}

fn is_table_or_holds_no_key(value: &Value) -> bool
    ensures value { result ≡ (is_some (as_table (view value.now)) || spec.no_key (view value.now)) }
{
    value.as_table().is_some() || holds_no_key(value)
}

fn all_tables_alone(values: &[Value]) -> bool
    ensures value { result ≡ all_items (λ d. is_some (as_table d) || spec.no_key d) (items_view values.now) }
{
    for value in values {
        if !is_table_or_holds_no_key(value) {
            return false;
        }
    }
    true
}

fn tables_alone(value: &Value) -> bool
    ensures value { result ≡ spec.tables_alone (view value.now) }
{
    match value.as_array() {
        Some(array) => all_tables_alone(array.as_slice()),
        None => holds_no_key(value),
    }
}

fn array_alone(simple: Simple, value: &Value) -> bool
    ensures value { result ≡ spec.array_alone simple (view value.now) }
{
    match simple {
        Simple::Table => tables_alone(value),
        _ => holds_no_key(value),
    }
}

fn no_more(kind: Kind<'_>, value: &Value) -> bool
    ensures value { result ≡ spec.no_more (kind_model kind.entry) (view value.now) }
{
    match kind {
        Kind::One(_) => holds_no_key(value),
        Kind::Array(simple) => array_alone(simple, value),
        Kind::SomeTables(_) => tables_alone(value),
        Kind::Pairs => holds_no_key(value),
        Kind::Fields(fields) => fields_alone(fields, value),
    }
}

fn no_more_if(is_of: bool, row: &Row<'_>, table: &Table) -> bool
    ensures value { result ≡ spec.no_more_if is_of (row_model row.now) (table_view table.now) }
{
    if !is_of {
        return true;
    }
    match get(table, row.key) {
        Some(value) => no_more(row.kind, value),
        None => true,
    }
}

fn no_more_in(version: u8, place: Place, rows: &[Row<'_>], table: &Table) -> bool
    ensures value { result ≡ spec.no_more_in version place (map row_model rows.now) (table_view table.now) }
{
    for row in rows {
        if !no_more_if(is_of(version, place, row), row, table) {
            return false;
        }
    }
    true
}

#[tactic(auto, unfolding(crate::specs::Unknown::known_table))]
fn known_table(version: u8, place: Place, rows: &[Row<'_>], table: &Table) -> bool
    ensures value { result ≡ spec.known_table version place (map row_model rows.now) (table_view table.now) }
{
    if !all_keys_known(version, place, rows, table) {
        return false;
    }
    no_more_in(version, place, rows, table)
}

#[tactic(auto, unfolding(crate::specs::Unknown::known_item))]
fn known_item(version: u8, place: Place, rows: &[Row<'_>], value: &Value) -> bool
    ensures value { result ≡ spec.known_item version place (map row_model rows.now) (view value.now) }
{
    match value.as_table() {
        Some(table) => known_table(version, place, rows, table),
        None => true,
    }
}

fn known_items(version: u8, place: Place, rows: &[Row<'_>], values: &[Value]) -> bool
    ensures value { result ≡ spec.known_items version place (map row_model rows.now) (items_view values.now) }
{
    for value in values {
        if !known_item(version, place, rows, value) {
            return false;
        }
    }
    true
}

fn known_segments(version: u8, rows: &[Row<'_>], value: &Value) -> bool
    ensures value { result ≡ spec.known_segments version (map row_model rows.now) (view value.now) }
{
    match value.as_table() {
        Some(table) => known_items(version, Place::Segment, rows, items_at(table, "segment")),
        None => true,
    }
}

#[tactic(auto, unfolding(crate::specs::Unknown::known_domain))]
fn known_domain(version: u8, rows: &[Row<'_>], value: &Value) -> bool
    ensures value { result ≡ spec.known_domain version (map row_model rows.now) (view value.now) }
{
    if !known_item(version, Place::Domain, rows, value) {
        return false;
    }
    known_segments(version, rows, value)
}

fn known_domains(version: u8, rows: &[Row<'_>], values: &[Value]) -> bool
    ensures value { result ≡ spec.known_domains version (map row_model rows.now) (items_view values.now) }
{
    for value in values {
        if !known_domain(version, rows, value) {
            return false;
        }
    }
    true
}

/// No key but those of the rows stands anywhere in the image's table.
#[tactic(auto, unfolding(crate::specs::Unknown::all_known))]
pub fn all_known(version: u8, rows: &[Row<'_>], table: &Table) -> bool
    ensures value { result ≡ spec.all_known version (map row_model rows.now) (table_view table.now) }
{
    if !known_table(version, Place::Top, rows, table) {
        return false;
    }
    if !known_domains(version, rows, items_at(table, "domain")) {
        return false;
    }
    if !known_items(version, Place::Entry, rows, items_at(table, "schedule")) {
        return false;
    }
    known_items(version, Place::Mail, rows, items_at(table, "mail"))
}
