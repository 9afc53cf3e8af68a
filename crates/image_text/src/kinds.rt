// What a value must be.
ghost use Rattle.std.specs.Prelude.{◌≡◌, map, Some};
ghost use Rattle.toml.specs.View.{view, items_view, table_view};
ghost use Rattle.image_text.specs.Rows as spec;
ghost use Rattle.image_text.specs.Models.{field_model, kind_model};

use crate::lookup::get;
use toml::{Table, Value};

/// The tables in which a key stands.
#[derive(Clone, Copy)]
pub enum Place {
    /// The image's own table.
    Top,
    /// The second level's table.
    Level2,
    Domain,
    /// Segments of domains.
    Segment,
    /// Entries of the schedule.
    Entry,
    /// Mailboxes.
    Mail,
}

/// A value that is read at once.
#[derive(Clone, Copy)]
pub enum Simple {
    Integer,
    /// An integer from one to another.
    Within(u32, u32),
    /// True or false.
    Truth,
    Text,
    Table,
}

/// A key of a table in the image's table, and what must stand there.
#[derive(Clone, Copy)]
pub struct Field<'a> {
    pub key: &'a str,
    /// None where it may be missing, and a row of its own says what must stand there.
    pub simple: Option<Simple>,
}

#[derive(Clone, Copy)]
pub enum Kind<'a> {
    One(Simple),
    /// An array of such values.
    Array(Simple),
    /// An array of 1 to so many tables.
    SomeTables(u32),
    /// An array of pairs of integers.
    Pairs,
    /// A table with these keys.
    Fields(&'a [Field<'a>]),
}

fn is_within(number: i64, low: u32, high: u32) -> bool
    ensures value { result ≡ spec.within low high (Some number) }
{
    match u32::try_from(number) {
        Ok(number) => low <= number && number <= high,
        Err(_) => false,
    }
}

pub fn fits_one(simple: Simple, value: &Value) -> bool
    ensures value { result ≡ spec.fits_one simple (view value.now) }
{
    match simple {
        Simple::Integer => value.as_integer().is_some(),
        Simple::Within(low, high) => match value.as_integer() {
            Some(number) => is_within(number, low, high),
            None => false,
        },
        Simple::Truth => value.as_bool().is_some(),
        Simple::Text => value.as_str().is_some(),
        Simple::Table => value.as_table().is_some(),
    }
}

fn all_fit(simple: Simple, values: &[Value]) -> bool
    ensures value { result ≡ spec.all_items (spec.fits_one simple) (items_view values.now) }
{
    for value in values {
        if !fits_one(simple, value) {
            return false;
        }
    }
    true
}

#[tactic(auto, using(crate::proofs::Counts::item_count))]
fn are_some(most: u32, values: &[Value]) -> bool
    ensures value { result ≡ spec.are_some most (items_view values.now) }
{
    1 <= values.len() && values.len() <= most as usize
}

fn some_tables(most: u32, values: &[Value]) -> bool
    ensures value { result ≡ spec.some_tables most (items_view values.now) }
{
    if !are_some(most, values) {
        return false;
    }
    all_fit(Simple::Table, values)
}

fn are_integers(first: &Value, second: &Value) -> bool
    ensures value { result ≡ spec.are_integers (view first.now) (view second.now) }
{
    fits_one(Simple::Integer, first) && fits_one(Simple::Integer, second)
}

#[tactic(auto, using(crate::proofs::Counts::no_pair))]
fn is_pair_of(values: &[Value]) -> bool
    ensures value { result ≡ spec.is_pair (Some (items_view values.now)) }
{
    if values.len() != 2 {
        return false;
    }
    are_integers(&values[0], &values[1])
}

fn is_pair(value: &Value) -> bool
    ensures value { result ≡ spec.is_pair_value (view value.now) }
{
    match value.as_array() {
        Some(array) => is_pair_of(array.as_slice()),
        None => false,
    }
}

fn all_pairs(values: &[Value]) -> bool
    ensures value { result ≡ spec.all_items spec.is_pair_value (items_view values.now) }
{
    for value in values {
        if !is_pair(value) {
            return false;
        }
    }
    true
}

fn has_field(field: &Field<'_>, table: &Table) -> bool
    ensures value { result ≡ spec.has_field (field_model field.now) (table_view table.now) }
{
    let Some(simple) = field.simple else {
        return true;
    };
    match get(table, field.key) {
        Some(value) => fits_one(simple, value),
        None => false,
    }
}

fn has_all(fields: &[Field<'_>], table: &Table) -> bool
    ensures value { result ≡ spec.has_all (map field_model fields.now) (table_view table.now) }
{
    for field in fields {
        if !has_field(field, table) {
            return false;
        }
    }
    true
}

#[tactic(auto, unfolding(crate::specs::Rows::fits))]
pub fn fits(kind: Kind<'_>, value: &Value) -> bool
    ensures value { result ≡ spec.fits (kind_model kind.entry) (view value.now) }
{
    match kind {
        Kind::One(simple) => fits_one(simple, value),
        Kind::Array(simple) => match value.as_array() {
            Some(array) => all_fit(simple, array.as_slice()),
            None => false,
        },
        Kind::SomeTables(most) => match value.as_array() {
            Some(array) => some_tables(most, array.as_slice()),
            None => false,
        },
        Kind::Pairs => match value.as_array() {
            Some(array) => all_pairs(array.as_slice()),
            None => false,
        },
        Kind::Fields(fields) => match value.as_table() {
            Some(table) => has_all(fields, table),
            None => false,
        },
    }
}
