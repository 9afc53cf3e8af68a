// Values at keys. What is missing, or of another type, reads as zero, false or empty:
// the key table says where something is.
ghost use Rattle.std.specs.Prelude.{◌≡◌, ℕ, ℤ, List, Some, option_map, string_bytes};
ghost use Rattle.toml.specs.View.{view, items_view, table_view};
ghost use Rattle.toml.specs.Data.{as_array, get_member, no_members};
ghost use Rattle.image_text.specs.Record as spec;
ghost use Rattle.image_record.specs.Outcomes.{Makes};

use crate::items::{Item, read_items};
use crate::lookup::{get, items_at};
use image_record::ReadRefusal;
use std::alloc::Global;
use toml::{Table, Value};

pub fn integer_of(value: &Value) -> i64
    ensures value { result ≡ spec.integer_of (Some (view value.now)) }
{
    match value.as_integer() {
        Some(number) => number,
        None => 0,
    }
}

pub fn integer_at(table: &Table, key: &str) -> i64
    ensures value { result ≡ spec.integer_at key.now (table_view table.now) }
{
    match get(table, key) {
        Some(value) => integer_of(value),
        None => 0,
    }
}

/// The integer at a key, if there is one.
pub fn integer_if_at(table: &Table, key: &str) -> Option<i64>
    ensures value { result ≡ spec.integer_if (get_member key.now (table_view table.now)) }
{
    match get(table, key) {
        Some(value) => value.as_integer(),
        None => None,
    }
}

fn truth_of(value: &Value) -> bool
    ensures value { result ≡ spec.truth_of (Some (view value.now)) }
{
    match value.as_bool() {
        Some(truth) => truth,
        None => false,
    }
}

pub fn truth_at(table: &Table, key: &str) -> bool
    ensures value { result ≡ spec.truth_at key.now (table_view table.now) }
{
    match get(table, key) {
        Some(value) => truth_of(value),
        None => false,
    }
}

/// A number of the range, else the least of it.
fn ranged(number: i64, low: u32, high: u32) -> u32
    ensures value { result ≡ spec.ranged low high number }
{
    match u32::try_from(number) {
        Ok(number) => {
            if low <= number && number <= high {
                number
            } else {
                low
            }
        }
        Err(_) => low,
    }
}

pub fn natural_at(table: &Table, key: &str, low: u32, high: u32) -> u32
    ensures value { result ≡ spec.natural_at key.now low high (table_view table.now) }
{
    ranged(integer_at(table, key), low, high)
}

fn text_of(value: &Value) -> &str
    ensures value { result.now ≡ spec.text_of (Some (view value.now)) }
{
    match value.as_str() {
        Some(text) => text,
        None => "",
    }
}

pub fn text_at(alloc: Global, table: &Table, key: &str) -> Result<String, ReadRefusal>
    ensures read { Makes (λ text. string_bytes text) result (spec.text_at key.now (table_view table.now)) }
{
    let text = match get(table, key) {
        Some(value) => text_of(value),
        None => "",
    };
    Ok(String::from_str(alloc, text)?)
}

/// The table that a value is; the caller's empty one for any other value.
pub fn table_of<'a>(value: &'a Value, empty: &'a Table) -> &'a Table
    requires empty { table_view empty.now ≡ no_members }
    ensures value { table_view result.now ≡ spec.table_of (Some (view value.now)) }
{
    match value.as_table() {
        Some(table) => table,
        None => empty,
    }
}

pub fn table_at<'a>(table: &'a Table, key: &str, empty: &'a Table) -> &'a Table
    requires empty { table_view empty.now ≡ no_members }
    ensures value { table_view result.now ≡ spec.table_of (get_member key.now (table_view table.now)) }
{
    match get(table, key) {
        Some(value) => table_of(value, empty),
        None => empty,
    }
}

impl Item for i64 {
    ghost Part = { ℤ };

    ghost model = { λ number. number };

    ghost part_in = { λ d. spec.integer_of (Some d) };

    fn read(_alloc: Global, value: &Value) -> Result<Self, ReadRefusal> {
        Ok(integer_of(value))
    }
}

#[tactic(auto, using(crate::proofs::Counts::plain_integers))]
fn integers_of(alloc: Global, values: &[Value]) -> Result<Vec<i64>, ReadRefusal>
    ensures read { Makes (λ found. found.items) result (spec.integers_in (items_view values.now)) }
{
    read_items(alloc, values)
}

pub fn integers_at(alloc: Global, table: &Table, key: &str) -> Result<Vec<i64>, ReadRefusal>
    ensures read { Makes (λ found. found.items) result (spec.integers_at key.now (table_view table.now)) }
{
    integers_of(alloc, items_at(table, key))
}

fn integers_if(alloc: Global, value: &Value) -> Result<Option<Vec<i64>>, ReadRefusal>
    ensures read { Makes (option_map (λ found. found.items)) result
        (option_map spec.integers_in (as_array (view value.now))) }
{
    match value.as_array() {
        Some(array) => Ok(Some(integers_of(alloc, array.as_slice())?)),
        None => Ok(None),
    }
}

/// The integers of the array at a key, if there is one.
pub fn integers_if_at(
    alloc: Global,
    table: &Table,
    key: &str,
) -> Result<Option<Vec<i64>>, ReadRefusal>
    ensures read { Makes (option_map (λ found. found.items)) result
        (spec.integers_if_at key.now (table_view table.now)) }
{
    match get(table, key) {
        Some(value) => integers_if(alloc, value),
        None => Ok(None),
    }
}

impl Item for String {
    ghost Part = { List ℕ };

    ghost model = { λ text. string_bytes text };

    ghost part_in = { λ d. spec.text_of (Some d) };

    fn read(alloc: Global, value: &Value) -> Result<Self, ReadRefusal> {
        Ok(String::from_str(alloc, text_of(value))?)
    }
}
