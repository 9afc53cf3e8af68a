// What stands at a key of a table.
ghost use Rattle.std.specs.Prelude.{◌≡◌, option_map, Some};
ghost use Rattle.toml.specs.View.{view, items_view, table_view};
ghost use Rattle.toml.specs.Data.{get_member};
ghost use Rattle.image_text.specs.Rows as spec;

use toml::{Table, Value};

pub fn get<'a>(table: &'a Table, key: &str) -> Option<&'a Value>
    ensures value { option_map (λ v. view v.now) result ≡ get_member key.now (table_view table.now) }
{
    table.get(key)
}

/// The items of an array; what is no array has none.
pub fn items_of(value: &Value) -> &[Value]
    ensures value { items_view result.now ≡ spec.items_or_none (Some (view value.now)) }
{
    match value.as_array() {
        Some(array) => array.as_slice(),
        None => &[],
    }
}

/// The items of the array at a key; where none stands there are none.
pub fn items_at<'a>(table: &'a Table, key: &str) -> &'a [Value]
    ensures value { items_view result.now ≡ spec.items_at key.now (table_view table.now) }
{
    match get(table, key) {
        Some(value) => items_of(value),
        None => &[],
    }
}
