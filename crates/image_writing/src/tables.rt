// Tables of TOML, made key by key.
ghost use Rattle.std.specs.Prelude.{◌≡◌, map, string_bytes, IfOk};
ghost use Rattle.toml.specs.Data.{Data, Members, array, boolean, integer, string, table as table_data};
ghost use Rattle.toml.specs.View.{items_of, table_view, view};
ghost use Rattle.image_writing.specs.Data.{put_member};

use crate::Memory;
use std::alloc::Global;
use toml::{Table, Value};

/// What is written as a value of TOML.
pub trait AsValue {
    /// The value.
    ghost says: { Self → Data };

    /// The value, unless memory runs out.
    fn value(&self, alloc: Global) -> Result<Value, Memory>
        ensures value { IfOk result (λ v. view v ≡ says self.now) };
}

impl AsValue for i64 {
    ghost says = { λ z. integer z };

    fn value(&self, alloc: Global) -> Result<Value, Memory> {
        Ok(Value::Integer(*self))
    }
}

impl AsValue for bool {
    ghost says = { λ b. boolean b };

    fn value(&self, alloc: Global) -> Result<Value, Memory> {
        Ok(Value::Boolean(*self))
    }
}

impl AsValue for String {
    ghost says = { λ s. string (string_bytes s) };

    fn value(&self, alloc: Global) -> Result<Value, Memory> {
        Ok(Value::string(alloc, self.as_str())?)
    }
}

/// The values of some items, in their order.
pub fn array_of<T: AsValue>(alloc: Global, items: &[T]) -> Result<Value, Memory>
    ensures value { IfOk result (λ v. view v ≡ array (items_of (map T.says items.now))) }
{
    let mut values = Vec::new(alloc);
    for item in items {
        values.push(item.value(alloc)?)?;
    }
    Ok(Value::Array(values))
}

/// A table with a value at a key, where both could be made.
pub fn put(
    alloc: Global,
    table: Result<Table, Memory>,
    key: &str,
    value: Result<Value, Memory>,
) -> Result<Table, Memory>
    ensures put { (ms : Members) (d : Data) → IfOk table (λ t. table_view t ≡ ms)
        → IfOk value (λ v. view v ≡ d) → IfOk result (λ t. table_view t ≡ put_member key.now d ms) }
{
    let value = match value {
        Ok(value) => value,
        Err(error) => {
            drop(table);
            return Err(error);
        }
    };
    match table {
        Ok(table) => with_value(alloc, table, key, value),
        Err(error) => {
            drop(value);
            Err(error)
        }
    }
}

// A table with a value at a key.
fn with_value(alloc: Global, table: Table, key: &str, value: Value) -> Result<Table, Memory>
    ensures put { IfOk result (λ t. table_view t ≡ put_member key.now (view value) (table_view table)) }
{
    match String::from_str(alloc, key) {
        Ok(key) => inserted(table, key, value),
        Err(_) => Err(Memory),
    }
}

fn inserted(table: Table, key: String, value: Value) -> Result<Table, Memory>
    ensures put { IfOk result (λ t. table_view t
        ≡ put_member (string_bytes key) (view value) (table_view table)) }
{
    let mut table = table;
    match table.insert(key, value) {
        Ok(_) => Ok(table),
        Err(_) => Err(Memory),
    }
}

/// A table as a value, where it could be made.
pub fn nested(table: Result<Table, Memory>) -> Result<Value, Memory>
    ensures value { (ms : Members) → IfOk table (λ t. table_view t ≡ ms)
        → IfOk result (λ v. view v ≡ table_data ms) }
{
    match table {
        Ok(table) => Ok(Value::Table(table)),
        Err(error) => Err(error),
    }
}
