// Lists of the record, read of arrays.
ghost use Rattle.std.specs.Prelude.{map};
ghost use Rattle.toml.specs.Data.{Data};
ghost use Rattle.toml.specs.View.{view, items_view};
ghost use Rattle.image_text.specs.Record.{map_items};
ghost use Rattle.image_record.specs.Outcomes.{Makes};

use image_record::ReadRefusal;
use std::alloc::Global;
use toml::Value;

/// What an item of an array is read as.
pub trait Item: Sized + Drop {
    /// The part of the definitions' record.
    ghost Part: { Type 0 };

    ghost model: { Self → Part };

    ghost part_in: { Data → Part };

    fn read(alloc: Global, value: &Value) -> Result<Self, ReadRefusal>
        ensures read { Makes model result (part_in (view value.now)) };
}

pub fn read_items<T: Item>(alloc: Global, values: &[Value]) -> Result<Vec<T>, ReadRefusal>
    ensures read { Makes (λ xs. map T.model xs.items) result (map_items T.part_in (items_view values.now)) }
{
    let mut found = Vec::new(alloc);
    for value in values {
        found.push(T::read(alloc, value)?)?;
    }
    Ok(found)
}
