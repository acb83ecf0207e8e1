//! Arrays: the value of each item, in order.

ghost use Rattle.std.specs.Prelude.{◌≡◌, IfOk};
ghost use Rattle.toml.specs.View.{view, items_view, table_view};
ghost use Rattle.world_settings.specs.Lists.{each, items_of, list_at};
ghost use Rattle.world_settings.specs.Values.{number};

use crate::values::{short, value_at};
use std::alloc::{AllocError, Global};
use toml::{Table, Value};

/// How the items of an array are read.
pub(crate) trait Reader<T> {
    ghost use Rattle.std.specs.Prelude.{Option};
    ghost use Rattle.toml.specs.Data.{Data};

    /// What a value spells, if it spells something.
    ghost spelled: { Self → Data → Option T };

    /// What a value spells; `None` where it spells nothing.
    fn read(&self, alloc: Global, value: &Value) -> Result<Option<T>, AllocError>
        ensures { IfOk result (λ item. item ≡ spelled self.now (view value.now)) };
}

/// Numbers of 16 bits.
#[derive(Clone, Copy)]
pub(crate) struct Shorts;

impl Reader<u16> for Shorts {
    ghost spelled = { λ _ value. number 65535 value };

    fn read(&self, _alloc: Global, value: &Value) -> Result<Option<u16>, AllocError> {
        Ok(short(value))
    }
}

/// What each item of the array at a key spells; `None` where there is no array, or one of its items spells nothing.
pub(crate) fn list_at<T: Drop, R: Reader<T>>(
    alloc: Global,
    table: &Table,
    key: &str,
    reader: &R,
) -> Result<Option<Vec<T>>, AllocError>
    ensures { IfOk result (λ list. items_of list ≡ list_at (R.spelled reader.now) key.now (table_view table.now)) }
{
    let Some(value) = value_at(table, key) else {
        return Ok(None);
    };
    match value.as_array() {
        Some(array) => each(alloc, array.as_slice(), reader),
        None => Ok(None),
    }
}

/// What each item of an array spells; `None` where one spells nothing.
fn each<T: Drop, R: Reader<T>>(
    alloc: Global,
    array: &[Value],
    reader: &R,
) -> Result<Option<Vec<T>>, AllocError>
    ensures { IfOk result (λ list. items_of list ≡ each (R.spelled reader.now) (items_view array.now)) }
{
    let mut list = Vec::new(alloc);
    for value in array {
        match reader.read(alloc, value)? {
            Some(item) => list.push(item)?,
            None => return Ok(None),
        }
    }
    Ok(Some(list))
}
