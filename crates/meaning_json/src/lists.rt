//! How a JSON list is built from its values, one at a time.
ghost use Rattle.std.specs.Prelude.{◌≡◌, ◌++◌, [], ◌∷◌, OnOk, map};
ghost use Rattle.serde_json.specs.View.{view};
ghost use Rattle.meaning_json.specs.Figures.{list_of};

use serde_json::Value;
use std::alloc::AllocError;

/// Appends a value to a list.
pub(crate) fn push_value(values: &mut Vec<Value>, value: Value) -> Result<(), AllocError>
    ensures { OnOk result (map view values.new.items ≡ map view values.old.items ++ view value ∷ []) }
{
    serde_json::push(values, value)?;
    Ok(())
}

/// A list of these values.
pub(crate) fn list_of(values: Vec<Value>) -> Value
    ensures { view result ≡ list_of (map view values.items) }
{
    Value::Array(values)
}
