//! Whether two items of a list have one name.
ghost use Rattle.std.specs.Prelude.{◌≡◌, ◌++◌, ◌∷◌, [], map, false, Ok, IfOk, codes, option_map};
ghost use Rattle.std.specs.List.{list_any};
ghost use Rattle.std.specs.Str.{bytes_eq};
ghost use Rattle.toml.specs.View.{view};
ghost use Rattle.script_reader.specs.Rules.{is_name_twice};
ghost use Rattle.script_reader.specs.Twice.{is_among, name_or_none, words};

use crate::values::text_at;
use base::Memory;
use indexmap::IndexSet;
use std::alloc::Global;
use toml::Value;

/// Whether two of these items have one name.
///
/// # Errors
///
/// Memory was refused.
pub(crate) fn is_name_twice(alloc: Global, items: &[Value]) -> Result<bool, Memory>
    ensures { IfOk result (λ twice. twice ≡ is_name_twice (map view items.now)) }
{
    let mut names = IndexSet::new(alloc);
    for item in items {
        let taken = is_taken(alloc, &mut names, text_at(item, "name"))?;
        if taken {
            return Ok(true);
        }
    }
    Ok(false)
}

/// Adds a name, where there is one, and says whether it was there.
fn is_taken(alloc: Global, names: &mut IndexSet<String>, name: Option<&str>) -> Result<bool, Memory>
    ensures taken { IfOk result (λ taken. taken ≡ is_among (words names.old.keys) (option_map (λ t. t.now) name.entry)) }
    ensures added { result ≡ Ok false → words names.new.keys ≡ words names.old.keys ++ name_or_none (option_map (λ t. t.now) name.entry) }
{
    match name {
        Some(name) => is_name_taken(alloc, names, name),
        None => Ok(false),
    }
}

/// Adds a name, and says whether it was there.
fn is_name_taken(alloc: Global, names: &mut IndexSet<String>, name: &str) -> Result<bool, Memory>
    ensures taken { IfOk result (λ taken. taken ≡ list_any (bytes_eq name.now) (words names.old.keys)) }
    ensures added { result ≡ Ok false → words names.new.keys ≡ words names.old.keys ++ name.now ∷ [] }
{
    let Ok(key) = String::from_str(alloc, name) else {
        return Err(Memory);
    };
    match names.insert(key) {
        Ok(added) => Ok(!added),
        Err(_) => Err(Memory),
    }
}
