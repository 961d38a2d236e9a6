//! One key, and the values that it is set to.
ghost use Rattle.std.specs.Prelude.{◌≡◌, IfOk};
ghost use Rattle.std.specs.List.{list_any};
ghost use Rattle.sweep_plan.specs.Axes.{value_at};
ghost use Rattle.sweep_plan.specs.Keys.{sets_again};
ghost use Rattle.sweep_plan.specs.Sweep.{choice_count};

use crate::keys::{SweptKey, is_same, names_first};
use crate::values::SweptValue;
use base::Memory;
use std::alloc::Global;
use std::marker::Model;

/// A key, and the values that it is set to, one after the other.
#[derive(Debug, Drop)]
pub struct Swept {
    key: SweptKey,
    together: bool,
    values: Vec<SweptValue>,
}

impl Model for Swept {
    ghost use Rattle.sweep_plan.specs.Sweep.{KeyValues};

    ghost Value = { KeyValues };

    ghost view = { λ s. record { key = s.key; together = s.together; values = s.values.items } };
}

impl Swept {
    /// The swept key of a key with these values, and whether it goes together with the one before it.
    pub(crate) fn new(key: SweptKey, together: bool, values: Vec<SweptValue>) -> Swept
        ensures { result ≡ record { key = key; together = together; values = values.items } }
    {
        Swept {
            key,
            together,
            values,
        }
    }

    /// The key that is set.
    pub fn key(&self) -> SweptKey
        ensures { result ≡ self.now.key }
    {
        self.key
    }

    /// Whether it goes together with the key before it: both change at one time, and are one axis.
    pub fn is_together(&self) -> bool
        ensures { result ≡ self.now.together }
    {
        self.together
    }

    /// Its values, in their order.
    pub fn values(&self) -> &[SweptValue]
        ensures { result.now ≡ self.now.values }
    {
        &self.values
    }

    /// Its value at a place, counted from 0; the number 0 where it has none there.
    pub fn value_at(&self, place: usize) -> SweptValue
        ensures { result ≡ value_at self.now place }
    {
        let values = self.values();
        match values.get(place) {
            Some(value) => *value,
            None => SweptValue::Whole(0),
        }
    }

    /// How many choices it leaves: one for each of its values; one alone where it goes together with the key before it.
    pub fn choice_count(&self) -> usize
        ensures { result ≡ choice_count self.now }
    {
        if self.is_together() {
            return 1;
        }
        self.values().len()
    }
}

/// Whether one of the swept keys sets a key that is spelt like this one, or that differs from it by `.1` behind its item's
/// name alone.
pub(crate) fn is_set(alloc: Global, swept_keys: &[Swept], key: SweptKey) -> Result<bool, Memory>
    ensures { IfOk result (λ it. it ≡ list_any (λ s. sets_again key s.key) swept_keys.now) }
{
    for swept in swept_keys {
        if sets_again(alloc, key, swept.key())? {
            return Ok(true);
        }
    }
    Ok(false)
}

/// Whether two keys are one, or differ by `.1` behind their items' names alone: then a sweep sets only one of them.
pub fn sets_again(alloc: Global, key: SweptKey, other: SweptKey) -> Result<bool, Memory>
    ensures { IfOk result (λ it. it ≡ sets_again key other) }
{
    if is_same(key, other) {
        return Ok(true);
    }
    names_first(alloc, other, key)
}
