//! The values that a sweep sets.
ghost use Rattle.std.specs.Prelude.{◌≡◌, string_bytes, IfOk, IfSome, IsNone};
ghost use Rattle.sweep_plan.specs.Values.{value_text, IsValue};
ghost use Rattle.sweep_plan.specs.declared.values.SweptValue.{SweptValue as Wanted};

use base::Memory;
use decimals::number;
use std::alloc::Global;

/// A value that a key is set to.
#[derive(Clone, Copy, Debug, PartialEq, Eq)]
pub enum SweptValue {
    /// A whole number, which a word says in decimal; at most 2^63 - 1.
    Whole(u64),
    /// A switch, which a word says as `true` or `false`.
    Switch(bool),
}

impl SweptValue {
    /// The value that a word says: `true`, `false`, or a whole number in decimal, without sign or
    /// leading zero, of at most 2^63 - 1.
    pub fn read(word: &str) -> Option<SweptValue>
        ensures some { IfSome result (IsValue word.now) }
        ensures none { IsNone result → (value : Wanted) → ¬ (IsValue word.now value) }
    {
        if word == "true" {
            return Some(SweptValue::Switch(true));
        }
        if word == "false" {
            return Some(SweptValue::Switch(false));
        }
        Some(SweptValue::Whole(number(word)?))
    }

    /// The value as words say it.
    pub fn text(self, alloc: Global) -> Result<String, Memory>
        ensures { IfOk result (λ text. string_bytes text ≡ value_text self) }
    {
        match self {
            SweptValue::Whole(number) => Ok(format!(in alloc; "{number}")?),
            SweptValue::Switch(true) => Ok(String::from_str(alloc, "true")?),
            SweptValue::Switch(false) => Ok(String::from_str(alloc, "false")?),
        }
    }
}
