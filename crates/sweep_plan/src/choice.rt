//! The value that a key has in a setting, and how the choices of a setting are printed.
ghost use Rattle.std.specs.Prelude.{◌≡◌, ◌++◌, string_bytes, IfOk, OnOk};
ghost use Rattle.sweep_plan.specs.Settings.{choice_text, choices_text};

use crate::keys::SweptKey;
use crate::values::SweptValue;
use base::Memory;
use std::alloc::Global;

/// The value that a key has in a setting.
#[derive(Clone, Copy, Debug, PartialEq, Eq)]
pub struct Choice {
    pub key: SweptKey,
    pub value: SweptValue,
}

/// The choices of a setting as words: its keys in their order, each with an equals sign and its
/// value, and a space between one and the next, as `swim.period=200 swim.timeout=30`.
pub fn choices_text(alloc: Global, setting: &[Choice]) -> Result<String, Memory>
    ensures { IfOk result (λ text. string_bytes text ≡ choices_text setting.now) }
{
    let mut text = String::new(alloc);
    for (place, choice) in setting.iter().enumerate() {
        if place > 0 {
            text.push_str(" ")?;
        }
        push_choice(alloc, &mut text, choice)?;
    }
    Ok(text)
}

/// Appends a key, an equals sign and its value.
fn push_choice(alloc: Global, text: &mut String, choice: &Choice) -> Result<(), Memory>
    ensures { OnOk result (string_bytes text.new ≡ string_bytes text.old ++ choice_text choice.now) }
{
    let name = choice.key.name(alloc)?;
    let value = choice.value.text(alloc)?;
    text.push_str(name.as_str())?;
    text.push_str("=")?;
    text.push_str(value.as_str())?;
    Ok(())
}
