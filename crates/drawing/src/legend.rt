//! Legends: which colour stands for what. They are lists of the class `legend`.
ghost use Rattle.std.specs.Prelude.{◌≡◌, ◌++◌, OnOk};
ghost use Rattle.std.specs.String.{string_bytes};
ghost use Rattle.drawing.specs.Legends.{counted_entry, entry, swatch};

use crate::escape::push_escaped;
use crate::number::push_grouped;
use std::alloc::AllocError;

/// Appends one entry of a legend: its class in the palette, and its words.
#[tactic(auto, unfolding(crate::specs::Legends::entry))]
pub fn push_entry(text: &mut String, class: &str, words: &str) -> Result<(), AllocError>
    ensures { OnOk result (string_bytes text.new ≡ string_bytes text.old ++ entry class.now words.now) }
{
    push_swatch(text, class)?;
    push_escaped(text, words)?;
    text.push_str("</li>")
}

/// Appends one entry of a legend with how many there are of it.
#[tactic(auto, unfolding(crate::specs::Legends::counted_entry))]
pub fn push_counted(
    text: &mut String,
    class: &str,
    words: &str,
    count: u64,
) -> Result<(), AllocError>
    ensures { OnOk result (string_bytes text.new ≡ string_bytes text.old ++ counted_entry class.now words.now count) }
{
    push_swatch(text, class)?;
    push_escaped(text, words)?;
    text.push_str(" ")?;
    push_grouped(text, count)?;
    text.push_str("</li>")
}

/// Begins an entry by its colour.
#[tactic(auto, unfolding(crate::specs::Legends::swatch))]
fn push_swatch(text: &mut String, class: &str) -> Result<(), AllocError>
    ensures { OnOk result (string_bytes text.new ≡ string_bytes text.old ++ swatch class.now) }
{
    text.push_str("<li><svg class=\"swatch\" viewBox=\"0 0 10 10\" aria-hidden=\"true\">")?;
    write!(
        text,
        "<rect class=\"{class}\" width=\"10\" height=\"10\"/></svg>"
    )
}
