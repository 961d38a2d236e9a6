//! The lines of a plain text.
ghost use Rattle.std.specs.Prelude.{◌≡◌, ◌++◌, OnOk, string_bytes};
ghost use Rattle.plain_text.specs.Lines.{line_text, value_text};

use std::alloc::AllocError;
use std::fmt::Write;

/// A value of a plain text.
#[derive(Clone, Copy, Debug)]
pub enum PlainValue<'a> {
    /// A whole number, below 2^63.
    Whole(u64),
    /// A switch.
    Switch(bool),
    /// A name, of letters, digits, `-` and `_`.
    Name(&'a str),
}

/// A line of a plain text. Keys and names are of letters, digits, `-` and `_`.
#[derive(Clone, Copy, Debug)]
pub enum PlainLine<'a> {
    /// A key and its value.
    Pair { key: &'a str, value: PlainValue<'a> },
    /// The header of a table.
    Table(&'a str),
    /// The header of the next item of a list.
    Item(&'a str),
}

/// Appends a line.
pub(crate) fn push_line(text: &mut String, line: &PlainLine) -> Result<(), AllocError>
    ensures { OnOk result (string_bytes text.new ≡ string_bytes text.old ++ line_text line.now) }
{
    match line {
        PlainLine::Pair { key, value } => {
            write!(text, "{key} = ")?;
            push_value(text, value)?;
            text.push_str("\n")
        }
        PlainLine::Table(name) => writeln!(text, "[{name}]"),
        PlainLine::Item(name) => writeln!(text, "[[{name}]]"),
    }
}

/// Appends a value.
fn push_value(text: &mut String, value: &PlainValue) -> Result<(), AllocError>
    ensures { OnOk result (string_bytes text.new ≡ string_bytes text.old ++ value_text value.now) }
{
    match value {
        PlainValue::Whole(number) => write!(text, "{number}"),
        PlainValue::Switch(true) => text.push_str("true"),
        PlainValue::Switch(false) => text.push_str("false"),
        PlainValue::Name(name) => write!(text, "\"{name}\""),
    }
}
