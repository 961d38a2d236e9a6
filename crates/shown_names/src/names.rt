//! What a line shows of a name.
ghost use Rattle.std.specs.Prelude.{◌≡◌, Some, IfOk, string_bytes};
ghost use Rattle.std.specs.Fmt.{WritesOnOk};
ghost use Rattle.shown_names.specs.Shown.{breaks_line, is_unseen, is_within, shown_char, shown_name};

use std::alloc::{AllocError, Global};
use std::fmt;
use std::fmt::{Display, Formatter, Write};

/// A name as a line shows it.
#[derive(Clone, Copy, Debug)]
pub struct ShownName<'a>(pub &'a str);

impl Display for ShownName<'_> {
    ghost output = { λ name. Some (shown_name name.0.now) };

    fn fmt<W: Write>(&self, f: &mut Formatter<W>) -> fmt::Result {
        write_name(f, self.0)
    }
}

/// A name as a line shows it, as a text.
pub fn shown(alloc: Global, name: &str) -> Result<String, AllocError>
    ensures { IfOk result (λ text. string_bytes text ≡ shown_name name.now) }
{
    ShownName(name).to_string(alloc)
}

/// Writes a name as a line shows it.
pub fn write_name<W: Write>(f: &mut Formatter<W>, name: &str) -> fmt::Result
    ensures { WritesOnOk W.write_str_gives f.old result (shown_name name.now) f.new }
{
    for c in name.chars() {
        write_shown(f, c)?;
    }
    Ok(())
}

/// Writes a character of a name as a line shows it.
fn write_shown<W: Write>(f: &mut Formatter<W>, c: char) -> fmt::Result
    ensures { WritesOnOk W.write_str_gives f.old result (shown_char c) f.new }
{
    match c {
        '\t' => f.write_str("\\t"),
        '\n' => f.write_str("\\n"),
        '\r' => f.write_str("\\r"),
        // else two names could be shown alike
        '\\' => f.write_str("\\\\"),
        _ if breaks_line(c) => write!(f, "\\u{{{:x}}}", u32::from(c)),
        _ => f.write_char(c),
    }
}

/// Whether a character ends a line or changes what is seen of it.
fn breaks_line(c: char) -> bool
    ensures { result ≡ breaks_line c }
{
    c.is_control() || is_unseen(u32::from(c))
}

/// Whether the character of this number isn't seen: it has no width, separates lines, turns the direction of writing,
/// or is a tag.
fn is_unseen(number: u32) -> bool
    ensures { result ≡ is_unseen number }
{
    is_within(0x200b, 0x200f, number)
        || is_within(0x2028, 0x202e, number)
        || is_within(0x2066, 0x2069, number)
        || number == 0xfeff
        || is_within(0xe0000, 0xe007f, number)
}

/// Whether a number is one of those from the first to the last.
fn is_within(first: u32, last: u32, number: u32) -> bool
    ensures { result ≡ is_within first last number }
{
    first <= number && number <= last
}
