//! Texts that HTML takes for nothing else.
ghost use Rattle.std.specs.Prelude.{◌≡◌, ◌++◌, OnOk};
ghost use Rattle.std.specs.String.{string_bytes};
ghost use Rattle.drawing.specs.Escaped.{escaped, escaped_char, hidden_char, is_hidden, is_hidden_format, markup};

use std::alloc::AllocError;

/// Appends a text, escaped: none of it is taken for markup, and a character that is invisible or
/// turns the direction of others is shown by its number, as `\u{202e}`.
pub fn push_escaped(text: &mut String, shown: &str) -> Result<(), AllocError>
    ensures { OnOk result (string_bytes text.new ≡ string_bytes text.old ++ escaped shown.now) }
{
    for c in shown.chars() {
        push_char(text, c)?;
    }
    Ok(())
}

/// Appends markup, as it is.
#[tactic(auto, unfolding(crate::specs::Escaped::markup))]
pub fn push_markup(text: &mut String, words: &str) -> Result<(), AllocError>
    ensures { OnOk result (string_bytes text.new ≡ string_bytes text.old ++ markup words.now) }
{
    text.push_str(words)
}

/// Appends a character, escaped.
fn push_char(text: &mut String, c: char) -> Result<(), AllocError>
    ensures { OnOk result (string_bytes text.new ≡ string_bytes text.old ++ escaped_char c) }
{
    match c {
        '&' => text.push_str("&amp;"),
        '<' => text.push_str("&lt;"),
        '>' => text.push_str("&gt;"),
        '"' => text.push_str("&quot;"),
        '\'' => text.push_str("&#39;"),
        _ if is_hidden(c) => push_hidden(text, c),
        _ => text.push(c),
    }
}

/// Appends the number of a character in base 16.
#[tactic(auto, unfolding(crate::specs::Escaped::hidden_char))]
fn push_hidden(text: &mut String, c: char) -> Result<(), AllocError>
    ensures { OnOk result (string_bytes text.new ≡ string_bytes text.old ++ hidden_char c) }
{
    write!(text, "\\u{{{:x}}}", u32::from(c))
}

/// Whether a character is a control character, or one that only changes how others are shown.
fn is_hidden(c: char) -> bool
    ensures { result ≡ is_hidden c }
{
    c.is_control() || is_hidden_format(c)
}

/// Whether a character is invisible, or turns the direction of others: a soft hyphen, a mark or an
/// embedding of a direction, a joiner, a separator, a byte order mark, or a tag.
fn is_hidden_format(c: char) -> bool
    ensures { result ≡ is_hidden_format c }
{
    matches!(c, '\u{ad}' | '\u{61c}' | '\u{200b}'..='\u{200f}' | '\u{2028}'..='\u{202e}' | '\u{2060}'..='\u{206f}' | '\u{feff}' | '\u{e0000}'..='\u{e007f}')
}
