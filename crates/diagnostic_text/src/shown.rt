//! Pieces of a text as a line shows them: what would end the line, or change how it stands, is escaped.
use std::alloc::{AllocError, Global};

/// How many characters of a name are shown.
const MOST: usize = 60;

/// A name, without the end of a long one.
pub(crate) fn shown_name(alloc: Global, name: &str) -> Result<String, AllocError> {
    let start = first_chars(name, MOST);
    let mut shown = shown_whole(alloc, start)?;
    if start.len() < name.len() {
        shown.push_str("...")?;
    }
    Ok(shown)
}

/// A name, however long it is.
pub(crate) fn shown_whole(alloc: Global, name: &str) -> Result<String, AllocError> {
    let mut shown = String::new(alloc);
    for c in name.chars() {
        if c == '\\' {
            shown.push_str("\\\\")?;
        } else {
            push_shown(&mut shown, c)?;
        }
    }
    Ok(shown)
}

/// Adds a piece of a line of the text; a tab is four spaces wide.
pub(crate) fn push_source(shown: &mut String, piece: &str) -> Result<(), AllocError> {
    for c in piece.chars() {
        if c == '\t' {
            shown.push_str("    ")?;
        } else {
            push_shown(shown, c)?;
        }
    }
    Ok(())
}

/// Adds a character.
fn push_shown(shown: &mut String, c: char) -> Result<(), AllocError> {
    match c {
        '\t' => shown.push_str("\\t"),
        '\n' => shown.push_str("\\n"),
        '\r' => shown.push_str("\\r"),
        _ if breaks_line(c) || is_unseen(c) => push_escape(shown, c),
        _ => shown.push(c),
    }
}

/// Adds a character by its number.
fn push_escape(shown: &mut String, c: char) -> Result<(), AllocError> {
    let number = u32::from(c);
    write!(shown, "\\u{{{number:x}}}")
}

/// Whether a character ends a line or changes what stands there.
fn breaks_line(c: char) -> bool {
    c.is_control() || c == '\u{2028}' || c == '\u{2029}'
}

/// Whether a character isn't seen: it has no width, or turns the direction of what stands round it.
fn is_unseen(c: char) -> bool {
    let number = u32::from(c);
    (0x200b..=0x200f).contains(&number)
        || (0x202a..=0x202e).contains(&number)
        || (0x2066..=0x2069).contains(&number)
        || number == 0xfeff
        || (0xe0000..=0xe007f).contains(&number)
}

/// The first characters of a text, at most so many.
pub(crate) fn first_chars(text: &str, most: usize) -> &str {
    let mut left = most;
    for at in 0..text.len() {
        if text.is_char_boundary(at) {
            if left == 0 {
                return &text[..at];
            }
            left -= 1;
        }
    }
    text
}

/// The last characters of a text, at most so many.
pub(crate) fn last_chars(text: &str, most: usize) -> &str {
    let mut left = most;
    for back in 0..text.len() {
        let at = text.len() - back;
        if text.is_char_boundary(at) {
            if left == 0 {
                return &text[at..];
            }
            left -= 1;
        }
    }
    text
}
