//! The line of a text on which a diagnostic stands, with a mark below its place.
use crate::context::Context;
use crate::shown::{first_chars, last_chars, push_source};
use std::alloc::{AllocError, Global};
use toml_places::Span;
use unicode_width::UnicodeWidthStr;

/// A line of at most so many characters is shown whole.
const WHOLE: usize = 100;

/// Of a longer one so many characters are shown before the place.
const BEFORE: usize = 30;

/// And so many from the place on.
const AHEAD: usize = 60;

/// A line as it is shown.
#[derive(Drop)]
pub(crate) struct Excerpt {
    /// The line, or the part of it round the place.
    pub(crate) line: String,
    /// How many columns stand before the mark.
    pub(crate) indent: usize,
    /// How many columns the mark takes, one at least.
    pub(crate) marks: usize,
}

/// The pieces of a line: what stands before the place, at it, and after it.
#[derive(Clone, Copy)]
struct Pieces<'t> {
    before: &'t str,
    marked: &'t str,
    after: &'t str,
}

/// The line on which a place begins.
pub(crate) fn excerpt_of(context: &Context<'_>, span: Span) -> Result<Excerpt, AllocError> {
    let alloc = context.alloc;
    let pieces = pieces_of(context.text, span);
    let shown = shortened(pieces);
    let left = dots(shown.before.len() < pieces.before.len());
    let right = dots(length_from_place(shown) < length_from_place(pieces));
    let indent = columns(alloc, shown.before)?;
    let marks = columns(alloc, shown.marked)?;
    Ok(Excerpt {
        line: joined_lines(alloc, left, shown, right)?,
        indent: left.len().saturating_add(indent),
        marks: marks.max(1),
    })
}

/// The pieces that are shown.
fn shortened(pieces: Pieces<'_>) -> Pieces<'_> {
    if is_short(pieces) {
        pieces
    } else {
        cut(pieces)
    }
}

/// What stands where something was left out.
fn dots(is_cut: bool) -> &'static str {
    if is_cut { "..." } else { "" }
}

/// How long the pieces are from the place on.
fn length_from_place(pieces: Pieces<'_>) -> usize {
    pieces.marked.len().saturating_add(pieces.after.len())
}

/// How many columns a piece takes.
fn columns(alloc: Global, piece: &str) -> Result<usize, AllocError> {
    let mut shown = String::new(alloc);
    push_source(&mut shown, piece)?;
    Ok(shown.as_str().width())
}

/// The pieces of a shown line one after the other, without spaces at its end.
fn joined_lines(
    alloc: Global,
    left: &str,
    pieces: Pieces<'_>,
    right: &str,
) -> Result<String, AllocError> {
    let mut line = String::from_str(alloc, left)?;
    push_source(&mut line, pieces.before)?;
    push_source(&mut line, pieces.marked)?;
    push_source(&mut line, pieces.after)?;
    line.push_str(right)?;
    String::from_str(alloc, line.as_str().trim_end())
}

/// The pieces of the line on which a place begins.
fn pieces_of(text: &str, span: Span) -> Pieces<'_> {
    let from = line_start(text.as_bytes(), span.start);
    let to = line_end(text.as_bytes(), span.start);
    let end = span.end.min(to);
    Pieces {
        before: text.get(from..span.start).unwrap_or(""),
        marked: text.get(span.start..end).unwrap_or(""),
        after: text.get(end.max(span.start)..to).unwrap_or(""),
    }
}

/// Where the line of a byte begins.
fn line_start(bytes: &[u8], byte: usize) -> usize {
    for back in 0..byte.min(bytes.len()) {
        let at = byte.min(bytes.len()) - back;
        if bytes[at - 1] == b'\n' {
            return at;
        }
    }
    0
}

/// Where the line of a byte ends, before its line feed, and the carriage return before that.
fn line_end(bytes: &[u8], byte: usize) -> usize {
    for at in byte..bytes.len() {
        if bytes[at] == b'\n' {
            if at > byte && bytes[at - 1] == b'\r' {
                return at - 1;
            }
            return at;
        }
    }
    bytes.len()
}

/// Whether a line is shown whole.
fn is_short(pieces: Pieces<'_>) -> bool {
    let line = pieces
        .before
        .len()
        .saturating_add(pieces.marked.len())
        .saturating_add(pieces.after.len());
    line <= WHOLE
}

/// The pieces of a long line round the place.
fn cut(pieces: Pieces<'_>) -> Pieces<'_> {
    let marked = first_chars(pieces.marked, AHEAD);
    let after = if marked.len() < pieces.marked.len() {
        ""
    } else {
        first_chars(pieces.after, AHEAD)
    };
    Pieces {
        before: last_chars(pieces.before, BEFORE),
        marked,
        after,
    }
}
