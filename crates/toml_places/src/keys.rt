//! Keys as they stand in a text.
use crate::span::Span;
use base::Memory;
use std::alloc::Global;
use toml_parser::text::byte_at;
use toml_parser::{ParseError, quoted, starts_string};

/// A key, or a part of a dotted one: its name, where it stands, and what follows it.
#[derive(Drop)]
pub(crate) struct Part<'t> {
    pub(crate) name: String,
    pub(crate) span: Span,
    pub(crate) rest: &'t str,
}

/// Reads a key of one part from the front of the rest of a text of this length. None where there is none.
pub(crate) fn read_part<'t>(
    alloc: Global,
    length: usize,
    s: &'t str,
) -> Result<Option<Part<'t>>, Memory> {
    if starts_string(s) {
        match quoted(alloc, s) {
            Ok((name, rest)) => Ok(Some(Part {
                name,
                span: Span::between(length, s.len(), rest.len()),
                rest,
            })),
            Err(ParseError::OutOfMemory) => Err(Memory),
            Err(ParseError::At(..)) => Ok(None),
        }
    } else {
        read_bare(alloc, length, s)
    }
}

/// Reads a key that isn't quoted.
fn read_bare<'t>(alloc: Global, length: usize, s: &'t str) -> Result<Option<Part<'t>>, Memory> {
    let rest = after(s, bare_length(s));
    let name = before(s, rest);
    if name.is_empty() {
        return Ok(None);
    }
    match String::from_str(alloc, name) {
        Ok(name) => Ok(Some(Part {
            name,
            span: Span::between(length, s.len(), rest.len()),
            rest,
        })),
        Err(_) => Err(Memory),
    }
}

/// How many bytes at the front of a text may stand in a key that isn't quoted.
fn bare_length(s: &str) -> usize {
    for i in 0..s.len() {
        let byte = byte_at(s, i);
        if !byte.is_ascii_alphanumeric() && byte != b'-' && byte != b'_' {
            return i;
        }
    }
    s.len()
}

/// What follows the first bytes of a text; nothing where a character goes on there.
pub(crate) fn after(s: &str, bytes: usize) -> &str {
    if s.is_char_boundary(bytes) {
        &s[bytes..]
    } else {
        ""
    }
}

/// What stands before the rest of a text.
fn before<'t>(s: &'t str, rest: &str) -> &'t str {
    let bytes = s.len().saturating_sub(rest.len());
    if s.is_char_boundary(bytes) {
        &s[..bytes]
    } else {
        ""
    }
}
