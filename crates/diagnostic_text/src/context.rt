//! What words are made from: the text, and its diagnostics.
use crate::shown::shown_name;
use diagnostics::Diagnostics;
use std::alloc::{AllocError, Global};
use toml_parser::{ParseError, quoted, starts_string};
use toml_places::{Span, position_of};

/// A text and its diagnostics.
#[derive(Clone, Copy)]
pub(crate) struct Context<'a> {
    pub(crate) alloc: Global,
    /// The bytes of the text.
    pub(crate) bytes: &'a [u8],
    /// As much of it as is UTF-8.
    pub(crate) text: &'a str,
    pub(crate) diagnostics: &'a Diagnostics,
}

impl<'a> Context<'a> {
    /// The context of a text.
    pub(crate) fn new(alloc: Global, bytes: &'a [u8], diagnostics: &'a Diagnostics) -> Context<'a> {
        Context {
            alloc,
            bytes,
            text: valid_text(bytes),
            diagnostics,
        }
    }

    /// What stands at a place, as it is written.
    pub(crate) fn at(&self, span: Span) -> &'a str {
        self.text.get(span.start..span.end).unwrap_or("")
    }

    /// What stands at a place, as a line shows it.
    pub(crate) fn shown(&self, span: Span) -> Result<String, AllocError> {
        shown_name(self.alloc, self.at(span))
    }

    /// The text of the string, or the name of the key, that stands at a place.
    pub(crate) fn name(&self, span: Span) -> Result<String, AllocError> {
        let written = self.at(span);
        if starts_string(written) {
            return match quoted(self.alloc, written) {
                Ok((name, _)) => Ok(name),
                Err(ParseError::OutOfMemory) => Err(AllocError),
                Err(ParseError::At(..)) => Ok(String::new(self.alloc)),
            };
        }
        String::from_str(self.alloc, written)
    }

    /// The same, as a line shows it.
    pub(crate) fn shown_name(&self, span: Span) -> Result<String, AllocError> {
        let name = self.name(span)?;
        shown_name(self.alloc, name.as_str())
    }

    /// The line of a place.
    pub(crate) fn line(&self, span: Span) -> usize {
        position_of(self.bytes, span.start).line
    }
}

/// As much of the bytes as is UTF-8.
fn valid_text(bytes: &[u8]) -> &str {
    match std::str::from_utf8(bytes) {
        Ok(text) => text,
        Err(error) => {
            let valid = bytes.get(..error.valid_up_to()).unwrap_or(&[]);
            std::str::from_utf8(valid).unwrap_or("")
        }
    }
}
