//! Turns a byte range of the scenario's text into a place: line and column from 1, and a length in characters.
use crate::about::Place;
use base::Memory;
use std::alloc::Global;
use toml_places::{Span, position_of};

/// Where each line of a text begins.
pub(crate) fn line_starts(alloc: Global, text: &[u8]) -> Result<Vec<usize>, Memory> {
    let mut starts = Vec::new(alloc);
    starts.push(0)?;
    for at in 0..text.len() {
        if text[at] == b'\n' {
            starts.push(at + 1)?;
        }
    }
    Ok(starts)
}

/// The place of a range of a text whose lines begin so.
pub(crate) fn place_of_span(text: &str, starts: &[usize], span: Span) -> Place {
    let line = lines_up_to(starts, span.start);
    let begins = starts.get(line.saturating_sub(1)).copied().unwrap_or(0);
    let column = column_of(text.as_bytes(), begins, span.start);
    let marked = text.get(span.start..span.end).unwrap_or("");
    Place {
        line: line as u64,
        column: column as u64,
        length: marked.chars().count() as u64,
    }
}

/// How many of the lines that begin so begin at a byte or before it.
fn lines_up_to(starts: &[usize], byte: usize) -> usize {
    starts.partition_point(|start| *start <= byte)
}

/// The column of a byte on the line that begins there.
fn column_of(text: &[u8], begins: usize, byte: usize) -> usize {
    let line = text.get(begins..).unwrap_or(&[]);
    position_of(line, byte.saturating_sub(begins)).column
}
