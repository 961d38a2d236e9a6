//! The diagnostics of a text as lines for people.
ghost use Rattle.std.specs.Prelude.{◌≡◌, ◌++◌, IfOk, OnOk, string_bytes};
ghost use Rattle.diagnostics.specs.Told.{IsLeastRule};
ghost use Rattle.diagnostic_text.specs.Told.{AreBlocks, TellsLines, block_of, count_line, head_of};

use crate::choice::{MOST, shown};
use crate::context::Context;
use crate::excerpt::{Excerpt, excerpt_of};
use crate::shown::shown_whole;
use crate::words::{Words, words_of};
use base::Memory;
use diagnostics::{Diagnostic, Diagnostics};
use std::alloc::{AllocError, Global};
use toml_places::{Position, Span, position_of};

/// The diagnostics of the text of a file, at most 50 of them by their places, and how many there are.
pub fn lines(
    alloc: Global,
    file: &str,
    bytes: &[u8],
    diagnostics: &Diagnostics,
) -> Result<String, Memory>
    requires least { IsLeastRule diagnostics.now.rule diagnostics.now.list.items }
    ensures { IfOk result (λ text. TellsLines diagnostics.now.rule (string_bytes text)) }
{
    let context = Context::new(alloc, bytes, diagnostics);
    let file = shown_whole(alloc, file)?;
    let shown = shown(alloc, diagnostics)?;
    let mut lines = blocks(&context, file.as_str(), shown.as_slice())?;
    push_count(&mut lines, diagnostics.list.len())?;
    Ok(lines)
}

/// The lines of these diagnostics.
fn blocks(context: &Context<'_>, file: &str, shown: &[Diagnostic]) -> Result<String, Memory>
    ensures { IfOk result (λ text. AreBlocks shown.now (string_bytes text)) }
{
    let mut lines = String::new(context.alloc);
    for diagnostic in shown {
        let words = told(context, file, diagnostic)?;
        push_block(&mut lines, diagnostic.rule, words.as_str())?;
    }
    Ok(lines)
}

/// Adds the words on a diagnostic of a rule.
fn push_block(lines: &mut String, rule: u8, words: &str) -> Result<(), AllocError>
    ensures { OnOk result (string_bytes lines.new ≡ string_bytes lines.old ++ block_of rule words.now) }
{
    push_head(lines, rule)?;
    lines.push_str(words)
}

/// Adds what the words on a diagnostic of a rule begin with.
fn push_head(lines: &mut String, rule: u8) -> Result<(), AllocError>
    ensures { OnOk result (string_bytes lines.new ≡ string_bytes lines.old ++ head_of rule) }
{
    write!(lines, "error[rule {rule}]: ")
}

/// Adds how many diagnostics there are.
fn push_count(lines: &mut String, count: usize) -> Result<(), AllocError>
    ensures { OnOk result (string_bytes lines.new ≡ string_bytes lines.old ++ count_line count) }
{
    if count == 1 {
        return lines.push_str("1 error\n");
    }
    if count <= MOST {
        return write!(lines, "{count} errors\n");
    }
    let more = count - MOST;
    write!(lines, "{count} errors, {more} of them not shown\n")
}

/// The words on a diagnostic: what is wrong, where, the line, and what helps.
fn told(context: &Context<'_>, file: &str, diagnostic: &Diagnostic) -> Result<String, AllocError> {
    let at = position_of(context.bytes, diagnostic.span.start);
    let gutter = spaces(context.alloc, digits(at.line))?;
    let words = words_of(context, diagnostic)?;
    told_of(context, file, diagnostic.span, at, gutter.as_str(), &words)
}

/// The same, behind a gutter.
fn told_of(
    context: &Context<'_>,
    file: &str,
    span: Span,
    at: Position,
    gutter: &str,
    words: &Words,
) -> Result<String, AllocError> {
    let mut lines = String::new(context.alloc);
    push_place(&mut lines, words.message.as_str(), gutter, file, at)?;
    push_excerpt(
        context,
        &mut lines,
        span,
        at.line,
        gutter,
        words.label.as_str(),
    )?;
    push_note(&mut lines, gutter, words.note.as_str())?;
    Ok(lines)
}

/// Adds what is wrong, and where.
fn push_place(
    lines: &mut String,
    message: &str,
    gutter: &str,
    file: &str,
    at: Position,
) -> Result<(), AllocError> {
    let line = at.line;
    let column = at.column;
    write!(lines, "{message}\n{gutter} --> {file}:{line}:{column}\n")
}

/// Adds what helps, where that is known, and an empty line.
fn push_note(lines: &mut String, gutter: &str, note: &str) -> Result<(), AllocError> {
    if note.is_empty() {
        lines.push_str("\n")
    } else {
        write!(lines, "{gutter}  |\n{gutter}  = {note}\n\n")
    }
}

/// Adds the line of the text, and the mark below it with what to do.
fn push_excerpt(
    context: &Context<'_>,
    lines: &mut String,
    span: Span,
    line: usize,
    gutter: &str,
    label: &str,
) -> Result<(), AllocError> {
    let excerpt = excerpt_of(context, span)?;
    push_source(lines, gutter, line, excerpt.line.as_str())?;
    push_marks(context.alloc, lines, gutter, &excerpt, label)
}

/// Adds the line of the text by its number.
fn push_source(
    lines: &mut String,
    gutter: &str,
    line: usize,
    source: &str,
) -> Result<(), AllocError> {
    if source.is_empty() {
        write!(lines, "{gutter}  |\n {line} |\n")
    } else {
        write!(lines, "{gutter}  |\n {line} | {source}\n")
    }
}

/// Adds the mark and what to do.
fn push_marks(
    alloc: Global,
    lines: &mut String,
    gutter: &str,
    excerpt: &Excerpt,
    label: &str,
) -> Result<(), AllocError> {
    let indent = spaces(alloc, excerpt.indent)?;
    let marks = repeated(alloc, '^', excerpt.marks)?;
    if label.is_empty() {
        write!(lines, "{gutter}  | {indent}{marks}\n")
    } else {
        write!(lines, "{gutter}  | {indent}{marks} {label}\n")
    }
}

/// How many digits a number has.
fn digits(number: usize) -> usize {
    let mut left = number;
    for count in 1..20usize {
        if left < 10 {
            return count;
        }
        left /= 10;
    }
    20
}

/// So many spaces.
fn spaces(alloc: Global, count: usize) -> Result<String, AllocError> {
    repeated(alloc, ' ', count)
}

/// A character so many times.
fn repeated(alloc: Global, c: char, count: usize) -> Result<String, AllocError> {
    let mut text = String::new(alloc);
    for _ in 0..count {
        text.push(c)?;
    }
    Ok(text)
}
