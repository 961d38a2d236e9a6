//! The words of diagnostics that only texts of version 4 have.
use crate::context::Context;
use crate::rows::{found_text, home_text};
use crate::words::{Words, general_words};
use diagnostics::{Cause, Diagnostic, Home, ValueKind, Wanted, entry_keys};
use schema::FormatKey;
use std::alloc::{AllocError, Global};
use toml_places::Span;

/// The words of a diagnostic that only texts of version 4 have, or of one of which the rule alone is known.
pub(crate) fn fourth_words(
    context: &Context<'_>,
    diagnostic: &Diagnostic,
) -> Result<Words, AllocError> {
    let alloc = context.alloc;
    match diagnostic.cause {
        Cause::NamesNobody { home } => nobody_words(alloc, home),
        Cause::LacksKey { home, key } => lacks_words(alloc, home, key),
        Cause::OtherKind { key, wanted, found } => other_kind_words(alloc, key, wanted, found),
        Cause::Outside { key, wanted } => outside_words(alloc, key, wanted),
        _ => entry_words(context, diagnostic),
    }
}

/// The words of a diagnostic of rules 6 and 9 on an entry.
fn entry_words(context: &Context<'_>, diagnostic: &Diagnostic) -> Result<Words, AllocError> {
    let alloc = context.alloc;
    let span = diagnostic.span;
    match diagnostic.cause {
        Cause::RepeatedEntry { other } => repeated_entry_words(context, span, other),
        Cause::BesideKey { key, other } => beside_words(alloc, key, other),
        Cause::WithoutKey { key, other } => without_words(alloc, key, other),
        Cause::LastsLess { least, most } => lasts_words(alloc, least, most),
        Cause::NamedTwice { other } => twice_words(context, span, other),
        Cause::CountOverGroup { count, members } => count_words(alloc, count, members),
        Cause::AsksItself => Words::fixed(
            alloc,
            "a member asks itself",
            "write another member, or leave `contact` out",
            "who starts again asks another member to let it in",
        ),
        _ => general_words(context, diagnostic.rule),
    }
}

/// Rule 2: an entry names nobody.
fn nobody_words(alloc: Global, home: Home) -> Result<Words, AllocError> {
    let place = home_text(alloc, home)?;
    Words::of(
        format!(in alloc; "an entry {place} is about nobody"),
        String::from_str(alloc, "add `member`, `members` or `group`"),
        keys_of_entry(alloc, home, place.as_str()),
    )
}

/// Rule 2: an entry lacks a key.
fn lacks_words(alloc: Global, home: Home, key: &str) -> Result<Words, AllocError> {
    let place = home_text(alloc, home)?;
    Words::of(
        format!(in alloc; "missing key `{key}` in {place}"),
        format!(in alloc; "add `{key}`"),
        keys_of_entry(alloc, home, place.as_str()),
    )
}

/// The keys of entries, which stand at a place of this name.
fn keys_of_entry(alloc: Global, home: Home, place: &str) -> Result<String, AllocError> {
    let list = home.key.unwrap_or(FormatKey::Pause);
    let keys = entry_keys(list);
    format!(in alloc; "{place} has: {keys}")
}

/// Rule 4: a value is of another kind.
fn other_kind_words(
    alloc: Global,
    key: &str,
    wanted: Wanted,
    found: ValueKind,
) -> Result<Words, AllocError> {
    Words::of(
        other_kind_message(alloc, key, wanted, found),
        write_label(alloc, wanted),
        units_note(alloc, wanted),
    )
}

/// What stands there in place of what is wanted.
fn other_kind_message(
    alloc: Global,
    key: &str,
    wanted: Wanted,
    found: ValueKind,
) -> Result<String, AllocError> {
    let words = wanted_words(alloc, wanted)?;
    if found == ValueKind::Text {
        return format!(in alloc; "the string at `{key}` isn't {words}");
    }
    let there = found_text(found);
    format!(in alloc; "`{key}` is {there}, not {words}")
}

/// What to write.
fn write_label(alloc: Global, wanted: Wanted) -> Result<String, AllocError> {
    let words = wanted_words(alloc, wanted)?;
    format!(in alloc; "write {words}")
}

/// What a value has to be.
fn wanted_words(alloc: Global, wanted: Wanted) -> Result<String, AllocError> {
    match wanted {
        Wanted::Ticks { least, most } => ticks_words(alloc, least, most),
        Wanted::Share => String::from_str(
            alloc,
            "a number of lost messages in a million, or a share as \"2%\"",
        ),
        Wanted::Tick => String::from_str(alloc, "a length as \"1ms\", from 1us to 1s"),
        Wanted::Whole { least, most } => {
            format!(in alloc; "a whole number from {least} to {most}")
        }
        Wanted::Switch => String::from_str(alloc, "true or false"),
        Wanted::Text => String::from_str(alloc, "a name in quotes"),
        Wanted::Texts => String::from_str(alloc, "a list of names in quotes, one at least"),
    }
}

/// How a number of ticks may be said.
fn ticks_words(alloc: Global, least: u64, most: u64) -> Result<String, AllocError> {
    format!(in alloc; "a length as \"1.5s\", or {least} to {most} ticks")
}

/// Which units there are, where a length may stand.
fn units_note(alloc: Global, wanted: Wanted) -> Result<String, AllocError> {
    match wanted {
        Wanted::Ticks { .. } | Wanted::Tick => String::from_str(
            alloc,
            "a length has the units d, h, m, s, ms and us, from large to small",
        ),
        _ => Ok(String::new(alloc)),
    }
}

/// Rule 5: a value is outside its range.
fn outside_words(alloc: Global, key: &str, wanted: Wanted) -> Result<Words, AllocError> {
    Words::of(
        outside_message(alloc, key, wanted),
        write_label(alloc, wanted),
        Ok(String::new(alloc)),
    )
}

/// What is outside its range.
fn outside_message(alloc: Global, key: &str, wanted: Wanted) -> Result<String, AllocError> {
    match wanted {
        Wanted::Texts => format!(in alloc; "`{key}` is empty"),
        Wanted::Ticks { .. } => {
            format!(in alloc; "`{key}` is outside its range, or no whole number of ticks")
        }
        _ => format!(in alloc; "`{key}` is outside its range"),
    }
}

/// Rule 6: two entries have one name.
fn repeated_entry_words(
    context: &Context<'_>,
    span: Span,
    other: Span,
) -> Result<Words, AllocError> {
    let alloc = context.alloc;
    let shown = context.shown_name(span)?;
    let line = context.line(other);
    Words::of(
        format!(in alloc; "two entries of the list have the name `{shown}`"),
        format!(in alloc; "the first of them is on line {line}"),
        String::from_str(alloc, "give one of them another name"),
    )
}

/// Rule 9: a key stands beside another one.
fn beside_words(alloc: Global, key: &str, other: &str) -> Result<Words, AllocError> {
    Words::of(
        format!(in alloc; "`{key}` and `{other}` exclude each other"),
        format!(in alloc; "take `{key}` or `{other}` away"),
        Ok(String::new(alloc)),
    )
}

/// Rule 9: a key stands without another one.
fn without_words(alloc: Global, key: &str, other: &str) -> Result<Words, AllocError> {
    Words::of(
        format!(in alloc; "`{key}` stands without `{other}`"),
        format!(in alloc; "add `{other}`, or take `{key}` away"),
        Ok(String::new(alloc)),
    )
}

/// Rule 9: a time lasts less at the most than at least.
fn lasts_words(alloc: Global, least: u64, most: u64) -> Result<Words, AllocError> {
    Words::of(
        format!(in alloc; "`lasts_most` {most} is below `lasts` {least}"),
        format!(in alloc; "write {least} or more"),
        Ok(String::new(alloc)),
    )
}

/// Rule 9: a member is named twice.
fn twice_words(context: &Context<'_>, span: Span, other: Span) -> Result<Words, AllocError> {
    let alloc = context.alloc;
    let shown = context.shown_name(span)?;
    let line = context.line(other);
    Words::of(
        format!(in alloc; "`{shown}` stands twice in `members`"),
        format!(in alloc; "the first is on line {line}"),
        Ok(String::new(alloc)),
    )
}

/// Rule 9: more members are to be chosen than there are.
fn count_words(alloc: Global, count: u64, members: u64) -> Result<Words, AllocError> {
    Words::of(
        format!(in alloc; "`count` is {count}, and the group has {members}"),
        format!(in alloc; "write {members} or less"),
        Ok(String::new(alloc)),
    )
}
