//! The words of diagnostics of rules 8 to 10.
use crate::context::Context;
use crate::rows::version_of;
use crate::words::Words;
use diagnostics::DepartureKind;
use schema::{FormatKey, Version};
use std::alloc::{AllocError, Global};
use toml_places::Span;

/// What a member does, and what that is called.
fn departure_words(departure: DepartureKind) -> (&'static str, &'static str) {
    match departure {
        DepartureKind::Crash => ("crashes", "crash"),
        DepartureKind::Leave => ("leaves", "leave"),
        DepartureKind::Restart => ("starts again", "restart"),
    }
}

/// Rule 8: a member goes twice.
pub(crate) fn gone_words(
    context: &Context<'_>,
    span: Span,
    now: DepartureKind,
    before: DepartureKind,
    other: Span,
) -> Result<Words, AllocError> {
    let alloc = context.alloc;
    let line = context.line(other);
    let (_, first) = departure_words(before);
    Words::of(
        gone_message(context, span, now, before),
        format!(in alloc; "its {first} is on line {line}"),
        String::from_str(alloc, "a member goes once, for good: take one of them away"),
    )
}

/// How a member goes twice.
fn gone_message(
    context: &Context<'_>,
    span: Span,
    now: DepartureKind,
    before: DepartureKind,
) -> Result<String, AllocError> {
    let alloc = context.alloc;
    let member = context.shown_name(span)?;
    let (goes, _) = departure_words(now);
    let (first_goes, _) = departure_words(before);
    if now == before {
        format!(in alloc; "`{member}` {goes} twice")
    } else {
        format!(in alloc; "`{member}` {first_goes} and {goes}")
    }
}

/// What the times are called of which two overlap.
fn stretch_words(key: FormatKey) -> &'static str {
    if key == FormatKey::Pause {
        "pauses"
    } else {
        "slow times"
    }
}

/// Rule 8: two slow times, or two pauses, of a member overlap.
pub(crate) fn overlap_words(
    context: &Context<'_>,
    span: Span,
    key: FormatKey,
    other: Span,
) -> Result<Words, AllocError> {
    let alloc = context.alloc;
    let member = context.shown_name(span)?;
    let times = stretch_words(key);
    let line = context.line(other);
    Words::of(
        format!(in alloc; "two {times} of `{member}` overlap"),
        format!(in alloc; "the other is on line {line}"),
        String::from_str(
            alloc,
            "let the later `from` be no less than the earlier `until`",
        ),
    )
}

/// Rule 9: the timeout isn't below the period.
pub(crate) fn timeout_words(
    context: &Context<'_>,
    timeout: u64,
    period: u64,
    other: Span,
) -> Result<Words, AllocError> {
    let alloc = context.alloc;
    let line = context.line(other);
    let most = period.saturating_sub(1);
    Words::of(
        format!(in alloc; "`timeout` {timeout} isn't below `period` {period}"),
        format!(in alloc; "write {most} or less"),
        format!(in alloc; "`period` is on line {line}"),
    )
}

/// Rule 9: a group that starts at moment 0 has a contact.
pub(crate) fn needless_words(context: &Context<'_>) -> Result<Words, AllocError> {
    Words::fixed(
        context.alloc,
        "a group that starts at 0 has a `contact`",
        "take it away, or give the group a `start` over 0",
        "members that start at 0 know each other from the start",
    )
}

/// Rule 9: the contact starts later itself.
pub(crate) fn late_words(
    context: &Context<'_>,
    span: Span,
    start: u64,
) -> Result<Words, AllocError> {
    let alloc = context.alloc;
    let member = context.shown_name(span)?;
    Words::of(
        format!(in alloc; "the contact `{member}` starts at {start} itself"),
        String::from_str(alloc, "write a member of a group with start 0"),
        Ok(String::new(alloc)),
    )
}

/// Rule 9: a member goes too early.
pub(crate) fn early_words(
    context: &Context<'_>,
    departure: DepartureKind,
    at: u64,
    start: u64,
) -> Result<Words, AllocError> {
    let alloc = context.alloc;
    let (_, name) = departure_words(departure);
    let least = start.saturating_add(1);
    Words::of(
        format!(in alloc; "a {name} at {at}, where the member starts at {start}"),
        format!(in alloc; "write {least} or more"),
        format!(in alloc; "a {name} comes after its member's start"),
    )
}

/// Rule 9: a time is over when it begins.
pub(crate) fn end_words(
    context: &Context<'_>,
    key: FormatKey,
    begins: u64,
    until: u64,
) -> Result<Words, AllocError> {
    let alloc = context.alloc;
    let key = key.text();
    let least = begins.saturating_add(1);
    Words::of(
        format!(in alloc; "`until` {until} isn't after `{key}` {begins}"),
        format!(in alloc; "write {least} or more"),
        Ok(String::new(alloc)),
    )
}

/// Rule 10: there are too many members.
pub(crate) fn size_words(
    context: &Context<'_>,
    members: u128,
    most: u64,
) -> Result<Words, AllocError> {
    let alloc = context.alloc;
    Words::of(
        format!(in alloc; "there are {members} members, more than {most}"),
        format!(in alloc; "from here on there are more than {most}"),
        size_note(alloc, version_of(context)),
    )
}

/// How many members a later version allows; empty where it allows no more.
fn size_note(alloc: Global, version: Version) -> Result<String, AllocError> {
    match version {
        Version::One => more_note(alloc),
        Version::Two | Version::Three | Version::Four => Ok(String::new(alloc)),
    }
}

/// How many members there may be from version 2 on.
fn more_note(alloc: Global) -> Result<String, AllocError> {
    let more = Version::Two.most_members();
    format!(in alloc; "with `version = 2` there may be {more}")
}
