//! The words of a diagnostic.
use crate::context::Context;
use crate::fourth_words::fourth_words;
use crate::names::{group_name_words, group_words, member_words, repeated_words};
use crate::rows::version_of;
use crate::shape_words::{
    contact_words, document_words, empty_words, item_words, kind_words, later_words, missing_words,
    range_words, unknown_words,
};
use crate::value_words::{
    early_words, end_words, gone_words, late_words, needless_words, overlap_words, size_words,
    timeout_words,
};
use diagnostics::{Cause, Diagnostic};
use schema::Version;
use std::alloc::{AllocError, Global};

/// What is said of a diagnostic.
#[derive(Drop)]
pub(crate) struct Words {
    /// What is wrong.
    pub(crate) message: String,
    /// What to do, beside the place; it may be empty.
    pub(crate) label: String,
    /// What else helps; it may be empty.
    pub(crate) note: String,
}

impl Words {
    /// Words of these texts, if none of them was refused.
    pub(crate) fn of(
        message: Result<String, AllocError>,
        label: Result<String, AllocError>,
        note: Result<String, AllocError>,
    ) -> Result<Words, AllocError> {
        Ok(Words {
            message: message?,
            label: label?,
            note: note?,
        })
    }

    /// Words that need no value.
    pub(crate) fn fixed(
        alloc: Global,
        message: &str,
        label: &str,
        note: &str,
    ) -> Result<Words, AllocError> {
        Words::of(
            String::from_str(alloc, message),
            String::from_str(alloc, label),
            String::from_str(alloc, note),
        )
    }
}

/// The words of a diagnostic.
pub(crate) fn words_of(
    context: &Context<'_>,
    diagnostic: &Diagnostic,
) -> Result<Words, AllocError> {
    let span = diagnostic.span;
    match diagnostic.cause {
        Cause::NoUtf8 | Cause::NoDocument => document_words(context, diagnostic),
        Cause::MissingKey { home, row } => missing_words(context, home, row),
        Cause::EmptyList { row } => empty_words(context, row),
        Cause::MissingContact { start } => contact_words(context, start),
        Cause::UnknownKey { home, found } => unknown_words(context, home, found, span),
        Cause::LaterKey { version } => later_words(context, version, span),
        Cause::WrongKind { row, found } => kind_words(context, row, found, span),
        Cause::WrongItem { row, found } => item_words(context, row, found),
        Cause::OutOfRange { row, number } => range_words(context, row, number),
        Cause::BadName => group_name_words(context, span),
        Cause::RepeatedName { other } => repeated_words(context, span, other),
        Cause::NoGroup => group_words(context, span),
        Cause::NoMember => member_words(context, span),
        _ => later_rule_words(context, diagnostic),
    }
}

/// The words of a diagnostic of rules 8 to 10, of one that only version 4 has, or of one of which the rule alone is known.
fn later_rule_words(context: &Context<'_>, diagnostic: &Diagnostic) -> Result<Words, AllocError> {
    let span = diagnostic.span;
    match diagnostic.cause {
        Cause::GoneTwice { now, before, other } => gone_words(context, span, now, before, other),
        Cause::Overlap { key, other } => overlap_words(context, span, key, other),
        Cause::LongTimeout {
            timeout,
            period,
            other,
        } => timeout_words(context, timeout, period, other),
        Cause::NeedlessContact => needless_words(context),
        Cause::LateContact { start } => late_words(context, span, start),
        Cause::EarlyDeparture {
            departure,
            at,
            start,
        } => early_words(context, departure, at, start),
        Cause::EndsTooSoon { key, begins, until } => end_words(context, key, begins, until),
        Cause::TooManyMembers { members, most } => size_words(context, members, most),
        _ => fourth_words(context, diagnostic),
    }
}

/// The words of rule 8 in a version.
fn stretches_rule(version: Version) -> &'static str {
    match version {
        Version::One | Version::Two => "a member goes twice, or is slow twice at one time",
        Version::Three | Version::Four => {
            "a member goes twice, or is slow or paused twice at one time"
        }
    }
}

/// The words of rule 6 in a version.
fn names_rule(version: Version) -> &'static str {
    match version {
        Version::One | Version::Two | Version::Three => {
            "a group name is of another form or stands twice"
        }
        Version::Four => "a name is of another form or stands twice",
    }
}

/// The words of rule 10 in a version.
fn size_rule(version: Version) -> &'static str {
    match version {
        Version::One | Version::Two | Version::Three => "there are too many members",
        Version::Four => "there are too many members, or times that come again",
    }
}

/// What is wrong where a rule is broken.
fn rule_text(version: Version, rule: u8) -> &'static str {
    match rule {
        1 => "the text is no TOML document",
        2 => "a required table or key is missing",
        3 => "a key is unknown",
        4 => "a value is of another kind",
        5 => "a whole number is outside its range",
        6 => names_rule(version),
        7 => "a name is no member's or no group's",
        8 => stretches_rule(version),
        9 => "a moment or a length of time may not be",
        10 => size_rule(version),
        _ => "the text breaks a rule",
    }
}

/// The words of a rule.
pub(crate) fn general_words(context: &Context<'_>, rule: u8) -> Result<Words, AllocError> {
    let message = rule_text(version_of(context), rule);
    Words::fixed(context.alloc, message, "", "docs/FORMAT.md has the rules")
}
