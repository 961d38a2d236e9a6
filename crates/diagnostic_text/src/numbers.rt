//! What to write in place of a value that isn't a whole number.
use crate::context::Context;
use crate::decimal::number_of;
use crate::nanoseconds::nanoseconds;
use diagnostics::ValueKind;
use schema::{FormatKey, KeyRule, Kind};
use std::alloc::{AllocError, Global};
use toml_places::Span;

/// What is counted in `loss`.
pub(crate) const LOSS: &str = "`loss` counts lost messages in a million: 5 % is 50000";

/// How many nanoseconds a millisecond has.
const MILLISECOND: u128 = 1_000_000;

/// A number of more digits is none that anybody means.
const MOST_DIGITS: usize = 20;

/// What to write in place of a value that isn't a whole number.
pub(crate) fn whole_label(
    context: &Context<'_>,
    row: KeyRule,
    found: ValueKind,
    span: Span,
) -> Result<String, AllocError> {
    let alloc = context.alloc;
    match found {
        ValueKind::Text => {
            let text = context.name(span)?;
            text_label(alloc, row, text.as_str())
        }
        ValueKind::Float if row.key == FormatKey::Loss => share_label(alloc, context.at(span)),
        _ => kind_label(alloc, row.key),
    }
}

/// What to write in place of a value of another kind.
fn kind_label(alloc: Global, key: FormatKey) -> Result<String, AllocError> {
    if key == FormatKey::Loss {
        String::from_str(alloc, LOSS)
    } else {
        String::from_str(alloc, "write a whole number")
    }
}

/// What to write in place of a string.
fn text_label(alloc: Global, row: KeyRule, text: &str) -> Result<String, AllocError> {
    let text = text.trim();
    if is_whole(text) {
        return format!(in alloc; "write {text}, without quotes");
    }
    if row.key == FormatKey::Loss {
        return share_label(alloc, text);
    }
    if is_time(row.key) {
        return length_label(alloc, row.kind, text);
    }
    String::from_str(alloc, "write a whole number, without quotes")
}

/// Whether a text is a whole number.
fn is_whole(text: &str) -> bool {
    !text.is_empty() && text.len() <= MOST_DIGITS && text.bytes().all(|byte| byte.is_ascii_digit())
}

/// Whether the value of a key is a moment or a length of time.
fn is_time(key: FormatKey) -> bool {
    match key {
        FormatKey::End | FormatKey::Period | FormatKey::Timeout | FormatKey::Spread => true,
        FormatKey::Interval | FormatKey::Dead | FormatKey::Push => true,
        FormatKey::Connect | FormatKey::Again => true,
        FormatKey::Limit | FormatKey::Retry => true,
        FormatKey::Reconnect | FormatKey::Reap | FormatKey::Linger => true,
        FormatKey::Delay | FormatKey::Jitter | FormatKey::Extra => true,
        FormatKey::Start | FormatKey::At | FormatKey::From | FormatKey::Until => true,
        _ => false,
    }
}

/// What to write in place of a share of all messages, as `0.02` or `2%`.
fn share_label(alloc: Global, text: &str) -> Result<String, AllocError> {
    match lost_of_million(text) {
        Some(lost) => format!(in alloc; "write {lost} (lost messages in a million)"),
        None => String::from_str(alloc, LOSS),
    }
}

/// How many of a million messages a share is, where that is a whole number of at most a million.
fn lost_of_million(text: &str) -> Option<u128> {
    let lost = match text.strip_suffix('%') {
        Some(percent) => number_of(percent.trim_end())?.times(10_000)?,
        None => number_of(text)?.times(1_000_000)?,
    };
    if lost <= 1_000_000 { Some(lost) } else { None }
}

/// What to write in place of a length of time with its unit.
fn length_label(alloc: Global, kind: Kind, text: &str) -> Result<String, AllocError> {
    match nanoseconds(text) {
        Some(length) if length % MILLISECOND == 0 => {
            ticks_label(alloc, kind, length / MILLISECOND)
        }
        Some(length) => short_label(alloc, length),
        None => String::from_str(alloc, "write a whole number of ticks, without quotes"),
    }
}

/// What to write in place of so many milliseconds.
fn ticks_label(alloc: Global, kind: Kind, ticks: u128) -> Result<String, AllocError> {
    match kind {
        Kind::Whole { least, most } if ticks < u128::from(least) || u128::from(most) < ticks => {
            format!(in alloc;
                "in ticks of a millisecond that is {ticks}, outside {least} to {most}"
            )
        }
        _ => format!(in alloc; "write {ticks} (if a tick is a millisecond)"),
    }
}

/// What to write in place of so many nanoseconds, which are no whole number of milliseconds.
fn short_label(alloc: Global, length: u128) -> Result<String, AllocError> {
    if length % 1_000 == 0 {
        let ticks = length / 1_000;
        return format!(in alloc;
            "a tick may be shorter: write {ticks} (if a tick is a microsecond)"
        );
    }
    format!(in alloc; "a tick may be shorter: write {length} (if a tick is a nanosecond)")
}
