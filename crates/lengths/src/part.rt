//! The parts of a length: each a number and its unit, from large to small.
ghost use Rattle.std.specs.Prelude.{◌≡◌, ◌≢◌, ℕ, ◌+◌, ◌*◌, ◌^◌, ◌≤◌, true, IfSome, IsNone, List, ◌++◌, ◌∷◌};
ghost use Rattle.lengths.specs.Lengths.{are_smaller, AreParts, IsLength, IsPart, may_end, unit_word};
ghost use Rattle.lengths.specs.declared.unit.Unit.{Unit as AUnit};

use crate::numeral::{is_digit, number_bytes_first, numeral};
use crate::unit::{Unit, unit_length, unit_word};

/// What of a text is read: how long its parts are so far, in millionths of a microsecond, and the rest.
#[derive(Clone, Copy)]
pub(crate) struct Reading<'a> {
    pub total: u128,
    pub rest: &'a [u8],
}

/// How long the time is that a word says, in millionths of a microsecond; none where it is no length.
pub(crate) fn length(word: &[u8]) -> Option<u128>
    ensures some { IfSome result (IsLength word.now) }
    ensures none { IsNone result → (total : ℕ) → ¬ (IsLength word.now total) }
{
    if word.len() == 0 {
        return None;
    }
    let days = after(Unit::Day, 0, word);
    let hours = after(Unit::Hour, days.total, days.rest);
    let minutes = after(Unit::Minute, hours.total, hours.rest);
    let seconds = after(Unit::Second, minutes.total, minutes.rest);
    let milliseconds = after(Unit::Millisecond, seconds.total, seconds.rest);
    let all = after(Unit::Microsecond, milliseconds.total, milliseconds.rest);
    if all.rest.len() == 0 {
        Some(all.total)
    } else {
        None
    }
}

/// What is read behind what came to this length so far, once a part of this unit is read too, where the text
/// begins with one.
fn after(unit: Unit, total: u128, text: &[u8]) -> Reading<'_>
    requires { total ≤ 10 ^ 30 }
    ensures few { result.total ≤ total + 2 * 10 ^ 29 }
    ensures sound { (smaller : List AUnit) (others : ℕ) → AreParts smaller result.rest.now others
        → (all : ℕ) × AreParts (unit ∷ smaller) text.now all × (total + all ≡ result.total + others) }
    ensures whole { (smaller : List AUnit) (all : ℕ) → are_smaller unit smaller ≡ true
        → AreParts (unit ∷ smaller) text.now all
        → (others : ℕ) × AreParts smaller result.rest.now others × (total + all ≡ result.total + others) }
{
    match part(unit, text) {
        Some(read) => Reading {
            total: total + read.total,
            rest: read.rest,
        },
        None => Reading { total, rest: text },
    }
}

/// The first part of a text, where it is of this unit: its length alone, and the rest behind it.
fn part(unit: Unit, text: &[u8]) -> Option<Reading<'_>>
    ensures some { IfSome result (λ read. IsPart unit text.now read.rest.now read.total) }
    ensures ends { IfSome result (λ read. may_end read.rest.now ≡ true) }
    ensures few { IfSome result (λ read. read.total ≤ 2 * 10 ^ 29) }
    ensures none { IsNone result → (rest : List ℕ) (total : ℕ) → may_end rest ≡ true
        → ¬ (IsPart unit text.now rest total) }
{
    let (word, behind) = text.split_at(number_bytes_first(text));
    let Some(number) = numeral(word, 12, 6) else {
        return None;
    };
    let Some(rest) = behind_unit(unit, behind) else {
        return None;
    };
    Some(Reading {
        total: u128::from(number) * u128::from(unit_length(unit)),
        rest,
    })
}

/// What stands behind a unit's name, where the text begins with it and a part may end there.
fn behind_unit(unit: Unit, text: &[u8]) -> Option<&[u8]>
    ensures some { IfSome result (λ rest. text.now ≡ unit_word unit ++ rest.now) }
    ensures ends { IfSome result (λ rest. may_end rest.now ≡ true) }
    ensures none { IsNone result → (rest : List ℕ) → may_end rest ≡ true
        → text.now ≢ unit_word unit ++ rest }
{
    let Some(rest) = text.strip_prefix(unit_word(unit)) else {
        return None;
    };
    if may_end(rest) { Some(rest) } else { None }
}

/// Whether a part may end before this text: nothing follows, or a digit.
fn may_end(rest: &[u8]) -> bool
    ensures { result ≡ may_end rest.now }
{
    match rest {
        [] => true,
        [first, ..] => is_digit(*first),
    }
}
