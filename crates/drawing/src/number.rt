//! Numbers as a page shows them.
ghost use Rattle.std.specs.Prelude.{◌≡◌, ◌++◌, ◌<◌, ◌≤◌, ◌^◌, OnOk, codes, decimal};
ghost use Rattle.std.specs.String.{string_bytes};
ghost use Rattle.drawing.specs.Numbers.{digit_group, group_digits, grouped, grouped_within, hundredths, percent, place, three_digits};

use std::alloc::AllocError;

/// What the groups of a number's digits count, from the greatest.
const GROUPS: [u64; 7] = [
    1_000_000_000_000_000_000,
    1_000_000_000_000_000,
    1_000_000_000_000,
    1_000_000_000,
    1_000_000,
    1_000,
    1,
];

/// Appends a number, its digits in groups of three.
#[tactic(auto, unfolding(crate::specs::Numbers::grouped))]
pub fn push_grouped(text: &mut String, number: u64) -> Result<(), AllocError>
    ensures { OnOk result (string_bytes text.new ≡ string_bytes text.old ++ grouped number) }
{
    if number < 1000 {
        push_first(text, number)
    } else {
        push_groups(text, number)
    }
}

/// Appends each group of a number's digits.
fn push_groups(text: &mut String, number: u64) -> Result<(), AllocError>
    requires { 1000 ≤ number }
    ensures { OnOk result (string_bytes text.new ≡ string_bytes text.old ++ grouped_within 6 number) }
{
    for group in GROUPS {
        push_group(text, number, group)?;
    }
    Ok(())
}

/// Appends the group of a number's digits that counts so much, where it reaches so far.
fn push_group(text: &mut String, number: u64, group: u64) -> Result<(), AllocError>
    requires { 0 < group }
    ensures { OnOk result (string_bytes text.new ≡ string_bytes text.old ++ digit_group number group) }
{
    if number < group {
        return Ok(());
    }
    push_digits(text, number / group)
}

/// Appends the last digits of a number, all three of them where others stand before.
fn push_digits(text: &mut String, number: u64) -> Result<(), AllocError>
    ensures { OnOk result (string_bytes text.new ≡ string_bytes text.old ++ group_digits number) }
{
    if number >= 1000 {
        push_three(text, number % 1000)
    } else {
        push_first(text, number % 1000)
    }
}

/// Appends a comma, and a number below a thousand by three digits.
fn push_three(text: &mut String, number: u64) -> Result<(), AllocError>
    ensures { OnOk result (string_bytes text.new ≡ string_bytes text.old ++ (codes "," ++ three_digits number)) }
{
    let hundreds = number / 100;
    let tens = number / 10 % 10;
    let ones = number % 10;
    write!(text, ",{hundreds}{tens}{ones}")
}

/// Appends the first group of a number's digits.
fn push_first(text: &mut String, number: u64) -> Result<(), AllocError>
    ensures { OnOk result (string_bytes text.new ≡ string_bytes text.old ++ decimal number) }
{
    write!(text, "{number}")
}

/// Appends where a value stands on a scale from 0 to `most`, in percent with two digits; what is
/// more stands at its end.
#[tactic(auto, unfolding(crate::specs::Numbers::place))]
pub fn push_place(text: &mut String, value: u64, most: u64) -> Result<(), AllocError>
    ensures { OnOk result (string_bytes text.new ≡ string_bytes text.old ++ place value most) }
{
    let hundredths = hundredths_of(u128::from(value), u128::from(most));
    push_percent(text, hundredths)
}

/// Appends the same of lengths of time.
#[tactic(auto, unfolding(crate::specs::Numbers::place))]
pub(crate) fn push_place_of(text: &mut String, value: u128, most: u128) -> Result<(), AllocError>
    requires { most < 2 ^ 95 }
    ensures { OnOk result (string_bytes text.new ≡ string_bytes text.old ++ place value most) }
{
    let hundredths = hundredths_of(value, most);
    push_percent(text, hundredths)
}

/// Appends a number of hundredths, in percent.
fn push_percent(text: &mut String, hundredths: u64) -> Result<(), AllocError>
    ensures { OnOk result (string_bytes text.new ≡ string_bytes text.old ++ percent hundredths) }
{
    let whole = hundredths / 100;
    let tens = hundredths / 10 % 10;
    let ones = hundredths % 10;
    write!(text, "{whole}.{tens}{ones}%")
}

/// How many of ten thousand parts of `most` a value is, rounded down; at most all of them.
#[tactic(auto, unfolding(crate::specs::Numbers::hundredths))]
fn hundredths_of(value: u128, most: u128) -> u64
    requires { most < 2 ^ 95 }
    ensures few { result ≤ 10000 }
    ensures part { result ≡ hundredths value most }
{
    if value >= most {
        return 10000;
    }
    (value * 10000 / most).min(10000) as u64
}
