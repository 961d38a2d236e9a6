//! The texts of figures.
ghost use Rattle.std.specs.Prelude.{◌≡◌, ◌++◌, ◌∷◌, [], OnOk, codes, decimal, map};
ghost use Rattle.std.specs.String.{string_bytes};
ghost use Rattle.std.specs.Option.{option_map_or};
ghost use Rattle.reports.specs.Text.{figure};
ghost use Rattle.figures.specs.SettingLines.{tenths, hundredths};

use std::alloc::{AllocError, Global};

/// Adds a text.
pub(crate) fn push_text(
    alloc: Global,
    texts: &mut Vec<String>,
    text: &str,
) -> Result<(), AllocError>
    ensures { OnOk result (map string_bytes texts.new.items ≡ map string_bytes texts.old.items ++ text.now ∷ []) }
{
    let text = String::from_str(alloc, text)?;
    texts.push(text)?;
    Ok(())
}

/// Adds the text of a number.
pub(crate) fn push_number(
    alloc: Global,
    texts: &mut Vec<String>,
    number: u128,
) -> Result<(), AllocError>
    ensures { OnOk result (map string_bytes texts.new.items ≡ map string_bytes texts.old.items ++ decimal number ∷ []) }
{
    let text = format!(in alloc; "{number}")?;
    texts.push(text)?;
    Ok(())
}

/// Adds the text of a time, or a dash where there is none.
pub(crate) fn push_time(
    alloc: Global,
    texts: &mut Vec<String>,
    time: Option<u64>,
) -> Result<(), AllocError>
    ensures { OnOk result (map string_bytes texts.new.items ≡ map string_bytes texts.old.items ++ figure time ∷ []) }
{
    match time {
        Some(ticks) => push_number(alloc, texts, u128::from(ticks)),
        None => push_text(alloc, texts, "-"),
    }
}

/// Adds the text of a number of tenths.
pub(crate) fn push_tenths(
    alloc: Global,
    texts: &mut Vec<String>,
    number: u128,
) -> Result<(), AllocError>
    ensures { OnOk result (map string_bytes texts.new.items ≡ map string_bytes texts.old.items ++ tenths number ∷ []) }
{
    let whole = number / 10;
    let rest = number % 10;
    let text = format!(in alloc; "{whole}.{rest}")?;
    texts.push(text)?;
    Ok(())
}

/// Adds the text of a number of hundredths.
pub(crate) fn push_hundredths(
    alloc: Global,
    texts: &mut Vec<String>,
    number: u128,
) -> Result<(), AllocError>
    ensures { OnOk result (map string_bytes texts.new.items ≡ map string_bytes texts.old.items ++ hundredths number ∷ []) }
{
    let whole = number / 100;
    let tenth = number / 10 % 10;
    let rest = number % 10;
    let text = format!(in alloc; "{whole}.{tenth}{rest}")?;
    texts.push(text)?;
    Ok(())
}

/// Adds the text of a number of hundredths, or a dash where there is none.
pub(crate) fn push_rate(
    alloc: Global,
    texts: &mut Vec<String>,
    rate: Option<u128>,
) -> Result<(), AllocError>
    ensures { OnOk result (map string_bytes texts.new.items ≡ map string_bytes texts.old.items ++ option_map_or hundredths rate (codes "-") ∷ []) }
{
    match rate {
        Some(number) => push_hundredths(alloc, texts, number),
        None => push_text(alloc, texts, "-"),
    }
}
