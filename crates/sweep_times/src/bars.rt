//! The bars of a chart: one for each bin in which times are.
ghost use Rattle.std.specs.Prelude.{◌≡◌, ◌++◌, OnOk};
ghost use Rattle.std.specs.String.{string_bytes};
ghost use Rattle.sweep_times.specs.Charts.{filled_bar, bin_bar, bar_at, bars};

use crate::bins::{bin_end, bin_start, count_at};
use drawing::push_bar;
use figures::Histogram;
use std::alloc::AllocError;

/// Appends the bars of these times, in a plot that is so wide and so high.
#[tactic(auto, unfolding(crate::specs::Charts::bars))]
pub(crate) fn push_bars(
    text: &mut String,
    times: &Histogram,
    across: u64,
    up: u64,
) -> Result<(), AllocError>
    ensures { OnOk result (string_bytes text.new ≡ string_bytes text.old ++ bars times.now across up) }
{
    for bin in 0..times.bins.len() {
        push_bar_at(text, times, across, up, bin)?;
    }
    Ok(())
}

/// Appends the bar of the bin at a place.
#[tactic(auto, unfolding(crate::specs::Charts::bar_at))]
fn push_bar_at(
    text: &mut String,
    times: &Histogram,
    across: u64,
    up: u64,
    bin: usize,
) -> Result<(), AllocError>
    ensures { OnOk result (string_bytes text.new ≡ string_bytes text.old ++ bar_at times.now across up bin) }
{
    match count_at(times, bin) {
        Some(count) => push_bin_bar(text, times, across, up, bin, count),
        None => Ok(()),
    }
}

/// Appends the bar of a bin with so many times, if it has any.
#[tactic(auto, unfolding(crate::specs::Charts::bin_bar))]
fn push_bin_bar(
    text: &mut String,
    times: &Histogram,
    across: u64,
    up: u64,
    bin: usize,
    count: u64,
) -> Result<(), AllocError>
    ensures { OnOk result (string_bytes text.new ≡ string_bytes text.old ++ bin_bar times.now across up bin count) }
{
    if count == 0 {
        return Ok(());
    }
    push_filled_bar(text, times, across, up, bin, count)
}

/// Appends the bar of a bin, as wide as the bin.
#[tactic(auto, unfolding(crate::specs::Charts::filled_bar))]
fn push_filled_bar(
    text: &mut String,
    times: &Histogram,
    across: u64,
    up: u64,
    bin: usize,
    count: u64,
) -> Result<(), AllocError>
    ensures { OnOk result (string_bytes text.new ≡ string_bytes text.old ++ filled_bar times.now across up bin count) }
{
    let from = bin_start(times, bin).min(across);
    let to = bin_end(times, bin).min(across);
    push_bar(text, "one", from, to, 0, count.min(up), up)
}
