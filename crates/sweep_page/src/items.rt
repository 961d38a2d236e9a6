//! A setting in a list: its number and its values, how fast it is, how safe, and what it costs.
ghost use Rattle.std.specs.Prelude.{◌≡◌, ◌++◌, OnOk};
ghost use Rattle.std.specs.String.{string_bytes};
ghost use Rattle.sweep_page.specs.Items.{caution, caution_at, caution_words, confirm_span, cost_span, deaths_span, item, item_at, item_end, item_opening, safety, share_span, speed_span};

use base::Memory;
use drawing::push_markup;
use figures::SettingSummary;
use std::alloc::{AllocError, Global};
use sweep_cells::{
    push_hundredths, push_hundredths_interval, push_interval, push_lasting_of, push_number,
    push_rate, push_runs_with, push_swept_keys_at, push_time, setting_at, thousandths,
};
use sweep_plan::Plan;
use ticks::Tick;

/// Five percent, in thousandths: what a safe setting's interval doesn't reach beyond.
const SAFE: u64 = 50;

/// Appends the setting at a place; nothing where there is none. `crashed` is whether a run of the sweep
/// has a crash.
#[tactic(auto, unfolding(crate::specs::Items::item_at))]
pub(crate) fn push_item_at(
    alloc: Global,
    text: &mut String,
    time: Option<Tick>,
    plan: &Plan,
    settings: &[SettingSummary],
    crashed: bool,
    place: usize,
) -> Result<(), Memory>
    ensures { OnOk result (string_bytes text.new ≡ string_bytes text.old ++ item_at time crashed plan.now.swept_keys settings.now place) }
{
    match setting_at(settings, place) {
        Some(setting) => push_item(alloc, text, time, plan, crashed, place, &setting),
        None => Ok(()),
    }
}

/// Appends the setting at a place, with its summary.
#[tactic(auto, unfolding(crate::specs::Items::item))]
fn push_item(
    alloc: Global,
    text: &mut String,
    time: Option<Tick>,
    plan: &Plan,
    crashed: bool,
    place: usize,
    setting: &SettingSummary,
) -> Result<(), Memory>
    ensures { OnOk result (string_bytes text.new ≡ string_bytes text.old ++ item time crashed plan.now.swept_keys place setting.now) }
{
    let class = safety(setting);
    push_item_opening(text, class, place)?;
    push_swept_keys_at(alloc, text, plan, place)?;
    push_markup(text, "</code>")?;
    push_speed(text, time, crashed, setting)?;
    push_share(text, setting)?;
    push_cost(text, setting)?;
    push_item_end(text, class)?;
    Ok(())
}

/// Whether a setting is safe, unsafe or neither is known, by the 95 % interval of its share of runs with
/// a false death: all of it is at most 5 %, all is above, or neither.
#[tactic(auto, unfolding(crate::specs::Items::safety))]
fn safety(setting: &SettingSummary) -> &'static str
    ensures { result.now ≡ safety setting.now }
{
    if thousandths(setting.share_high) <= SAFE {
        "safe"
    } else if thousandths(setting.share_low) > SAFE {
        "unsafe"
    } else {
        "unknown"
    }
}

/// Appends what is said of the best setting, which stands at this place, where it isn't safe.
#[tactic(auto, unfolding(crate::specs::Items::caution_at))]
pub(crate) fn push_caution_at(
    text: &mut String,
    settings: &[SettingSummary],
    place: usize,
) -> Result<(), AllocError>
    ensures { OnOk result (string_bytes text.new ≡ string_bytes text.old ++ caution_at settings.now place) }
{
    match setting_at(settings, place) {
        Some(setting) => push_caution(text, &setting),
        None => Ok(()),
    }
}

/// Appends what is said of the best setting, where it isn't safe.
#[tactic(auto, unfolding(crate::specs::Items::caution))]
fn push_caution(text: &mut String, setting: &SettingSummary) -> Result<(), AllocError>
    ensures { OnOk result (string_bytes text.new ≡ string_bytes text.old ++ caution setting.now) }
{
    let words = caution_words(setting);
    push_markup(text, words)
}

/// What is said of the best setting, where it isn't safe.
#[tactic(auto, unfolding(crate::specs::Items::caution_words))]
fn caution_words(setting: &SettingSummary) -> &'static str
    ensures { result.now ≡ caution_words setting.now }
{
    if thousandths(setting.share_high) <= SAFE {
        ""
    } else if thousandths(setting.share_low) > SAFE {
        "<p class=\"lead\">But it is unsafe: the whole 95&nbsp;% interval of its share of runs with a false \
         death is above 5&nbsp;%. The goals allow that.</p>\n"
    } else {
        "<p class=\"lead\">Whether it is safe is unknown: the 95&nbsp;% interval of its share of runs with a \
         false death reaches above 5&nbsp;%. The goals allow that.</p>\n"
    }
}

/// Begins an item.
#[tactic(auto, unfolding(crate::specs::Items::item_opening))]
fn push_item_opening(text: &mut String, class: &str, place: usize) -> Result<(), AllocError>
    ensures { OnOk result (string_bytes text.new ≡ string_bytes text.old ++ item_opening class.now place) }
{
    push_markup(text, "<li class=\"")?;
    push_markup(text, class)?;
    push_markup(text, "\"><span class=\"number\">")?;
    push_number(text, place)?;
    push_markup(text, "</span><code>")
}

/// Appends how fast a setting is, or how many false deaths it has where no run has a crash.
#[tactic(auto, unfolding(crate::specs::Items::speed_span))]
fn push_speed(
    text: &mut String,
    time: Option<Tick>,
    crashed: bool,
    setting: &SettingSummary,
) -> Result<(), AllocError>
    ensures { OnOk result (string_bytes text.new ≡ string_bytes text.old ++ speed_span time crashed setting.now) }
{
    if crashed {
        push_confirm(text, time, setting)
    } else {
        push_false_deaths(text, setting)
    }
}

/// Appends the median time until a crash was confirmed.
#[tactic(auto, unfolding(crate::specs::Items::confirm_span))]
fn push_confirm(
    text: &mut String,
    time: Option<Tick>,
    setting: &SettingSummary,
) -> Result<(), AllocError>
    ensures { OnOk result (string_bytes text.new ≡ string_bytes text.old ++ confirm_span time setting.now) }
{
    push_markup(text, "<span>first confirmed after <b>")?;
    push_time(text, None, setting.confirm_p50)?;
    push_markup(text, "</b> ticks")?;
    push_lasting_of(text, time, setting.confirm_p50)?;
    push_markup(text, ", median</span>")
}

/// Appends how many false deaths there were per run, with their interval.
#[tactic(auto, unfolding(crate::specs::Items::deaths_span))]
fn push_false_deaths(text: &mut String, setting: &SettingSummary) -> Result<(), AllocError>
    ensures { OnOk result (string_bytes text.new ≡ string_bytes text.old ++ deaths_span setting.now) }
{
    push_markup(text, "<span><b>")?;
    push_hundredths(text, setting.deaths)?;
    push_markup(text, "</b> members with a false death per run (")?;
    push_hundredths_interval(text, setting.deaths_low, setting.deaths_high)?;
    push_markup(text, ")</span>")
}

/// Appends how safe a setting is.
#[tactic(auto, unfolding(crate::specs::Items::share_span))]
fn push_share(text: &mut String, setting: &SettingSummary) -> Result<(), AllocError>
    ensures { OnOk result (string_bytes text.new ≡ string_bytes text.old ++ share_span setting.now) }
{
    let low = thousandths(setting.share_low);
    let high = thousandths(setting.share_high);
    push_markup(text, "<span>a false death in <b>")?;
    push_runs_with(text, setting)?;
    push_markup(text, "</b> runs (")?;
    push_interval(text, low, high)?;
    push_markup(text, ")</span>")
}

/// Appends what a setting costs.
#[tactic(auto, unfolding(crate::specs::Items::cost_span))]
fn push_cost(text: &mut String, setting: &SettingSummary) -> Result<(), AllocError>
    ensures { OnOk result (string_bytes text.new ≡ string_bytes text.old ++ cost_span setting.now) }
{
    push_markup(text, "<span><b>")?;
    push_rate(text, setting.messages)?;
    push_markup(text, "</b> messages per member per 1,000 ticks</span>")
}

/// Ends an item.
#[tactic(auto, unfolding(crate::specs::Items::item_end))]
fn push_item_end(text: &mut String, class: &str) -> Result<(), AllocError>
    ensures { OnOk result (string_bytes text.new ≡ string_bytes text.old ++ item_end class.now) }
{
    push_markup(text, "<b class=\"safety\">")?;
    push_markup(text, class)?;
    push_markup(text, "</b></li>")
}
