//! The text of the settings of a sweep, in aligned columns.
ghost use Rattle.std.specs.Prelude.{◌≡◌, ◌<◌, ◌++◌, length, slice_get, string_bytes, Some, List, IfOk, OnOk};
ghost use Rattle.sweep_plan.specs.Sweep.{setting_count};
ghost use Rattle.sweep_plan.specs.Settings.{settings_of};
ghost use Rattle.sweep_plan.specs.declared.choice.Choice.{Choice as AnyChoice};
ghost use Rattle.sweep.specs.Texts.{column_width, widths_of, settings_text, marked_header, marked_line};

use crate::values::{lent, names, texts};
use base::Memory;
use figures::{ColumnSet, SettingSummary, push_setting_header, push_setting_line};
use goals::{is_on_front, push_header, push_marked};
use std::alloc::Global;
use sweep_plan::{Plan, Swept};

/// The text of the settings of a sweep: a header, and for each setting a line with the values of the keys that are set, its
/// figures and a mark, `*` where no other setting beats it, in aligned columns. There must be a summary for each setting, in
/// their order. The columns are given.
pub fn lines_of_settings(
    alloc: Global,
    plan: &Plan,
    columns: ColumnSet,
    settings: &[SettingSummary],
) -> Result<String, Memory>
    requires { length settings.now ≡ setting_count plan.now.swept_keys }
    ensures { IfOk result (λ text. string_bytes text ≡ settings_text columns plan.now settings.now) }
{
    let widths = widths(alloc, plan.swept_keys())?;
    let mut text = header(alloc, plan.swept_keys(), &widths, columns)?;
    for (number, summary) in settings.iter().enumerate() {
        push_setting(
            alloc, &mut text, plan, &widths, number, summary, settings, columns,
        )?;
    }
    Ok(text)
}

/// The header, with the keys in these widths.
fn header(
    alloc: Global,
    swept_keys: &[Swept],
    widths: &[usize],
    columns: ColumnSet,
) -> Result<String, Memory>
    requires { widths.now ≡ widths_of swept_keys.now }
    ensures { IfOk result (λ text. string_bytes text ≡ marked_header columns swept_keys.now) }
{
    let names = names(alloc, swept_keys)?;
    let keys = lent(alloc, &names)?;
    let mut line = String::new(alloc);
    push_setting_header(alloc, &mut line, widths, &keys, columns)?;
    let mut text = String::new(alloc);
    push_header(&mut text, line.as_str())?;
    Ok(text)
}

/// Adds the line of the setting of this number, with its mark among all.
fn push_setting(
    alloc: Global,
    text: &mut String,
    plan: &Plan,
    widths: &[usize],
    number: usize,
    summary: &SettingSummary,
    all: &[SettingSummary],
    columns: ColumnSet,
) -> Result<(), Memory>
    requires within { number < setting_count plan.now.swept_keys }
    requires wide { widths.now ≡ widths_of plan.now.swept_keys }
    ensures { OnOk result ((chosen : List AnyChoice) → slice_get (settings_of plan.now.swept_keys) number ≡ Some chosen
        → string_bytes text.new ≡ string_bytes text.old ++ marked_line columns widths.now all.now chosen summary.now) }
{
    let setting = plan.setting_at(alloc, number)?;
    let texts = texts(alloc, &setting)?;
    let values = lent(alloc, &texts)?;
    let mut line = String::new(alloc);
    push_setting_line(alloc, &mut line, widths, &values, summary, columns)?;
    push_marked(text, line.as_str(), is_on_front(summary, all))?;
    Ok(())
}

/// The widths of the columns of keys.
fn widths(alloc: Global, swept_keys: &[Swept]) -> Result<Vec<usize>, Memory>
    ensures { IfOk result (λ widths. widths.items ≡ widths_of swept_keys.now) }
{
    let mut widths = Vec::new(alloc);
    for swept in swept_keys {
        widths.push(width(alloc, swept)?)?;
    }
    Ok(widths)
}

/// The width of a key's column, in bytes.
fn width(alloc: Global, swept: &Swept) -> Result<usize, Memory>
    ensures { IfOk result (λ width. width ≡ column_width swept.now) }
{
    let mut width = swept.key().name(alloc)?.len();
    for value in swept.values() {
        width = width.max(value.text(alloc)?.len());
    }
    Ok(width)
}
