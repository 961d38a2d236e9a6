//! What is printed of the settings of a sweep.
ghost use Rattle.std.specs.Prelude.{◌≡◌, All, IfOk, length, string_bytes};
ghost use Rattle.goals.specs.Wants.{HasFewRuns, IsBounded};
ghost use Rattle.sweep_plan.specs.Sweep.{setting_count};
ghost use Rattle.sweep_output.specs.Telling.{TellsSettings};

use crate::objects::setting_objects;
use base::Memory;
use figures::{ColumnSet, SettingSummary};
use goals::{Want, push_answer};
use std::alloc::Global;
use sweep::lines_of_settings;
use sweep_plan::Plan;

/// What is printed of the settings of a sweep: as JSON, an object a line, where `jsonl` asks for that; else in aligned columns,
/// with what they answer to what is wanted. The columns are given. There must be a summary for each setting, in their order.
pub fn settings_printed(
    alloc: Global,
    plan: &Plan,
    wants: &[Want],
    jsonl: bool,
    columns: ColumnSet,
    settings: &[SettingSummary],
) -> Result<String, Memory>
    requires wants { All IsBounded wants.now }
    requires few { All HasFewRuns settings.now }
    requires all { length settings.now ≡ setting_count plan.now.swept_keys }
    ensures { IfOk result (λ text. TellsSettings jsonl columns plan.now wants.now settings.now (string_bytes text)) }
{
    if jsonl {
        return setting_objects(alloc, columns, plan, wants, settings);
    }
    let mut lines = lines_of_settings(alloc, plan, columns, settings)?;
    push_answer(alloc, &mut lines, plan, wants, settings)?;
    Ok(lines)
}
