//! What stands of the table of a shard of whole settings in a text.
ghost use Rattle.std.specs.Prelude.{◌≡◌, ◌≤◌, ◌<◌, ◌+◌, ◌-◌, List, [], ℕ, Some, IfOk, IfErr, length, take};
ghost use Rattle.std.specs.Str.{IsValidUpTo};
ghost use Rattle.toml.specs.View.{view};
ghost use Rattle.shards.specs.Shards.{IsShard};
ghost use Rattle.sweep.specs.Runs.{IsAskedFor};
ghost use Rattle.sweep_plan.specs.Sweep.{setting_count};
ghost use Rattle.table_rows.specs.Open.{BeginsWithOpen};
ghost use Rattle.table_rows.specs.Settings.{HasSettingOf};
ghost use Rattle.table_rows.specs.Begun.{IsBegunSettings, IsRead, RefusesBegunSettings};

use crate::opened::open_rows;
use crate::settings_of::settings_of_runs;
use base::Memory;
use figures::RunMetadata;
use shards::Shard;
use std::alloc::Global;
use std::str::from_utf8;
use sweep::{Begun, BegunFault, LineKey, key_of_text, lines_behind};
use sweep_plan::Plan;
use toml::Value;

/// What stands of a shard's table in a text, where a setting has as many runs as make its interval so many hundredths wide at
/// most: its first line or a beginning of that, and behind it the lines of its first settings, and of the first runs of the next one.
/// Each line is genuine at its place. From the first line that isn't so on nothing counts.
///
/// Faults: `Other` where the text begins otherwise; `Older` where it goes on with a line without a checksum; `Memory`.
pub fn begun_settings_of(
    alloc: Global,
    plan: &Plan,
    shard: Shard,
    mark: &str,
    width: u64,
    document: &Value,
    text: &[u8],
) -> Result<Begun, BegunFault>
    requires asked { IsAskedFor plan.now }
    requires shard { IsShard shard }
    requires wanted { plan.now.until ≡ Some width }
    ensures begun { IfOk result (λ begun. IsBegunSettings (view document.now) mark.now plan.now width shard text.now begun.kept begun.count begun.started.items) }
    ensures refused { IfErr result (RefusesBegunSettings (view document.now) mark.now plan.now shard text.now) }
{
    let Some(lines) = lines_behind(alloc, plan, shard, mark, document, text)? else {
        return Ok(Begun {
            kept: text.len(),
            count: 0,
            started: Vec::new(alloc),
        });
    };
    let key = key_of_text(alloc, plan, mark, document)?;
    let count = plan.settings();
    let first = shard.first(count);
    let most = shard.past(count) - first;
    let words = read_front(lines);
    let stood = settings_of_runs(alloc, plan, &key, width, first, most, words)?;
    let mut started = Vec::new(alloc);
    let number = first + stood.count;
    let left = behind_open(
        alloc,
        plan,
        &key,
        number,
        first + most,
        stood.left,
        &mut started,
    )?;
    let kept = kept_of(text, lines, words, left);
    Ok(Begun {
        kept,
        count: stood.count,
        started,
    })
}

/// What is left of a text behind the lines of the setting of this number, which needs more runs, where that is one before another;
/// their metadata is put into a list that was empty.
fn behind_open<'a>(
    alloc: Global,
    plan: &Plan,
    key: &LineKey,
    number: usize,
    past: usize,
    text: &'a str,
    started: &mut Vec<RunMetadata>,
) -> Result<&'a str, Memory>
    requires asked { IsAskedFor plan.now }
    requires within { past ≤ setting_count plan.now.swept_keys }
    requires none { started.old.items ≡ [] }
    ensures past { IfOk result (λ left. past ≤ number → (started.new.items ≡ []) × (left.now ≡ text.entry.now)) }
    ensures open_lines { IfOk result (λ left. number < past → (width : ℕ) → ¬ (HasSettingOf key.now plan.now width number text.entry.now)
        → BeginsWithOpen key.now plan.now width number text.entry.now left.now started.new.items) }
{
    if number < past {
        return open_rows(alloc, plan, key, number, text, started);
    }
    Ok(text)
}

/// How many bytes of a text stay: all but those of its lines that weren't read, and those that are left behind what was.
fn kept_of(text: &[u8], lines: &[u8], words: &str, left: &str) -> usize
    requires left { length left.now ≤ length words.now }
    requires words { length words.now ≤ length lines.now }
    requires lines { length lines.now ≤ length text.now }
    ensures { result + (length lines.now - length words.now) + length left.now ≡ length text.now }
{
    text.len() - (lines.len() - words.len()) - left.len()
}

/// The beginning of a text that is UTF-8: all of it, or the longest there is.
fn read_front<'a>(text: &'a [u8]) -> &'a str
    ensures { (unread : List ℕ) × IsRead text.entry.now result.now unread }
{
    match from_utf8(text) {
        Ok(words) => words,
        Err(error) => read_up_to(text, error.valid_up_to()),
    }
}

/// So many of a text's first bytes, which are UTF-8.
fn read_up_to<'a>(text: &'a [u8], count: usize) -> &'a str
    requires { IsValidUpTo text.now count }
    ensures { result.now ≡ take count text.entry.now }
{
    match from_utf8(&text[..count]) {
        Ok(words) => words,
        Err(_) => "",
    }
}
