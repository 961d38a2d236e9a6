//! By what the line of a run is known.
ghost use Rattle.std.specs.Prelude.{◌≡◌, IfOk, string_bytes};
ghost use Rattle.toml.specs.View.{view};
ghost use Rattle.sweep.specs.Sums.{key_of_text, known_seed, line_key, sweep_key, text_seed, value_cells};

use crate::columns::columns_of;
use base::Memory;
use figures::ColumnSet;
use line_sums::key_of;
use schema::{FormatKey, Section, number};
use shards::plan_text;
use std::alloc::Global;
use sweep_plan::{Choice, Plan};
use toml::Value;

/// What the checksums of a sweep's lines have in common: `mark` is that of the scenario's text.
pub fn sweep_key(alloc: Global, plan: &Plan, mark: &str) -> Result<[u8; 32], Memory>
    ensures { IfOk result (λ key. key ≡ sweep_key mark.now plan.now) }
{
    let words = plan_text(alloc, plan)?;
    Ok(key_of(mark, words.as_str()))
}

/// What makes the lines of a table genuine.
#[derive(Clone, Copy)]
pub struct LineKey {
    /// The key of their checksums.
    pub digest: [u8; 32],
    /// The columns of the table.
    pub columns: ColumnSet,
    /// The seed of the scenario's text, where it is known.
    pub own: Option<u64>,
}

/// What makes the lines of a sweep genuine: `mark` is that of the scenario's text, whose seed may be known.
pub fn line_key(
    alloc: Global,
    plan: &Plan,
    mark: &str,
    columns: ColumnSet,
    own: Option<u64>,
) -> Result<LineKey, Memory>
    ensures { IfOk result (λ key. key ≡ line_key columns own mark.now plan.now) }
{
    let digest = sweep_key(alloc, plan, mark)?;
    Ok(LineKey {
        digest,
        columns,
        own,
    })
}

/// The same of a sweep of a document, whose seed is known.
pub fn key_of_text(
    alloc: Global,
    plan: &Plan,
    mark: &str,
    document: &Value,
) -> Result<LineKey, Memory>
    ensures { IfOk result (λ key. key ≡ key_of_text (view document.now) mark.now plan.now) }
{
    let columns = columns_of(document);
    let own = text_seed(document);
    line_key(alloc, plan, mark, columns, Some(own))
}

/// The seed that a text itself gives its runs.
fn text_seed(document: &Value) -> u64
    ensures { result ≡ text_seed (view document.now) }
{
    number(Section::Top, FormatKey::Seed, Some(document))
}

/// The seed of a run, where it is known: the one that is asked for, else the text's.
pub(crate) fn known_seed(asked: Option<u64>, own: Option<u64>) -> Option<u64>
    ensures { result ≡ known_seed asked own }
{
    match asked {
        Some(_seed) => asked,
        None => own,
    }
}

/// The values of a setting, each with a comma behind it.
pub(crate) fn value_cells(alloc: Global, setting: &[Choice]) -> Result<String, Memory>
    ensures { IfOk result (λ cells. string_bytes cells ≡ value_cells setting.now) }
{
    let mut cells = String::new(alloc);
    for choice in setting {
        let word = choice.value.text(alloc)?;
        cells.push_str(word.as_str())?;
        cells.push_str(",")?;
    }
    Ok(cells)
}
