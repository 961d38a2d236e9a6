//! The text of a scenario with the values of a setting.
ghost use Rattle.std.specs.Prelude.{All};
ghost use Rattle.sweep_plan.specs.Asked.{IsSwept};

use base::Memory;
use scenario_reader::document;
use std::alloc::Global;
use sweep_plan::{Plan, PlanFault, with_values};
use toml::{Table, Value};

/// The text of a scenario with these values of a setting, as `KEY=V KEY=V`, its keys in another order; an empty one
/// where the text or the values are none.
pub(crate) fn text_with(alloc: Global, bytes: &[u8], swept_keys: &str) -> Result<String, Memory> {
    match document(alloc, bytes) {
        Ok(document) => document_with(alloc, &document, swept_keys),
        Err(_) => Ok(String::new(alloc)),
    }
}

/// The same of a document.
fn document_with(alloc: Global, document: &Value, swept_keys: &str) -> Result<String, Memory> {
    let words = words_of(alloc, swept_keys)?;
    match Plan::read(alloc, words.as_slice(), None, None) {
        Ok(plan) => planned(alloc, document, &plan),
        Err(PlanFault::Words) => Ok(String::new(alloc)),
        Err(PlanFault::Memory) => Err(Memory),
    }
}

/// The words between spaces.
fn words_of<'a>(alloc: Global, text: &'a str) -> Result<Vec<&'a str>, Memory> {
    let mut words = Vec::new(alloc);
    for word in text.split(' ') {
        words.push(word)?;
    }
    Ok(words)
}

/// The text of a document with the values of the first setting.
fn planned(alloc: Global, document: &Value, plan: &Plan) -> Result<String, Memory>
    requires { All IsSwept plan.now.swept_keys }
{
    if 0 < plan.settings() {
        let setting = plan.setting_at(alloc, 0)?;
        let tree = with_values(alloc, document, setting.as_slice(), None)?;
        return text_of(alloc, &tree);
    }
    Ok(String::new(alloc))
}

/// The text of a document; an empty one where it has none, as of a date that isn't one.
fn text_of(alloc: Global, document: &Value) -> Result<String, Memory> {
    match document {
        Value::Table(table) => table_text(alloc, table),
        _ => Ok(String::new(alloc)),
    }
}

/// The text of a table, or an empty one.
fn table_text(alloc: Global, table: &Table) -> Result<String, Memory> {
    match toml::table_to_string(alloc, table) {
        Ok(text) => Ok(text),
        Err(_) => Ok(String::new(alloc)),
    }
}
