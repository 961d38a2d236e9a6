//! Why the key of an item means no item of a document, or more than one.
ghost use Rattle.std.specs.Prelude.{◌≡◌, ◌≤◌, ◌∷◌, ◌++◌, ℕ, List, IfOk, IfSome};
ghost use Rattle.std.specs.Fmt.{decimal};
ghost use Rattle.toml.specs.Data.{Data};
ghost use Rattle.toml.specs.View.{view};
ghost use Rattle.item_reasons.specs.Items.{IsItemReason, Means};

use base::Memory;
use decimals::number;
use reasons::ItemReason;
use std::alloc::Global;
use sweep_plan::{SweptKey, items_meant};
use toml::Value;

/// Why a key, as a word says it, means no one item of a document: several have its name, or so many that its number is past the
/// last; else none has the name.
pub fn item_reason(alloc: Global, word: &str, document: &Value) -> Result<ItemReason, Memory>
    ensures { IfOk result (IsItemReason (view document.now) word.now) }
{
    let Some((name, own)) = parts_of(word) else {
        return absent(alloc, word);
    };
    let count = count_of(alloc, word, document)?;
    if count > 1 {
        return many(alloc, name, own, count);
    }
    match past_last(alloc, name, own, document)? {
        Some(reason) => Ok(reason),
        None => absent(alloc, word),
    }
}

/// No item has the name.
fn absent(alloc: Global, word: &str) -> Result<ItemReason, Memory>
    ensures { IfOk result (λ reason. (tree : Data) → IsItemReason tree word.now reason) }
{
    let key = String::from_str(alloc, word)?;
    Ok(ItemReason::Absent { key })
}

/// How many items the key means that a word says; 0 where it says none.
fn count_of(alloc: Global, word: &str, document: &Value) -> Result<usize, Memory>
    ensures { IfOk result (λ count. 1 ≤ count → Means (view document.now) word.now count) }
{
    match SweptKey::named(word) {
        Some(key) => items_meant(alloc, key, document),
        None => Ok(0),
    }
}

/// So many items have the name.
fn many(alloc: Global, name: &str, own: &str, count: usize) -> Result<ItemReason, Memory>
    requires { 2 ≤ count }
    ensures { IfOk result (λ reason. (tree : Data) (word : List ℕ) → word ≡ name.now ++ 46 ∷ own.now → Means tree word count → IsItemReason tree word reason) }
{
    let first = format!(in alloc; "{name}.1.{own}")?;
    let name = String::from_str(alloc, name)?;
    Ok(ItemReason::Many { name, count, first })
}

/// Items have the name without its number, but none has this number.
fn past_last(
    alloc: Global,
    name: &str,
    own: &str,
    document: &Value,
) -> Result<Option<ItemReason>, Memory>
    ensures { IfOk result (λ found. IfSome found (λ reason. (word : List ℕ) → word ≡ name.now ++ 46 ∷ own.now → IsItemReason (view document.now) word reason)) }
{
    let Some(stem) = stem_of(name) else {
        return Ok(None);
    };
    let key = format!(in alloc; "{stem}.{own}")?;
    let count = count_of(alloc, key.as_str(), document)?;
    if count == 0 {
        return Ok(None);
    }
    Ok(Some(past(alloc, name, stem, own, count)?))
}

/// So many items have the name without its number.
fn past(
    alloc: Global,
    name: &str,
    stem: &str,
    own: &str,
    count: usize,
) -> Result<ItemReason, Memory>
    requires { 1 ≤ count }
    ensures { IfOk result (λ reason. (tree : Data) (word : List ℕ) (number : ℕ) → word ≡ name.now ++ 46 ∷ own.now → name.now ≡ stem.now ++ 46 ∷ decimal number
        → Means tree (stem.now ++ 46 ∷ own.now) count → IsItemReason tree word reason) }
{
    let last = format!(in alloc; "{stem}.{count}.{own}")?;
    let name = String::from_str(alloc, name)?;
    let stem = String::from_str(alloc, stem)?;
    Ok(ItemReason::PastLast {
        name,
        stem,
        count,
        last,
    })
}

/// A name without the number behind its last dot.
fn stem_of<'a>(name: &'a str) -> Option<&'a str>
    ensures { IfSome result (λ stem. (number : ℕ) × (name.entry.now ≡ stem.now ++ 46 ∷ decimal number)) }
{
    let Some((stem, digits)) = parts_of(name) else {
        return None;
    };
    match number(digits) {
        Some(_) => Some(stem),
        None => None,
    }
}

/// What stands before the last dot of a word, and behind it.
fn parts_of<'a>(word: &'a str) -> Option<(&'a str, &'a str)>
    ensures { IfSome result (λ parts. word.entry.now ≡ parts.0.now ++ 46 ∷ parts.1.now) }
{
    word.rsplit_once('.')
}
