//! What is wrong with the words of `--set`.
ghost use Rattle.std.specs.Prelude.{◌≡◌, IfOk, IfSome, Contains, map};
ghost use Rattle.clap.specs.Words.{found_of, rows_of};
ghost use Rattle.word_reasons.specs.Found.{IsNoValue, IsReasonOf, IsSweptReason, NamesNoKey, SetsNothing};

use crate::guesses::guess_of;
use crate::shares::parts_of;
use arguments::values_of;
use base::Memory;
use clap::ArgMatches;
use reasons::{WordFault, WordReason};
use std::alloc::Global;
use sweep_plan::{Plan, PlanFault, SweptKey, SweptValue, sets_again};

/// What is wrong with the words of `--set`: the first that sets nothing, else the first whose key an earlier one sets.
pub(crate) fn swept_keys_reason<'a>(
    alloc: Global,
    sweep: &ArgMatches<'a>,
) -> Result<Option<WordReason<'a>>, Memory>
    ensures { IfOk result (λ reason. IfSome reason (IsReasonOf (rows_of (found_of sweep.now)))) }
{
    let words = values_of(alloc, sweep, "set")?;
    if let Some(word) = refused_swept(alloc, &words)? {
        return Ok(Some(swept_reason(alloc, word)?));
    }
    match repeated_swept(alloc, &words)? {
        Some(word) => Ok(Some(WordReason::Word {
            fault: WordFault::KeyTwice,
            word,
        })),
        None => Ok(None),
    }
}

/// The first word that sets nothing, even by itself.
fn refused_swept<'a>(alloc: Global, words: &[&'a str]) -> Result<Option<&'a str>, Memory>
    ensures { IfOk result (λ refused. IfSome refused (λ word. Contains words.now word × SetsNothing word.now)) }
{
    for word in words {
        match Plan::read(alloc, &[*word], None, None) {
            Ok(_) => {}
            Err(PlanFault::Words) => return Ok(Some(*word)),
            Err(PlanFault::Memory) => return Err(Memory),
        }
    }
    Ok(None)
}

/// What is wrong with a word that sets nothing.
fn swept_reason<'a>(alloc: Global, word: &'a str) -> Result<WordReason<'a>, Memory>
    ensures { IfOk result (IsSweptReason word.entry.now) }
{
    let Some((names, list)) = word.split_once('=') else {
        return Ok(form_reason(word));
    };
    if let Some(key) = unknown_key(names) {
        return key_reason(alloc, word, key);
    }
    match refused_value(list) {
        Some(value) => Ok(value_reason(word, names, value)),
        None => Ok(written_reason(word, names)),
    }
}

/// The first of the names of keys that go together that is no key's.
fn unknown_key<'a>(names: &'a str) -> Option<&'a str>
    ensures { IfSome result (λ key. NamesNoKey key.now) }
{
    for name in names.split('+') {
        if SweptKey::named(name).is_none() {
            return Some(name);
        }
    }
    None
}

/// The word is no key with values.
fn form_reason<'a>(word: &'a str) -> WordReason<'a>
    ensures { IsSweptReason word.entry.now result }
{
    WordReason::Word {
        fault: WordFault::Swept,
        word,
    }
}

/// The word is none, though its keys and its values are some: in keys that are joined by `+` it may be that the values aren't.
fn written_reason<'a>(word: &'a str, names: &str) -> WordReason<'a>
    ensures { IsSweptReason word.entry.now result }
{
    if !names.contains('+') {
        return form_reason(word);
    }
    WordReason::Word {
        fault: WordFault::Joined,
        word,
    }
}

/// There is no such key.
fn key_reason<'a>(alloc: Global, word: &'a str, key: &'a str) -> Result<WordReason<'a>, Memory>
    requires { NamesNoKey key.now }
    ensures { IfOk result (IsSweptReason word.entry.now) }
{
    let guess = guess_of(alloc, key)?;
    Ok(WordReason::Key { word, key, guess })
}

/// The first part of an item of a list that is no value.
fn refused_value<'a>(list: &'a str) -> Option<&'a str>
    ensures { IfSome result (λ value. IsNoValue value.now) }
{
    for item in list.split(',') {
        if let Some(part) = refused_part(item) {
            return Some(part);
        }
    }
    None
}

/// The first of the values of keys that go together that is none.
fn refused_part<'a>(item: &'a str) -> Option<&'a str>
    ensures { IfSome result (λ value. IsNoValue value.now) }
{
    for part in item.split('+') {
        if SweptValue::read(part).is_none() {
            return Some(part);
        }
    }
    None
}

/// What is wrong with a value of a key: of a share, perhaps, that it isn't in parts of a million.
fn value_reason<'a>(word: &'a str, key: &str, value: &'a str) -> WordReason<'a>
    requires { IsNoValue value.now }
    ensures { IsSweptReason word.entry.now result }
{
    match parts_of(key, value) {
        Some(parts) => WordReason::Share { word, parts },
        None => WordReason::Value { word, value },
    }
}

/// The first word that sets a key which an earlier one sets, maybe with the number 1 behind its item's name.
fn repeated_swept<'a>(alloc: Global, words: &[&'a str]) -> Result<Option<&'a str>, Memory>
    ensures { IfOk result (λ repeated. IfSome repeated (λ word. Contains words.now word)) }
{
    for (place, word) in words.iter().enumerate() {
        if any_shares(alloc, &words[..place], word)? {
            return Ok(Some(*word));
        }
    }
    Ok(None)
}

/// Whether one of the words sets a key that another word sets.
fn any_shares(alloc: Global, words: &[&str], word: &str) -> Result<bool, Memory> {
    for earlier in words {
        if shares(alloc, key_part(earlier), key_part(word))? {
            return Ok(true);
        }
    }
    Ok(false)
}

/// Whether one of the names of keys that go together is among others.
fn shares(alloc: Global, earlier: &str, names: &str) -> Result<bool, Memory> {
    for name in names.split('+') {
        if is_among(alloc, earlier, name)? {
            return Ok(true);
        }
    }
    Ok(false)
}

/// Whether one of the names sets the key of a name.
fn is_among(alloc: Global, names: &str, name: &str) -> Result<bool, Memory> {
    for earlier in names.split('+') {
        if names_again(alloc, earlier, name)? {
            return Ok(true);
        }
    }
    Ok(false)
}

/// Whether two names are of keys of which a sweep sets only one.
fn names_again(alloc: Global, earlier: &str, name: &str) -> Result<bool, Memory> {
    match SweptKey::named(earlier) {
        Some(before) => match SweptKey::named(name) {
            Some(key) => sets_again(alloc, key, before),
            None => Ok(false),
        },
        None => Ok(false),
    }
}

/// What stands before the equals sign of a swept key.
fn key_part(word: &str) -> &str {
    match word.split_once('=') {
        Some((key, _)) => key,
        None => word,
    }
}
