//! The JSON that a line is.
ghost use Rattle.std.specs.Prelude.{◌≡◌, [], true, None, Some, IsTrue, IfOk, OnOk, IfErr};
ghost use Rattle.std.specs.Option.{is_some};
ghost use Rattle.json.specs.Json.{Json, value};
ghost use Rattle.json.specs.Lex.{tokens};
ghost use Rattle.json.specs.Value.{value_view};
ghost use Rattle.serde_json.specs.Read.{read, max_depth};
ghost use Rattle.drive_answers.specs.Answer.{IsJson, IsNoJson, IsCause};

use crate::error::AnswerError;
use json::{Reader, Scratch, Value};
use serde_json::error::Category;
use std::alloc::Global;

/// How deep lists and objects may stand in one another.
const DEEPEST: usize = 127;

/// The JSON that a line is.
pub(crate) fn parse<'a>(
    alloc: Global,
    line: &'a [u8],
    scratch: &'a mut Scratch,
) -> Result<Value<'a>, AnswerError>
    ensures json { IfOk result (λ v. IsJson line.now (value_view v)) }
    ensures refused { IfErr result (IsCause (IsNoJson line.now) ⊥ ⊥) }
{
    match std::str::from_utf8(line) {
        Ok(text) => parse_text(alloc, text, scratch),
        Err(_) => Err(AnswerError::Json),
    }
}

/// The JSON that a text is.
fn parse_text<'a>(
    alloc: Global,
    text: &'a str,
    scratch: &'a mut Scratch,
) -> Result<Value<'a>, AnswerError>
    ensures json { IfOk result (λ v. IsJson text.now (value_view v)) }
    ensures refused { IfErr result (IsCause (IsNoJson text.now) ⊥ ⊥) }
{
    match judge(alloc, text) {
        Ok(()) => match tree_of(alloc, text, scratch) {
            Ok(value) => Ok(value),
            Err(error) => Err(error),
        },
        Err(error) => Err(error),
    }
}

/// Whether the text is JSON as serde_json's `Value` reads it.
fn judge(alloc: Global, text: &str) -> Result<(), AnswerError>
    ensures ok { OnOk result (is_some (read text.now) ≡ true) }
    ensures refused { IfErr result (IsCause (read text.now ≡ None) ⊥ ⊥) }
{
    match serde_json::Value::from_str(alloc, text) {
        Ok(_) => Ok(()),
        Err(error) => match error.classify() {
            Category::Memory => Err(AnswerError::Memory),
            _ => Err(AnswerError::Json),
        },
    }
}

/// The JSON of a text, with its numbers as they are written.
fn tree_of<'a>(
    alloc: Global,
    text: &'a str,
    scratch: &'a mut Scratch,
) -> Result<Value<'a>, AnswerError>
    ensures json { IfOk result (λ v. value max_depth (tokens text.now) ≡ Some (value_view v, [])) }
    ensures refused { IfErr result (IsCause ((j : Json) → ¬ (value max_depth (tokens text.now) ≡ Some (j, []))) ⊥ ⊥) }
{
    let Ok(mut reader) = Reader::new(text, scratch) else {
        return Err(AnswerError::Memory);
    };
    match Value::read(alloc, &mut reader, DEEPEST) {
        Ok(value) => match reader.next() {
            Some(_) => Err(AnswerError::Json),
            None => Ok(value),
        },
        Err(json::Error::OutOfMemory) => Err(AnswerError::Memory),
        Err(json::Error::Invalid) => Err(AnswerError::Json),
        Err(json::Error::TooLong | json::Error::DuplicateKey) => unreachable!(),
    }
}
