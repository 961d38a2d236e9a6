//! The plain entries of a text's six lists.
ghost use Rattle.std.specs.Prelude.{◌≡◌, ◌≢◌, ◌≤◌, Some, None, IfOk, IfErr, OnOk, length, false};
ghost use Rattle.script_draws.specs.Turns.{text_words};
ghost use Rattle.plain_entries.specs.Entries.{start_in};
ghost use Rattle.plain_entries.specs.Script.{lists_of, plain_of, IsScript};
ghost use Rattle.written_entries.specs.Bad.{breaks_entries};
ghost use Rattle.written_entries.specs.Ranges.{AreInRange};
ghost use Rattle.expansion.specs.Turns.{comes_too_often};
ghost use Rattle.expansion.specs.Verdict.{plain_rule, rule_of, script_rule, written_rule};

use crate::late::has_late;
use crate::refusal::ScriptRefusal;
use crate::turns::comes_too_often;
use base::Moment;
use plain_entries::{PlainScript, Script, plain_script};
use script_draws::DrawFault;
use std::alloc::Global;
use written_entries::check_entries;

/// The plain entries for which a text's six lists stand under a seed. `starts` has each member's start, by its number.
///
/// # Errors
///
/// The lowest rule for which the lists are refused: 9 of an entry, 10 where `every` makes too many, 5 where a plain entry is
/// past the last moment; and `Memory`.
pub fn expand_script(
    alloc: Global,
    script: &Script,
    starts: &[Moment],
    seed: u64,
) -> Result<PlainScript, ScriptRefusal>
    requires members { length starts.now ≤ 16384 }
    requires ranges { AreInRange (length starts.now) script.now }
    ensures made { IfOk result (λ made. lists_of made ≡ plain_of (start_in starts.now) script.now (text_words seed)) }
    ensures kept { OnOk result (script_rule (start_in starts.now) (length starts.now) script.now seed ≡ None) }
    ensures refused { IfErr result (λ refusal. rule_of refusal ≢ 11
        → script_rule (start_in starts.now) (length starts.now) script.now seed ≡ Some (rule_of refusal)) }
{
    if let Err(refusal) = check_script(alloc, script, starts) {
        return Err(refusal);
    }
    draw(alloc, script, starts, seed)
}

/// Refuses the lists as they are written: an entry by rule 9, or too many turns by rule 10.
fn check_script(alloc: Global, script: &Script, starts: &[Moment]) -> Result<(), ScriptRefusal>
    requires { AreInRange (length starts.now) script.now }
    ensures kept { OnOk result (written_rule (start_in starts.now) (length starts.now) script.now ≡ None) }
    ensures sound { OnOk result (IsScript (length starts.now) script.now) }
    ensures refused { IfErr result (λ refusal. rule_of refusal ≢ 11
        → written_rule (start_in starts.now) (length starts.now) script.now ≡ Some (rule_of refusal)) }
{
    match check_entries(alloc, starts, script) {
        Ok(None) => {}
        Ok(Some(fault)) => return Err(ScriptRefusal::Entry(fault)),
        Err(_) => return Err(ScriptRefusal::Memory),
    }
    if comes_too_often(starts, script) {
        return Err(ScriptRefusal::TooMany);
    }
    Ok(())
}

/// Makes the plain entries. Refuses too many by rule 10, and moments past the last one by rule 5.
fn draw(
    alloc: Global,
    script: &Script,
    starts: &[Moment],
    seed: u64,
) -> Result<PlainScript, ScriptRefusal>
    requires members { length starts.now ≤ 16384 }
    requires sound { IsScript (length starts.now) script.now }
    ensures made { IfOk result (λ made. lists_of made ≡ plain_of (start_in starts.now) script.now (text_words seed)) }
    ensures kept { OnOk result (plain_rule (plain_of (start_in starts.now) script.now (text_words seed)) ≡ None) }
    ensures refused { IfErr result (λ refusal. rule_of refusal ≢ 11
        → plain_rule (plain_of (start_in starts.now) script.now (text_words seed)) ≡ Some (rule_of refusal)) }
{
    match plain_script(alloc, script, starts, seed) {
        Ok(plain) => {
            if has_late(&plain) {
                Err(ScriptRefusal::Late)
            } else {
                Ok(plain)
            }
        }
        Err(DrawFault::TooMany) => Err(ScriptRefusal::TooMany),
        Err(DrawFault::Memory) => Err(ScriptRefusal::Memory),
    }
}
