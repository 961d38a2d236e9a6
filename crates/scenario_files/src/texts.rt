//! What the text of a scenario says, and how a fault of what is read by it is reported.
ghost use Rattle.std.specs.Prelude.{◌≡◌, Ok, IfOk, IfErr};
ghost use Rattle.text_reader.specs.Answers.{Answers};
ghost use Rattle.scenario_files.specs.Told.{run_result, text_failure, RefusesText};

use base::Fault;
use command_line::Failure;
use scenario::Scenario;
use std::alloc::Global;
use text_reader::read_text;

/// The number of the rule that stands for want of memory.
const MEMORY_RULE: u8 = 11;

/// The scenario of a text.
///
/// Failures: `Rule`, the lowest rule that the text breaks; `Memory`.
pub fn check(alloc: Global, bytes: &[u8]) -> Result<Scenario, Failure<'static>>
    ensures accepted { IfOk result (λ scenario. Answers bytes.now (Ok scenario)) }
    ensures refused { IfErr result (RefusesText bytes.now) }
{
    match read_text(alloc, bytes) {
        Ok(scenario) => Ok(scenario),
        Err(refusal) => Err(text_failure(refusal.rule)),
    }
}

/// The failure that reports a text which is refused by this rule.
pub(crate) fn text_failure(rule: u8) -> Failure<'static>
    ensures { result ≡ text_failure rule }
{
    if rule == MEMORY_RULE {
        return Failure::Memory;
    }
    Failure::Rule(rule)
}

/// What came of runs, their fault as a failure.
pub fn run_result<T>(outcome: Result<T, Fault>) -> Result<T, Failure<'static>>
    ensures { result ≡ run_result outcome }
{
    match outcome {
        Ok(told) => Ok(told),
        Err(cause) => Err(Failure::Run(cause)),
    }
}
