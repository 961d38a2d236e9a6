//! From a text to its scenario.
ghost use Rattle.std.specs.Prelude.{◌≡◌, ◌≢◌, ◌≤◌, ◌⊎◌, Ok, Err, IfErr, IfOk};
ghost use Rattle.toml.specs.View.{view};
ghost use Rattle.scenario.specs.Setup.{is_fourth};
ghost use Rattle.scenario_reader.specs.Reading.{version_of};
ghost use Rattle.text_reader.specs.Answers.{rule_of, Answers, AnswersDocument, AnswersFourth};

use expanded_text::{ExpandError, tree_text};
use scenario::{Scenario, Version};
use scenario_reader::{Refusal, document, read, read_document, version_of};
use schema::{FormatKey, Section, number};
use std::alloc::Global;
use toml::Value;

/// The number of the rule that stands for want of memory.
const MEMORY_RULE: u8 = 11;

/// Reads a scenario from the bytes of its text. One of version 4 is read as the plain text for which it stands. A text that breaks
/// a rule is refused by the lowest such rule.
pub fn read_text(alloc: Global, bytes: &[u8]) -> Result<Scenario, Refusal>
    ensures accepted { IfOk result (λ s. Answers bytes.now (Ok s)) }
    ensures refused { IfErr result (λ r. r.rule ≢ 11 → Answers bytes.now (Err r.rule)) }
    ensures numbered { IfErr result (λ r. (1 ≤ r.rule) × (r.rule ≤ 11)) }
{
    match document(alloc, bytes) {
        Ok(tree) => read_tree(alloc, &tree),
        Err(refusal) => Err(refusal),
    }
}

/// The scenario of a document, whatever text it is of. One of version 4 is read as the plain text for which it stands.
pub fn read_tree(alloc: Global, tree: &Value) -> Result<Scenario, Refusal>
    ensures accepted { IfOk result (λ s. AnswersDocument (view tree.now) (Ok s)) }
    ensures refused { IfErr result (λ r. r.rule ≢ 11 → AnswersDocument (view tree.now) (Err r.rule)) }
    ensures numbered { IfErr result (λ r. (1 ≤ r.rule) × (r.rule ≤ 11)) }
{
    if is_fourth(version_of(tree)) {
        return read_fourth(alloc, tree);
    }
    read_document(alloc, tree)
}

/// Whether it is version 4.
fn is_fourth(version: Version) -> bool
    ensures { result ≡ is_fourth version }
{
    match version {
        Version::One | Version::Two | Version::Three => false,
        Version::Four => true,
    }
}

/// The scenario of a document of version 4: that of its plain text.
fn read_fourth(alloc: Global, tree: &Value) -> Result<Scenario, Refusal>
    ensures accepted { IfOk result (λ s. AnswersFourth (view tree.now) (Ok s)) }
    ensures refused { IfErr result (λ r. r.rule ≢ 11 → AnswersFourth (view tree.now) (Err r.rule)) }
    ensures numbered { IfErr result (λ r. (1 ≤ r.rule) × (r.rule ≤ 11)) }
{
    match tree_text(alloc, tree) {
        Ok(text) => {
            let seed = number(Section::Top, FormatKey::Seed, Some(tree));
            with_seed(read(alloc, text.as_bytes()), seed)
        }
        Err(error) => Err(refusal_of(error)),
    }
}

/// What was read of a plain text, which has this seed: another one would be refused.
fn with_seed(answer: Result<Scenario, Refusal>, seed: u64) -> Result<Scenario, Refusal>
    ensures accepted { IfOk result (λ s. (answer ≡ Ok s) × (s.seed ≡ seed)) }
    ensures refused { IfErr result (λ r. r.rule ≢ 11 → answer ≡ Err r) }
    ensures other { IfErr result (λ r. (r.rule ≡ 11) ⊎ (answer ≡ Err r)) }
{
    match answer {
        Ok(scenario) => {
            if scenario.seed() == seed {
                Ok(scenario)
            } else {
                Err(Refusal {
                    rule: MEMORY_RULE,
                    place: 0,
                })
            }
        }
        Err(refusal) => Err(refusal),
    }
}

/// The refusal of a text that isn't expanded.
fn refusal_of(error: ExpandError) -> Refusal
    ensures { result.rule ≡ rule_of error }
{
    match error {
        ExpandError::Rule(rule) => Refusal { rule, place: 0 },
        ExpandError::Memory => Refusal {
            rule: MEMORY_RULE,
            place: 0,
        },
    }
}
