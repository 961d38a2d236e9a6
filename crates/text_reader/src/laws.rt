//! What holds of a document's answer by its definition.
ghost use Rattle.std.specs.Prelude.{◌≡◌, ℕ, Ok, Result};
ghost use Rattle.toml.specs.Data.{Data};
ghost use Rattle.scenario.specs.Setup.{IsSound, Setup};
ghost use Rattle.expanded_text.specs.Rule.{seed_in};
ghost use Rattle.text_reader.specs.Answers.{AnswersDocument};

/// A document has one answer.
pub fn a_document_has_one_answer()
    ensures { (d : Data) (one other : Result Setup ℕ) → AnswersDocument d one → AnswersDocument d other → one ≡ other }
{}

/// A scenario that a document is answered is sound.
pub fn an_answered_scenario_is_sound()
    ensures { (d : Data) (s : Setup) → AnswersDocument d (Ok s) → IsSound s }
{}

/// A scenario that a document is answered has the document's seed.
pub fn an_answered_scenario_has_its_seed()
    ensures { (d : Data) (s : Setup) → AnswersDocument d (Ok s) → s.seed ≡ seed_in d }
{}
