//! The documents of the format's version 2 beside those of its version 1.

ghost use Rattle.std.specs.Prelude.{◌≡◌, ◌++◌, ℕ, List, [], ◌∷◌, Some, None, Ok, codes};
ghost use Rattle.toml.specs.Data.{Data};
ghost use Rattle.schema.specs.declared.schema.Version.TheVariants.{One};
ghost use Rattle.schema.specs.declared.schema.FormatKey.TheVariants as key;
ghost use Rattle.scenario.specs.Setup.{Setup};
ghost use Rattle.trace.specs.Text.{trace_text};
ghost use Rattle.trace.specs.declared.row.Row.{Row};
ghost use Rattle.reports.specs.Text.{report_text};
ghost use Rattle.member_laws.specs.Runs.{IsRunOf};
ghost use Rattle.scenario_reader.specs.Rules.{document_verdict, tree_of, verdict};
ghost use Rattle.sweep_plan.specs.Document.{with_values};
ghost use Rattle.sweep_plan.specs.declared.choice.Choice.{Choice};
ghost use Rattle.sweep_plan.specs.declared.values.SweptValue.TheVariants.{Whole};
ghost use Rattle.sweep_plan.specs.declared.set_keys.SetKey.TheVariants.{Plain};
ghost use Rattle.version_laws.specs.Versions.{in_version_2, given_version_2};

/// A document of version 1 that is accepted is accepted with `version = 2` too, and says the same
/// scenario, by version 2: whether its text says so, or the sweep sets it.
pub fn version_2_keeps_documents()
    ensures documents { (tree : Data) (s : Setup) → s.version ≡ One → document_verdict tree ≡ Ok s
        → document_verdict (given_version_2 tree) ≡ Ok (in_version_2 s) }
    ensures texts { (bytes changed : List ℕ) (tree : Data) (s : Setup) → tree_of bytes ≡ Some tree → tree_of changed ≡ Some (given_version_2 tree)
        → s.version ≡ One → verdict bytes ≡ Ok s → verdict changed ≡ Ok (in_version_2 s) }
    ensures swept_keys { (tree : Data) (c : Choice) → c.key.table ≡ None → c.key.key ≡ Plain key.Version → c.value ≡ Whole 2
        → with_values tree (c ∷ []) None ≡ given_version_2 tree }
{}

/// A text of version 1 that is given `version = 2` has the same trace, and in its report the line that
/// no bye was sent more.
pub fn a_text_in_version_2_has_a_line_more()
    ensures { (bytes changed : List ℕ) (tree : Data) (s : Setup) (rows : List Row) → tree_of bytes ≡ Some tree → tree_of changed ≡ Some (given_version_2 tree)
        → s.version ≡ One → verdict bytes ≡ Ok s → IsRunOf s rows
        → (verdict changed ≡ Ok (in_version_2 s)) × IsRunOf (in_version_2 s) rows × (trace_text (in_version_2 s) rows ≡ trace_text s rows)
        × (report_text (in_version_2 s) rows ≡ report_text s rows ++ codes "sent bye 0 lost 0\n") }
{}
