//! What holds of the six lists by their definitions.
ghost use Rattle.std.specs.Prelude.{◌≡◌, ◌≤◌, ℕ, List};
ghost use Rattle.toml.specs.Data.{Data};
ghost use Rattle.scenario.specs.Setup.{Group};
ghost use Rattle.written_names.specs.declared.roster.WrittenGroup.{WrittenGroup};
ghost use Rattle.script_reader.specs.declared.lists.WrittenScript.{WrittenScript};
ghost use Rattle.script_reader.specs.Lists.{IsWritten};
ghost use Rattle.script_reader.specs.Script.{text_rule};

/// The lowest rule that the six lists of a document break is one.
pub fn a_text_breaks_one_rule()
    ensures { (tick : ℕ) (d : Data) (roster : List Group) (groups : List WrittenGroup) (one other : WrittenScript) → 1 ≤ tick
        → IsWritten tick d one → IsWritten tick d other → text_rule roster groups one ≡ text_rule roster groups other }
{}
