//! The format's version 2 beside its version 1.

ghost use Rattle.std.specs.Prelude.{◌≡◌, ◌++◌, List, [], codes};
ghost use Rattle.schema.specs.declared.schema.Version.TheVariants.{One};
ghost use Rattle.scenario.specs.Setup.{Setup, IsSound};
ghost use Rattle.trace.specs.Text.{trace_text};
ghost use Rattle.trace.specs.declared.row.Row.{Row};
ghost use Rattle.reports.specs.Text.{report_text};
ghost use Rattle.member_laws.specs.Runs.{IsRunOf, CounterOverflows};
ghost use Rattle.version_laws.specs.Versions.{in_version_2};

/// A scenario of version 1 is one of version 2 too: it is as sound, and has the same run, so the same
/// trace, and in its report the line that no bye was sent more. Its counters overflow where they did.
pub fn version_2_keeps_runs()
    ensures sound { (s : Setup) → IsSound s → s.version ≡ One → IsSound (in_version_2 s) }
    ensures runs { (s : Setup) (rows : List Row) → s.version ≡ One → IsRunOf s rows → IsRunOf (in_version_2 s) rows }
    ensures no_others { (s : Setup) (rows : List Row) → s.version ≡ One → IsRunOf (in_version_2 s) rows → IsRunOf s rows }
    ensures wears { (s : Setup) → s.version ≡ One → CounterOverflows s → CounterOverflows (in_version_2 s) }
    ensures wears_no_sooner { (s : Setup) → s.version ≡ One → CounterOverflows (in_version_2 s) → CounterOverflows s }
    ensures traces { (s : Setup) (rows : List Row) → trace_text (in_version_2 s) rows ≡ trace_text s rows }
    ensures reports { (s : Setup) (rows : List Row) → s.version ≡ One → s.leaves ≡ [] → IsRunOf s rows
        → report_text (in_version_2 s) rows ≡ report_text s rows ++ codes "sent bye 0 lost 0\n" }
{}
