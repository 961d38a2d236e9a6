//! What the versions of the format have in common, where nobody leaves.

ghost use Rattle.std.specs.Prelude.{◌≡◌, ◌++◌, List, codes};
ghost use Rattle.schema.specs.declared.schema.Version.TheVariants.{One, Two};
ghost use Rattle.scenario.specs.Setup.{Setup};
ghost use Rattle.trace.specs.declared.row.What.TheVariants.{Leave, Bye};
ghost use Rattle.trace.specs.declared.row.Row.{Row};
ghost use Rattle.trace_rows.specs.Rows.{count_of};
ghost use Rattle.reports.specs.Text.{report_text, first_report_text, sent_line};

/// Where nobody leaves, a scenario of version 1 has the report that version 1 defined.
pub fn first_reports_stay()
    ensures { (s : Setup) (rows : List Row) → s.version ≡ One → count_of Leave rows ≡ 0
        → report_text s rows ≡ first_report_text s rows }
{}

/// Where nobody leaves, version 2 adds to the report of version 1 the line that no bye was sent.
pub fn second_reports_add_a_line()
    ensures { (s : Setup) (rows : List Row) → count_of Leave rows ≡ 0 → count_of Bye rows ≡ 0
        → report_text (record s { version = Two }) rows
        ≡ report_text (record s { version = One }) rows ++ sent_line (codes "bye") 0 0 }
{}
