//! What holds of every run, stated over the definitions alone.

ghost use Rattle.std.specs.Prelude.{◌≡◌, ◌+◌, List, Some, map};
ghost use Rattle.std.specs.FinMap.{remove, get};
ghost use Rattle.base.specs.Order.{IsBefore};
ghost use Rattle.base.specs.World.{World, Run, SequentialRun, events_of, outcome};
ghost use Rattle.base.specs.Rising.{IsRising, IsPlaceBefore, AreNew};
ghost use Rattle.base.specs.declared.key.Key.{Key};
ghost use Rattle.schema.specs.declared.schema.Version.TheVariants.{One};
ghost use Rattle.scenario.specs.Setup.{Setup, IsSound};
ghost use Rattle.trace.specs.declared.row.Row.{Row};
ghost use Rattle.member.specs.declared.event_kind.EventKind.{EventKind};
ghost use Rattle.member.specs.State.{State};
ghost use Rattle.member.specs.Step.{step};
ghost use Rattle.member.specs.Opening.{opening};
ghost use Rattle.member.specs.Places.{place_of};
ghost use Rattle.member_laws.specs.Runs.{IsRunOf, IsPlainRunOf};
ghost use Rattle.reports.specs.Text.{report_text, first_report_text};
ghost use Rattle.windows.specs.Parts.{PartWindow};
ghost use Rattle.windows.specs.Window.{is_own};

/// Every scenario has a run, so a run is finite.
pub fn a_run_exists()
    ensures { (s : Setup) → IsSound s → (rows : List Row) × IsRunOf s rows }
{}

/// No scenario has two.
pub fn the_run_is_one()
    ensures { (s : Setup) (first second : List Row) → IsSound s → IsRunOf s first → IsRunOf s second → first ≡ second }
{}

/// A scenario of the format's first version has the run, and the report on it, that the first version
/// defined.
pub fn the_first_version_is_kept()
    ensures runs { (s : Setup) (rows : List Row) → IsSound s → s.version ≡ One → IsRunOf s rows → IsPlainRunOf s rows }
    ensures report { (s : Setup) (rows : List Row) → IsSound s → s.version ≡ One → IsRunOf s rows
        → report_text s rows ≡ first_report_text s rows }
{}

/// The run is the window, up to the end, of one part that owns every member.
pub fn the_window_of_all_is_the_run()
    ensures { (s : Setup) (keys : List Key) (out : List (Key × EventKind)) (rows : List Row) (after : World State EventKind) → IsSound s
        → PartWindow (step s) (is_own (opening s)) (s.end + 1) (opening s) keys out rows after → SequentialRun (step s) s.end (opening s) keys rows }
{}

/// Events are handled in the order of their keys, which rise strictly.
pub fn keys_rise()
    ensures { (s : Setup) (keys : List Key) (rows : List Row) → IsSound s → SequentialRun (step s) s.end (opening s) keys rows → IsRising IsBefore keys }
{}

/// The trace is in the order of its rows' first five fields, and no two rows agree in them.
pub fn rows_rise()
    ensures { (s : Setup) (rows : List Row) → IsSound s → IsRunOf s rows → IsRising IsPlaceBefore (map place_of rows) }
{}

/// No two pending events share a key: wherever a run has come, the events that a step makes have keys
/// that differ from each other and from those that pend.
pub fn events_are_new()
    ensures { (s : Setup) (keys : List Key) (rows : List Row) (w : World State EventKind) (k : Key) (c : EventKind) → IsSound s
        → Run (step s) s.end (opening s) keys rows w → get w.pending k ≡ Some c
        → AreNew (remove w.pending k) (events_of (outcome (step s) w k c)) }
{}
