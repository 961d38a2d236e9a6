//! What is wrong with a scenario or a run, and what to do.
ghost use Rattle.std.specs.Prelude.{Some};
ghost use Rattle.std.specs.Fmt.{WritesOnOk};
ghost use Rattle.reasons.specs.Runs.{explain_text, full_text, run_reason_text, set_text};

use shown_names::write_name;
use std::fmt;
use std::fmt::{Display, Formatter, Write};

/// What is wrong with a scenario or a run.
#[derive(Clone, Copy, Debug, PartialEq, Eq)]
pub enum RunReason<'a> {
    /// The scenario in the file of this name breaks a rule.
    Rule(&'a str),
    /// It is accepted, but not with the values of a setting.
    Setting(&'a str),
    /// A scenario that can't be read again breaks a rule.
    Unread,
    /// One with the values of a setting.
    Values,
    /// Memory was refused.
    Memory,
    /// A counter is full.
    Counter,
    /// A write was refused: to one of the files of these names, as a line shows them.
    Write(&'a str),
    /// A thread was lost.
    Thread,
}

impl Display for RunReason<'_> {
    ghost output = { λ reason. Some (run_reason_text reason) };

    fn fmt<W: Write>(&self, f: &mut Formatter<W>) -> fmt::Result {
        match self {
            RunReason::Rule(name) => write_explain(f, name),
            RunReason::Setting(name) => write_set(f, name),
            RunReason::Unread => f.write_str(
                "write the scenario to a file, and swimsim explain prints all errors and how to fix them",
            ),
            RunReason::Values => f.write_str(
                "write these values into a copy of the scenario, and swimsim explain prints what is wrong",
            ),
            RunReason::Memory => f.write_str(
                "the system refused memory; give the program more, or take a shorter run, fewer members or fewer workers",
            ),
            RunReason::Counter => f.write_str(
                "a counter would pass 2^63; take a shorter run or smaller numbers",
            ),
            RunReason::Write(names) => write_full(f, names),
            RunReason::Thread => f.write_str("the system gave no thread; take fewer workers"),
        }
    }
}

/// Writes which files were written.
fn write_full<W: Write>(f: &mut Formatter<W>, names: &str) -> fmt::Result
    ensures { WritesOnOk W.write_str_gives f.old result (full_text names.now) f.new }
{
    f.write_str("a file took only a part of its text, as when the disk is full: ")?;
    f.write_str(names)
}

/// Writes what prints all errors.
fn write_explain<W: Write>(f: &mut Formatter<W>, name: &str) -> fmt::Result
    ensures { WritesOnOk W.write_str_gives f.old result (explain_text name.now) f.new }
{
    f.write_str("for all errors and how to fix them: swimsim explain ")?;
    write_name(f, name)
}

/// Writes that the scenario as it stands is accepted.
fn write_set<W: Write>(f: &mut Formatter<W>, name: &str) -> fmt::Result
    ensures { WritesOnOk W.write_str_gives f.old result (set_text name.now) f.new }
{
    f.write_str("without these values the scenario is accepted; write them into a copy of ")?;
    write_name(f, name)?;
    f.write_str(", and swimsim explain prints what is wrong")
}
