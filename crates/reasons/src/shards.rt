//! What is wrong with the file of a shard.
ghost use Rattle.std.specs.Prelude.{Some};
ghost use Rattle.std.specs.Fmt.{WritesOnOk};
ghost use Rattle.reasons.specs.Shards.{absent_shard, line_text, missing_shard, of_table, shard_reason_text, torn_text};

use shown_names::write_name;
use std::fmt;
use std::fmt::{Display, Formatter, Write};

/// What is wrong with the file of a shard.
#[derive(Clone, Copy, Debug, PartialEq, Eq)]
pub enum ShardReason<'a> {
    /// It is no table.
    NoTable(&'a str),
    /// It has other runs than the first file.
    Other(&'a str),
    /// Another file has the same runs.
    Twice(&'a str),
    /// It isn't whole.
    Torn(&'a str),
    /// The line of this number isn't what the sweep wrote, or isn't there.
    TornAt { name: &'a str, line: usize },
    /// No file is the shard of this number.
    Missing(u64),
    /// It was to be resumed, and is a table of other runs.
    Resumed(&'a str),
}

impl Display for ShardReason<'_> {
    ghost output = { λ reason. Some (shard_reason_text reason) };

    fn fmt<W: Write>(&self, f: &mut Formatter<W>) -> fmt::Result {
        match self {
            ShardReason::NoTable(name) => write_of(
                f,
                name,
                " isn't a table of a sweep; name files that sweep --table or join --table wrote",
            ),
            ShardReason::Other(name) => write_of(
                f,
                name,
                " doesn't belong to the first table; take tables of one scenario text with the same options",
            ),
            ShardReason::Twice(name) => write_of(
                f,
                name,
                " has the same runs as another file; leave one of them out",
            ),
            ShardReason::Torn(name) => write_of(
                f,
                name,
                " lacks a line, or one has changed; run the same sweep with --shard and --resume, which makes the rest",
            ),
            ShardReason::TornAt { name, line } => {
                write_name(f, name)?;
                write_torn(f, *line)
            }
            ShardReason::Missing(number) => write_missing(f, *number),
            ShardReason::Resumed(name) => write_of(
                f,
                name,
                " begins with other runs; resume with the scenario and the options that it was made with, or name another table",
            ),
        }
    }
}

/// Writes a name and what is said of its file.
fn write_of<W: Write>(f: &mut Formatter<W>, name: &str, what: &str) -> fmt::Result
    ensures { WritesOnOk W.write_str_gives f.old result (of_table name.now what.now) f.new }
{
    write_name(f, name)?;
    f.write_str(what)
}

/// Writes which line of a table isn't what the sweep wrote, and how to make it.
fn write_torn<W: Write>(f: &mut Formatter<W>, line: usize) -> fmt::Result
    ensures { WritesOnOk W.write_str_gives f.old result (torn_text line) f.new }
{
    write_line(f, line)?;
    f.write_str(" is wrong or missing; run that sweep with --shard and --resume")
}

/// Writes which line it is.
fn write_line<W: Write>(f: &mut Formatter<W>, line: usize) -> fmt::Result
    ensures { WritesOnOk W.write_str_gives f.old result (line_text line) f.new }
{
    write!(f, ": line {line}")
}

/// Writes which shard is missing, and how to make it.
fn write_missing<W: Write>(f: &mut Formatter<W>, number: u64) -> fmt::Result
    ensures { WritesOnOk W.write_str_gives f.old result (missing_shard number) f.new }
{
    write_absent(f, number)?;
    f.write_str("; run the same sweep with its --shard, and name that table too")
}

/// Writes which shard is missing.
fn write_absent<W: Write>(f: &mut Formatter<W>, number: u64) -> fmt::Result
    ensures { WritesOnOk W.write_str_gives f.old result (absent_shard number) f.new }
{
    write!(f, "no file is shard {number}")
}
