//! A reason for which tables aren't joined.
ghost use Rattle.std.specs.Prelude.{Some};
ghost use Rattle.std.specs.Fmt.{WritesOnOk};
ghost use Rattle.table_reasons.specs.Words.{missing_text, one_text, range_text, reason_text, seeds_text, shared_text, two_text};

use shown_names::write_name;
use std::fmt;
use std::fmt::{Display, Formatter, Write};

/// Why tables of these names aren't joined.
#[derive(Clone, Copy, Debug, PartialEq, Eq)]
pub enum TableReason<'a> {
    /// It is a shard, while another is a whole table, or has other seeds.
    Shard(&'a str),
    /// They are of two scenario texts.
    Scenarios(&'a str, &'a str),
    /// They have other settings, or another width.
    Settings(&'a str, &'a str),
    /// It was made with a width.
    Width(&'a str),
    /// It was made without seeds.
    NoSeeds(&'a str),
    /// Both have the seeds from one to another.
    Shared(&'a str, &'a str, u64, u64),
    /// No table has the seeds from one to another, which lie between theirs.
    Missing(&'a str, &'a str, u64, u64),
}

impl Display for TableReason<'_> {
    ghost output = { λ reason. Some (reason_text reason) };

    fn fmt<W: Write>(&self, f: &mut Formatter<W>) -> fmt::Result {
        match self {
            TableReason::Shard(name) => write_one(
                f,
                name,
                " is a shard; join the shards of each range of seeds first, and then the tables",
            ),
            TableReason::Scenarios(name, other) => write_two(
                f,
                name,
                other,
                " were made from two scenario texts; make both from one text, byte for byte",
            ),
            TableReason::Settings(name, other) => write_two(
                f,
                name,
                other,
                " were made with different --set or --until; make both with the same",
            ),
            TableReason::Width(name) => write_one(
                f,
                name,
                " was made with --until, so it can't get more seeds; make one table with all seeds",
            ),
            TableReason::NoSeeds(name) => write_one(
                f,
                name,
                " was made without --seeds; make it with a range of seeds",
            ),
            TableReason::Shared(name, other, first, last) => {
                write_shared(f, name, other, *first, *last)
            }
            TableReason::Missing(name, other, first, last) => {
                write_missing(f, name, other, *first, *last)
            }
        }
    }
}

/// Writes which seeds two tables have in common.
fn write_shared<W: Write>(
    f: &mut Formatter<W>,
    name: &str,
    other: &str,
    first: u64,
    last: u64,
) -> fmt::Result
    ensures { WritesOnOk W.write_str_gives f.old result (shared_text name.now other.now first last) f.new }
{
    write_two(f, name, other, " both have the ")?;
    write_range(
        f,
        first,
        last,
        "; leave one table out, or make it with other seeds",
    )
}

/// Writes which seeds lie between those of two tables.
fn write_missing<W: Write>(
    f: &mut Formatter<W>,
    name: &str,
    other: &str,
    first: u64,
    last: u64,
) -> fmt::Result
    ensures { WritesOnOk W.write_str_gives f.old result (missing_text name.now other.now first last) f.new }
{
    write_two(f, name, other, " leave out the ")?;
    write_range(
        f,
        first,
        last,
        "; make a table of what is missing, and join it too",
    )
}

/// Writes what is said of a name.
fn write_one<W: Write>(f: &mut Formatter<W>, name: &str, what: &str) -> fmt::Result
    ensures { WritesOnOk W.write_str_gives f.old result (one_text name.now what.now) f.new }
{
    write_name(f, name)?;
    f.write_str(what)
}

/// Writes what is said of two names.
fn write_two<W: Write>(f: &mut Formatter<W>, name: &str, other: &str, what: &str) -> fmt::Result
    ensures { WritesOnOk W.write_str_gives f.old result (two_text name.now other.now what.now) f.new }
{
    write_name(f, name)?;
    f.write_str(" and ")?;
    write_name(f, other)?;
    f.write_str(what)
}

/// Writes a range of seeds, and what comes behind it.
fn write_range<W: Write>(f: &mut Formatter<W>, first: u64, last: u64, behind: &str) -> fmt::Result
    ensures { WritesOnOk W.write_str_gives f.old result (range_text first last behind.now) f.new }
{
    write_seeds(f, first, last)?;
    f.write_str(behind)
}

/// Writes a range of seeds, or its only seed.
fn write_seeds<W: Write>(f: &mut Formatter<W>, first: u64, last: u64) -> fmt::Result
    ensures { WritesOnOk W.write_str_gives f.old result (seeds_text first last) f.new }
{
    if first == last {
        write!(f, "seed {first}")
    } else {
        write!(f, "seeds {first}..{last}")
    }
}
