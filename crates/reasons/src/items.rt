//! What is wrong with the key of an item of a list.
ghost use Rattle.std.specs.Prelude.{◌≡◌, ◌++◌, Some};
ghost use Rattle.std.specs.Fmt.{WritesOnOk};
ghost use Rattle.reasons.specs.Items.{absent_text, count_text, first_text, item_reason_text, last_text, many_text, number_text, past_text, write_text};

use shown_names::write_name;
use std::fmt;
use std::fmt::{Display, Formatter, Write};

/// What is wrong with a key that is set in an item of a list.
#[derive(Debug, Drop, PartialEq, Eq)]
pub enum ItemReason {
    /// No item has the name in this key.
    Absent {
        key: String,
    },
    /// So many have this name; `first` is the key of the first.
    Many {
        name: String,
        count: usize,
        first: String,
    },
    /// None has this name, which is that of items with a number behind; there are so many, and `last` is the key of the last.
    PastLast {
        name: String,
        stem: String,
        count: usize,
        last: String,
    },
}

impl Display for ItemReason {
    ghost output = { λ reason. Some (item_reason_text reason) };

    fn fmt<W: Write>(&self, f: &mut Formatter<W>) -> fmt::Result {
        match self {
            ItemReason::Absent { key } => write_absent(f, key),
            ItemReason::Many { name, count, first } => {
                write_many(f, name, *count)?;
                write_first(f, first)
            }
            ItemReason::PastLast {
                name,
                stem,
                count,
                last,
            } => {
                write_past(f, name, stem)?;
                write_last(f, *count, last)
            }
        }
    }
}

/// Writes that no item has the name in a key.
fn write_absent<W: Write>(f: &mut Formatter<W>, key: &str) -> fmt::Result
    ensures { WritesOnOk W.write_str_gives f.old result (absent_text key.now) f.new }
{
    f.write_str("no item of the scenario has the name in ")?;
    write_name(f, key)
}

/// Writes how many items have a name.
fn write_many<W: Write>(f: &mut Formatter<W>, name: &str, count: usize) -> fmt::Result
    ensures { WritesOnOk W.write_str_gives f.old result (many_text name.now count) f.new }
{
    write_name(f, name)?;
    write_count(f, count)
}

/// Writes that there are so many.
fn write_count<W: Write>(f: &mut Formatter<W>, count: usize) -> fmt::Result
    ensures { WritesOnOk W.write_str_gives f.old result (count_text count) f.new }
{
    write!(f, " is ambiguous: there are {count}")
}

/// Writes that none has a name with this number behind it.
fn write_past<W: Write>(f: &mut Formatter<W>, name: &str, stem: &str) -> fmt::Result
    ensures { WritesOnOk W.write_str_gives f.old result (past_text name.now stem.now) f.new }
{
    f.write_str("the scenario has no ")?;
    write_name(f, name)?;
    f.write_str(": the last of ")?;
    write_name(f, stem)
}

/// Writes which number the last has, and its key.
fn write_last<W: Write>(f: &mut Formatter<W>, count: usize, key: &str) -> fmt::Result
    ensures { WritesOnOk W.write_str_gives f.old result (last_text count key.now) f.new }
{
    write_number(f, count)?;
    write_advice(f, key)
}

/// Writes which number the last has.
fn write_number<W: Write>(f: &mut Formatter<W>, count: usize) -> fmt::Result
    ensures { WritesOnOk W.write_str_gives f.old result (number_text count) f.new }
{
    write!(f, " has the number {count}")
}

/// Writes the key of the first.
fn write_first<W: Write>(f: &mut Formatter<W>, key: &str) -> fmt::Result
    ensures { WritesOnOk W.write_str_gives f.old result (first_text key.now) f.new }
{
    write_advice(f, key)?;
    f.write_str(" for the first")
}

/// Writes which key to write.
fn write_advice<W: Write>(f: &mut Formatter<W>, key: &str) -> fmt::Result
    ensures { WritesOnOk W.write_str_gives f.old result (write_text key.now) f.new }
{
    f.write_str("; write ")?;
    write_name(f, key)
}
