//! What is wrong with the words of a command line.
ghost use Rattle.std.specs.Prelude.{◌≡◌, ◌++◌, Some};
ghost use Rattle.std.specs.Fmt.{WritesOnOk};
ghost use Rattle.reasons.specs.Words.{advice_of, clash_text, dash_text, guess_text, no_key, no_statistic, no_value, option_of, parts_text, word_reason_text, word_text, written_name};

use shown_names::write_name;
use std::fmt;
use std::fmt::{Display, Formatter, Write};

/// Options that don't go together.
#[derive(Clone, Copy, Debug, PartialEq, Eq)]
pub enum Clash {
    /// `--parts` and `--division`.
    PartsAndDivision,
    /// `--resume` without `--shard`.
    ResumeAlone,
    /// `--page` or `--jsonl` with `--shard`.
    ShardTelling,
    /// `--name` without `--page`.
    NameAlone,
}

/// A file that a command writes, by the option that names it.
#[derive(Clone, Copy, Debug, PartialEq, Eq)]
pub enum OutputFile {
    /// `--trace`.
    Trace,
    /// `--report`.
    Report,
    /// `--table`.
    Table,
    /// `--page`.
    Page,
    /// `--out`.
    Out,
}

/// What is wrong with the word of an option.
#[derive(Clone, Copy, Debug, PartialEq, Eq)]
pub enum WordFault {
    /// The word of `--workers` isn't 1 to 64.
    Workers,
    /// The word of `--parts` isn't 1 to 64.
    Parts,
    /// An item of `--division` isn't 0 to 63.
    PartNumber,
    /// `--division` has another number of items than there are members.
    ListLength,
    /// The word of `--until` isn't 1 to 100.
    Until,
    /// The word of `--shard` is no shard, as 3/8.
    Shard,
    /// The word of `--seeds` is no range, as 1..200.
    Seeds,
    /// The range of `--seeds` ends before it begins.
    SeedsOrder,
    /// The range of `--seeds` has more seeds than a sweep has runs.
    SeedsMany,
    /// A word of `--set` is no key with values, as swim.period=200,300.
    Swept,
    /// A word of `--set` has keys that are joined by `+`, and values that aren't joined so.
    Joined,
    /// A word of `--set` sets a key that an earlier one sets.
    KeyTwice,
    /// A word of `--want` is no statistic with a bound, as out<=0.01.
    Want,
    /// The word of `--tick` is no length from 1us to 1s, as 1ms.
    Tick,
}

/// What is wrong with the words of a command line.
#[derive(Debug, Drop)]
pub enum WordReason<'a> {
    /// Options that don't go together.
    Clash(Clash),
    /// This file is named `-`.
    Dash(OutputFile),
    /// The word of an option.
    Word {
        fault: WordFault,
        word: &'a str,
    },
    /// A word of `--set` has a key that is none, and perhaps this one was meant.
    Key {
        word: &'a str,
        key: &'a str,
        guess: Option<String>,
    },
    /// A word of `--set` has a value that is none.
    Value {
        word: &'a str,
        value: &'a str,
    },
    /// It has a share in percent, which is so many parts in a million.
    Share {
        word: &'a str,
        parts: u64,
    },
    /// A word of `--want` has the name of a statistic that there isn't.
    Statistic {
        word: &'a str,
        name: &'a str,
    },
    /// More runs are asked for than a sweep has.
    Runs,
    /// A word is no text.
    NoText,
}

/// The option that names a file, without its dashes.
pub fn written_name(written: OutputFile) -> &'static str
    ensures { result.now ≡ written_name written }
{
    match written {
        OutputFile::Trace => "trace",
        OutputFile::Report => "report",
        OutputFile::Table => "table",
        OutputFile::Page => "page",
        OutputFile::Out => "out",
    }
}

/// The option that has the word.
fn option_of(fault: WordFault) -> &'static str
    ensures { result.now ≡ option_of fault }
{
    match fault {
        WordFault::Workers => "--workers",
        WordFault::Parts => "--parts",
        WordFault::PartNumber | WordFault::ListLength => "--division",
        WordFault::Until => "--until",
        WordFault::Shard => "--shard",
        WordFault::Seeds | WordFault::SeedsOrder | WordFault::SeedsMany => "--seeds",
        WordFault::Swept | WordFault::Joined | WordFault::KeyTwice => "--set",
        WordFault::Want => "--want",
        WordFault::Tick => "--tick",
    }
}

/// What is wrong with it, and what to write.
fn advice_of(fault: WordFault) -> &'static str
    ensures { result.now ≡ advice_of fault }
{
    match fault {
        WordFault::Workers | WordFault::Parts => "write a whole number from 1 to 64",
        WordFault::PartNumber => "write whole numbers from 0 to 63 with commas between them",
        WordFault::ListLength => "write the number of a part for each member of the scenario",
        WordFault::Until => "write a whole number from 1 to 100",
        WordFault::Shard => "write I/N, where N is at most 10000 and I is from 1 to N",
        WordFault::Seeds => "write A..B, two whole numbers with two dots between them",
        WordFault::SeedsOrder => "the first seed is greater than the last",
        WordFault::SeedsMany => "a sweep has at most 1000000 runs",
        WordFault::Swept => "write KEY=VALUE,VALUE,.., as swim.period=200,300",
        WordFault::Joined =>
            "keys joined by + take values joined by +; write KEY1+KEY2=VALUE1+VALUE2,.., as 3+1,4+2",
        WordFault::KeyTwice => "the key is set twice; write all its values behind one --set",
        WordFault::Want =>
            "write 'STATISTIC<=N', as 'out<=0.01', with at most six digits behind the point",
        WordFault::Tick => "write a whole number and us, ms or s, from 1us to 1s, as 1ms",
    }
}

/// What is wrong with options that don't go together.
fn clash_text(clash: Clash) -> &'static str
    ensures { result.now ≡ clash_text clash }
{
    match clash {
        Clash::PartsAndDivision => "--parts and --division exclude each other",
        Clash::ResumeAlone => "--resume needs --shard I/N; 1/1 is the whole sweep",
        Clash::ShardTelling =>
            "--shard makes one shard, which has no --page and no --jsonl; join makes them of all shards",
        Clash::NameAlone => "--name needs --page P",
    }
}

impl Display for WordReason<'_> {
    ghost output = { λ reason. Some (word_reason_text reason) };

    fn fmt<W: Write>(&self, f: &mut Formatter<W>) -> fmt::Result {
        match self {
            WordReason::Clash(clash) => f.write_str(clash_text(*clash)),
            WordReason::Dash(written) => write_dash(f, *written),
            WordReason::Word { fault, word } => write_word(f, *fault, word),
            WordReason::Key { word, key, guess } => {
                write_option(f, "--set", word)?;
                write_key(f, key, guess)
            }
            WordReason::Value { word, value } => {
                write_option(f, "--set", word)?;
                write_value(f, value)
            }
            WordReason::Share { word, parts } => {
                write_option(f, "--set", word)?;
                write_share(f, *parts)
            }
            WordReason::Statistic { word, name } => {
                write_option(f, "--want", word)?;
                write_statistic(f, name)
            }
            WordReason::Runs => f.write_str(
                "a sweep has at most 1000000 runs; leave out values or seeds",
            ),
            WordReason::NoText => f.write_str("a word isn't text in UTF-8"),
        }
    }
}

/// Writes that a file is named `-`, and what to write.
fn write_dash<W: Write>(f: &mut Formatter<W>, written: OutputFile) -> fmt::Result
    ensures { WritesOnOk W.write_str_gives f.old result (dash_text written) f.new }
{
    f.write_str("--")?;
    f.write_str(written_name(written))?;
    f.write_str(
        " -: - isn't standard output here; write the name of a file, or ./- for one with the name -",
    )
}

/// Writes an option and its word.
#[tactic(auto, unfolding(crate::specs::Words::word_text))]
fn write_option<W: Write>(f: &mut Formatter<W>, option: &str, word: &str) -> fmt::Result
    ensures { WritesOnOk W.write_str_gives f.old result (word_text option.now word.now) f.new }
{
    f.write_str(option)?;
    f.write_str(" ")?;
    write_name(f, word)?;
    f.write_str(": ")
}

/// Writes what is wrong with the word of an option.
fn write_word<W: Write>(f: &mut Formatter<W>, fault: WordFault, word: &str) -> fmt::Result
    ensures { WritesOnOk W.write_str_gives f.old result (word_text (option_of fault) word.now ++ advice_of fault) f.new }
{
    write_option(f, option_of(fault), word)?;
    f.write_str(advice_of(fault))
}

/// Writes which key was perhaps meant.
fn write_guess<W: Write>(f: &mut Formatter<W>, guess: &Option<String>) -> fmt::Result
    ensures { WritesOnOk W.write_str_gives f.old result (guess_text guess.now) f.new }
{
    match guess {
        Some(guess) => {
            f.write_str("; did you mean ")?;
            f.write_str(guess.as_str())?;
            f.write_str("?")
        }
        None => Ok(()),
    }
}

/// Writes that there is no such key.
fn write_no_key<W: Write>(f: &mut Formatter<W>, key: &str) -> fmt::Result
    ensures { WritesOnOk W.write_str_gives f.old result (no_key key.now) f.new }
{
    f.write_str("there is no key ")?;
    write_name(f, key)
}

/// Writes that there is no such key, and which was perhaps meant.
fn write_key<W: Write>(f: &mut Formatter<W>, key: &str, guess: &Option<String>) -> fmt::Result
    ensures { WritesOnOk W.write_str_gives f.old result (no_key key.now ++ guess_text guess.now) f.new }
{
    write_no_key(f, key)?;
    write_guess(f, guess)
}

/// Writes what a value may be.
fn write_value<W: Write>(f: &mut Formatter<W>, value: &str) -> fmt::Result
    ensures { WritesOnOk W.write_str_gives f.old result (no_value value.now) f.new }
{
    f.write_str("write a whole number, true or false in place of '")?;
    write_name(f, value)?;
    f.write_str("'")
}

/// Writes how many parts in a million a share is.
fn write_share<W: Write>(f: &mut Formatter<W>, parts: u64) -> fmt::Result
    ensures { WritesOnOk W.write_str_gives f.old result (parts_text parts) f.new }
{
    write!(f, "write a whole number per million: {parts}")
}

/// Writes which statistics there are.
fn write_statistic<W: Write>(f: &mut Formatter<W>, name: &str) -> fmt::Result
    ensures { WritesOnOk W.write_str_gives f.old result (no_statistic name.now) f.new }
{
    f.write_str("there is no statistic ")?;
    write_name(f, name)?;
    f.write_str(
        "; the statistics are out, suspect_p50, confirm_p50, confirm_p99, confirm_greatest, last_p50, last_greatest, false_suspect, thrown_out and messages, and in version 4 alarms, deaths, deaths_well and deaths_day",
    )
}
