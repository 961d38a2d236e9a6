//! Files that are written and named `-`.
ghost use Rattle.std.specs.Prelude.{IfSome};
ghost use Rattle.clap.specs.Words.{found_of, rows_of};
ghost use Rattle.word_reasons.specs.Found.{IsReasonOf};

use arguments::value_of;
use clap::ArgMatches;
use reasons::{OutputFile, WordReason, written_name};

/// The files that a command may write.
const FILES: [OutputFile; 5] = [
    OutputFile::Trace,
    OutputFile::Report,
    OutputFile::Table,
    OutputFile::Page,
    OutputFile::Out,
];

/// The first file that a command writes and that is named `-`, where there is one.
pub(crate) fn dash_word<'a>(matches: &ArgMatches<'a>) -> Option<WordReason<'a>>
    ensures { IfSome result (IsReasonOf (rows_of (found_of matches.now))) }
{
    for file in FILES {
        if let Some(reason) = dash_of(matches, file) {
            return Some(reason);
        }
    }
    None
}

/// The same of one of these files.
fn dash_of<'a>(matches: &ArgMatches<'a>, file: OutputFile) -> Option<WordReason<'a>>
    ensures { IfSome result (IsReasonOf (rows_of (found_of matches.now))) }
{
    let word = value_of(matches, written_name(file))?;
    if word == "-" {
        return Some(WordReason::Dash(file));
    }
    None
}
