//! What users read below the line of a failure.
ghost use Rattle.std.specs.Prelude.{◌≡◌, false, map};
ghost use Rattle.advice.specs.Told.{tells_always, tells_more};

use crate::lines::lines_below;
use crate::surroundings::Surroundings;
use command_line::Failure;
use files::Files;
use std::alloc::Global;
use std::convert::AsStr;
use std::io::Write;

/// Writes why a command failed, and what to do, to `err`, as far as it takes that: of `check` and `run` only where `err` is a
/// terminal, as of words that begin with no command.
pub fn print_why<'a, S: AsStr, F: Files, E: Write, A: Surroundings>(
    alloc: Global,
    is_terminal: bool,
    surroundings: &A,
    words: &'a [S],
    failure: &Failure<'a>,
    files: &mut F,
    err: &mut E,
)
    ensures alone { tells_more is_terminal (map S.text words.now) ≡ false → err.new ≡ err.old }
    ensures same { F.known files.new ≡ F.known files.old }
    ensures making { F.making files.new ≡ F.making files.old }
    ensures counted { F.refused files.new ≡ F.refused files.old }
{
    if !tells_more(is_terminal, words) {
        return;
    }
    if let Ok(lines) = lines_below(alloc, surroundings, words, failure, files) {
        let _ = write!(err, "{lines}");
    }
}

/// Whether more than one line is printed of words that failed.
fn tells_more<S: AsStr>(is_terminal: bool, words: &[S]) -> bool
    ensures { result ≡ tells_more is_terminal (map S.text words.now) }
{
    if is_terminal {
        return true;
    }
    match words {
        [] => true,
        [first, ..] => tells_always(first.as_str()),
    }
}

/// Whether more than one line is always printed of a command that failed.
fn tells_always(command: &str) -> bool
    ensures { result ≡ tells_always command.now }
{
    command == "init"
        || command == "explain"
        || command == "sweep"
        || command == "join"
        || command == "page"
}
