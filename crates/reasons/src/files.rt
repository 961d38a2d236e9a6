//! What is wrong with a file.
ghost use Rattle.std.specs.Prelude.{◌≡◌, Some};
ghost use Rattle.std.specs.Fmt.{WritesOnOk};
ghost use Rattle.reasons.specs.Files.{file_reason_text, missing_text, named_text, of_file, of_two};

use shown_names::write_name;
use std::fmt;
use std::fmt::{Display, Formatter, Write};

/// The file of a word: behind this option, or where the help has this word.
#[derive(Clone, Copy, Debug, PartialEq, Eq)]
pub struct NamedFile<'a> {
    pub option: &'static str,
    pub name: &'a str,
}

/// What is wrong with the file of a name.
#[derive(Clone, Copy, Debug, PartialEq, Eq)]
pub enum FileReason<'a> {
    /// No file has the name.
    Missing(&'a str),
    /// The folder that it names isn't there.
    NoFolder(&'a str),
    /// It is a folder.
    Folder(&'a str),
    /// The system doesn't let the user read or write it.
    Denied(&'a str),
    /// The file system takes no writes.
    ReadOnly(&'a str),
    /// The disk is full.
    Full(&'a str),
    /// It is the file of another word, too.
    Twice {
        first: NamedFile<'a>,
        second: NamedFile<'a>,
    },
    /// Standard output or standard error goes there.
    Stream(&'a str),
    /// A part of the name is longer than the system takes.
    TooLong(&'a str),
    /// The symbolic links under the name lead back to themselves.
    Circle(&'a str),
    /// Its folder is there, but no file can be made in it.
    Unmade(&'a str),
    /// It is a pipe, a socket or a device, and the system refused it.
    Irregular(&'a str),
    /// The system refused it for another reason.
    Refused(&'a str),
}

impl Display for FileReason<'_> {
    ghost output = { λ reason. Some (file_reason_text reason) };

    fn fmt<W: Write>(&self, f: &mut Formatter<W>) -> fmt::Result {
        match self {
            FileReason::Missing(name) => write_of(f, name, missing_text(name)),
            FileReason::NoFolder(name) => write_of(f, name, ": its directory isn't there"),
            FileReason::Folder(name) => write_of(f, name, " is a directory"),
            FileReason::Denied(name) => write_of(f, name, ": permission denied"),
            FileReason::ReadOnly(name) => write_of(f, name, ": the file system is read-only"),
            FileReason::Full(name) => write_of(f, name, ": the disk is full"),
            FileReason::Twice { first, second } => write_two(f, *first, *second),
            FileReason::Stream(name) => write_of(
                f,
                name,
                ": standard output or standard error goes there",
            ),
            FileReason::TooLong(name) => write_of(f, name, ": the name is too long"),
            FileReason::Circle(name) => write_of(f, name, ": its symbolic links lead in a circle"),
            FileReason::Unmade(name) => write_of(
                f,
                name,
                ": it can't be made there; check the permissions of its directory",
            ),
            FileReason::Irregular(name) => write_of(
                f,
                name,
                ": it isn't a regular file, and can't be used here",
            ),
            FileReason::Refused(name) => write_of(f, name, ": the system refused it"),
        }
    }
}

/// What is said of the name of a file that isn't there; other programs take `-` for standard input.
fn missing_text(name: &str) -> &'static str
    ensures { result.now ≡ missing_text name.now }
{
    if name == "-" {
        ": there is no such file; /dev/stdin is standard input"
    } else {
        ": there is no such file"
    }
}

/// Writes a name and what is said of its file.
fn write_of<W: Write>(f: &mut Formatter<W>, name: &str, what: &str) -> fmt::Result
    ensures { WritesOnOk W.write_str_gives f.old result (of_file name.now what.now) f.new }
{
    write_name(f, name)?;
    f.write_str(what)
}

/// Writes that two names are those of one file.
fn write_two<W: Write>(
    f: &mut Formatter<W>,
    first: NamedFile<'_>,
    second: NamedFile<'_>,
) -> fmt::Result
    ensures { WritesOnOk W.write_str_gives f.old result (of_two first.entry second.entry) f.new }
{
    f.write_str("one file is named twice: ")?;
    write_named(f, first)?;
    f.write_str(" and ")?;
    write_named(f, second)
}

/// Writes the option of a word, and the word.
fn write_named<W: Write>(f: &mut Formatter<W>, named: NamedFile<'_>) -> fmt::Result
    ensures { WritesOnOk W.write_str_gives f.old result (named_text named.entry) f.new }
{
    f.write_str(named.option)?;
    f.write_str(" ")?;
    write_name(f, named.name)
}
