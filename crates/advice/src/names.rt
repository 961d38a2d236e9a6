//! The names of files that the words of a command have.

use base::Memory;
use command_line::Asked;
use reasons::NamedFile;
use std::alloc::Global;

/// What the help has in the place of a file that is read.
const READ: &str = "FILE";

/// Whether a command reads the file of a name.
pub(crate) fn is_read(asked: &Asked<'_>, name: &str) -> bool {
    match asked {
        Asked::Run(words) => words.file == name,
        Asked::Drive(words) => words.file == name,
        Asked::Check(file) | Asked::Expand(file) => *file == name,
        Asked::Explain(words) => words.file == name,
        Asked::Sweep(words) => words.file == name || words.resume && words.table == name,
        Asked::Join(words) => words.files.contains(&name),
        Asked::Page(words) => words.files.contains(&name),
        Asked::Init(_) | Asked::Help(_) | Asked::Version => false,
    }
}

/// The files of a command, in the order in which it takes them.
pub(crate) fn names_of<'a>(alloc: Global, asked: &Asked<'a>) -> Result<Vec<NamedFile<'a>>, Memory> {
    let mut names = Vec::new(alloc);
    push_read(&mut names, asked)?;
    push_written(&mut names, asked)?;
    Ok(names)
}

/// The files that a command writes.
pub(crate) fn written_of<'a>(
    alloc: Global,
    asked: &Asked<'a>,
) -> Result<Vec<NamedFile<'a>>, Memory> {
    let mut names = Vec::new(alloc);
    push_written(&mut names, asked)?;
    Ok(names)
}

/// Appends the files that are read.
fn push_read<'a>(names: &mut Vec<NamedFile<'a>>, asked: &Asked<'a>) -> Result<(), Memory> {
    match asked {
        Asked::Run(words) => push(names, READ, words.file),
        Asked::Drive(words) => push(names, READ, words.file),
        Asked::Sweep(words) => push(names, READ, words.file),
        Asked::Join(words) => push_all(names, words.files.as_slice()),
        Asked::Page(words) => push_all(names, words.files.as_slice()),
        _ => Ok(()),
    }
}

/// Appends the files that are written.
fn push_written<'a>(names: &mut Vec<NamedFile<'a>>, asked: &Asked<'a>) -> Result<(), Memory> {
    match asked {
        Asked::Run(words) => push_outputs(names, words.trace, words.report, words.page),
        Asked::Drive(words) => push_outputs(names, words.trace, words.report, words.page),
        Asked::Sweep(words) => push_tables(names, words.table, words.page),
        Asked::Join(words) => push_tables(names, words.table, words.page),
        Asked::Page(words) => push(names, "--out", words.page),
        _ => Ok(()),
    }
}

/// Appends the files that a run writes.
fn push_outputs<'a>(
    names: &mut Vec<NamedFile<'a>>,
    trace: &'a str,
    report: Option<&'a str>,
    page: Option<&'a str>,
) -> Result<(), Memory> {
    push(names, "--trace", trace)?;
    push_given(names, "--report", report)?;
    push_given(names, "--page", page)
}

/// Appends the files that a sweep or a joining writes.
fn push_tables<'a>(
    names: &mut Vec<NamedFile<'a>>,
    table: &'a str,
    page: Option<&'a str>,
) -> Result<(), Memory> {
    push(names, "--table", table)?;
    push_given(names, "--page", page)
}

/// Appends a file.
fn push<'a>(
    names: &mut Vec<NamedFile<'a>>,
    option: &'static str,
    name: &'a str,
) -> Result<(), Memory> {
    names.push(NamedFile { option, name })?;
    Ok(())
}

/// Appends a file, where its option is given.
fn push_given<'a>(
    names: &mut Vec<NamedFile<'a>>,
    option: &'static str,
    name: Option<&'a str>,
) -> Result<(), Memory> {
    match name {
        Some(name) => push(names, option, name),
        None => Ok(()),
    }
}

/// Appends all files that are read.
fn push_all<'a>(names: &mut Vec<NamedFile<'a>>, files: &[&'a str]) -> Result<(), Memory> {
    for file in files {
        push(names, READ, *file)?;
    }
    Ok(())
}
