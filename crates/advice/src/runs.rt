//! What is wrong with a run.

use crate::names::written_of;
use base::{Fault, Memory};
use command_line::{Failure, parse};
use reasons::{NamedFile, RunReason};
use shown_names::shown;
use std::alloc::Global;
use std::convert::AsStr;

/// What is printed where a run failed so, or where memory was refused.
pub(crate) fn run_lines<S: AsStr>(
    alloc: Global,
    words: &[S],
    failure: &Failure<'_>,
) -> Result<String, Memory> {
    match failure {
        Failure::Run(Fault::Memory) | Failure::Memory => line_of(alloc, RunReason::Memory),
        Failure::Run(Fault::CounterOverflow) => line_of(alloc, RunReason::Counter),
        Failure::Run(Fault::Write) => write_lines(alloc, words),
        Failure::Run(Fault::ThreadLost) => line_of(alloc, RunReason::Thread),
        _ => Ok(String::new(alloc)),
    }
}

/// What is printed where a write was refused: which files the command writes.
fn write_lines<S: AsStr>(alloc: Global, words: &[S]) -> Result<String, Memory> {
    match parse(alloc, words) {
        Ok(asked) => {
            let names = written_of(alloc, &asked)?;
            let listed = list_of(alloc, names.as_slice())?;
            line_of(alloc, RunReason::Write(listed.as_str()))
        }
        Err(_) => Ok(String::new(alloc)),
    }
}

/// The names of files, as a line shows them, with `or` between one and the next.
fn list_of(alloc: Global, names: &[NamedFile<'_>]) -> Result<String, Memory> {
    let mut list = String::new(alloc);
    for named in names {
        if !list.is_empty() {
            list.push_str(" or ")?;
        }
        list.push_str(shown(alloc, named.name)?.as_str())?;
    }
    Ok(list)
}

/// A reason's line.
fn line_of(alloc: Global, reason: RunReason<'_>) -> Result<String, Memory> {
    Ok(format!(in alloc; "{reason}\n")?)
}
