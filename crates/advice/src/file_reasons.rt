//! What is wrong with a file.

use crate::names::{is_read, names_of};
use crate::surroundings::Surroundings;
use base::Memory;
use command_line::parse;
use reasons::{FileReason, NamedFile};
use std::alloc::Global;
use std::convert::AsStr;

/// What is wrong with the file of a name that stands in words, which ask for something: that another of its files is the
/// same, or what the system says of it.
pub(crate) fn file_reason<'a, S: AsStr, A: Surroundings>(
    alloc: Global,
    surroundings: &A,
    words: &'a [S],
    name: &'a str,
) -> Result<Option<FileReason<'a>>, Memory> {
    match parse(alloc, words) {
        Ok(asked) => {
            let names = names_of(alloc, &asked)?;
            match named_twice(surroundings, names.as_slice(), name) {
                Some(twice) => Ok(Some(twice)),
                None => Ok(Some(surroundings.file_reason(name, is_read(&asked, name)))),
            }
        }
        Err(_) => Ok(None),
    }
}

/// That another word names the file of a name, where one does.
fn named_twice<'a, A: Surroundings>(
    surroundings: &A,
    names: &[NamedFile<'a>],
    name: &str,
) -> Option<FileReason<'a>> {
    let first = named_so(names, name)?;
    let second = other_name(surroundings, names, name)?;
    Some(FileReason::Twice { first, second })
}

/// The first of the words that is this name.
fn named_so<'a>(names: &[NamedFile<'a>], name: &str) -> Option<NamedFile<'a>> {
    for named in names {
        if named.name == name {
            return Some(*named);
        }
    }
    None
}

/// Another of the words that names the file of a name; it may be the same word, where that stands twice.
fn other_name<'a, A: Surroundings>(
    surroundings: &A,
    names: &[NamedFile<'a>],
    name: &str,
) -> Option<NamedFile<'a>> {
    let mut is_met = false;
    for other in names {
        if other.name == name && !is_met {
            is_met = true;
        } else if other.name == name || surroundings.are_one(name, other.name) {
            return Some(*other);
        }
    }
    None
}
