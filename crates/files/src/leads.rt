//! Where names lead among the system's files.

use crate::FileFault;
use crate::identity::Identity;
use crate::reading::fault_of;
use std::fs::{Metadata, OpenOptions};
use std::io::ErrorKind;
use std::path::{Path, PathBuf};
use std::rt::Files;
use std::{fs, io};

/// So many links are followed from a name to its file, as the system does.
const LINKS: u64 = 40;

/// A name's path, past the links at its end, and where it leads.
#[derive(Drop)]
pub(crate) struct Found<F> {
    pub(crate) path: PathBuf,
    pub(crate) lead: Lead<F>,
}

/// Where a name leads.
#[derive(Drop)]
pub(crate) enum Lead<F> {
    /// To a file that is open to be written, and holds what it held.
    Open(F, Option<Identity>),
    /// To what is no plain file, as a pipe: it can take long to open it, so it isn't open yet.
    Closed(Option<Identity>),
    /// To no file. Made, it would have this path, whose folders are no links.
    Missing(PathBuf),
}

impl<F> Lead<F> {
    /// The file that is there, if the system distinguishes it from all others.
    pub(crate) fn identity(&self) -> Option<Identity> {
        match self {
            Lead::Open(_, identity) => *identity,
            Lead::Closed(identity) => *identity,
            Lead::Missing(_) => None,
        }
    }

    /// The path of the file that isn't there.
    fn missing(&self) -> Option<&str> {
        match self {
            Lead::Missing(path) => Some(path.as_str()),
            _ => None,
        }
    }

    /// Whether it leads to a plain file.
    pub(crate) fn is_open(&self) -> bool {
        match self {
            Lead::Open(_, _) => true,
            _ => false,
        }
    }

    /// Whether both lead to one file, or would.
    pub(crate) fn is_one(&self, other: &Lead<F>) -> bool {
        match self.missing() {
            Some(path) => other.missing() == Some(path),
            None => self.identity().is_some() && self.identity() == other.identity(),
        }
    }
}

/// Finds where a name leads. A plain file is opened, and nothing changes.
///
/// Faults: `Refused` where it leads to a folder, or to a file that can't be opened, or where its folder isn't there; `Memory`.
pub(crate) fn find<R: Files + AllocGlobal>(
    runtime: &R,
    name: &str,
) -> Result<Found<R::File>, FileFault> {
    match find_path(runtime, name) {
        Ok(found) => Ok(found),
        Err(error) => Err(fault_of(&error)),
    }
}

/// The same, with the system's errors.
fn find_path<R: Files + AllocGlobal>(runtime: &R, name: &str) -> io::Result<Found<R::File>> {
    let path = past_links(runtime, name)?;
    let lead = match fs::metadata(runtime, name) {
        Ok(metadata) => lead_there(runtime, name, &metadata)?,
        Err(error) if error.kind() == ErrorKind::NotFound => {
            Lead::Missing(real_path(runtime, path.as_path())?)
        }
        Err(error) => return Err(error),
    };
    Ok(Found { path, lead })
}

/// Where a name leads under which something is there.
fn lead_there<R: Files>(runtime: &R, name: &str, metadata: &Metadata) -> io::Result<Lead<R::File>> {
    if metadata.is_dir() {
        return Err(io::Error::from(ErrorKind::IsADirectory));
    }
    if !metadata.is_file() {
        return Ok(Lead::Closed(Identity::of(metadata)));
    }
    let mut options = OpenOptions::new();
    options.write(true);
    let file = options.open(runtime, name)?;
    let identity = Identity::of_file(&file);
    Ok(Lead::Open(file, identity))
}

/// The path to which the links at the end of a path lead.
fn past_links<R: Files + AllocGlobal>(runtime: &R, name: &str) -> io::Result<PathBuf> {
    let mut path = PathBuf::from_str(runtime.alloc(), name)?;
    for _ in 0..LINKS {
        match fs::read_link(runtime, path.as_path()) {
            Ok(target) => {
                let _ = path.pop();
                path.push(target.as_path())?;
            }
            Err(error) if error.kind() == ErrorKind::OutOfMemory => return Err(error),
            Err(_) => return Ok(path),
        }
    }
    Ok(path)
}

/// The path of a file that isn't there, below its real folder.
fn real_path<R: Files + AllocGlobal>(runtime: &R, path: Path<'_>) -> io::Result<PathBuf> {
    match path.file_name() {
        Some(name) if !path.as_str().ends_with("/") => {
            let mut real = real_folder(runtime, path)?;
            real.push(name)?;
            Ok(real)
        }
        _ => Err(io::Error::from(ErrorKind::NotFound)),
    }
}

/// The real folder of a path, or the one that it names, where the real one can't be known.
fn real_folder<R: Files + AllocGlobal>(runtime: &R, path: Path<'_>) -> io::Result<PathBuf> {
    let folder = folder_of(path);
    match fs::canonicalize(runtime, folder) {
        Ok(real) => Ok(real),
        Err(error) => match error.kind() {
            ErrorKind::NotFound | ErrorKind::OutOfMemory => Err(error),
            _ => Ok(PathBuf::from_str(runtime.alloc(), folder)?),
        },
    }
}

/// The folder that a path names.
fn folder_of(path: Path<'_>) -> &str {
    match path.parent() {
        Some(folder) if !folder.as_str().is_empty() => folder.as_str(),
        _ => ".",
    }
}
