//! Files that are written beside another, and put in its place once they are whole.
ghost use Rattle.std.specs.Prelude.{◌≤◌, length, IfOk};

use crate::identity::Identity;
use std::fs::{Metadata, OpenFile, OpenOptions};
use std::io::{ErrorKind, Write};
use std::os::unix::fs::MetadataExt;
use std::path::{Path, PathBuf};
use std::rt::Files;
use std::{fs, io};

/// So many names are tried.
const NAMES: u64 = 100;

/// A file that is written beside another.
#[derive(Drop)]
pub(crate) struct Stage<F> {
    file: F,
    name: PathBuf,
    path: PathBuf,
}

impl<F: OpenFile + Write + Drop> Stage<F> {
    /// Begins to write a file that is to stand in the place of this one, which has this path. None where that would not
    /// be the same file to its owner, or where none can be made beside it.
    pub(crate) fn begin<R: Files<File = F> + AllocGlobal>(
        runtime: &R,
        path: PathBuf,
        old: &F,
    ) -> Option<Stage<F>> {
        let metadata = old.metadata().ok()?;
        if !can_go(runtime, path.as_path(), &metadata) {
            return None;
        }
        let (file, name) = open_beside(runtime, path.as_path()).ok()?;
        if takes_after(&metadata, &file) {
            return Some(Stage { file, name, path });
        }
        remove(runtime, file, name.as_path());
        None
    }

    /// Writes to it.
    pub(crate) fn write(&mut self, bytes: &[u8]) -> io::Result<usize>
        ensures { IfOk result (λ taken. taken ≤ length bytes.now) }
    {
        self.file.write(bytes)
    }

    /// Puts it in the place of the other file. Where that fails it is removed, and the other stays as it is.
    pub(crate) fn publish<R: Files>(mut self, runtime: &R) -> io::Result<F> {
        match self.put_in_place(runtime) {
            Ok(()) => Ok(self.file),
            Err(error) => {
                self.remove(runtime);
                Err(error)
            }
        }
    }

    /// Hands all on to the system, and renames it.
    fn put_in_place<R: Files>(&mut self, runtime: &R) -> io::Result<()> {
        self.file.flush()?;
        fs::rename(runtime, self.name.as_path(), self.path.as_path())
    }

    /// Removes it.
    pub(crate) fn remove<R: Files>(self, runtime: &R) {
        remove(runtime, self.file, self.name.as_path());
    }
}

/// Whether a file can be made beside the path of another. None is left.
pub(crate) fn try_beside<R: Files + AllocGlobal>(runtime: &R, path: Path<'_>) -> io::Result<()> {
    match open_beside(runtime, path) {
        Ok((file, name)) => {
            remove(runtime, file, name.as_path());
            Ok(())
        }
        Err(error) if error.kind() == ErrorKind::AlreadyExists => Ok(()),
        Err(error) => Err(error),
    }
}

/// Closes a file that was made under this name, and then removes it: a network's file system keeps one that is open.
fn remove<R: Files, F: Drop>(runtime: &R, file: F, name: Path<'_>) {
    drop(file);
    let _ = fs::remove_file(runtime, name);
}

/// Makes a file beside the path of another, under a name that none had.
fn open_beside<R: Files + AllocGlobal>(
    runtime: &R,
    path: Path<'_>,
) -> io::Result<(R::File, PathBuf)> {
    let mut options = OpenOptions::new();
    options.write(true).create_new(true);
    for number in 0..NAMES {
        let name = name_beside(runtime, path, number)?;
        match options.open(runtime, name.as_path()) {
            Ok(file) => return Ok((file, name)),
            Err(error) if error.kind() == ErrorKind::AlreadyExists => {}
            Err(error) => return Err(error),
        }
    }
    Err(io::Error::from(ErrorKind::AlreadyExists))
}

/// The name of this number beside a path.
fn name_beside<R: AllocGlobal>(runtime: &R, path: Path<'_>, number: u64) -> io::Result<PathBuf> {
    let name = format!(in runtime.alloc(); ".swimsim-{number}")?;
    Ok(path.with_file_name(runtime.alloc(), name.as_str())?)
}

/// Whether another file can stand in the place of the one of these metadata and this path: it is a plain file, and no link
/// and no other name of it is lost by that.
fn can_go<R: Files>(runtime: &R, path: Path<'_>, metadata: &Metadata) -> bool {
    metadata.is_file() && metadata.nlink() == 1 && is_at(runtime, path, metadata)
}

/// Whether the file of these metadata is at this path itself, and not past a link.
fn is_at<R: Files>(runtime: &R, path: Path<'_>, metadata: &Metadata) -> bool {
    match fs::symlink_metadata(runtime, path) {
        Ok(there) => Identity::of(&there) == Identity::of(metadata),
        Err(_) => false,
    }
}

/// Gives a new file the permissions of an old one, if it has the same owner and is on the same device.
fn takes_after<F: OpenFile>(old: &Metadata, new: &F) -> bool {
    match new.metadata() {
        Ok(made) => {
            made.uid() == old.uid()
                && made.gid() == old.gid()
                && made.dev() == old.dev()
                && new.set_permissions(old.permissions()).is_ok()
        }
        Err(_) => false,
    }
}
