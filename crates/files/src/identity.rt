//! Which names of the system stand for one file.

use std::fs;
use std::fs::{Metadata, OpenFile};
use std::os::unix::fs::{FileTypeExt, MetadataExt};
use std::rt::Files;

/// What distinguishes a file from all others of the system, whatever names it has.
#[derive(Clone, Copy, Debug, PartialEq, Eq)]
pub(crate) struct Identity {
    device: u64,
    inode: u64,
}

impl Identity {
    /// That of the file of a name, if there is one and the system reports it.
    pub(crate) fn of_name<R: Files>(runtime: &R, name: &str) -> Option<Identity> {
        match fs::metadata(runtime, name) {
            Ok(metadata) => Identity::of(&metadata),
            Err(_) => None,
        }
    }

    /// That of an open file, if the system reports it.
    pub(crate) fn of_file<F: OpenFile>(file: &F) -> Option<Identity> {
        match file.metadata() {
            Ok(metadata) => Identity::of(&metadata),
            Err(_) => None,
        }
    }

    /// That of a file with these metadata. A terminal, `/dev/null` and the like have none: what is written to
    /// them is never written over.
    pub(crate) fn of(metadata: &Metadata) -> Option<Identity> {
        if metadata.file_type().is_char_device() {
            return None;
        }
        Some(Identity {
            device: metadata.dev(),
            inode: metadata.ino(),
        })
    }
}

/// Whether a file is one of these. One that the system doesn't distinguish is none of them.
pub(crate) fn is_among(identity: Option<Identity>, others: &[Option<Identity>]) -> bool {
    identity.is_some() && others.contains(&identity)
}
