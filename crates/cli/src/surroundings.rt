//! What the system says of files, and whether standard error is a terminal.

use advice::Surroundings;
use reasons::FileReason;
use std::fs::{Metadata, OpenOptions};
use std::io::ErrorKind;
use std::os::unix::fs::{FileTypeExt, MetadataExt};
use std::rt::Files;
use std::{fs, io};

/// The names of standard output and standard error among the system's files.
const STREAMS: [&str; 2] = ["/dev/stdout", "/dev/stderr"];

/// What the system of a runtime says of files.
#[derive(Drop)]
pub(crate) struct SystemSurroundings<'r, R> {
    pub(crate) runtime: &'r R,
}

impl<R: Files + AllocGlobal> Surroundings for SystemSurroundings<'_, R> {
    fn file_reason<'a>(&self, name: &'a str, is_read: bool) -> FileReason<'a> {
        match fs::metadata(self.runtime, name) {
            Ok(metadata) => self.there(name, &metadata, is_read),
            Err(error) => missing(name, &error, is_read, self.has_folder(name)),
        }
    }

    fn are_one(&self, name: &str, other: &str) -> bool {
        match fs::metadata(self.runtime, name) {
            Ok(metadata) => self.is_named(&metadata, other),
            Err(_) => own_part(name) == own_part(other) && self.are_folders_one(name, other),
        }
    }

    fn can_read_again(&self, name: &str) -> bool {
        match fs::metadata(self.runtime, name) {
            Ok(metadata) => metadata.is_file(),
            Err(_) => false,
        }
    }
}

impl<R: Files + AllocGlobal> SystemSurroundings<'_, R> {
    /// What is wrong with a file that is there.
    fn there<'a>(&self, name: &'a str, metadata: &Metadata, is_read: bool) -> FileReason<'a> {
        if metadata.is_dir() {
            return FileReason::Folder(name);
        }
        if !is_read
            && (self.is_named(metadata, STREAMS[0]) || self.is_named(metadata, STREAMS[1]))
        {
            return FileReason::Stream(name);
        }
        if !metadata.is_file() {
            return FileReason::Irregular(name);
        }
        let mut options = OpenOptions::new();
        options.read(is_read).write(!is_read);
        match options.open(self.runtime, name) {
            // a report and a page are first made beside the file
            Ok(_) if !is_read => FileReason::Unmade(name),
            Ok(_) => FileReason::Refused(name),
            Err(error) => refused(name, &error),
        }
    }

    /// Whether a file that keeps what it is given is also that of this name.
    fn is_named(&self, metadata: &Metadata, name: &str) -> bool {
        match fs::metadata(self.runtime, name) {
            Ok(other) => {
                !metadata.file_type().is_char_device()
                    && metadata.dev() == other.dev()
                    && metadata.ino() == other.ino()
            }
            Err(_) => false,
        }
    }

    /// Whether the folder is there that a name has before its last slash.
    fn has_folder(&self, name: &str) -> bool {
        fs::metadata(self.runtime, folder_part(name)).is_ok()
    }

    /// Whether the folders of two names are one.
    fn are_folders_one(&self, name: &str, other: &str) -> bool {
        match fs::metadata(self.runtime, folder_part(name)) {
            Ok(metadata) => self.is_named(&metadata, folder_part(other)),
            Err(_) => false,
        }
    }
}

/// What a name has before its last slash: the name of its folder.
fn folder_part(name: &str) -> &str {
    match name.rsplit_once('/') {
        Some((folder, _)) if !folder.is_empty() => folder,
        Some(_) => "/",
        None => ".",
    }
}

/// What a name has behind its last slash.
fn own_part(name: &str) -> &str {
    match name.rsplit_once('/') {
        Some((_, own)) => own,
        None => name,
    }
}

/// What is wrong with a name under which the system finds nothing.
fn missing<'a>(
    name: &'a str,
    error: &io::Error,
    is_read: bool,
    has_folder: bool,
) -> FileReason<'a> {
    match error.kind() {
        ErrorKind::NotFound if !has_folder => FileReason::NoFolder(name),
        ErrorKind::NotFound if is_read => FileReason::Missing(name),
        ErrorKind::NotFound => FileReason::Unmade(name),
        ErrorKind::NotADirectory => FileReason::NoFolder(name),
        _ => refused(name, error),
    }
}

/// What an error of the system says of a file that can't be opened.
fn refused<'a>(name: &'a str, error: &io::Error) -> FileReason<'a> {
    match error.kind() {
        ErrorKind::PermissionDenied => FileReason::Denied(name),
        ErrorKind::ReadOnlyFilesystem => FileReason::ReadOnly(name),
        ErrorKind::StorageFull => FileReason::Full(name),
        ErrorKind::IsADirectory => FileReason::Folder(name),
        ErrorKind::InvalidFilename => FileReason::TooLong(name),
        ErrorKind::FilesystemLoop => FileReason::Circle(name),
        _ => FileReason::Refused(name),
    }
}

/// Whether standard error goes to a terminal: to a character device of the kinds that Linux has for them.
pub(crate) fn is_terminal<R: Files>(runtime: &R) -> bool {
    match fs::metadata(runtime, STREAMS[1]) {
        Ok(metadata) => metadata.file_type().is_char_device() && is_terminal_kind(metadata.rdev()),
        Err(_) => false,
    }
}

/// Whether a device of this number is a terminal: a console, a serial line or one that a program makes.
fn is_terminal_kind(device: u64) -> bool {
    let kind = (device >> 8) & 0xfff;
    kind == 4 || kind == 5 || kind >= 136 && kind <= 143
}
