//! The system's files.
ghost use Rattle.std.specs.Prelude.{◌≡◌, ◌+◌, None};
ghost use Rattle.files.specs.System.{runtime_of, system_refused, unknown};
ghost use Rattle.trace.specs.Writers.{put_failures};

use crate::identity::{Identity, is_among};
use crate::leads::{Found, Lead, find};
use crate::reading::{fault_of, read_fault, read_whole};
use crate::refusals::Refusals;
use crate::stages::try_beside;
use crate::written::SystemFile;
use crate::{FileFault, Files, PairFault, ReadFault, TripleFault};
use std::alloc::Global;
use std::fs::{OpenFile, OpenOptions};
use std::io::ErrorKind;
use std::path::PathBuf;
use std::{fs, io};
use trace::{Put, Sink};

/// The names of standard output and standard error among the system's files.
const STANDARD_OUTPUT: &str = "/dev/stdout";

const STANDARD_ERROR: &str = "/dev/stderr";

/// The files of a runtime's system. None is made that is the file of the source, that of standard output or of
/// standard error, or one made beside it, whatever its names are. Nothing is removed but what no other program knows.
#[derive(Drop)]
pub struct SystemFiles<'r, R> {
    runtime: &'r R,
    // the files that standard output and standard error go to
    output: Option<Identity>,
    error: Option<Identity>,
    // the files that were read
    inputs: Vec<Option<Identity>>,
    refusals: Refusals,
}

/// Files that aren't to be made, where the system distinguishes them from all others.
#[derive(Clone, Copy)]
struct Taken<'t> {
    source: Option<Identity>,
    output: Option<Identity>,
    error: Option<Identity>,
    // those that were read
    inputs: &'t [Option<Identity>],
}

impl Taken<'_> {
    /// Whether a file is one of these.
    fn has(&self, identity: Option<Identity>) -> bool {
        is_among(identity, &[self.source, self.output, self.error])
            || is_among(identity, self.inputs)
    }
}

/// A file that is open to be written, and holds what it held before.
#[derive(Drop)]
struct Opened<F> {
    file: F,
    path: PathBuf,
    is_new: bool,
    identity: Option<Identity>,
}

impl<F: OpenFile + Drop> Opened<F> {
    /// Empties the file now, if it is one that keeps what it is given. Where that fails it is emptied at the first write.
    fn empty(&self) {
        if let Ok(metadata) = self.file.metadata() {
            if metadata.is_file() {
                let _ = self.file.set_len(0);
            }
        }
    }

    /// Whether the file has so many bytes. One that doesn't keep what it is given, as a pipe, has none.
    fn has(&self, kept: u64) -> bool {
        match self.file.metadata() {
            Ok(metadata) => kept <= metadata.len(),
            Err(_) => false,
        }
    }
}

impl<'r, R: std::rt::Files + AllocGlobal> SystemFiles<'r, R> {
    /// The files that the runtime reaches. Where standard output and standard error go is seen now, before any file is
    /// opened.
    pub fn new(runtime: &'r R) -> SystemFiles<'r, R>
        ensures { runtime_of result ≡ runtime.entry }
    {
        let output = Identity::of_name(runtime, STANDARD_OUTPUT);
        let error = Identity::of_name(runtime, STANDARD_ERROR);
        SystemFiles {
            runtime,
            output,
            error,
            inputs: Vec::new(runtime.alloc()),
            refusals: Refusals::new(),
        }
    }

    /// The file of a name, which is that of the source, that of standard output and that of standard error.
    fn taken(&self, source: &str) -> Taken<'static> {
        Taken {
            source: Identity::of_name(self.runtime, source),
            output: self.output,
            error: self.error,
            inputs: &[],
        }
    }

    /// The same, and all files that were read.
    fn taken_or_read(&self, source: &str) -> Taken<'_> {
        Taken {
            inputs: self.inputs.as_slice(),
            ..self.taken(source)
        }
    }

    /// Notes a file that is read.
    fn note(&mut self, file: &R::File) -> Result<(), ReadFault>
        ensures { system_refused self.new ≡ system_refused self.old }
    {
        match self.inputs.push(Identity::of_file(file)) {
            Ok(()) => Ok(()),
            Err(_) => Err(ReadFault::Memory),
        }
    }

    /// Finds where a name leads, unless it is to one of these files. Where it leads to none, one can be made there.
    fn find(&self, name: &str, taken: Taken<'_>) -> Result<Found<R::File>, FileFault> {
        let found = find(self.runtime, name)?;
        if taken.has(found.lead.identity()) {
            return Err(FileFault::Refused);
        }
        if let Lead::Missing(_) = &found.lead {
            if let Err(error) = try_beside(self.runtime, found.path.as_path()) {
                return Err(fault_of(&error));
            }
        }
        Ok(found)
    }

    /// The same of two names, which lead to two files.
    fn find_both(
        &self,
        first: &str,
        second: &str,
        taken: Taken<'_>,
    ) -> Result<(Found<R::File>, Found<R::File>), PairFault> {
        let one = of_first(self.find(first, taken))?;
        let other = of_second(self.find(second, taken))?;
        if other.lead.is_one(&one.lead) {
            return Err(PairFault::Second);
        }
        Ok((one, other))
    }

    /// The same of three names, which lead to three files.
    fn find_three(
        &self,
        first: &str,
        second: &str,
        third: &str,
        taken: Taken<'_>,
    ) -> Result<(Found<R::File>, Found<R::File>, Found<R::File>), TripleFault> {
        let (one, other) = of_pair(self.find_both(first, second, taken))?;
        let last = of_third(self.find(third, taken))?;
        if last.lead.is_one(&one.lead) || last.lead.is_one(&other.lead) {
            return Err(TripleFault::Third);
        }
        Ok((one, other, last))
    }

    /// Opens what was found, where it isn't open yet. No file is made.
    fn open_found(&self, name: &str, found: Found<R::File>) -> Result<Found<R::File>, FileFault> {
        match found.lead {
            Lead::Closed(identity) => match self.open_old(name) {
                Ok(file) => Ok(Found {
                    path: found.path,
                    lead: Lead::Open(file, identity),
                }),
                Err(error) => Err(fault_of(&error)),
            },
            lead => Ok(Found {
                path: found.path,
                lead,
            }),
        }
    }

    /// Opens a file that is there to be written.
    fn open_old(&self, name: &str) -> io::Result<R::File> {
        let mut options = OpenOptions::new();
        options.write(true);
        options.open(self.runtime, name)
    }

    /// Makes a file that wasn't there, and returns whether it is new: it may be there by now.
    fn open_new(&self, path: &str) -> io::Result<(R::File, bool)> {
        let mut options = OpenOptions::new();
        options.write(true).create_new(true);
        match options.open(self.runtime, path) {
            Ok(file) => Ok((file, true)),
            Err(error) if error.kind() == ErrorKind::AlreadyExists => {
                let mut options = OpenOptions::new();
                options.write(true).create(true);
                Ok((options.open(self.runtime, path)?, false))
            }
            Err(error) => Err(error),
        }
    }

    /// The file that was found, made where there is none, unless it is one of these by now.
    fn open(
        &self,
        found: Found<R::File>,
        taken: Taken<'_>,
        made: [Option<Identity>; 2],
    ) -> Result<Opened<R::File>, FileFault> {
        let Found { path, lead } = found;
        let (file, is_new) = match lead {
            Lead::Open(file, _) => (file, false),
            _ => match self.open_new(path.as_str()) {
                Ok(opened) => opened,
                Err(error) => return Err(fault_of(&error)),
            },
        };
        let identity = Identity::of_file(&file);
        if taken.has(identity) || is_among(identity, &made) {
            return Err(FileFault::Refused);
        }
        Ok(Opened {
            file,
            path,
            is_new,
            identity,
        })
    }

    /// Opens the file of one name to be written, as `make_after` says.
    fn open_one(
        &self,
        name: &str,
        taken: Taken<'_>,
        kept: u64,
    ) -> Result<Opened<R::File>, FileFault> {
        let found = self.find(name, taken)?;
        if 0 < kept && !found.lead.is_open() {
            return Err(FileFault::Refused);
        }
        let found = self.open_found(name, found)?;
        let opened = self.open(found, taken, [None, None])?;
        if !opened.has(kept) {
            return Err(FileFault::Refused);
        }
        Ok(opened)
    }

    /// Opens those of two names, as `make_both` says.
    fn open_both(
        &self,
        first: &str,
        second: &str,
        taken: Taken<'_>,
    ) -> Result<(Opened<R::File>, Opened<R::File>), PairFault> {
        let (one, other) = self.find_both(first, second, taken)?;
        let one = of_first(self.open_found(first, one))?;
        let other = of_second(self.open_found(second, other))?;
        let one = of_first(self.open(one, taken, [None, None]))?;
        let other = of_second(self.open(other, taken, [one.identity, None]))?;
        Ok((one, other))
    }

    /// Opens those of three names, as `make_three` says.
    fn open_three(
        &self,
        first: &str,
        second: &str,
        third: &str,
        taken: Taken<'_>,
    ) -> Result<(Opened<R::File>, Opened<R::File>, Opened<R::File>), TripleFault> {
        let (one, other, last) = self.find_three(first, second, third, taken)?;
        let one = of_pair(of_first(self.open_found(first, one)))?;
        let other = of_pair(of_second(self.open_found(second, other)))?;
        let last = of_third(self.open_found(third, last))?;
        let one = of_pair(of_first(self.open(one, taken, [None, None])))?;
        let other = of_pair(of_second(self.open(other, taken, [one.identity, None])))?;
        let last = of_third(self.open(last, taken, [one.identity, other.identity]))?;
        Ok((one, other, last))
    }

    /// The file, to be written in place, behind so many bytes.
    fn in_place(&self, opened: Opened<R::File>, kept: u64) -> SystemFile<'r, R, R::File> {
        SystemFile::in_place(self.runtime, opened.file, kept, opened.is_new)
    }

    /// The file, to be written beside its name.
    fn beside(&self, opened: Opened<R::File>) -> SystemFile<'r, R, R::File> {
        SystemFile::beside(self.runtime, opened.file, opened.path)
    }
}

/// What came of the first of two files.
fn of_first<T: Drop>(outcome: Result<T, FileFault>) -> Result<T, PairFault> {
    match outcome {
        Ok(made) => Ok(made),
        Err(FileFault::Refused) => Err(PairFault::First),
        Err(FileFault::Memory) => Err(PairFault::Memory),
    }
}

/// What came of the second of two.
fn of_second<T: Drop>(outcome: Result<T, FileFault>) -> Result<T, PairFault> {
    match outcome {
        Ok(made) => Ok(made),
        Err(FileFault::Refused) => Err(PairFault::Second),
        Err(FileFault::Memory) => Err(PairFault::Memory),
    }
}

/// What came of the first two of three.
fn of_pair<T: Drop>(outcome: Result<T, PairFault>) -> Result<T, TripleFault> {
    match outcome {
        Ok(made) => Ok(made),
        Err(PairFault::First) => Err(TripleFault::First),
        Err(PairFault::Second) => Err(TripleFault::Second),
        Err(PairFault::Memory) => Err(TripleFault::Memory),
    }
}

/// What came of the third.
fn of_third<T: Drop>(outcome: Result<T, FileFault>) -> Result<T, TripleFault> {
    match outcome {
        Ok(made) => Ok(made),
        Err(FileFault::Refused) => Err(TripleFault::Third),
        Err(FileFault::Memory) => Err(TripleFault::Memory),
    }
}

impl<'r, R: std::rt::Files + AllocGlobal> Files for SystemFiles<'r, R> {
    type Made = SystemFile<'r, R, R::File>;

    // no contract can say what a system's files hold
    ghost known = { λ files name. None };

    ghost making = { λ files. unknown };

    ghost refused = { system_refused };

    fn read(&mut self, alloc: Global, name: &str) -> Result<Vec<u8>, ReadFault> {
        match fs::open(self.runtime, name) {
            Ok(mut file) => {
                self.note(&file)?;
                read_whole(alloc, &mut file)
            }
            Err(error) => Err(read_fault(&error)),
        }
    }

    fn make(&mut self, source: &str, name: &str) -> Result<SystemFile<'r, R, R::File>, FileFault> {
        let opened = self.open_one(name, self.taken(source), 0)?;
        Ok(self.in_place(opened, 0))
    }

    fn make_after(
        &mut self,
        source: &str,
        name: &str,
        kept: u64,
    ) -> Result<SystemFile<'r, R, R::File>, FileFault> {
        let opened = self.open_one(name, self.taken(source), kept)?;
        Ok(self.in_place(opened, kept))
    }

    fn make_both(
        &mut self,
        source: &str,
        first: &str,
        second: &str,
    ) -> Result<(SystemFile<'r, R, R::File>, SystemFile<'r, R, R::File>), PairFault> {
        let (one, other) = self.open_both(first, second, self.taken(source))?;
        other.empty();
        one.empty();
        Ok((self.in_place(one, 0), self.beside(other)))
    }

    fn make_three(
        &mut self,
        source: &str,
        first: &str,
        second: &str,
        third: &str,
    ) -> Result<
        (
            SystemFile<'r, R, R::File>,
            SystemFile<'r, R, R::File>,
            SystemFile<'r, R, R::File>,
        ),
        TripleFault,
    > {
        let (one, other, last) = self.open_three(first, second, third, self.taken(source))?;
        last.empty();
        other.empty();
        one.empty();
        Ok((self.in_place(one, 0), self.beside(other), self.beside(last)))
    }

    fn make_whole(
        &mut self,
        source: &str,
        name: &str,
    ) -> Result<SystemFile<'r, R, R::File>, FileFault> {
        let opened = self.open_one(name, self.taken_or_read(source), 0)?;
        Ok(self.beside(opened))
    }

    fn make_both_whole(
        &mut self,
        source: &str,
        first: &str,
        second: &str,
    ) -> Result<(SystemFile<'r, R, R::File>, SystemFile<'r, R, R::File>), PairFault> {
        let (one, other) = self.open_both(first, second, self.taken_or_read(source))?;
        Ok((self.beside(one), self.beside(other)))
    }

    fn close(&mut self, name: &str, made: Put<SystemFile<'r, R, R::File>>)
        ensures refused { system_refused self.new ≡ system_refused self.old + put_failures made.entry }
    {
        let _ = name;
        self.refusals.add(made.failures());
        made.into_inner().end();
    }
}
