//! Files of the system that were made, and how they are written.
ghost use Rattle.std.specs.Prelude.{◌<◌, ◌≤◌, length, IfOk, IfSome};

use crate::stages::Stage;
use memchr::memchr;
use std::fs::OpenFile;
use std::io;
use std::io::{ErrorKind, Seek, SeekFrom, Write};
use std::path::PathBuf;
use std::rt::Files;

/// So many bytes are gathered at most before they are written: a call of the system costs as much as dozens of a trace's lines.
const MOST_GATHERED: usize = 32_768;

/// A file that was made. It is written in place, or beside its name: then it is in place once it is flushed, and whole.
#[derive(Drop)]
pub struct SystemFile<'r, R, F> {
    runtime: &'r R,
    file: F,
    // how many of its first bytes stay
    kept: u64,
    // whether the others are cut off
    is_cut: bool,
    // where it stands, if it is to be written beside that
    place: Option<PathBuf>,
    stage: Option<Stage<F>>,
    // lines that are written before anything else
    gathered: Vec<u8>,
    // whether a write failed beside its name, or one of what was gathered
    has_failed: bool,
}

impl<'r, R: Files + AllocGlobal> SystemFile<'r, R, R::File> {
    /// A file that is written in place, behind so many bytes. `is_cut` says that it has no others.
    pub(crate) fn in_place(
        runtime: &'r R,
        file: R::File,
        kept: u64,
        is_cut: bool,
    ) -> SystemFile<'r, R, R::File> {
        SystemFile {
            runtime,
            file,
            kept,
            is_cut,
            place: None,
            stage: None,
            gathered: Vec::new(runtime.alloc()),
            has_failed: false,
        }
    }

    /// A file that is written beside its path.
    pub(crate) fn beside(
        runtime: &'r R,
        file: R::File,
        path: PathBuf,
    ) -> SystemFile<'r, R, R::File> {
        SystemFile {
            runtime,
            file,
            kept: 0,
            is_cut: false,
            place: Some(path),
            stage: None,
            gathered: Vec::new(runtime.alloc()),
            has_failed: false,
        }
    }

    /// Sees to it, before anything is written, that what is written goes behind what is kept of the file, or beside it.
    fn begin(&mut self) -> io::Result<()> {
        if self.has_failed {
            return Err(io::Error::from(ErrorKind::Other));
        }
        if let Some(path) = self.place.take() {
            self.stage = Stage::begin(self.runtime, path, &self.file);
        }
        if self.stage.is_none() && !self.is_cut {
            self.cut()?;
        }
        Ok(())
    }

    /// Cuts the file off behind what is kept of it, if it is one that keeps what it is given. It is never shorter.
    fn cut(&mut self) -> io::Result<()> {
        if self.file.metadata()?.is_file() {
            self.file.set_len(self.kept)?;
            let _ = self.file.seek(SeekFrom::Start(self.kept))?;
        }
        self.is_cut = true;
        Ok(())
    }

    /// Writes bytes in place, or beside it.
    fn put(&mut self, bytes: &[u8]) -> io::Result<usize>
        ensures { IfOk result (λ taken. taken ≤ length bytes.now) }
    {
        match &mut self.stage {
            Some(stage) => stage.write(bytes),
            None => self.put_in_file(bytes),
        }
    }

    /// Writes bytes in place: now, or with those that follow.
    fn put_in_file(&mut self, bytes: &[u8]) -> io::Result<usize>
        ensures { IfOk result (λ taken. taken ≤ length bytes.now) }
    {
        if self.gather(bytes)? {
            return Ok(bytes.len());
        }
        self.write_gathered()?;
        self.file.write(bytes)
    }

    /// Gathers lines that aren't too long, and says whether it did: not where memory is refused.
    fn gather(&mut self, bytes: &[u8]) -> io::Result<bool> {
        if bytes.len() > MOST_GATHERED || !are_lines(bytes) {
            return Ok(false);
        }
        if self.gathered.len() > MOST_GATHERED - bytes.len() {
            self.write_gathered()?;
        }
        Ok(self.gathered.extend_from_slice(bytes).is_ok())
    }

    /// Writes what was gathered. If that fails, nothing is written behind it.
    fn write_gathered(&mut self) -> io::Result<()> {
        if self.gathered.is_empty() {
            return Ok(());
        }
        let outcome = self.file.write_all(&self.gathered);
        self.gathered.clear();
        self.has_failed = outcome.is_err();
        outcome
    }

    /// Ends the writing: what is not whole beside the file's name is removed.
    pub(crate) fn end(mut self) {
        if let Some(stage) = self.stage.take() {
            stage.remove(self.runtime);
        } else if self.place.is_none() {
            let _ = self.begin();
            let _ = self.write_gathered();
        }
    }
}

/// Whether these are several lines, as a run's are. A line by itself is written at once, as one of a sweep's table is: so a
/// sweep that is killed has lost no run.
fn are_lines(bytes: &[u8]) -> bool {
    match end_of_line(bytes) {
        Some(end) => end + 1 < bytes.len(),
        None => false,
    }
}

/// The place at which a line ends.
fn end_of_line(bytes: &[u8]) -> Option<usize>
    ensures { IfSome result (λ end. end < length bytes.now) }
{
    memchr(b'\n', bytes)
}

impl<R: Files + AllocGlobal> Write for SystemFile<'_, R, R::File> {
    fn write(&mut self, buf: &[u8]) -> io::Result<usize> {
        self.begin()?;
        let outcome = self.put(buf);
        if self.stage.is_some() {
            self.has_failed = outcome.is_err();
        }
        outcome
    }

    fn flush(&mut self) -> io::Result<()> {
        self.begin()?;
        match self.stage.take() {
            Some(stage) => {
                self.is_cut = true;
                self.file = stage.publish(self.runtime)?;
                Ok(())
            }
            None => {
                self.write_gathered()?;
                self.file.flush()
            }
        }
    }
}
