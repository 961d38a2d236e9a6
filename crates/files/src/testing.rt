//! Files and writers over memory, which fail where a test wants them to.
ghost use Rattle.std.specs.Prelude.{◌≡◌, ◌≢◌, ◌≤◌, ◌+◌, ℕ, List, [], Some, None, true, false, bytes_eq, find, option_map, position, IfOk, IfSome, IsErrOf, OnOk, OnErr, length, take, ◌<◌};
ghost use Rattle.files.specs.Files.{bytes_held, ClosesAs, KeepsOthers, KeepsAllOthers, KeepsAllButThree, CannotMake, CannotMakeSecond, CannotMakeThird, AreThreeFiles, AreFourFiles};
ghost use Rattle.files.specs.Memory.{written_by, writer_fails, has_name, has_place, kept_bytes, known_of, can_make, making_of, made_fail, memory_refused, with_locked, with_fails, KeepsPlaces};
ghost use Rattle.trace.specs.Writers.{writer_under, put_failures};

use crate::refusals::Refusals;
use crate::{FileFault, Files, PairFault, ReadFault, TripleFault};
use std::alloc::{AllocError, Global};
use std::io;
use std::io::Write;
use trace::{Put, Sink};

/// Where a writer over memory fails.
#[derive(Clone, Copy, Debug, PartialEq, Eq)]
pub enum Failing {
    /// Nowhere.
    Never,
    /// At the write of this number, counted from 1.
    AtWrite(u64),
    /// Once it holds this many bytes.
    After(usize),
    /// At each flush.
    AtFlush,
}

/// A writer that holds its bytes in memory. It fails where it was set to, and where memory is refused.
#[derive(Drop)]
pub struct MemoryWriter {
    bytes: Vec<u8>,
    writes: u64,
    fails: Failing,
}

impl MemoryWriter {
    /// A writer with no bytes yet.
    pub fn new(alloc: Global, fails: Failing) -> MemoryWriter
        ensures empty { written_by result ≡ [] }
        ensures fails { writer_fails result ≡ fails }
    {
        MemoryWriter::after(Vec::new(alloc), fails)
    }

    /// A writer that goes on behind bytes that are there.
    fn after(bytes: Vec<u8>, fails: Failing) -> MemoryWriter
        ensures there { written_by result ≡ bytes.items }
        ensures fails { writer_fails result ≡ fails }
    {
        MemoryWriter {
            bytes,
            writes: 0,
            fails,
        }
    }

    /// What was written.
    pub fn bytes(&self) -> &[u8]
        ensures { result.now ≡ written_by self.now }
    {
        self.bytes.as_slice()
    }

    /// How many of so many bytes the write of this moment takes.
    fn share(&self, length: usize) -> Option<usize>
        ensures { IfSome result (λ taken. taken ≤ length) }
    {
        match self.fails {
            Failing::AtWrite(number) if number == self.writes => None,
            Failing::After(most) => match most.saturating_sub(self.bytes.len()) {
                0 => None,
                room => Some(length.min(room)),
            },
            _ => Some(length),
        }
    }
}

impl Write for MemoryWriter {
    ghost contents = { λ writer. Some (written_by writer) };

    fn write(&mut self, buf: &[u8]) -> io::Result<usize> {
        self.writes = self.writes.saturating_add(1);
        match self.share(buf.len()) {
            Some(taken) => {
                self.bytes.extend_from_slice(&buf[..taken])?;
                Ok(taken)
            }
            None => Err(io::Error::from(io::ErrorKind::StorageFull)),
        }
    }

    fn flush(&mut self) -> io::Result<()> {
        match self.fails {
            Failing::AtFlush => Err(io::Error::from(io::ErrorKind::StorageFull)),
            _ => Ok(()),
        }
    }
}

/// A place for a file in memory, and its bytes once there is one.
#[derive(Drop)]
struct Kept {
    name: String,
    bytes: Option<Vec<u8>>,
}

/// Files in memory.
#[derive(Drop)]
pub struct MemoryFiles {
    alloc: Global,
    kept: Vec<Kept>,
    locked: Option<&'static str>,
    fails: Failing,
    refusals: Refusals,
}

impl MemoryFiles {
    /// No files yet. Files can be made, and do not fail.
    pub fn new(alloc: Global) -> MemoryFiles
        ensures empty { (name : List ℕ) → kept_bytes result name ≡ None }
        ensures makes { (name : List ℕ) → can_make result name ≡ true }
        ensures fails { made_fail result ≡ Failing.Never }
        ensures none_refused { memory_refused result ≡ 0 }
    {
        MemoryFiles {
            alloc,
            kept: Vec::new(alloc),
            locked: None,
            fails: Failing::Never,
            refusals: Refusals::new(),
        }
    }

    /// The same files, where none of this name can be made.
    pub fn refusing_to_make(mut self, name: &'static str) -> MemoryFiles
        ensures { result ≡ with_locked self (Some name.entry) }
    {
        self.locked = Some(name);
        self
    }

    /// Whether a file of this name can be made.
    fn can_make(&self, name: &str) -> bool
        ensures { result ≡ can_make self.now name.now }
    {
        match self.locked {
            Some(locked) => locked != name,
            None => true,
        }
    }

    /// The same files, where those that are made fail in this way.
    pub fn failing(mut self, fails: Failing) -> MemoryFiles
        ensures { result ≡ with_fails self fails }
    {
        self.fails = fails;
        self
    }

    /// Keeps a file of this name and these bytes, in the place of one that has the name already.
    /// Nothing changes where memory is refused.
    pub fn keep(&mut self, name: &str, bytes: &[u8]) -> Result<(), AllocError>
        ensures kept { OnOk result (kept_bytes self.new name.now ≡ Some bytes.now) }
        ensures others { KeepsOthers (kept_bytes self.old) (kept_bytes self.new) name.now }
        ensures same { OnErr result (kept_bytes self.new ≡ kept_bytes self.old) }
        ensures makes { can_make self.new ≡ can_make self.old }
        ensures fails { made_fail self.new ≡ made_fail self.old }
        ensures counted { memory_refused self.new ≡ memory_refused self.old }
    {
        let bytes = Vec::from_slice(self.alloc, bytes)?;
        self.store(name, bytes)
    }

    /// The bytes of a file.
    pub fn bytes(&self, name: &str) -> Option<&[u8]>
        ensures { option_map (λ bytes. bytes.now) result ≡ kept_bytes self.now name.now }
    {
        match &self.file(name)?.bytes {
            Some(bytes) => Some(bytes.as_slice()),
            None => None,
        }
    }

    /// So many of the first bytes of a file. One that isn't there has none.
    ///
    /// Faults: `Refused` where it has fewer; `Memory`.
    fn beginning(&self, name: &str, count: u64) -> Result<Vec<u8>, FileFault>
        ensures made { IfOk result (λ bytes. bytes.items ≡ take count (bytes_held (kept_bytes self.now name.now))) }
        ensures enough { OnOk result (count ≤ length (bytes_held (kept_bytes self.now name.now))) }
        ensures refused { IsErrOf result FileFault.Refused → length (bytes_held (kept_bytes self.now name.now)) < count }
    {
        let held = self.bytes(name).unwrap_or(&[]);
        if (held.len() as u64) < count {
            return Err(FileFault::Refused);
        }
        match Vec::from_slice(self.alloc, &held[..count as usize]) {
            Ok(bytes) => Ok(bytes),
            Err(_) => Err(FileFault::Memory),
        }
    }

    /// What is kept at the place for a file of a name, if there is one.
    fn file(&self, name: &str) -> Option<&Kept>
        ensures { option_map (λ file. file.now) result ≡ find (has_name name.now) self.now.kept.items }
    {
        self.kept.iter().find(|file| file.name.as_str() == name)
    }

    /// The place for a file of a name.
    fn place(&self, name: &str) -> Option<usize>
        ensures { result ≡ position (has_name name.now) self.now.kept.items }
    {
        self.kept.iter().position(|file| file.name.as_str() == name)
    }

    /// The place for a file of a name, which is made where there is none yet. No file changes.
    fn hold_place(&mut self, name: &str) -> Result<usize, AllocError>
        ensures held { IfOk result (λ place. position (has_name name.now) self.new.kept.items ≡ Some place) }
        ensures there { OnErr result (has_place self.old name.now ≡ false) }
        ensures places { KeepsPlaces self.old self.new }
        ensures same { kept_bytes self.new ≡ kept_bytes self.old }
        ensures makes { can_make self.new ≡ can_make self.old }
        ensures fails { made_fail self.new ≡ made_fail self.old }
        ensures counted { memory_refused self.new ≡ memory_refused self.old }
    {
        if let Some(place) = self.place(name) {
            return Ok(place);
        }
        let place = self.kept.len();
        let name = String::from_str(self.alloc, name)?;
        self.kept.push(Kept { name, bytes: None })?;
        Ok(place)
    }

    /// Stores the bytes under the name. A name that has its place takes no memory, and nothing changes
    /// where memory is refused.
    fn store(&mut self, name: &str, bytes: Vec<u8>) -> Result<(), AllocError>
        ensures stored { OnOk result (kept_bytes self.new name.now ≡ Some bytes.items) }
        ensures others { KeepsOthers (kept_bytes self.old) (kept_bytes self.new) name.now }
        ensures same { OnErr result (kept_bytes self.new ≡ kept_bytes self.old) }
        ensures there { OnErr result (has_place self.old name.now ≡ false) }
        ensures places { KeepsPlaces self.old self.new }
        ensures makes { can_make self.new ≡ can_make self.old }
        ensures fails { made_fail self.new ≡ made_fail self.old }
        ensures counted { memory_refused self.new ≡ memory_refused self.old }
    {
        let place = self.hold_place(name)?;
        self.kept[place].bytes = Some(bytes);
        Ok(())
    }

    /// Whether a file of the name can be made, and isn't that of the source.
    fn may_make(&self, source: &str, name: &str) -> bool
        ensures apart { result ≡ true → bytes_eq source.now name.now ≡ false }
        ensures refused { result ≡ false → CannotMake (making_of self.now) source.now name.now }
    {
        source != name && self.can_make(name)
    }

    /// The same of a second file, which isn't that of the first name either.
    fn may_make_beside(&self, source: &str, first: &str, name: &str) -> bool
        ensures apart { result ≡ true → bytes_eq source.now name.now ≡ false }
        ensures beside { result ≡ true → bytes_eq first.now name.now ≡ false }
        ensures differs { result ≡ true → name.now ≢ first.now }
        ensures refused { result ≡ false → CannotMakeSecond (making_of self.now) source.now first.now name.now }
    {
        first != name && self.may_make(source, name)
    }

    /// Returns which of two files can't be made, if one can't.
    fn may_make_both(&self, source: &str, first: &str, second: &str) -> Result<(), PairFault>
        ensures apart { OnOk result (AreThreeFiles (making_of self.now) source.now first.now second.now) }
        ensures differ { OnOk result (second.now ≢ first.now) }
        ensures refused { IsErrOf result PairFault.First → CannotMake (making_of self.now) source.now first.now }
        ensures refused_too { IsErrOf result PairFault.Second
            → CannotMakeSecond (making_of self.now) source.now first.now second.now }
    {
        if !self.may_make(source, first) {
            return Err(PairFault::First);
        }
        if !self.may_make_beside(source, first, second) {
            return Err(PairFault::Second);
        }
        Ok(())
    }

    /// Returns which of three files can't be made, if one can't.
    fn may_make_three(
        &self,
        source: &str,
        first: &str,
        second: &str,
        third: &str,
    ) -> Result<(), TripleFault>
        ensures apart { OnOk result (AreFourFiles (making_of self.now) source.now first.now second.now third.now) }
        ensures second_from_first { OnOk result (second.now ≢ first.now) }
        ensures third_from_first { OnOk result (third.now ≢ first.now) }
        ensures third_from_second { OnOk result (third.now ≢ second.now) }
        ensures refused { IsErrOf result TripleFault.First → CannotMake (making_of self.now) source.now first.now }
        ensures refused_second { IsErrOf result TripleFault.Second
            → CannotMakeSecond (making_of self.now) source.now first.now second.now }
        ensures refused_third { IsErrOf result TripleFault.Third
            → CannotMakeThird (making_of self.now) source.now first.now second.now third.now }
    {
        if !self.may_make(source, first) {
            return Err(TripleFault::First);
        }
        if !self.may_make_beside(source, first, second) {
            return Err(TripleFault::Second);
        }
        if second == third || !self.may_make_beside(source, first, third) {
            return Err(TripleFault::Third);
        }
        Ok(())
    }

    /// Makes empty files under two names that differ. Nothing changes where memory is refused.
    fn empty_both(&mut self, first: &str, second: &str) -> Result<(), AllocError>
        requires differ { second.now ≢ first.now }
        ensures empty { OnOk result (kept_bytes self.new first.now ≡ Some []) }
        ensures empty_too { OnOk result (kept_bytes self.new second.now ≡ Some []) }
        ensures others { KeepsAllOthers (kept_bytes self.old) (kept_bytes self.new) first.now second.now }
        ensures same { OnErr result (kept_bytes self.new ≡ kept_bytes self.old) }
        ensures places { KeepsPlaces self.old self.new }
        ensures makes { can_make self.new ≡ can_make self.old }
        ensures fails { made_fail self.new ≡ made_fail self.old }
        ensures counted { memory_refused self.new ≡ memory_refused self.old }
    {
        // both places first, so that no memory is asked for any more once a file changes
        self.hold_place(first)?;
        self.hold_place(second)?;
        let _ = self.store(first, Vec::new(self.alloc));
        let _ = self.store(second, Vec::new(self.alloc));
        Ok(())
    }

    /// Makes empty files under three names that differ. Nothing changes where memory is refused.
    fn empty_three(&mut self, first: &str, second: &str, third: &str) -> Result<(), AllocError>
        requires second_from_first { second.now ≢ first.now }
        requires third_from_first { third.now ≢ first.now }
        requires third_from_second { third.now ≢ second.now }
        ensures empty { OnOk result (kept_bytes self.new first.now ≡ Some []) }
        ensures empty_second { OnOk result (kept_bytes self.new second.now ≡ Some []) }
        ensures empty_third { OnOk result (kept_bytes self.new third.now ≡ Some []) }
        ensures others { KeepsAllButThree (kept_bytes self.old) (kept_bytes self.new) first.now second.now third.now }
        ensures same { OnErr result (kept_bytes self.new ≡ kept_bytes self.old) }
        ensures makes { can_make self.new ≡ can_make self.old }
        ensures fails { made_fail self.new ≡ made_fail self.old }
        ensures counted { memory_refused self.new ≡ memory_refused self.old }
    {
        // the first's place before the others are made, so that it takes no memory after that
        self.hold_place(first)?;
        self.empty_both(second, third)?;
        let _ = self.store(first, Vec::new(self.alloc));
        Ok(())
    }

    /// A writer of a file that was made.
    fn writer(&self) -> MemoryWriter
        ensures { written_by result ≡ [] }
    {
        MemoryWriter::new(self.alloc, self.fails)
    }
}

impl Files for MemoryFiles {
    type Made = MemoryWriter;

    ghost known = { known_of };

    ghost making = { making_of };

    ghost refused = { memory_refused };

    fn read(&mut self, alloc: Global, name: &str) -> Result<Vec<u8>, ReadFault> {
        match self.bytes(name) {
            Some(bytes) => match Vec::from_slice(alloc, bytes) {
                Ok(bytes) => Ok(bytes),
                Err(_) => Err(ReadFault::Memory),
            },
            None => Err(ReadFault::Absent),
        }
    }

    fn make(&mut self, source: &str, name: &str) -> Result<MemoryWriter, FileFault> {
        if !self.may_make(source, name) {
            return Err(FileFault::Refused);
        }
        match self.keep(name, b"") {
            Ok(()) => Ok(self.writer()),
            Err(_) => Err(FileFault::Memory),
        }
    }

    fn make_after(
        &mut self,
        source: &str,
        name: &str,
        kept: u64,
    ) -> Result<MemoryWriter, FileFault> {
        if !self.may_make(source, name) {
            return Err(FileFault::Refused);
        }
        let written = self.beginning(name, kept)?;
        match self.keep(name, written.as_slice()) {
            Ok(()) => Ok(MemoryWriter::after(written, self.fails)),
            Err(_) => Err(FileFault::Memory),
        }
    }

    fn make_both(
        &mut self,
        source: &str,
        first: &str,
        second: &str,
    ) -> Result<(MemoryWriter, MemoryWriter), PairFault> {
        self.may_make_both(source, first, second)?;
        match self.empty_both(first, second) {
            Ok(()) => Ok((self.writer(), self.writer())),
            Err(_) => Err(PairFault::Memory),
        }
    }

    fn make_three(
        &mut self,
        source: &str,
        first: &str,
        second: &str,
        third: &str,
    ) -> Result<(MemoryWriter, MemoryWriter, MemoryWriter), TripleFault> {
        self.may_make_three(source, first, second, third)?;
        match self.empty_three(first, second, third) {
            Ok(()) => Ok((self.writer(), self.writer(), self.writer())),
            Err(_) => Err(TripleFault::Memory),
        }
    }

    fn make_whole(&mut self, source: &str, name: &str) -> Result<MemoryWriter, FileFault> {
        self.make(source, name)
    }

    fn make_both_whole(
        &mut self,
        source: &str,
        first: &str,
        second: &str,
    ) -> Result<(MemoryWriter, MemoryWriter), PairFault> {
        self.make_both(source, first, second)
    }

    fn close(&mut self, name: &str, made: Put<MemoryWriter>)
        ensures closed { ClosesAs (known_of self.old name.now) (known_of self.new name.now) (Some (written_by (writer_under made))) }
        ensures others { KeepsOthers (known_of self.old) (known_of self.new) name.now }
        ensures refused { memory_refused self.new ≡ memory_refused self.old + put_failures made }
    {
        self.refusals.add(made.failures());
        // the name has its place since the file was made
        let _ = self.store(name, made.into_inner().bytes);
    }
}
