//! The bytes that came in and aren't taken yet, and the lines in them.
ghost use Rattle.std.specs.Prelude.{◌≡◌, ◌≢◌, ◌≤◌, ◌<◌, ◌++◌, [], ℕ, length, slice_index, IfOk, OnOk, OnErr, IfSome, IsNone};
ghost use Rattle.drive_pipes.specs.Lines.{Takes, unended_of};

use base::Memory;
use std::alloc::Global;
use std::marker::Model;

/// How many bytes a line may have, without its line feed.
pub const LONGEST: usize = 1_048_576;

/// What stands first among the bytes that came in.
#[derive(Debug, Drop)]
pub enum NextLine {
    /// A line, without its line feed.
    Line(Vec<u8>),
    /// The beginning of a line, which may go on.
    Part,
    /// More bytes than a line may have.
    Long,
}

/// The bytes that came in and aren't taken yet: those behind `from`, of which none before `searched` is a line feed.
#[derive(Drop)]
pub(crate) struct Incoming {
    bytes: Vec<u8>,
    from: usize,
    searched: usize,
}

impl Model for Incoming {
    ghost use Rattle.std.specs.Prelude.{List, ℕ, drop};
    ghost use Rattle.drive_pipes.specs.Lines.{IsSearched};

    ghost Value = { List ℕ };

    ghost view = { λ a. drop a.from a.bytes.items };

    ghost invariant = { λ a. IsSearched a.from a.searched a.bytes.items };
}

impl Incoming {
    /// No bytes.
    pub(crate) fn new(alloc: Global) -> Self
        ensures { result ≡ [] }
    {
        Incoming {
            bytes: Vec::new(alloc),
            from: 0,
            searched: 0,
        }
    }

    /// Adds bytes that came in.
    pub(crate) fn add(&mut self, more: &[u8]) -> Result<(), Memory>
        ensures { OnOk result (self.new ≡ self.old ++ more.now) }
    {
        self.bytes.extend_from_slice(more)?;
        Ok(())
    }

    /// The first line, which is taken out, or what stands there where there is none.
    pub(crate) fn take_line(&mut self, alloc: Global) -> Result<NextLine, Memory>
        ensures { IfOk result (Takes self.old self.new) }
    {
        let Some(end) = feed_at(self.bytes.as_slice(), self.searched) else {
            self.searched = self.bytes.len();
            return Ok(unended(self.bytes.len() - self.from));
        };
        if end - self.from > LONGEST {
            return Ok(NextLine::Long);
        }
        let line = Vec::from_slice(alloc, &self.bytes[self.from..end])?;
        self.from = end + 1;
        self.searched = end + 1;
        self.let_go();
        Ok(NextLine::Line(line))
    }

    /// Gives the room of what is taken back, once it is at least half of the bytes.
    fn let_go(&mut self)
        ensures { self.new ≡ self.old }
    {
        if self.from >= self.bytes.len() - self.from {
            self.bytes.drain(..self.from);
            self.searched -= self.from;
            self.from = 0;
        }
    }
}

/// What so many bytes are among which no line feed stands.
fn unended(count: usize) -> NextLine
    ensures { result ≡ unended_of count }
{
    if count > LONGEST {
        NextLine::Long
    } else {
        NextLine::Part
    }
}

/// The place of the first line feed from a place on.
fn feed_at(bytes: &[u8], from: usize) -> Option<usize>
    ensures some { IfSome result (λ end. (from ≤ end) × (end < length bytes.now) × (slice_index bytes.now end ≡ 10)) }
    ensures before { IfSome result (λ end. (k : ℕ) → from ≤ k → k < end → slice_index bytes.now k ≢ 10) }
    ensures none { IsNone result → (k : ℕ) → from ≤ k → k < length bytes.now → slice_index bytes.now k ≢ 10 }
{
    for place in from..bytes.len() {
        if bytes[place] == b'\n' {
            return Some(place);
        }
    }
    None
}
