//! A harness behind two pipes.
ghost use Rattle.std.specs.Prelude.{◌≡◌, ◌++◌, ◌∷◌, [], IfOk, OnOk};
ghost use Rattle.drive_pipes.specs.Flows.{FlowsTo, AreSent};

use crate::ends::{Ends, SendError};
use crate::incoming::{Incoming, NextLine};
use base::Memory;
use std::alloc::Global;

/// How many bytes are gathered before they are written.
const GATHERED: usize = 65_536;

/// How many bytes are read at once.
const READ: usize = 8_192;

/// Why no line is received.
#[derive(Clone, Copy, Debug, PartialEq, Eq)]
pub enum ReceiveError {
    /// Its line has no line feed among so many bytes as it may have.
    Long,
    /// The input ended before the line feed, or can't be read.
    Ended,
    /// What was sent before can't be written: the output is closed.
    Closed,
    /// Memory was refused.
    Memory,
}

impl From<Memory> for ReceiveError {
    fn from(_memory: Memory) -> Self {
        ReceiveError::Memory
    }
}

impl From<SendError> for ReceiveError {
    fn from(error: SendError) -> Self {
        match error {
            SendError::Closed => ReceiveError::Closed,
            SendError::Memory => ReceiveError::Memory,
        }
    }
}

/// A harness behind two pipes.
#[derive(Drop)]
pub struct Pipes<E: Drop> {
    alloc: Global,
    ends: E,
    incoming: Incoming,
    outgoing: Vec<u8>,
}

impl<E: Ends + Drop> Pipes<E> {
    /// One that was sent nothing yet.
    pub fn new(alloc: Global, ends: E) -> Self {
        Pipes {
            alloc,
            ends,
            incoming: Incoming::new(alloc),
            outgoing: Vec::new(alloc),
        }
    }

    /// Sends lines: they are gathered, and handed on once they are many.
    pub fn send(&mut self, lines: &[u8]) -> Result<(), SendError>
        ensures sent { OnOk result (AreSent (E.went self.old.ends) (E.went self.new.ends) self.old.outgoing.items self.new.outgoing.items lines.now) }
        ensures came { OnOk result (FlowsTo (E.came self.old.ends) (E.came self.new.ends) self.old.incoming self.new.incoming) }
    {
        match self.outgoing.extend_from_slice(lines) {
            Ok(()) => {}
            Err(_) => return Err(SendError::Memory),
        }
        if self.outgoing.len() >= GATHERED {
            self.hand_on()?;
        }
        Ok(())
    }

    /// Has all written that was sent, and waits until it is.
    pub fn flush(&mut self) -> Result<(), SendError>
        ensures sent { OnOk result (AreSent (E.went self.old.ends) (E.went self.new.ends) self.old.outgoing.items self.new.outgoing.items []) }
        ensures none_waits { OnOk result (self.new.outgoing.items ≡ []) }
        ensures came { OnOk result (FlowsTo (E.came self.old.ends) (E.came self.new.ends) self.old.incoming self.new.incoming) }
    {
        self.hand_on()?;
        self.ends.flush()
    }

    /// Has all written that was sent, and doesn't wait for it.
    fn hand_on(&mut self) -> Result<(), SendError>
        ensures sent { AreSent (E.went self.old.ends) (E.went self.new.ends) self.old.outgoing.items self.new.outgoing.items [] }
        ensures none_waits { OnOk result (self.new.outgoing.items ≡ []) }
        ensures came { OnOk result (FlowsTo (E.came self.old.ends) (E.came self.new.ends) self.old.incoming self.new.incoming) }
    {
        if !self.outgoing.is_empty() {
            self.ends.write(self.outgoing.as_slice())?;
            self.outgoing.clear();
        }
        Ok(())
    }

    /// Its next line, without the line feed. It waits for it without limit; what was sent goes out before it waits.
    pub fn receive(&mut self) -> Result<Vec<u8>, ReceiveError>
        ensures came { IfOk result
            (λ line. FlowsTo (E.came self.old.ends) (E.came self.new.ends) self.old.incoming (line.items ++ 10 ∷ self.new.incoming)) }
        ensures sent { AreSent (E.went self.old.ends) (E.went self.new.ends) self.old.outgoing.items self.new.outgoing.items [] }
    {
        for _ in 0..u64::MAX {
            match self.incoming.take_line(self.alloc)? {
                NextLine::Line(line) => return Ok(line),
                NextLine::Long => return Err(ReceiveError::Long),
                NextLine::Part => {
                    self.hand_on()?;
                    if !self.take_in()? {
                        return Err(ReceiveError::Ended);
                    }
                }
            }
        }
        Err(ReceiveError::Ended)
    }

    /// Takes in some bytes; false if no more come.
    fn take_in(&mut self) -> Result<bool, Memory>
        ensures came { OnOk result (FlowsTo (E.came self.old.ends) (E.came self.new.ends) self.old.incoming self.new.incoming) }
        ensures sent { AreSent (E.went self.old.ends) (E.went self.new.ends) self.old.outgoing.items self.new.outgoing.items [] }
    {
        let mut room = [0u8; READ];
        match self.ends.read(&mut room) {
            Ok(count) => {
                self.incoming.add(&room[..count])?;
                Ok(true)
            }
            Err(_) => Ok(false),
        }
    }
}
