//! A harness behind two pipes, as a drive needs it.
ghost use Rattle.std.specs.Prelude.{◌≡◌, []};
ghost use Rattle.drive_command.specs.Harnesses.{lines_given, text_told};

use drive_pipes::{Chunks, Ends, Pipes, ReceiveError, SendError};
use drive_world::{Harness, NoLine, Untold};
use std::alloc::Global;

/// A harness behind two pipes.
#[derive(Drop)]
pub struct PipeHarness<E: Drop> {
    pipes: Pipes<E>,
    /// The lines that it is to get, until they are sent.
    telling: Vec<u8>,
    /// What it was sent, and the lines that it gave: contracts alone see them.
    told: Chunks,
    gave: Chunks,
}

impl<E: Ends + Drop> PipeHarness<E> {
    /// One that was sent nothing yet.
    pub fn new(alloc: Global, ends: E) -> Self
        ensures untold { text_told result ≡ [] }
        ensures ungiven { lines_given result ≡ [] }
    {
        PipeHarness {
            pipes: Pipes::new(alloc, ends),
            telling: Vec::new(alloc),
            told: Chunks::new(),
            gave: Chunks::new(),
        }
    }
}

impl<E: Ends + Drop> Harness for PipeHarness<E> {
    ghost use Rattle.drive_command.specs.Harnesses.{lines_given, text_told};

    ghost told = { text_told };

    ghost gave = { lines_given };

    fn tell(&mut self, lines: &[u8]) -> Result<(), Untold> {
        self.telling.clear();
        if self.telling.extend_from_slice(lines).is_err() {
            return Err(Untold::Memory);
        }
        unsent(self.pipes.send(self.telling.as_slice()))?;
        self.told.append(&self.telling);
        Ok(())
    }

    fn flush(&mut self) -> Result<(), Untold> {
        unsent(self.pipes.flush())
    }

    fn answer(&mut self) -> Result<Vec<u8>, NoLine> {
        match self.pipes.receive() {
            Ok(line) => {
                self.gave.append(&line);
                Ok(line)
            }
            Err(error) => Err(unreceived(error)),
        }
    }
}

/// Why a harness doesn't get what couldn't be sent.
fn unsent(sent: Result<(), SendError>) -> Result<(), Untold> {
    match sent {
        Ok(()) => Ok(()),
        Err(SendError::Closed) => Err(Untold::Closed),
        Err(SendError::Memory) => Err(Untold::Memory),
    }
}

/// Why a harness gives no line where none was received.
fn unreceived(error: ReceiveError) -> NoLine {
    match error {
        ReceiveError::Long => NoLine::Long,
        ReceiveError::Ended => NoLine::Ended,
        ReceiveError::Closed => NoLine::Closed,
        ReceiveError::Memory => NoLine::Memory,
    }
}
