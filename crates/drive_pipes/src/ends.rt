//! The ends of two pipes: one that bytes come in by, and one that they go out by.
ghost use Rattle.std.specs.Prelude.{◌≡◌, ◌≤◌, ◌++◌, Some, length, take, IfOk, IfSome, OnOk, OnErr};

use base::Memory;

/// No more bytes come in.
#[derive(Clone, Copy, Debug, PartialEq, Eq)]
pub struct Closed;

/// Why lines can't be sent.
#[derive(Clone, Copy, Debug, PartialEq, Eq)]
pub enum SendError {
    /// The output is closed.
    Closed,
    /// Memory was refused, or a thread.
    Memory,
}

impl From<Memory> for SendError {
    fn from(_memory: Memory) -> Self {
        SendError::Memory
    }
}

/// The ends of two pipes.
pub trait Ends {
    ghost use Rattle.std.specs.Prelude.{List, Option, ℕ};

    // the bytes that came in, where that is known
    ghost came: { Self → Option (List ℕ) };

    // the bytes that went out, where that is known
    ghost went: { Self → Option (List ℕ) };

    /// Puts bytes that came in at the start of the room, and gives how many. It waits for some; a signal may end the wait before
    /// there is any. `Closed` where the input has ended or can't be read.
    fn read(&mut self, room: &mut [u8]) -> Result<usize, Closed>
        ensures some { IfOk result (λ n. (n ≤ length room.old) × IfSome (came self.old) (λ bytes. came self.new ≡ Some (bytes ++ take n room.new))) }
        ensures none { OnErr result (came self.new ≡ came self.old) }
        ensures went { went self.new ≡ went self.old };

    /// Has bytes written behind those before, and doesn't wait for it.
    fn write(&mut self, bytes: &[u8]) -> Result<(), SendError>
        ensures all { OnOk result (IfSome (went self.old) (λ gone. went self.new ≡ Some (gone ++ bytes.now))) }
        ensures none { OnErr result (went self.new ≡ went self.old) }
        ensures came { came self.new ≡ came self.old };

    /// Waits until all is written.
    fn flush(&mut self) -> Result<(), SendError>
        ensures came { came self.new ≡ came self.old }
        ensures went { went self.new ≡ went self.old };
}
