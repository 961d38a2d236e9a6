//! Standard input and standard output as the ends of two pipes. A thread of its own writes what goes out: so a full pipe holds up
//! nothing that comes in.
use crate::ends::{Closed, Ends, SendError};
use crossbeam_channel::{Receiver, SendError as Undelivered, Sender, unbounded};
use std::alloc::Global;
use std::io::{ErrorKind, Print, Read};
use std::mem;
use std::sync::Wait;
use std::thread::{self, JoinHandle, Threads};

/// The thread that writes to standard output, and what is sent to it. The thread returns whether all could be
/// written.
#[derive(Drop)]
pub struct Writer {
    sender: Sender<Vec<u8>, Global>,
    thread: JoinHandle<bool>,
}

/// Starts the thread that writes to the output.
///
/// # Errors
///
/// Memory, or the thread, was refused.
pub fn start_writer<
    R: Threads + Wait + Copy + Send + Drop + 'static,
    O: Print + Send + Drop + 'static,
>(rt: R, alloc: Global, output: O) -> Result<Writer, SendError> {
    let Ok((sender, receiver)) = unbounded(alloc) else {
        return Err(SendError::Memory);
    };
    match thread::spawn(&rt, move || write_all(&rt, &receiver, output)) {
        Ok(thread) => Ok(Writer { sender, thread }),
        Err(_) => Err(SendError::Memory),
    }
}

/// Writes what comes until no more does, and returns true; false once nobody reads it.
fn write_all<R: Wait, O: Print + Drop>(
    rt: &R,
    receiver: &Receiver<Vec<u8>, Global>,
    output: O,
) -> bool {
    for _ in rt.forever() {
        let Ok(bytes) = receiver.recv(rt) else {
            return true;
        };
        if output.write_all(bytes.as_slice()).is_err() {
            return false;
        }
    }
    unreachable!()
}

/// Standard input and standard output.
#[derive(Drop)]
pub struct StandardEnds<R: Drop, I: Drop> {
    rt: R,
    alloc: Global,
    input: I,
    writer: Result<Writer, SendError>,
}

impl<R: Threads + Wait + Drop, I: Read + Drop> StandardEnds<R, I> {
    /// These two; without a thread that writes, nothing can be sent, for this reason.
    pub fn new(rt: R, alloc: Global, input: I, writer: Result<Writer, SendError>) -> Self {
        StandardEnds {
            rt,
            alloc,
            input,
            writer,
        }
    }
}

impl<R: Threads + Wait + Drop, I: Read + Drop> Ends for StandardEnds<R, I> {
    ghost use Rattle.std.specs.Prelude.{None};

    ghost came = { λ _. None };

    ghost went = { λ _. None };

    fn read(&mut self, room: &mut [u8]) -> Result<usize, Closed> {
        match self.input.read(room) {
            Ok(0) => Err(Closed),
            Ok(count) => Ok(count),
            Err(error) if error.kind() == ErrorKind::Interrupted => Ok(0),
            Err(_) => Err(Closed),
        }
    }

    fn write(&mut self, bytes: &[u8]) -> Result<(), SendError> {
        let writer = match &self.writer {
            Ok(writer) => writer,
            Err(error) => return Err(*error),
        };
        let Ok(bytes) = Vec::from_slice(self.alloc, bytes) else {
            return Err(SendError::Memory);
        };
        match writer.sender.send(&self.rt, bytes) {
            Ok(()) => Ok(()),
            Err(Undelivered::Disconnected(_)) => Err(SendError::Closed),
            Err(Undelivered::OutOfMemory(_)) => Err(SendError::Memory),
        }
    }

    fn flush(&mut self) -> Result<(), SendError> {
        let writer = mem::replace(&mut self.writer, Err(SendError::Closed))?;
        mem::drop(writer.sender);
        if writer.thread.join(&self.rt) {
            Ok(())
        } else {
            Err(SendError::Closed)
        }
    }
}
