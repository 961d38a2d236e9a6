//! The trait of what takes a text's bytes piece by piece and counts its failures, with its implementation over writers.
ghost use Rattle.std.specs.Prelude.{◌≡◌, ◌+◌, ◌<◌, ◌≤◌, ◌^◌, ℕ, List, Option, length, take, IfOk, OnOk, OnErr};
ghost use Rattle.std.specs.Io.KnownBytes.{Appends, Keeps};
ghost use Rattle.trace.specs.Sinks.{AppendsBeginning, failures_of_put, failure_if_stopped};
ghost use Rattle.trace.specs.Writers.{writer_under, put_failures};

use std::io::Write;

/// A sink took nothing, and has counted a failure.
#[derive(Clone, Copy, Debug, PartialEq, Eq, thiserror::Error)]
#[error("the sink stopped")]
pub struct Stopped;

/// What takes the bytes of a text, piece by piece. It counts its failures: a caller hands it in
/// with fewer than 2^63 of them.
pub trait Sink {
    // the bytes that it holds, where they are known
    ghost held: { Self → Option (List ℕ) };

    // how often it has failed
    ghost failed: { Self → ℕ };

    /// Takes the first bytes of a piece, and answers how many: at least one of a piece that is not
    /// empty, or else a failure is counted. `Stopped` says that none was taken.
    fn put(&mut self, bytes: &[u8]) -> Result<usize, Stopped>
        requires { failed self.old < 2 ^ 63 }
        ensures bound { IfOk result (λ taken. taken ≤ length bytes.now) }
        ensures taken { IfOk result (λ taken. Appends (held self.old) (held self.new) (take taken bytes.now)) }
        ensures stopped { OnErr result (Keeps (held self.old) (held self.new)) }
        ensures failures { failed self.new ≡ failed self.old + failures_of_put result bytes.now };

    /// Hands on what was taken. `Stopped` says that a failure was counted.
    fn flush(&mut self) -> Result<(), Stopped>
        requires { failed self.old < 2 ^ 63 }
        ensures same { Keeps (held self.old) (held self.new) }
        ensures failures { failed self.new ≡ failed self.old + failure_if_stopped result };

    /// How often it has failed.
    fn failures(&self) -> u64
        ensures { result ≡ failed self.now };
}

/// Puts bytes until all of them are taken, or the sink fails: `Stopped` then also stands for a put
/// that took nothing, and the sink has got a beginning of the bytes.
pub fn put_all<S: Sink>(bytes: &[u8], sink: &mut S) -> Result<(), Stopped>
    requires { S.failed sink.old < 2 ^ 63 }
    ensures whole { OnOk result (Appends (S.held sink.old) (S.held sink.new) bytes.now) }
    ensures part { OnErr result (AppendsBeginning (S.held sink.old) (S.held sink.new) bytes.now) }
    ensures failures { S.failed sink.new ≡ S.failed sink.old + failure_if_stopped result }
{
    let mut left = bytes;
    while !left.is_empty() {
        match sink.put(left) {
            Ok(0) => return Err(Stopped),
            Ok(taken) => left = &left[taken..],
            Err(Stopped) => return Err(Stopped),
        }
    }
    Ok(())
}

/// A sink over any writer. It counts each fault of a write or a flush, and each write that takes
/// nothing of a piece that is not empty.
#[derive(Drop)]
pub struct Put<W: Write> {
    writer: W,
    failures: u64,
}

impl<W: Write> Put<W> {
    /// A sink with no failures.
    pub fn new(writer: W) -> Put<W>
        ensures writer { writer_under result ≡ writer }
        ensures failures { put_failures result ≡ 0 }
    {
        Put {
            writer,
            failures: 0,
        }
    }

    /// The writer, with all that was put.
    pub fn into_inner(self) -> W
        ensures { result ≡ writer_under self }
    {
        self.writer
    }

    /// Counts a failure, and answers it.
    fn stop(&mut self) -> Stopped
        requires { put_failures self.old < 2 ^ 63 }
        ensures writer { writer_under self.new ≡ writer_under self.old }
        ensures counted { put_failures self.new ≡ put_failures self.old + 1 }
    {
        self.failures += 1;
        Stopped
    }
}

impl<W: Write> Sink for Put<W> {
    // the bytes that the writer holds, where they are known
    ghost held = { λ put. W.contents (writer_under put) };

    ghost failed = { put_failures };

    fn put(&mut self, bytes: &[u8]) -> Result<usize, Stopped> {
        match self.writer.write(bytes) {
            Ok(taken) => {
                if taken == 0 && !bytes.is_empty() {
                    self.failures += 1;
                }
                Ok(taken)
            }
            Err(_) => Err(self.stop()),
        }
    }

    fn flush(&mut self) -> Result<(), Stopped> {
        if self.writer.flush().is_err() {
            return Err(self.stop());
        }
        Ok(())
    }

    fn failures(&self) -> u64 {
        self.failures
    }
}
