//! A sink over memory, which fails where a test wants it to.

ghost use Rattle.std.specs.Prelude.{◌≡◌, ◌+◌, ◌<◌, ◌≤◌, ◌^◌, [], Some, IfOk, is_err};
ghost use Rattle.trace.specs.Memory.{memory_bytes, memory_failures, puts_so_far, faults_of, no_faults, fails_at_flush};
ghost use Rattle.trace.specs.Sinks.{failure_if_stopped};
ghost use Rattle.trace.specs.Memory.{with_failing_put, with_room, with_failing_flush, with_short_puts, with_zeros};

use crate::sink::{Sink, Stopped};
use std::alloc::Global;

/// Where a sink over memory fails.
#[derive(Clone, Copy)]
struct Faults {
    /// How many puts there were.
    puts: u64,
    /// The number of the put that fails, from 1.
    put: Option<u64>,
    /// How many bytes it still takes.
    room: Option<usize>,
    /// Whether its flushes fail.
    flush: bool,
    /// Whether a put takes no more than one byte.
    short: bool,
    /// Whether a put that fails answers 0 in place of `Stopped`.
    zero: bool,
}

/// A sink that holds its bytes in memory. It fails where it was set to, and where memory is
/// refused.
#[derive(Drop)]
pub struct MemorySink {
    bytes: Vec<u8>,
    failures: u64,
    faults: Faults,
}

impl MemorySink {
    /// An empty sink, which takes all that it is given.
    pub fn new(alloc: Global) -> MemorySink
        ensures bytes { memory_bytes result ≡ [] }
        ensures failures { memory_failures result ≡ 0 }
        ensures faults { faults_of result ≡ no_faults }
    {
        MemorySink {
            bytes: Vec::new(alloc),
            failures: 0,
            faults: Faults {
                puts: 0,
                put: None,
                room: None,
                flush: false,
                short: false,
                zero: false,
            },
        }
    }

    /// The same sink, whose put of this number, from 1, fails. Those after it do not.
    pub fn failing_at_put(mut self, number: u64) -> MemorySink
        ensures { result ≡ with_failing_put self number }
    {
        self.faults.put = Some(number);
        self
    }

    /// The same sink, which takes no more than this many bytes from now on.
    pub fn failing_after(mut self, bytes: usize) -> MemorySink
        ensures { result ≡ with_room self bytes }
    {
        self.faults.room = Some(bytes);
        self
    }

    /// The same sink, whose flushes fail.
    pub fn failing_at_flush(mut self) -> MemorySink
        ensures { result ≡ with_failing_flush self }
    {
        self.faults.flush = true;
        self
    }

    /// The same sink, which takes no more than one byte a put.
    pub fn with_short_puts(mut self) -> MemorySink
        ensures { result ≡ with_short_puts self }
    {
        self.faults.short = true;
        self
    }

    /// The same sink, whose puts that fail answer 0 in place of `Stopped`.
    pub fn answering_zero(mut self) -> MemorySink
        ensures { result ≡ with_zeros self }
    {
        self.faults.zero = true;
        self
    }

    /// What it holds.
    pub fn bytes(&self) -> &[u8]
        ensures { result.now ≡ memory_bytes self.now }
    {
        self.bytes.as_slice()
    }

    /// How many puts there were.
    pub fn puts(&self) -> u64
        ensures { result ≡ puts_so_far self.now }
    {
        self.faults.puts
    }

    /// How many bytes of a piece of this length the next put takes, where it does not fail.
    fn share(&self, length: usize) -> usize
        ensures { result ≤ length }
    {
        let most = if self.faults.short {
            length.min(1)
        } else {
            length
        };
        match self.faults.room {
            Some(room) => most.min(room),
            None => most,
        }
    }

    /// Counts a failure, and answers it.
    fn fail(&mut self) -> Result<usize, Stopped>
        requires { memory_failures self.old < 2 ^ 63 }
        ensures bytes { memory_bytes self.new ≡ memory_bytes self.old }
        ensures counted { memory_failures self.new ≡ memory_failures self.old + 1 }
        ensures none { IfOk result (λ taken. taken ≡ 0) }
    {
        self.failures += 1;
        if self.faults.zero {
            Ok(0)
        } else {
            Err(Stopped)
        }
    }
}

impl Sink for MemorySink {
    ghost held = { λ sink. Some (memory_bytes sink) };

    ghost failed = { memory_failures };

    fn put(&mut self, bytes: &[u8]) -> Result<usize, Stopped> {
        let faults = &mut self.faults;
        faults.puts = faults.puts.saturating_add(1);
        let is_due = faults.put == Some(faults.puts);
        if bytes.is_empty() {
            return Ok(0);
        }
        let taken = self.share(bytes.len());
        if is_due || taken == 0 {
            return self.fail();
        }
        match self.bytes.extend_from_slice(&bytes[..taken]) {
            Ok(()) => {
                self.faults.room = self.faults.room.map(|room| room.saturating_sub(taken));
                Ok(taken)
            }
            Err(_) => self.fail(),
        }
    }

    fn flush(&mut self) -> Result<(), Stopped>
        requires { memory_failures self.old < 2 ^ 63 }
        ensures same { memory_bytes self.new ≡ memory_bytes self.old }
        ensures failures { memory_failures self.new ≡ memory_failures self.old + failure_if_stopped result }
        ensures planned { is_err result ≡ fails_at_flush self.old }
    {
        if self.faults.flush {
            self.failures += 1;
            return Err(Stopped);
        }
        Ok(())
    }

    fn failures(&self) -> u64 {
        self.failures
    }
}
