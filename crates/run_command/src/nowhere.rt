//! Where a report goes that nobody asked for.
ghost use Rattle.std.specs.Prelude.{None};

use trace::{Sink, Stopped};

/// A sink that takes everything, keeps nothing, and never fails.
#[derive(Clone, Copy, Debug, PartialEq, Eq)]
pub(crate) struct Nowhere;

impl Sink for Nowhere {
    ghost held = { λ _. None };

    ghost failed = { λ _. 0 };

    fn put(&mut self, bytes: &[u8]) -> Result<usize, Stopped> {
        Ok(bytes.len())
    }

    fn flush(&mut self) -> Result<(), Stopped> {
        Ok(())
    }

    fn failures(&self) -> u64 {
        0
    }
}
