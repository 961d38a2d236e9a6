//! Why a word says no number of ticks.

/// Why a word says no number of ticks.
#[derive(Clone, Copy, Debug, PartialEq, Eq)]
pub enum LengthFault {
    /// It is no length.
    NoLength,
    /// It is a length, and no whole number of ticks.
    PartTick,
    /// It is a whole number of ticks, and too large; or, of a tick, no length that a tick may have.
    OutOfRange,
}
