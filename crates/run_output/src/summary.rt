//! What a caller gets of a run that succeeded: the number of rows in its trace.

/// What a run did.
#[derive(Clone, Copy, Debug, PartialEq, Eq)]
pub struct Summary {
    /// How many rows the trace has, its header not counted.
    pub rows: u64,
}
