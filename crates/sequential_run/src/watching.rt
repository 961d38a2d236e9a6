//! How far a run has come.

use base::Moment;

/// Gets how far a run has come.
pub trait RunWatch {
    /// All that happens before this moment has happened, in a run that goes up to `end`. It is called again and again, each time
    /// with a later moment, and at last with one past the end.
    fn has_come(&mut self, moment: Moment, end: Moment);
}

/// Nothing is done with it.
#[derive(Drop)]
pub struct Unwatched;

impl RunWatch for Unwatched {
    fn has_come(&mut self, _moment: Moment, _end: Moment) {}
}
