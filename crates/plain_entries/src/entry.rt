//! An entry of one of the six lists, as it is written.
use crate::who::Who;

/// An entry of one of the six lists: whom it is about, and when.
#[derive(Debug, Drop)]
pub struct Entry<W> {
    pub who: Who,
    pub when: W,
}
