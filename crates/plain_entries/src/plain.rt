//! A plain entry: one member, at one time.
use base::MemberId;

/// A plain entry, of the text's entry at a place of its list. All else is as that entry says.
#[derive(Clone, Copy, Debug)]
pub struct Plain<T> {
    /// The place of the text's entry in its list, from 0.
    pub entry: usize,
    pub member: MemberId,
    pub time: T,
    /// Whether `every` made it.
    pub again: bool,
}
