//! Why the entries of a text are refused.
use crate::keys::ScriptList;

/// The first entry that breaks a rule, in the order in which the lists draw.
#[derive(Clone, Copy, Debug, PartialEq, Eq)]
pub struct EntryFault {
    pub list: ScriptList,
    /// The place of the entry in its list, from 0.
    pub place: usize,
}
