//! What is round a command, as values.

use reasons::FileReason;

/// What the system says of the files that a command names.
pub trait Surroundings {
    /// What is wrong with the file of a name that the system refused to let a command read, or else make.
    fn file_reason<'a>(&self, name: &'a str, is_read: bool) -> FileReason<'a>;

    /// Whether two names stand for one file, or would where it is made.
    fn are_one(&self, name: &str, other: &str) -> bool;

    /// Whether the file of a name gives the same bytes each time that it is read: no pipe and no device.
    fn can_read_again(&self, name: &str) -> bool;
}
