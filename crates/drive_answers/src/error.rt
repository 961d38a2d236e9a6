//! Why a line is no answer.
ghost use Rattle.std.specs.Prelude.{◌≡◌};
ghost use Rattle.drive_answers.specs.declared.error.AnswerError.TheVariants as cause;

use std::alloc::{AllocError, AllocFailed};
use thiserror::Error;

/// Why a line is no answer: of several causes the first in this order, and of several actions the first.
#[derive(Clone, Copy, Debug, PartialEq, Eq, Drop, Error)]
pub enum AnswerError {
    /// Memory was refused.
    #[error("memory was refused")]
    Memory,
    /// The line is no JSON.
    #[error("json")]
    Json,
    /// It is no list, or the item at this place is no action.
    #[error("action")]
    Action,
    /// The action at this place names nobody whom it could name.
    #[error("member")]
    Member,
}

impl From<AllocError> for AnswerError {
    ghost from_gives = { λ _ e. e ≡ cause.Memory };

    fn from(_error: AllocError) -> Self {
        AnswerError::Memory
    }
}

impl<T: Drop> From<AllocFailed<T>> for AnswerError {
    ghost from_gives = { λ _ e. e ≡ cause.Memory };

    fn from(_error: AllocFailed<T>) -> Self {
        AnswerError::Memory
    }
}
