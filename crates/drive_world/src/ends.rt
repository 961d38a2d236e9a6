//! How a drive ends before the end of its scenario.
ghost use Rattle.std.specs.Prelude.{◌≡◌};
ghost use Rattle.base.specs.declared.fault.Fault.TheVariants as fault;
ghost use Rattle.drive_world.specs.declared.ends.DriveError.TheVariants as error;
ghost use Rattle.drive_world.specs.Ends.{error_of};

use base::{Fault, Memory};
use drive_answers::AnswerError;
use std::alloc::AllocError;

/// Why an answer is none, by the first cause that holds.
#[derive(Clone, Copy, Debug, PartialEq, Eq, Drop)]
pub enum Stop {
    /// The line has no line feed among the bytes that it may have.
    Long,
    /// The text ended before the line feed.
    Ended,
    /// What the line says is no answer.
    Answer(AnswerError),
}

/// Why a drive ended before the end of its scenario.
#[derive(Debug, PartialEq, Eq, Drop)]
pub enum DriveError {
    /// The answer at this place, counted from 1, is none; the line of its event, without the line feed.
    Stopped {
        place: u64,
        stop: Stop,
        event: Vec<u8>,
    },
    /// Nothing more can be sent to the harness.
    Closed,
    /// A fault, as of a run.
    Fault(Fault),
}

/// Why a drive halts, where that is no fault.
#[derive(Debug, PartialEq, Eq, Drop)]
pub(crate) enum Halt {
    /// The answer at this place is none; the line of its event.
    Stopped {
        place: u64,
        stop: Stop,
        event: Vec<u8>,
    },
    /// Nothing more can be sent to the harness.
    Closed,
}

/// The error that a drive ends by which halts.
pub(crate) fn error_of(halt: Halt) -> DriveError
    ensures { result ≡ error_of halt }
{
    match halt {
        Halt::Stopped { place, stop, event } => DriveError::Stopped { place, stop, event },
        Halt::Closed => DriveError::Closed,
    }
}

impl From<Fault> for DriveError {
    ghost from_gives = { λ cause e. e ≡ error.Fault cause };

    fn from(fault: Fault) -> Self {
        DriveError::Fault(fault)
    }
}

impl From<Memory> for DriveError {
    ghost from_gives = { λ _ e. e ≡ error.Fault fault.Memory };

    fn from(_memory: Memory) -> Self {
        DriveError::Fault(Fault::Memory)
    }
}

impl From<AllocError> for DriveError {
    ghost from_gives = { λ _ e. e ≡ error.Fault fault.Memory };

    fn from(_error: AllocError) -> Self {
        DriveError::Fault(Fault::Memory)
    }
}
