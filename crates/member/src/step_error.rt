//! The reasons for which a step is refused, and the fault by which each of them ends the run.
ghost use Rattle.std.specs.Prelude.{◌≡◌};
ghost use Rattle.member.specs.declared.step_error.StepError.TheVariants as step_error;
ghost use Rattle.member.specs.Faults.{fault_of};

use base::{Fault, Memory};
use std::alloc::{AllocError, AllocFailed};

/// Why a step was refused.
#[derive(Clone, Copy, Debug, PartialEq, Eq)]
pub enum StepError {
    /// Memory was refused.
    Memory,
    /// A counter stands at its limit, 2^63, and would have to rise.
    CounterOverflow,
}

impl From<Memory> for StepError {
    ghost from_gives = { λ _ e. e ≡ step_error.Memory };

    fn from(_memory: Memory) -> Self {
        StepError::Memory
    }
}

impl From<AllocError> for StepError {
    ghost from_gives = { λ _ e. e ≡ step_error.Memory };

    fn from(_error: AllocError) -> Self {
        StepError::Memory
    }
}

impl<T: Drop> From<AllocFailed<T>> for StepError {
    ghost from_gives = { λ _ e. e ≡ step_error.Memory };

    fn from(_error: AllocFailed<T>) -> Self {
        StepError::Memory
    }
}

impl From<StepError> for Fault {
    ghost from_gives = { λ e f. f ≡ fault_of e };

    fn from(error: StepError) -> Self {
        match error {
            StepError::Memory => Fault::Memory,
            StepError::CounterOverflow => Fault::CounterOverflow,
        }
    }
}
