//! Turns the error of a step into the fault of a run: a counter overflow, or refused memory.
ghost use Rattle.std.specs.Prelude.{◌≡◌, ◌≢◌, ◌⊎◌, Ok, IfOk, IfErr, IsErrOf};

use base::Fault;
use member::StepError;

/// What came of steps, their error as the fault of a run: a counter overflow is reported as that, and want of memory as that.
pub fn with_run_fault<T: Drop>(came: Result<T, StepError>) -> Result<T, Fault>
    ensures ok { IfOk result (λ value. came ≡ Ok value) }
    ensures overflow { IsErrOf result Fault.CounterOverflow → IsErrOf came StepError.CounterOverflow }
    ensures memory { IsErrOf result Fault.Memory → IsErrOf came StepError.Memory }
    ensures faults { IfErr result (λ fault. (fault ≡ Fault.Memory) ⊎ (fault ≡ Fault.CounterOverflow)) }
    ensures write { IfErr result (λ fault. fault ≢ Fault.Write) }
{
    match came {
        Ok(value) => Ok(value),
        Err(StepError::Memory) => Err(Fault::Memory),
        Err(StepError::CounterOverflow) => Err(Fault::CounterOverflow),
    }
}
