//! How the end of a drive is reported.
ghost use Rattle.std.specs.Prelude.{◌≡◌};
ghost use Rattle.drive_world.specs.declared.ends.DriveError.TheVariants as error;
ghost use Rattle.drive_command.specs.Ends.{IsToldBy, cause_of};

use base::Fault;
use command_line::{AnswerFault, DriveStop, Failure};
use drive_answers::AnswerError;
use drive_world::{DriveError, Stop};

/// The failure that a drive ended by.
pub(crate) fn drive_failure(error: DriveError) -> Failure<'static>
    ensures { IsToldBy error result }
{
    match error {
        DriveError::Stopped { place, stop, event } => stopped(place, stop, event),
        DriveError::Closed => Failure::Drive(DriveStop::Closed),
        DriveError::Fault(fault) => Failure::Run(fault),
    }
}

/// The failure of an answer that is none. The line of the event is text, as each line that a drive writes.
fn stopped(place: u64, stop: Stop, event: Vec<u8>) -> Failure<'static>
    ensures { IsToldBy (error.Stopped place stop event) result }
{
    let Some(cause) = cause_of(stop) else {
        return Failure::Run(Fault::Memory);
    };
    match String::from_utf8(event) {
        Ok(event) => Failure::Drive(DriveStop::Answer {
            place,
            cause,
            event,
        }),
        Err(_) => Failure::Run(Fault::Memory),
    }
}

/// The cause for which an answer is none; `None` where memory was refused.
fn cause_of(stop: Stop) -> Option<AnswerFault>
    ensures { result ≡ cause_of stop }
{
    match stop {
        Stop::Long => Some(AnswerFault::Long),
        Stop::Ended => Some(AnswerFault::Ended),
        Stop::Answer(AnswerError::Json) => Some(AnswerFault::Json),
        Stop::Answer(AnswerError::Action) => Some(AnswerFault::Action),
        Stop::Answer(AnswerError::Member) => Some(AnswerFault::Member),
        Stop::Answer(AnswerError::Memory) => None,
    }
}
