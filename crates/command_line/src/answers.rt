//! Why a drive was stopped, and what users see of it.
ghost use Rattle.std.specs.Prelude.{◌≡◌};
ghost use Rattle.std.specs.Fmt.{WritesOnOk};
ghost use Rattle.command_line.specs.Failures.{answer_cause, answer_message, answer_reason, is_closed, stop_message, stop_status};

use std::fmt;

/// Why an answer of a drive's harness is none, by the first cause that holds.
#[derive(Clone, Copy, Debug, PartialEq, Eq)]
pub enum AnswerFault {
    /// It has no line feed among the bytes that it may have.
    Long,
    /// Standard input ended before its line feed, or can't be read.
    Ended,
    /// It is no JSON.
    Json,
    /// It is no list, or an item of it is no action.
    Action,
    /// A member that it names is none, or a message goes to its sender.
    Member,
}

/// Why a drive was stopped.
#[derive(Debug, Drop, PartialEq, Eq)]
pub enum DriveStop {
    /// An answer is none: its place, counted from 1, why, and the line of the event that it was to answer, without the
    /// line feed.
    Answer {
        place: u64,
        cause: AnswerFault,
        event: String,
    },
    /// Standard output was closed.
    Closed,
}

/// The exit status of a drive that was stopped so.
pub(crate) fn stop_status(stop: &DriveStop) -> u8
    ensures { result ≡ stop_status stop.now }
{
    match stop {
        DriveStop::Answer { .. } => 6,
        DriveStop::Closed => 1,
    }
}

/// Whether a drive was stopped where standard output was closed.
pub(crate) fn is_closed(stop: &DriveStop) -> bool
    ensures { result ≡ is_closed stop.now }
{
    match stop {
        DriveStop::Answer { .. } => false,
        DriveStop::Closed => true,
    }
}

/// Writes why a drive was stopped.
pub(crate) fn write_stop<W: fmt::Write>(f: &mut fmt::Formatter<W>, stop: &DriveStop) -> fmt::Result
    ensures { WritesOnOk W.write_str_gives f.old result (stop_message stop.now) f.new }
{
    match stop {
        DriveStop::Answer {
            place,
            cause,
            event,
        } => write_answer(f, *place, *cause, event),
        DriveStop::Closed => f.write_str("output"),
    }
}

/// Writes which answer is none and for which cause, why, and the line of the event.
fn write_answer<W: fmt::Write>(
    f: &mut fmt::Formatter<W>,
    place: u64,
    cause: AnswerFault,
    event: &str,
) -> fmt::Result
    ensures { WritesOnOk W.write_str_gives f.old result (answer_message place cause event.now) f.new }
{
    let word = answer_cause(cause);
    let reason = answer_reason(cause);
    write!(f, "answer {place} {word}\n{reason}\n{event}")
}

/// The word by which users know the cause.
fn answer_cause(fault: AnswerFault) -> &'static str
    ensures { result.now ≡ answer_cause fault }
{
    match fault {
        AnswerFault::Long => "long",
        AnswerFault::Ended => "ended",
        AnswerFault::Json => "json",
        AnswerFault::Action => "action",
        AnswerFault::Member => "member",
    }
}

/// The cause in words.
fn answer_reason(fault: AnswerFault) -> &'static str
    ensures { result.now ≡ answer_reason fault }
{
    match fault {
        AnswerFault::Long => "no line feed among the first 1,048,577 bytes",
        AnswerFault::Ended => "standard input ended, or can't be read, before the line feed",
        AnswerFault::Json => "the line is no JSON",
        AnswerFault::Action => "the line is no list of actions (docs/DRIVE.md)",
        AnswerFault::Member => "'to' or 'about' names no member, or 'to' the member itself",
    }
}
