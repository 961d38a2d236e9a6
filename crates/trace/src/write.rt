//! Writes the trace's header and rows into a sink, 16 lines at a time, and says why a text was not put whole.
ghost use Rattle.std.specs.Prelude.{◌≡◌, ◌+◌, ◌*◌, ◌++◌, ◌<◌, ◌^◌, List, length, min, IfOk, OnOk, OnErr, IfErr, All};
ghost use Rattle.scenario.specs.Setup.{Setup};
ghost use Rattle.std.specs.Io.KnownBytes.{Appends};
ghost use Rattle.trace.specs.declared.row.Row.{Row};
ghost use Rattle.trace.specs.Sinks.{AppendsBeginning, failures_of_write, fault_of_write};
ghost use Rattle.trace.specs.declared.write.WriteError.TheVariants as write_error;
ghost use Rattle.trace.specs.Text.{header, rows_text, NamesMembers};

use crate::lines::{ROOM, lay_lines};
use crate::row::Row;
use crate::sink::{Sink, Stopped, put_all};
use base::{Fault, Memory};
use scenario::Scenario;
use std::alloc::Global;

/// How many lines are laid into memory before they are put: so few that their room stays in a processor's first cache.
const ROWS_AT_ONCE: usize = 16;

/// Why a text was not put whole.
#[derive(Clone, Copy, Debug, PartialEq, Eq, thiserror::Error)]
pub enum WriteError {
    /// Memory was refused.
    #[error("memory was refused")]
    Memory,
    /// The sink stopped, and has counted a failure.
    #[error("the sink stopped")]
    Stopped,
}

impl From<Memory> for WriteError {
    ghost from_gives = { λ _ e. e ≡ write_error.Memory };

    fn from(_memory: Memory) -> Self {
        WriteError::Memory
    }
}

impl From<Stopped> for WriteError {
    ghost from_gives = { λ _ e. e ≡ write_error.Stopped };

    fn from(_stopped: Stopped) -> Self {
        WriteError::Stopped
    }
}

/// A run whose text was not written whole has this fault.
impl From<WriteError> for Fault {
    ghost from_gives = { λ e f. f ≡ fault_of_write e };

    fn from(error: WriteError) -> Self {
        match error {
            WriteError::Memory => Fault::Memory,
            WriteError::Stopped => Fault::Write,
        }
    }
}

/// Puts the header line. It takes no memory, and so stops only where the sink stops: the sink then
/// has got a beginning of the line.
#[tactic(auto, unfolding(crate::specs::Text::header))]
pub fn write_head<S: Sink>(sink: &mut S) -> Result<(), WriteError>
    requires { S.failed sink.old < 2 ^ 63 }
    ensures whole { OnOk result (Appends (S.held sink.old) (S.held sink.new) header) }
    ensures part { OnErr result (AppendsBeginning (S.held sink.old) (S.held sink.new) header) }
    ensures stopped { IfErr result (λ error. error ≡ WriteError.Stopped) }
    ensures failures { S.failed sink.new ≡ S.failed sink.old + failures_of_write result }
{
    put_all(b"moment,member,from,number,what,about,value,lost\n", sink)?;
    Ok(())
}

/// Puts the lines of rows. After either refusal the sink has got a beginning of them. Only members
/// of the scenario's cluster may stand in a row.
pub fn write_rows<S: Sink>(
    alloc: Global,
    rows: &[Row],
    scenario: &Scenario,
    sink: &mut S,
) -> Result<(), WriteError>
    requires named { All (NamesMembers scenario.now) rows.now }
    requires countable { S.failed sink.old < 2 ^ 63 }
    ensures whole { OnOk result (Appends (S.held sink.old) (S.held sink.new) (rows_text scenario.now rows.now)) }
    ensures part { OnErr result (AppendsBeginning (S.held sink.old) (S.held sink.new) (rows_text scenario.now rows.now)) }
    ensures failures { S.failed sink.new ≡ S.failed sink.old + failures_of_write result }
{
    let mut room = room_for(alloc, rows.len())?;
    put_rows(rows, scenario, &mut room, sink)
}

/// Room for the lines of so many rows, as far as they are put at once.
fn room_for(alloc: Global, rows: usize) -> Result<Vec<u8>, Memory>
    ensures { IfOk result (λ room. length room.items ≡ 369 * min rows 16) }
{
    Ok(vec![in alloc; 0; rows.min(ROWS_AT_ONCE) * ROOM]?)
}

/// Puts the lines of rows, laid in this room.
fn put_rows<S: Sink>(
    rows: &[Row],
    scenario: &Scenario,
    room: &mut [u8],
    sink: &mut S,
) -> Result<(), WriteError>
    requires named { All (NamesMembers scenario.now) rows.now }
    requires countable { S.failed sink.old < 2 ^ 63 }
    requires room { length room.old ≡ 369 * min (length rows.now) 16 }
    ensures whole { OnOk result (Appends (S.held sink.old) (S.held sink.new) (rows_text scenario.now rows.now)) }
    ensures part { OnErr result (AppendsBeginning (S.held sink.old) (S.held sink.new) (rows_text scenario.now rows.now)) }
    ensures failures { S.failed sink.new ≡ S.failed sink.old + failures_of_write result }
{
    let mut left = rows;
    while !left.is_empty() {
        let (next, later) = left.split_at(left.len().min(ROWS_AT_ONCE));
        let start = lay_lines(next, scenario, room);
        match put_all(&room[start..], sink) {
            Ok(()) => left = later,
            Err(Stopped) => return Err(WriteError::Stopped),
        }
    }
    Ok(())
}

/// The text of rows that stand one after the other is the one text after the other.
pub fn texts_join()
    ensures { (setup : Setup) (first second : List Row) → rows_text setup (first ++ second) ≡ rows_text setup first ++ rows_text setup second }
{}
