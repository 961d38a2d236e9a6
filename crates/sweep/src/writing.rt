//! The lines of the table, one for each run.
ghost use Rattle.std.specs.Prelude.{◌≢◌, ◌≡◌, ◌<◌, ◌^◌, ◌+◌, ◌++◌, ◌∷◌, [], ℕ, List, OnOk, OnErr, IfErr};
ghost use Rattle.std.specs.Io.KnownBytes.{Appends};
ghost use Rattle.trace.specs.Sinks.{AppendsBeginning, failures_of_write};
ghost use Rattle.run_output.specs.Written.{sink_failures};
ghost use Rattle.figures.specs.Notes.{Note};

use crate::gathering::Gather;
use crate::making::MadeRun;
use base::Fault;
use std::alloc::Global;
use trace::{Sink, WriteError, put_all};

/// Appends the line of a run to the table, and gathers what its setting keeps of it. After a fault the
/// table has got a beginning of the line.
///
/// Faults: `Memory` where what is kept finds no room; `Write` where the sink failed.
pub fn write_line<S: Sink, G: Gather>(
    alloc: Global,
    run: &MadeRun,
    gathering: &mut G,
    table: &mut S,
) -> Result<(), Fault>
    requires { S.failed table.old < 2 ^ 63 }
    ensures whole { OnOk result (Appends (S.held table.old) (S.held table.new) run.now.line.items) }
    ensures gathered { OnOk result ((each : ℕ) (notes : List Note) → G.has gathering.old each notes → G.has gathering.new each (notes ++ run.now.note ∷ [])) }
    ensures part { OnErr result (AppendsBeginning (S.held table.old) (S.held table.new) run.now.line.items) }
    ensures causes { IfErr result (λ fault. (fault ≢ Fault.CounterOverflow) × (fault ≢ Fault.ThreadLost)) }
    ensures failures { S.failed table.new ≡ S.failed table.old + sink_failures result }
{
    gathering.add(alloc, &run.note)?;
    put_line(&run.line, table)?;
    Ok(())
}

/// Puts a line.
fn put_line<S: Sink>(line: &[u8], table: &mut S) -> Result<(), WriteError>
    requires { S.failed table.old < 2 ^ 63 }
    ensures whole { OnOk result (Appends (S.held table.old) (S.held table.new) line.now) }
    ensures part { OnErr result (AppendsBeginning (S.held table.old) (S.held table.new) line.now) }
    ensures failures { S.failed table.new ≡ S.failed table.old + failures_of_write result }
{
    put_all(line, table)?;
    Ok(())
}
