//! How many workers make the runs of a sweep.
ghost use Rattle.std.specs.Prelude.{◌≤◌, option_map, IfOk, IfErr};
ghost use Rattle.command_line.specs.Failures.{RefusesWorkers};
ghost use Rattle.sweep_command.specs.Outcomes.{MakeRuns};

use base::limits::MOST_WORKERS;
use command_line::{Failure, workers_asked};
use scenario::Workers;
use std::thread::{Threads, available_parallelism};

/// How many workers make the runs of a sweep: as many as the word asks for. With no word it is one for
/// each processor, 64 at most, and one where their number isn't known.
///
/// Failure: `Workers` where the word isn't a number of 1 to 64 in decimal, without sign or leading zero.
pub(crate) fn sweep_workers(
    rt: &impl Threads,
    word: Option<&str>,
) -> Result<Workers, Failure<'static>>
    ensures asked { IfOk result (MakeRuns (option_map (λ text. text.now) word.entry)) }
    ensures refused { IfErr result (RefusesWorkers (option_map (λ text. text.now) word.entry)) }
{
    match word {
        Some(_) => workers_asked(word),
        None => Ok(one_for_each_processor(rt)),
    }
}

/// One worker for each processor, 64 at most; one where the number of processors isn't known.
fn one_for_each_processor(rt: &impl Threads) -> Workers
    ensures { (1 ≤ result) × (result ≤ 64) }
{
    let processors = match available_parallelism(rt) {
        Ok(processors) => processors.get(),
        Err(_) => 1,
    };
    match Workers::new(processors.min(MOST_WORKERS)) {
        Some(workers) => workers,
        None => unreachable!(),
    }
}
