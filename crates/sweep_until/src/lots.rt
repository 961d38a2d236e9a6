//! The runs of a setting, some at a time, side by side.
ghost use Rattle.std.specs.Prelude.{◌≡◌, ◌<◌, ◌≤◌, ◌^◌, ◌+◌, List, OnErr, IfOk, IfErr};
ghost use Rattle.toml.specs.View.{view};
ghost use Rattle.sweep_plan.specs.Sweep.{run_count};
ghost use Rattle.run_output.specs.Written.{sink_failures};
ghost use Rattle.figures.specs.Notes.{Note};
ghost use Rattle.sweep.specs.Judged.{AreAccepted};
ghost use Rattle.sweep.specs.Runs.{IsAskedFor};
ghost use Rattle.sweep.specs.Shares.{AreShares};
ghost use Rattle.sweep.specs.Table.{Course, HasCause};
ghost use Rattle.sweep_until.specs.Until.{BeginsWide, GoesOn, HasGone};

use crate::runs::SettingRuns;
use base::Fault;
use sequential_run::the_run_is_one;
use std::alloc::Global;
use std::marker::Sync;
use std::thread::Threads;
use sweep::{Progress, Share, make_side_by_side, write_line};
use sweep_plan::Plan;
use toml::Value;
use trace::Sink;

/// Makes the runs of a setting from one number to before another, which are those of these shares, side by side, and writes their
/// lines up to the first run with which the interval is narrow enough. Answers the number of the run after the last that
/// was written; what was made beyond is thrown away.
pub(crate) fn make_lot<S: Sink, P: Progress>(
    rt: &(impl Threads + Sync),
    alloc: Global,
    plan: &Plan,
    key: &[u8],
    width: u64,
    document: &Value,
    shares: &[Share],
    from: usize,
    till: usize,
    progress: &P,
    runs: &mut SettingRuns,
    table: &mut S,
) -> Result<usize, Fault>
    requires asked { IsAskedFor plan.now }
    requires judged { AreAccepted (view document.now) plan.now }
    requires most { width ≤ 100 }
    requires some { from < till }
    requires shared { AreShares from till shares.now }
    requires within { till ≤ run_count plan.now }
    requires countable { S.failed table.old < 2 ^ 63 }
    ensures whole { IfOk result (λ next. (before : List Note) (course : Course) → course.key ≡ key.now → GoesOn (view document.now) plan.now width before course (S.held table.old) runs.old from
        → HasGone (view document.now) plan.now width before course (S.held table.new) runs.new next) }
    ensures further { IfOk result (λ next. from < next) }
    ensures bounded { IfOk result (λ next. next ≤ till) }
    ensures part { OnErr result ((before : List Note) (course : Course) → course.key ≡ key.now → till ≤ course.till → GoesOn (view document.now) plan.now width before course (S.held table.old) runs.old from
        → BeginsWide (view document.now) plan.now width before course (S.held table.new)) }
    ensures causes { IfErr result (HasCause (view document.now) plan.now) }
    ensures failures { S.failed table.new ≡ S.failed table.old + sink_failures result }
{
    the_run_is_one();
    let lot = make_side_by_side(rt, alloc, plan, key, document, shares, progress)?;
    let mut past = from;
    for made in lot {
        let run = made?;
        write_line(alloc, &run, runs, table)?;
        past += 1;
        if runs.is_narrow(width) {
            return Ok(past);
        }
    }
    Ok(past)
}
