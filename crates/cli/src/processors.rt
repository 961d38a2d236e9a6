//! Whether several workers pay on this machine now: not where other programs keep half of its processors busy.
ghost use Rattle.std.specs.Prelude.{◌≡◌, ◌≤◌, min};

use base::limits::MOST_WORKERS;
use scenario::Workers;
use std::fs;
use std::rt::Files;
use std::thread::{Threads, available_parallelism};

/// What Linux reports of its processors, and how many threads run on them now.
const PROCESSORS: &str = "/proc/stat";

/// The control group of this process.
const OWN_GROUP: &str = "/proc/self/cgroup";

/// Where the system keeps its control groups.
const GROUPS: &str = "/sys/fs/cgroup";

/// How many workers a run may have at most: one where at most half of the processors that this process
/// may use are free, since workers that wait for each other take longer there than one alone. Free are
/// those on which no other thread runs now, and as many as the quota of the control group allows. What
/// the system doesn't report is taken for no limit.
pub(crate) fn most_workers<R: Threads + Files + AllocGlobal>(rt: &R) -> Workers {
    let allowed = match available_parallelism(rt) {
        Ok(processors) => processors.get(),
        Err(_) => MOST_WORKERS,
    };
    let idle = idle_processors(rt).unwrap_or(allowed);
    let share = share_of_group(rt).unwrap_or(allowed);
    let free = allowed.min(idle).min(share);
    workers_of(if free <= allowed / 2 { 1 } else { MOST_WORKERS })
}

/// So many workers.
fn workers_of(count: usize) -> Workers
    requires { (1 ≤ count) × (count ≤ 64) }
    ensures { result ≡ count }
{
    match Workers::new(count) {
        Some(workers) => workers,
        None => unreachable!(),
    }
}

/// The lesser number of workers.
pub(crate) fn fewer(workers: Workers, most: Workers) -> Workers
    ensures value { result ≡ min workers most }
    ensures few { result ≤ workers }
{
    if most.count() < workers.count() {
        most
    } else {
        workers
    }
}

/// The processors of the machine on which no other thread runs.
fn idle_processors<R: Files + AllocGlobal>(rt: &R) -> Option<usize> {
    let text = fs::read_to_string(rt, PROCESSORS).ok()?;
    let mut processors = 0usize;
    let mut running = 0usize;
    for line in text.as_str().lines() {
        if let Some(count) = line.strip_prefix("procs_running ") {
            running = count.trim().parse().ok()?;
        } else if line.starts_with("cpu") && !line.starts_with("cpu ") {
            processors = processors.saturating_add(1);
        }
    }
    // this thread runs too
    Some(processors.saturating_sub(running.saturating_sub(1)))
}

/// How many processors the control group of this process may keep busy: the lesser number where it is in groups of both
/// versions.
fn share_of_group<R: Files + AllocGlobal>(rt: &R) -> Option<usize> {
    let own = fs::read_to_string(rt, OWN_GROUP).ok()?;
    let mut share = None;
    for line in own.as_str().lines() {
        if let Some(processors) = share_in(rt, line) {
            share = Some(processors.min(share.unwrap_or(processors)));
        }
    }
    share
}

/// The processors that a group's quota allows. The line names the group: `0::/a/b` one of version 2, `4:cpu,cpuacct:/a/b` one
/// of version 1 that deals out processors.
fn share_in<R: Files + AllocGlobal>(rt: &R, line: &str) -> Option<usize> {
    let (_number, rest) = line.split_once(':')?;
    let (controllers, path) = rest.split_once(':')?;
    if controllers.is_empty() {
        let file = format!(in rt.alloc(); "{GROUPS}{path}/cpu.max").ok()?;
        let most = fs::read_to_string(rt, file.as_str()).ok()?;
        let (limit, period) = most.as_str().trim().split_once(' ')?;
        return quota(limit, period);
    }
    if !controllers.split(',').any(|it| it == "cpu") {
        return None;
    }
    let limit = format!(in rt.alloc(); "{GROUPS}/cpu{path}/cpu.cfs_quota_us").ok()?;
    let period = format!(in rt.alloc(); "{GROUPS}/cpu{path}/cpu.cfs_period_us").ok()?;
    let limit = fs::read_to_string(rt, limit.as_str()).ok()?;
    let period = fs::read_to_string(rt, period.as_str()).ok()?;
    quota(limit.as_str().trim(), period.as_str().trim())
}

/// The processors that a quota allows: the time allowed in each period, and the period. No number, as `max` or `-1`, is no
/// limit. Less than one processor counts as one.
fn quota(limit: &str, period: &str) -> Option<usize> {
    let limit: usize = limit.parse().ok()?;
    let period: usize = period.parse().ok()?;
    Some(limit.checked_div(period)?.max(1))
}
