//! All members that get a lane, chosen from the rows and the scenario, and sorted.
ghost use Rattle.std.specs.Prelude.{◌≡◌, ◌-◌, ◌<◌, ◌≤◌, ◌==◌, ◌^◌, ◌++◌, IfOk, OnOk, All, min};
ghost use Rattle.std.specs.Option.{option_to_list};
ghost use Rattle.std.specs.List.{list_any};
ghost use Rattle.std.specs.List.Sorted.{IsPermutation, IsSorted};
ghost use Rattle.scenario.specs.Setup.{member_count};
ghost use Rattle.member_timelines.specs.Run.{IsTold};
ghost use Rattle.member_timelines.specs.Wrongly.{times_out};
ghost use Rattle.member_timelines.specs.Choice.{choice, choices, accused_in, times_accused, departs, is_ever_slow, is_ever_blocked};

use super::Chosen;
use crate::claims::times_out;
use crate::run::Run;
use base::{MemberId, Memory};
use scenario::{Pause, Restart, Slow};
use std::alloc::Global;

/// All members that get a lane, in order: those that were ever suspected or confirmed to have failed,
/// and those that the scenario has crash, leave, start again, be slow, be paused or be blocked.
pub fn all_chosen(alloc: Global, run: &Run) -> Result<Vec<Chosen>, Memory>
    requires { IsTold run.now }
    ensures all { IfOk result (λ all. IsPermutation (choices run.now.scenario.now run.now.tallies.now) all.items) }
    ensures order { IfOk result (λ all. IsSorted ⟦<Chosen as Ord>⟧.cmp all.items) }
    ensures members { IfOk result (λ all. All (λ lane. lane.member < member_count run.now.scenario.now) all.items) }
{
    let all = unordered(alloc, run)?;
    let lanes = sorted(all)?;
    Ok(lanes)
}

/// The same in the order of their numbers.
fn unordered(alloc: Global, run: &Run) -> Result<Vec<Chosen>, Memory>
    requires { IsTold run.now }
    ensures { IfOk result (λ all. all.items ≡ choices run.now.scenario.now run.now.tallies.now) }
{
    let wrongly = times_out(alloc, run)?;
    let mut all = Vec::new(alloc);
    for number in 0..run.members() {
        push_some(&mut all, chosen(run, number as u16, wrongly[number]))?;
    }
    Ok(all)
}

/// Appends a member that gets a lane, where there is one.
fn push_some(all: &mut Vec<Chosen>, lane: Option<Chosen>) -> Result<(), Memory>
    ensures { OnOk result (all.new.items ≡ all.old.items ++ option_to_list lane) }
{
    if let Some(lane) = lane {
        all.push(lane)?;
    }
    Ok(())
}

/// These in their order.
fn sorted(all: Vec<Chosen>) -> Result<Vec<Chosen>, Memory>
    ensures all { IfOk result (λ sorted. IsPermutation all.items sorted.items) }
    ensures order { IfOk result (λ sorted. IsSorted ⟦<Chosen as Ord>⟧.cmp sorted.items) }
{
    let mut all = all;
    all.sort()?;
    Ok(all)
}

/// A member that was wrongly confirmed so often to have failed, where it gets a lane.
fn chosen(run: &Run, number: u16, wrongly: u64) -> Option<Chosen>
    requires told { IsTold run.now }
    requires within { number < member_count run.now.scenario.now }
    requires wrongly { wrongly ≡ times_out run.now.scenario.now run.now.tallies.now number }
    ensures { result ≡ choice run.now.scenario.now run.now.tallies.now number }
{
    let member = MemberId(number);
    let accused = times_accused(run, member);
    let departs = departs(run, member);
    if accused > 0
        || departs < u64::MAX
        || is_ever_slow(run, member)
        || is_ever_blocked(run, member)
    {
        return Some(Chosen {
            below_most: u64::MAX - wrongly,
            departs,
            below_most_suspected: u64::MAX - accused,
            member: number,
        });
    }
    None
}

/// How often members came to suspect a member, or declared it dead, as far as 64 bits hold it.
fn times_accused(run: &Run, member: MemberId) -> u64
    requires told { IsTold run.now }
    requires within { member < member_count run.now.scenario.now }
    ensures { result ≡ times_accused run.now.scenario.now run.now.tallies.now member }
{
    let mut times: u64 = 0;
    for span in 0..run.spans() {
        times = times.saturating_add(accused_in(run, member, span));
    }
    times
}

/// How often they did so in a span.
fn accused_in(run: &Run, member: MemberId, span: usize) -> u64
    requires told { IsTold run.now }
    requires within { member < member_count run.now.scenario.now }
    requires few { span < 120 }
    ensures { result ≡ min (accused_in run.now.scenario.now run.now.tallies.now member span) (2 ^ 64 - 1) }
{
    let claims = run.story(member).claims();
    claims.came(1, span).saturating_add(claims.came(2, span))
}

/// When a member first departs by the scenario's end, past all moments where it doesn't.
fn departs(run: &Run, member: MemberId) -> u64
    requires { member < member_count run.now.scenario.now }
    ensures { result ≡ departs run.now.scenario.now member }
{
    match run.first_departure(member) {
        Some(at) => at.ticks(),
        None => u64::MAX,
    }
}

/// Whether the scenario has the member be slow or paused.
fn is_ever_slow(run: &Run, member: MemberId) -> bool
    ensures { result ≡ is_ever_slow run.now.scenario.now member }
{
    has_slow(run.scenario.slows(), member) || has_pause(run.scenario.pauses(), member)
}

/// Whether it has it be blocked, or start again.
fn is_ever_blocked(run: &Run, member: MemberId) -> bool
    ensures { result ≡ is_ever_blocked run.now.scenario.now member }
{
    has_pause(run.scenario.blocks(), member) || has_restart(run.scenario.restarts(), member)
}

/// Whether one of these restarts is a member's.
fn has_restart(restarts: &[Restart], member: MemberId) -> bool
    ensures { result ≡ list_any (λ restart. restart.member == member) restarts.now }
{
    restarts.iter().any(|restart| restart.member == member)
}

/// Whether one of these times is a member's.
fn has_slow(slows: &[Slow], member: MemberId) -> bool
    ensures { result ≡ list_any (λ slow. slow.member == member) slows.now }
{
    slows.iter().any(|slow| slow.member == member)
}

/// Whether one of these pauses is a member's.
fn has_pause(pauses: &[Pause], member: MemberId) -> bool
    ensures { result ≡ list_any (λ pause. pause.member == member) pauses.now }
{
    pauses.iter().any(|pause| pause.member == member)
}
