//! When members learned of a crash.
ghost use Rattle.std.specs.Prelude.{◌≡◌, ℕ, ◌<◌, ◌≤◌, List, None, IfOk, unwrap_or, slice_index_or, count_by, nat_lt, ◌++◌, OnOk};
ghost use Rattle.std.specs.Option.{is_some, option_to_list};
ghost use Rattle.std.specs.Ordering.{nat_cmp};
ghost use Rattle.std.specs.List.Sorted.{IsPermutation, IsSorted};
ghost use Rattle.scenario.specs.Setup.{member_count};
ghost use Rattle.figures.specs.Settings.{rank, at_rank};
ghost use Rattle.series.specs.Watched.{at_by, crashes, crashed};
ghost use Rattle.member_timelines.specs.Run.{IsTold};
ghost use Rattle.run_spread.specs.Spread.{learned, stays, staying, time_of_one, times, last_learned, last_of, longest, reached, shares};

use base::{MemberId, Memory, Moment};
use member_timelines::Run;
use std::alloc::Global;

/// How many steps a line has.
pub(crate) const STEPS: u64 = 120;

/// After which times shares of those who stay had learned of a crash; none where so many never did.
#[derive(Clone, Copy)]
pub(crate) struct ShareTimes {
    /// One of them.
    pub(crate) first: Option<u64>,
    /// 50 percent.
    pub(crate) half: Option<u64>,
    /// 90 percent.
    pub(crate) nine_tenths: Option<u64>,
    /// 99 percent.
    pub(crate) nearly_all: Option<u64>,
    /// All of them.
    pub(crate) all: Option<u64>,
}

/// How those who stay learned of a crash.
#[derive(Drop)]
pub(crate) struct Heard {
    /// How many had by the end of each step.
    pub(crate) reached: Vec<u64>,
    /// After which times shares of them had.
    pub(crate) shares: ShareTimes,
}

/// How those who stay, so many, learned of what happened at a moment, in steps so long; at each
/// member's number stands when it did.
pub(crate) fn news(
    alloc: Global,
    run: &Run,
    moments: &[Option<Moment>],
    from: Moment,
    staying: u64,
    step: u64,
) -> Result<Heard, Memory>
    requires told { IsTold run.now }
    requires few { staying ≤ 16384 }
    ensures reached { IfOk result (λ news. news.reached.items ≡ reached (times run.now.scenario.now (learned moments.now from)) step) }
    ensures shares { IfOk result (λ news. news.shares ≡ shares staying (times run.now.scenario.now (learned moments.now from))) }
{
    let times = times(alloc, run, moments, from)?;
    let reached = reached(alloc, times.as_slice(), step)?;
    let shares = shares(times, staying)?;
    Ok(Heard { reached, shares })
}

/// How long after a moment each of those who stay learned of it.
fn times(
    alloc: Global,
    run: &Run,
    moments: &[Option<Moment>],
    from: Moment,
) -> Result<Vec<u64>, Memory>
    requires { IsTold run.now }
    ensures { IfOk result (λ list. list.items ≡ times run.now.scenario.now (learned moments.now from)) }
{
    let mut times = Vec::new(alloc);
    for number in 0..run.members() {
        let time = time_of_one(run, moments, from, MemberId(number as u16));
        push_some(&mut times, time)?;
    }
    Ok(times)
}

/// Appends a time, where there is one.
fn push_some(times: &mut Vec<u64>, time: Option<u64>) -> Result<(), Memory>
    ensures { OnOk result (times.new.items ≡ times.old.items ++ option_to_list time) }
{
    if let Some(time) = time {
        times.push(time)?;
    }
    Ok(())
}

/// How long after a moment a member learned of it, where it did and stays.
fn time_of_one(run: &Run, moments: &[Option<Moment>], from: Moment, member: MemberId) -> Option<u64>
    requires { member < member_count run.now.scenario.now }
    ensures { result ≡ time_of_one run.now.scenario.now (learned moments.now from) member }
{
    if stays(run, member) {
        return learned(moments, from, member);
    }
    None
}

/// How long after a moment a member learned of it, where it did.
fn learned(moments: &[Option<Moment>], from: Moment, member: MemberId) -> Option<u64>
    ensures { result ≡ learned moments.now from member }
{
    match moment_at(moments, member) {
        Some(at) => Some(at.ticks().saturating_sub(from.ticks())),
        None => None,
    }
}

/// What stands at a member's number.
fn moment_at(moments: &[Option<Moment>], member: MemberId) -> Option<Moment>
    ensures { result ≡ slice_index_or moments.now member None }
{
    match moments.get(member.index()) {
        Some(moment) => *moment,
        None => None,
    }
}

/// How many of these times come before the end of each step.
fn reached(alloc: Global, times: &[u64], step: u64) -> Result<Vec<u64>, Memory>
    ensures { IfOk result (λ counts. counts.items ≡ reached times.now step) }
{
    let mut counts = Vec::new(alloc);
    for place in 0..STEPS {
        counts.push(come_before(times, (place + 1).saturating_mul(step)))?;
    }
    Ok(counts)
}

/// How many of these times come before another.
fn come_before(times: &[u64], end: u64) -> u64
    ensures { result ≡ count_by (λ time. nat_lt time end) times.now }
{
    times.iter().filter(|time| **time < end).count() as u64
}

/// After which of these times shares of so many members had learned of it.
fn shares(times: Vec<u64>, staying: u64) -> Result<ShareTimes, Memory>
    requires { staying ≤ 16384 }
    ensures { IfOk result (λ told. told ≡ shares staying times.items) }
{
    let sorted = sorted(times)?;
    Ok(shares_of(sorted.as_slice(), staying))
}

/// The same of times in rising order.
fn shares_of(times: &[u64], staying: u64) -> ShareTimes
    requires order { IsSorted nat_cmp times.now }
    requires few { staying ≤ 16384 }
    ensures { (given : List ℕ) → IsPermutation given times.now → result ≡ shares staying given }
{
    ShareTimes {
        first: time_at(times, 1),
        half: time_of_share(times, staying, 50),
        nine_tenths: time_of_share(times, staying, 90),
        nearly_all: time_of_share(times, staying, 99),
        all: time_of_share(times, staying, 100),
    }
}

/// These times in rising order.
fn sorted(times: Vec<u64>) -> Result<Vec<u64>, Memory>
    ensures all { IfOk result (λ sorted. IsPermutation times.items sorted.items) }
    ensures order { IfOk result (λ sorted. IsSorted nat_cmp sorted.items) }
{
    let mut times = times;
    times.sort()?;
    Ok(times)
}

/// The time, of these in rising order, by which so many percent of so many members had learned of it.
fn time_of_share(times: &[u64], staying: u64, percent: u64) -> Option<u64>
    requires order { IsSorted nat_cmp times.now }
    requires few { staying ≤ 16384 }
    requires part { percent ≤ 100 }
    ensures { (given : List ℕ) → IsPermutation given times.now → result ≡ at_rank (rank percent staying) given }
{
    time_at(times, ((percent * staying + 99) / 100).max(1) as usize)
}

/// The time of a rank, from 1, of these in rising order.
fn time_at(times: &[u64], rank: usize) -> Option<u64>
    requires order { IsSorted nat_cmp times.now }
    requires from_1 { 1 ≤ rank }
    ensures { (given : List ℕ) → IsPermutation given times.now → result ≡ at_rank rank given }
{
    if rank > times.len() {
        return None;
    }
    Some(times[rank - 1])
}

/// The longest time after which a member learned of a crash that is watched, 0 where none did.
pub(crate) fn longest(run: &Run) -> u64
    requires { IsTold run.now }
    ensures { result ≡ longest run.now.scenario.now run.now.tallies.now }
{
    let mut longest: u64 = 0;
    for number in 0..run.members() {
        longest = longest.max(last_of(run, MemberId(number as u16)));
    }
    longest
}

/// How long after its crash a member was last learned of, where that is watched.
fn last_of(run: &Run, member: MemberId) -> u64
    requires told { IsTold run.now }
    requires within { member < member_count run.now.scenario.now }
    ensures { result ≡ last_of run.now.scenario.now run.now.tallies.now member }
{
    let spread = run.story(member).spread();
    match spread.since() {
        Some(from) => {
            let suspected = last_learned(run, spread.suspected(), from);
            suspected.max(last_learned(run, spread.confirmed(), from))
        }
        None => 0,
    }
}

/// How long after a moment the last member learned of it.
fn last_learned(run: &Run, moments: &[Option<Moment>], from: Moment) -> u64
    requires { IsTold run.now }
    ensures { result ≡ last_learned run.now.scenario.now (learned moments.now from) }
{
    let mut last: u64 = 0;
    for number in 0..run.members() {
        last = last.max(or_at_once(learned(moments, from, MemberId(number as u16))));
    }
    last
}

/// A time, or 0 where there is none.
fn or_at_once(time: Option<u64>) -> u64
    ensures { result ≡ unwrap_or time 0 }
{
    time.unwrap_or(0)
}

/// How many members stay.
pub(crate) fn staying(run: &Run) -> u64
    requires { IsTold run.now }
    ensures value { result ≡ staying run.now.scenario.now }
    ensures few { result ≤ 16384 }
{
    let mut staying = 0;
    for number in 0..run.members() {
        staying += u64::from(stays(run, MemberId(number as u16)));
    }
    staying
}

/// How many members crash by the end.
pub(crate) fn crashed(run: &Run) -> u64
    requires { IsTold run.now }
    ensures { result ≡ crashed run.now.scenario.now (member_count run.now.scenario.now) }
{
    let mut crashed = 0;
    for number in 0..run.members() {
        crashed += u64::from(crashes(run, MemberId(number as u16)));
    }
    crashed
}

/// Whether a member neither crashes nor leaves by the end.
fn stays(run: &Run, member: MemberId) -> bool
    requires { member < member_count run.now.scenario.now }
    ensures { result ≡ stays run.now.scenario.now member }
{
    !crashes(run, member) && !is_by_end(run, run.scenario.leave(member))
}

/// Whether a member crashes by the end.
fn crashes(run: &Run, member: MemberId) -> bool
    requires { member < member_count run.now.scenario.now }
    ensures { result ≡ crashes run.now.scenario.now member }
{
    is_by_end(run, run.scenario.crash(member))
}

/// Whether something happens by the end.
fn is_by_end(run: &Run, at: Option<Moment>) -> bool
    ensures { result ≡ is_some (at_by run.now.scenario.now.end at) }
{
    match at {
        Some(at) => at <= run.scenario.end(),
        None => false,
    }
}
