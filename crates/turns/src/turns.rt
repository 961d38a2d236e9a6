//! How a round ends: events for other parts reach their queues, and the rows before all that pends are released
//! in row order.
ghost use Rattle.std.specs.Prelude.{◌≡◌, ◌<◌, ◌++◌, map, flat_map, length, IfOk};
ghost use Rattle.scenario.specs.Setup.{member_count};
ghost use Rattle.windows.specs.declared.part.Done.{Done as ADone};
ghost use Rattle.lookahead.specs.Between.{part_number};
ghost use Rattle.turns.specs.Parts.{Came, HaveExchanged};
ghost use Rattle.turns.specs.Course.{IsCourse};

use crate::parts::{deliver, least_moment};
use crate::rows::{Split, in_row_order, join, released, stand_in_order};
use base::{Memory, Moment};
use member::Event;
use scenario::Division;
use std::alloc::Global;
use std::marker::Sync;
use std::thread::Threads;
use trace::Row;
use windows::{Cluster, Done, Part};
use worker_queue::EventQueue;

/// What every turn of a run goes by.
#[derive(Drop)]
pub struct Course<'a> {
    /// Whose run it is.
    pub cluster: Cluster<'a>,
    /// Which part each of its members has.
    pub division: &'a Division,
    /// The last moment at which something happens.
    pub end: Moment,
}

/// What the turns of the cluster's run go by.
pub fn course_of<'a>(cluster: Cluster<'a>, division: &'a Division) -> Course<'a>
    requires divides { length division.now.part_of ≡ member_count cluster.scenario.now }
    requires below { (m : _) → m < member_count cluster.scenario.now → part_number division.now m < division.now.parts }
    ensures course { IsCourse result }
    ensures cluster { result.cluster ≡ cluster.entry }
    ensures division { result.division.now ≡ division.now }
{
    Course {
        cluster,
        division,
        end: cluster.scenario.end(),
    }
}

/// What a turn gives.
#[derive(Drop)]
pub struct Turned<Q: EventQueue<Event>> {
    /// The parts, once what went out has come to them.
    pub parts: Vec<Part<Q>>,
    /// The rows before all that pends, in row order.
    pub rows: Vec<Row>,
    /// The other rows: earlier ones may still come.
    pub kept: Vec<Row>,
}

/// Ends a turn whose windows gave this: lets the events that went out pend in the parts of their
/// receivers, and of all rows, with those that were kept so far, in row order, releases the ones before all
/// that pends.
pub fn exchanged<Q: EventQueue<Event> + Drop>(
    rt: &(impl Threads + Sync),
    alloc: Global,
    done: Vec<Done<Q>>,
    kept: Vec<Row>,
    division: &Division,
) -> Result<Turned<Q>, Memory>
    requires came { Came Q.set division.now done.items }
    ensures { IfOk result (λ turned. HaveExchanged Q.set division.now done.items kept.items turned.parts.items turned.rows.items turned.kept.items) }
{
    let ordered = stand_in_order(&kept, &done);
    let gathered = gather(alloc, done, kept)?;
    let Gathered {
        mut parts,
        out,
        rows,
    } = gathered;
    let rows = in_row_order(rt, alloc, rows, ordered)?;
    deliver(&mut parts, out, division)?;
    let first = least_moment(&parts);
    let split = released(alloc, rows, first)?;
    let Split { rows, kept } = split;
    Ok(Turned { parts, rows, kept })
}

/// What the windows of all parts gave, each kind for itself.
#[derive(Drop)]
struct Gathered<Q: EventQueue<Event>> {
    /// The parts after their windows.
    parts: Vec<Part<Q>>,
    /// The events for members of other parts.
    out: Vec<Event>,
    /// The rows, one window's after another's.
    rows: Vec<Row>,
}

/// Gathers what the windows gave, the rows after those that were kept.
fn gather<Q: EventQueue<Event> + Drop>(
    alloc: Global,
    done: Vec<Done<Q>>,
    kept: Vec<Row>,
) -> Result<Gathered<Q>, Memory>
    ensures parts { IfOk result (λ all. all.parts.items ≡ map (λ (d : ADone Q). d.part) done.items) }
    ensures out { IfOk result (λ all. all.out.items ≡ flat_map (λ (d : ADone Q). d.out.items) done.items) }
    ensures rows { IfOk result (λ all. all.rows.items ≡ kept.items ++ flat_map (λ (d : ADone Q). d.rows.items) done.items) }
{
    let mut parts = Vec::new(alloc);
    let mut out = Vec::new(alloc);
    let mut rows = kept;
    for one in done {
        parts.push(one.part)?;
        join(&mut out, one.out)?;
        join(&mut rows, one.rows)?;
    }
    Ok(Gathered { parts, out, rows })
}
