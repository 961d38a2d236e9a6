//! The window of a part in a round.
ghost use Rattle.std.specs.Prelude.{◌≡◌, ◌⊎◌, ◌+◌, ◌≤◌, [], IfOk, IfErr, OnOk};
ghost use Rattle.windows.specs.WorldOf.{world_of};
ghost use Rattle.windows.specs.Window.{IsConsistentPart};
ghost use Rattle.windows.specs.Wears.{OverflowsInWindow};
ghost use Rattle.lookahead_windows.specs.Basis.{basis_of, GoBy};
ghost use Rattle.lookahead_windows.specs.Windows.{HasRan, ran_in};

use crate::course::Rounds;
use crate::firsts::least_after;
use crate::outgoing::{begin_lists, deal};
use base::{Fault, Moment};
use member::{Effects, Event};
use std::alloc::Global;
use windows::{Part, nothing, with_run_fault};
use worker_queue::EventQueue;

/// The lists of a part's windows. Handed in again and again, they grow once for many windows.
#[derive(Drop)]
pub struct WindowLists {
    /// The rows of a window, in the order made, and what goes out, until it is dealt.
    pub made: Effects,
    /// The events that went out, for each part those for its members.
    pub out: Vec<Vec<Event>>,
    // what one step makes
    spare: Effects,
}

impl WindowLists {
    /// Empty lists. They take no memory.
    pub fn new(alloc: Global) -> Self
        ensures rows { result.made.rows.items ≡ [] }
        ensures out { result.out.items ≡ [] }
    {
        WindowLists {
            made: nothing(alloc),
            out: Vec::new(alloc),
            spare: nothing(alloc),
        }
    }
}

/// Runs the window of a part below the bound. The lists then hold what went out and the rows, and nothing of what they held
/// before. Returns the least moment of what pends in the part, or went out.
///
/// Faults: `Memory`; `CounterOverflow` where a counter of the window would pass 2^63. The part is of no use then.
pub fn run_window<Q: EventQueue<Event> + Drop>(
    alloc: Global,
    part: &mut Part<Q>,
    bound: Moment,
    rounds: &Rounds,
    lists: &mut WindowLists,
) -> Result<Option<Moment>, Fault>
    requires rounds { GoBy rounds.now }
    requires in_time { bound ≤ rounds.now.cluster.scenario.now.end + 1 }
    requires consistent { IsConsistentPart rounds.now.cluster.scenario.now (world_of Q.set part.old) }
    ensures ran { IfOk result (λ least. HasRan Q.set (basis_of rounds.now) bound (world_of Q.set part.old) (ran_in part.new bound lists.new least)) }
    ensures number { OnOk result (part.new.number ≡ part.old.number) }
    ensures fault { IfErr result (λ fault. (fault ≡ Fault.Memory) ⊎ ((fault ≡ Fault.CounterOverflow) × OverflowsInWindow rounds.now.cluster.scenario.now bound (world_of Q.set part.old))) }
{
    lists.made.events.clear();
    lists.made.rows.clear();
    begin_lists(alloc, &mut lists.out, rounds.division.parts())?;
    let ran = part.run_window(
        alloc,
        bound,
        rounds.cluster,
        &mut lists.spare,
        &mut lists.made,
    );
    with_run_fault(ran)?;
    let least = least_after(part, &lists.made.events);
    deal(&mut lists.out, &mut lists.made.events, rounds.division)?;
    Ok(least)
}
