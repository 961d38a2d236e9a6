//! What incidents ask of a scenario: who is there at the beginning, who had troubles when, and how long they matter.
ghost use Rattle.std.specs.Prelude.{◌≡◌, true, ◌≤◌, ◌^◌, ◌++◌, IfOk, OnOk, Decides, map, length};
ghost use Rattle.scenario.specs.Setup.{member_count};
ghost use Rattle.incidents.specs.Lives.{members};
ghost use Rattle.incidents.specs.Views.{is_founder};
ghost use Rattle.incidents.specs.Cluster.{starts_first, slow_trouble, pause_trouble, reach_of, IsClusterOf, IsSameCluster};

use crate::rows::both;
use base::{MemberId, Memory, Moment};
use scenario::{Pause, Scenario, Slow};
use std::alloc::Global;
use suspicion::Terms;

/// A time in which a member is slow, paused or blocked.
#[derive(Clone, Copy, Debug, PartialEq, Eq)]
pub struct Trouble {
    pub member: MemberId,
    /// Its first moment.
    pub from: Moment,
    /// The first moment after it.
    pub until: Moment,
}

/// What incidents ask of a scenario.
#[derive(Drop)]
pub struct Cluster {
    /// Whether each member starts at moment 0.
    pub founders: Vec<bool>,
    /// When members are slow, paused or blocked.
    pub troubles: Vec<Trouble>,
    /// For how many ticks a trouble matters: the longest suspicion and a period.
    pub reach: u64,
}

impl Cluster {
    /// The cluster of a scenario.
    pub fn of(alloc: Global, scenario: &Scenario) -> Result<Cluster, Memory>
        ensures is { IfOk result (λ cluster. IsClusterOf cluster scenario.now) }
        ensures few { IfOk result (λ cluster. length cluster.founders.items ≤ 16384) }
    {
        let founders = founders_of(alloc, scenario)?;
        let mut troubles = Vec::new(alloc);
        push_slows(&mut troubles, scenario.slows())?;
        push_pauses(&mut troubles, scenario.pauses())?;
        push_pauses(&mut troubles, scenario.blocks())?;
        let reach = reach_of(scenario);
        Ok(Cluster {
            founders,
            troubles,
            reach,
        })
    }

    /// Whether both are one.
    pub(crate) fn is_same(&self, other: &Cluster) -> bool
        ensures { result ≡ true → IsSameCluster self.now other.now }
    {
        let founders = same_founders(&self.founders, &other.founders);
        let troubles = same_troubles(&self.troubles, &other.troubles);
        both(founders, both(troubles, self.reach == other.reach))
    }

    /// Whether a member starts at moment 0.
    pub(crate) fn is_founder(&self, member: MemberId) -> bool
        ensures { result ≡ is_founder self.now.founders.items member }
    {
        match self.founders.get(member.index()) {
            Some(founder) => *founder,
            None => false,
        }
    }
}

/// Whether both say of the same members that they start at moment 0.
fn same_founders(some: &[bool], others: &[bool]) -> bool
    ensures { Decides result (some.now ≡ others.now) }
{
    some == others
}

/// Whether both are the same troubles.
fn same_troubles(some: &[Trouble], others: &[Trouble]) -> bool
    ensures { Decides result (some.now ≡ others.now) }
{
    some == others
}

/// Whether each member starts at moment 0.
fn founders_of(alloc: Global, scenario: &Scenario) -> Result<Vec<bool>, Memory>
    ensures are { IfOk result (λ founders. founders.items ≡ map (starts_first scenario.now) (members (member_count scenario.now))) }
    ensures few { IfOk result (λ founders. length founders.items ≤ 16384) }
{
    let mut founders = Vec::new(alloc);
    for place in 0..scenario.members() {
        let start = scenario.start(MemberId(place as u16));
        founders.push(start.ticks() == 0)?;
    }
    Ok(founders)
}

/// Adds the times in which members are slow.
fn push_slows(troubles: &mut Vec<Trouble>, slows: &[Slow]) -> Result<(), Memory>
    ensures { OnOk result (troubles.new.items ≡ troubles.old.items ++ map slow_trouble slows.now) }
{
    for slow in slows {
        troubles.push(Trouble {
            member: slow.member,
            from: slow.from,
            until: slow.until,
        })?;
    }
    Ok(())
}

/// Adds the times in which members are paused or blocked.
fn push_pauses(troubles: &mut Vec<Trouble>, pauses: &[Pause]) -> Result<(), Memory>
    ensures { OnOk result (troubles.new.items ≡ troubles.old.items ++ map pause_trouble pauses.now) }
{
    for pause in pauses {
        troubles.push(Trouble {
            member: pause.member,
            from: pause.from,
            until: pause.until,
        })?;
    }
    Ok(())
}

/// The longest suspicion of the whole cluster, and a period.
fn reach_of(scenario: &Scenario) -> u64
    ensures { result ≡ reach_of scenario.now }
{
    let terms = Terms::of(scenario);
    let shortest = Terms {
        shortens: false,
        ..terms
    }
    .timeout(scenario.members() as u32, 0);
    terms.beta * shortest + scenario.period()
}
