//! The state of a member before its start: it knows nobody, and its counters, draws and health score are set up.
ghost use Rattle.std.specs.Prelude.{◌≡◌, ◌<◌, ◌≤◌, ◌^◌, [], IfOk};
ghost use Rattle.scenario.specs.Setup.{member_count};
ghost use Rattle.probing.specs.ProbeOrder.{round_over, IsSoundOrder};
ghost use Rattle.member.specs.Here.{HoldsMembers};
ghost use Rattle.member.specs.Opening.{opening_state, opening_health, first_number, first_number_by};
ghost use Rattle.scenario.specs.Profile.{profile_of};
ghost use Rattle.member.specs.StateOf.{state_of};
ghost use Rattle.member.specs.CounterOverflow.{IsOverflowed};

use crate::member::{Member, Phase};
use base::{MemberId, Memory, Moment, Profile};
use lifeguard::{Health, Relays};
use lives::Life;
use membership::{Deaths, Table};
use piggyback::Buffer;
use probing::Rota;
use scenario::Scenario;
use std::alloc::Global;
use streams::Stream;
use suspicion::Suspicions;

/// A member's health before its start: without LHA-Probe it stays full.
fn opening_health(scenario: &Scenario) -> Health
    ensures { result ≡ opening_health scenario.now }
{
    let lifeguard = scenario.lifeguard();
    if lifeguard.probe {
        Health::new(lifeguard.ceiling as u32)
    } else {
        Health::new(0)
    }
}

/// The first number that a member uses: its start has number 0, its crash or leave, if it has one, number 1.
fn first_number(scenario: &Scenario, member: MemberId) -> u64
    requires { member < member_count scenario.now }
    ensures value { result ≡ first_number scenario.now member }
    ensures few { result ≤ 2 }
{
    match scenario.crash(member).or(scenario.leave(member)) {
        Some(_) => 2,
        None => 1,
    }
}

/// The same by the rules of the profile: in version 4 of the format each event of its script has a number.
fn first_number_by(scenario: &Scenario, member: MemberId) -> u64
    requires { member < member_count scenario.now }
    ensures value { result ≡ first_number_by (profile_of scenario.now) scenario.now member }
    ensures within { result ≤ 2 ^ 63 }
{
    match scenario.profile() {
        Profile::Papers | Profile::Memberlist => first_number(scenario, member),
        Profile::Hashicorp => 1 + scenario.script(member).len() as u64,
    }
}

/// The rota of a member that knows nobody.
pub(crate) fn empty_rota(alloc: Global) -> Result<Rota, Memory>
    ensures members { IfOk result (λ rota. rota.members ≡ []) }
    ensures value { IfOk result (λ rota. rota ≡ round_over []) }
    ensures sound { IfOk result IsSoundOrder }
{
    Rota::of(Vec::new(alloc))
}

impl Member {
    /// A member of the scenario before its start, or `Memory` where it was refused.
    #[tactic(auto, unfolding(crate::specs::Opening::opening_state))]
    pub fn of(alloc: Global, scenario: &Scenario, member: MemberId) -> Result<Self, Memory>
        requires { member < member_count scenario.now }
        ensures state { IfOk result (λ it. state_of it ≡ opening_state scenario.now member) }
        ensures known { IfOk result (λ it. HoldsMembers scenario.now member (state_of it)) }
        ensures within { IfOk result (λ it. ¬ (IsOverflowed (state_of it))) }
    {
        Ok(Member {
            phase: Phase::Waiting,
            next_number: first_number_by(scenario, member),
            sequence: 0,
            incarnation: 0,
            heard_dead: false,
            waits: false,
            gossips: false,
            beat: Moment(0),
            health: opening_health(scenario),
            probe: None,
            table: Table::new(alloc),
            deaths: Deaths::new(alloc),
            buffer: Buffer::new(alloc)?,
            rota: empty_rota(alloc)?,
            suspicions: Suspicions::new(alloc)?,
            relays: Relays::new(alloc)?,
            life: Life::first(),
            stream: Stream::of(scenario.seed(), member),
        })
    }
}
