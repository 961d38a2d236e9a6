//! What the world keeps of a member: whether it runs, the number of its next event, and its stream of draws.
ghost use Rattle.std.specs.Prelude.{◌≡◌, ◌<◌, ◌≤◌, ◌^◌};
ghost use Rattle.scenario.specs.Setup.{member_count};
ghost use Rattle.scenario.specs.Profile.{profile_of};
ghost use Rattle.member.specs.Opening.{first_number, first_number_by};

use base::{MemberId, Profile};
use scenario::Scenario;
use streams::Stream;

/// Whether a member runs.
#[derive(Clone, Copy, Debug, PartialEq, Eq)]
pub enum ProcessPhase {
    /// It has not started.
    Waiting,
    /// It has started.
    Up,
    /// It was told to leave, and goes on until it exits, as in version 4 of the format.
    Leaving,
    /// It has crashed, left or exited.
    Down,
}

/// What the world keeps of a member.
#[derive(Drop)]
pub struct Process {
    pub(crate) phase: ProcessPhase,
    /// The number of the first event that its present process made, or would have made.
    pub(crate) birth: u64,
    /// The number of the next event that it makes.
    pub(crate) next_number: u64,
    pub(crate) stream: Stream,
    // No number passes its limit.
    ghost number_within: { next_number ≤ 2 ^ 63 },
}

impl Process {
    ghost use Rattle.drive_process.specs.Process.{opening_process};
    ghost use Rattle.drive_process.specs.ProcessOf.{process_of};

    /// A member of the scenario before its start.
    #[tactic(auto, unfolding(crate::specs::Process::opening_process))]
    pub fn of(scenario: &Scenario, member: MemberId) -> Self
        requires { member < member_count scenario.now }
        ensures { process_of result ≡ opening_process scenario.now member }
    {
        Process {
            phase: ProcessPhase::Waiting,
            birth: 0,
            next_number: first_number_by(scenario, member),
            stream: Stream::of(scenario.seed(), member),
        }
    }

    /// Whether it has not started, runs, leaves or is down.
    pub fn phase(&self) -> ProcessPhase
        ensures { result ≡ self.now.phase }
    {
        self.phase
    }

    /// The number of the first event that its present process made, or would have made: timers with less are of former ones.
    pub fn birth(&self) -> u64
        ensures { result ≡ self.now.birth }
    {
        self.birth
    }
}

/// The first number that a member uses: its start has number 0, its crash or leave, if it has one, number 1.
fn first_number(scenario: &Scenario, member: MemberId) -> u64
    requires { member < member_count scenario.now }
    ensures value { result ≡ first_number scenario.now member }
    ensures few { result ≤ 2 }
{
    match scenario.crash(member).or(scenario.leave(member)) {
        Some(_) => 2,
        None => 1,
    }
}

/// The same by the rules of the profile: in version 4 of the format each event of its script has a number.
fn first_number_by(scenario: &Scenario, member: MemberId) -> u64
    requires { member < member_count scenario.now }
    ensures value { result ≡ first_number_by (profile_of scenario.now) scenario.now member }
    ensures within { result ≤ 2 ^ 63 }
{
    match scenario.profile() {
        Profile::Papers | Profile::Memberlist => first_number(scenario, member),
        Profile::Hashicorp => 1 + scenario.script(member).len() as u64,
    }
}
