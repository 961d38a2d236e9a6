//! The protocol's times among all members: suspicions by further accusers (LHA-Suspicion), period and timeout
//! by health score (LHA-Probe), and a helper's delay before its nack.
ghost use Rattle.std.specs.Prelude.{◌≡◌, ◌≤◌, ◌^◌};
ghost use Rattle.scenario.specs.Setup.{member_count};
ghost use Rattle.suspicion.specs.Times.{most_accusers, min_timeout, timeout};
ghost use Rattle.suspicion.specs.Settings.{terms_of};
ghost use Rattle.lifeguard.specs.NackDelay.{nack_delay_of};
ghost use Rattle.scenario.specs.Profile.{profile_of};
ghost use Rattle.meaning.specs.Times.{worst_health, pace_at, timeouts_at};

use base::Profile;
use scenario::Scenario;
use suspicion::Terms;

/// How long a member's period and timeout are, in ticks. By memberlist's rules the period is how long a
/// probe of it lasts that isn't answered.
#[derive(Clone, Copy, Debug, PartialEq, Eq)]
pub struct Pace {
    pub period: u64,
    pub timeout: u64,
}

/// How many further accusers count, among all members: Lifeguard's K'.
pub fn most_accusers(scenario: &Scenario) -> u64
    ensures value { result ≡ most_accusers (terms_of scenario.now) (member_count scenario.now) }
    ensures at_most_9 { result ≤ 9 }
{
    let others = scenario.members().saturating_sub(2) as u64;
    let wanted = scenario.lifeguard().confirmations;
    match scenario.profile() {
        Profile::Papers => wanted.min(others),
        Profile::Memberlist | Profile::Hashicorp if wanted <= others => wanted,
        Profile::Memberlist | Profile::Hashicorp => 0,
    }
}

/// How long a suspicion lasts among all members, in ticks, that has so many further accusers.
pub fn suspicion_time(scenario: &Scenario, accusers: u64) -> u64
    ensures value { result ≡ timeout (terms_of scenario.now) (member_count scenario.now) accusers }
    ensures short { result ≤ 2 ^ 40 }
{
    let members = scenario.members() as u32;
    Terms::of(scenario).timeout(members, accusers)
}

/// How long a suspicion among all members lasts at the least, in ticks.
pub fn least_suspicion(scenario: &Scenario) -> u64
    ensures value { result ≡ min_timeout (terms_of scenario.now) (member_count scenario.now) }
    ensures short { result ≤ 2 ^ 40 }
{
    suspicion_time(scenario, most_accusers(scenario))
}

/// The worst health that a member comes to: the ceiling, and full health without LHA-Probe.
pub fn worst_health(scenario: &Scenario) -> u64
    ensures value { result ≡ worst_health scenario.now }
    ensures at_most_16 { result ≤ 16 }
{
    let lifeguard = scenario.lifeguard();
    if lifeguard.probe {
        lifeguard.ceiling
    } else {
        0
    }
}

/// The period and the timeout of a member whose health counter stands so.
pub fn pace_with(scenario: &Scenario, health: u64) -> Pace
    requires { health ≤ 16 }
    ensures { result ≡ pace_at scenario.now health }
{
    let swim = scenario.swim();
    Pace {
        period: swim.period * (health + 1),
        timeout: swim.timeout * timeouts(scenario, health),
    }
}

/// How many times the timeout of full health one takes whose health counter stands so: by memberlist's
/// rules once.
fn timeouts(scenario: &Scenario, health: u64) -> u64
    requires { health ≤ 16 }
    ensures { result ≡ timeouts_at (profile_of scenario.now) health }
{
    match scenario.profile() {
        Profile::Papers => health + 1,
        Profile::Memberlist | Profile::Hashicorp => 1,
    }
}

/// After how many ticks a helper says that it has no answer.
pub fn nack_delay(scenario: &Scenario) -> u64
    ensures { result ≡ nack_delay_of scenario.now.lifeguard.nack_percent scenario.now.swim.timeout }
{
    let percent = scenario.lifeguard().nack_percent as u32;
    lifeguard::nack_delay(percent, scenario.swim().timeout)
}
