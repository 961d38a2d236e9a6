//! How long a suspicion lasts: from the most to the least time, shortened by each confirmation (Lifeguard's
//! LHA-Suspicion), with logarithms and confirmations counted as in the papers or as in memberlist.
ghost use Rattle.std.specs.Prelude.{◌≡◌, ◌^◌, ◌<◌, ◌≤◌, nat_le, if◌then◌else◌};
ghost use Rattle.suspicion.specs.Ranges.{AreSound};
ghost use Rattle.suspicion.specs.Times.{size_log, min_timeout, most_accusers, timeout};
ghost use Rattle.suspicion.specs.Settings.{terms_of};

use base::{Profile, close_log_thousandths, fine_log_thousandths, log_thousandths};
use scenario::Scenario;

/// The settings that say how long suspicions last.
#[derive(Clone, Copy, Debug, PartialEq, Eq)]
pub struct Terms {
    /// The protocol period, in ticks (SWIM, section 3.1).
    pub period: u64,
    /// The shortest suspicion is this many periods times the logarithm of the cluster's size.
    pub alpha: u64,
    /// The longest suspicion is this many times the shortest.
    pub beta: u64,
    /// LHA-Suspicion: whether further accusers shorten a suspicion.
    pub shortens: bool,
    /// By whose rules logarithms and further accusers are counted.
    pub profile: Profile,
    /// How many further accusers bring a suspicion to its shortest (Lifeguard's K).
    pub accusers_wanted: u64,
}

impl Terms {
    /// A scenario's terms.
    pub fn of(scenario: &Scenario) -> Self
        ensures value { result ≡ terms_of scenario.now }
        ensures sound { AreSound result }
    {
        let suspicion = scenario.suspicion();
        let lifeguard = scenario.lifeguard();
        Terms {
            period: scenario.period(),
            alpha: suspicion.alpha,
            beta: suspicion.beta,
            shortens: lifeguard.suspicion,
            profile: scenario.profile(),
            accusers_wanted: lifeguard.confirmations,
        }
    }

    /// How long a suspicion lasts, in ticks, that started among this many members and has
    /// so many further accusers (Lifeguard's LHA-Suspicion).
    pub fn timeout(self, members: u32, accusers: u64) -> u64
        requires sound { AreSound self }
        requires some { 1 ≤ members }
        requires at_most_16384 { members ≤ 16384 }
        ensures value { result ≡ timeout self members accusers }

        // It is never over at once, and no moment of a run is too late to start it.
        ensures positive { 1 ≤ result }
        ensures short { result ≤ 2 ^ 40 }
    {
        let shortest = shortest(self, members);
        let most = most_counted(self, members);
        if !self.shortens || accusers >= most {
            return shortest;
        }
        let longest = self.beta * shortest;
        let reached = logarithm(self.profile, accusers as u32 + 1);
        let whole = logarithm(self.profile, most as u32 + 1);
        longest - (longest - shortest) * reached / whole
    }
}

// The logarithm of a number of members, or of accusers, in thousandths.
fn logarithm(profile: Profile, n: u32) -> u64
    requires { 1 ≤ n }
    ensures value { result ≡ size_log profile n }
    ensures small { result < 2 ^ 32 }
{
    match profile {
        Profile::Papers => u64::from(log_thousandths(n)),
        Profile::Memberlist => u64::from(fine_log_thousandths(n)),
        Profile::Hashicorp => u64::from(close_log_thousandths(n)),
    }
}

// How long a suspicion lasts at the least.
fn shortest(terms: Terms, members: u32) -> u64
    requires sound { AreSound terms }
    requires some { 1 ≤ members }
    requires at_most_16384 { members ≤ 16384 }
    ensures value { result ≡ min_timeout terms members }
    ensures positive { 1 ≤ result }
    ensures short { result < 2 ^ 33 }
{
    let size = logarithm(terms.profile, members).max(1000);
    (terms.alpha * size * terms.period / 1000).max(1)
}

/// How many further accusers count of a suspicion that started among this many members (K': K, or
/// fewer where there are no more members to accuse; by memberlist's rules none then).
pub(crate) fn most_counted(terms: Terms, members: u32) -> u64
    requires { 1 ≤ members }
    ensures { result ≡ most_accusers terms members }
{
    let others = u64::from(members.saturating_sub(2));
    match terms.profile {
        Profile::Papers => terms.accusers_wanted.min(others),
        Profile::Memberlist | Profile::Hashicorp => wanted_or_none(terms.accusers_wanted, others),
    }
}

// So many accusers as are wanted, or none where there are fewer members to accuse.
fn wanted_or_none(wanted: u64, others: u64) -> u64
    ensures { result ≡ (if nat_le wanted others then wanted else 0) }
{
    if wanted <= others { wanted } else { 0 }
}
