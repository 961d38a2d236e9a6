//! False positives: claims that a member failed though it had not departed.
ghost use Rattle.std.specs.Prelude.{◌≡◌, ◌<◌, All, count_by, ◌⊎◌};
ghost use Rattle.scenario.specs.Setup.{member_count};
ghost use Rattle.trace.specs.Text.{NamesMembers};
ghost use Rattle.reports.specs.FalsePositives.{ways_to_depart, false_positives, healthy_false_positives};
ghost use Rattle.reports.specs.Failures.{false_positive_told, is_healthy_maker};

use crate::tallies::Tallies;
use base::{MemberId, Moment};
use scenario::Scenario;
use trace::{Row, What};

/// A claim that a member failed though it had not departed. Whether its maker was healthy then is
/// the scenario's to say.
#[derive(Clone, Copy)]
pub struct FalsePositive {
    /// Who made the claim.
    pub member: MemberId,
    /// Of whom it was made.
    pub about: Option<MemberId>,
    /// When it was made.
    pub at: Moment,
}

impl FalsePositive {
    /// What is kept of a row that is one.
    pub(crate) fn new(row: &Row) -> FalsePositive
        ensures { result ≡ false_positive_told row.now }
    {
        FalsePositive {
            member: row.member,
            about: row.about,
            at: row.at,
        }
    }

    /// Whether whoever made the claim wasn't slow then.
    fn is_healthy(&self, scenario: &Scenario) -> bool
        requires { self.now.member < member_count scenario.now }
        ensures { result ≡ is_healthy_maker scenario.now self.now }
    {
        scenario.extra(self.member, self.at) == 0
    }
}

/// How many false positives of a claim, a suspicion or a confirmation, there are.
pub fn false_positive_count(tallies: &Tallies, claim: What) -> usize
    requires { (claim ≡ What.Suspect) ⊎ (claim ≡ What.Confirm) }
    ensures { result ≡ false_positives ways_to_depart claim tallies.now }
{
    tallies.false_positives(claim).len()
}

/// How many false positives of a claim, a suspicion or a confirmation, are at healthy members: at
/// those that the scenario doesn't slow at that moment. The rows must name members of its cluster
/// alone.
pub fn healthy_false_positive_count(tallies: &Tallies, claim: What, scenario: &Scenario) -> usize
    requires claim { (claim ≡ What.Suspect) ⊎ (claim ≡ What.Confirm) }
    requires named { All (NamesMembers scenario.now) tallies.now }
    ensures { result ≡ healthy_false_positives scenario.now ways_to_depart claim tallies.now }
{
    count_healthy(tallies.false_positives(claim), scenario)
}

/// How many of these claims were made by healthy members.
pub(crate) fn count_healthy(claims: &[FalsePositive], scenario: &Scenario) -> usize
    requires { All (λ claim. claim.member < member_count scenario.now) claims.now }
    ensures { result ≡ count_by (is_healthy_maker scenario.now) claims.now }
{
    let mut count = 0;
    for claim in claims {
        if claim.is_healthy(scenario) {
            count += 1;
        }
    }
    count
}
