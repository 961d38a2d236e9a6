//! How far an update spreads: on how many messages of one member it rides at the most (piggyback),
//! lambda times the number of decimal digits of the cluster's size.
ghost use Rattle.std.specs.Prelude.{◌≡◌, ◌<◌, ◌^◌};
ghost use Rattle.scenario.specs.Setup.{member_count};
ghost use Rattle.scenario.specs.Profile.{profile_of};
ghost use Rattle.membership.specs.Table.{size_by};
ghost use Rattle.member.specs.State.{State};
ghost use Rattle.member.specs.Send.{limit_of};
ghost use Rattle.meaning.specs.News.{message_limit};

use base::digits;
use scenario::Scenario;

/// On how many messages of a member its news of somebody rides at the most, while the member knows
/// all members and holds none as confirmed.
pub fn message_limit(scenario: &Scenario) -> u64
    ensures value { result ≡ message_limit scenario.now }
    ensures member { (t : State) → size_by (profile_of scenario.now) t.table ≡ member_count scenario.now → result ≡ limit_of scenario.now t }
    ensures small { result < 2 ^ 40 }
{
    let members = scenario.members() as u32;
    scenario.swim().lambda * u64::from(digits(members))
}
