//! When messages depart and get through where processes are blocked, by memberlist 0.5.0's rules.
ghost use Rattle.std.specs.Prelude.{◌≡◌, ◌≤◌, ◌<◌, ◌^◌};
ghost use Rattle.scenario.specs.Profile.{profile_of};
ghost use Rattle.member.specs.Blocks.{departs_at, departs_by, got_through_by};
ghost use Rattle.member.specs.Makes.{IsMember};

use crate::here::Here;
use base::{MemberId, Moment, Profile};

/// When what the receiver of the event sends now departs where processes may be blocked: now, or at the end of a block.
pub(crate) fn departs_at(here: &Here) -> Moment
    ensures value { result ≡ departs_at here.now.scenario.now here.now.key }
    ensures later { here.now.key.at ≤ result }
    ensures early { result ≤ 2 ^ 40 }
{
    here.scenario.free(here.key.to, here.key.at)
}

/// When what the receiver of the event sends now departs, by the rules of the profile.
pub(crate) fn departs_by(here: &Here) -> Moment
    ensures value { result ≡ departs_by (profile_of here.now.scenario.now) here.now.scenario.now here.now.key }
    ensures early { result ≤ 2 ^ 40 }
{
    match here.scenario.profile() {
        Profile::Papers | Profile::Memberlist => here.key.at,
        Profile::Hashicorp => departs_at(here),
    }
}

/// When a message gets through to a member, if it comes, by the rules of the profile.
pub(crate) fn got_through_by(here: &Here, to: MemberId, arrival: Option<Moment>) -> Option<Moment>
    requires { IsMember here.now to }
    ensures { result ≡ got_through_by (profile_of here.now.scenario.now) here.now.scenario.now to arrival }
{
    match here.scenario.profile() {
        Profile::Papers | Profile::Memberlist => arrival,
        Profile::Hashicorp => {
            let at = arrival?;
            Some(here.scenario.free(to, at))
        }
    }
}
