//! The moments of the last deaths that a member has heard of, as memberlist's rules need them to gossip to the dead.
ghost use Rattle.std.specs.Prelude.{◌≡◌, OnOk, OnErr};
ghost use Rattle.membership.specs.Deaths.{never, confirmed_at, since_of};

use crate::numbers::{number_at, reach_number, write_number};
use base::{MemberId, Memory, Moment};
use std::alloc::Global;

/// Since when a member holds others to be down, by their numbers. Memberlist's rules ask for it; as
/// long as nobody was confirmed it takes no memory, then 8 bytes for each member up to the last.
#[derive(Drop)]
pub struct Deaths {
    moments: Vec<u64>,
}

impl Deaths {
    /// Nobody was confirmed yet. It takes no memory.
    pub fn new(alloc: Global) -> Self
        ensures { since_of result ≡ never }
    {
        Deaths {
            moments: Vec::new(alloc),
        }
    }

    /// Keeps that a member is confirmed now. A refusal leaves all as it was.
    pub fn keep(&mut self, member: MemberId, now: Moment) -> Result<(), Memory>
        ensures ok { OnOk result (since_of self.new ≡ confirmed_at member now (since_of self.old)) }
        ensures err { OnErr result (since_of self.new ≡ since_of self.old) }
    {
        let place = member.index();
        reach_number(&mut self.moments, place, now.ticks())?;
        write_number(&mut self.moments, place, now.ticks());
        Ok(())
    }

    /// When a member was confirmed last, 0 where it never was.
    pub fn since(&self, member: MemberId) -> Moment
        ensures { result ≡ since_of self.now member }
    {
        Moment(number_at(&self.moments, member.index()))
    }
}
