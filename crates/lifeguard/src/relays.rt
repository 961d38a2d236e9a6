//! The indirect probes that a helper has passed on and still owes an ack or a nack (Lifeguard, LHA-Probe).
ghost use Rattle.std.specs.Prelude.{◌≡◌, false, OnOk, OnErr};
ghost use Rattle.std.specs.FinSet as set;
ghost use Rattle.std.specs.Coded.{coded_ℕ, coded×};
ghost use Rattle.lifeguard.specs.Relays.{RelaySet};

use base::{MemberId, Memory};
use std::alloc::Global;
use std::collections::BTreeSet;
use std::marker::Model;

/// The probes of others that a member passed on and has not answered yet, each by the member that
/// began it and its number there. One that stays too long is answered by a nack (LHA-Probe).
#[derive(Drop)]
pub struct Relays {
    pairs: BTreeSet<(MemberId, u64)>,
}

impl Model for Relays {
    ghost Value = { RelaySet };

    ghost coded = { set.code (coded× coded_ℕ coded_ℕ) };

    ghost view = { λ relays. set.from_list relays.pairs.keys };
}

impl Relays {
    /// No relays. It takes no memory yet, so it is never refused.
    pub fn new(alloc: Global) -> Result<Self, Memory>
        ensures { result ≡ Ok set.empty }
    {
        Ok(Relays {
            pairs: BTreeSet::new(alloc),
        })
    }

    /// Adds a relay. One that is there already is never refused.
    pub fn add(&mut self, initiator: MemberId, seq: u64) -> Result<(), Memory>
        ensures ok { OnOk result (self.new ≡ set.insert self.old (initiator, seq)) }
        ensures err { OnErr result (self.new ≡ self.old) }
        ensures err_only_if_new { OnErr result (set.contains self.old (initiator, seq) ≡ false) }
    {
        match self.pairs.insert((initiator, seq)) {
            Ok(_) => Ok(()),
            Err(_) => Err(Memory),
        }
    }

    /// Takes a relay out, and says whether it was there.
    pub fn remove(&mut self, initiator: MemberId, seq: u64) -> bool
        ensures was_there { result ≡ set.contains self.old (initiator, seq) }
        ensures removed { self.new ≡ set.remove self.old (initiator, seq) }
    {
        self.pairs.remove(&(initiator, seq))
    }

    /// Whether a relay is there.
    pub fn has(&self, initiator: MemberId, seq: u64) -> bool
        ensures { result ≡ set.contains self.now (initiator, seq) }
    {
        self.pairs.contains(&(initiator, seq))
    }
}
