//! Pings by memberlist 0.5.0's rules: the one that begins a probe of a suspected member tells it so and nothing else, and a
//! helper's bears what any message bears.
ghost use Rattle.std.specs.Prelude.{◌≡◌, ◌<◌, [], ◌∷◌, IfOk, IfErr};
ghost use Rattle.member.specs.Makes.{IsMember, KnowsMembers, Makes};
ghost use Rattle.member.specs.LoneBuddy.{suspicion_held, lone_buddy_of, plain_ping_sent, ping_with_lone, probe_ping_sent};
ghost use Rattle.member.specs.StateOf.{state_of};

use crate::event::Effects;
use crate::event_kind::EventKind;
use crate::here::Here;
use crate::member::Member;
use crate::riding::Bearer;
use crate::step_error::StepError;
use crate::updates::Updates;
use base::MemberId;
use incarnation::{Claim, Update};
use membership::is_suspect;
use std::alloc::Global;
use trace::What;

impl Member {
    /// The suspicion of which the ping that begins a probe tells its receiver, where the table holds it as suspected
    /// (Lifeguard's Buddy System, as memberlist has it).
    #[tactic(auto, unfolding(crate::specs::LoneBuddy::lone_buddy_of))]
    fn lone_buddy(&self, here: &Here, to: MemberId) -> Option<Update>
        ensures { result ≡ lone_buddy_of here.now.scenario.now here.now.key.to to (state_of self.now) }
    {
        if !here.scenario.lifeguard().buddy {
            return None;
        }
        suspicion_of(here.key.to, to, self.table.get(to))
    }

    /// Sends a ping on behalf of its initiator that bears what any message bears.
    #[tactic(auto, unfolding(crate::specs::LoneBuddy::plain_ping_sent))]
    pub(crate) fn send_plain_ping(
        &mut self,
        effects: &mut Effects,
        here: &Here,
        to: MemberId,
        initiator: MemberId,
        seq: u64,
    ) -> Result<(), StepError>
        requires to { IsMember here.now to }
        requires known { KnowsMembers here.now self.old }
        ensures { Makes here.now result self.old effects.old self.new effects.new (plain_ping_sent here.now.scenario.now here.now.key to initiator seq) }
    {
        let updates = self.pick_riding(here, Bearer::Ping(to))?;
        let ping = EventKind::Ping {
            initiator,
            seq,
            updates,
        };
        self.send(effects, here, What::Ping, to, seq, ping)
    }

    /// Sends a ping of one's own probe that bears this alone, where there is something.
    fn send_ping_with(
        &mut self,
        effects: &mut Effects,
        here: &Here,
        to: MemberId,
        seq: u64,
        buddy: Option<Update>,
    ) -> Result<(), StepError>
        requires to { IsMember here.now to }
        requires known { KnowsMembers here.now self.old }
        ensures { Makes here.now result self.old effects.old self.new effects.new (ping_with_lone here.now.scenario.now here.now.key to seq buddy) }
    {
        let Some(buddy) = buddy else {
            return self.send_plain_ping(effects, here, to, here.key.to, seq);
        };
        let ping = EventKind::Ping {
            initiator: here.key.to,
            seq,
            updates: alone(here.alloc, buddy)?,
        };
        self.send(effects, here, What::Ping, to, seq, ping)
    }

    /// Sends the ping with which a probe begins.
    #[tactic(auto, unfolding(crate::specs::LoneBuddy::probe_ping_sent))]
    pub(crate) fn send_probe_ping(
        &mut self,
        effects: &mut Effects,
        here: &Here,
        to: MemberId,
        seq: u64,
    ) -> Result<(), StepError>
        requires to { IsMember here.now to }
        requires known { KnowsMembers here.now self.old }
        ensures { Makes here.now result self.old effects.old self.new effects.new (probe_ping_sent here.now.scenario.now here.now.key to seq) }
    {
        let buddy = self.lone_buddy(here, to);
        self.send_ping_with(effects, here, to, seq, buddy)
    }
}

// What a member claims of another that it holds so: that it is suspected, if it is.
fn suspicion_of(me: MemberId, to: MemberId, known: Option<(Claim, u64)>) -> Option<Update>
    ensures { result ≡ suspicion_held me to known }
{
    let held = known?;
    if !is_suspect(held.0) {
        return None;
    }
    Some(Update {
        subject: to,
        claim: Claim::Suspect,
        inc: held.1,
        accuser: me,
    })
}

// One update alone.
fn alone(alloc: Global, update: Update) -> Result<Updates, StepError>
    ensures updates { IfOk result (λ updates. updates ≡ update ∷ []) }
    ensures err { IfErr result (λ e. e ≡ StepError.Memory) }
{
    let mut items = Vec::new(alloc);
    items.push(update)?;
    Ok(Updates::of(items))
}
