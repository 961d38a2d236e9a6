//! How processes start by memberlist 0.5.0's rules: with the cluster, or later and again, and then alone.
ghost use Rattle.std.specs.Prelude.{◌≡◌, ◌≤◌, ◌<◌, ◌^◌, IfSome, OnOk};
ghost use Rattle.member.specs.Beginnings.{alone_begun, contact_asked, contact_dialed, contact_reached, founder_begun, founders_reconnect_set, founders_try_set, is_asked, latecomer_begun, own_beats_set, process_started, pushes_set, reborn, reconnect_set, restarted, setting_drawn, setting_set};
ghost use Rattle.member.specs.Makes.{IsMade, IsMember, KnowsMembers, Makes};
ghost use Rattle.scenario.specs.Setup.{IsSoundSerf};
ghost use Rattle.member.specs.StateOf.{state_of};

use crate::connections::dial_done;
use crate::event::Effects;
use crate::event_kind::EventKind;
use crate::here::Here;
use crate::join::count_others;
use crate::member::{Member, Phase};
use crate::step_error::StepError;
use base::{MemberId, Moment};
use incarnation::Update;
use lives::Life;
use scenario::Serf;
use std::mem::replace;
use streams::Stream;
use trace::What;

/// Asking a contact.
impl Member {
    /// Opens a connection to the contact, and another one later.
    #[tactic(auto, unfolding(crate::specs::Beginnings::contact_dialed))]
    fn dial_contact(
        &mut self,
        effects: &mut Effects,
        here: &Here,
        contact: MemberId,
    ) -> Result<(), StepError>
        requires contact { IsMember here.now contact }
        requires known { KnowsMembers here.now self.old }
        ensures { Makes here.now result self.old effects.old self.new effects.new (contact_dialed here.now.scenario.now here.now.key contact) }
    {
        let there = self.draw_dial(here, contact);
        self.tell_dial(effects, here, What::Join, contact, &there)?;
        let done = dial_done(here, there);
        let again = Moment(done.ticks() + here.scenario.dial().retry);
        self.make_event(effects, here, again, here.key.to, EventKind::JoinTimer)
    }

    /// Asks a contact, if there is one.
    fn ask(
        &mut self,
        effects: &mut Effects,
        here: &Here,
        contact: Option<MemberId>,
    ) -> Result<(), StepError>
        requires contact { IfSome contact (IsMember here.now) }
        requires known { KnowsMembers here.now self.old }
        ensures { Makes here.now result self.old effects.old self.new effects.new (contact_asked here.now.scenario.now here.now.key contact) }
    {
        match contact {
            Some(contact) => self.dial_contact(effects, here, contact),
            None => Ok(()),
        }
    }

    /// Asks the contact again, until it is reached.
    pub(crate) fn ask_again(&mut self, effects: &mut Effects, here: &Here) -> Result<(), StepError>
        requires { KnowsMembers here.now self.old }
        ensures { Makes here.now result self.old effects.old self.new effects.new (contact_asked here.now.scenario.now here.now.key (state_of self.old).life.contact) }
    {
        let contact = self.life.contact();
        self.ask(effects, here, contact)
    }

    /// A table has come: if it is the contact's, that is reached.
    pub(crate) fn reach_contact(
        &mut self,
        effects: &mut Effects,
        here: &Here,
        entries: &[Update],
    ) -> Result<(), StepError>
        requires { KnowsMembers here.now self.old }
        ensures { Makes here.now result self.old effects.old self.new effects.new (contact_reached here.now.key entries.now) }
    {
        if !is_asked(here.key.from, self.life.contact()) {
            return Ok(());
        }
        self.life.stop_asking();
        let others = count_others(entries, here.key.to);
        self.write_row(
            effects,
            here,
            What::Joined,
            Some(here.key.from),
            others,
            false,
        )
    }
}

/// Beginning alone.
impl Member {
    /// The member's beats begin a period from now.
    fn set_own_beats(&mut self, effects: &mut Effects, here: &Here) -> Result<(), StepError>
        requires { KnowsMembers here.now self.old }
        ensures { Makes here.now result self.old effects.old self.new effects.new (own_beats_set here.now.scenario.now here.now.key) }
    {
        let period = here.scenario.period();
        self.beat = Moment(here.key.at.ticks() + period);
        self.set_timer(effects, here, period, EventKind::PeriodTimer)
    }

    /// The member's pushes begin within a time between pushes.
    fn draw_setting(
        &mut self,
        effects: &mut Effects,
        here: &Here,
        push: u64,
    ) -> Result<(), StepError>
        requires some { 0 < push }
        requires short { push ≤ 2 ^ 24 }
        requires known { KnowsMembers here.now self.old }
        ensures { Makes here.now result self.old effects.old self.new effects.new (setting_drawn here.now.scenario.now here.now.key push) }
    {
        let wait = 1 + u64::from(self.stream.below(push as u32));
        self.set_timer(effects, here, wait, EventKind::SettingTimer)
    }

    /// The same where members push.
    fn set_setting(&mut self, effects: &mut Effects, here: &Here) -> Result<(), StepError>
        requires { KnowsMembers here.now self.old }
        ensures { Makes here.now result self.old effects.old self.new effects.new (setting_set here.now.scenario.now here.now.key here.now.scenario.now.gossip) }
    {
        let settings = here.scenario.gossip();
        let Some(gossip) = settings else {
            return Ok(());
        };
        if gossip.push == 0 {
            return Ok(());
        }
        self.draw_setting(effects, here, gossip.push)
    }

    /// Sets the timer of the first try to reach one that failed, where there is Serf.
    fn set_reconnect(&mut self, effects: &mut Effects, here: &Here) -> Result<(), StepError>
        requires { KnowsMembers here.now self.old }
        ensures { Makes here.now result self.old effects.old self.new effects.new (reconnect_set here.now.scenario.now here.now.key here.now.scenario.now.serf) }
    {
        let settings = here.scenario.serf();
        let Some(serf) = settings else {
            return Ok(());
        };
        self.set_timer(effects, here, serf.reconnect, EventKind::ReconnectTimer)
    }

    /// Begins alone, and asks somebody, or nobody.
    #[tactic(auto, unfolding(crate::specs::Beginnings::alone_begun))]
    fn begin_alone(
        &mut self,
        effects: &mut Effects,
        here: &Here,
        contact: Option<MemberId>,
    ) -> Result<(), StepError>
        requires contact { IfSome contact (IsMember here.now) }
        requires known { KnowsMembers here.now self.old }
        ensures { Makes here.now result self.old effects.old self.new effects.new (alone_begun here.now.scenario.now here.now.key contact) }
    {
        self.set_own_beats(effects, here)?;
        self.set_setting(effects, here)?;
        self.set_reconnect(effects, here)?;
        self.ask(effects, here, contact)
    }

    /// The pushes of one that has begun alone begin, where members push.
    pub(crate) fn set_pushes(&mut self, effects: &mut Effects, here: &Here) -> Result<(), StepError>
        requires { KnowsMembers here.now self.old }
        ensures { Makes here.now result self.old effects.old self.new effects.new (pushes_set here.now.scenario.now here.now.key here.now.scenario.now.gossip) }
    {
        let settings = here.scenario.gossip();
        let Some(gossip) = settings else {
            return Ok(());
        };
        if gossip.push == 0 {
            return Ok(());
        }
        let period = self.push_period(here, gossip.push);
        self.set_timer(effects, here, period, EventKind::PushTimer)
    }
}

/// Starts and restarts.
impl Member {
    /// Sets the timer of a founder's first try to reach one that failed, within a time between tries after its first period.
    fn set_founders_try(
        &mut self,
        effects: &mut Effects,
        here: &Here,
        serf: Serf,
    ) -> Result<(), StepError>
        requires sound { IsSoundSerf serf }
        requires known { KnowsMembers here.now self.old }
        ensures { Makes here.now result self.old effects.old self.new effects.new (founders_try_set here.now.scenario.now here.now.key serf) }
    {
        let wait = u64::from(self.stream.below(serf.reconnect as u32));
        let at = Moment(self.beat.ticks() + wait);
        self.make_event(effects, here, at, here.key.to, EventKind::ReconnectTimer)
    }

    /// The same where there is Serf.
    fn set_founders_reconnect(
        &mut self,
        effects: &mut Effects,
        here: &Here,
    ) -> Result<(), StepError>
        requires { KnowsMembers here.now self.old }
        ensures { Makes here.now result self.old effects.old self.new effects.new (founders_reconnect_set here.now.scenario.now here.now.key here.now.scenario.now.serf) }
    {
        let settings = here.scenario.serf();
        let Some(serf) = settings else {
            return Ok(());
        };
        self.set_founders_try(effects, here, serf)
    }

    /// A founder knows all others that start with it.
    fn begin_founder(&mut self, effects: &mut Effects, here: &Here) -> Result<(), StepError>
        requires { KnowsMembers here.now self.old }
        ensures { Makes here.now result self.old effects.old self.new effects.new (founder_begun here.now.scenario.now here.now.key) }
    {
        self.begin(effects, here)?;
        self.set_founders_reconnect(effects, here)
    }

    /// A member that starts later asks its group's contact.
    fn begin_latecomer(
        &mut self,
        effects: &mut Effects,
        here: &Here,
        contact: &Option<MemberId>,
    ) -> Result<(), StepError>
        requires contact { IfSome contact.now (IsMember here.now) }
        requires known { KnowsMembers here.now self.old }
        ensures { Makes here.now result self.old effects.old self.new effects.new (latecomer_begun here.now.scenario.now here.now.key contact.now) }
    {
        self.life.ask_for(here.alloc, *contact)?;
        self.phase = Phase::Running;
        self.begin_alone(effects, here, *contact)
    }

    /// The process starts.
    #[tactic(auto, unfolding(crate::specs::Beginnings::process_started))]
    pub(crate) fn start_process(
        &mut self,
        effects: &mut Effects,
        here: &Here,
    ) -> Result<(), StepError>
        requires { KnowsMembers here.now self.old }
        ensures { Makes here.now result self.old effects.old self.new effects.new (process_started here.now.scenario.now here.now.key) }
    {
        self.write_row(effects, here, What::Start, None, 0, false)?;
        if here.scenario.start(here.key.to) == Moment(0) {
            return self.begin_founder(effects, here);
        }
        let contact = here.scenario.contact(here.key.to);
        self.begin_latecomer(effects, here, &contact)
    }

    /// The member is as before its start, but for its counters and its draws, which go on.
    fn be_reborn(&mut self, here: &Here, contact: Option<MemberId>) -> Result<(), StepError>
        requires contact { IfSome contact (IsMember here.now) }
        requires known { KnowsMembers here.now self.old }
        ensures made { IsMade result (state_of self.new) (reborn here.now.scenario.now here.now.key.to contact (state_of self.old)) }
        ensures kept { OnOk result (KnowsMembers here.now self.new) }
    {
        let mut fresh = Member::of(here.alloc, here.scenario, here.key.to)?;
        fresh.phase = Phase::Running;
        fresh.next_number = self.next_number;
        fresh.sequence = self.sequence;
        fresh.life = Life::begun(here.alloc, self.next_number, contact)?;
        let spent = Stream::of(here.scenario.seed(), here.key.to);
        fresh.stream = replace(&mut self.stream, spent);
        *self = fresh;
        Ok(())
    }

    /// The process starts again, and asks somebody, or nobody.
    #[tactic(auto, unfolding(crate::specs::Beginnings::restarted))]
    pub(crate) fn restart(
        &mut self,
        effects: &mut Effects,
        here: &Here,
        contact: &Option<MemberId>,
    ) -> Result<(), StepError>
        requires contact { IfSome contact.now (IsMember here.now) }
        requires known { KnowsMembers here.now self.old }
        ensures { Makes here.now result self.old effects.old self.new effects.new (restarted here.now.scenario.now here.now.key contact.now) }
    {
        self.be_reborn(here, *contact)?;
        self.write_row(effects, here, What::Restart, None, 0, false)?;
        self.begin_alone(effects, here, *contact)
    }
}

/// Who is asked, if anybody.
fn is_asked(member: MemberId, contact: Option<MemberId>) -> bool
    ensures { result ≡ is_asked member contact }
{
    match contact {
        Some(contact) => member == contact,
        None => false,
    }
}
