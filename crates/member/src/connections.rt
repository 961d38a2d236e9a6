//! How a member opens connections by memberlist 0.5.0's rules: by dials, which the systems answer.
ghost use Rattle.std.specs.Prelude.{◌≡◌, ◌≤◌, ◌<◌, ◌^◌, IfSome};
ghost use Rattle.member.specs.Connections.{connection_set, dial_done, dial_drawn, dialed, push_dialed};
ghost use Rattle.member.specs.Makes.{Draws, IsMember, KnowsMembers, Makes};
ghost use Rattle.member.specs.StateOf.{state_of};

use crate::blocks::departs_at;
use crate::event::Effects;
use crate::event_kind::EventKind;
use crate::here::Here;
use crate::member::Member;
use crate::step_error::StepError;
use base::{MemberId, Moment};
use trace::What;

impl Member {
    /// When a connection is there that the member opens to another now, if it is in time.
    pub(crate) fn draw_dial(&mut self, here: &Here, to: MemberId) -> Option<Moment>
        requires to { IsMember here.now to }
        requires known { KnowsMembers here.now self.old }
        ensures drawn { Draws result self.old self.new (dial_drawn here.now.scenario.now here.now.key to (state_of self.old)) }
        ensures soon { IfSome result (λ there. there ≤ 2 ^ 41) }
        ensures kept { KnowsMembers here.now self.new }
    {
        let departs = departs_at(here);
        let limit = here.scenario.dial().limit;
        here.links
            .dial(here.key.to, to, departs, limit, &mut self.stream)
    }

    /// The connection to a member is there at this moment.
    fn set_connection(
        &mut self,
        effects: &mut Effects,
        here: &Here,
        to: MemberId,
        there: Moment,
    ) -> Result<(), StepError>
        requires to { IsMember here.now to }
        requires known { KnowsMembers here.now self.old }
        ensures { Makes here.now result self.old effects.old self.new effects.new (connection_set here.now.scenario.now here.now.key to there) }
    {
        let timer = EventKind::ConnectedTimer { to };
        self.make_event(effects, here, there, here.key.to, timer)
    }

    /// Writes the row of a dial, and sets the timer for when the connection is there, if it is.
    pub(crate) fn tell_dial(
        &mut self,
        effects: &mut Effects,
        here: &Here,
        what: What,
        to: MemberId,
        there: &Option<Moment>,
    ) -> Result<(), StepError>
        requires to { IsMember here.now to }
        requires known { KnowsMembers here.now self.old }
        ensures { Makes here.now result self.old effects.old self.new effects.new (dialed here.now.scenario.now here.now.key what to there.now) }
    {
        self.write_row(effects, here, what, Some(to), 0, there.is_none())?;
        let Some(there) = there else {
            return Ok(());
        };
        self.set_connection(effects, here, to, *there)
    }

    /// The same of a dial for a push, which has a row here only where it is lost.
    pub(crate) fn tell_push_dial(
        &mut self,
        effects: &mut Effects,
        here: &Here,
        to: MemberId,
        there: &Option<Moment>,
    ) -> Result<(), StepError>
        requires to { IsMember here.now to }
        requires known { KnowsMembers here.now self.old }
        ensures { Makes here.now result self.old effects.old self.new effects.new (push_dialed here.now.scenario.now here.now.key to there.now) }
    {
        let Some(there) = there else {
            return self.write_row(effects, here, What::Push, Some(to), 0, true);
        };
        self.set_connection(effects, here, to, *there)
    }
}

/// When a dial is done: when the connection is there, or its time is up.
pub(crate) fn dial_done(here: &Here, there: Option<Moment>) -> Moment
    requires { IfSome there (λ at. at ≤ 2 ^ 41) }
    ensures value { result ≡ dial_done here.now.scenario.now here.now.key there }
    ensures soon { result ≤ 2 ^ 41 }
{
    match there {
        Some(there) => there,
        None => Moment(departs_at(here).ticks() + here.scenario.dial().limit),
    }
}
