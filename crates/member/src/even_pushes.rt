//! When a member pushes first by memberlist 0.5.0's rules: evenly over the period of the pushes.
ghost use Rattle.std.specs.Prelude.{◌≤◌, ◌<◌, ◌^◌};
ghost use Rattle.member.specs.Makes.{KnowsMembers, Makes};
ghost use Rattle.member.specs.Step.{even_push_begun};

use crate::event::Effects;
use crate::event_kind::EventKind;
use crate::here::Here;
use crate::member::Member;
use crate::step_error::StepError;
use base::Moment;

impl Member {
    /// Sets the first push timer: a part of the push period that chance decides, after the beat of the periods.
    #[tactic(auto, unfolding(crate::specs::Step::even_push_begun))]
    pub(crate) fn begin_even_push(
        &mut self,
        effects: &mut Effects,
        here: &Here,
        beat: Moment,
        push: u64,
    ) -> Result<(), StepError>
        requires early { beat ≤ 2 ^ 41 }
        requires some { 0 < push }
        requires short { push ≤ 2 ^ 24 }
        requires known { KnowsMembers here.now self.old }
        ensures { Makes here.now result self.old effects.old self.new effects.new (even_push_begun here.now.scenario.now here.now.key beat push) }
    {
        let period = self.push_period(here, push);
        let wait = u64::from(self.stream.below(period as u32));
        let at = Moment(beat.ticks() + 1 + wait);
        self.make_event(effects, here, at, here.key.to, EventKind::PushTimer)
    }
}
