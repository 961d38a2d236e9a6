//! How a member starts, joins the cluster and crashes: it knows all others at moment 0, or asks a contact.
ghost use Rattle.std.specs.Prelude.{ℕ, ◌≡◌, ◌^◌, ◌<◌, ◌≤◌, ◌&&◌, not, nat_eq, ◌∷◌, ◌++◌, [], if◌then◌else◌, length, OnOk, IfOk, IfErr};
ghost use Rattle.scenario.specs.Setup.{member_count, start_of};
ghost use Rattle.scenario.specs.Profile.{profile_of};
ghost use Rattle.member.specs.Makes.{AreAboutMembers, KnowsMembers, Makes};
ghost use Rattle.member.specs.FirstRounds.{first_round};
ghost use Rattle.member.specs.StateOf.{state_of};
ghost use Rattle.member.specs.Step.{periods_set, first_period_set, first_others, began, join_asked, joining_begun, started, crashed, join_handled, about_others, joined};

use crate::announce::Announce;
use crate::event::Effects;
use crate::event_kind::EventKind;
use crate::here::Here;
use crate::member::{Member, Phase};
use crate::opening::empty_rota;
use crate::step_error::StepError;
use base::{MemberId, Moment, Profile};
use incarnation::{Claim, Update};
use membership::Table;
use probing::Rota;
use scenario::Scenario;
use std::alloc::{AllocError, Global};
use trace::What;

impl Member {
    /// The first period begins at a moment that chance decides, from which memberlist's rules count the
    /// others.
    #[tactic(auto, unfolding(crate::specs::Step::first_period_set))]
    fn set_first_period(&mut self, effects: &mut Effects, here: &Here) -> Result<(), StepError>
        requires { KnowsMembers here.now self.old }
        ensures { Makes here.now result self.old effects.old self.new effects.new (first_period_set here.now.scenario.now here.now.key) }
    {
        let spread = here.scenario.swim().spread as u32;
        let ticks = 1 + u64::from(self.stream.below(spread));
        let beat = Moment(here.key.at.ticks() + ticks);
        self.set_periods(effects, here, ticks, beat)
    }

    /// Sets the timer of the first period, so many ticks from now, at the beat from which the others are
    /// counted, and the first push.
    fn set_periods(
        &mut self,
        effects: &mut Effects,
        here: &Here,
        ticks: u64,
        beat: Moment,
    ) -> Result<(), StepError>
        requires ticks_within { ticks ≤ 2 ^ 41 }
        requires early { beat ≤ 2 ^ 41 }
        requires known { KnowsMembers here.now self.old }
        ensures { Makes here.now result self.old effects.old self.new effects.new (periods_set here.now.scenario.now here.now.key ticks beat) }
    {
        self.beat = beat;
        self.set_timer(effects, here, ticks, EventKind::PeriodTimer)?;
        self.set_first_push(effects, here, beat)
    }

    /// Takes up a round where the rules of the profile have a member at its start: at the beginning of one, or somewhere
    /// in it.
    fn take_up_round(&mut self, here: &Here)
        requires { KnowsMembers here.now self.old }
        ensures taken { state_of self.new ≡ first_round (profile_of here.now.scenario.now) (state_of self.old) }
        ensures kept { KnowsMembers here.now self.new }
    {
        match here.scenario.profile() {
            Profile::Papers | Profile::Memberlist => {}
            Profile::Hashicorp => self.rota.mix(&mut self.stream),
        }
    }

    /// A member that starts at moment 0 knows all others that do, and probes them.
    #[tactic(auto, unfolding(crate::specs::Step::began))]
    pub(crate) fn begin(&mut self, effects: &mut Effects, here: &Here) -> Result<(), StepError>
        requires { KnowsMembers here.now self.old }
        ensures { Makes here.now result self.old effects.old self.new effects.new (began here.now.scenario.now here.now.key) }
    {
        let others = first_others(here.alloc, here.scenario, here.key.to)?;
        let table = Table::of_alive(here.alloc, &others)?;
        let rota = Rota::of(others)?;
        self.phase = Phase::Running;
        self.incarnation = 0;
        self.table = table;
        self.rota = rota;
        self.take_up_round(here);
        self.set_first_period(effects, here)
    }

    /// Asks the contact to let the member join, and again after a period.
    #[tactic(auto, unfolding(crate::specs::Step::join_asked))]
    pub(crate) fn ask_join(&mut self, effects: &mut Effects, here: &Here) -> Result<(), StepError>
        requires { KnowsMembers here.now self.old }
        ensures { Makes here.now result self.old effects.old self.new effects.new (join_asked here.now.scenario.now here.now.key) }
    {
        self.send_join(effects, here)?;
        self.set_timer(effects, here, here.scenario.period(), EventKind::JoinTimer)
    }

    /// A member that starts later knows nobody, and joins.
    #[tactic(auto, unfolding(crate::specs::Step::joining_begun))]
    fn begin_joining(&mut self, effects: &mut Effects, here: &Here) -> Result<(), StepError>
        requires { KnowsMembers here.now self.old }
        ensures { Makes here.now result self.old effects.old self.new effects.new (joining_begun here.now.scenario.now here.now.key) }
    {
        let rota = empty_rota(here.alloc)?;
        self.phase = Phase::Joining;
        self.table = Table::new(here.alloc);
        self.rota = rota;
        self.ask_join(effects, here)
    }

    /// The member starts.
    #[tactic(auto, unfolding(crate::specs::Step::started))]
    pub(crate) fn start(&mut self, effects: &mut Effects, here: &Here) -> Result<(), StepError>
        requires { KnowsMembers here.now self.old }
        ensures { Makes here.now result self.old effects.old self.new effects.new (started here.now.scenario.now here.now.key) }
    {
        self.write_row(effects, here, What::Start, None, 0, false)?;
        if here.scenario.start(here.key.to) == Moment(0) {
            self.begin(effects, here)
        } else {
            self.begin_joining(effects, here)
        }
    }

    /// The member crashes, for good.
    #[tactic(auto, unfolding(crate::specs::Step::crashed))]
    pub(crate) fn crash(&mut self, effects: &mut Effects, here: &Here) -> Result<(), StepError>
        requires { KnowsMembers here.now self.old }
        ensures { Makes here.now result self.old effects.old self.new effects.new (crashed here.now.key) }
    {
        self.phase = Phase::Down;
        self.write_row(effects, here, What::Crash, None, 0, false)
    }

    /// A member that asks to join is alive, and is sent all that one knows.
    #[tactic(auto, unfolding(crate::specs::Step::join_handled))]
    pub(crate) fn hear_join(&mut self, effects: &mut Effects, here: &Here) -> Result<(), StepError>
        requires { KnowsMembers here.now self.old }
        ensures { Makes here.now result self.old effects.old self.new effects.new (join_handled here.now.scenario.now here.now.key) }
    {
        let claim = Update {
            subject: here.key.from,
            claim: Claim::Alive,
            inc: 0,
            accuser: here.key.to,
        };
        self.apply(effects, here, Announce::Aloud, &claim)?;
        self.send_welcome(effects, here, here.key.from)
    }

    /// A member that is welcomed runs, and takes over what it is sent, quietly.
    #[tactic(auto, unfolding(crate::specs::Step::joined))]
    pub(crate) fn join(
        &mut self,
        effects: &mut Effects,
        here: &Here,
        entries: &[Update],
    ) -> Result<(), StepError>
        requires known { KnowsMembers here.now self.old }
        requires entries { AreAboutMembers here.now entries.now }
        ensures { Makes here.now result self.old effects.old self.new effects.new (joined here.now.scenario.now here.now.key entries.now) }
    {
        self.phase = Phase::Running;
        let others = count_others(entries, here.key.to);
        self.write_row(
            effects,
            here,
            What::Joined,
            Some(here.key.from),
            others,
            false,
        )?;
        self.apply_all(effects, here, Announce::Quietly, entries)?;
        self.set_first_period(effects, here)
    }
}

// How many entries are about others than oneself.
pub(crate) fn count_others(entries: &[Update], oneself: MemberId) -> u64
    ensures { result ≡ length (about_others oneself entries.now) }
{
    let others = entries.iter().filter(|entry| entry.subject != oneself);
    others.count() as u64
}

/// The other members that start at moment 0, in the order of their numbers.
fn first_others(
    alloc: Global,
    scenario: &Scenario,
    oneself: MemberId,
) -> Result<Vec<MemberId>, StepError>
    ensures others { IfOk result (λ others. others.items ≡ first_others scenario.now oneself) }
    ensures err { IfErr result (λ e. e ≡ StepError.Memory) }
{
    let mut others = Vec::new(alloc);
    let mut run = Run {
        end: 0,
        is_first: false,
    };
    for number in 0..scenario.members() {
        let other = MemberId(number as u16);
        run = run_at(run, scenario, other);
        let keep = is_kept(run, other, oneself);
        push_if(&mut others, keep, other)?;
    }
    Ok(others)
}

/// Members whose groups were looked up together: those up to an end, all of which start at moment 0, or none.
#[derive(Clone, Copy)]
struct Run {
    end: usize,
    is_first: bool,
}

/// The run that has this member: the present one, or another that begins with it.
fn run_at(run: Run, scenario: &Scenario, member: MemberId) -> Run
    requires named { member < member_count scenario.now }
    requires known { (k : ℕ) → member ≤ k → k < run.end → run.is_first ≡ nat_eq (start_of scenario.now k) 0 }
    ensures within { member < result.end }
    ensures known { (k : ℕ) → member ≤ k → k < result.end → result.is_first ≡ nat_eq (start_of scenario.now k) 0 }
{
    if member.index() < run.end {
        run
    } else {
        run_from(scenario, member)
    }
}

/// A run that begins with this member.
fn run_from(scenario: &Scenario, first: MemberId) -> Run
    requires { first < member_count scenario.now }
    ensures within { first < result.end }
    ensures known { (k : ℕ) → first ≤ k → k < result.end → result.is_first ≡ nat_eq (start_of scenario.now k) 0 }
{
    Run {
        end: end_of_run(scenario, first),
        is_first: scenario.start(first) == Moment(0),
    }
}

/// Past the 64 members from this one on, or as many as there are, where the last of them is in the same group:
/// then all are. Else past this member alone.
fn end_of_run(scenario: &Scenario, first: MemberId) -> usize
    requires { first < member_count scenario.now }
    ensures within { first < result }
    ensures same { (k : ℕ) → first ≤ k → k < result → start_of scenario.now k ≡ start_of scenario.now first }
{
    let number = first.index();
    let last = (scenario.members() - 1).min(number + 63);
    if scenario.group_number(MemberId(last as u16)) == scenario.group_number(first) {
        last + 1
    } else {
        number + 1
    }
}

/// Whether a member of a run starts at moment 0, and is another one.
fn is_kept(run: Run, member: MemberId, oneself: MemberId) -> bool
    ensures { result ≡ (run.is_first && not (nat_eq member oneself)) }
{
    run.is_first && member != oneself
}

/// Puts a member at the end, if it is to be kept.
fn push_if(members: &mut Vec<MemberId>, keep: bool, member: MemberId) -> Result<(), AllocError>
    ensures { OnOk result (members.new.items ≡ members.old.items ++ (if keep then member ∷ [] else [])) }
{
    if !keep {
        return Ok(());
    }
    members.push(member)?;
    Ok(())
}
