//! Events that no run hands to a member, since nobody sends them to one that waits, joins or runs: it makes nothing of
//! them. What a member makes of all others stands in tests/steps.
ghost use Rattle.std.specs.Prelude.{◌<◌, All, IsTrue, OnOk, IfOk};
ghost use Rattle.std.specs.Option.{IfSome};
ghost use Rattle.scenario.specs.Setup.{member_count};
ghost use Rattle.links.specs.Arrival.{AreLinksOf};
ghost use Rattle.member.specs.Here.{HoldsMembers, MentionsMembers};
ghost use Rattle.member.specs.StateOf.{state_of};

use base::{Key, MemberId, Moment};
use incarnation::{Claim, Update};
use links::Links;
use member::{Effects, Event, EventKind, Member, Updates};
use scenario::Scenario;
use std::alloc::{AllocError, Global};
use std::process::Abort;
use std::test::Fail;

/// Members 0 and 1 from the beginning, and four that start at 5.
const GROWING: &str =
    "version = 1\nseed = 7\nend = 0\n[swim]\nperiod = 1000\ntimeout = 300\n[link]\ndelay = 10\n[[group]]\nname = \"n\"\ncount = 2\n[[group]]\nname = \"j\"\ncount = 4\nstart = 5\ncontact = \"n-0\"\n";

/// What an event asks. Each number is 1, and what rides on it is a suspicion of member 1.
#[derive(Clone, Copy)]
enum Asks {
    Start,
    Crash,
    Leave,
    JoinTimer,
    PeriodTimer,
    TimeoutTimer,
    NackTimer,
    SuspicionTimer,
    Join,
    Welcome,
    Ping,
    PingReq,
    Ack,
    Nack,
    Bye,
}

/// An event: its moment, its sender, and what it asks.
type Input = (u64, u16, Asks);

/// Member 0 starts.
const START: Input = (0, 0, Asks::Start);

/// Member 2 asks to join.
const LATE: Input = (5, 2, Asks::Start);

/// What comes to one that waits.
const WAITS: &[Input] = &[
    (20, 0, Asks::Crash),
    (20, 0, Asks::Leave),
    (20, 0, Asks::JoinTimer),
    (20, 0, Asks::PeriodTimer),
    (20, 0, Asks::TimeoutTimer),
    (20, 0, Asks::NackTimer),
    (20, 0, Asks::SuspicionTimer),
    (20, 1, Asks::Join),
    (20, 1, Asks::Welcome),
    (20, 1, Asks::Ping),
    (20, 1, Asks::PingReq),
    (20, 1, Asks::Ack),
    (20, 1, Asks::Nack),
    (20, 1, Asks::Bye),
];

/// What comes to one that joins.
const JOINS: &[Input] = &[
    LATE,
    (20, 2, Asks::Start),
    (20, 2, Asks::PeriodTimer),
    (20, 2, Asks::TimeoutTimer),
    (20, 2, Asks::NackTimer),
    (20, 2, Asks::SuspicionTimer),
    (20, 1, Asks::Join),
    (20, 1, Asks::Ping),
    (20, 1, Asks::PingReq),
    (20, 1, Asks::Ack),
    (20, 1, Asks::Nack),
    (20, 1, Asks::Bye),
];

/// What comes to one that runs.
const RUNS: &[Input] = &[
    START,
    (20, 0, Asks::Start),
    (20, 0, Asks::JoinTimer),
    (20, 0, Asks::TimeoutTimer),
    (20, 0, Asks::NackTimer),
    (20, 0, Asks::SuspicionTimer),
    (20, 1, Asks::Welcome),
    (20, 1, Asks::Nack),
    (20, 3, Asks::Bye),
];

/// What an event asks.
fn content_of(alloc: Global, asks: Asks) -> Result<EventKind, AllocError> {
    let (one, seq) = (MemberId(1), 1);
    let updates = told(alloc)?;
    let content = match asks {
        Asks::Start => EventKind::Start,
        Asks::Crash => EventKind::Crash,
        Asks::Leave => EventKind::Leave,
        Asks::JoinTimer => EventKind::JoinTimer,
        Asks::PeriodTimer => EventKind::PeriodTimer,
        Asks::TimeoutTimer => EventKind::TimeoutTimer { seq },
        Asks::NackTimer => EventKind::NackTimer {
            initiator: one,
            seq,
        },
        Asks::SuspicionTimer => EventKind::SuspicionTimer { subject: one },
        Asks::Join => EventKind::Join,
        Asks::Welcome => EventKind::Welcome { entries: updates },
        Asks::Ping => EventKind::Ping {
            initiator: one,
            seq,
            updates,
        },
        Asks::PingReq => EventKind::PingReq {
            seq,
            target: one,
            updates,
        },
        Asks::Ack => EventKind::Ack {
            initiator: one,
            seq,
            updates,
        },
        Asks::Nack => EventKind::Nack { seq },
        Asks::Bye => EventKind::Bye,
    };
    Ok(content)
}

/// That member 1 suspects itself.
fn told(alloc: Global) -> Result<Updates, AllocError> {
    let mut updates = Vec::new(alloc);
    updates.push(Update {
        subject: MemberId(1),
        claim: Claim::Suspect,
        inc: 0,
        accuser: MemberId(1),
    })?;
    Ok(Updates::of(updates))
}

/// Whether all updates are about the first so many members.
fn are_about(updates: &Updates, members: usize) -> bool
    ensures { IsTrue result → All (λ u. u.subject < members) updates.now }
{
    updates
        .as_slice()
        .iter()
        .all(|update| update.subject.index() < members)
}

/// Whether this is one of the first so many members, if it is any.
fn is_member_if_any(member: &Option<MemberId>, members: usize) -> bool
    ensures { IsTrue result → IfSome member.now (λ m. m < members) }
{
    match member {
        Some(member) => member.index() < members,
        None => true,
    }
}

/// Whether a content names the first so many members alone.
fn names_members(content: &EventKind, members: usize) -> bool
    ensures { IsTrue result → MentionsMembers members content.now }
{
    match content {
        EventKind::Welcome { entries }
        | EventKind::Push { entries }
        | EventKind::Pull { entries } => { are_about(entries, members) }
        EventKind::Gossip { updates } => are_about(updates, members),
        EventKind::Ping {
            initiator,
            updates,
            ..
        } => initiator.index() < members && are_about(updates, members),
        EventKind::PingReq {
            target,
            updates,
            ..
        } => target.index() < members && are_about(updates, members),
        EventKind::Ack {
            initiator,
            updates,
            ..
        } => initiator.index() < members && are_about(updates, members),
        EventKind::NackTimer { initiator, .. } => initiator.index() < members,
        EventKind::ConnectedTimer { to } => to.index() < members,
        EventKind::Restart { contact } => is_member_if_any(contact, members),
        _ => true,
    }
}

/// A member handles an event, and what it makes of it is appended.
fn handle(
    rt: &(impl Abort + AllocGlobal),
    member: &mut Member,
    step: Input,
    oneself: MemberId,
    scenario: &Scenario,
    links: &Links,
    out: &mut Effects,
) -> Result<(), AllocError>
    requires links { AreLinksOf links.now scenario.now }
    requires oneself { oneself < member_count scenario.now }
    requires known { HoldsMembers scenario.now oneself (state_of member.old) }
    ensures kept { OnOk result (HoldsMembers scenario.now oneself (state_of member.new)) }
{
    let (at, from, asks) = step;
    let content = content_of(rt.alloc(), asks)?;
    assert!(rt; at <= 1 << 40);
    assert!(rt; usize::from(from) < scenario.members());
    assert!(rt; names_members(&content, scenario.members()));
    let key = Key {
        at: Moment(at),
        to: oneself,
        from: MemberId(from),
        number: 1,
    };
    let event = Event { key, content };
    match member.step(rt.alloc(), event, scenario, links, out) {
        Ok(()) => Ok(()),
        Err(_) => panic!(rt; "an event was refused"),
    }
}

/// A member handles events one after another, and makes nothing of those behind its start.
fn handle_all(
    rt: &(impl Abort + AllocGlobal),
    member: &mut Member,
    steps: &[Input],
    oneself: MemberId,
    scenario: &Scenario,
    links: &Links,
) -> Result<(), AllocError>
    requires links { AreLinksOf links.now scenario.now }
    requires oneself { oneself < member_count scenario.now }
    requires known { HoldsMembers scenario.now oneself (state_of member.old) }
    ensures kept { OnOk result (HoldsMembers scenario.now oneself (state_of member.new)) }
{
    for step in steps {
        let mut out = nothing(rt.alloc());
        handle(rt, member, *step, oneself, scenario, links, &mut out)?;
        assert!(rt; step.0 < 20 || is_silent(&out));
    }
    Ok(())
}

/// No effects.
fn nothing(alloc: Global) -> Effects {
    Effects {
        events: Vec::new(alloc),
        rows: Vec::new(alloc),
    }
}

fn is_silent(out: &Effects) -> bool {
    out.events.is_empty() && out.rows.is_empty()
}

/// Asserts that the member of this number makes nothing of what is astray.
fn assert_silent(
    rt: &(impl Abort + AllocGlobal),
    number: u16,
    steps: &[Input],
    scenario: &Scenario,
    links: &Links,
) -> Result<(), Fail>
    requires links { AreLinksOf links.now scenario.now }
{
    let oneself = MemberId(number);
    assert!(rt; oneself.index() < scenario.members());
    let mut member = Member::of(rt.alloc(), scenario, oneself)?;
    handle_all(rt, &mut member, steps, oneself, scenario, links)?;
    Ok(())
}

#[test]
fn strays_make_nothing(rt: HostRuntime) -> Result<(), Fail> {
    let scenario = scenario_reader::read(rt.alloc(), GROWING.as_bytes())?;
    let links = Links::of(rt.alloc(), &scenario)?;
    assert_silent(&rt, 0, WAITS, &scenario, &links)?;
    assert_silent(&rt, 2, JOINS, &scenario, &links)?;
    assert_silent(&rt, 0, RUNS, &scenario, &links)?;
    Ok(())
}
