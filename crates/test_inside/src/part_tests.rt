//! Two members over the fastest link, each in a part of its own, window by window.

ghost use Rattle.std.specs.Prelude.{◌≡◌, ◌<◌, false, All, IfOk, OnOk, IsTrue, nat_eq};
ghost use Rattle.std.specs.FinMap.{contains_key, empty};
ghost use Rattle.scenario.specs.Setup.{member_count};
ghost use Rattle.member.specs.declared.event.Event.{Event};
ghost use Rattle.member_laws.specs.Words.{IsAmongMembers};
ghost use Rattle.windows.specs.WorldOf.{world_of};
ghost use Rattle.windows.specs.Window.{IsConsistentPart};
ghost use Rattle.test_inside.specs.Single.{IsSingle};

use base::{MemberId, Memory, Moment};
use links::Links;
use member::Event;
use scenario::Scenario;
use scenario_reader::read;
use std::alloc::Global;
use std::process::Abort;
use std::test::Fail;
use trace::{Row, What};
use windows::{Cluster, Done, Part};
use worker_queue::{EventQueue, TreeQueue};

const TWO_MEMBERS: &str = "version = 1
seed = 7
end = 3
[swim]
period = 1000
timeout = 300
spread = 1
[link]
delay = 1
[[group]]
name = \"n\"
count = 2
";

pub(crate) fn scenario_of(rt: &impl Abort, alloc: Global, text: &str) -> Scenario {
    match read(alloc, text.as_bytes()) {
        Ok(scenario) => scenario,
        Err(_) => panic!(rt; "the text is no scenario"),
    }
}

/// A part of one member, before the run.
fn opened<Q: EventQueue<Event> + Drop>(
    alloc: Global,
    scenario: &Scenario,
    number: u16,
    queue: Q,
) -> Result<Part<Q>, Memory>
    requires there { number < member_count scenario.now }
    requires none { Q.set queue ≡ empty }
    ensures consistent { IfOk result (λ part. IsConsistentPart scenario.now (world_of Q.set part)) }
    ensures single { IfOk result (λ part. IsSingle Q.set part) }
{
    // by this the scenario is known to be sound
    let _ = scenario.end();
    let mut part = Part::new(alloc, number as usize, queue);
    part.admit(alloc, scenario, MemberId(number))?;
    Ok(part)
}

/// An event of another part's member comes to the part, before all that pends there.
fn receive<Q: EventQueue<Event> + Drop>(
    rt: &impl Abort,
    scenario: &Scenario,
    part: &mut Part<Q>,
    event: Event,
) -> Result<(), Memory>
    requires consistent { IsConsistentPart scenario.now (world_of Q.set part.old) }
    requires single { IsSingle Q.set part.old }
    requires among { IsAmongMembers scenario.now event.key event.content }
    ensures consistent { OnOk result (IsConsistentPart scenario.now (world_of Q.set part.new)) }
    ensures single { OnOk result (IsSingle Q.set part.new) }
{
    if is_of(&event, part.number) {
        panic!(rt; "the event is of the part's own");
    }
    if !is_for(&event, part.number) {
        panic!(rt; "the event is for another part");
    }
    assert!(rt; is_first(part, &event));
    part.receive(event)
}

/// Whether the member of this number sends the event.
fn is_of(event: &Event, number: usize) -> bool
    ensures { result ≡ nat_eq event.now.key.from number }
{
    event.key.from.index() == number
}

/// Whether the event is for the member of this number.
fn is_for(event: &Event, number: usize) -> bool
    ensures { result ≡ nat_eq event.now.key.to number }
{
    event.key.to.index() == number
}

/// Whether the event comes before all that pends.
fn is_first<Q: EventQueue<Event> + Drop>(part: &Part<Q>, event: &Event) -> bool
    ensures { IsTrue result → contains_key (world_of Q.set part.now).pending event.now.key ≡ false }
{
    match part.least() {
        Some(least) => event.key.cmp(&least).is_lt(),
        None => true,
    }
}

/// The window of a part below the bound.
fn window<Q: EventQueue<Event> + Drop>(
    rt: &impl Abort,
    alloc: Global,
    scenario: &Scenario,
    part: Part<Q>,
    bound: u64,
) -> Done<Q>
    requires consistent { IsConsistentPart scenario.now (world_of Q.set part) }
    requires single { IsSingle Q.set part }
    ensures consistent { IsConsistentPart scenario.now (world_of Q.set result.part) }
    ensures single { IsSingle Q.set result.part }
    ensures among { All (λ (e : Event). IsAmongMembers scenario.now e.key e.content) result.out.items }
{
    assert!(rt; bound <= scenario.end().ticks() + 1);
    let links = &match Links::of(alloc, scenario) {
        Ok(links) => links,
        Err(_) => panic!(rt; "want of memory"),
    };
    match part.run(alloc, Moment(bound), Cluster { scenario, links }) {
        Ok(done) => done,
        Err(_) => panic!(rt; "the window was refused"),
    }
}

/// What the window has written: moments, members, and the kind of each row.
pub(crate) fn assert_rows(rt: &impl Abort, rows: &[Row], wanted: &[(u64, u16, What)]) {
    assert!(rt; rows.len() == wanted.len());
    for (row, wanted) in rows.iter().zip(wanted) {
        assert!(rt; row.at.ticks() == wanted.0);
        assert!(rt; row.member.0 == wanted.1);
        assert!(rt; row.what == wanted.2);
    }
}

/// The moment of the least event that pends.
fn assert_least<Q: EventQueue<Event> + Drop>(rt: &impl Abort, part: &Part<Q>, least: u64) {
    match part.least() {
        Some(key) => assert!(rt; key.at.ticks() == least),
        None => panic!(rt; "nothing pends"),
    }
}

/// Whether the event is for this member, at this moment.
fn is_at(event: &Event, at: u64, to: u16) -> bool {
    event.key.at.ticks() == at && event.key.to.0 == to
}

/// A window that writes these rows, and of which nothing goes out.
fn quiet<Q: EventQueue<Event> + Drop>(
    rt: &impl Abort,
    alloc: Global,
    scenario: &Scenario,
    part: Part<Q>,
    bound: u64,
    wanted: &[(u64, u16, What)],
) -> Part<Q>
    requires consistent { IsConsistentPart scenario.now (world_of Q.set part) }
    requires single { IsSingle Q.set part }
    ensures consistent { IsConsistentPart scenario.now (world_of Q.set result) }
    ensures single { IsSingle Q.set result }
{
    let Done { part, out, rows } = window(rt, alloc, scenario, part, bound);
    assert_rows(rt, &rows, wanted);
    assert!(rt; out.is_empty());
    part
}

/// A window that writes these rows, and out of which one event goes, for this member at this moment.
fn sending<Q: EventQueue<Event> + Drop>(
    rt: &impl Abort,
    alloc: Global,
    scenario: &Scenario,
    part: Part<Q>,
    bound: u64,
    wanted: &[(u64, u16, What)],
    arrives: (u64, u16),
) -> (Part<Q>, Event)
    requires consistent { IsConsistentPart scenario.now (world_of Q.set part) }
    requires single { IsSingle Q.set part }
    ensures consistent { IsConsistentPart scenario.now (world_of Q.set result.0) }
    ensures single { IsSingle Q.set result.0 }
    ensures among { IsAmongMembers scenario.now result.1.key result.1.content }
{
    let Done {
        part,
        mut out,
        rows,
    } = window(rt, alloc, scenario, part, bound);
    assert_rows(rt, &rows, wanted);
    assert!(rt; out.len() == 1);
    match out.pop() {
        Some(event) => {
            assert!(rt; is_at(&event, arrives.0, arrives.1));
            (part, event)
        }
        None => panic!(rt; "nothing went out"),
    }
}

/// The windows of both parts in which each member sends the other one message, of this kind at this moment; both
/// messages have come.
fn each_sends<Q: EventQueue<Event> + Drop>(
    rt: &impl Abort,
    alloc: Global,
    scenario: &Scenario,
    first: Part<Q>,
    second: Part<Q>,
    at: u8,
    what: What,
) -> Result<(Part<Q>, Part<Q>), Memory>
    requires consistent { IsConsistentPart scenario.now (world_of Q.set first) }
    requires single { IsSingle Q.set first }
    requires consistent_second { IsConsistentPart scenario.now (world_of Q.set second) }
    requires single_second { IsSingle Q.set second }
    ensures consistent { IfOk result (λ parts. IsConsistentPart scenario.now (world_of Q.set parts.0)) }
    ensures single { IfOk result (λ parts. IsSingle Q.set parts.0) }
    ensures consistent_second { IfOk result (λ parts. IsConsistentPart scenario.now (world_of Q.set parts.1)) }
    ensures single_second { IfOk result (λ parts. IsSingle Q.set parts.1) }
{
    let at = u64::from(at);
    let bound = at + 1;
    let (mut first, to_second) = sending(
        rt,
        alloc,
        scenario,
        first,
        bound,
        &[(at, 0, what)],
        (bound, 1),
    );
    let (mut second, to_first) = sending(
        rt,
        alloc,
        scenario,
        second,
        bound,
        &[(at, 1, what)],
        (bound, 0),
    );
    receive(rt, scenario, &mut first, to_first)?;
    receive(rt, scenario, &mut second, to_second)?;
    Ok((first, second))
}

/// Both start, each pings the other, and each is answered.
#[test]
fn two_parts_run_window_by_window(rt: HostRuntime) -> Result<(), Fail> {
    let alloc = rt.alloc();
    let scenario = scenario_of(&rt, alloc, TWO_MEMBERS);
    let count = scenario.members();
    assert!(rt; count == 2);
    let first = opened(alloc, &scenario, 0, TreeQueue::new(alloc))?;
    let second = opened(alloc, &scenario, 1, TreeQueue::new(alloc))?;

    let first = quiet(&rt, alloc, &scenario, first, 1, &[(0, 0, What::Start)]);
    let second = quiet(&rt, alloc, &scenario, second, 1, &[(0, 1, What::Start)]);
    assert_least(&rt, &first, 1);
    assert_least(&rt, &second, 1);

    let (first, second) = each_sends(&rt, alloc, &scenario, first, second, 1, What::Ping)?;
    assert_least(&rt, &first, 2);
    assert_least(&rt, &second, 2);
    let (first, second) = each_sends(&rt, alloc, &scenario, first, second, 2, What::Ack)?;

    let first = quiet(&rt, alloc, &scenario, first, 4, &[]);
    let second = quiet(&rt, alloc, &scenario, second, 4, &[]);
    assert_least(&rt, &first, 301);
    assert_least(&rt, &second, 301);
    Ok(())
}

/// What is due at the bound or later waits.
#[test]
fn an_event_at_the_bound_waits(rt: HostRuntime) -> Result<(), Fail> {
    let alloc = rt.alloc();
    let scenario = scenario_of(&rt, alloc, TWO_MEMBERS);
    let count = scenario.members();
    assert!(rt; count == 2);
    let part = opened(alloc, &scenario, 1, TreeQueue::new(alloc))?;
    let part = quiet(&rt, alloc, &scenario, part, 0, &[]);
    assert_least(&rt, &part, 0);
    let part = quiet(&rt, alloc, &scenario, part, 1, &[(0, 1, What::Start)]);
    assert_least(&rt, &part, 1);
    let part = quiet(&rt, alloc, &scenario, part, 1, &[]);
    assert_least(&rt, &part, 1);
    assert!(rt; part.number == 1);
    Ok(())
}
