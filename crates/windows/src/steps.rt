//! The loop of a window: it handles the part's least event below the bound, keeps new events for its own members,
//! and sends the others out.
ghost use Rattle.std.specs.Prelude.{◌≡◌, ◌+◌, ◌<◌, ◌≤◌, ◌++◌, ◌∷◌, [], false, map, Some, All, IfOk, OnOk, IsErrOf};
ghost use Rattle.std.specs.Bool.{OnTrue, OnFalse};
ghost use Rattle.std.specs.List.{list_all};
ghost use Rattle.std.specs.FinMap.{get, contains_key};
ghost use Rattle.base.specs.World.{with_events, events_of};
ghost use Rattle.base.specs.Rising.{AreNew};
ghost use Rattle.scenario.specs.Setup.{IsSound, member_count};
ghost use Rattle.member.specs.Here.{IsSoundSetting, HoldsMembers, MentionsMembers};
ghost use Rattle.member.specs.State.{State};
ghost use Rattle.member.specs.declared.event.Event.{Event};
ghost use Rattle.member.specs.StateOf.{pair_of};
ghost use Rattle.member_laws.specs.Words.{IsAmongMembers};
ghost use Rattle.windows.specs.Parts.{for_own, for_others};
ghost use Rattle.windows.specs.WorldOf.{world_of, states_in, contents_in};
ghost use Rattle.windows.specs.Window.{is_own, IsConsistentPart, RunsWindow, TakeTheirLinks};
ghost use Rattle.windows.specs.Wears.{OverflowsInWindow};
ghost use Rattle.worker_queue.specs.Queue.{NoneIsBelow};
ghost use Rattle.windows.specs.Handling.{HandlesTaken, OverflowsReceiver, Advances, HaveOwnPended, made_of};

use crate::cluster::Cluster;
use crate::own_members::OwnMembers;
use crate::part::{Part, push};
use crate::setting::Setting;
use base::{Key, Memory};
use member::{Effects, Event, StepError};
use std::alloc::Global;
use worker_queue::EventQueue;

/// Runs the window that begins in this part. What goes out and the rows go into the lists of `made`, which are empty before;
/// the spare lists serve each step, as in `handle_taken`.
#[inline(always)]
pub(crate) fn run_from<Q: EventQueue<Event> + Drop>(
    alloc: Global,
    part: &mut Part<Q>,
    setting: &Setting,
    spare: &mut Effects,
    made: &mut Effects,
) -> Result<(), StepError>
    requires sound { IsSound setting.now.cluster.scenario.now }
    requires in_time { setting.now.bound ≤ setting.now.cluster.scenario.now.end + 1 }
    requires consistent { IsConsistentPart setting.now.cluster.scenario.now (world_of Q.set part.old) }
    requires none { made.old.events.items ≡ [] }
    requires no_rows { made.old.rows.items ≡ [] }
    ensures ok { OnOk result (RunsWindow setting.now.cluster.scenario.now setting.now.bound (world_of Q.set part.old) made.new.events.items made.new.rows.items (world_of Q.set part.new)) }
    ensures number { OnOk result (part.new.number ≡ part.old.number) }
    ensures consistent { OnOk result (IsConsistentPart setting.now.cluster.scenario.now (world_of Q.set part.new)) }
    ensures among { OnOk result (All (λ (e : Event). IsAmongMembers setting.now.cluster.scenario.now e.key e.content) made.new.events.items) }
    ensures far { OnOk result (TakeTheirLinks setting.now.cluster.scenario.now (world_of Q.set part.old) made.new.events.items) }
    ensures overflow { IsErrOf result StepError.CounterOverflow → OverflowsInWindow setting.now.cluster.scenario.now setting.now.bound (world_of Q.set part.old) }
{
    while advance(alloc, part, setting, spare, made)? {}
    Ok(())
}

/// No events and no rows. They take no memory.
pub fn nothing(alloc: Global) -> Effects
    ensures events { result.events.items ≡ [] }
    ensures rows { result.rows.items ≡ [] }
{
    Effects {
        events: Vec::new(alloc),
        rows: Vec::new(alloc),
    }
}

/// The next step of the window: the least pending event is handled, if its moment is before the bound.
/// The spare lists serve the step, as in `handle_taken`.
#[inline(always)]
fn advance<Q: EventQueue<Event>>(
    alloc: Global,
    part: &mut Part<Q>,
    setting: &Setting,
    spare: &mut Effects,
    out: &mut Effects,
) -> Result<bool, StepError>
    requires sound { IsSound setting.now.cluster.scenario.now }
    requires in_time { setting.now.bound ≤ setting.now.cluster.scenario.now.end + 1 }
    requires consistent { IsConsistentPart setting.now.cluster.scenario.now (world_of Q.set part.old) }
    ensures went { let before = world_of Q.set part.old in
        IfOk result (λ went. OnTrue went (Advances setting.now.cluster.scenario.now (is_own before) setting.now.bound before (world_of Q.set part.new) out.old out.new)) }
    ensures over { IfOk result (λ went. OnFalse went (NoneIsBelow (world_of Q.set part.old).pending setting.now.bound)) }
    ensures same { IfOk result (λ went. OnFalse went (world_of Q.set part.new ≡ world_of Q.set part.old)) }
    ensures none { IfOk result (λ went. OnFalse went (out.new ≡ out.old)) }
    ensures number { OnOk result (part.new.number ≡ part.old.number) }
    ensures overflow { IsErrOf result StepError.CounterOverflow → OverflowsInWindow setting.now.cluster.scenario.now setting.now.bound (world_of Q.set part.old) }
{
    let event = match part.queue.pop_below(setting.bound) {
        Some(event) => event,
        None => return Ok(false),
    };
    handle_taken(alloc, part, event, setting.cluster, spare, out)?;
    Ok(true)
}

/// Handles an event that was just taken out of the part's queue. What its receiver makes for members of
/// the part pends there, and the rest goes out. The spare lists are emptied, and then hold what the receiver
/// makes: as long as they are handed in again, their room serves step after step.
#[inline(always)]
pub(crate) fn handle_taken<Q: EventQueue<Event>>(
    alloc: Global,
    part: &mut Part<Q>,
    event: Event,
    cluster: Cluster,
    spare: &mut Effects,
    out: &mut Effects,
) -> Result<(), StepError>
    requires here { IsSoundSetting cluster.scenario.now cluster.links.now event.key }
    requires known { (t : State) → get (world_of Q.set part.old).members event.key.to ≡ Some t → HoldsMembers cluster.scenario.now event.key.to t }
    requires names { MentionsMembers (member_count cluster.scenario.now) event.content }
    requires new { AreNew (world_of Q.set part.old).pending (events_of (made_of cluster.scenario.now (world_of Q.set part.old).members event)) }
    ensures ok { OnOk result (HandlesTaken cluster.entry.scenario.now event (world_of Q.set part.old) (world_of Q.set part.new) out.old out.new) }
    ensures number { OnOk result (part.new.number ≡ part.old.number) }
    ensures overflow { IsErrOf result StepError.CounterOverflow → OverflowsReceiver cluster.entry.scenario.now event (world_of Q.set part.old).members }
{
    empty(&mut spare.events);
    empty(&mut spare.rows);
    part.members.handle(alloc, event, cluster, spare)?;
    move_behind(&mut spare.rows, &mut out.rows)?;
    deliver(
        &part.members,
        &mut part.queue,
        &mut spare.events,
        &mut out.events,
    )?;
    Ok(())
}

/// Empties a list. Nearly always it is empty, and then no more than that is looked at.
fn empty<T: Drop>(list: &mut Vec<T>)
    ensures { list.new.items ≡ [] }
{
    if !list.is_empty() {
        list.clear();
    }
}

/// Moves items behind those of a list. Where there is one, it moves by itself: a list's bytes, copied as a block
/// right after they were written in parts, wait until all writes before them are done.
#[inline(always)]
fn move_behind<T: Drop>(items: &mut Vec<T>, list: &mut Vec<T>) -> Result<(), Memory>
    ensures { OnOk result (list.new.items ≡ list.old.items ++ items.old.items) }
{
    if items.len() > 1 {
        list.append(items)?;
        return Ok(());
    }
    if let Some(item) = items.pop() {
        list.push(item)?;
    }
    Ok(())
}

/// Lets the events for these members pend, and sends the others out. They leave their list.
#[inline(always)]
fn deliver<Q: EventQueue<Event>>(
    members: &OwnMembers,
    queue: &mut Q,
    events: &mut Vec<Event>,
    out: &mut Vec<Event>,
) -> Result<(), Memory>
    requires new { AreNew (contents_in (Q.set queue.old)) (map pair_of events.old.items) }
    ensures own { let own = contains_key (states_in members.now) in
        OnOk result (contents_in (Q.set queue.new) ≡ with_events (contents_in (Q.set queue.old)) (for_own own (map pair_of events.old.items))) }
    ensures others { let own = contains_key (states_in members.now) in
        OnOk result (map pair_of out.new.items ≡ map pair_of out.old.items ++ for_others own (map pair_of events.old.items)) }
{
    push_own(members, queue, events)?;
    if events.is_empty() {
        return Ok(());
    }
    split_events(members, queue, events, out)
}

/// Lets events for these members pend, the last first, up to one for another: so none of them moves but into the queue.
/// Nearly always all are for these members, and then none is left.
#[inline(always)]
fn push_own<Q: EventQueue<Event>>(
    members: &OwnMembers,
    queue: &mut Q,
    events: &mut Vec<Event>,
) -> Result<(), Memory>
    requires new { AreNew (contents_in (Q.set queue.old)) (map pair_of events.old.items) }
    ensures { OnOk result (HaveOwnPended (contains_key (states_in members.now)) (contents_in (Q.set queue.old)) (contents_in (Q.set queue.new)) events.old.items events.new.items) }
{
    while let Some(event) = events.pop() {
        if !members.has(&event.key.to) {
            events.push(event)?;
            return Ok(());
        }
        push(queue, in_parts(event))?;
    }
    Ok(())
}

/// The same event, its key put together anew. A key that moves as one block of bytes, right after its parts
/// were written, waits until all writes before it are done.
#[inline(always)]
pub(crate) fn in_parts(event: Event) -> Event
    ensures { result ≡ event }
{
    let Event { key, content } = event;
    let Key {
        at,
        to,
        from,
        number,
    } = key;
    Event {
        key: Key {
            at,
            to,
            from,
            number,
        },
        content,
    }
}

/// Lets the events for these members pend, and sends the others out, in order.
fn split_events<Q: EventQueue<Event>>(
    members: &OwnMembers,
    queue: &mut Q,
    events: &mut Vec<Event>,
    out: &mut Vec<Event>,
) -> Result<(), Memory>
    requires new { AreNew (contents_in (Q.set queue.old)) (map pair_of events.old.items) }
    ensures own { let own = contains_key (states_in members.now) in
        OnOk result (contents_in (Q.set queue.new) ≡ with_events (contents_in (Q.set queue.old)) (for_own own (map pair_of events.old.items))) }
    ensures others { let own = contains_key (states_in members.now) in
        OnOk result (map pair_of out.new.items ≡ map pair_of out.old.items ++ for_others own (map pair_of events.old.items)) }
{
    for event in events.drain(..) {
        place(members, queue, event, out)?;
    }
    Ok(())
}

/// Lets the event pend, where it is for one of these members, or else sends it out.
fn place<Q: EventQueue<Event>>(
    members: &OwnMembers,
    queue: &mut Q,
    event: Event,
    out: &mut Vec<Event>,
) -> Result<(), Memory>
    requires new { contains_key (contents_in (Q.set queue.old)) event.key ≡ false }
    ensures own { let own = contains_key (states_in members.now) in
        OnOk result (contents_in (Q.set queue.new) ≡ with_events (contents_in (Q.set queue.old)) (for_own own (pair_of event ∷ []))) }
    ensures others { let own = contains_key (states_in members.now) in
        OnOk result (map pair_of out.new.items ≡ map pair_of out.old.items ++ for_others own (pair_of event ∷ [])) }
{
    if members.has(&event.key.to) {
        push(queue, event)
    } else {
        out.push(event)?;
        Ok(())
    }
}
