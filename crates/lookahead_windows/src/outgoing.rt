//! The events that go out of a window, dealt to the parts of their receivers.
ghost use Rattle.std.specs.Prelude.{◌≡◌, ◌<◌, ◌++◌, ◌∷◌, [], length, map, All, OnOk};
ghost use Rattle.std.specs.List.{AllByRecursion};
ghost use Rattle.member.specs.declared.event.Event.{Event as AnEvent};
ghost use Rattle.lookahead.specs.Between.{part_number};
ghost use Rattle.lookahead_windows.specs.Windows.{AreDealt};

use base::Memory;
use member::Event;
use scenario::Division;
use std::alloc::Global;

/// Empties these lists, whose room stays, and has so many of them.
pub(crate) fn begin_lists(
    alloc: Global,
    lists: &mut Vec<Vec<Event>>,
    count: usize,
) -> Result<(), Memory>
    ensures count { OnOk result (length lists.new.items ≡ count) }
    ensures empty { OnOk result (AllByRecursion (λ list. list.items ≡ []) lists.new.items) }
{
    lists.truncate(count);
    empty_each(lists);
    while lists.len() < count {
        lists.push(Vec::new(alloc))?;
    }
    Ok(())
}

/// Empties each of these lists.
fn empty_each(lists: &mut Vec<Vec<Event>>)
    ensures count { length lists.new.items ≡ length lists.old.items }
    ensures empty { AllByRecursion (λ list. list.items ≡ []) lists.new.items }
{
    for place in 0..lists.len() {
        lists[place].clear();
    }
}

/// Deals the events, which leave their list: each goes behind those for the part of its receiver. The lists are empty, one
/// for each part.
pub(crate) fn deal(
    lists: &mut Vec<Vec<Event>>,
    events: &mut Vec<Event>,
    division: &Division,
) -> Result<(), Memory>
    requires named { All (λ (event : AnEvent). event.key.to < length division.now.part_of) events.old.items }
    requires count { length lists.old.items ≡ division.now.parts }
    requires empty { AllByRecursion (λ list. list.items ≡ []) lists.old.items }
    ensures dealt { OnOk result (AreDealt (part_number division.now) division.now.parts events.old.items (map (λ list. list.items) lists.new.items)) }
{
    for event in events.drain(..) {
        add(lists, event, division)?;
    }
    Ok(())
}

/// Puts an event behind those for its part.
fn add(lists: &mut Vec<Vec<Event>>, event: Event, division: &Division) -> Result<(), Memory>
    requires count { length lists.old.items ≡ division.now.parts }
    requires named { event.key.to < length division.now.part_of }
    ensures count { OnOk result (length lists.new.items ≡ length lists.old.items) }
    ensures added { OnOk result ((before : _) → AreDealt (part_number division.now) division.now.parts before (map (λ list. list.items) lists.old.items)
        → AreDealt (part_number division.now) division.now.parts (before ++ event ∷ []) (map (λ list. list.items) lists.new.items)) }
{
    let Event { key, content } = event;
    let place = division.part(key.to);
    let event = Event { key, content };
    let list = &mut lists[place];
    list.push(event)?;
    Ok(())
}
