//! What concerns all parts between two rounds: the first pending moment, and events that go to their receivers' parts.
ghost use Rattle.std.specs.Prelude.{◌≡◌, ◌<◌, [], ◌∷◌, map, length, OnOk, All, Some};
ghost use Rattle.std.specs.List.{slice_get};
ghost use Rattle.base.specs.Rising.{AreNew};
ghost use Rattle.member.specs.declared.event.Event.{Event as AnEvent};
ghost use Rattle.member.specs.StateOf.{pair_of};
ghost use Rattle.windows.specs.declared.part.Part.{Part as APart};
ghost use Rattle.windows.specs.Parts.{for_own, is_in};
ghost use Rattle.windows.specs.WorldOf.{world_of};
ghost use Rattle.std.specs.Option.{option_map};
ghost use Rattle.links.specs.Least.{lesser_of};
ghost use Rattle.lookahead.specs.Between.{part_number};
ghost use Rattle.turns.specs.Parts.{IsLeastMoment, HaveTheirMembers, HaveCome};

use base::{Key, Memory, Moment};
use member::Event;
use scenario::Division;
use windows::Part;
use worker_queue::EventQueue;

/// The least moment that pends in any of these parts: None where nothing pends.
pub(crate) fn least_moment<Q: EventQueue<Event> + Drop>(parts: &[Part<Q>]) -> Option<Moment>
    ensures { IsLeastMoment Q.set parts.now result }
{
    let mut least = None;
    for part in parts {
        least = lesser_moment(least, part.least());
    }
    least
}

/// The lesser of a moment and that of a key, where there are both.
fn lesser_moment(moment: Option<Moment>, key: Option<Key>) -> Option<Moment>
    ensures { result ≡ lesser_of moment (option_map (λ k. k.at) key) }
{
    let Some(key) = key else {
        return moment;
    };
    match moment {
        Some(moment) => Some(moment.min(key.at)),
        None => Some(key.at),
    }
}

/// Lets each event pend in the part of its receiver.
pub(crate) fn deliver<Q: EventQueue<Event> + Drop>(
    parts: &mut Vec<Part<Q>>,
    events: Vec<Event>,
    division: &Division,
) -> Result<(), Memory>
    requires count { length parts.old.items ≡ division.now.parts }
    requires named { All (λ (event : AnEvent). event.key.to < length division.now.part_of) events.items }
    requires members { HaveTheirMembers Q.set division.now parts.old.items }
    requires new { (i : _) (part : APart Q) → slice_get parts.old.items i ≡ Some part
        → AreNew (world_of Q.set part).pending (for_own (is_in (part_number division.now) i) (map pair_of events.items)) }
    ensures { OnOk result (HaveCome Q.set (part_number division.now) parts.old.items parts.new.items (map pair_of events.items)) }
{
    for event in events {
        place(parts, event, division)?;
    }
    Ok(())
}

/// Lets the event pend in the part of its receiver.
fn place<Q: EventQueue<Event> + Drop>(
    parts: &mut Vec<Part<Q>>,
    event: Event,
    division: &Division,
) -> Result<(), Memory>
    requires count { length parts.old.items ≡ division.now.parts }
    requires named { event.key.to < length division.now.part_of }
    requires members { HaveTheirMembers Q.set division.now parts.old.items }
    requires new { (i : _) (part : APart Q) → slice_get parts.old.items i ≡ Some part
        → AreNew (world_of Q.set part).pending (for_own (is_in (part_number division.now) i) (map pair_of (event ∷ []))) }
    ensures { OnOk result (HaveCome Q.set (part_number division.now) parts.old.items parts.new.items (map pair_of (event ∷ []))) }
{
    let Event { key, content } = event;
    let place = division.part(key.to);
    let event = Event { key, content };
    let part = &mut parts[place];
    part.receive(event)
}
