//! First moments: of pending events, of sent events, of what other workers report.
ghost use Rattle.std.specs.Prelude.{◌≡◌, ◌↔◌, ℕ, ◌≤◌, Some, None};
ghost use Rattle.std.specs.List.{AllByRecursion};
ghost use Rattle.member.specs.declared.event.Event.{Event as AnEvent};
ghost use Rattle.windows.specs.WorldOf.{world_of};
ghost use Rattle.worker_queue.specs.Queue.{NoneIsBelow};
ghost use Rattle.lookahead_windows.specs.Starts.{IsUpTo};
ghost use Rattle.lookahead_windows.specs.Windows.{IsLeastOf};

use base::Moment;
use member::Event;
use windows::Part;
use worker_queue::EventQueue;

/// The lesser of two moments, where there are both.
pub fn lesser_moment(one: Option<Moment>, other: Option<Moment>) -> Option<Moment>
    ensures { (t : ℕ) → (IsUpTo one t × IsUpTo other t) ↔ IsUpTo result t }
{
    match one {
        Some(moment) => match other {
            Some(further) => Some(moment.min(further)),
            None => one,
        },
        None => other,
    }
}

/// The least moment of what pends in the part after its window, or went out of it.
pub(crate) fn least_after<Q: EventQueue<Event> + Drop>(
    part: &Part<Q>,
    out: &[Event],
) -> Option<Moment>
    ensures { IsLeastOf (world_of Q.set part.now) out.now result }
{
    lesser_moment(first_moment_of(part), least_of(out))
}

/// The first moment that pends in the part.
pub fn first_moment_of<Q: EventQueue<Event> + Drop>(part: &Part<Q>) -> Option<Moment>
    ensures { (t : ℕ) → NoneIsBelow (world_of Q.set part.now).pending t ↔ IsUpTo result t }
{
    match part.least() {
        Some(key) => Some(key.at),
        None => None,
    }
}

/// The least moment of these events.
fn least_of(events: &[Event]) -> Option<Moment>
    ensures { (t : ℕ) → AllByRecursion (λ (e : AnEvent). t ≤ e.key.at) events.now ↔ IsUpTo result t }
{
    let mut least = None;
    for event in events {
        least = lesser_moment(least, Some(event.key.at));
    }
    least
}
