//! What holds of every step of a sound scenario, said of the definitions alone.

ghost use Rattle.std.specs.Prelude.{◌≡◌, ◌≢◌, ℕ, ◌+◌, ◌≤◌};
ghost use Rattle.std.specs.List.{AllByRecursion};
ghost use Rattle.base.specs.declared.key.Key.{Key};
ghost use Rattle.base.specs.Run.{MakesLater};
ghost use Rattle.base.specs.Rising.{CountsRows, UsesNumbers};
ghost use Rattle.scenario.specs.Setup.{Setup, IsSound, link_between};
ghost use Rattle.member.specs.declared.event_kind.EventKind.{EventKind as AnyContent};
ghost use Rattle.member.specs.State.{State};
ghost use Rattle.member.specs.Step.{step};
ghost use Rattle.member.specs.Places.{place_of};

/// Each event that a step makes comes later than the event that it handles, and one for another member
/// no earlier than the pair's link lets it.
pub fn events_come_later()
    ensures later { (s : Setup) → IsSound s → MakesLater (step s) }
    ensures linked { (s : Setup) → IsSound s → (k : Key) (c : AnyContent) (t : State)
        → AllByRecursion (λ e. e.0.to ≢ k.to → k.at + (link_between s k.to e.0.to).delay ≤ e.0.at) (step s k c t).events }
{}

/// The member is the sender of each event that its step makes, and uses each number once: the numbers
/// rise in the order made, from its next number on.
pub fn numbers_are_used_once()
    ensures { (s : Setup) → IsSound s → UsesNumbers (λ (t : State). t.next_number) (step s) }
{}

/// Each row that a step writes carries the key of the event, and its place among them, from 0.
pub fn rows_carry_the_key()
    ensures { (s : Setup) → IsSound s → CountsRows place_of (step s) }
{}
