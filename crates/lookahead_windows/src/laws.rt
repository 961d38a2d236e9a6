//! What holds of worlds before a moment, of rounds and of their messages, stated over the definitions alone.

ghost use Rattle.std.specs.Prelude.{◌≡◌, ◌≢◌, ◌+◌, ◌<◌, ◌≤◌, ◌++◌, ℕ, true, List, [], Option, Some, All, map};
ghost use Rattle.std.specs.List.{AllByRecursion};
ghost use Rattle.std.specs.List.Sorted.{IsPermutation, IsSorted};
ghost use Rattle.std.specs.declared.cmp.Ordering.{Ordering};
ghost use Rattle.base.specs.declared.key.Key.{Key};
ghost use Rattle.base.specs.World.{Run, IsOver};
ghost use Rattle.base.specs.Rising.{IsRising, AreNew};
ghost use Rattle.scenario.specs.Setup.{Setup, IsSound, member_count};
ghost use Rattle.trace.specs.declared.row.Row.{Row};
ghost use Rattle.worker_queue.specs.Queue.{NoneIsBelow};
ghost use Rattle.member.specs.declared.event_kind.EventKind.{EventKind};
ghost use Rattle.member.specs.declared.event.Event.{Event};
ghost use Rattle.member.specs.State.{State};
ghost use Rattle.member.specs.StateOf.{pair_of};
ghost use Rattle.member.specs.Opening.{opening};
ghost use Rattle.member.specs.Step.{step};
ghost use Rattle.member_laws.specs.Runs.{Cluster, IsRunOf, CounterOverflows};
ghost use Rattle.windows.specs.Schedule.{Schedule};
ghost use Rattle.windows.specs.Parts.{Window, is_in, part_of, with_arrivals};
ghost use Rattle.windows.specs.Horizon.{Walk, AreHorizons, length_of};
ghost use Rattle.windows.specs.Window.{is_own, IsConsistentPart, RunsWindow};
ghost use Rattle.windows.specs.Wears.{OverflowsInWindow};
ghost use Rattle.windows.specs.Play.{IsBeginning};
ghost use Rattle.windows.specs.Cluster.{IsLeastDelay, IsPeopled, LiesBetween, IsClearOf, IsRowOrder, IsWholeCluster, SafeSchedule};
ghost use Rattle.lookahead_windows.specs.Before.{RunsBefore, IsWorldBefore, AreRowsBefore};
ghost use Rattle.lookahead_windows.specs.Plan.{Plan, IsPlan, bound_of};
ghost use Rattle.lookahead_windows.specs.Starts.{IsUpTo, IsFirstMoment, IsRound, HasRunTo};
ghost use Rattle.lookahead_windows.specs.Messages.{BeginsRound, IsWindowOfRound, IsLeastAfter, IsMessage, Message, all_events, AreOfAllOthers, IsLeastOfAll};
ghost use Rattle.lookahead_windows.specs.Lots.{IsLot, PartRows, every_row, AreLotsOfAll, HasLasted, IsNotOverflowed};

/// Up to the moment after the end there is a world before each moment, and one alone, and one list of
/// rows. While nothing pends before the moment, it is the opening. It is a whole cluster. Past the end the
/// rows are the run's, and so they are where nothing is left up to the end; before they are a beginning of
/// them.
pub fn there_is_one_world_before_a_moment()
    ensures some { (s : Setup) (t : ℕ) → IsSound s → t ≤ s.end + 1 → (w : Cluster) × IsWorldBefore s t w }
    ensures one { (s : Setup) (t : ℕ) (u v : Cluster) → IsSound s → IsWorldBefore s t u → IsWorldBefore s t v → u ≡ v }
    ensures rows { (s : Setup) (t : ℕ) (first second : List Row) → IsSound s → AreRowsBefore s t first
        → AreRowsBefore s t second → first ≡ second }
    ensures opening { (s : Setup) (t : ℕ) → NoneIsBelow (opening s).pending t → RunsBefore s t [] [] (opening s) }
    ensures whole { (s : Setup) (t : ℕ) (w : Cluster) → IsSound s → IsWorldBefore s t w → IsWholeCluster s w }
    ensures ends { (s : Setup) (t : ℕ) (rows : List Row) → AreRowsBefore s t rows → s.end < t → IsRunOf s rows }
    ensures over { (s : Setup) (t : ℕ) (keys : List Key) (rows : List Row) (w : Cluster) → RunsBefore s t keys rows w
        → NoneIsBelow w.pending (s.end + 1) → IsRunOf s rows }
    ensures all { (s : Setup) (rows : List Row) → IsRunOf s rows → AreRowsBefore s (s.end + 1) rows }
    ensures beginning { (s : Setup) (t : ℕ) (rows run : List Row) → IsSound s → AreRowsBefore s t rows
        → IsRunOf s run → IsBeginning rows run }
{}

/// A schedule of safe or of clear steps that has handled all that pends before a bound, and nothing later,
/// leads from a world before a moment to the world before the bound.
pub fn schedules_lead_to_the_world_before_their_bound()
    ensures safe { (s : Setup) (least_delay : Option ℕ) (from bound : ℕ) (w v : Cluster) (keys : List Key)
        (rows : List Row)
        → IsSound s → IsLeastDelay s least_delay → IsWorldBefore s from w → from ≤ bound
        → SafeSchedule s least_delay w keys rows v
        → All (λ (k : Key). k.at < bound) keys → NoneIsBelow v.pending bound → IsWorldBefore s bound v }
    ensures clear { (s : Setup)
        (division : ℕ → ℕ) (between : ℕ → ℕ → ℕ) (from bound : ℕ) (w v : Cluster) (keys : List Key) (rows : List Row)
        → IsSound s → LiesBetween s division between → IsWorldBefore s from w → from ≤ bound
        → Schedule (step s) (IsClearOf s division between) w keys rows v
        → All (λ (k : Key). k.at < bound) keys → NoneIsBelow v.pending bound → IsWorldBefore s bound v }
{}

/// The rounds of a plan: there is one of each number, and one alone, in a whole cluster. Its bounds are
/// horizons: no walk from what pends reaches a part before its bound. While something pends up to the end, a
/// round's number is no more than the first moment that pends, and each part runs past that moment.
pub fn rounds_follow_each_other()
    ensures some { (plan : Plan) (round : ℕ) → IsPlan plan → (w : Cluster) × (first : Option ℕ) × IsRound plan round w first }
    ensures one { (plan : Plan) (round : ℕ) (w v : Cluster) (first second : Option ℕ)
        → IsPlan plan → IsRound plan round w first → IsRound plan round v second → (w ≡ v) × (first ≡ second) }
    ensures opening { (plan : Plan) (w : Cluster) (first : Option ℕ) → IsWorldBefore plan.setup plan.since w
        → IsFirstMoment w first → IsRound plan 0 w first }
    ensures whole { (plan : Plan) (round : ℕ) (w : Cluster) (first : Option ℕ) → IsPlan plan → IsRound plan round w first
        → IsWholeCluster plan.setup w }
    ensures horizons { (plan : Plan) (round : ℕ) (w : Cluster) (first : Option ℕ) (between : ℕ → ℕ → ℕ)
        → ((from to : ℕ) (walk : Walk (IsPeopled plan.setup plan.division) from to)
        → plan.way_into to ≤ length_of between walk)
        → IsRound plan round w first
        → AreHorizons plan.setup.end plan.division (IsPeopled plan.setup plan.division) between (bound_of plan first) w }
    ensures numbers { (plan : Plan) (round first : ℕ) (w : Cluster) → IsPlan plan → IsRound plan round w (Some first)
        → first ≤ plan.setup.end → round ≤ first }
    ensures past { (plan : Plan) (first part : ℕ) → IsPlan plan → first ≤ plan.setup.end
        → first < bound_of plan (Some first) part }
{}

/// A part begins as its part of the first round's world, is consistent wherever a round begins, and its window
/// there is that of the round, which it is to report; each part has one in each round. A counter overflow in
/// its window is one in the run.
pub fn a_part_reports_its_window()
    ensures opening { (plan : Plan) (part : ℕ) (w : Cluster) (first : Option ℕ) → IsWorldBefore plan.setup plan.since w
        → IsFirstMoment w first → BeginsRound plan part 0 first (part_of (is_in plan.division part) w) }
    ensures some { (plan : Plan) (part round : ℕ) → IsPlan plan
        → (window : Window State EventKind Row) × (window.part ≡ part) × IsWindowOfRound plan round window }
    ensures consistent { (plan : Plan) (part round : ℕ) (first : Option ℕ) (p : Cluster)
        → IsPlan plan → BeginsRound plan part round first p → IsConsistentPart plan.setup p }
    ensures window { (plan : Plan) (part round : ℕ) (first : Option ℕ) (p after : Cluster) (out : List Event) (rows : List Row)
        → IsPlan plan → part < plan.parts → BeginsRound plan part round first p
        → RunsWindow plan.setup (bound_of plan first part) p out rows after
        → (keys : List Key) × IsWindowOfRound plan round
        (record { part = part; keys = keys; out = map pair_of out; rows = rows; after = after }) }
    ensures overflow { (plan : Plan) (part round : ℕ) (first : Option ℕ) (p : Cluster)
        → IsPlan plan → part < plan.parts → BeginsRound plan part round first p
        → OverflowsInWindow plan.setup (bound_of plan first part) p → CounterOverflows plan.setup }
{}

/// From its own window and the messages of all other parts in a round, a part has all that the next round
/// begins with: itself, once the events have come, which are new to it and for its members, and the first
/// moment that pends anywhere. Of some of the others too the events are new to it and for its members.
pub fn a_part_goes_by_its_messages()
    ensures next { (plan : Plan) (round : ℕ) (window : Window State EventKind Row) (messages : List Message)
        (own first : Option ℕ)
        → IsPlan plan → window.part < plan.parts → IsWindowOfRound plan round window
        → AreOfAllOthers plan window.part round messages → IsLeastAfter window own
        → IsLeastOfAll own messages first
        → BeginsRound plan window.part (round + 1) first (with_arrivals window.after (all_events messages)) }
    ensures new { (plan : Plan) (round : ℕ) (window : Window State EventKind Row) (messages : List Message)
        → IsPlan plan → IsWindowOfRound plan round window
        → AllByRecursion (λ (m : Message). IsMessage plan m.from window.part round m.events m.least) messages
        → AllByRecursion (λ (m : Message). window.part ≢ m.from) messages
        → IsRising (λ (m n : Message). m.from ≢ n.from) messages
        → AreNew window.after.pending (all_events messages) }
    ensures own { (plan : Plan) (round : ℕ) (window : Window State EventKind Row) (messages : List Message)
        → IsPlan plan → window.part < plan.parts → IsWindowOfRound plan round window
        → AllByRecursion (λ (m : Message). IsMessage plan m.from window.part round m.events m.least) messages
        → AllByRecursion (λ (e : Key × EventKind). is_own window.after e.0.to ≡ true) (all_events messages) }
{}

/// The rows of a part's window in a round are its lot from the moment to which it had run up to its bound.
/// Lots that follow each other join, and one is cut at any moment within it. Where nothing is left up to
/// the end, no rows are left. The lots of all parts, sorted, are the next rows of the run.
pub fn lots_make_the_run()
    ensures window { (plan : Plan) (round from to : ℕ) (window : Window State EventKind Row)
        → IsPlan plan → window.part < plan.parts → IsWindowOfRound plan round window
        → HasRunTo plan round window.part from → HasRunTo plan (round + 1) window.part to
        → IsLot plan.setup plan.division window.part from to window.rows }
    ensures none { (s : Setup) (division : ℕ → ℕ) (part t : ℕ) → IsSound s → t ≤ s.end + 1
        → IsLot s division part t t [] }
    ensures join { (s : Setup) (division : ℕ → ℕ) (part from mid to : ℕ) (rows more : List Row) → IsSound s
        → IsLot s division part from mid rows → IsLot s division part mid to more
        → IsLot s division part from to (rows ++ more) }
    ensures cut { (s : Setup) (division : ℕ → ℕ) (part from mid to : ℕ) (front back : List Row) → IsSound s
        → from ≤ mid → mid ≤ to → IsLot s division part from to (front ++ back)
        → AllByRecursion (λ (row : Row). row.at < mid) front → AllByRecursion (λ (row : Row). mid ≤ row.at) back
        → IsLot s division part from mid front × IsLot s division part mid to back }
    ensures rises { (s : Setup) (division : ℕ → ℕ) (part from to : ℕ) (rows : List Row) → IsSound s
        → IsLot s division part from to rows → IsRising (λ (a b : Row). a.at ≤ b.at) rows }
    ensures rest { (plan : Plan) (part round from : ℕ) (first : Option ℕ) (p : Cluster)
        → IsPlan plan → part < plan.parts → BeginsRound plan part round first p → IsUpTo first (plan.setup.end + 1)
        → HasRunTo plan round part from → IsLot plan.setup plan.division part from (plan.setup.end + 1) [] }
    ensures next { (s : Setup) (division : ℕ → ℕ) (from to : ℕ) (lots : List PartRows) (before sorted : List Row)
        (cmp : Row → Row → Ordering)
        → IsSound s → AreRowsBefore s from before → AreLotsOfAll s division from to lots
        → IsRowOrder cmp → IsPermutation (every_row lots) sorted → IsSorted cmp sorted
        → AreRowsBefore s to (before ++ sorted) }
{}

/// Where all parts have come to the end, the run has: in the world in which it ends no counter is past its
/// limit.
pub fn a_run_has_lasted()
    ensures world { (plan : Plan) (round : ℕ) → IsPlan plan
        → ((m : ℕ) → m < member_count plan.setup → HasLasted plan (plan.division m) round)
        → (keys : List Key) × (rows : List Row) × (w : Cluster)
        × Run (step plan.setup) plan.setup.end (opening plan.setup) keys rows w × IsOver plan.setup.end w × IsNotOverflowed w }
{}
