//! What holds of every schedule of safe steps and of all windows, stated over the definitions alone.

ghost use Rattle.std.specs.Prelude.{◌≡◌, ◌+◌, ◌<◌, ◌≤◌, ◌++◌, ℕ, Bool, true, List, Option, Some, All, map};
ghost use Rattle.std.specs.List.Sorted.{IsPermutation, IsSorted};
ghost use Rattle.std.specs.FinMap.{get, remove};
ghost use Rattle.std.specs.declared.cmp.Ordering.{Ordering};
ghost use Rattle.base.specs.declared.key.Key.{Key};
ghost use Rattle.base.specs.World.{IsPending, IsOver, Run, events_of, outcome};
ghost use Rattle.base.specs.Rising.{IsRising, IsPlaceBefore, AreNew};
ghost use Rattle.scenario.specs.Setup.{Setup, IsSound, member_count};
ghost use Rattle.trace.specs.declared.row.Row.{Row};
ghost use Rattle.member.specs.declared.event_kind.EventKind.{EventKind};
ghost use Rattle.member.specs.State.{State};
ghost use Rattle.member.specs.Opening.{opening};
ghost use Rattle.member.specs.Places.{place_of};
ghost use Rattle.member.specs.Step.{step};
ghost use Rattle.member_laws.specs.Runs.{Cluster, IsSoundCluster};
ghost use Rattle.windows.specs.Schedule.{TestedStep, Schedule, CatchesUp, MeetsState, rows_by};
ghost use Rattle.windows.specs.Window.{is_own, IsConsistentPart};
ghost use Rattle.windows.specs.Parts.{Window, IsCommonBound, AreWindowsOfDifferentParts, IncludesPart, PartRun, PartWindow, StandsAfter, is_in, part_of, for_own, all_out, all_keys, all_rows};
ghost use Rattle.windows.specs.Horizon.{AreHorizons};
ghost use Rattle.windows.specs.Cluster.{UsesUpTo, IsWholeCluster, IsPeopled, LiesBetween, IsClearOf, link_delay, IsLeastDelay, SafeStep, SafeSchedule, IsRunFrom, IsRowOrder, IsWhole, whose};

use trace::Row;

/// A safe event that is handled before its turn changes nothing of what follows: the run that waits
/// for its turn handles first events for other members, with the same rows, and then comes to the
/// world to which these same events lead after it.
pub fn a_safe_event_may_come_early()
    ensures { (s : Setup) (least_delay : Option ℕ) (w v : Cluster) (k : Key) (made : List Row)
        → IsSound s → IsLeastDelay s least_delay → IsSoundCluster s w → SafeStep s least_delay w k v made
        → CatchesUp (step s) s.end w v k made }
{}

/// Every run begins in a sound cluster, and safe steps keep it so.
pub fn safe_steps_keep_a_cluster_sound()
    ensures opening { (s : Setup) → IsSound s → IsSoundCluster s (opening s) }
    ensures schedule { (s : Setup) (least_delay : Option ℕ) (w v : Cluster) (keys : List Key) (rows : List Row)
        → IsSound s → IsLeastDelay s least_delay → IsSoundCluster s w → SafeSchedule s least_delay w keys rows v
        → IsSoundCluster s v }
{}

/// A run is such a schedule, in which the least of all pending events is always the next.
pub fn a_run_is_a_schedule()
    ensures { (s : Setup) (least_delay : Option ℕ) (w v : Cluster) (keys : List Key) (rows : List Row)
        → IsSound s → IsLeastDelay s least_delay → Run (step s) s.end w keys rows v
        → SafeSchedule s least_delay w keys rows v }
{}

/// What a schedule of safe steps handles and writes, and what the run from where it ends does, are
/// together what the run does, in another order. Each member's rows stand in the run's order: those
/// of a schedule are a beginning of its rows in the run.
pub fn a_schedule_writes_the_rows_of_the_run()
    ensures keys { (s : Setup) (least_delay : Option ℕ) (w v : Cluster) (keys run_keys left_keys : List Key) (rows run left : List Row)
        → IsSound s → IsLeastDelay s least_delay → IsSoundCluster s w → SafeSchedule s least_delay w keys rows v
        → IsRunFrom s w run_keys run → IsRunFrom s v left_keys left
        → IsPermutation (keys ++ left_keys) run_keys }
    ensures rows { (s : Setup) (least_delay : Option ℕ) (w v : Cluster) (keys run_keys left_keys : List Key) (rows run left : List Row)
        → IsSound s → IsLeastDelay s least_delay → IsSoundCluster s w → SafeSchedule s least_delay w keys rows v
        → IsRunFrom s w run_keys run → IsRunFrom s v left_keys left
        → IsPermutation (rows ++ left) run }
    ensures of_each_member { (s : Setup) (least_delay : Option ℕ) (w v : Cluster) (keys run_keys left_keys : List Key) (rows run left : List Row)
        → IsSound s → IsLeastDelay s least_delay → IsSoundCluster s w → SafeSchedule s least_delay w keys rows v
        → IsRunFrom s w run_keys run → IsRunFrom s v left_keys left
        → (m : ℕ) → rows_by whose m run ≡ rows_by whose m rows ++ rows_by whose m left }
{}

/// Where nothing is left up to the end, a schedule's rows, sorted, are the rows of the run.
pub fn a_schedule_to_the_end_writes_the_run()
    ensures { (s : Setup) (least_delay : Option ℕ) (w v : Cluster) (keys run_keys : List Key) (rows sorted run : List Row) (cmp : Row → Row → Ordering)
        → IsSound s → IsLeastDelay s least_delay → IsSoundCluster s w → IsRowOrder cmp
        → SafeSchedule s least_delay w keys rows v → IsOver s.end v → IsRunFrom s w run_keys run
        → IsPermutation rows sorted → IsSorted cmp sorted → run ≡ sorted }
{}

/// A member has no state that it doesn't have in the run: not where a schedule of safe steps leads,
/// nor after the steps of a part below a common bound.
pub fn a_schedule_meets_the_states_of_the_run()
    ensures schedule { (s : Setup) (least_delay : Option ℕ) (w v : Cluster) (keys : List Key) (rows : List Row) (m : ℕ) (t : State)
        → IsSound s → IsLeastDelay s least_delay → IsSoundCluster s w → SafeSchedule s least_delay w keys rows v
        → MeetsState (step s) s.end v m t → MeetsState (step s) s.end w m t }
    ensures part { (s : Setup) (least_delay : Option ℕ) (division : ℕ → ℕ) (part bound : ℕ) (w after : Cluster) (keys : List Key)
        (out : List (Key × EventKind)) (rows : List Row) (m : ℕ) (t : State)
        → IsSound s → IsLeastDelay s least_delay → IsSoundCluster s w → IsCommonBound s.end least_delay w bound
        → PartRun (step s) (is_in division part) bound (part_of (is_in division part) w) keys out rows after → get after.members m ≡ Some t
        → MeetsState (step s) s.end w m t }
{}

/// Where a schedule has handled all that pends before a bound, and nothing later, its rows, sorted,
/// are the next rows of the run.
pub fn the_rows_before_a_bound_are_next()
    ensures { (s : Setup) (least_delay : Option ℕ) (bound : ℕ) (w v : Cluster) (keys run_keys left_keys : List Key) (rows sorted run left : List Row)
        (cmp : Row → Row → Ordering) → IsSound s → IsLeastDelay s least_delay → IsSoundCluster s w → IsRowOrder cmp
        → SafeSchedule s least_delay w keys rows v → All (λ (k : Key). k.at < bound) keys → ((q : Key) → IsPending v q → bound ≤ q.at)
        → IsRunFrom s w run_keys run → IsRunFrom s v left_keys left
        → IsPermutation rows sorted → IsSorted cmp sorted → run ≡ sorted ++ left }
{}

/// No event made takes the place of another, also in a schedule and in a part: each that pends has a
/// number that its sender has used, what a step of a part makes for the part is new there, and what
/// went out of the windows of all parts is new in each part after its window.
pub fn events_stay_new()
    ensures opening { (s : Setup) → UsesUpTo (opening s) }
    ensures numbers { (s : Setup) (least_delay : Option ℕ) (w v : Cluster) (keys : List Key) (rows : List Row)
        → IsSound s → UsesUpTo w → SafeSchedule s least_delay w keys rows v → UsesUpTo v }
    ensures part { (s : Setup) (least_delay : Option ℕ) (division : ℕ → ℕ) (part bound : ℕ) (w p : Cluster) (keys : List Key)
        (out : List (Key × EventKind)) (rows : List Row) (k : Key) (c : EventKind)
        → IsSound s → IsLeastDelay s least_delay → IsSoundCluster s w → UsesUpTo w → IsCommonBound s.end least_delay w bound
        → PartRun (step s) (is_in division part) bound (part_of (is_in division part) w) keys out rows p → get p.pending k ≡ Some c
        → AreNew (remove p.pending k) (for_own (is_in division part) (events_of (outcome (step s) p k c))) }
    ensures sent { (s : Setup) (division bounds : ℕ → ℕ) (w : Cluster) (windows : List (Window State EventKind Row))
        → IsSound s → UsesUpTo w → AreWindowsOfDifferentParts (step s) division bounds w windows
        → All (λ (d : Window State EventKind Row). AreNew d.after.pending (for_own (is_in division d.part) (all_out windows))) windows }
{}

/// What a part sends out comes at least its pair's delay after any moment before which nothing pends in
/// the part.
pub fn a_part_sends_out_late()
    ensures { (s : Setup) (owns : ℕ → Bool) (bound from : ℕ) (p after : Cluster) (keys : List Key) (out : List (Key × EventKind)) (rows : List Row)
        → IsSound s → ((q : Key) → IsPending p q → (owns q.to ≡ true) × (from ≤ q.at))
        → PartRun (step s) owns bound p keys out rows after
        → All (λ (e : Key × EventKind). from + link_delay s e.0.from e.0.to ≤ e.0.at) out }
{}

/// The windows of different parts below a common bound, in any order, are a schedule of safe steps.
/// It leads to a world, and to one alone, of which each part is as its window leaves it and as the
/// events find it that went out of the others; nothing is left there below the bound.
pub fn windows_are_safe_steps()
    ensures schedule { (s : Setup) (least_delay : Option ℕ) (division : ℕ → ℕ) (bound : ℕ) (w : Cluster) (windows : List (Window State EventKind Row))
        → IsSound s → IsLeastDelay s least_delay → IsSoundCluster s w → IsCommonBound s.end least_delay w bound
        → AreWindowsOfDifferentParts (step s) division (λ part. bound) w windows
        → (v : Cluster) × SafeSchedule s least_delay w (all_keys windows) (all_rows windows) v × StandsAfter division w windows v }
    ensures one { (division : ℕ → ℕ) (w u v : Cluster) (windows : List (Window State EventKind Row))
        → StandsAfter division w windows u → StandsAfter division w windows v → u ≡ v }
    ensures none_left { (s : Setup) (least_delay : Option ℕ) (division : ℕ → ℕ) (bound : ℕ) (w v : Cluster) (windows : List (Window State EventKind Row))
        → IsSound s → IsLeastDelay s least_delay → IsSoundCluster s w → IsCommonBound s.end least_delay w bound
        → AreWindowsOfDifferentParts (step s) division (λ part. bound) w windows → IsWhole s division windows → StandsAfter division w windows v
        → (q : Key) → IsPending v q → bound ≤ q.at }
{}

/// The rows of the windows of all parts below a common bound, sorted, are the next rows of the run.
pub fn windows_write_the_next_rows()
    ensures { (s : Setup) (least_delay : Option ℕ) (division : ℕ → ℕ) (bound : ℕ) (w v : Cluster) (windows : List (Window State EventKind Row))
        (run_keys left_keys : List Key) (sorted run left : List Row) (cmp : Row → Row → Ordering)
        → IsSound s → IsLeastDelay s least_delay → IsSoundCluster s w → IsRowOrder cmp → IsCommonBound s.end least_delay w bound
        → AreWindowsOfDifferentParts (step s) division (λ part. bound) w windows → IsWhole s division windows → StandsAfter division w windows v
        → IsRunFrom s w run_keys run → IsRunFrom s v left_keys left
        → IsPermutation (all_rows windows) sorted → IsSorted cmp sorted → run ≡ sorted ++ left }
{}

/// Each part may run up to a bound of its own, where no pending event's walk of links reaches the
/// part before it: a clear event may be handled before its turn, and windows below such bounds, in
/// any order, are a schedule of clear steps, after which no part has events left below its bound. Of
/// such a schedule's rows, those of the run from where it ends are the rest, and each member's rows
/// are a beginning of its rows in the run; it meets no state that the run doesn't. A clear step lowers
/// no horizon: what were horizons before it still are.
pub fn parts_may_run_to_their_horizons()
    ensures early { (s : Setup) (division : ℕ → ℕ) (between : ℕ → ℕ → ℕ) (w v : Cluster) (k : Key) (made : List Row)
        → IsSound s → LiesBetween s division between → IsSoundCluster s w
        → TestedStep (step s) (IsClearOf s division between) w k v made → CatchesUp (step s) s.end w v k made }
    ensures windows { (s : Setup) (division : ℕ → ℕ) (between : ℕ → ℕ → ℕ) (bounds : ℕ → ℕ) (w : Cluster) (windows : List (Window State EventKind Row))
        → IsSound s → LiesBetween s division between → IsSoundCluster s w
        → AreHorizons s.end division (IsPeopled s division) between bounds w → AreWindowsOfDifferentParts (step s) division bounds w windows
        → (v : Cluster) × Schedule (step s) (IsClearOf s division between) w (all_keys windows) (all_rows windows) v
        × StandsAfter division w windows v × IsSoundCluster s v }
    ensures none_left { (s : Setup) (division : ℕ → ℕ) (between : ℕ → ℕ → ℕ) (bounds : ℕ → ℕ) (w v : Cluster) (windows : List (Window State EventKind Row))
        → IsSound s → LiesBetween s division between → IsSoundCluster s w
        → AreHorizons s.end division (IsPeopled s division) between bounds w → AreWindowsOfDifferentParts (step s) division bounds w windows
        → StandsAfter division w windows v → (q : Key) → IsPending v q → IncludesPart windows (division q.to) → bounds (division q.to) ≤ q.at }
    ensures rows { (s : Setup) (division : ℕ → ℕ) (between : ℕ → ℕ → ℕ) (w v : Cluster) (keys run_keys left_keys : List Key) (rows run left : List Row)
        → IsSound s → LiesBetween s division between → IsSoundCluster s w → Schedule (step s) (IsClearOf s division between) w keys rows v
        → IsRunFrom s w run_keys run → IsRunFrom s v left_keys left → IsPermutation (rows ++ left) run }
    ensures of_each_member { (s : Setup) (division : ℕ → ℕ) (between : ℕ → ℕ → ℕ) (w v : Cluster) (keys run_keys left_keys : List Key) (rows run left : List Row)
        → IsSound s → LiesBetween s division between → IsSoundCluster s w → Schedule (step s) (IsClearOf s division between) w keys rows v
        → IsRunFrom s w run_keys run → IsRunFrom s v left_keys left
        → (m : ℕ) → rows_by whose m run ≡ rows_by whose m rows ++ rows_by whose m left }
    ensures horizons { (s : Setup) (division : ℕ → ℕ) (between : ℕ → ℕ → ℕ) (bounds : ℕ → ℕ) (w v : Cluster) (k : Key) (made : List Row)
        → IsSound s → LiesBetween s division between → IsSoundCluster s w
        → AreHorizons s.end division (IsPeopled s division) between bounds w → TestedStep (step s) (IsClearOf s division between) w k v made
        → AreHorizons s.end division (IsPeopled s division) between bounds v }
    ensures states { (s : Setup) (division : ℕ → ℕ) (between : ℕ → ℕ → ℕ) (w v : Cluster) (keys : List Key) (rows : List Row) (m : ℕ) (t : State)
        → IsSound s → LiesBetween s division between → IsSoundCluster s w → Schedule (step s) (IsClearOf s division between) w keys rows v
        → MeetsState (step s) s.end v m t → MeetsState (step s) s.end w m t }
{}

/// The order of rows is one that the laws speak of: by their places first.
pub fn rows_are_in_order_of_places()
    ensures { IsRowOrder ⟦<Row as Ord>⟧.cmp }
{}

/// A part of a whole cluster is consistent, and its members are those of its number, so that its window
/// (`RunsWindow`) is that of the division's part of that number (`IsWindowOfItsPart`).
pub fn a_part_owns_the_members_of_its_number()
    ensures consistent { (s : Setup) (owns : ℕ → Bool) (w : Cluster) → IsWholeCluster s w → IsConsistentPart s (part_of owns w) }
    ensures window { (s : Setup) (division : ℕ → ℕ) (part bound : ℕ) (w after : Cluster) (keys : List Key) (out : List (Key × EventKind)) (rows : List Row)
        → IsWholeCluster s w → ((m : ℕ) → division m ≡ part → m < member_count s)
        → PartWindow (step s) (is_own (part_of (is_in division part) w)) bound (part_of (is_in division part) w) keys out rows after
        → PartWindow (step s) (is_in division part) bound (part_of (is_in division part) w) keys out rows after }
{}

/// The rows of a part's steps stand in row order as they are: by their places, of which no two agree.
pub fn a_part_writes_in_row_order()
    ensures { (s : Setup) (owns : ℕ → Bool) (bound : ℕ) (p after : Cluster) (keys : List Key) (out : List (Key × EventKind)) (rows : List Row)
        → IsSound s → PartRun (step s) owns bound p keys out rows after → IsRising IsPlaceBefore (map place_of rows) }
{}
