//! What holds of every step, stated over the definitions alone.

ghost use Rattle.std.specs.Prelude.{◌≡◌, ◌≢◌, ◌<◌, ◌≤◌, ◌+◌, ◌^◌, ℕ, true, false, Some, None, List, [], map, length, All};
ghost use Rattle.std.specs.List.Sorted.{IsStrictlyIncreasing};
ghost use Rattle.std.specs.FinMap.{get};
ghost use Rattle.std.specs.FinSet as set;
ghost use Rattle.base.specs.Beats.{next_in_step};
ghost use Rattle.base.specs.declared.key.Key.{Key};
ghost use Rattle.base.specs.World.{Run};
ghost use Rattle.scenario.specs.Setup.{Setup, IsSound, member_count};
ghost use Rattle.scenario.specs.Profile.{profile_of};
ghost use Rattle.base.specs.declared.profile.Profile.TheVariants.{Papers, Memberlist, Hashicorp};
ghost use Rattle.trace.specs.declared.row.Row.{Row};
ghost use Rattle.trace.specs.declared.row.What.TheVariants as what;
ghost use Rattle.trace.specs.Text.{NamesMembers};
ghost use Rattle.incarnation.specs.declared.Claim.{Claim};
ghost use Rattle.incarnation.specs.declared.Claim.TheVariants.{Alive, Confirm};
ghost use Rattle.incarnation.specs.declared.Update.{Update};
ghost use Rattle.lifeguard.specs.declared.probe.Probe.{Probe};
ghost use Rattle.lifeguard.specs.Health.{LocalHealth, scaled};
ghost use Rattle.membership.specs.Table.{Known};
ghost use Rattle.member.specs.declared.event_kind.EventKind.{EventKind};
ghost use Rattle.member.specs.declared.event_kind.EventKind.TheVariants.{Start, Leave, Bye, PeriodTimer, DeadlineTimer};
ghost use Rattle.member.specs.declared.member.Phase.TheVariants.{Waiting, Running, Down};
ghost use Rattle.member.specs.State.{State};
ghost use Rattle.member.specs.Opening.{opening_state, opening_health, opening};
ghost use Rattle.member.specs.declared.announce.Announce.{Announce};
ghost use Rattle.member.specs.Effects.{Effect, unchanged};
ghost use Rattle.member.specs.Forgetting.{kept_for, is_long_dead, round_ended};
ghost use Rattle.member.specs.LoneBuddy.{lone_buddy_of};
ghost use Rattle.member.specs.SingleBeat.{is_in_step};
ghost use Rattle.member.specs.Leaves.{leave_gone_on};
ghost use Rattle.member.specs.Send.{whole_table, buddy_of};
ghost use Rattle.member.specs.Wholes.{whole_state};
ghost use Rattle.member.specs.Apply.{applied};
ghost use Rattle.member.specs.Step.{needs_timer, is_under_way, step, plain_step};
ghost use Rattle.member_laws.specs.Words.{has_relays, AccusesOneself, IsRefuted, WaitsAsOpened, HasSettledLeave, IsWithinCeiling, IsTimely, IsConsistent, IsAmongMembers, IsBorn, is_restart};
ghost use Rattle.member_laws.specs.Rows.{IsOn};
ghost use Rattle.member_laws.specs.Runs.{Cluster, IsRunOf, IsPlainRunOf, LeadsTo, IsReached};

/// A member's incarnation number becomes the one after that of a claim which it refutes, and stays at
/// whatever else it hears. By the papers' rules it so rises by one where it hears itself suspected at
/// its present number, and stays at all else. By the older rules, the papers' and memberlist's, no step lowers
/// it. By memberlist 0.5.0's rules none does but a start anew, which begins a life with a later birth.
pub fn an_incarnation_rises_to_refute_alone()
    ensures refuted { (s : Setup) (telling : Announce) (k : Key) (u : Update) (o : Effect)
        → IsRefuted (profile_of s) k.to o.state u
        → (applied s telling k u o).state.incarnation ≡ u.inc + 1 }
    ensures stays { (s : Setup) (telling : Announce) (k : Key) (u : Update) (o : Effect)
        → ¬ IsRefuted (profile_of s) k.to o.state u
        → (applied s telling k u o).state.incarnation ≡ o.state.incarnation }
    ensures refuted_by_papers { (s : Setup) (telling : Announce) (k : Key) (u : Update) (o : Effect)
        → profile_of s ≡ Papers → AccusesOneself k.to o.state u
        → (applied s telling k u o).state.incarnation ≡ o.state.incarnation + 1 }
    ensures stays_by_papers { (s : Setup) (telling : Announce) (k : Key) (u : Update) (o : Effect)
        → profile_of s ≡ Papers → ¬ AccusesOneself k.to o.state u
        → (applied s telling k u o).state.incarnation ≡ o.state.incarnation }
    ensures never_falls { (s : Setup) (k : Key) (c : EventKind) (t : State) → WaitsAsOpened s k.to t → IsBorn t
        → (step s k c t).state.life.birth ≡ t.life.birth → t.incarnation ≤ (step s k c t).state.incarnation }
    ensures never_falls_by_older_rules { (s : Setup) (k : Key) (c : EventKind) (t : State) → ¬ (profile_of s ≡ Hashicorp)
        → WaitsAsOpened s k.to t → t.incarnation ≤ (step s k c t).state.incarnation }
{}

/// By the papers' rules what is confirmed stays confirmed: a step leaves such an entry as it is.
pub fn a_confirmed_member_stays_so()
    ensures { (s : Setup) → profile_of s ≡ Papers → (k : Key) (c : EventKind) (t : State) (subject number : ℕ) → WaitsAsOpened s k.to t
        → get t.table subject ≡ Some (Confirm, number)
        → get (step s k c t).state.table subject ≡ Some (Confirm, number) }
{}

/// By memberlist's rules a member that is held as confirmed at a number is held as alive again only at
/// a number over it.
pub fn a_higher_number_alone_revives()
    ensures { (s : Setup) → profile_of s ≡ Memberlist → (k : Key) (c : EventKind) (t : State) (subject number after : ℕ)
        → WaitsAsOpened s k.to t → get t.table subject ≡ Some (Confirm, number)
        → get (step s k c t).state.table subject ≡ Some (Alive, after) → number < after }
{}

/// By memberlist 0.5.0's rules a member forgets, where a round of its probes is over, just those whom it has held dead
/// for longer than the dead are gossiped to. All else that it holds stays.
pub fn the_long_dead_alone_are_forgotten()
    ensures others { (s : Setup) (k : Key) (o : Effect) (q : ℕ) (held : Claim × ℕ) → get o.state.table q ≡ Some held
        → is_long_dead k.at (kept_for s.gossip) (o.state.since q) held.0 ≡ false
        → get (round_ended s k o).state.table q ≡ Some held }
    ensures gone { (s : Setup) (k : Key) (o : Effect) (q : ℕ) (held : Claim × ℕ) → q < member_count s
        → o.state.rota.mark ≡ length o.state.rota.members → get o.state.table q ≡ Some held
        → is_long_dead k.at (kept_for s.gossip) (o.state.since q) held.0 ≡ true
        → get (round_ended s k o).state.table q ≡ None }
{}

/// A member that is down does nothing until it starts again, which by the older rules it never does; and one that
/// waits does nothing before its start: nothing of its state changes, no word is drawn, no event is made and no row
/// is written.
pub fn a_silent_member_keeps_silent()
    ensures down { (s : Setup) (k : Key) (c : EventKind) (t : State) → t.phase ≡ Down → is_restart c ≡ false
        → step s k c t ≡ unchanged t }
    ensures down_for_good { (s : Setup) (k : Key) (c : EventKind) (t : State) → ¬ (profile_of s ≡ Hashicorp)
        → t.phase ≡ Down → step s k c t ≡ unchanged t }
    ensures waiting { (s : Setup) (k : Key) (c : EventKind) (t : State) → t.phase ≡ Waiting → c ≢ Start
        → step s k c t ≡ unchanged t }
{}

/// By memberlist's rules a beat ends the probe whose deadline has come, so the timer that it spares a
/// probe would change nothing: only a timer for the beat's very moment is spared, after that beat the
/// probe isn't under way, and a deadline timer of a probe that isn't under way changes nothing. By memberlist
/// 0.5.0's rules a timer is spared for each moment that is in step with the beat, and the period timer of the same
/// life, which comes by then, ends the probe. (There each event ends by what its member's leave still does, if
/// anything.)
pub fn a_beat_ends_a_probe_at_its_deadline()
    ensures spared { (beat period now : ℕ) (health : LocalHealth)
        → needs_timer (Some (next_in_step beat period now)) (now + scaled health period) ≡ false
        → next_in_step beat period now ≡ now + scaled health period }
    ensures ended { (s : Setup) (k : Key) (probe : Probe) (t : State) → profile_of s ≡ Memberlist → t.phase ≡ Running
        → t.probe ≡ Some probe → probe.deadline ≤ k.at → probe.seq ≤ t.sequence
        → is_under_way probe.seq (step s k PeriodTimer t).state.probe ≡ false }
    ensures in_step { (beat period now deadline : ℕ) → 0 < period → now < deadline → is_in_step beat period deadline ≡ true
        → next_in_step beat period now ≤ deadline }
    ensures once { (s : Setup) (k : Key) (its : Probe) (t : State) → profile_of s ≡ Hashicorp → t.phase ≡ Running
        → t.life.birth ≤ k.number → t.probe ≡ Some its → its.deadline ≤ k.at → its.seq ≤ t.sequence
        → is_under_way its.seq (step s k PeriodTimer t).state.probe ≡ false }
    ensures idle { (s : Setup) (k : Key) (seq : ℕ) (t : State) → is_under_way seq t.probe ≡ false
        → (profile_of s ≡ Hashicorp → leave_gone_on s k (unchanged t) ≡ unchanged t)
        → step s k (DeadlineTimer seq) t ≡ unchanged t }
    ensures idle_by_older_rules { (s : Setup) (k : Key) (seq : ℕ) (t : State) → ¬ (profile_of s ≡ Hashicorp)
        → is_under_way seq t.probe ≡ false
        → step s k (DeadlineTimer seq) t ≡ unchanged t }
{}

/// By memberlist 0.5.0's rules each event ends with what its member's leave still does, of which nothing is left to do
/// before the next one: neither at the opening, nor after a step, nor wherever a run has come. So by no rules does the
/// deadline timer of another probe than the one under way change anything in a run.
pub fn an_event_settles_what_a_leave_does()
    ensures opening { (s : Setup) (m : ℕ) → HasSettledLeave s m (opening_state s m) }
    ensures step { (s : Setup) (k : Key) (c : EventKind) (t : State) → profile_of s ≡ Hashicorp
        → WaitsAsOpened s k.to t → HasSettledLeave s k.to t → HasSettledLeave s k.to (step s k c t).state }
    ensures run { (s : Setup) (w : Cluster) (m : ℕ) (t : State) → profile_of s ≡ Hashicorp → IsReached s w
        → get w.members m ≡ Some t → HasSettledLeave s m t }
    ensures idle { (s : Setup) (w : Cluster) (k : Key) (seq : ℕ) (t : State) → IsReached s w
        → get w.members k.to ≡ Some t → is_under_way seq t.probe ≡ false
        → step s k (DeadlineTimer seq) t ≡ unchanged t }
{}

/// Lifeguard's local health stays within its ceiling (LHA-Probe). By the older rules no step changes a ceiling,
/// whatever it is. By memberlist 0.5.0's rules a start anew sets the scenario's ceiling, with which each member begins,
/// so no step changes that one.
pub fn health_stays_within_its_ceiling()
    ensures opening { (s : Setup) (m : ℕ) → IsWithinCeiling (opening_state s m).health }
    ensures counter { (s : Setup) (k : Key) (c : EventKind) (t : State) → IsWithinCeiling t.health
        → IsWithinCeiling (step s k c t).state.health }
    ensures ceiling { (s : Setup) (k : Key) (c : EventKind) (t : State)
        → t.health.ceiling ≡ (opening_health s).ceiling
        → (step s k c t).state.health.ceiling ≡ (opening_health s).ceiling }
    ensures ceiling_by_older_rules { (s : Setup) (k : Key) (c : EventKind) (t : State) → ¬ (profile_of s ≡ Hashicorp)
        → (step s k c t).state.health.ceiling ≡ t.health.ceiling }
{}

/// A member that waits for its start is as the run found it.
pub fn a_waiting_member_is_as_opened()
    ensures opening { (s : Setup) (m : ℕ) → WaitsAsOpened s m (opening_state s m) }
    ensures step { (s : Setup) (k : Key) (c : EventKind) (t : State) → WaitsAsOpened s k.to t
        → WaitsAsOpened s k.to (step s k c t).state }
{}

/// A member's state is consistent at the opening, and each event among members leaves it so: the
/// suspicions that stand, the members that are probed and the entries of its table agree. And the
/// events that it makes of it are among members too: all whom they name are members of the scenario.
pub fn states_stay_consistent()
    ensures opening { (s : Setup) (m : ℕ) → IsConsistent s m (opening_state s m) }
    ensures step { (s : Setup) (k : Key) (c : EventKind) (t : State) → IsSound s → IsAmongMembers s k c
        → IsConsistent s k.to t → IsConsistent s k.to (step s k c t).state }
    ensures events { (s : Setup) (k : Key) (c : EventKind) (t : State) → IsSound s → IsAmongMembers s k c
        → IsConsistent s k.to t
        → All (λ (e : Key × EventKind). IsAmongMembers s e.0 e.1) (step s k c t).events }
{}

/// What Lifeguard's mechanisms do is not done where they are switched off. Without LHA-Suspicion no
/// further accuser counts, without LHA-Probe no nack is sent and health stays full, so no time is
/// scaled; without the Buddy System no ping has a buddy. Without LHA-Probe no answer is owed to another's
/// probe, but by memberlist 0.5.0's rules, where a helper passes acks on only while it is.
pub fn what_is_off_is_not_done()
    ensures rows { (s : Setup) (k : Key) (c : EventKind) (t : State) → IsConsistent s k.to t
        → All (λ (row : Row). IsOn s row.what) (step s k c t).rows }
    ensures health { (s : Setup) (m : ℕ) (t : State) → s.lifeguard.probe ≡ false → IsConsistent s m t
        → t.health.counter ≡ 0 }
    ensures relays { (s : Setup) (m : ℕ) (t : State) → has_relays s ≡ false → IsConsistent s m t
        → (relay : ℕ × ℕ) → set.contains t.relays relay ≡ false }
    ensures buddy { (s : Setup) (to : ℕ) (t : State) → s.lifeguard.buddy ≡ false
        → buddy_of s to t ≡ None }
    ensures lone_buddy { (s : Setup) (me to : ℕ) (t : State) → s.lifeguard.buddy ≡ false
        → lone_buddy_of s me to t ≡ None }
{}

/// What a welcome holds, and a push and a pull, is sent in the sender's own name: the sender is the
/// accuser of each entry. The entries come in the order of the members' numbers, one for a member. So it is of the
/// whole state that is sent by memberlist 0.5.0's rules, in which the sender may say of itself that it has left.
pub fn a_whole_table_is_sent_in_ones_own_name()
    ensures accuser { (me incarnation : ℕ) (table : Known)
        → All (λ (u : Update). u.accuser ≡ me) (whole_table me incarnation table) }
    ensures order { (me incarnation : ℕ) (table : Known)
        → IsStrictlyIncreasing (map (λ (u : Update). u.subject) (whole_table me incarnation table)) }
    ensures state_accuser { (me : ℕ) (t : State) → All (λ (u : Update). u.accuser ≡ me) (whole_state me t) }
    ensures state_order { (me : ℕ) (t : State)
        → IsStrictlyIncreasing (map (λ (u : Update). u.subject) (whole_state me t)) }
{}

/// Through a run a member's incarnation number never falls within one life, and by the older rules, by which no
/// member starts again, it never falls at all. No life has an earlier birth than the one before.
pub fn a_run_lowers_no_incarnation()
    ensures within_one_life { (s : Setup) (w v : Cluster) (m : ℕ) (before after : State) → IsReached s w → LeadsTo s w v
        → get w.members m ≡ Some before → get v.members m ≡ Some after
        → (before.life.birth ≤ after.life.birth)
        × (before.life.birth ≡ after.life.birth → before.incarnation ≤ after.incarnation) }
    ensures by_older_rules { (s : Setup) (w v : Cluster) (m : ℕ) (before after : State) → ¬ (profile_of s ≡ Hashicorp)
        → IsReached s w → LeadsTo s w v
        → get w.members m ≡ Some before → get v.members m ≡ Some after
        → before.incarnation ≤ after.incarnation }
{}

/// Through a run by the papers' rules a member that holds another as confirmed never holds anything else
/// of it.
pub fn a_run_revives_nobody()
    ensures { (s : Setup) (w v : Cluster) (m : ℕ) (before after : State) (subject number : ℕ)
        → profile_of s ≡ Papers → IsReached s w → LeadsTo s w v
        → get w.members m ≡ Some before → get v.members m ≡ Some after
        → get before.table subject ≡ Some (Confirm, number)
        → get after.table subject ≡ Some (Confirm, number) }
{}

/// Through a run by memberlist's rules a member that holds another as confirmed at a number holds it as
/// alive later only at a number over it.
pub fn a_run_revives_by_higher_numbers_alone()
    ensures { (s : Setup) (w v : Cluster) (m : ℕ) (before after : State) (subject number later : ℕ)
        → profile_of s ≡ Memberlist → IsReached s w → LeadsTo s w v
        → get w.members m ≡ Some before → get v.members m ≡ Some after
        → get before.table subject ≡ Some (Confirm, number) → get after.table subject ≡ Some (Alive, later)
        → number < later }
{}

/// Wherever a run has come, each member's state is consistent, and each event that pends is among
/// members.
pub fn a_run_keeps_states_consistent()
    ensures states { (s : Setup) (w : Cluster) (m : ℕ) (t : State) → IsSound s → IsReached s w
        → get w.members m ≡ Some t → IsConsistent s m t }
    ensures events { (s : Setup) (w : Cluster) (k : Key) (c : EventKind) → IsSound s → IsReached s w
        → get w.pending k ≡ Some c → IsAmongMembers s k c }
{}

/// Every row of a run names members of the scenario alone.
pub fn a_run_names_members()
    ensures { (s : Setup) (keys : List Key) (rows : List Row) (w : Cluster) → IsSound s
        → Run (step s) s.end (opening s) keys rows w → All (NamesMembers s) rows }
{}

/// No row of a run is about a mechanism of Lifeguard that is switched off.
pub fn a_run_has_rows_only_of_what_is_on()
    ensures { (s : Setup) (keys : List Key) (rows : List Row) (w : Cluster) → IsSound s
        → Run (step s) s.end (opening s) keys rows w → All (λ (row : Row). IsOn s row.what) rows }
{}

/// No moment of a run reaches 2^42, so no sum of moments wraps: neither that of an event that a step
/// up to the end makes of a timely state, nor that of one that pends, wherever a run has come. And
/// the states that a run reaches are timely.
pub fn a_run_keeps_moments_in_range()
    ensures step { (s : Setup) (k : Key) (c : EventKind) (t : State) → IsSound s → IsAmongMembers s k c
        → k.at ≤ s.end → IsConsistent s k.to t → IsTimely s t
        → All (λ (e : Key × EventKind). e.0.at < 2 ^ 42) (step s k c t).events }
    ensures run { (s : Setup) (w : Cluster) (k : Key) (c : EventKind) → IsSound s → IsReached s w
        → get w.pending k ≡ Some c → k.at < 2 ^ 42 }
    ensures states { (s : Setup) (w : Cluster) (m : ℕ) (t : State) → IsSound s → IsReached s w
        → get w.members m ≡ Some t → IsTimely s t }
{}

/// Where nobody leaves, as in each scenario of the format's first version, no run has a leave or a bye
/// among its events, and no row records one. By the papers' rules the step on all other events is that of
/// the first version, and so the runs are the same.
pub fn where_nobody_leaves_runs_are_plain()
    ensures step { (s : Setup) → profile_of s ≡ Papers → (k : Key) (c : EventKind) (t : State) → c ≢ Leave → c ≢ Bye
        → step s k c t ≡ plain_step s k c t }
    ensures events { (s : Setup) (w : Cluster) (k : Key) (c : EventKind) → s.leaves ≡ [] → IsReached s w
        → get w.pending k ≡ Some c → (c ≢ Leave) × (c ≢ Bye) }
    ensures runs { (s : Setup) (rows : List Row) → profile_of s ≡ Papers → s.leaves ≡ [] → IsRunOf s rows → IsPlainRunOf s rows }
    ensures plain_runs { (s : Setup) (rows : List Row) → profile_of s ≡ Papers → s.leaves ≡ [] → IsPlainRunOf s rows → IsRunOf s rows }
    ensures rows { (s : Setup) (rows : List Row) → s.leaves ≡ [] → IsRunOf s rows
        → All (λ (row : Row). (row.what ≢ what.Leave) × (row.what ≢ what.Bye)) rows }
{}
