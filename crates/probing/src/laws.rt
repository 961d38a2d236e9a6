//! What holds of the probe order by its definition, for any words of 32 bits.

ghost use Rattle.std.specs.Prelude.{◌≡◌, ◌≢◌, ℕ, ◌-◌, ◌*◌, ◌<◌, ◌≤◌, ◌^◌, true, false, Some, None, List, [], length, map, min, All, IsPermutation};
ghost use Rattle.streams.specs.Draw.{Words, AreWords, IsRestOf, shuffle_of};
ghost use Rattle.probing.specs.ProbeOrder.{ProbeOrder, IsSoundOrder, times_in, round_over, next_of, insert_of, remove_of, helpers_of};
ghost use Rattle.probing.specs.Mixed.{mixed_of};
ghost use Rattle.probing.specs.Displaced.{displaced_of};
ghost use Rattle.probing.specs.Rounds.{probes_of, probed, coming, others};
ghost use Rattle.probing.specs.Samples.{is_in, does_fit_in, sample_of, words_after};
ghost use Rattle.membership.specs.declared.candidates.Candidate.{Candidate};

/// No call makes a member appear twice or moves the mark out of the list.
pub fn orders_stay_sound()
    ensures next { (words : Words) (order : ProbeOrder) → AreWords words → IsSoundOrder order
        → IsSoundOrder (next_of words order).1 }
    ensures mix { (words : Words) (order : ProbeOrder) → AreWords words → IsSoundOrder order
        → IsSoundOrder (mixed_of words order).0 }
    ensures insert { (words : Words) (member : ℕ) (order : ProbeOrder) → AreWords words
        → IsSoundOrder order → member < 2 ^ 16 → times_in order.members member ≡ 0
        → IsSoundOrder (insert_of words member order).0 }
    ensures displace { (words : Words) (member : ℕ) (order : ProbeOrder) → AreWords words
        → IsSoundOrder order → member < 2 ^ 16 → times_in order.members member ≡ 0
        → IsSoundOrder (displaced_of words member order).0 }
    ensures remove { (member : ℕ) (order : ProbeOrder) → IsSoundOrder order
        → IsSoundOrder (remove_of member order) }
{}

/// A call takes some first words of those that are left, or none, and leaves the others.
pub fn calls_take_the_first_words()
    ensures next { (words : Words) (order : ProbeOrder) → IsRestOf words (next_of words order).2 }
    ensures mix { (words : Words) (order : ProbeOrder) → IsRestOf words (mixed_of words order).1 }
    ensures insert { (words : Words) (member : ℕ) (order : ProbeOrder)
        → IsRestOf words (insert_of words member order).1 }
    ensures displace { (words : Words) (member : ℕ) (order : ProbeOrder)
        → IsRestOf words (displaced_of words member order).1 }
    ensures helpers { (words : Words) (count : ℕ) (candidates : List ℕ)
        → IsRestOf words (helpers_of words count candidates).1 }
    ensures sample { (words : Words) (k : ℕ) (candidates : List Candidate)
        → IsRestOf words (sample_of words k candidates).1 }
{}

/// A probe goes to a member of the list, and there is one unless the list is empty. All members stay.
pub fn probes_go_to_members()
    ensures member { (words : Words) (order : ProbeOrder) (member : ℕ) → AreWords words
        → IsSoundOrder order → (next_of words order).0 ≡ Some member
        → times_in order.members member ≡ 1 }
    ensures none { (words : Words) (order : ProbeOrder) → AreWords words → IsSoundOrder order
        → (next_of words order).0 ≡ None → length order.members ≡ 0 }
    ensures members { (words : Words) (order : ProbeOrder) → AreWords words → IsSoundOrder order
        → IsPermutation order.members (next_of words order).1.members }
{}

/// A mix keeps the members.
pub fn a_mix_keeps_the_members()
    ensures { (words : Words) (order : ProbeOrder) → AreWords words → IsSoundOrder order
        → IsPermutation order.members (mixed_of words order).0.members }
{}

/// The probes of a round go to the shuffled members in their order, so to each member once, and take
/// the words of that shuffle alone. What is left of a round that has begun takes none.
pub fn a_round_probes_each_member_once()
    ensures round { (words : Words) (order : ProbeOrder) → AreWords words → IsSoundOrder order
        → order.mark ≡ length order.members
        → let shuffled = shuffle_of words order.members in
        probes_of (length order.members) words order
        ≡ (map Some shuffled.0, round_over shuffled.0, shuffled.1) }
    ensures once { (words : Words) (order : ProbeOrder) → AreWords words → IsSoundOrder order
        → order.mark ≡ length order.members
        → IsPermutation (map Some order.members) (probes_of (length order.members) words order).0 }
    ensures rest { (words : Words) (order : ProbeOrder) → IsSoundOrder order
        → probes_of (length order.members - order.mark) words order
        ≡ (map Some (coming order), round_over order.members, words) }
{}

/// A new member is there once. The others keep their order, and whether their turn is over.
pub fn an_insert_keeps_the_others()
    ensures added { (words : Words) (member : ℕ) (order : ProbeOrder)
        → times_in order.members member ≡ 0
        → times_in (insert_of words member order).0.members member ≡ 1 }
    ensures others { (words : Words) (member other : ℕ) (order : ProbeOrder) → member ≢ other
        → times_in (insert_of words member order).0.members other ≡ times_in order.members other }
    ensures probed { (words : Words) (member : ℕ) (order : ProbeOrder) → IsSoundOrder order
        → times_in order.members member ≡ 0
        → others member (probed (insert_of words member order).0) ≡ probed order }
    ensures coming { (words : Words) (member : ℕ) (order : ProbeOrder) → IsSoundOrder order
        → times_in order.members member ≡ 0
        → others member (coming (insert_of words member order).0) ≡ coming order }
{}

/// A new member that takes another one's place is there once, and all others are as often there as before. The mark
/// stays.
pub fn who_is_displaced_stays()
    ensures added { (words : Words) (member : ℕ) (order : ProbeOrder) → AreWords words → IsSoundOrder order
        → times_in order.members member ≡ 0
        → times_in (displaced_of words member order).0.members member ≡ 1 }
    ensures others { (words : Words) (member other : ℕ) (order : ProbeOrder) → AreWords words
        → IsSoundOrder order → member ≢ other
        → times_in (displaced_of words member order).0.members other ≡ times_in order.members other }
    ensures mark { (words : Words) (member : ℕ) (order : ProbeOrder)
        → (displaced_of words member order).0.mark ≡ order.mark }
{}

/// Without a member the others keep their order, and whether their turn is over.
pub fn a_removal_keeps_the_others()
    ensures others { (member other : ℕ) (order : ProbeOrder) → IsSoundOrder order → member ≢ other
        → times_in (remove_of member order).members other ≡ times_in order.members other }
    ensures probed { (member : ℕ) (order : ProbeOrder) → IsSoundOrder order
        → probed (remove_of member order) ≡ others member (probed order) }
    ensures coming { (member : ℕ) (order : ProbeOrder) → IsSoundOrder order
        → coming (remove_of member order) ≡ others member (coming order) }
{}

/// A member that was taken out is not there, and as long as it isn't, no probe goes to it.
pub fn a_removed_member_is_probed_no_more()
    ensures removed { (member : ℕ) (order : ProbeOrder) → IsSoundOrder order
        → times_in (remove_of member order).members member ≡ 0 }
    ensures absent { (count : ℕ) (words : Words) (member : ℕ) (order : ProbeOrder) → AreWords words
        → IsSoundOrder order → times_in order.members member ≡ 0
        → All (λ answer. answer ≢ Some member) (probes_of count words order).0 }
{}

/// Helpers are candidates, each no more often than it was given, and as many as asked for or all.
pub fn helpers_are_candidates()
    ensures number { (words : Words) (count : ℕ) (candidates : List ℕ) → AreWords words
        → length candidates < 2 ^ 32 - 1
        → length (helpers_of words count candidates).0 ≡ min count (length candidates) }
    ensures each { (words : Words) (count : ℕ) (candidates : List ℕ) (member : ℕ) → AreWords words
        → length candidates < 2 ^ 32 - 1
        → times_in (helpers_of words count candidates).0 member ≤ times_in candidates member }
{}

/// A sample takes members that fit, each once, and no more than asked for.
pub fn samples_are_of_those_that_fit()
    ensures number { (words : Words) (k : ℕ) (candidates : List Candidate)
        → length (sample_of words k candidates).0 ≤ k }
    ensures each { (words : Words) (k : ℕ) (candidates : List Candidate) (member : ℕ)
        → is_in member (sample_of words k candidates).0 ≡ true → does_fit_in candidates member ≡ true }
    ensures once { (words : Words) (k : ℕ) (candidates : List Candidate) (member : ℕ)
        → times_in (sample_of words k candidates).0 member ≤ 1 }
{}

/// Where nobody fits, all draws are made: three for each candidate.
pub fn samples_in_vain_make_all_draws()
    ensures { (words : Words) (k : ℕ) (candidates : List Candidate) → 0 < k
        → ((member : ℕ) → does_fit_in candidates member ≡ false)
        → sample_of words k candidates ≡ ([], words_after (3 * length candidates) (length candidates) words) }
{}
