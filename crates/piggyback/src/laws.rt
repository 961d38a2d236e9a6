//! What holds of every pick and of runs of picks, said of the definitions that the contracts of
//! `Buffer` cite. None of these functions does anything: their contracts are the laws.
ghost use Rattle.std.specs.Prelude.{◌≡◌, ℕ, ◌+◌, ◌<◌, Bool, nat_lt, if◌then◌else◌, Some, None, Option, List, IsTrue, IfSome, AllPairs, count_by, filter, slice_get};
ghost use Rattle.std.specs.FinMap.{empty, get, insert, values};
ghost use Rattle.incarnation.specs.declared.Update.{Update as AnyUpdate};
ghost use Rattle.piggyback.specs.Picked.{Counted, HeldUpdates, IsOwn, AreDistinct, goes_before, count_before, in_order, is_of_subject, left_after, left_by_pick};
ghost use Rattle.piggyback.specs.Uses.{Use, after_uses, picks_of, PutsNone};

/// A buffer that `new`, `put` and `pick` make has each update under its own subject, so no two of
/// its updates are about one subject.
pub fn each_update_is_under_its_subject()
    ensures at_first { IsOwn empty }
    ensures after_put { (held : HeldUpdates) (update : AnyUpdate)
        → IsOwn held → IsOwn (insert held update.subject (update, 0)) }
    ensures after_pick { (held : HeldUpdates) (carry limit : ℕ) (buddy : Option AnyUpdate)
        → IsOwn held → IsOwn (left_by_pick held carry limit buddy) }
    ensures distinct { (held : HeldUpdates) → IsOwn held
        → (test : Counted → Bool) → AreDistinct (filter test (values held)) }
{}

/// Updates about different subjects are all there in order, each before those that it goes before,
/// and each at the place that says how many go before it.
pub fn order_of_distinct_updates()
    ensures complete { (these : List Counted) → AreDistinct these
        → (p : Counted → Bool) → count_by p (in_order these) ≡ count_by p these }
    ensures sorted { (these : List Counted) → AreDistinct these
        → AllPairs (λ x y. IsTrue (goes_before x y)) (in_order these) }
    ensures places { (these : List Counted) → AreDistinct these
        → (i : ℕ) (it : Counted) → slice_get (in_order these) i ≡ Some it → count_before these it ≡ i }
{}

/// After a message every count that is left is below the limit, and each update that is left was
/// there, with a count one lower if the message carried an update about its subject, and else the
/// same. What is gone was then sent `limit` times.
pub fn counts_after_a_message()
    ensures below_limit { (held : HeldUpdates) (carried : List AnyUpdate) (limit subject : ℕ)
        → IfSome (get (left_after held carried limit) subject) (λ it. it.1 < limit) }
    ensures counted { (held : HeldUpdates) (carried : List AnyUpdate) (limit subject : ℕ) (it : Counted)
        → get held subject ≡ Some it
        → let count = it.1 + (if is_of_subject it.0.subject carried then 1 else 0) in
        get (left_after held carried limit) subject ≡ (if nat_lt count limit then Some (it.0, count) else None) }
    ensures no_new { (held : HeldUpdates) (carried : List AnyUpdate) (limit subject : ℕ)
        → get held subject ≡ None → get (left_after held carried limit) subject ≡ None }
{}

/// Under one limit an update leaves the buffer with the `limit`-th pick of its subject since it was
/// put. Until then its count is the number of these picks.
pub fn an_update_leaves_with_the_last_pick()
    ensures { (held : HeldUpdates) (update : AnyUpdate) (limit : ℕ) (uses : List Use)
        → 0 < limit → PutsNone update.subject uses
        → let start = insert held update.subject (update, 0) in
        let picks = picks_of update.subject limit uses start in
        get (after_uses limit uses start) update.subject
        ≡ (if nat_lt picks limit then Some (update, picks) else None) }
{}
