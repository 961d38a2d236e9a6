//! Laws of how long suspicions last, and of their timers and accusers.

ghost use Rattle.std.specs.Prelude.{◌≡◌, ℕ, ◌+◌, ◌<◌, ◌≤◌, ◌==◌, true, false, Some};
ghost use Rattle.std.specs.FinMap.{insert, remove};
ghost use Rattle.suspicion.specs.declared.terms.Terms.{Terms};
ghost use Rattle.suspicion.specs.Ranges.{AreSound};
ghost use Rattle.suspicion.specs.Times.{timeout, min_timeout, max_timeout, most_accusers};
ghost use Rattle.suspicion.specs.Suspicions.{HeldSuspicion, HeldSuspicions, started_of, accused, accused_of, after_accusation, is_due, due_of, CountsAccusersOnce};

/// With more accusers a suspicion never lasts longer.
pub fn accusers_never_lengthen()
    ensures { (terms : Terms) (n c d : ℕ) → AreSound terms → c ≤ d → timeout terms n d ≤ timeout terms n c }
{}

/// A suspicion lasts between the shortest and the longest time.
pub fn timeouts_stay_in_range()
    ensures least { (terms : Terms) (n c : ℕ) → AreSound terms → min_timeout terms n ≤ timeout terms n c }
    ensures most { (terms : Terms) (n c : ℕ) → AreSound terms → timeout terms n c ≤ max_timeout terms n }
{}

/// The range's ends are met: it lasts longest while nobody else accuses, and shortest once enough
/// members did, or without LHA-Suspicion.
pub fn range_is_met()
    ensures alone { (terms : Terms) (n : ℕ) → terms.shortens ≡ true → 0 < most_accusers terms n
        → timeout terms n 0 ≡ max_timeout terms n }
    ensures enough { (terms : Terms) (n c : ℕ) → most_accusers terms n ≤ c → timeout terms n c ≡ min_timeout terms n }
    ensures off { (terms : Terms) (n c : ℕ) → terms.shortens ≡ false → timeout terms n c ≡ min_timeout terms n }
{}

/// Each due moment comes later than the moment at which its timer is set.
pub fn due_moments_are_later()
    ensures started { (terms : Terms) (n now : ℕ) → AreSound terms → now + 1 ≤ now + timeout terms n 0 }
    ensures accused { (s : HeldSuspicion) (now : ℕ) → now + 1 ≤ due_of s now }
{}

/// Of a subject's timers only the one that was set last applies, and none once its suspicion ended.
pub fn last_timer_applies()
    ensures started { (held : HeldSuspicions) (s : HeldSuspicion) (subject h : ℕ)
        → is_due (insert held subject s) subject h ≡ (s.timer == h) }
    ensures accused { (held : HeldSuspicions) (s : HeldSuspicion) (subject accuser g h : ℕ)
        → accused_of held subject accuser g ≡ Some s
        → is_due (after_accusation held subject accuser g) subject h ≡ (g == h) }
    ensures cleared { (held : HeldSuspicions) (subject h : ℕ) → is_due (remove held subject) subject h ≡ false }
{}

/// No accuser is counted twice, nor more than can shorten the suspicion.
pub fn accusers_are_counted_once()
    ensures started { (terms : Terms) (accuser n now g : ℕ) → CountsAccusersOnce (started_of terms accuser n now g) }
    ensures accused { (s t : HeldSuspicion) (accuser g : ℕ) → CountsAccusersOnce s → accused s accuser g ≡ Some t → CountsAccusersOnce t }
{}
