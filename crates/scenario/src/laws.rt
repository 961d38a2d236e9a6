//! Laws of pauses.

ghost use Rattle.std.specs.Prelude.{◌≡◌, ◌≤◌, ℕ, false};
ghost use Rattle.scenario.specs.Setup.{Setup, is_paused, awake, IsBeforeThird, IsSound};

/// A member handles what is for a moment at the least moment, from that one on, at which it isn't paused.
pub fn members_are_awake_as_soon_as_they_can()
    ensures { (s : Setup) (m t : ℕ) → (t ≤ awake s m t) × (is_paused s m (awake s m t) ≡ false)
        × ((u : ℕ) → t ≤ u → is_paused s m u ≡ false → awake s m t ≤ u) }
{}

/// Before version 3 of the format everybody is always awake.
pub fn earlier_versions_never_pause()
    ensures { (s : Setup) (m t : ℕ) → IsSound s → IsBeforeThird s.version → awake s m t ≡ t }
{}
