//! What walks are to parts, said of the definitions alone.
ghost use Rattle.std.specs.Prelude.{◌≢◌, ℕ};
ghost use Rattle.scenario.specs.Setup.{Setup};
ghost use Rattle.windows.specs.Horizon.{Walk};
ghost use Rattle.windows.specs.Cluster.{IsPeopled};

/// Walks are between parts with members. There is one between any two, and back to a part where
/// another part has members.
pub fn parts_with_members_have_walks()
    ensures ends { (s : Setup) (division : ℕ → ℕ) (from to : ℕ) → Walk (IsPeopled s division) from to
        → IsPeopled s division from × IsPeopled s division to }
    ensures apart { (s : Setup) (division : ℕ → ℕ) (from to : ℕ) → from ≢ to → IsPeopled s division from → IsPeopled s division to
        → Walk (IsPeopled s division) from to }
    ensures back { (s : Setup) (division : ℕ → ℕ) (part other : ℕ) → part ≢ other → IsPeopled s division part → IsPeopled s division other
        → Walk (IsPeopled s division) part part }
    ensures by_another { (s : Setup) (division : ℕ → ℕ) (part : ℕ) → Walk (IsPeopled s division) part part
        → (other : ℕ) × (part ≢ other) × IsPeopled s division other }
{}
