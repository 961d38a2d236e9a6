//! How far a part's window goes in a round, said of the definitions alone.
ghost use Rattle.std.specs.Prelude.{◌≡◌, ◌<◌, ◌≤◌, ℕ, Some};
ghost use Rattle.member_laws.specs.Runs.{Cluster};
ghost use Rattle.lookahead_windows.specs.Plan.{Plan, IsPlan, bound_of};
ghost use Rattle.lookahead_windows.specs.Starts.{IsRound};
ghost use Rattle.lookahead_windows.specs.Bounds.{IsOwnBound};

/// In a round in which something pends up to the end, the bound by the way into a part is the part's own:
/// no later than its horizon, and no earlier than what serves all parts. A part has no other, and its window
/// goes past the first moment that pends.
pub fn each_part_has_a_bound_of_its_own()
    ensures is { (plan : Plan) (round part first : ℕ) (w : Cluster) → IsPlan plan → part < plan.parts
        → IsRound plan round w (Some first) → first ≤ plan.setup.end → IsOwnBound plan round part (bound_of plan (Some first) part) }
    ensures one { (plan : Plan) (round part bound other : ℕ) → IsPlan plan → IsOwnBound plan round part bound
        → IsOwnBound plan round part other → bound ≡ other }
    ensures past { (plan : Plan) (round part bound : ℕ) → IsPlan plan → (is : IsOwnBound plan round part bound) → is.first < bound }
{}
