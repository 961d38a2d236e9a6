//! What the flows of members count, stated over the definitions alone.
ghost use Rattle.std.specs.Prelude.{◌≡◌, ℕ, ◌+◌, ◌<◌, [], List, All, sum_by};
ghost use Rattle.std.specs.List.{range_with_len};
ghost use Rattle.series.specs.Changes.{Change as AChange, came, went, holding};

/// Those that are in a state after changes are those that were in it at first, with those that came to
/// it in all spans, without those that went from it.
pub fn those_who_came_and_did_not_go_are_there()
    ensures { (members state : ℕ) (changes : List AChange) → All (λ change. change.member < members) changes
        → All (λ change. change.span < 120) changes
        → holding members state changes + sum_by (λ span. went state span changes) (range_with_len 0 120)
        ≡ holding members state [] + sum_by (λ span. came state span changes) (range_with_len 0 120) }
{}
