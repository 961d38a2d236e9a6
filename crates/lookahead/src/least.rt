//! Minimum and sum of lengths that may be absent, where no length means that there is no way between two parts.
ghost use Rattle.std.specs.Prelude.{◌≡◌};
ghost use Rattle.links.specs.Least.{lesser_of};
ghost use Rattle.lookahead.specs.Least.{sum_of};

/// The smaller of two numbers, where there are both.
pub(crate) fn lesser_length(one: Option<u64>, other: Option<u64>) -> Option<u64>
    ensures { result ≡ lesser_of one other }
{
    let Some(a) = one else { return other };
    let Some(b) = other else { return one };
    Some(a.min(b))
}

/// The sum of two numbers, where there are both: past the greatest number it is that one.
pub(crate) fn sum(one: Option<u64>, other: Option<u64>) -> Option<u64>
    ensures { result ≡ sum_of one other }
{
    Some(one?.saturating_add(other?))
}
