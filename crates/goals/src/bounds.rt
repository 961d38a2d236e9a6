//! On which side of a bound the 95 % interval of a share lies, by Wilson. Shares are in millionths; `k` of `n` runs have something.
ghost use Rattle.std.specs.Prelude.{◌≡◌, ◌≤◌, ◌<◌, ◌*◌, ◌^◌};
ghost use Rattle.goals.specs.Bounds.{apart, distance, is_past, is_up_to, squared_reach, runs_that_tell};

/// A whole, in millionths.
const WHOLE: u128 = 1_000_000;

/// Whether the whole interval is up to a share.
pub(crate) fn is_up_to(share: u128, k: u64, n: u64) -> bool
    requires few { n ≤ 1000000 }
    requires within { k ≤ n }
    ensures { result ≡ is_up_to share k n }
{
    if share >= WHOLE {
        return true;
    }
    product(WHOLE, k) < product(share, n) && squared_reach(share, n) <= apart(share, k, n)
}

/// Whether the whole interval is past a share.
pub(crate) fn is_past(share: u128, k: u64, n: u64) -> bool
    requires least { share < 1000000 }
    requires few { n ≤ 1000000 }
    requires within { k ≤ n }
    ensures { result ≡ is_past share k n }
{
    product(share, n) < product(WHOLE, k) && squared_reach(share, n) < apart(share, k, n)
}

/// How many runs put a share beyond the interval, if that of those which have something stays; none where it is that, or one.
pub(crate) fn runs_that_tell(share: u128, k: u64, n: u64) -> Option<u128>
    requires few { n ≤ 1000000 }
    requires within { k ≤ n }
    ensures { result ≡ runs_that_tell share k n }
{
    if share >= WHOLE || distance(share, k, n) == 0 {
        return None;
    }
    Some(squared_reach(share, n) * u128::from(n) / apart(share, k, n) + 1)
}

/// The square of the distance of a share from that of the runs, times what makes it whole.
fn apart(share: u128, k: u64, n: u64) -> u128
    requires least { share < 1000000 }
    requires few { n ≤ 1000000 }
    requires within { k ≤ n }
    ensures apart { result ≡ apart share k n }
    ensures some { 0 < distance share k n → 0 < result }
{
    let distance = distance(share, k, n);
    10_000 * (distance * distance)
}

/// The distance of a share from that of the runs, times the runs.
fn distance(share: u128, k: u64, n: u64) -> u128
    requires least { share < 1000000 }
    requires few { n ≤ 1000000 }
    requires within { k ≤ n }
    ensures distance { result ≡ distance share k n }
    ensures small { result < 2 ^ 40 }
{
    product(share, n).abs_diff(product(WHOLE, k))
}

/// How far the interval reaches from a share at its end, likewise.
fn squared_reach(share: u128, n: u64) -> u128
    requires least { share < 1000000 }
    requires few { n ≤ 1000000 }
    ensures squared_reach { result ≡ squared_reach share n }
    ensures small { result < 2 ^ 76 }
{
    38_416 * (share * (WHOLE - share)) * u128::from(n)
}

/// A share times a number of runs.
fn product(share: u128, runs: u64) -> u128
    requires most { share ≤ 1000000 }
    requires few { runs ≤ 1000000 }
    ensures product { result ≡ share * runs }
    ensures small { result < 2 ^ 40 }
{
    share * u128::from(runs)
}
