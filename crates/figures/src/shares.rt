//! The 95 % interval of a share, by Wilson.
ghost use Rattle.std.specs.Prelude.{◌≡◌, ◌≤◌, ◌<◌, ◌^◌};
ghost use Rattle.figures.specs.Settings.{root, spread, nearest_thousandth, share_low, share_high};

/// The lower end, in thousandths, where `k` of `n` runs have something.
pub(crate) fn share_low(k: u64, n: u64) -> u128
    requires some { 0 < n }
    requires few { n ≤ 1000000 }
    requires within { k ≤ n }
    ensures { result ≡ share_low k n }
{
    let middle = 200_000 * u128::from(k) + 384_160;
    nearest_thousandth(middle.saturating_sub(49 * spread(k, n)), n)
}

/// The upper end, likewise.
pub(crate) fn share_high(k: u64, n: u64) -> u128
    requires some { 0 < n }
    requires few { n ≤ 1000000 }
    requires within { k ≤ n }
    ensures { result ≡ share_high k n }
{
    let middle = 200_000 * u128::from(k) + 384_160;
    nearest_thousandth(middle + 49 * spread(k, n), n)
}

/// 8,000 times the root that stands in both ends, rounded down.
fn spread(k: u64, n: u64) -> u128
    requires some { 0 < n }
    requires few { n ≤ 1000000 }
    requires within { k ≤ n }
    ensures root { result ≡ spread k n }
    ensures fits { result < 2 ^ 64 }
{
    let pairs = u128::from(k) * u128::from(n - k);
    (64_000_000 * pairs / u128::from(n) + 61_465_600).isqrt()
}

/// An end of the interval in thousandths, from its numerator.
fn nearest_thousandth(numerator: u128, n: u64) -> u128
    requires fits { numerator < 2 ^ 100 }
    requires few { n ≤ 1000000 }
    ensures { result ≡ nearest_thousandth numerator n }
{
    let n = u128::from(n);
    (1000 * numerator + (100_000 * n + 384_160)) / (200_000 * n + 768_320)
}
