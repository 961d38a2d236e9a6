//! How wide the 95 % interval of a share is, by Wilson, where `k` of `n` runs have something.

ghost use Rattle.std.specs.Prelude.{◌≡◌, ◌≤◌, ◌<◌, ◌+◌, ◌*◌, ◌^◌};
ghost use Rattle.sweep_until.specs.Widths.{is_narrow, room, spread};

/// The square of 1.96, in ten thousandths.
const SQUARE: u128 = 38_416;

/// Whether the interval is at most so many hundredths wide, as 5 for 5 %. No runs show nothing. There is room for 1,000,000
/// runs.
pub fn is_narrow(width: u64, k: u64, n: u64) -> bool
    requires most { width ≤ 100 }
    requires few { n ≤ 1000000 }
    requires within { k ≤ n }
    ensures { result ≡ is_narrow width k n }
{
    0 < n && spread(k, n) <= room(width, n)
}

/// The square of the width, times what makes it whole.
fn spread(k: u64, n: u64) -> u128
    requires few { n ≤ 1000000 }
    requires within { k ≤ n }
    ensures { result ≡ spread k n }
{
    let apart = product(k, n - k);
    let runs = u128::from(n);
    400_000_000 * (SQUARE * apart) + 10_000 * (SQUARE * SQUARE * runs)
}

/// The square of the width that is wanted, likewise.
fn room(width: u64, n: u64) -> u128
    requires most { width ≤ 100 }
    requires few { n ≤ 1000000 }
    ensures { result ≡ room width n }
{
    let wanted = u128::from(width);
    wanted * wanted * whole(n)
}

/// What makes it whole.
fn whole(n: u64) -> u128
    requires { n ≤ 1000000 }
    ensures whole { result ≡ n * ((10000 * n + 38416) * (10000 * n + 38416)) }
    ensures small { result < 2 ^ 90 }
{
    u128::from(n) * square(n)
}

/// The square of the runs and of what Wilson adds to them, in ten thousandths of ten thousandths.
fn square(n: u64) -> u128
    requires { n ≤ 1000000 }
    ensures square { result ≡ (10000 * n + 38416) * (10000 * n + 38416) }
    ensures small { result < 2 ^ 70 }
{
    let parts = 10_000 * u128::from(n) + SQUARE;
    parts * parts
}

/// One number times another.
fn product(first: u64, second: u64) -> u128
    requires first { first ≤ 1000000 }
    requires second { second ≤ 1000000 }
    ensures product { result ≡ first * second }
    ensures small { result ≤ 1000000 * 1000000 }
{
    u128::from(first) * u128::from(second)
}
