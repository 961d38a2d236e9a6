//! The root of a number times a large square, which itself has more than 128 bits.
ghost use Rattle.std.specs.Prelude.{◌≡◌, ◌+◌, ◌*◌, ◌≤◌, ◌<◌, ◌==◌, ◌^◌, true, false};
ghost use Rattle.day_rates.specs.Roots.{root, scaled, scaled_square};

/// By how much the root is taken: 9,800 days in microseconds.
const SCALE: u128 = 846_720_000_000_000;

/// A root, rounded down.
#[derive(Clone, Copy)]
pub(crate) struct Root {
    pub(crate) down: u128,
    /// Whether nothing was rounded.
    pub(crate) is_exact: bool,
}

/// The root of a number, taken so many times.
pub(crate) fn scaled_root(number: u128) -> Root
    requires { number < 2 ^ 125 }
    ensures root { result.down ≡ root (scaled_square 0 number) }
    ensures exact { result.is_exact ≡ (result.down * result.down == scaled_square 0 number) }
    ensures fits { result.down < 2 ^ 114 }
{
    let whole = number.isqrt();
    let rest = number - whole * whole;
    let part = part_of(whole, rest);
    Root {
        down: SCALE * whole + part,
        is_exact: is_exact(whole, rest, part),
    }
}

/// What the root of `whole * whole + rest` has behind the point, taken so many times: by halving where it lies.
fn part_of(whole: u128, rest: u128) -> u128
    requires whole { whole < 2 ^ 63 }
    requires rest { rest ≤ 2 * whole }
    ensures small { result < 846720000000000 }
    ensures low { scaled whole result * scaled whole result ≤ scaled_square whole rest }
    ensures high { scaled_square whole rest < scaled whole (result + 1) * scaled whole (result + 1) }
{
    let mut low = 0;
    let mut high = SCALE;
    while low + 1 < high {
        let half = low + (high - low) / 2;
        if is_within(whole, rest, half) {
            low = half;
        } else {
            high = half;
        }
    }
    low
}

/// Whether that root is no less than `whole` and this part.
fn is_within(whole: u128, rest: u128, part: u128) -> bool
    requires whole { whole < 2 ^ 63 }
    requires rest { rest ≤ 2 * whole }
    requires part { part < 846720000000000 }
    ensures within { result ≡ true → scaled whole part * scaled whole part ≤ scaled_square whole rest }
    ensures past { result ≡ false → scaled_square whole rest < scaled whole part * scaled whole part }
{
    let gain = SCALE * rest;
    let loss = 2 * whole * part;
    if gain < loss {
        return false;
    }
    is_no_less(gain - loss, part)
}

/// Whether so many times a number is no less than a square.
fn is_no_less(number: u128, part: u128) -> bool
    requires { part < 846720000000000 }
    ensures within { result ≡ true → part * part ≤ 846720000000000 * number }
    ensures past { result ≡ false → 846720000000000 * number < part * part }
{
    if number >= SCALE {
        return true;
    }
    SCALE * number >= part * part
}

/// Whether that root is `whole` and this part.
fn is_exact(whole: u128, rest: u128, part: u128) -> bool
    requires whole { whole < 2 ^ 63 }
    requires rest { rest ≤ 2 * whole }
    requires part { part < 846720000000000 }
    ensures { result ≡ (scaled whole part * scaled whole part == scaled_square whole rest) }
{
    let gain = SCALE * rest;
    let loss = 2 * whole * part;
    if gain < loss {
        return false;
    }
    is_same(gain - loss, part)
}

/// Whether so many times a number is a square.
fn is_same(number: u128, part: u128) -> bool
    requires { part < 846720000000000 }
    ensures { result ≡ (part * part == 846720000000000 * number) }
{
    if number >= SCALE {
        return false;
    }
    SCALE * number == part * part
}
