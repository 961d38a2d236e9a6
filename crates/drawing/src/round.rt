//! Round steps.
ghost use Rattle.std.specs.Prelude.{◌≡◌, ◌<◌, ◌≤◌, ◌*◌, ◌/◌, ◌^◌, [], ◌∷◌, IfSome};
ghost use Rattle.std.specs.List.{find};
ghost use Rattle.drawing.specs.Rounds.{is_long_enough, long_steps, round_step, time_step, whole_day, with_digits};

/// The powers of ten of which steps are made.
const POWERS: [u64; 19] = [
    1,
    10,
    100,
    1_000,
    10_000,
    100_000,
    1_000_000,
    10_000_000,
    100_000_000,
    1_000_000_000,
    10_000_000_000,
    100_000_000_000,
    1_000_000_000_000,
    10_000_000_000_000,
    100_000_000_000_000,
    1_000_000_000_000_000,
    10_000_000_000_000_000,
    100_000_000_000_000_000,
    1_000_000_000_000_000_000,
];

/// The steps of time from a second to half a day, in microseconds: 1, 2, 5, 10, 15 and 30 seconds or minutes, and 1, 2, 3,
/// 6 and 12 hours.
const LONG_STEPS: [u64; 17] = [
    1_000_000,
    2_000_000,
    5_000_000,
    10_000_000,
    15_000_000,
    30_000_000,
    60_000_000,
    120_000_000,
    300_000_000,
    600_000_000,
    900_000_000,
    1_800_000_000,
    3_600_000_000,
    7_200_000_000,
    10_800_000_000,
    21_600_000_000,
    43_200_000_000,
];

/// Half a second, in microseconds.
const HALF_SECOND: u128 = 500_000;

/// A day.
const DAY: u128 = 86_400_000_000;

/// The least round step, 1, 2 or 5 and zeros, of which at most `ticks` reach up to `most`.
#[tactic(auto, unfolding(crate::specs::Rounds::round_step))]
pub fn round_step(most: u64, ticks: u64) -> u64
    requires { most < 2 ^ 63 }
    ensures some { 0 < result }
    ensures few { most / result ≤ ticks }
    ensures least { result ≡ round_step most ticks }
{
    for power in POWERS {
        if let Some(step) = step_of(power, most, ticks) {
            return step;
        }
    }
    most + 1
}

/// The least step of a power of ten that is long enough.
fn step_of(power: u64, most: u64, ticks: u64) -> Option<u64>
    requires { (0 < power) × (power ≤ 10 ^ 18) }
    ensures some { IfSome result (λ step. (0 < step) × (most / step ≤ ticks)) }
    ensures least { result ≡ find (is_long_enough most ticks) (with_digits power) }
{
    if most / power <= ticks {
        Some(power)
    } else if most / (2 * power) <= ticks {
        Some(2 * power)
    } else if most / (5 * power) <= ticks {
        Some(5 * power)
    } else {
        None
    }
}

/// The least round step of time, in microseconds, of which at most `ticks` reach up to a length: 1, 2 or 5 and zeros up to
/// half a second, then 1, 2, 5, 10, 15 or 30 seconds or minutes, 1, 2, 3, 6 or 12 hours, or 1, 2 or 5 and zeros of days.
#[tactic(auto, unfolding(crate::specs::Rounds::time_step))]
pub(crate) fn time_step(length: u128, ticks: u64) -> u128
    requires long { length < 2 ^ 95 }
    requires ticks { ticks ≤ 10 }
    ensures some { 0 < result }
    ensures few { length / result ≤ ticks }
    ensures least { result ≡ time_step length ticks }
{
    if length / HALF_SECOND <= u128::from(ticks) {
        return u128::from(round_step(length as u64, ticks));
    }
    match long_step(length, ticks) {
        Some(step) => step,
        None => day_step(length, ticks),
    }
}

/// The least of the steps from a second to half a day that is long enough.
fn long_step(length: u128, ticks: u64) -> Option<u128>
    ensures some { IfSome result (λ step. (0 < step) × (length / step ≤ ticks)) }
    ensures least { result ≡ find (is_long_enough length ticks) long_steps }
{
    for step in LONG_STEPS {
        if let Some(found) = step_if(step, length, ticks) {
            return Some(found);
        }
    }
    None
}

/// A step, where it is long enough.
fn step_if(step: u64, length: u128, ticks: u64) -> Option<u128>
    requires { 0 < step }
    ensures some { IfSome result (λ step. (0 < step) × (length / step ≤ ticks)) }
    ensures least { result ≡ find (is_long_enough length ticks) (step ∷ []) }
{
    let step = u128::from(step);
    if length / step <= u128::from(ticks) {
        Some(step)
    } else {
        None
    }
}

/// The least step of days that is long enough.
fn day_step(length: u128, ticks: u64) -> u128
    requires { length < 2 ^ 95 }
    ensures some { 0 < result }
    ensures few { length / result ≤ ticks }
    ensures least { result ≡ whole_day * round_step (length / whole_day) ticks }
{
    DAY * u128::from(round_step((length / DAY) as u64, ticks))
}
