//! The ends of an interval, from its middle and what stands under the root.
ghost use Rattle.std.specs.Prelude.{◌≡◌, ◌+◌, ◌-◌, ◌/◌, ◌<◌, ◌^◌};
ghost use Rattle.day_rates.specs.Roots.{root, root_up, scaled_square};

use crate::roots::scaled_root;

/// The lower end.
pub(crate) fn lower(middle: u128, spread: u128, width: u128) -> u128
    requires spread { spread < 2 ^ 125 }
    requires width { 0 < width }
    ensures { result ≡ (middle - root_up (scaled_square 0 spread)) / width }
{
    let root = scaled_root(spread);
    if root.is_exact {
        return middle.saturating_sub(root.down) / width;
    }
    middle.saturating_sub(root.down + 1) / width
}

/// The upper end.
pub(crate) fn higher(middle: u128, spread: u128, width: u128) -> u128
    requires middle { middle < 2 ^ 122 }
    requires spread { spread < 2 ^ 125 }
    requires width { 0 < width }
    ensures { result ≡ (middle + root (scaled_square 0 spread)) / width }
{
    let root = scaled_root(spread);
    (middle + root.down) / width
}
