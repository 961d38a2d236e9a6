//! A law of event keys: their comparison is a total order, so events with different keys never tie.
ghost use Rattle.std.specs.Prelude.{◌≡◌};
ghost use Rattle.std.specs.Cmp.{IsTotalOrder};
ghost use Rattle.std.specs.FinMap.{IsAntisymmetric};
ghost use Rattle.base.specs.Order.{key_cmp};

use crate::key::Key;

/// Keys are compared by one total order, in which only equal keys tie.
pub fn key_order()
    ensures compares { ⟦<Key as Ord>⟧.cmp ≡ key_cmp }
    ensures total { IsTotalOrder key_cmp }
    ensures exact { IsAntisymmetric key_cmp }
{}
