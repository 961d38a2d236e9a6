//! The type parameter that ties a ring between threads to its run, so that contracts can say what goes over the ring.
use std::marker::Brand;

/// Of which run a ring is. A type parameter of this kind stands for the scenario, the division and
/// the ways into its parts, and for the relays over which the rows of the parts go, which were given
/// where the ring was made, and which a call picks (`std::marker::Brand`).
pub trait OfRun {
    ghost use Rattle.std.specs.Prelude.{Option, List};
    ghost use Rattle.lookahead_windows.specs.Basis.{Basis};
    ghost use Rattle.parallel_run.specs.Relaying.{RowRelay};

    ghost basis: { Option Basis };

    ghost relays: { List RowRelay };
}

impl OfRun for Brand {
    ghost use Rattle.std.specs.Prelude.{None, []};

    ghost basis = { None };

    ghost relays = { [] };
}
