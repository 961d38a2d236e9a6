//! The type-level name of a board: it separates its posts and seats from those of another board.
use std::marker::Brand;

/// Which board it is. A type parameter of this kind stands for one board, which a call picks
/// (`std::marker::Brand`), so that a type says of all its values that they are at that board.
pub trait Site {
    ghost use Rattle.atomic_table.specs.Seated.{TableId};

    ghost table: { TableId };
}

impl Site for Brand {
    ghost use Rattle.board.specs.NoSite.{no_table};

    ghost table = { no_table };
}
