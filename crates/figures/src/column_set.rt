//! Which columns a table has.
ghost use Rattle.std.specs.Prelude.{◌≡◌};
ghost use Rattle.figures.specs.ColumnSets.{has_revived, has_incidents};

/// Which columns a table of runs or of settings has, by the version of the texts that it is of.
#[derive(Clone, Copy, Debug, PartialEq, Eq)]
pub enum ColumnSet {
    /// Those that each table has: versions 1 and 2.
    First,
    /// Also how often members were taken for alive again: version 3.
    WithRevived,
    /// And incidents: version 4.
    WithIncidents,
}

impl ColumnSet {
    /// Whether the table has the column of members that were taken for alive again.
    pub fn has_revived(self) -> bool
        ensures { result ≡ has_revived self }
    {
        match self {
            ColumnSet::First => false,
            ColumnSet::WithRevived | ColumnSet::WithIncidents => true,
        }
    }

    /// Whether it has those of incidents.
    pub fn has_incidents(self) -> bool
        ensures { result ≡ has_incidents self }
    {
        match self {
            ColumnSet::First | ColumnSet::WithRevived => false,
            ColumnSet::WithIncidents => true,
        }
    }
}
