//! Which columns the table of a sweep has.
ghost use Rattle.std.specs.Prelude.{◌≡◌};
ghost use Rattle.toml.specs.View.{view};
ghost use Rattle.sweep.specs.Table.{columns_in, columns_of};

use figures::ColumnSet;
use scenario::Version;
use scenario_reader::version_of;
use toml::Value;

/// The columns of the table of a sweep of a text, by the version of the format.
pub fn columns_of(document: &Value) -> ColumnSet
    ensures { result ≡ columns_of (view document.now) }
{
    columns_in(version_of(document))
}

/// Those of a version.
fn columns_in(version: Version) -> ColumnSet
    ensures { result ≡ columns_in version }
{
    match version {
        Version::One | Version::Two => ColumnSet::First,
        Version::Three => ColumnSet::WithRevived,
        Version::Four => ColumnSet::WithIncidents,
    }
}
