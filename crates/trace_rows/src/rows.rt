//! Of which kind a row is, and about whom.
ghost use Rattle.std.specs.Prelude.{◌≡◌};
ghost use Rattle.trace_rows.specs.Rows.{has_kind, is_about};

use base::MemberId;
use trace::{Row, What};

/// Whether a row is of this kind.
pub fn has_kind(row: &Row, kind: What) -> bool
    ensures { result ≡ has_kind kind row.now }
{
    row.what == kind
}

/// Whether a row is about a member.
pub fn is_about(row: &Row, member: MemberId) -> bool
    ensures { result ≡ is_about member row.now }
{
    match row.about {
        Some(about) => about == member,
        None => false,
    }
}
