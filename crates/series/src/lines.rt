//! Lines of the trace that are reported.
ghost use Rattle.std.specs.Prelude.{◌≡◌, Some, None, if◌then◌else◌};
ghost use Rattle.std.specs.Option.{option_or};
ghost use Rattle.reports.specs.Rows.{has_kind};
ghost use Rattle.series.specs.Lines.{line_at};

use base::{MemberId, Moment};
use trace::{Row, What};

/// What is kept of a row of the trace.
#[derive(Clone, Copy, Debug, PartialEq, Eq)]
pub struct TraceLine {
    /// The number of its line; the header stands on line 1.
    pub number: u64,
    /// When it was written, in ticks.
    pub at: Moment,
    /// The member whose row it is.
    pub member: MemberId,
}

/// What is kept of a row on the line of that number.
pub(crate) fn line_at(number: u64, row: &Row) -> TraceLine
    ensures { result ≡ line_at number row.now }
{
    TraceLine {
        number,
        at: row.at,
        member: row.member,
    }
}

/// The first line of a kind, with one row more.
pub(crate) fn first_line(
    first: Option<TraceLine>,
    kind: What,
    row: &Row,
    number: u64,
) -> Option<TraceLine>
    ensures { result ≡ option_or first (if has_kind kind row.now then Some (line_at number row.now) else None) }
{
    if row.what == kind {
        first.or(Some(line_at(number, row)))
    } else {
        first
    }
}

/// The last line of a kind, with one row more.
pub(crate) fn last_line(
    last: Option<TraceLine>,
    kind: What,
    row: &Row,
    number: u64,
) -> Option<TraceLine>
    ensures { result ≡ (if has_kind kind row.now then Some (line_at number row.now) else last) }
{
    if row.what == kind {
        Some(line_at(number, row))
    } else {
        last
    }
}
