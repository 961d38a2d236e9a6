//! What a row tells: the beginning or end of a life, or what its member holds of another.
ghost use Rattle.std.specs.Prelude.{◌≡◌, ◌&&◌, ◌||◌, ◌≤◌};
ghost use Rattle.trace_rows.specs.Rows.{has_kind};
ghost use Rattle.incidents.specs.Lives.{weight, begins, ends, is_turn};
ghost use Rattle.incidents.specs.Views.{views, claims, is_one_of};
ghost use Rattle.incidents.specs.Telling.{reports_nothing};

use trace::{Row, What};
use trace_rows::has_kind;

/// Whether a row begins a life of its member.
pub(crate) fn begins(row: &Row) -> bool
    ensures { result ≡ begins row.now }
{
    has_kind(row, What::Start) || has_kind(row, What::Restart)
}

/// Whether a row begins or ends a life of its member.
pub(crate) fn is_turn(row: &Row) -> bool
    ensures { result ≡ is_turn row.now }
{
    begins(row) || ends(row)
}

/// Whether a row ends a life of its member.
pub(crate) fn ends(row: &Row) -> bool
    ensures { result ≡ ends row.now }
{
    has_kind(row, What::Crash) || has_kind(row, What::Leave)
}

/// Whether a row suspects a member or holds it dead.
pub(crate) fn is_doubt(row: &Row) -> bool
    ensures { result ≡ (has_kind What.Suspect row.now || has_kind What.Confirm row.now) }
{
    has_kind(row, What::Suspect) || has_kind(row, What::Confirm)
}

/// Whether a row says what its member holds of another.
pub(crate) fn is_view(row: &Row) -> bool
    ensures { result ≡ is_one_of views row.now }
{
    matches!(
        row.what,
        What::Alive | What::Suspect | What::Confirm | What::Left | What::Forget
    )
}

/// Whether a row says whether its member holds another to be in the cluster.
pub(crate) fn is_claim(row: &Row) -> bool
    ensures { result ≡ is_one_of claims row.now }
{
    matches!(
        row.what,
        What::Alive | What::Confirm | What::Left | What::Forget
    )
}

/// Whether a row begins or ends no life, says nothing of another member, and isn't one of a first
/// table. Then incidents and returns are as before.
#[inline(always)]
pub fn reports_nothing(row: &Row) -> bool
    ensures { result ≡ reports_nothing row.now }
{
    !matches!(
        row.what,
        What::Start
            | What::Restart
            | What::Crash
            | What::Leave
            | What::Joined
            | What::Alive
            | What::Suspect
            | What::Confirm
            | What::Left
            | What::Forget
    )
}

/// Whether both are so.
pub(crate) fn both(first: bool, second: bool) -> bool
    ensures { result ≡ (first && second) }
{
    first && second
}

/// A test as a number.
pub(crate) fn weight(is: bool) -> u64
    ensures value { result ≡ weight is }
    ensures small { result ≤ 1 }
{
    if is { 1 } else { 0 }
}
