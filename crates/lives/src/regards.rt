//! How Serf regards other members, by their numbers.
ghost use Rattle.std.specs.Prelude.{◌≡◌, ◌<◌, ◌≤◌, ◌^◌, ℕ, OnOk, IfOk, vec_len, All};
ghost use Rattle.lives.specs.Regards.{failed_among, gone_now, is_failed, is_marked, reaped, regarded, regards_of};

use base::{MemberId, Memory, Moment};
use std::alloc::Global;

/// How Serf regards a member.
#[derive(Clone, Copy, Debug, PartialEq, Eq)]
pub enum Regard {
    /// As one that is there, or of which nothing is known.
    Usual,
    /// It is about to leave.
    Marked,
    /// It has died or left without saying so before, at this moment.
    Failed(Moment),
}

/// How a member is regarded.
pub(crate) fn regard_at(column: &[Regard], member: MemberId) -> Regard
    ensures { result ≡ regards_of column.now member }
{
    match column.get(member.index()) {
        Some(regard) => *regard,
        None => Regard::Usual,
    }
}

/// Whether a member so regarded is about to leave.
pub(crate) fn is_marked(regard: Regard) -> bool
    ensures { result ≡ is_marked regard }
{
    match regard {
        Regard::Marked => true,
        Regard::Usual | Regard::Failed(_) => false,
    }
}

/// Whether a member so regarded has failed.
fn is_failed(regard: Regard) -> bool
    ensures { result ≡ is_failed regard }
{
    match regard {
        Regard::Failed(_) => true,
        Regard::Usual | Regard::Marked => false,
    }
}

/// How a member is regarded that dies or leaves now: as failed, unless it is about to leave.
pub(crate) fn gone_now(now: Moment, regard: Regard) -> Regard
    ensures { result ≡ gone_now now regard }
{
    match regard {
        Regard::Marked => Regard::Marked,
        Regard::Usual | Regard::Failed(_) => Regard::Failed(now),
    }
}

/// How a member so regarded is regarded now, where who failed more than so many ticks ago is forgotten.
fn reaped(now: Moment, ticks: u64, regard: Regard) -> Regard
    ensures { result ≡ reaped now ticks regard }
{
    match regard {
        Regard::Failed(since) if now.ticks().saturating_sub(since.ticks()) > ticks => Regard::Usual,
        _ => regard,
    }
}

/// Makes a place for a member.
fn reach(column: &mut Vec<Regard>, member: MemberId) -> Result<(), Memory>
    ensures place { OnOk result (member < vec_len column.new) }
    ensures same { regards_of column.new.items ≡ regards_of column.old.items }
{
    while column.len() <= member.index() {
        column.push(Regard::Usual)?;
    }
    Ok(())
}

/// Regards a member so from now on.
pub(crate) fn set_regard(
    column: &mut Vec<Regard>,
    member: MemberId,
    regard: Regard,
) -> Result<(), Memory>
    ensures { OnOk result (regards_of column.new.items ≡ regarded member regard (regards_of column.old.items)) }
{
    reach(column, member)?;
    column[member.index()] = regard;
    Ok(())
}

/// Regards a member as usual from now on. It takes no memory.
pub(crate) fn clear_regard(column: &mut Vec<Regard>, member: MemberId)
    ensures { regards_of column.new.items ≡ regarded member Regard.Usual (regards_of column.old.items) }
{
    if member.index() < column.len() {
        column[member.index()] = Regard::Usual;
    }
}

/// Forgets those that failed more than so many ticks ago.
pub(crate) fn reap_all(column: &mut [Regard], now: Moment, ticks: u64)
    ensures { (m : ℕ) → regards_of column.new m ≡ reaped now ticks (regards_of column.old m) }
{
    for place in 0..column.len() {
        column[place] = reaped(now, ticks, column[place]);
    }
}

/// Among the first members, so many of them, those that failed, in the order of their numbers.
pub(crate) fn list_failed(
    alloc: Global,
    column: &[Regard],
    members: usize,
) -> Result<Vec<MemberId>, Memory>
    requires { members ≤ 2 ^ 16 }
    ensures failed { IfOk result (λ failed. failed.items ≡ failed_among members (regards_of column.now)) }
    ensures among { IfOk result (λ failed. All (λ m. m < members) failed.items) }
{
    let mut failed = Vec::new(alloc);
    for number in 0..members.min(column.len()) {
        if is_failed(column[number]) {
            failed.push(MemberId(number as u16))?;
        }
    }
    Ok(failed)
}
