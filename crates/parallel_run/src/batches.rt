//! The lots of all parts, as who writes takes them.
ghost use Rattle.std.specs.Prelude.{◌≡◌, ◌≢◌, ◌++◌, length, Some, IfOk, IfErr, OnOk};
ghost use Rattle.std.specs.Bool.{OnTrue};
ghost use Rattle.std.specs.List.Sorted.{IsPermutation, IsSorted};
ghost use Rattle.lookahead_windows.specs.Basis.{Basis, IsBasis};
ghost use Rattle.parallel_run.specs.Messages.{MayEndBy};
ghost use Rattle.parallel_run.specs.Writing.{IsNextTurn, GoesAsFar};

use crate::batch_receiver::BatchReceiver;
use crate::of_run::OfRun;
use crate::row_batch::RowBatch;
use base::{Fault, Memory, Moment};
use std::alloc::Global;
use std::sync::Wait;
use trace::Row;
use turns::join;

/// The rows of all parts from one moment up to another, in row order.
#[derive(Drop)]
pub(crate) struct MergedBatch {
    pub(crate) rows: Vec<Row>,
    /// The moment before which they are.
    pub(crate) until: Moment,
    /// The round before which they were sent.
    pub(crate) round: u64,
    /// Whether nothing is left to happen after them.
    pub(crate) last: bool,
}

/// The next rows of all parts, from that moment on, in row order.
///
/// Faults: `Memory`, those by which parts ended, `ThreadLost` where the lots do not go as far, or were
/// not sent before the same round.
pub(crate) fn next_turn<'b, K: OfRun>(
    rt: &impl Wait,
    alloc: Global,
    takers: &mut Vec<BatchReceiver<'b, K>>,
    since: Moment,
) -> Result<MergedBatch, Fault>
    requires all { (basis : Basis) → K.basis ≡ Some basis → IsBasis basis × (length takers.old.items ≡ basis.deal.parts) }
    ensures count { length takers.new.items ≡ length takers.old.items }
    ensures next { IfOk result (λ turn. (basis : Basis) → K.basis ≡ Some basis → IsNextTurn basis since turn) }
    ensures fault { IfErr result (λ fault. (basis : Basis) → K.basis ≡ Some basis → MayEndBy basis fault) }
{
    let mut all = MergedBatch {
        rows: Vec::new(alloc),
        until: since,
        round: 0,
        last: false,
    };
    for (number, taker) in takers.iter_mut().enumerate() {
        let lot = taker.take(rt)?;
        if !fits(&lot, number, since, &all) {
            return Err(Fault::ThreadLost);
        }
        all = with_lot(all, lot)?;
    }
    sort(&mut all.rows)?;
    Ok(all)
}

/// Whether the lot is of the part of that number and from that moment on, and goes as far as those of
/// the parts before it.
fn fits(lot: &RowBatch, number: usize, since: Moment, so_far: &MergedBatch) -> bool
    ensures { OnTrue result ((lot.now.from ≡ number) × (lot.now.since ≡ since) × (number ≢ 0 → GoesAsFar lot.now so_far.now)) }
{
    if lot.from != number || lot.since != since {
        return false;
    }
    number == 0 || goes_as_far(lot, so_far)
}

/// Whether the lot goes as far as the turn so far, and was sent before the same round.
fn goes_as_far(lot: &RowBatch, so_far: &MergedBatch) -> bool
    ensures { OnTrue result (GoesAsFar lot.now so_far.now) }
{
    lot.until == so_far.until && lot.round == so_far.round && lot.last == so_far.last
}

/// The rows so far, and those of one more lot.
fn with_lot(so_far: MergedBatch, lot: RowBatch) -> Result<MergedBatch, Memory>
    ensures { IfOk result (λ turn. (turn.rows.items ≡ so_far.rows.items ++ lot.rows.items) × (turn.until ≡ lot.until) × (turn.round ≡ lot.round) × (turn.last ≡ lot.last)) }
{
    let MergedBatch { rows, .. } = so_far;
    let mut rows = rows;
    let RowBatch {
        rows: more,
        until,
        round,
        last,
        ..
    } = lot;
    join(&mut rows, more)?;
    Ok(MergedBatch {
        rows,
        until,
        round,
        last,
    })
}

/// Sorts rows into row order.
fn sort(rows: &mut Vec<Row>) -> Result<(), Memory>
    ensures same { IsPermutation rows.old.items rows.new.items }
    ensures sorted { OnOk result (IsSorted ⟦<Row as Ord>⟧.cmp rows.new.items) }
{
    rows.sort()?;
    Ok(())
}

/// Takes all that is still to come, up to the end of each part: of the faults by which they ended and
/// this one the first. It takes from all in turn, so that no part waits for room in its relay while
/// another is waited for.
pub(crate) fn drained<'b, K: OfRun>(
    rt: &impl Wait,
    takers: &mut Vec<BatchReceiver<'b, K>>,
    fault: Fault,
) -> Fault
    requires { (basis : Basis) → K.basis ≡ Some basis → MayEndBy basis fault }
    ensures { (basis : Basis) → K.basis ≡ Some basis → MayEndBy basis result }
{
    let mut first = fault;
    for _ in rt.forever() {
        if !are_any_open(takers) {
            return first;
        }
        first = skip_each(rt, takers, first);
    }
    unreachable!()
}

/// Whether something is still to come from any part.
fn are_any_open<'b, K: OfRun>(takers: &[BatchReceiver<'b, K>]) -> bool {
    for taker in takers {
        if taker.is_open() {
            return true;
        }
    }
    false
}

/// Takes what comes next from each part from which something is still to come: of the faults by which
/// they ended and this one the first.
fn skip_each<'b, K: OfRun>(
    rt: &impl Wait,
    takers: &mut Vec<BatchReceiver<'b, K>>,
    fault: Fault,
) -> Fault
    requires { (basis : Basis) → K.basis ≡ Some basis → MayEndBy basis fault }
    ensures { (basis : Basis) → K.basis ≡ Some basis → MayEndBy basis result }
{
    let mut first = fault;
    for taker in takers.iter_mut() {
        first = taker.skip(rt, first);
    }
    first
}
