//! Puts the rows of a turn into row order, releases those before the first pending moment, and keeps the others back.
ghost use Rattle.std.specs.Prelude.{◌≡◌, ◌<◌, ◌==◌, ◌++◌, ◌∷◌, [], true, not, map, count_by, IfOk, OnOk, OnErr};
ghost use Rattle.std.specs.Bool.{OnTrue};
ghost use Rattle.std.specs.List.{filter, list_all};
ghost use Rattle.std.specs.Vec.{vec_len};
ghost use Rattle.std.specs.List.Sorted.{IsPermutation, IsSorted};
ghost use Rattle.base.specs.Rising.{IsRising, IsPlaceBefore};
ghost use Rattle.member.specs.Places.{place_of};
ghost use Rattle.windows.specs.declared.part.Done.{Done as ADone};
ghost use Rattle.turns.specs.Parts.{is_before, IsInRowOrder};

use base::{Memory, Moment};
use member::Event;
use rayon::prelude::*;
use std::alloc::{AllocError, Global};
use std::marker::Sync;
use std::slice;
use std::thread::Threads;
use trace::Row;
use windows::Done;
use worker_queue::EventQueue;

/// With fewer rows than these, threads cost more than they save.
const ROWS_WORTH_THREADS: usize = 4096;

/// The rows, in row order. Where they are ordered they stand in it already.
pub(crate) fn in_row_order(
    rt: &(impl Threads + Sync),
    alloc: Global,
    mut rows: Vec<Row>,
    ordered: bool,
) -> Result<Vec<Row>, Memory>
    requires already { ordered ≡ true → IsRising IsPlaceBefore (map place_of rows.items) }
    ensures { IfOk result (λ sorted. IsInRowOrder rows.items sorted.items) }
{
    if ordered {
        return Ok(rows);
    }
    sort(rt, alloc, &mut rows)?;
    Ok(rows)
}

/// Sorts rows into row order.
fn sort(rt: &(impl Threads + Sync), alloc: Global, rows: &mut Vec<Row>) -> Result<(), AllocError>
    ensures same { IsPermutation rows.old.items rows.new.items }
    ensures sorted { OnOk result (IsSorted ⟦<Row as Ord>⟧.cmp rows.new.items) }
{
    if rows.len() < ROWS_WORTH_THREADS {
        rows.sort()
    } else {
        par_sort(rt, alloc, rows.as_mut_slice())
    }
}

/// Whether the rows of the windows, after those that were kept, stand in row order as they are: where none were
/// kept, and one part at most wrote some.
pub(crate) fn stand_in_order<Q: EventQueue<Event>>(kept: &[Row], done: &[Done<Q>]) -> bool
    ensures none { OnTrue result (kept.now ≡ []) }
    ensures one { OnTrue result (count_by (λ (d : ADone Q). not (vec_len d.rows == 0)) done.now < 2) }
{
    if !kept.is_empty() {
        return false;
    }
    writers(done) < 2
}

/// How many of the windows wrote rows.
fn writers<Q: EventQueue<Event>>(done: &[Done<Q>]) -> usize
    ensures { result ≡ count_by (λ (d : ADone Q). not (vec_len d.rows == 0)) done.now }
{
    done.iter().filter(|one| !one.rows.is_empty()).count()
}

/// Rows before a moment, and the others.
#[derive(Drop)]
pub(crate) struct Split {
    pub(crate) rows: Vec<Row>,
    pub(crate) kept: Vec<Row>,
}

/// Of rows those that come before the first moment that pends, or all where nothing does, and the others. Where
/// all of them do, as they mostly do, none is copied.
pub(crate) fn released(
    alloc: Global,
    rows: Vec<Row>,
    first: Option<Moment>,
) -> Result<Split, Memory>
    ensures before { IfOk result (λ split. split.rows.items ≡ filter (is_before first) rows.items) }
    ensures others { IfOk result (λ split. split.kept.items ≡ filter (λ row. not (is_before first row)) rows.items) }
{
    if all_come_before(&rows, &first) {
        let kept = Vec::new(alloc);
        return Ok(Split { rows, kept });
    }
    parted(alloc, &rows, first)
}

/// Whether each of the rows comes before the moment, if there is one.
fn all_come_before(rows: &[Row], first: &Option<Moment>) -> bool
    ensures { result ≡ list_all (is_before first.now) rows.now }
{
    rows.iter().all(|row| comes_before(row, first))
}

/// Copies of the rows that come before the first moment that pends, and of the others.
fn parted(alloc: Global, rows: &[Row], first: Option<Moment>) -> Result<Split, Memory>
    ensures before { IfOk result (λ split. split.rows.items ≡ filter (is_before first) rows.now) }
    ensures others { IfOk result (λ split. split.kept.items ≡ filter (λ row. not (is_before first row)) rows.now) }
{
    let mut before = Vec::new(alloc);
    let mut kept = Vec::new(alloc);
    for row in rows {
        if comes_before(row, &first) {
            copy_to(&mut before, row)?;
        } else {
            copy_to(&mut kept, row)?;
        }
    }
    Ok(Split { rows: before, kept })
}

/// Puts a copy of the row at the end of a list.
fn copy_to(rows: &mut Vec<Row>, row: &Row) -> Result<(), Memory>
    ensures { OnOk result (rows.new.items ≡ rows.old.items ++ row.now ∷ []) }
{
    rows.extend_from_slice(slice::from_ref(row))?;
    Ok(())
}

/// Whether the row comes before the moment, if there is one.
fn comes_before(row: &Row, first: &Option<Moment>) -> bool
    ensures { result ≡ is_before first.now row.now }
{
    match first {
        Some(first) => row.at < *first,
        None => true,
    }
}

/// Adds what one list has to the end of another. Where that is empty, the one takes its place, and nothing
/// is moved.
pub fn join<T: Drop>(all: &mut Vec<T>, mut more: Vec<T>) -> Result<(), Memory>
    ensures ok { OnOk result (all.new.items ≡ all.old.items ++ more.items) }
    ensures unchanged { OnErr result (all.new.items ≡ all.old.items) }
{
    if all.is_empty() {
        *all = more;
        return Ok(());
    }
    all.append(&mut more)?;
    Ok(())
}
