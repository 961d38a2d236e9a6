//! The members that departed in the rows so far, and which claims were false.
ghost use Rattle.std.specs.Prelude.{◌≡◌, ◌<◌, ◌^◌, ◌++◌, ◌∷◌, ◌||◌, [], List, length, map, OnOk, OnErr, All, if◌then◌else◌};
ghost use Rattle.trace.specs.declared.row.Row.{Row as AnyRow};
ghost use Rattle.reports.specs.Failures.{departure_with, false_positive_told, is_about_departed, AreFailuresOf};

use crate::departure::{DepartureReport, add_departure, is_about_departed, see_each};
use crate::false_positives::FalsePositive;
use base::Memory;
use std::alloc::Global;
use trace::{Row, What};

/// What the rows so far report of departures, and of claims that a member failed.
#[derive(Drop)]
pub(crate) struct Failures {
    /// The crashes, in the order of the trace, and how each was detected.
    pub(crate) crashes: Vec<DepartureReport>,
    /// The leaves, likewise.
    pub(crate) leaves: Vec<DepartureReport>,
    /// The suspicions of members that had not departed.
    pub(crate) suspicions: Vec<FalsePositive>,
    /// The confirmations that a member failed which had not departed.
    pub(crate) confirmations: Vec<FalsePositive>,
}

impl Failures {
    /// Those of no rows. It takes no memory.
    pub(crate) fn new(alloc: Global) -> Failures
        ensures { AreFailuresOf result [] }
    {
        Failures {
            crashes: Vec::new(alloc),
            leaves: Vec::new(alloc),
            suspicions: Vec::new(alloc),
            confirmations: Vec::new(alloc),
        }
    }

    /// Takes in what the next row reports. A refusal changes nothing.
    pub(crate) fn follow(&mut self, row: &Row) -> Result<(), Memory>
        requires { (rows : List AnyRow) × AreFailuresOf self.old rows × (length rows < 2 ^ 63) }
        ensures ok { OnOk result ((rows : List AnyRow) → AreFailuresOf self.old rows → AreFailuresOf self.new (rows ++ row.now ∷ [])) }
        ensures err { OnErr result ((rows : List AnyRow) → AreFailuresOf self.old rows → AreFailuresOf self.new rows) }
    {
        match row.what {
            What::Crash => add_departure(&mut self.crashes, row),
            What::Leave => add_departure(&mut self.leaves, row),
            What::Suspect => add_claim(
                &mut self.suspicions,
                &mut self.crashes,
                &mut self.leaves,
                row,
            ),
            What::Confirm => add_claim(
                &mut self.confirmations,
                &mut self.crashes,
                &mut self.leaves,
                row,
            ),
            _ => Ok(()),
        }
    }
}

/// Takes in a claim that a member failed: it counts for that member's departures, or it is false.
fn add_claim(
    claims: &mut Vec<FalsePositive>,
    crashes: &mut Vec<DepartureReport>,
    leaves: &mut Vec<DepartureReport>,
    row: &Row,
) -> Result<(), Memory>
    requires crashes { All (λ departure. departure.detection.confirmers < 2 ^ 63) crashes.old.items }
    requires leaves { All (λ departure. departure.detection.confirmers < 2 ^ 63) leaves.old.items }
    ensures crashes { OnOk result (crashes.new.items ≡ map (departure_with row.now) crashes.old.items) }
    ensures leaves { OnOk result (leaves.new.items ≡ map (departure_with row.now) leaves.old.items) }
    ensures claims { OnOk result (claims.new.items ≡ claims.old.items
        ++ (if is_about_departed crashes.old.items row.now || is_about_departed leaves.old.items row.now then [] else false_positive_told row.now ∷ [])) }
    ensures crashes_kept { OnErr result (crashes.new.items ≡ crashes.old.items) }
    ensures leaves_kept { OnErr result (leaves.new.items ≡ leaves.old.items) }
    ensures claims_kept { OnErr result (claims.new.items ≡ claims.old.items) }
{
    if is_about_either(row, crashes, leaves) {
        see_each(crashes, row);
        see_each(leaves, row);
        return Ok(());
    }
    claims.push(FalsePositive::new(row))?;
    Ok(())
}

/// Whether a row is about a member that crashed or left.
fn is_about_either(row: &Row, crashes: &[DepartureReport], leaves: &[DepartureReport]) -> bool
    ensures { result ≡ (is_about_departed crashes.now row.now || is_about_departed leaves.now row.now) }
{
    is_about_departed(row, crashes) || is_about_departed(row, leaves)
}
