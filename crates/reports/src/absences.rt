//! The members that are away in the rows so far, and which claims were false.
ghost use Rattle.std.specs.Prelude.{◌≡◌, ◌<◌, ◌^◌, ◌++◌, ◌∷◌, ◌||◌, [], List, length, map, OnOk, All, if◌then◌else◌};
ghost use Rattle.trace.specs.declared.row.Row.{Row as AnyRow};
ghost use Rattle.reports.specs.Failures.{false_positive_told};
ghost use Rattle.reports.specs.Away.{absence_with, is_about_away, AreAbsencesOf};

use crate::absence::{Absence, add_absence, is_about_away, see_each};
use crate::false_positives::FalsePositive;
use base::Memory;
use std::alloc::Global;
use trace::{Row, What};

/// What the rows so far report of members that depart and start again, and of claims that a member
/// failed.
#[derive(Drop)]
pub(crate) struct Absences {
    /// The crashes, in the order of the trace.
    pub(crate) crashes: Vec<Absence>,
    /// The leaves, likewise.
    pub(crate) leaves: Vec<Absence>,
    /// The suspicions of members that weren't away.
    pub(crate) suspicions: Vec<FalsePositive>,
    /// The confirmations that a member failed which wasn't away.
    pub(crate) confirmations: Vec<FalsePositive>,
}

impl Absences {
    /// Those of no rows. It takes no memory.
    pub(crate) fn new(alloc: Global) -> Absences
        ensures { AreAbsencesOf result [] }
    {
        Absences {
            crashes: Vec::new(alloc),
            leaves: Vec::new(alloc),
            suspicions: Vec::new(alloc),
            confirmations: Vec::new(alloc),
        }
    }

    /// Takes in what the next row reports. After a refusal nothing is known of them.
    pub(crate) fn follow(&mut self, row: &Row) -> Result<(), Memory>
        requires { (rows : List AnyRow) × AreAbsencesOf self.old rows × (length rows < 2 ^ 63) }
        ensures { OnOk result ((rows : List AnyRow) → AreAbsencesOf self.old rows → AreAbsencesOf self.new (rows ++ row.now ∷ [])) }
    {
        match row.what {
            What::Crash => add_absence(&mut self.crashes, row),
            What::Leave => add_absence(&mut self.leaves, row),
            What::Suspect => add_claim(
                &mut self.suspicions,
                &mut self.crashes,
                &mut self.leaves,
                row,
            ),
            What::Confirm => add_claim(
                &mut self.confirmations,
                &mut self.crashes,
                &mut self.leaves,
                row,
            ),
            What::Restart => {
                see_both(&mut self.crashes, &mut self.leaves, row);
                Ok(())
            }
            _ => Ok(()),
        }
    }
}

/// Takes in a claim that a member failed: it counts for that member's absences, or it is false.
fn add_claim(
    claims: &mut Vec<FalsePositive>,
    crashes: &mut Vec<Absence>,
    leaves: &mut Vec<Absence>,
    row: &Row,
) -> Result<(), Memory>
    requires crashes { All (λ absence. absence.told.detection.confirmers < 2 ^ 63) crashes.old.items }
    requires leaves { All (λ absence. absence.told.detection.confirmers < 2 ^ 63) leaves.old.items }
    ensures crashes { OnOk result (crashes.new.items ≡ map (absence_with row.now) crashes.old.items) }
    ensures leaves { OnOk result (leaves.new.items ≡ map (absence_with row.now) leaves.old.items) }
    ensures claims { OnOk result (claims.new.items ≡ claims.old.items
        ++ (if is_about_away crashes.old.items row.now || is_about_away leaves.old.items row.now then [] else false_positive_told row.now ∷ [])) }
{
    if is_about_either(row, crashes, leaves) {
        see_both(crashes, leaves, row);
        return Ok(());
    }
    claims.push(FalsePositive::new(row))?;
    see_both(crashes, leaves, row);
    Ok(())
}

/// Takes in what one row more tells of each absence.
fn see_both(crashes: &mut Vec<Absence>, leaves: &mut Vec<Absence>, row: &Row)
    requires crashes { All (λ absence. absence.told.detection.confirmers < 2 ^ 63) crashes.old.items }
    requires leaves { All (λ absence. absence.told.detection.confirmers < 2 ^ 63) leaves.old.items }
    ensures crashes { crashes.new.items ≡ map (absence_with row.now) crashes.old.items }
    ensures leaves { leaves.new.items ≡ map (absence_with row.now) leaves.old.items }
{
    see_each(crashes, row);
    see_each(leaves, row);
}

/// Whether a row is about a member that crashed or left, and is away since.
fn is_about_either(row: &Row, crashes: &[Absence], leaves: &[Absence]) -> bool
    ensures { result ≡ (is_about_away crashes.now row.now || is_about_away leaves.now row.now) }
{
    is_about_away(row, crashes) || is_about_away(row, leaves)
}
