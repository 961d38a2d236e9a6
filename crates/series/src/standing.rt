//! What is known of a member that may be declared dead.
ghost use Rattle.std.specs.Prelude.{◌≡◌, ℕ, ◌+◌, ◌<◌, ◌^◌, Bool, true, false, ◌&&◌, ◌||◌, not, cond, nat_le, ◌++◌, ◌∷◌, [], List, Some, None, if◌then◌else◌, length};
ghost use Rattle.std.specs.Option.{option_map_or};
ghost use Rattle.reports.specs.Rows.{has_kind};
ghost use Rattle.series.specs.Accusers.{AreAccusers};
ghost use Rattle.series.specs.Lines.{line_at};
ghost use Rattle.series.specs.Deaths.{is_line_of, hears};
ghost use Rattle.series.specs.declared.accusers.Accusation.{Accusation as AnAccusation};

use crate::accusers::{Accusation, Accusers, ProbeStory};
use crate::answers::Answers;
use crate::lines::{TraceLine, last_line, line_at};
use trace::{Row, What};

/// A row by which a member refuted what was said of it.
#[derive(Clone, Copy, Debug, PartialEq, Eq)]
pub struct Refutation {
    /// The row.
    pub line: TraceLine,
    /// The member's new incarnation number.
    pub number: u64,
}

/// What is known of a member that may be declared dead.
#[derive(Clone, Copy)]
pub struct Standing {
    /// The greatest incarnation number under which it was suspected.
    suspected: Option<u64>,
    /// The greatest under which it was declared dead.
    declared: Option<u64>,
    /// The last failed probe of it.
    failed: Option<TraceLine>,
    /// Who accused it since it was first suspected under that number.
    accusers: Accusers,
    /// Its last refutation.
    refuted: Option<Refutation>,
    /// How often others took it for alive under that number or a higher one since.
    heard: u64,
}

impl Standing {
    ghost use Rattle.trace.specs.declared.row.Row.{Row as AnyRow};
    ghost use Rattle.reports.specs.Rows.{is_about};
    ghost use Rattle.series.specs.Deaths.{IsStandingOf, answers_of, last_probe};

    /// What is known before any row.
    pub(crate) fn new() -> Standing
        ensures { (subject : ℕ) → IsStandingOf subject result [] }
    {
        Standing {
            suspected: None,
            declared: None,
            failed: None,
            accusers: Accusers::new(),
            refuted: None,
            heard: 0,
        }
    }

    /// Takes in a row that is about the member, and stands on the line of that number. The
    /// probe is the last one that the row's member began, and the answers are what came of it.
    pub(crate) fn follow(
        &mut self,
        row: &Row,
        number: u64,
        probe: Option<ProbeStory>,
        answers: Answers,
    )
        requires few { self.old.accusers.count < 2 ^ 63 }
        requires heard { self.old.heard < 2 ^ 63 }
        ensures { (subject : ℕ) (rows : List AnyRow) → is_about subject row.now ≡ true → number ≡ length rows + 2
            → probe ≡ last_probe row.now.member rows → answers ≡ answers_of row.now.member rows → IsStandingOf subject self.old rows → IsStandingOf subject self.new (rows ++ row.now ∷ []) }
    {
        let anew = is_new(self.suspected, What::Suspect, row);
        let accuses = accuses(self.failed, row);
        let claim = line_at(number, row);
        follow_accusers(
            &mut self.accusers,
            anew,
            accuses,
            Accusation {
                claim,
                probe,
                answers,
            },
        );
        self.suspected = greatest(self.suspected, What::Suspect, row);
        self.declared = greatest(self.declared, What::Confirm, row);
        self.failed = last_line(self.failed, What::Fail, row, number);
        self.heard = heard(self.heard, self.refuted, row);
        self.refuted = refuted(self.refuted, row, number);
    }

    /// The greatest incarnation number under which it was suspected.
    pub fn suspected(&self) -> Option<u64>
        ensures { result ≡ self.now.suspected }
    {
        self.suspected
    }

    /// The greatest under which it was declared dead.
    pub(crate) fn declared(&self) -> Option<u64>
        ensures { result ≡ self.now.declared }
    {
        self.declared
    }

    /// The last failed probe of it.
    pub fn failed(&self) -> Option<TraceLine>
        ensures { result ≡ self.now.failed }
    {
        self.failed
    }

    /// Its last refutation.
    pub fn refuted(&self) -> Option<Refutation>
        ensures { result ≡ self.now.refuted }
    {
        self.refuted
    }

    /// How often others took it for alive since, under its number then or a higher one.
    pub fn heard(&self) -> u64
        ensures { result ≡ self.now.heard }
    {
        self.heard
    }

    /// Who accused it since it was first suspected under its newest number.
    pub fn accusers(&self) -> &Accusers
        ensures { result.now ≡ self.now.accusers }
    {
        &self.accusers
    }
}

/// Whether a number is above the greatest so far.
fn is_above(greatest: Option<u64>, number: u64) -> bool
    ensures { result ≡ not (option_map_or (nat_le number) greatest false) }
{
    match greatest {
        Some(most) => number > most,
        None => true,
    }
}

/// Whether a row is of this kind, with a number above the greatest so far.
pub(crate) fn is_new(most: Option<u64>, kind: What, row: &Row) -> bool
    ensures { result ≡ (has_kind kind row.now && not (option_map_or (nat_le row.now.value) most false)) }
{
    row.what == kind && is_above(most, row.value)
}

/// The greatest number of rows of a kind, with one row more.
fn greatest(most: Option<u64>, kind: What, row: &Row) -> Option<u64>
    ensures { result ≡ (if has_kind kind row.now && not (option_map_or (nat_le row.now.value) most false) then Some row.now.value else most) }
{
    if is_new(most, kind, row) {
        Some(row.value)
    } else {
        most
    }
}

/// Whether a row suspects or accuses, and the last failed probe is its member's, at its moment.
fn accuses(failed: Option<TraceLine>, row: &Row) -> bool
    ensures { result ≡ ((has_kind What.Suspect row.now || has_kind What.Accuse row.now) && option_map_or (is_line_of row.now.member row.now.at) failed false) }
{
    match failed {
        Some(line) => claims_failure(row) && line.member == row.member && line.at == row.at,
        None => false,
    }
}

/// Whether a row suspects or accuses.
fn claims_failure(row: &Row) -> bool
    ensures { result ≡ (has_kind What.Suspect row.now || has_kind What.Accuse row.now) }
{
    row.what == What::Suspect || row.what == What::Accuse
}

/// Takes in an accusation where there is one, alone where the member is suspected anew.
fn follow_accusers(accusers: &mut Accusers, anew: bool, accuses: bool, accusation: Accusation)
    requires few { accusers.old.count < 2 ^ 63 }
    ensures { (list : List AnAccusation) → AreAccusers accusers.old list
        → AreAccusers accusers.new ((if anew then [] else list) ++ (if accuses then accusation ∷ [] else [])) }
{
    if anew {
        *accusers = Accusers::new();
    }
    if accuses {
        accusers.add(accusation);
    }
}

/// The last refutation, with one row more.
fn refuted(last: Option<Refutation>, row: &Row, number: u64) -> Option<Refutation>
    ensures { result ≡ (if has_kind What.Refute row.now then Some (record { line = line_at number row.now; number = row.now.value }) else last) }
{
    if row.what == What::Refute {
        let line = line_at(number, row);
        Some(Refutation {
            line,
            number: row.value,
        })
    } else {
        last
    }
}

/// How often others took the member for alive since its last refutation, with one row more.
fn heard(before: u64, last: Option<Refutation>, row: &Row) -> u64
    requires { before < 2 ^ 63 }
    ensures { result ≡ (if has_kind What.Refute row.now then 0 else (before + cond (hears last row.now) 1 0)) }
{
    if row.what == What::Refute {
        return 0;
    }
    if hears(last, row) {
        return before + 1;
    }
    before
}

/// Whether a row takes for alive under the number of a refutation, or a higher one.
fn hears(last: Option<Refutation>, row: &Row) -> bool
    ensures { result ≡ hears last row.now }
{
    match last {
        Some(refutation) => row.what == What::Alive && refutation.number <= row.value,
        None => false,
    }
}
