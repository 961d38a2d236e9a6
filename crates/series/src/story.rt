//! What the rows of a run say of one member.
ghost use Rattle.std.specs.Prelude.{◌≡◌, ℕ, ◌+◌, ◌<◌, ◌≤◌, ◌^◌, ◌&&◌, ◌||◌, ◌==◌, ◌++◌, ◌∷◌, [], true, false, cond, List, Some, OnOk, length, slice_index};
ghost use Rattle.std.specs.Option.{option_to_list};
ghost use Rattle.reports.specs.Rows.{has_kind, is_about};
ghost use Rattle.series.specs.Grid.{count_at};
ghost use Rattle.series.specs.Changes.{Change as AChange, AreFlowsOf, CanChange};
ghost use Rattle.series.specs.Stories.{claimed_state, claim_change};

use crate::flows::Flows;
use crate::grid::Grid;
use crate::lines::{TraceLine, first_line, last_line};
use crate::spread::Spread;
use base::Memory;
use std::alloc::Global;
use trace::{Row, What};

/// What the rows of a run say of one member.
#[derive(Drop)]
pub struct Story {
    /// How others hold it: state 0 is alive, 1 suspected, 2 confirmed to have failed.
    claims: Flows,
    /// How often it refuted what was said of it, in each span, on the one track.
    refuted: Grid,
    /// How often others took it for alive again that held it to have failed, likewise.
    revived: Grid,
    /// When others learned of its crash, where that is watched.
    spread: Spread,
    /// The first row that confirms that it failed.
    first_confirm: Option<TraceLine>,
    /// The last row by which it refuted what was said of it.
    last_refute: Option<TraceLine>,
    /// How many probes of it failed.
    fails: u64,
}

impl Story {
    ghost use Rattle.scenario.specs.Setup.{Setup};
    ghost use Rattle.trace.specs.declared.row.Row.{Row as AnyRow};
    ghost use Rattle.incidents.specs.Lives.{restarts};
    ghost use Rattle.series.specs.Stories.{is_crash_of, IsSpreadOf, IsStoryOf, HasRoom, ComesNext, CanTell};

    /// What is known before any row, with what is watched of the member's crash.
    pub(crate) fn new(alloc: Global, spread: Spread) -> Story
        ensures { (s : Setup) (subject : ℕ) → IsSpreadOf s subject spread [] → IsStoryOf s subject result [] }
    {
        Story {
            claims: Flows::new(alloc),
            refuted: Grid::new(alloc),
            revived: Grid::new(alloc),
            spread,
            first_confirm: None,
            last_refute: None,
            fails: 0,
        }
    }

    /// Makes room for a row that is about the member, where there are so many members. A
    /// refusal leaves what is known.
    pub(crate) fn make_room(&mut self, row: &Row, members: usize) -> Result<(), Memory>
        requires { row.now.member < members }
        ensures room { OnOk result (HasRoom row.now.member row.now.what self.new) }
        ensures same { (s : Setup) (subject : ℕ) (rows : List AnyRow) → IsStoryOf s subject self.old rows → IsStoryOf s subject self.new rows }
    {
        match row.what {
            What::Alive => {
                self.revived.make_room(1)?;
                self.claims.make_room(members, 3)
            }
            What::Suspect | What::Confirm => self.claims.make_room(members, 3),
            What::Refute => self.refuted.make_room(1),
            _ => Ok(()),
        }
    }

    /// Takes in a row that is about the member, and stands on the line of that number. It is
    /// neither that of a crash nor that of a restart.
    pub(crate) fn follow(&mut self, row: &Row, span: usize, number: u64)
        requires span { span < 120 }
        requires room { HasRoom row.now.member row.now.what self.old }
        requires can { CanTell row.now self.old }
        ensures { (s : Setup) (subject : ℕ) (rows : List AnyRow) → is_about subject row.now ≡ true → is_crash_of subject row.now ≡ false → restarts subject row.now ≡ false → ComesNext s row.now span number rows
            → IsStoryOf s subject self.old rows → IsStoryOf s subject self.new (rows ++ row.now ∷ []) }
    {
        let is_back = takes_back(&self.claims, row);
        follow_revival(&mut self.revived, is_back, span);
        follow_claim(&mut self.claims, row, span);
        follow_refute(&mut self.refuted, row, span);
        self.spread.follow(row);
        self.first_confirm = first_line(self.first_confirm, What::Confirm, row, number);
        self.last_refute = last_line(self.last_refute, What::Refute, row, number);
        self.fails = with_fail(self.fails, row);
    }

    /// Takes in that the member crashes.
    pub(crate) fn crash(&mut self)
        ensures { self.new ≡ record self.old { spread = record self.old.spread { crashed = true } } }
    {
        self.spread.crash();
    }

    /// Takes in that the member starts again.
    pub(crate) fn restart(&mut self)
        ensures { self.new ≡ record self.old { spread = record self.old.spread { back = self.old.spread.back || self.old.spread.crashed } } }
    {
        self.spread.restart();
    }

    /// How others hold it: state 0 is alive, 1 suspected, 2 confirmed to have failed.
    pub fn claims(&self) -> &Flows
        ensures { result.now ≡ self.now.claims }
    {
        &self.claims
    }

    /// How often it refuted what was said of it in a span.
    pub fn refuted(&self, span: usize) -> u64
        requires { span < 120 }
        ensures { result ≡ count_at self.now.refuted 0 span }
    {
        self.refuted.count(0, span)
    }

    /// How often others took it for alive again in a span that held it to have failed.
    pub fn revived(&self, span: usize) -> u64
        requires { span < 120 }
        ensures { result ≡ count_at self.now.revived 0 span }
    {
        self.revived.count(0, span)
    }

    /// When others learned of its crash, where that is watched.
    pub fn spread(&self) -> &Spread
        ensures { result.now ≡ self.now.spread }
    {
        &self.spread
    }

    /// The first row that confirms that it failed.
    pub fn first_confirm(&self) -> Option<TraceLine>
        ensures { result ≡ self.now.first_confirm }
    {
        self.first_confirm
    }

    /// The last row by which it refuted what was said of it.
    pub fn last_refute(&self) -> Option<TraceLine>
        ensures { result ≡ self.now.last_refute }
    {
        self.last_refute
    }

    /// How many probes of it failed.
    pub fn fails(&self) -> u64
        ensures { result ≡ self.now.fails }
    {
        self.fails
    }
}

/// Whether a row takes the member for alive again: whose row it is held it to have failed.
fn takes_back(claims: &Flows, row: &Row) -> bool
    ensures { result ≡ (has_kind What.Alive row.now && slice_index claims.now.states.items row.now.member == 2) }
{
    row.what == What::Alive && claims.state(row.member) == 2
}

/// Counts that a member was taken for alive again, where it was.
fn follow_revival(revived: &mut Grid, is_back: bool, span: usize)
    requires span { span < 120 }
    requires room { is_back ≡ true → 120 ≤ length revived.old.counts.items }
    requires by_one { count_at revived.old 0 span < 2 ^ 63 }
    ensures { (k : ℕ) → k < 120 → count_at revived.new 0 k ≡ count_at revived.old 0 k + cond (is_back && k == span) 1 0 }
{
    if is_back {
        revived.raise(0, span);
    }
}

/// Takes in how a member holds another.
fn follow_claim(claims: &mut Flows, row: &Row, span: usize)
    requires span { span < 120 }
    requires can { (state : ℕ) → claimed_state row.now.what ≡ Some state → CanChange claims.old row.now.member state }
    ensures { (changes : List AChange) → AreFlowsOf 3 claims.old changes → AreFlowsOf 3 claims.new (changes ++ option_to_list (claim_change span row.now)) }
{
    if let Some(state) = claimed_state(row.what) {
        claims.follow(row.member, state, span);
    }
}

/// Counts that a member refuted what was said of it.
fn follow_refute(refuted: &mut Grid, row: &Row, span: usize)
    requires span { span < 120 }
    requires room { row.now.what ≡ What.Refute → 120 ≤ length refuted.old.counts.items }
    requires by_one { count_at refuted.old 0 span < 2 ^ 63 }
    ensures { (k : ℕ) → k < 120 → count_at refuted.new 0 k ≡ count_at refuted.old 0 k + cond (has_kind What.Refute row.now && k == span) 1 0 }
{
    if row.what == What::Refute {
        refuted.raise(0, span);
    }
}

/// How many probes failed, with one row more.
fn with_fail(fails: u64, row: &Row) -> u64
    requires { fails < 2 ^ 63 }
    ensures { result ≡ fails + cond (has_kind What.Fail row.now) 1 0 }
{
    if row.what == What::Fail {
        fails + 1
    } else {
        fails
    }
}

/// The state in which a claim puts the member that it is about.
pub(crate) fn claimed_state(kind: What) -> Option<u8>
    ensures { result ≡ claimed_state kind }
{
    match kind {
        What::Alive => Some(0),
        What::Suspect => Some(1),
        What::Confirm => Some(2),
        _ => None,
    }
}
