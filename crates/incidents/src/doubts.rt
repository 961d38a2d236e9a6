//! Who of those that are up suspects whom, and holds whom dead.
ghost use Rattle.std.specs.Prelude.{◌≡◌, ◌<◌, ◌&&◌, ℕ, true, false, not, List, [], IfOk, OnOk, IfSome, length};
ghost use Rattle.trace.specs.declared.row.Row.{Row as AnyRow};
ghost use Rattle.incidents.specs.Lives.{is_up};
ghost use Rattle.incidents.specs.Views.{views, is_one_of};
ghost use Rattle.incidents.specs.Incidents.{is_held_dead, is_doubted};
ghost use Rattle.incidents.specs.Flags.{is_up_in};
ghost use Rattle.incidents.specs.Pairs.{has};
ghost use Rattle.incidents.specs.Kept.{doubt_with, AreDoubtsOf};

use crate::lives::Lives;
use crate::pairs::Pairs;
use crate::rows::{both, is_turn, is_view};
use base::{MemberId, Memory};
use std::alloc::Global;
use trace::{Row, What};
use trace_rows::has_kind;

/// The doubts of those that are up: what each said last of others in its life.
#[derive(Drop)]
pub(crate) struct Doubts {
    /// Who suspects whom.
    pub(crate) suspected: Pairs,
    /// Who holds whom dead.
    pub(crate) dead: Pairs,
}

impl Doubts {
    /// Nobody doubts anybody yet, of so many members.
    pub(crate) fn new(alloc: Global, count: usize) -> Result<Doubts, Memory>
        ensures { IfOk result (λ doubts. AreDoubtsOf doubts count []) }
    {
        let suspected = Pairs::new(alloc, count)?;
        let dead = Pairs::new(alloc, count)?;
        Ok(Doubts { suspected, dead })
    }

    /// Whether nobody that is up holds a member dead.
    pub(crate) fn has_no_death(&self, member: MemberId) -> bool
        ensures { (count : ℕ) (rows : List AnyRow) → AreDoubtsOf self.now count rows
            → ((m : ℕ) → is_up rows m ≡ true → m < count) → result ≡ not (is_held_dead count rows member) }
    {
        self.dead.has_none(member)
    }

    /// Whether nobody that is up suspects a member or holds it dead.
    pub(crate) fn is_trusted(&self, member: MemberId) -> bool
        ensures { (count : ℕ) (rows : List AnyRow) → AreDoubtsOf self.now count rows
            → ((m : ℕ) → is_up rows m ≡ true → m < count) → result ≡ not (is_doubted count rows member) }
    {
        both(self.suspected.has_none(member), self.dead.has_none(member))
    }

    /// Takes in the next row, where these were up before it. Who isn't up doubts nobody.
    pub(crate) fn follow(&mut self, lives: &Lives, row: &Row) -> Result<(), Memory>
        requires suspected { IfSome row.now.about (λ j. j < length self.old.suspected.columns.items) }
        requires dead { IfSome row.now.about (λ j. j < length self.old.dead.columns.items) }
        requires suspects_nobody { is_up_in lives.now row.now.member ≡ false → (b : ℕ) → has self.old.suspected row.now.member b ≡ false }
        requires holds_nobody_dead { is_up_in lives.now row.now.member ≡ false → (b : ℕ) → has self.old.dead row.now.member b ≡ false }
        ensures suspected { OnOk result ((a b : ℕ) → has self.new.suspected a b
            ≡ doubt_with What.Suspect (is_up_in lives.now) row.now (has self.old.suspected) a b) }
        ensures dead { OnOk result ((a b : ℕ) → has self.new.dead a b
            ≡ doubt_with What.Confirm (is_up_in lives.now) row.now (has self.old.dead) a b) }
        ensures members { length self.new.suspected.columns.items ≡ length self.old.suspected.columns.items }
        ensures also { length self.new.dead.columns.items ≡ length self.old.dead.columns.items }
    {
        follow_kind(&mut self.suspected, What::Suspect, lives, row)?;
        follow_kind(&mut self.dead, What::Confirm, lives, row)
    }
}

/// Takes in what the next row tells of the doubts of one kind.
fn follow_kind(doubts: &mut Pairs, kind: What, lives: &Lives, row: &Row) -> Result<(), Memory>
    requires about { IfSome row.now.about (λ j. j < length doubts.old.columns.items) }
    requires silent { is_up_in lives.now row.now.member ≡ false → (b : ℕ) → has doubts.old row.now.member b ≡ false }
    ensures doubts { OnOk result ((a b : ℕ) → has doubts.new a b ≡ doubt_with kind (is_up_in lives.now) row.now (has doubts.old) a b) }
    ensures room { length doubts.new.columns.items ≡ length doubts.old.columns.items }
{
    if is_turn(row) {
        doubts.drop_first(row.member, lives.is_up(row.member));
        return Ok(());
    }
    if !is_heard(row, lives) {
        return Ok(());
    }
    match row.about {
        Some(subject) => doubts.put(row.member, subject, has_kind(row, kind)),
        None => Ok(()),
    }
}

/// Whether a row says something of others, and its member is up.
fn is_heard(row: &Row, lives: &Lives) -> bool
    ensures { result ≡ (is_one_of views row.now && is_up_in lives.now row.now.member) }
{
    is_view(row) && lives.is_up(row.member)
}
