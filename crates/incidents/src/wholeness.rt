//! Whether each member that is up holds each other one that is up, and since when that is so.
ghost use Rattle.std.specs.Prelude.{◌≡◌, ◌<◌, ◌≤◌, ◌^◌, ◌+◌, ◌&&◌, ◌==◌, ◌++◌, ◌∷◌, ℕ, true, false, not, Some, None, List, [], IfOk, OnOk, IfSome, length, if◌then◌else◌};
ghost use Rattle.incidents.specs.declared.cluster.Cluster.{Cluster as ACluster};
ghost use Rattle.trace.specs.declared.row.Row.{Row as AnyRow};
ghost use Rattle.incidents.specs.Lives.{weight, is_turn};
ghost use Rattle.trace_rows.specs.Rows.{has_kind};
ghost use Rattle.incidents.specs.Views.{claims, is_one_of, is_founder};
ghost use Rattle.incidents.specs.Whole.{whole_since};
ghost use Rattle.incidents.specs.Flags.{is_up_in};
ghost use Rattle.incidents.specs.Pairs.{has, has_with};
ghost use Rattle.incidents.specs.Kept.{count_of, AreLivesOf};
ghost use Rattle.incidents.specs.Missed.{differs, first_in, misses_in, pairs_around, AreViewsOf, IsWholenessOf};

use crate::cluster::Cluster;
use crate::lives::Lives;
use crate::pairs::Pairs;
use crate::rows::{is_claim, is_turn, weight};
use base::{MemberId, Memory, Moment};
use std::alloc::Global;
use trace::{Row, What};
use trace_rows::has_kind;

/// How many pairs of members that are up miss each other: the first doesn't hold the second. Where
/// there are none, the cluster is whole.
#[derive(Drop)]
pub(crate) struct Wholeness {
    /// Of whom each that is up now holds another thing than at the beginning of its life.
    pub(crate) odd: Pairs,
    /// How many pairs miss each other.
    pub(crate) missed: u64,
    /// The moment of the last row that made the cluster whole, or 0.
    pub(crate) since: Moment,
    /// Whether founders started so far, and nothing else happened. Then the cluster is whole.
    pub(crate) is_beginning: bool,
}

impl Wholeness {
    /// Nobody is up yet, so the cluster is whole.
    pub(crate) fn new(alloc: Global, cluster: &Cluster) -> Result<Wholeness, Memory>
        ensures { IfOk result (λ whole. IsWholenessOf whole cluster.now []) }
    {
        let odd = Pairs::new(alloc, cluster.founders.len())?;
        Ok(Wholeness {
            odd,
            missed: 0,
            since: Moment(0),
            is_beginning: true,
        })
    }

    /// Since when the cluster is whole, where it is.
    pub(crate) fn since(&self) -> Option<Moment>
        ensures { (cluster : ACluster) (rows : List AnyRow) → IsWholenessOf self.now cluster rows → result ≡ whole_since cluster.founders.items rows }
    {
        since_if(self.missed == 0, self.since)
    }

    /// Takes in the next row, also in who is up. The row names members of the cluster alone.
    pub(crate) fn follow(
        &mut self,
        cluster: &Cluster,
        lives: &mut Lives,
        row: &Row,
    ) -> Result<(), Memory>
        requires kept { (rows : List AnyRow) × IsWholenessOf self.old cluster.now rows × AreLivesOf lives.old (count_of cluster.now) rows }
        requires few { count_of cluster.now ≤ 2 ^ 16 }
        requires member { row.now.member < count_of cluster.now }
        requires about { IfSome row.now.about (λ j. j < count_of cluster.now) }
        ensures whole { OnOk result ((rows : List AnyRow) → IsWholenessOf self.old cluster.now rows → AreLivesOf lives.old (count_of cluster.now) rows
            → IsWholenessOf self.new cluster.now (rows ++ row.now ∷ [])) }
        ensures lives { OnOk result ((rows : List AnyRow) → AreLivesOf lives.old (count_of cluster.now) rows
            → AreLivesOf lives.new (count_of cluster.now) (rows ++ row.now ∷ [])) }
    {
        if self.is_first_start(cluster, row) {
            lives.follow(row);
            return Ok(());
        }
        let missed = self.missed;
        self.see(cluster, lives, row)?;
        self.since = since_after(self.since, missed, self.missed, row.at);
        self.is_beginning = false;
        Ok(())
    }

    /// Whether a row starts a founder, and only such rows were before it.
    fn is_first_start(&self, cluster: &Cluster, row: &Row) -> bool
        ensures { result ≡ (self.now.is_beginning && (has_kind What.Start row.now && is_founder cluster.now.founders.items row.now.member)) }
    {
        self.is_beginning && (has_kind(row, What::Start) && cluster.is_founder(row.member))
    }

    /// Takes in who is up after the next row, and who holds whom.
    fn see(&mut self, cluster: &Cluster, lives: &mut Lives, row: &Row) -> Result<(), Memory>
        requires kept { (rows : List AnyRow) × AreViewsOf self.old cluster.now rows × AreLivesOf lives.old (count_of cluster.now) rows }
        requires few { count_of cluster.now ≤ 2 ^ 16 }
        requires member { row.now.member < count_of cluster.now }
        requires about { IfSome row.now.about (λ j. j < count_of cluster.now) }
        ensures whole { OnOk result ((rows : List AnyRow) → AreViewsOf self.old cluster.now rows → AreLivesOf lives.old (count_of cluster.now) rows
            → AreViewsOf self.new cluster.now (rows ++ row.now ∷ [])) }
        ensures lives { OnOk result ((rows : List AnyRow) → AreLivesOf lives.old (count_of cluster.now) rows
            → AreLivesOf lives.new (count_of cluster.now) (rows ++ row.now ∷ [])) }
        ensures since { self.new.since ≡ self.old.since }
    {
        if is_turn(row) {
            self.turn(cluster, lives, row);
            return Ok(());
        }
        self.hear(cluster, lives, row)?;
        lives.follow(row);
        Ok(())
    }

    /// Takes in a row that begins or ends a life: it forgets what its member held of others.
    fn turn(&mut self, cluster: &Cluster, lives: &mut Lives, row: &Row)
        requires kept { (rows : List AnyRow) × AreViewsOf self.old cluster.now rows × AreLivesOf lives.old (count_of cluster.now) rows }
        requires few { count_of cluster.now ≤ 2 ^ 16 }
        requires member { row.now.member < count_of cluster.now }
        requires turn { is_turn row.now ≡ true }
        ensures whole { (rows : List AnyRow) → AreViewsOf self.old cluster.now rows → AreLivesOf lives.old (count_of cluster.now) rows
            → AreViewsOf self.new cluster.now (rows ++ row.now ∷ []) }
        ensures lives { (rows : List AnyRow) → AreLivesOf lives.old (count_of cluster.now) rows
            → AreLivesOf lives.new (count_of cluster.now) (rows ++ row.now ∷ []) }
        ensures since { self.new.since ≡ self.old.since }
    {
        let before = missed_around(&self.odd, cluster, lives, row.member);
        self.odd.drop_first(row.member, lives.is_up(row.member));
        lives.follow(row);
        let after = missed_around(&self.odd, cluster, lives, row.member);
        self.missed = self.missed - before + after;
    }

    /// Takes in what a row that begins or ends no life says of another member, where its own is up.
    fn hear(&mut self, cluster: &Cluster, lives: &Lives, row: &Row) -> Result<(), Memory>
        requires kept { (rows : List AnyRow) × AreViewsOf self.old cluster.now rows × AreLivesOf lives.now (count_of cluster.now) rows }
        requires few { count_of cluster.now ≤ 2 ^ 16 }
        requires member { row.now.member < count_of cluster.now }
        requires about { IfSome row.now.about (λ j. j < count_of cluster.now) }
        requires no_turn { is_turn row.now ≡ false }
        ensures whole { OnOk result ((rows : List AnyRow) → AreViewsOf self.old cluster.now rows → AreLivesOf lives.now (count_of cluster.now) rows
            → AreViewsOf self.new cluster.now (rows ++ row.now ∷ [])) }
        ensures since { self.new.since ≡ self.old.since }
    {
        if !is_heard(row, lives) {
            return Ok(());
        }
        match row.about {
            Some(subject) => self.hold(
                cluster,
                lives,
                row.member,
                subject,
                has_kind(row, What::Alive),
            ),
            None => Ok(()),
        }
    }

    /// A member holds another from now on, or doesn't.
    fn hold(
        &mut self,
        cluster: &Cluster,
        lives: &Lives,
        member: MemberId,
        subject: MemberId,
        is_held: bool,
    ) -> Result<(), Memory>
        requires subject { subject < length self.old.odd.columns.items }
        requires counted { misses_in self.old.odd cluster.now lives.now member subject ≡ true → 1 ≤ self.old.missed }
        requires few { self.old.missed ≤ 2 ^ 32 }
        ensures odd { OnOk result ((a b : ℕ) → has self.new.odd a b
            ≡ has_with member subject (differs (first_in cluster.now lives.now member subject) is_held) (has self.old.odd) a b) }
        ensures missed { OnOk result (self.new.missed + weight (misses_in self.old.odd cluster.now lives.now member subject)
            ≡ self.old.missed + weight (misses_in self.new.odd cluster.now lives.now member subject)) }
        ensures members { length self.new.odd.columns.items ≡ length self.old.odd.columns.items }
        ensures since { self.new.since ≡ self.old.since }
    {
        let was_missed = misses(&self.odd, cluster, lives, member, subject);
        let first = holds_first(cluster, lives, member, subject);
        self.odd.put(member, subject, differs(first, is_held))?;
        let is_missed = misses(&self.odd, cluster, lives, member, subject);
        self.missed = recounted(self.missed, was_missed, is_missed);
        Ok(())
    }
}

/// Since when a cluster is whole after a row, where so many pairs miss each other before and after it.
fn since_after(since: Moment, before: u64, after: u64, at: Moment) -> Moment
    ensures { result ≡ (if not (before == 0) && (after == 0) then at else since) }
{
    if before != 0 && after == 0 { at } else { since }
}

/// Since when a cluster is whole, if it is.
fn since_if(is_whole: bool, since: Moment) -> Option<Moment>
    ensures { result ≡ (if is_whole then Some since else None) }
{
    if is_whole { Some(since) } else { None }
}

/// How many pairs miss each other, with one pair more that did or didn't, and does or doesn't now.
fn recounted(missed: u64, was_missed: bool, is_missed: bool) -> u64
    requires counted { was_missed ≡ true → 1 ≤ missed }
    requires few { missed ≤ 2 ^ 32 }
    ensures { result + weight was_missed ≡ missed + weight is_missed }
{
    if was_missed {
        return missed - 1 + weight(is_missed);
    }
    missed + weight(is_missed)
}

/// Whether a row claims something of others, and its member is up.
fn is_heard(row: &Row, lives: &Lives) -> bool
    ensures { result ≡ (is_one_of claims row.now && is_up_in lives.now row.now.member) }
{
    is_claim(row) && lives.is_up(row.member)
}

/// How many pairs miss each other of which a member is one.
fn missed_around(odd: &Pairs, cluster: &Cluster, lives: &Lives, member: MemberId) -> u64
    requires { count_of cluster.now ≤ 2 ^ 16 }
    ensures { result ≡ pairs_around (count_of cluster.now) (misses_in odd.now cluster.now lives.now) member }
{
    if !lives.is_up(member) {
        return 0;
    }
    let mut missed = 0;
    for place in 0..cluster.founders.len() {
        let other = MemberId(place as u16);
        missed += weight(misses(odd, cluster, lives, member, other));
        missed += weight(misses(odd, cluster, lives, other, member));
    }
    missed
}

/// Whether both members are up, and the first doesn't hold the second.
fn misses(odd: &Pairs, cluster: &Cluster, lives: &Lives, first: MemberId, second: MemberId) -> bool
    ensures { result ≡ misses_in odd.now cluster.now lives.now first second }
{
    first != second
        && (lives.is_up(first)
            && (lives.is_up(second) && !holds(odd, cluster, lives, first, second)))
}

/// Whether the first member holds the second, where both are up.
fn holds(odd: &Pairs, cluster: &Cluster, lives: &Lives, first: MemberId, second: MemberId) -> bool
    ensures { result ≡ differs (first_in cluster.now lives.now first second) (has odd.now first second) }
{
    differs(
        holds_first(cluster, lives, first, second),
        odd.has(first, second),
    )
}

/// Whether the first member holds the second at the beginning of its life.
fn holds_first(cluster: &Cluster, lives: &Lives, first: MemberId, second: MemberId) -> bool
    ensures { result ≡ first_in cluster.now lives.now first second }
{
    (cluster.is_founder(first) && cluster.is_founder(second)) && !lives.has_restarted(first)
}

/// Whether one of the two is so, and not the other.
fn differs(first: bool, second: bool) -> bool
    ensures { result ≡ differs first second }
{
    if first { !second } else { second }
}
