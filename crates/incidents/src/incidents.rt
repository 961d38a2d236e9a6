//! The observer of a run's rows, which is asked at the end.
ghost use Rattle.std.specs.Prelude.{◌≡◌, ◌≢◌, ◌<◌, ◌≤◌, ◌^◌, ◌++◌, ◌∷◌, ◌&&◌, ℕ, true, not, List, [], length, IfOk, OnOk, IfErr, IfSome, IsErrOf};
ghost use Rattle.trace.specs.declared.row.Row.{Row as AnyRow};
ghost use Rattle.incidents.specs.Lives.{is_up};
ghost use Rattle.incidents.specs.Incidents.{is_alarm, is_death, is_held_dead, is_doubted, alarms, deaths, deaths_well, members_dead};
ghost use Rattle.incidents.specs.Whole.{whole_since};
ghost use Rattle.incidents.specs.Returns.{returns_of};
ghost use Rattle.incidents.specs.Kept.{count_of, placed, IsToldOf};
ghost use Rattle.incidents.specs.Cluster.{IsSameCluster};
ghost use Rattle.incidents.specs.Observed.{passed, AreIncidentsOf};

use crate::cluster::Cluster;
use crate::counts::{Counts, Told, dies_well};
use crate::doubts::Doubts;
use crate::lines::Lines;
use crate::lives::Lives;
use crate::returns::Return;
use crate::rows::{both, is_doubt, reports_nothing};
use crate::wholeness::Wholeness;
use base::limits::COUNTER_LIMIT;
use base::{Fault, MemberId, Memory, Moment};
use std::alloc::{AllocError, Global};
use trace::{Row, What};
use trace_rows::has_kind;

/// What an operator is told of a run: its false alarms and false deaths as incidents, since when its
/// cluster is whole, and its restarts. It takes the rows of a run in their order, and keeps what is
/// held then: who is up, who doubts whom, and who holds whom.
///
/// After a fault nothing is known of it.
#[derive(Drop)]
pub struct Incidents {
    pub(crate) cluster: Cluster,
    pub(crate) lives: Lives,
    pub(crate) doubts: Doubts,
    pub(crate) counts: Counts,
    pub(crate) whole: Wholeness,
    pub(crate) lines: Lines,
}

impl Incidents {
    /// The incidents of no rows, in a cluster.
    pub fn new(alloc: Global, cluster: Cluster) -> Result<Incidents, Memory>
        requires { count_of cluster ≤ 2 ^ 16 }
        ensures none { IfOk result (λ incidents. AreIncidentsOf incidents []) }
        ensures cluster { IfOk result (λ incidents. incidents.cluster ≡ cluster) }
    {
        let count = cluster.founders.len();
        let lives = Lives::new(alloc, count)?;
        let doubts = Doubts::new(alloc, count)?;
        let counts = Counts::new(alloc, &cluster)?;
        let whole = Wholeness::new(alloc, &cluster)?;
        let lines = Lines::new(alloc, count)?;
        Ok(Incidents {
            cluster,
            lives,
            doubts,
            counts,
            whole,
            lines,
        })
    }

    /// Takes in the next row, which names members of the cluster alone.
    ///
    /// Faults: `Memory`; `CounterOverflow` where there are 2^63 rows already.
    #[inline(always)]
    pub fn add(&mut self, row: &Row) -> Result<(), Fault>
        requires kept { (rows : List AnyRow) × AreIncidentsOf self.old rows }
        requires member { row.now.member < count_of self.old.cluster }
        requires about { IfSome row.now.about (λ j. j < count_of self.old.cluster) }
        ensures ok { OnOk result ((rows : List AnyRow) → AreIncidentsOf self.old rows → AreIncidentsOf self.new (rows ++ row.now ∷ [])) }
        ensures cluster { self.new.cluster ≡ self.old.cluster }
        ensures overflow { IsErrOf result Fault.CounterOverflow → (rows : List AnyRow) → AreIncidentsOf self.old rows → 2 ^ 63 ≤ length rows }
        ensures full { (rows : List AnyRow) → AreIncidentsOf self.old rows → 2 ^ 63 ≤ length rows → IsErrOf result Fault.CounterOverflow }
        ensures causes { IfErr result (λ fault. (fault ≢ Fault.Write) × (fault ≢ Fault.ThreadLost)) }
    {
        if self.counts.rows >= COUNTER_LIMIT {
            return Err(Fault::CounterOverflow);
        }
        if reports_nothing(row) {
            self.pass();
            return Ok(());
        }
        self.take_in(row)?;
        Ok(())
    }

    /// Counts a row that tells nothing.
    #[inline(always)]
    fn pass(&mut self)
        requires { self.old.counts.rows < 2 ^ 63 }
        ensures { self.new ≡ passed self.old }
    {
        self.counts.rows += 1;
        self.whole.is_beginning = false;
    }

    /// Takes in what the next row tells.
    fn take_in(&mut self, row: &Row) -> Result<(), Memory>
        requires kept { (rows : List AnyRow) × AreIncidentsOf self.old rows }
        requires member { row.now.member < count_of self.old.cluster }
        requires about { IfSome row.now.about (λ j. j < count_of self.old.cluster) }
        requires rows { self.old.counts.rows < 2 ^ 63 }
        ensures ok { OnOk result ((rows : List AnyRow) → AreIncidentsOf self.old rows → AreIncidentsOf self.new (rows ++ row.now ∷ [])) }
        ensures cluster { self.new.cluster ≡ self.old.cluster }
    {
        let told = self.told(row);
        self.doubts.follow(&self.lives, row)?;
        self.whole.follow(&self.cluster, &mut self.lives, row)?;
        self.lines.follow(row)?;
        self.counts.count(told, row);
        Ok(())
    }

    /// Whether a row names members of the cluster alone, so that it may be added.
    #[inline(always)]
    pub fn has_members_of(&self, row: &Row) -> bool
        ensures member { result ≡ true → row.now.member < count_of self.now.cluster }
        ensures about { result ≡ true → IfSome row.now.about (λ j. j < count_of self.now.cluster) }
        ensures all { row.now.member < count_of self.now.cluster → IfSome row.now.about (λ j. j < count_of self.now.cluster) → result ≡ true }
    {
        let count = self.cluster.founders.len();
        match row.about {
            Some(subject) => row.member.index() < count && subject.index() < count,
            None => row.member.index() < count,
        }
    }

    /// Whether its cluster is this one.
    pub fn is_of(&self, cluster: &Cluster) -> bool
        ensures { result ≡ true → IsSameCluster self.now.cluster cluster.now }
    {
        self.cluster.is_same(cluster)
    }

    /// What the next row is.
    fn told(&self, row: &Row) -> Told
        ensures { (rows : List AnyRow) → AreIncidentsOf self.now rows → IsToldOf self.now.cluster rows row.now result }
    {
        let is_death = self.is_death(row);
        Told {
            is_alarm: self.is_alarm(row),
            is_death,
            is_well: dies_well(is_death, &self.cluster, row),
        }
    }

    /// Whether a row doubts a member that is up, and nobody that is up did so before.
    fn is_alarm(&self, row: &Row) -> bool
        ensures { (rows : List AnyRow) → AreIncidentsOf self.now rows → result ≡ is_alarm (count_of self.now.cluster) (placed rows row.now) }
    {
        if !is_doubt(row) {
            return false;
        }
        match row.about {
            Some(subject) => self.is_trusted(subject),
            None => false,
        }
    }

    /// Whether a row holds a member dead that is up, and nobody that is up did so before.
    fn is_death(&self, row: &Row) -> bool
        ensures { (rows : List AnyRow) → AreIncidentsOf self.now rows → result ≡ is_death (count_of self.now.cluster) (placed rows row.now) }
    {
        if !has_kind(row, What::Confirm) {
            return false;
        }
        match row.about {
            Some(subject) => self.is_alive(subject),
            None => false,
        }
    }

    /// Whether a member is up, and nobody that is up doubts it.
    fn is_trusted(&self, member: MemberId) -> bool
        ensures { (rows : List AnyRow) → AreIncidentsOf self.now rows
            → result ≡ (is_up rows member && not (is_doubted (count_of self.now.cluster) rows member)) }
    {
        both(self.lives.is_up(member), self.doubts.is_trusted(member))
    }

    /// Whether a member is up, and nobody that is up holds it dead.
    fn is_alive(&self, member: MemberId) -> bool
        ensures { (rows : List AnyRow) → AreIncidentsOf self.now rows
            → result ≡ (is_up rows member && not (is_held_dead (count_of self.now.cluster) rows member)) }
    {
        both(self.lives.is_up(member), self.doubts.has_no_death(member))
    }

    /// How many false alarms there are.
    pub fn alarms(&self) -> u64
        ensures { (rows : List AnyRow) → AreIncidentsOf self.now rows → result ≡ alarms (count_of self.now.cluster) rows }
    {
        self.counts.alarms
    }

    /// How many false deaths there are.
    pub fn deaths(&self) -> u64
        ensures { (rows : List AnyRow) → AreIncidentsOf self.now rows → result ≡ deaths (count_of self.now.cluster) rows }
    {
        self.counts.deaths
    }

    /// How many members had a false death.
    pub fn members(&self) -> usize
        ensures { (rows : List AnyRow) → AreIncidentsOf self.now rows → result ≡ members_dead (count_of self.now.cluster) rows }
    {
        self.counts.members()
    }

    /// How many false deaths are of members that were well: they weren't slow, paused or blocked at
    /// that moment, nor for the longest suspicion and a period before.
    pub fn deaths_well(&self) -> u64
        ensures { (rows : List AnyRow) → AreIncidentsOf self.now rows
            → result ≡ deaths_well (count_of self.now.cluster) self.now.cluster.troubles.items self.now.cluster.reach rows }
    {
        self.counts.well
    }

    /// Since when the cluster is whole, where it is: the moment of the last row that made it so, or 0.
    pub fn whole_since(&self) -> Option<Moment>
        ensures { (rows : List AnyRow) → AreIncidentsOf self.now rows → result ≡ whole_since self.now.cluster.founders.items rows }
    {
        self.whole.since()
    }

    /// The restarts, in the order of the rows, and what the lives behind them tell.
    pub fn returns(&self, alloc: Global) -> Result<Vec<Return>, AllocError>
        ensures { IfOk result (λ returns. (rows : List AnyRow) → AreIncidentsOf self.now rows → returns.items ≡ returns_of (count_of self.now.cluster) rows) }
    {
        self.lines.returns(alloc)
    }
}
