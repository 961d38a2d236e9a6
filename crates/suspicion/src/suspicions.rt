//! The suspicions that one member holds: each starts with one accuser, each confirmation that counts shortens it, and
//! one timer of it is the present one (SWIM, section 4.2; Lifeguard's LHA-Suspicion).
ghost use Rattle.std.specs.Prelude.{◌≡◌, ◌+◌, ◌^◌, ◌<◌, ◌≤◌, max, false, IfOk, IfSome, OnOk, OnErr, Ok, unwrap_or};
ghost use Rattle.std.specs.Option.{option_map};
ghost use Rattle.std.specs.FinMap.{empty, contains_key, insert, remove};
ghost use Rattle.suspicion.specs.Ranges.{AreSound};
ghost use Rattle.suspicion.specs.Settings.{terms_of};
ghost use Rattle.suspicion.specs.Times.{timeout};
ghost use Rattle.suspicion.specs.Suspicions.{started_of, accused, accused_of, after_accusation, answer_of, is_due, is_over, is_over_of, first_accuser_of, counts};
ghost use Rattle.suspicion.specs.SuspicionOf.{suspicion_of, held_of};

use crate::accusers::Accusers;
use crate::standing::Standing;
use crate::terms::{Terms, most_counted};
use base::{MemberId, Memory, Moment};
use scenario::Scenario;
use std::alloc::Global;
use std::collections::BTreeMap;
use std::marker::Model;

/// What an accusation made of a suspicion.
#[derive(Clone, Copy, Debug, PartialEq, Eq)]
pub struct Accused {
    /// How many members accuse the suspect beside the first.
    pub count: u64,
    /// When the suspicion's time is now over.
    pub due: Moment,
}

/// The suspicions that stand at a member, at most one of each subject.
#[derive(Drop)]
pub struct Suspicions {
    standing: BTreeMap<MemberId, Standing>,
}

impl Model for Suspicions {
    ghost use Rattle.std.specs.Coded.{coded_ℕ};
    ghost use Rattle.std.specs.FinMap.{code};
    ghost use Rattle.suspicion.specs.contracts.terms.Terms as terms;
    ghost use Rattle.suspicion.specs.Coding.{suspicion_code};
    ghost use Rattle.suspicion.specs.Suspicions.{HeldSuspicions};

    ghost Value = { HeldSuspicions };

    ghost coded = { code coded_ℕ (suspicion_code terms.the_row.coded) };

    ghost use Rattle.suspicion.specs.SuspicionOf.{held_of};

    ghost view = { λ suspicions. held_of suspicions.standing.entries };
}

impl Suspicions {
    /// No suspicions. It takes no memory.
    pub fn new(alloc: Global) -> Result<Self, Memory>
        ensures { result ≡ Ok empty }
    {
        Ok(Suspicions {
            standing: BTreeMap::new(alloc),
        })
    }

    /// Starts a suspicion of a subject, anew where one stands, with this accuser alone: `members` are
    /// not confirmed, oneself included. The answer is when its time is over. Which
    /// incarnation is suspected decides nothing here: the member's table keeps it.
    ///
    /// A refusal leaves the suspicions as they were, and comes only where none of the subject stands.
    pub fn start(
        &mut self,
        subject: MemberId,
        _incarnation: u64,
        accuser: MemberId,
        members: u32,
        now: Moment,
        generation: u64,
        scenario: &Scenario,
    ) -> Result<Moment, Memory>
        requires some { 1 ≤ members }
        requires at_most_16384 { members ≤ 16384 }
        requires early { now ≤ 2 ^ 40 }
        ensures started { let started = started_of (terms_of scenario.now) accuser members now generation in
            OnOk result (self.new ≡ insert self.old subject started) }
        ensures due { IfOk result (λ due. due ≡ now + timeout (terms_of scenario.now) members 0) }
        ensures later { IfOk result (λ due. now + 1 ≤ due) }
        ensures soon { IfOk result (λ due. due < 2 ^ 42) }
        ensures err { OnErr result (self.new ≡ self.old) }
        ensures err_only_if_new { OnErr result (contains_key self.old subject ≡ false) }
    {
        self.start_under(
            subject,
            accuser,
            members,
            now,
            generation,
            Terms::of(scenario),
        )
    }

    // The same under given terms.
    pub(crate) fn start_under(
        &mut self,
        subject: MemberId,
        accuser: MemberId,
        members: u32,
        now: Moment,
        generation: u64,
        terms: Terms,
    ) -> Result<Moment, Memory>
        requires sound { AreSound terms }
        requires some { 1 ≤ members }
        requires at_most_16384 { members ≤ 16384 }
        requires early { now ≤ 2 ^ 40 }
        ensures started { let started = started_of terms accuser members now generation in
            OnOk result (self.new ≡ insert self.old subject started) }
        ensures due { IfOk result (λ due. due ≡ now + timeout terms members 0) }
        ensures later { IfOk result (λ due. now + 1 ≤ due) }
        ensures soon { IfOk result (λ due. due < 2 ^ 42) }
        ensures err { OnErr result (self.new ≡ self.old) }
        ensures err_only_if_new { OnErr result (contains_key self.old subject ≡ false) }
    {
        let due = Moment(now.ticks() + terms.timeout(members, 0));
        let standing = Standing {
            terms,
            members,
            since: now,
            first: accuser,
            further: Accusers::new(),
            timer: generation,
        };
        put(&mut self.standing, subject, standing)?;
        Ok(due)
    }

    /// A further member accuses a suspect. Where that counts, it is added to the accusers, the timer
    /// is now the one of number `generation`, and the answer is how many further accusers there are and
    /// when its time is over. Where it does not, nothing changes. It takes no memory.
    pub fn accuse(
        &mut self,
        subject: MemberId,
        accuser: MemberId,
        now: Moment,
        generation: u64,
    ) -> Result<Option<Accused>, Memory>
        requires { now ≤ 2 ^ 40 }
        ensures answer { let accused = accused_of self.old subject accuser generation in
            result ≡ Ok (option_map (answer_of now) accused) }
        ensures after { self.new ≡ after_accusation self.old subject accuser generation }
        ensures later { IfOk result (λ accused. IfSome accused (λ a. now + 1 ≤ a.due)) }
        ensures soon { IfOk result (λ accused. IfSome accused (λ a. a.due < 2 ^ 42)) }
    {
        Ok(accuse_in(&mut self.standing, subject, accuser, now, generation))
    }

    /// Ends the suspicion of a subject, if one stands.
    pub fn clear(&mut self, subject: MemberId)
        ensures { self.new ≡ remove self.old subject }
    {
        let _ended = self.standing.remove(&subject);
    }

    /// Whether the timer of this number is the present one of a suspicion of the subject.
    pub fn due(&self, subject: MemberId, generation: u64) -> bool
        ensures { result ≡ is_due self.now subject generation }
    {
        let Some(standing) = self.standing.get(&subject) else {
            return false;
        };
        standing.timer == generation
    }

    /// Whether a suspicion of the subject stands whose time is over by now, by its accusers so far.
    pub fn is_over(&self, subject: MemberId, now: Moment) -> bool
        ensures { result ≡ is_over_of self.now subject now }
    {
        let Some(standing) = self.standing.get(&subject) else {
            return false;
        };
        has_passed(standing, now)
    }

    /// Who accused a suspect first; by Lifeguard's Buddy System a ping reports this to the suspect.
    pub fn first_accuser(&self, subject: MemberId) -> Option<MemberId>
        ensures { result ≡ first_accuser_of self.now subject }
    {
        // Mostly there is none, and then none of the tree's nodes is looked at.
        if self.standing.is_empty() {
            return None;
        }
        let standing = self.standing.get(&subject)?;
        Some(standing.first)
    }
}

fn put(
    standing: &mut BTreeMap<MemberId, Standing>,
    subject: MemberId,
    started: Standing,
) -> Result<(), Memory>
    ensures ok { let held = held_of standing.old.entries in
        OnOk result (held_of standing.new.entries ≡ insert held subject (suspicion_of started)) }
    ensures err { OnErr result (held_of standing.new.entries ≡ held_of standing.old.entries) }
    ensures err_only_if_new { OnErr result (contains_key (held_of standing.old.entries) subject ≡ false) }
{
    match standing.insert(subject, started) {
        Ok(_) => Ok(()),
        Err(_) => Err(Memory),
    }
}

fn accuse_in(
    standing: &mut BTreeMap<MemberId, Standing>,
    subject: MemberId,
    accuser: MemberId,
    now: Moment,
    generation: u64,
) -> Option<Accused>
    requires { now ≤ 2 ^ 40 }
    ensures answer { let held = held_of standing.old.entries in
        result ≡ option_map (answer_of now) (accused_of held subject accuser generation) }
    ensures after { let held = held_of standing.old.entries in
        held_of standing.new.entries ≡ after_accusation held subject accuser generation }
    ensures later { IfSome result (λ accused. now + 1 ≤ accused.due) }
    ensures soon { IfSome result (λ accused. accused.due < 2 ^ 42) }
{
    let suspicion = standing.get_mut(&subject)?;
    add_accuser(suspicion, accuser, now, generation)
}

// Adds an accuser to a suspicion, where that counts.
fn add_accuser(
    suspicion: &mut Standing,
    accuser: MemberId,
    now: Moment,
    generation: u64,
) -> Option<Accused>
    requires { now ≤ 2 ^ 40 }
    ensures answer { let old = suspicion_of suspicion.old in
        result ≡ option_map (answer_of now) (accused old accuser generation) }
    ensures after { let old = suspicion_of suspicion.old in
        suspicion_of suspicion.new ≡ unwrap_or (accused old accuser generation) old }
    ensures later { IfSome result (λ accused. now + 1 ≤ accused.due) }
    ensures soon { IfSome result (λ accused. accused.due < 2 ^ 42) }
{
    if !does_count(suspicion, accuser) {
        return None;
    }
    suspicion.further.push(accuser);
    suspicion.timer = generation;
    let count = suspicion.further.len() as u64;
    Some(Accused {
        count,
        due: due_moment(suspicion, now, count),
    })
}

// Whether an accusation changes a suspicion.
fn does_count(suspicion: &Standing, accuser: MemberId) -> bool
    ensures counts { result ≡ counts (suspicion_of suspicion.now) accuser }
{
    let count = suspicion.further.len() as u64;
    suspicion.terms.shortens
        && count < most_counted(suspicion.terms, suspicion.members)
        && !(suspicion.first == accuser || suspicion.further.contains(accuser))
}

// Whether the time of a suspicion is over by now.
fn has_passed(suspicion: &Standing, now: Moment) -> bool
    ensures { result ≡ is_over (suspicion_of suspicion.now) now }
{
    let count = suspicion.further.len() as u64;
    let lasts = suspicion.terms.timeout(suspicion.members, count);
    suspicion.since.ticks() + lasts <= now.ticks()
}

// When a suspicion with so many further accusers is over.
fn due_moment(suspicion: &Standing, now: Moment, count: u64) -> Moment
    requires early { now ≤ 2 ^ 40 }
    ensures due { let lasts = timeout suspicion.now.terms suspicion.now.members count in
        result ≡ max (now + 1) (suspicion.now.since + lasts) }
    ensures soon { result < 2 ^ 42 }
{
    let over = suspicion.since.ticks() + suspicion.terms.timeout(suspicion.members, count);
    Moment(over.max(now.ticks() + 1))
}
