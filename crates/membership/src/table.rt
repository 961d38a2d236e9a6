//! A member's table: the claim that it holds of each other member, with its incarnation number, in dense columns.
ghost use Rattle.std.specs.Prelude.{List, [], EachIndex, None, Some, set, max, ◌≡◌, ◌≢◌, ◌+◌, ◌^◌, ◌<◌, ◌≤◌, ◌&&◌, ℕ, true, not, nat_eq, map, filter, length, vec_len, sum_by, slice_index, OnOk, OnErr, IfOk};
ghost use Rattle.std.specs.Option.{option_map_or};
ghost use Rattle.std.specs.FinMap.{empty, get, insert, remove};
ghost use Rattle.membership.specs.Table.{all_alive, is_alive, known_of, live_count, known_count, alive_but, update_by, updates_by};
ghost use Rattle.membership.specs.Columns.{entries_from, claim_at, claim_weight, known_weight};
ghost use Rattle.membership.specs.Held.{claims_in};
ghost use Rattle.membership.specs.Numbers.{numbers_of};
ghost use Rattle.incarnation.specs.declared.Claim.TheVariants.{Alive};
ghost use Rattle.membership.specs.Deaths.{since_of};
ghost use Rattle.membership.specs.Candidates.{candidates_of, does_fit};

use crate::candidates::{Candidate, Fitting, append_known};
use crate::claims::{is_alive, is_confirm};
use crate::deaths::Deaths;
use crate::held::{Held, claim_of, held_of};
use crate::numbers::Numbers;
use base::{MemberId, Memory};
use incarnation::{Claim, Update};
use std::alloc::Global;
use std::marker::Model;

/// What a member holds of others: for each that it knows, the claim that it believes, with the
/// incarnation number that the claim speaks of.
#[derive(Drop)]
pub struct Table {
    /// The claims, by the numbers of the members they are about: every member of a cluster has a table of
    /// nearly all others, so the column is dense. Each takes one byte.
    claims: Vec<Held>,
    /// The incarnation numbers in the same places, and 0 past the end: so as long as nobody has refuted
    /// anything, there are none.
    incs: Numbers,
    /// How many members there are, oneself included. Each message asks for it.
    counts: Counts,
}

/// How many members there are as far as one knows, oneself included.
#[derive(Clone, Copy, Debug, PartialEq, Eq)]
struct Counts {
    /// Those that are not confirmed.
    live: usize,
    /// All that are known.
    known: usize,
}

/// Oneself alone.
const ALONE: Counts = Counts { live: 1, known: 1 };

impl Model for Table {
    ghost use Rattle.std.specs.Coded.{coded_ℕ, coded×};
    ghost use Rattle.std.specs.FinMap.{code};
    ghost use Rattle.incarnation.specs.contracts.Claim as claim;
    ghost use Rattle.membership.specs.Table.{Known, known_of};
    ghost use Rattle.membership.specs.Columns.{entries_from, IsCounted};
    ghost use Rattle.membership.specs.Held.{claims_in};
    ghost use Rattle.membership.specs.Numbers.{numbers_of};

    ghost Value = { Known };

    ghost coded = { code coded_ℕ (coded× claim.the_row.coded coded_ℕ) };

    ghost view = { λ table. known_of (entries_from 0 (claims_in table.claims.items) (numbers_of table.incs)) };

    ghost invariant = { λ table. IsCounted (claims_in table.claims.items) table.counts.live table.counts.known };
}

impl Table {
    /// A table of nobody. It takes no memory.
    pub fn new(alloc: Global) -> Self
        ensures { result ≡ empty }
    {
        Table {
            claims: Vec::new(alloc),
            incs: Numbers::new(alloc),
            counts: ALONE,
        }
    }

    /// A table in which each of these members is held to be up, at incarnation number 0, or `Memory`
    /// where it was refused.
    #[tactic(auto, unfolding(crate::specs::Table::all_alive))]
    pub fn of_alive(alloc: Global, members: &[MemberId]) -> Result<Self, Memory>
        ensures { IfOk result (λ table. table ≡ all_alive members.now) }
    {
        let mut claims = nobody(alloc, past_all(members))?;
        let count = hold_alive(&mut claims, members);
        Ok(Table {
            claims,
            incs: Numbers::new(alloc),
            counts: Counts {
                live: count,
                known: count,
            },
        })
    }

    /// What is held of a member.
    pub fn get(&self, member: MemberId) -> Option<(Claim, u64)>
        ensures { result ≡ get self.now member }
    {
        let place = member.index();
        if self.claims.len() <= place {
            return None;
        }
        let claim = claim_of(self.claims[place])?;
        Some((claim, self.incs.at(place)))
    }

    /// The incarnation number at which a member is held, 0 where nothing is held of it. The numbers are
    /// looked at first: as long as nobody has refuted anything there are none, and no claim is read.
    pub fn number_of(&self, member: MemberId) -> u64
        ensures { result ≡ option_map_or (λ held. held.1) (get self.now member) 0 }
    {
        if self.incs.at(member.index()) == 0 {
            return 0;
        }
        match self.get(member) {
            Some(held) => held.1,
            None => 0,
        }
    }

    /// Holds this of a member from now on. A refusal leaves the table as it was.
    pub fn set(&mut self, member: MemberId, held: (Claim, u64)) -> Result<(), Memory>
        ensures ok { OnOk result (self.new ≡ insert self.old member held) }
        ensures err { OnErr result (self.new ≡ self.old) }
    {
        let place = usize::from(member.0);
        self.incs.reach(place, held.1)?;
        reach_claim(&mut self.claims, place)?;
        self.counts = put_claim(&mut self.claims, place, held.0, self.counts);
        self.incs.write(place, held.1);
        Ok(())
    }

    /// Holds nothing of a member from now on.
    pub fn remove(&mut self, member: MemberId)
        ensures { self.new ≡ remove self.old member }
    {
        let place = member.index();
        if place < self.claims.len() {
            self.counts.live -= weight(claim_of(self.claims[place]));
            self.counts.known -= known_weight(claim_of(self.claims[place]));
            self.claims[place] = Held::Nothing;
        }
    }

    /// How many members are not confirmed, oneself included: the members of the cluster as far as this one
    /// knows.
    pub fn live_count(&self) -> usize
        ensures { result ≡ live_count self.now }
    {
        self.counts.live
    }

    /// How many members are known, whatever is held of them, oneself included.
    pub fn known_count(&self) -> usize
        ensures { result ≡ known_count self.now }
    {
        self.counts.known
    }

    /// The members that are held to be up, but one, in the order of their numbers: those who may help
    /// to probe that one (SWIM, section 3.1). `Memory` where it was refused.
    pub fn alive_but(&self, alloc: Global, member: MemberId) -> Result<Vec<MemberId>, Memory>
        ensures { IfOk result (λ members. members.items ≡ alive_but member self.now) }
    {
        list_alive_but(alloc, &self.claims, member)
    }

    /// All that are known and oneself, who isn't in the table, in the order of their numbers, and whether
    /// each may be taken, by `deaths` where it is held to be down. `Memory` where it was refused.
    pub fn candidates(
        &self,
        alloc: Global,
        own: MemberId,
        fitting: &Fitting,
        deaths: &Deaths,
    ) -> Result<Vec<Candidate>, Memory>
        ensures { IfOk result (λ them. them.items ≡ candidates_of own (does_fit fitting.now (since_of deaths.now)) self.now) }
    {
        let end = self.claims.len();
        let place = usize::from(own.0);
        let mut them = Vec::with_capacity(alloc, end + 1)?;
        append_known(
            &mut them,
            &self.claims[..place.min(end)],
            0,
            fitting,
            deaths,
        )?;
        them.push(Candidate {
            member: own,
            fits: false,
        })?;
        let next = place + 1;
        append_known(
            &mut them,
            &self.claims[next.min(end)..],
            next,
            fitting,
            deaths,
        )?;
        Ok(them)
    }

    /// All that is held, in the order of the members' numbers, as updates of one accuser. `Memory` where
    /// it was refused.
    pub fn updates_by(&self, alloc: Global, accuser: MemberId) -> Result<Vec<Update>, Memory>
        ensures { IfOk result (λ updates. updates.items ≡ updates_by accuser self.now) }
    {
        list_updates(alloc, &self.claims, &self.incs, accuser)
    }
}

// Has a place for a claim, with nothing held where there was none.
fn reach_claim(claims: &mut Vec<Held>, place: usize) -> Result<(), Memory>
    requires { place < 2 ^ 16 }
    ensures place { OnOk result (place < vec_len claims.new) }
    ensures same { (k : ℕ) → claim_at (claims_in claims.new.items) k ≡ claim_at (claims_in claims.old.items) k }
    ensures weight { sum_by claim_weight (claims_in claims.new.items) ≡ sum_by claim_weight (claims_in claims.old.items) }
    ensures known { sum_by known_weight (claims_in claims.new.items) ≡ sum_by known_weight (claims_in claims.old.items) }
    ensures bound { length claims.new.items ≤ max (length claims.old.items) (place + 1) }
{
    while claims.len() <= place {
        claims.push(Held::Nothing)?;
    }
    Ok(())
}

// A member's number.
fn number(member: MemberId) -> u16
    ensures value { result ≡ member }
    ensures small { result < 2 ^ 16 }
{
    member.0
}

// A number past those of all these members.
fn past_all(members: &[MemberId]) -> usize
    ensures above { EachIndex members.now (λ k. slice_index members.now k < result) }
    ensures few { result ≤ 2 ^ 16 }
{
    let mut greatest = 0;
    for member in members {
        greatest = greatest.max(number(*member));
    }
    usize::from(greatest) + 1
}

// So many places, with nothing held of anybody.
fn nobody(alloc: Global, places: usize) -> Result<Vec<Held>, Memory>
    ensures none { IfOk result (λ claims. (k : ℕ) → claim_at (claims_in claims.items) k ≡ None) }
    ensures len { IfOk result (λ claims. length claims.items ≡ places) }
{
    let mut claims = Vec::new(alloc);
    claims.resize(places, Held::Nothing)?;
    Ok(claims)
}

// Holds a claim at a place from now on. Given how many members there are, oneself included, it returns how many
// there are then.
fn put_claim(claims: &mut Vec<Held>, place: usize, claim: Claim, counts: Counts) -> Counts
    requires place { place < length claims.old.items }
    requires few { length claims.old.items ≤ 2 ^ 16 }
    requires counted { counts.live ≡ sum_by claim_weight (claims_in claims.old.items) + 1 }
    requires all { counts.known ≡ sum_by known_weight (claims_in claims.old.items) + 1 }
    ensures put { claims_in claims.new.items ≡ set (claims_in claims.old.items) place (Some claim) }
    ensures len { length claims.new.items ≡ length claims.old.items }
    ensures counted { result.live ≡ sum_by claim_weight (claims_in claims.new.items) + 1 }
    ensures all { result.known ≡ sum_by known_weight (claims_in claims.new.items) + 1 }
{
    let old = weight(claim_of(claims[place]));
    let was_known = known_weight(claim_of(claims[place]));
    claims[place] = held_of(claim);
    Counts {
        live: counts.live + weight(Some(claim)) - old,
        known: counts.known + 1 - was_known,
    }
}

// Holds the member at a place to be up, where nobody is held to be down. Given how many members there are, oneself
// included, it returns how many there are then.
#[inline(always)]
fn put_alive(claims: &mut Vec<Held>, place: usize, count: usize) -> usize
    requires place { place < length claims.old.items }
    requires few { length claims.old.items ≤ 2 ^ 16 }
    requires counted { count ≡ sum_by claim_weight (claims_in claims.old.items) + 1 }
    requires all { count ≡ sum_by known_weight (claims_in claims.old.items) + 1 }
    ensures put { claims_in claims.new.items ≡ set (claims_in claims.old.items) place (Some Alive) }
    ensures len { length claims.new.items ≡ length claims.old.items }
    ensures counted { result ≡ sum_by claim_weight (claims_in claims.new.items) + 1 }
    ensures all { result ≡ sum_by known_weight (claims_in claims.new.items) + 1 }
{
    let was_known = known_weight(claim_of(claims[place]));
    claims[place] = Held::Alive;
    count + 1 - was_known
}

// Holds each of these members to be up, where nothing is held of anybody. Returns how many members there are
// then, oneself included.
fn hold_alive(claims: &mut Vec<Held>, members: &[MemberId]) -> usize
    requires nobody { (k : ℕ) → claim_at (claims_in claims.old.items) k ≡ None }
    requires places { EachIndex members.now (λ k. slice_index members.now k < length claims.old.items) }
    requires few { length claims.old.items ≤ 2 ^ 16 }
    ensures held { known_of (entries_from 0 (claims_in claims.new.items) []) ≡ all_alive members.now }
    ensures few { length claims.new.items ≤ 2 ^ 16 }
    ensures counted { result ≡ sum_by claim_weight (claims_in claims.new.items) + 1 }
    ensures all { result ≡ sum_by known_weight (claims_in claims.new.items) + 1 }
{
    let mut count = 1;
    for member in members {
        count = put_alive(claims, member.index(), count);
    }
    count
}

// What a claim adds to the count of those who are known.
fn known_weight(claim: Option<Claim>) -> usize
    ensures { result ≡ known_weight claim }
{
    match claim {
        Some(_) => 1,
        None => 0,
    }
}

// What a claim adds to the count of those who are not confirmed.
fn weight(claim: Option<Claim>) -> usize
    ensures { result ≡ claim_weight claim }
{
    match claim {
        Some(claim) => usize::from(!is_confirm(claim)),
        None => 0,
    }
}

// Whether a claim holds a member to be up, and it is not that one.
fn helps(claim: Claim, number: usize, member: MemberId) -> bool
    ensures { result ≡ (is_alive claim && not (nat_eq number member)) }
{
    is_alive(claim) && number != member.index()
}

// Those that are held to be up, but one.
fn list_alive_but(alloc: Global, claims: &[Held], member: MemberId) -> Result<Vec<MemberId>, Memory>
    requires { length claims.now ≤ 2 ^ 16 }
    ensures { IfOk result (λ members. (incs : List ℕ) → members.items
        ≡ map (λ e. e.0) (filter (λ e. is_alive e.1.0 && not (nat_eq e.0 member)) (entries_from 0 (claims_in claims.now) incs))) }
{
    let mut members = Vec::with_capacity(alloc, claims.len())?;
    for (number, held) in claims.iter().enumerate() {
        let Some(claim) = claim_of(*held) else {
            continue
        };
        if helps(claim, number, member) {
            members.push(MemberId(number as u16))?;
        }
    }
    Ok(members)
}

// Each entry as an update of one accuser.
fn list_updates(
    alloc: Global,
    claims: &[Held],
    incs: &Numbers,
    accuser: MemberId,
) -> Result<Vec<Update>, Memory>
    requires { length claims.now ≤ 2 ^ 16 }
    ensures { IfOk result (λ updates. updates.items ≡ map (update_by accuser) (entries_from 0 (claims_in claims.now) (numbers_of incs.now))) }
{
    let mut updates = Vec::with_capacity(alloc, claims.len())?;
    for (number, held) in claims.iter().enumerate() {
        let Some(claim) = claim_of(*held) else {
            continue
        };
        let update = Update {
            subject: MemberId(number as u16),
            claim,
            inc: incs.at(number),
            accuser,
        };
        updates.push(update)?;
    }
    Ok(updates)
}
