//! Which member is probed next (SWIM, section 4.3), and which members help (section 3.1).
#![tactic(auto)]

ghost use Rattle.std.specs.Prelude.{◌≡◌, ℕ, ◌==◌, Some, IfOk, OnOk, OnErr, ◌+◌, ◌-◌, ◌<◌, ◌≤◌, ◌^◌, nat_lt, if◌then◌else◌, length, slice_get, All, position};
ghost use Rattle.streams.specs.Draw.{words_of};
ghost use Rattle.probing.specs.Ahead.{AreAhead};
ghost use Rattle.probing.specs.Mixed.{mixed_of};
ghost use Rattle.probing.specs.Displaced.{place_among, displaced_of};
ghost use Rattle.probing.specs.ProbeOrder.{NoRepeats, IsSoundOrder, times_in, round_over, next_of, insert_of, remove_of, helpers_of};

pub mod laws;
mod samples;

use base::{MemberId, Memory};
pub use samples::sample;
use std::marker::Model;
use streams::Stream;

/// How many members are read at once.
const SIXTEEN: usize = 16;

/// The members that a member probes, in the order of its present round, and a mark before the one
/// that is next: round-robin probing (SWIM, section 4.3). No member is there twice.
#[derive(Debug, Drop)]
pub struct Rota {
    members: Vec<MemberId>,
    mark: usize,
    /// The members from the mark on, up to the next place that sixteen divides, each at its place modulo sixteen. They
    /// are read together, so that few probes wait for memory.
    ahead: [MemberId; SIXTEEN],
}

impl Model for Rota {
    ghost use Rattle.probing.specs.ProbeOrder.{ProbeOrder};
    ghost use Rattle.probing.specs.Ahead.{IsStored};

    ghost Value = { ProbeOrder };

    ghost view = { λ rota. record { members = rota.members.items; mark = rota.mark } };

    ghost invariant = { λ rota. IsStored rota.members.items rota.mark rota.ahead };
}

impl Rota {
    /// A rota of these members, whose first probe begins a round. It takes no memory, so it is never
    /// refused.
    pub fn of(members: Vec<MemberId>) -> Result<Self, Memory>
        requires { NoRepeats members.items }
        ensures value { result ≡ Ok (round_over members.items) }
        ensures sound { IfOk result IsSoundOrder }
    {
        see_numbers(&members);
        let mark = members.len();
        let ahead = [MemberId(0); SIXTEEN];
        Ok(Rota {
            members,
            mark,
            ahead,
        })
    }

    /// The member to probe next, if there is one. Where the round is over, a new one begins: the
    /// members are shuffled.
    #[tactic(auto, unfolding(crate::specs::ProbeOrder::next_of))]
    pub fn next(&mut self, stream: &mut Stream) -> Option<MemberId>
        ensures drawn { (result, self.new, words_of stream.new)
            ≡ next_of (words_of stream.old) self.old }
        ensures sound { IsSoundOrder self.new }
    {
        if self.members.is_empty() {
            return None;
        }
        if self.mark == self.members.len() {
            stream.shuffle(&mut self.members);
            self.mark = 0;
            self.ahead = sixteen_from(&self.members, 0);
        }
        let member = self.ahead[self.mark % SIXTEEN];
        self.mark += 1;
        self.ahead = sixteen_at(&self.members, self.mark, self.ahead);
        Some(member)
    }

    /// Whether all have been probed in this round: also where there is nobody.
    pub fn is_round_over(&self) -> bool
        ensures { result ≡ (self.now.mark == length self.now.members) }
    {
        self.mark == self.members.len()
    }

    /// Puts the members in a new order, and the mark at a place that is drawn, the end too: so is a member that has probed
    /// others for long.
    #[tactic(auto, unfolding(crate::specs::Mixed::mixed_of))]
    pub fn mix(&mut self, stream: &mut Stream)
        ensures drawn { (self.new, words_of stream.new) ≡ mixed_of (words_of stream.old) self.old }
        ensures sound { IsSoundOrder self.new }
    {
        stream.shuffle(&mut self.members);
        self.mark = stream.below(self.members.len() as u32 + 1) as usize;
        self.ahead = sixteen_from(&self.members, self.mark);
    }

    /// Puts a new member at a place that is drawn. Behind the mark it is probed in this round, before
    /// it from the next one on. A refusal leaves the rota and the stream as they were.
    #[tactic(auto, unfolding(crate::specs::ProbeOrder::insert_of))]
    pub fn insert(&mut self, member: MemberId, stream: &mut Stream) -> Result<(), Memory>
        requires { times_in self.old.members member ≡ 0 }
        ensures ok { OnOk result ((self.new, words_of stream.new)
            ≡ insert_of (words_of stream.old) member self.old) }
        ensures err { OnErr result ((self.new ≡ self.old) × (stream.new ≡ stream.old)) }
        ensures sound { IsSoundOrder self.new }
    {
        if self.members.reserve(1).is_err() {
            return Err(Memory);
        }
        // Distinct numbers of 16 bits are few enough for the draw.
        see_numbers(&[member]);
        let place = stream.below(self.members.len() as u32 + 1) as usize;
        self.members.insert(place, member).unwrap();
        self.mark = mark_with(self.mark, place);
        self.ahead = sixteen_from(&self.members, self.mark);
        Ok(())
    }

    /// Puts a new member in the place of one that is drawn, who goes to the end; the mark stays. Where nobody is, nothing
    /// is drawn. A refusal leaves the rota and the stream as they were.
    #[tactic(auto, unfolding(crate::specs::Displaced::displaced_of))]
    pub fn displace(&mut self, member: MemberId, stream: &mut Stream) -> Result<(), Memory>
        requires { times_in self.old.members member ≡ 0 }
        ensures ok { OnOk result ((self.new, words_of stream.new)
            ≡ displaced_of (words_of stream.old) member self.old) }
        ensures err { OnErr result ((self.new ≡ self.old) × (stream.new ≡ stream.old)) }
        ensures sound { IsSoundOrder self.new }
    {
        let last = self.members.len();
        let room = self.members.reserve(1);
        if room.is_err() {
            return Err(Memory);
        }
        // Distinct numbers of 16 bits are few enough for the draw.
        see_numbers(&[member]);
        let place = place_among(last, stream);
        self.members.push_reserved(member);
        self.members.swap(place, last);
        self.ahead = sixteen_from(&self.members, self.mark);
        Ok(())
    }

    /// Takes a member out, if it is there.
    #[tactic(auto, unfolding(crate::specs::ProbeOrder::remove_of))]
    pub fn remove(&mut self, member: MemberId)
        ensures removed { self.new ≡ remove_of member self.old }
        ensures sound { IsSoundOrder self.new }
    {
        let Some(place) = place_of_member(&self.members, member) else {
            return;
        };
        self.members.remove(place);
        self.mark = mark_without(self.mark, place);
        self.ahead = sixteen_from(&self.members, self.mark);
    }
}

/// Reads each number, so that the proof knows that it has 16 bits.
fn see_numbers(members: &[MemberId])
    ensures { All (λ member. member < 2 ^ 16) members.now }
{
    for member in members {
        let _number = number(*member);
    }
}

/// A member's number.
fn number(member: MemberId) -> u16
    ensures { result ≡ member }
{
    member.0
}

/// A place that is drawn among so many: where there are none it is the first, and nothing is drawn.
fn place_among(count: usize, stream: &mut Stream) -> usize
    requires { count ≤ 2 ^ 16 }
    ensures drawn { (result, words_of stream.new) ≡ place_among (words_of stream.old) count }
    ensures within { result < count + 1 }
{
    if count == 0 {
        return 0;
    }
    stream.below(count as u32) as usize
}

/// Where the mark is once a member was put at a place.
fn mark_with(mark: usize, place: usize) -> usize
    requires { mark ≤ 2 ^ 16 }
    ensures { result ≡ (if nat_lt place mark then mark + 1 else mark) }
{
    if place < mark { mark + 1 } else { mark }
}

/// Where the mark is once the member at a place was taken out.
fn mark_without(mark: usize, place: usize) -> usize
    ensures { result ≡ (if nat_lt place mark then mark - 1 else mark) }
{
    if place < mark { mark - 1 } else { mark }
}

/// The members from a place on, up to the next one that sixteen divides.
fn sixteen_from(members: &[MemberId], place: usize) -> [MemberId; SIXTEEN]
    ensures { AreAhead members.now place result }
{
    let first = place - place % SIXTEEN;
    [
        member_at(members, first),
        member_at(members, first + 1),
        member_at(members, first + 2),
        member_at(members, first + 3),
        member_at(members, first + 4),
        member_at(members, first + 5),
        member_at(members, first + 6),
        member_at(members, first + 7),
        member_at(members, first + 8),
        member_at(members, first + 9),
        member_at(members, first + 10),
        member_at(members, first + 11),
        member_at(members, first + 12),
        member_at(members, first + 13),
        member_at(members, first + 14),
        member_at(members, first + 15),
    ]
}

/// The same, where those from the place before are at hand.
#[inline(always)]
fn sixteen_at(members: &[MemberId], place: usize, ahead: [MemberId; SIXTEEN]) -> [MemberId; SIXTEEN]
    ensures { (before : ℕ) → before + 1 ≡ place → AreAhead members.now before ahead → AreAhead members.now place result }
{
    if place % SIXTEEN == 0 {
        sixteen_from(members, place)
    } else {
        ahead
    }
}

/// The member at a place: any one past the end.
fn member_at(members: &[MemberId], place: usize) -> MemberId
    ensures { place < length members.now → slice_get members.now place ≡ Some result }
{
    match members.get(place) {
        Some(member) => *member,
        None => MemberId(0),
    }
}

/// The place of a member in a list, if it is there.
fn place_of_member(members: &[MemberId], member: MemberId) -> Option<usize>
    ensures { result ≡ position (λ other. other == member) members.now }
{
    members.iter().position(|other| *other == member)
}

/// The helpers of an indirect probe (SWIM, section 3.1): the first `k` of the candidates in a new
/// order, or all where they are fewer. It takes no memory.
#[tactic(auto, unfolding(crate::specs::ProbeOrder::helpers_of))]
pub fn helpers(mut candidates: Vec<MemberId>, k: usize, stream: &mut Stream) -> Vec<MemberId>
    ensures { (result.items, words_of stream.new)
        ≡ helpers_of (words_of stream.old) k candidates.items }
{
    stream.shuffle(&mut candidates);
    candidates.truncate(k);
    candidates
}
