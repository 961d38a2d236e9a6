//! A part's own members, side by side, so that an event finds its receiver without a search.
ghost use Rattle.std.specs.Prelude.{◌≡◌, ◌<◌, ◌≤◌, ℕ, true, [], length, Some, None, OnOk, IfOk, IfSome, IfNone, IsErrOf, vec_len};
ghost use Rattle.std.specs.FinMap.{get, contains_key, insert, empty};
ghost use Rattle.member.specs.declared.member.Member.{Member};
ghost use Rattle.windows.specs.ByNumber.{place_at};
ghost use Rattle.scenario.specs.Setup.{member_count};
ghost use Rattle.member.specs.Here.{IsSoundSetting, HoldsMembers, MentionsMembers};
ghost use Rattle.member.specs.State.{State};
ghost use Rattle.member.specs.StateOf.{state_of};

use crate::cluster::Cluster;
use crate::steps::in_parts;
use base::{MemberId, Memory};
use member::{Effects, Event, Member, StepError};
use std::alloc::Global;

/// The members of a part, side by side, and where each number's member stands among them, so that an event's
/// receiver is found at once.
#[derive(Drop)]
pub struct OwnMembers {
    /// The members, in the order in which they came.
    members: Vec<Member>,
    /// At each number the place of its member. Empty where these are the first numbers in order: then no table is
    /// looked at.
    places: Vec<Option<usize>>,
    ghost within: { (number place : ℕ) → place_at places.items number ≡ Some place → place < length members.items },
    ghost apart: { (a b place : ℕ) → place_at places.items a ≡ Some place → place_at places.items b ≡ Some place → a ≡ b },
}

/// The places of so many members that stand in the order of their numbers.
fn in_order(alloc: Global, count: usize) -> Result<Vec<Option<usize>>, Memory>
    ensures len { IfOk result (λ places. length places.items ≡ count) }
    ensures each { IfOk result (λ places. (number : ℕ) → number < count → place_at places.items number ≡ Some number) }
{
    let mut places = Vec::new(alloc);
    for place in 0..count {
        places.push(Some(place))?;
    }
    Ok(places)
}

/// Has an entry for that number, with no place where there was none.
fn reach(places: &mut Vec<Option<usize>>, number: usize) -> Result<(), Memory>
    ensures reached { OnOk result (number < vec_len places.new) }
    ensures same { (k : ℕ) → place_at places.new.items k ≡ place_at places.old.items k }
{
    while places.len() <= number {
        places.push(None)?;
    }
    Ok(())
}

impl OwnMembers {
    ghost use Rattle.windows.specs.ByNumber.{IsPlaceOf};
    ghost use Rattle.windows.specs.WorldOf.{states_in};
    ghost use Rattle.windows.specs.Handling.{Handles, OverflowsReceiver};

    /// Nobody. It takes no memory.
    pub(crate) fn new(alloc: Global) -> Self
        ensures { states_in result ≡ empty }
    {
        OwnMembers {
            members: Vec::new(alloc),
            places: Vec::new(alloc),
        }
    }

    /// Whether the part has a member of that number.
    #[inline(always)]
    pub(crate) fn has(&self, number: &MemberId) -> bool
        ensures { result ≡ contains_key (states_in self.now) number.now }
    {
        self.place_of(number.index()).is_some()
    }

    /// Where the member of that number stands: `None` where it is none of these.
    #[inline(always)]
    fn place_of(&self, number: usize) -> Option<usize>
        ensures { IsPlaceOf self.now.places.items self.now.members.items number result }
    {
        if self.places.is_empty() {
            return place_within(number, self.members.len());
        }
        if self.places.len() <= number {
            return None;
        }
        self.places[number]
    }

    /// Takes in a member under its number.
    pub(crate) fn insert(
        &mut self,
        alloc: Global,
        number: MemberId,
        member: Member,
    ) -> Result<(), Memory>
        ensures { OnOk result (states_in self.new ≡ insert (states_in self.old) number (state_of member)) }
    {
        let number = number.index();
        if self.is_next(number) {
            self.members.push(member)?;
            return Ok(());
        }
        self.reach_number(alloc, number)?;
        self.put(number, member)
    }

    /// Whether the member of that number is the next one of members in the order of their numbers.
    fn is_next(&self, number: usize) -> bool
        ensures order { result ≡ true → self.now.places.items ≡ [] }
        ensures next { result ≡ true → number ≡ length self.now.members.items }
    {
        self.places.is_empty() && self.members.len() == number
    }

    /// Has an entry for that number in the table of places.
    fn reach_number(&mut self, alloc: Global, number: usize) -> Result<(), Memory>
        ensures same { OnOk result (states_in self.new ≡ states_in self.old) }
        ensures reached { OnOk result (number < vec_len self.new.places) }
    {
        if self.places.is_empty() {
            return self.set_places(alloc, number);
        }
        reach(&mut self.places, number)
    }

    /// Sets up the table of places, with an entry for that number.
    fn set_places(&mut self, alloc: Global, number: usize) -> Result<(), Memory>
        requires { self.old.places.items ≡ [] }
        ensures same { OnOk result (states_in self.new ≡ states_in self.old) }
        ensures reached { OnOk result (number < vec_len self.new.places) }
    {
        let mut places = in_order(alloc, self.members.len())?;
        reach(&mut places, number)?;
        self.places = places;
        Ok(())
    }

    /// Takes in a member under a number that has an entry in the table of places.
    fn put(&mut self, number: usize, member: Member) -> Result<(), Memory>
        requires { number < vec_len self.old.places }
        ensures { OnOk result (states_in self.new ≡ insert (states_in self.old) number (state_of member)) }
    {
        if let Some(place) = self.places[number] {
            self.members[place] = member;
            return Ok(());
        }
        let place = self.members.len();
        self.members.push(member)?;
        self.places[number] = Some(place);
        Ok(())
    }

    /// Appends to `out` what the event's receiver makes of it: nothing where that is none of these members.
    #[inline(always)]
    pub(crate) fn handle(
        &mut self,
        alloc: Global,
        event: Event,
        cluster: Cluster,
        out: &mut Effects,
    ) -> Result<(), StepError>
        requires here { IsSoundSetting cluster.scenario.now cluster.links.now event.key }
        requires known { (t : State) → get (states_in self.old) event.key.to ≡ Some t → HoldsMembers cluster.scenario.now event.key.to t }
        requires names { MentionsMembers (member_count cluster.scenario.now) event.content }
        ensures ok { OnOk result (Handles cluster.entry.scenario.now event (states_in self.old) (states_in self.new) out.old out.new) }
        ensures overflow { IsErrOf result StepError.CounterOverflow → OverflowsReceiver cluster.entry.scenario.now event (states_in self.old) }
    {
        let Some(place) = self.place_of(receiver_of(&event)) else {
            return Ok(());
        };
        let member = &mut self.members[place];
        member.step(alloc, in_parts(event), cluster.scenario, cluster.links, out)
    }
}

/// The number, if there are so many.
#[inline(always)]
fn place_within(number: usize, count: usize) -> Option<usize>
    ensures some { IfSome result (λ place. (place ≡ number) × (number < count)) }
    ensures none { IfNone result (count ≤ number) }
{
    if number < count { Some(number) } else { None }
}

/// The number of the member that the event is for.
fn receiver_of(event: &Event) -> usize
    ensures { result ≡ event.now.key.to }
{
    event.key.to.index()
}
