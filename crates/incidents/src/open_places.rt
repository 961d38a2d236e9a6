//! Where the restarts stand whose lives go on, by their members.
ghost use Rattle.std.specs.Prelude.{◌≡◌, ◌<◌, ◌==◌, ◌++◌, ◌∷◌, [], ℕ, IfOk, OnOk, length, get_or, if◌then◌else◌};
ghost use Rattle.incidents.specs.OpenPlaces.{places_of};

use base::{MemberId, Memory};
use std::alloc::Global;

/// For each member the places of its restarts whose lives go on.
#[derive(Drop)]
pub(crate) struct OpenPlaces {
    pub(crate) of_members: Vec<Vec<usize>>,
}

impl OpenPlaces {
    /// No restarts, of so many members.
    pub(crate) fn new(alloc: Global, count: usize) -> Result<OpenPlaces, Memory>
        ensures none { IfOk result (λ made. (m : ℕ) → places_of made m ≡ []) }
        ensures room { IfOk result (λ made. length made.of_members.items ≡ count) }
    {
        let mut of_members = Vec::new(alloc);
        for _place in 0..count {
            of_members.push(Vec::new(alloc))?;
        }
        Ok(OpenPlaces { of_members })
    }

    /// Of how many members.
    pub(crate) fn members(&self) -> usize
        ensures { result ≡ length self.now.of_members.items }
    {
        self.of_members.len()
    }

    /// How many there are of a member.
    pub(crate) fn count(&self, member: MemberId) -> usize
        ensures { result ≡ length (places_of self.now member) }
    {
        match self.of_members.get(member.index()) {
            Some(places) => places.len(),
            None => 0,
        }
    }

    /// The place of one of a member's, by how many of them are before it.
    pub(crate) fn place(&self, member: MemberId, nth: usize) -> usize
        ensures { result ≡ get_or (places_of self.now member) nth 0 }
    {
        match self.of_members.get(member.index()) {
            Some(places) => place_at(places.as_slice(), nth),
            None => 0,
        }
    }

    /// Adds the place of a restart of a member.
    pub(crate) fn add(&mut self, member: MemberId, place: usize) -> Result<(), Memory>
        requires { member < length self.old.of_members.items }
        ensures room { length self.new.of_members.items ≡ length self.old.of_members.items }
        ensures added { OnOk result ((m : ℕ) → places_of self.new m
            ≡ (if member == m then places_of self.old m ++ place ∷ [] else places_of self.old m)) }
    {
        push_place(&mut self.of_members[member.index()], place)
    }

    /// Closes a member's restarts: their lives are over.
    pub(crate) fn close(&mut self, member: MemberId)
        requires { member < length self.old.of_members.items }
        ensures room { length self.new.of_members.items ≡ length self.old.of_members.items }
        ensures closed { (m : ℕ) → places_of self.new m ≡ (if member == m then [] else places_of self.old m) }
    {
        take_all(&mut self.of_members[member.index()]);
    }
}

/// One of these places, or 0 past their end.
fn place_at(places: &[usize], nth: usize) -> usize
    ensures { result ≡ get_or places.now nth 0 }
{
    match places.get(nth) {
        Some(place) => *place,
        None => 0,
    }
}

/// Adds a place.
fn push_place(places: &mut Vec<usize>, place: usize) -> Result<(), Memory>
    ensures { OnOk result (places.new.items ≡ places.old.items ++ place ∷ []) }
{
    places.push(place)?;
    Ok(())
}

/// Takes all places out.
fn take_all(places: &mut Vec<usize>)
    ensures { places.new.items ≡ [] }
{
    places.clear();
}
