//! Members that pass from state to state.
ghost use Rattle.std.specs.Prelude.{◌≡◌, ℕ, ◌+◌, ◌*◌, ◌<◌, ◌≤◌, ◌^◌, ◌++◌, ◌∷◌, [], List, OnOk, length, slice_index};

use crate::grid::Grid;
use base::{MemberId, Memory};
use std::alloc::Global;

/// How members pass from state to state, each state by a number from 0, and in which span. All begin
/// in state 0. It takes no memory before it is opened, and nobody has changed then.
#[derive(Drop)]
pub struct Flows {
    /// The state in which each member is.
    states: Vec<u8>,
    /// How often members came to each state in each span.
    came: Grid,
    /// How often they went from it.
    went: Grid,
}

impl Flows {
    ghost use Rattle.series.specs.Grid.{count_at};
    ghost use Rattle.series.specs.Changes.{Change as AChange, AreFlowsOf, AreOpen, CanChange};

    /// Those of no changes.
    pub(crate) fn new(alloc: Global) -> Flows
        ensures { (states : ℕ) → 0 < states → AreFlowsOf states result [] }
    {
        Flows {
            states: Vec::new(alloc),
            came: Grid::new(alloc),
            went: Grid::new(alloc),
        }
    }

    /// Opens them for so many members and states. A refusal leaves what they count.
    pub(crate) fn make_room(&mut self, members: usize, states: usize) -> Result<(), Memory>
        requires { states ≤ 64 }
        ensures room { OnOk result ((member : ℕ) → member < members → AreOpen member states self.new) }
        ensures same { (between : ℕ) (changes : List AChange) → AreFlowsOf between self.old changes → AreFlowsOf between self.new changes }
    {
        self.came.make_room(states)?;
        self.went.make_room(states)?;
        make_places(&mut self.states, members)
    }

    /// Takes in that a member is in a state now.
    pub(crate) fn follow(&mut self, member: MemberId, state: u8, span: usize)
        requires span { span < 120 }
        requires can { CanChange self.old member state }
        ensures follows { (states : ℕ) (changes : List AChange) → state < states → AreFlowsOf states self.old changes
            → AreFlowsOf states self.new (changes ++ record { member = member; state = state; span = span } ∷ []) }
        ensures kept { (who states : ℕ) → AreOpen who states self.old → AreOpen who states self.new }
    {
        let place = member.index();
        let before = self.states[place];
        if before == state {
            return;
        }
        self.states[place] = state;
        self.came.raise(usize::from(state), span);
        self.went.raise(usize::from(before), span);
    }

    /// The state in which a member is.
    pub(crate) fn state(&self, member: MemberId) -> u8
        ensures { result ≡ slice_index self.now.states.items member }
    {
        match self.states.get(member.index()) {
            Some(state) => *state,
            None => 0,
        }
    }

    /// How often members came to a state in a span.
    pub fn came(&self, state: usize, span: usize) -> u64
        requires state { state ≤ 64 }
        requires span { span < 120 }
        ensures { result ≡ count_at self.now.came state span }
    {
        self.came.count(state, span)
    }

    /// How often they went from it in a span.
    pub fn went(&self, state: usize, span: usize) -> u64
        requires state { state ≤ 64 }
        requires span { span < 120 }
        ensures { result ≡ count_at self.now.went state span }
    {
        self.went.count(state, span)
    }
}

/// Makes a place for each of so many members, in state 0 where it is new.
fn make_places(states: &mut Vec<u8>, members: usize) -> Result<(), Memory>
    ensures room { OnOk result (members ≤ length states.new.items) }
    ensures same { (member : ℕ) → slice_index states.new.items member ≡ slice_index states.old.items member }
{
    if states.len() < members {
        states.resize(members, 0)?;
    }
    Ok(())
}
