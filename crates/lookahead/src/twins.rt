//! Marks members whose links are as fast as those of an earlier member of the same group and part, so that the search
//! for least delays can leave them out.
ghost use Rattle.std.specs.Prelude.{◌≡◌, ℕ, ◌<◌, ◌≤◌, true, false, length, slice_index_or, IfOk};
ghost use Rattle.std.specs.Bool.{OnTrue};
ghost use Rattle.scenario.specs.Setup.{member_count};
ghost use Rattle.lookahead.specs.Direct.{HasTwinBefore};

use base::{MemberId, Memory};
use scenario::{Division, Scenario};
use std::alloc::Global;

/// Of each member, whether a twin stands before it: a member of its group and its part, whose links
/// are as fast as its own. `Memory` where it was refused.
pub(crate) fn twins_before(
    alloc: Global,
    scenario: &Scenario,
    division: &Division,
) -> Result<Vec<bool>, Memory>
    requires { length division.now.part_of ≡ member_count scenario.now }
    ensures twins { IfOk result (λ marks. (m : ℕ) → slice_index_or marks.items m false ≡ true → HasTwinBefore scenario.now division.now m) }
    ensures one_each { IfOk result (λ marks. length marks.items ≡ length division.now.part_of) }
    ensures few { IfOk result (λ marks. length marks.items ≤ 16384) }
{
    let mut marks = Vec::new(alloc);
    for member in 0..scenario.members() {
        marks.push(has_twin_before(scenario, division, member))?;
    }
    Ok(marks)
}

/// Whether a member before this one has its part, and all from there on its group.
fn has_twin_before(scenario: &Scenario, division: &Division, member: usize) -> bool
    requires few { length division.now.part_of ≤ 16384 }
    requires one_each { length division.now.part_of ≡ member_count scenario.now }
    requires member { member < length division.now.part_of }
    ensures { OnTrue result (HasTwinBefore scenario.now division.now member) }
{
    let group = scenario.group_number(MemberId(member as u16));
    let part = division.part(MemberId(member as u16));
    let mut earlier = member;
    while earlier > 0 {
        earlier -= 1;
        let twin = MemberId(earlier as u16);
        if scenario.group_number(twin) != group {
            return false;
        }
        if division.part(twin) == part {
            return true;
        }
    }
    false
}
