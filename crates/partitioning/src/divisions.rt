//! Divisions of a scenario's members into parts.
ghost use Rattle.std.specs.Prelude.{◌≡◌, ◌<◌, ◌≤◌, IfOk, All, length, vec_len};
ghost use Rattle.scenario.specs.Setup.{member_count};

use base::{MemberId, Memory};
use scenario::{Division, Scenario};
use std::alloc::Global;

/// The members by the numbers of their parts, in the members' order.
pub(crate) fn divided(scenario: &Scenario, parts: usize, part_of: Vec<u8>) -> Division
    requires few { (1 ≤ parts) × (parts ≤ 64) }
    requires one_each { vec_len part_of ≡ member_count scenario.now }
    requires below { All (λ part. part < parts) part_of.items }
    ensures { result ≡ record { parts = parts; part_of = part_of.items } }
{
    match Division::new(scenario, parts, part_of) {
        Ok(division) => division,
        Err(_) => unreachable!(),
    }
}

/// The same parts once more.
pub(crate) fn same_parts(
    alloc: Global,
    scenario: &Scenario,
    division: &Division,
) -> Result<Division, Memory>
    requires divides { length division.now.part_of ≡ member_count scenario.now }
    ensures { IfOk result (λ parts. parts ≡ division.now) }
{
    let parts = division.parts();
    let mut part_of = Vec::new(alloc);
    for member in 0..scenario.members() {
        let part = division.part(MemberId(member as u16));
        part_of.push(part as u8)?;
    }
    Ok(divided(scenario, parts, part_of))
}
