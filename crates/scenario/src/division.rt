//! How the members are divided into parts, and how many workers run them.
ghost use Rattle.std.specs.Prelude.{◌≡◌, ◌<◌, ◌≤◌, ◌%◌, IfOk, length, map, Some, None};
ghost use Rattle.std.specs.List.{range_with_len, slice_get};
ghost use Rattle.scenario.specs.Setup.{member_count};
ghost use Rattle.scenario.specs.Division.{divided, in_turn, has_part_past, workers_of};

use crate::scenario::Scenario;
use base::limits::{MOST_PARTS, MOST_WORKERS};
use base::{MemberId, Memory};
use std::alloc::{AllocError, Global};
use std::marker::Model;
use thiserror::Error;

/// Why there is no such division.
#[derive(Clone, Copy, Debug, PartialEq, Eq, Error)]
pub enum DivisionFault {
    /// There are no parts, or more than 64.
    #[error("the number of parts is not 1 to 64")]
    Parts,
    /// There isn't one part number for each member.
    #[error("not one part number for each member")]
    Length,
    /// A part number isn't below the number of parts.
    #[error("a part number is not below the number of parts")]
    PartNumber,
}

/// The part of each member. A part may be empty.
#[derive(Drop)]
pub struct Division {
    parts: usize,
    part_of: Vec<u8>,
}

impl Model for Division {
    ghost use Rattle.scenario.specs.Division.{Deal, deal_of, IsDivision};

    ghost Value = { Deal };

    ghost view = { deal_of };

    ghost invariant = { IsDivision };
}

impl Division {
    /// Puts each member of the scenario into the part of that number, of parts 0 to `parts - 1`.
    /// `part_of` has the numbers in the members' order. With several faults the answer is `Parts`,
    /// else `Length`. Takes no memory.
    pub fn new(
        scenario: &Scenario,
        parts: usize,
        part_of: Vec<u8>,
    ) -> Result<Division, DivisionFault>
        ensures { result ≡ divided (member_count scenario.now) parts part_of.items }
    {
        if parts == 0 || parts > MOST_PARTS {
            return Err(DivisionFault::Parts);
        }
        if part_of.len() != scenario.members() {
            return Err(DivisionFault::Length);
        }
        if has_part_past(parts, part_of.as_slice()) {
            return Err(DivisionFault::PartNumber);
        }
        Ok(Division { parts, part_of })
    }

    /// Puts the members in turn into so many parts, 1 to 64.
    pub fn in_turn(alloc: Global, scenario: &Scenario, parts: usize) -> Result<Division, Memory>
        requires few { (1 ≤ parts) × (parts ≤ 64) }
        ensures { IfOk result (λ division. division ≡ in_turn (member_count scenario.now) parts) }
    {
        let part_of = numbers_in_turn(alloc, scenario.members(), parts)?;
        Ok(Division { parts, part_of })
    }

    /// How many parts there are: 1 to 64.
    pub fn parts(&self) -> usize
        ensures value { result ≡ self.now.parts }
        ensures at_most_64 { (1 ≤ result) × (result ≤ 64) }
    {
        self.parts
    }

    /// How many members are divided.
    pub fn members(&self) -> usize
        ensures { result ≡ length self.now.part_of }
    {
        self.part_of.len()
    }

    /// The part of a member, from 0.
    pub fn part(&self, member: MemberId) -> usize
        requires { member < length self.now.part_of }
        ensures value { slice_get self.now.part_of member ≡ Some result }
        ensures below { result < self.now.parts }
    {
        self.part_of[member.index()] as usize
    }
}

/// So many of the numbers from 0, which begin again where they come to the limit.
fn numbers_in_turn(alloc: Global, count: usize, limit: usize) -> Result<Vec<u8>, AllocError>
    requires few { (1 ≤ limit) × (limit ≤ 64) }
    ensures { IfOk result (λ numbers. numbers.items ≡ map (λ n. n % limit) (range_with_len 0 count)) }
{
    (0..count)
        .map(|number| (number % limit) as u8)
        .collect(alloc)
}

/// Whether a part number isn't below the number of parts.
fn has_part_past(parts: usize, part_of: &[u8]) -> bool
    ensures { result ≡ has_part_past parts part_of.now }
{
    part_of.iter().any(|part| *part as usize >= parts)
}

/// How many workers run a scenario: 1 to 64.
#[derive(Clone, Copy, Debug, PartialEq, Eq)]
pub struct Workers {
    count: usize,
}

impl Model for Workers {
    ghost use Rattle.std.specs.Prelude.{ℕ, ◌≤◌};

    ghost Value = { ℕ };

    ghost view = { λ w. w.count };

    ghost invariant = { λ w. (1 ≤ w.count) × (w.count ≤ 64) };

    ghost inverse = { λ n. record { count = n } };
}

impl Workers {
    /// That many workers, where they are 1 to 64.
    pub fn new(count: usize) -> Option<Workers>
        ensures { result ≡ workers_of count }
    {
        if count == 0 || count > MOST_WORKERS {
            return None;
        }
        Some(Workers { count })
    }

    /// How many workers there are.
    pub fn count(self) -> usize
        ensures value { result ≡ self }
        ensures at_most_64 { (1 ≤ result) × (result ≤ 64) }
    {
        self.count
    }
}
