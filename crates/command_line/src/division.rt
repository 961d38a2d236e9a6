//! How the members are divided into parts, and how many workers there are, by the words that say so.
ghost use Rattle.std.specs.Prelude.{◌≡◌, ℕ, ◌≤◌, Ok, option_map, IfOk, IfErr, IfSome, IsNone, length};
ghost use Rattle.decimals.specs.Items.{list_items};
ghost use Rattle.scenario.specs.Setup.{member_count};
ghost use Rattle.scenario.specs.Division.{divided, in_turn};
ghost use Rattle.command_line.specs.Division.{AreParts, AsksForWorkers, Divides, DividesByList, IsCount, past_greatest};
ghost use Rattle.command_line.specs.Failures.{IsFaultOf, RefusesDivision, RefusesItems, RefusesList, RefusesWorkers};

use crate::failure::Failure;
use crate::words::Split;
use arguments::number_within;
use base::limits::MOST_PARTS;
use scenario::{Division, DivisionFault, Scenario, Workers};
use std::alloc::Global;

/// How many workers a word asks for; one where there is no word.
///
/// Failure: `Workers` where the word isn't a number of 1 to 64 in decimal, without sign or leading zero.
pub fn workers_asked(word: Option<&str>) -> Result<Workers, Failure<'static>>
    ensures asked { IfOk result (AsksForWorkers (option_map (λ text. text.now) word.entry)) }
    ensures refused { IfErr result (RefusesWorkers (option_map (λ text. text.now) word.entry)) }
{
    match word {
        Some(word) => match count_asked(word) {
            Some(count) => some_workers(count),
            None => Err(Failure::Workers),
        },
        None => some_workers(1),
    }
}

/// So many workers.
fn some_workers(count: usize) -> Result<Workers, Failure<'static>>
    requires some { 1 ≤ count }
    requires at_most_64 { count ≤ 64 }
    ensures { result ≡ Ok count }
{
    match Workers::new(count) {
        Some(workers) => Ok(workers),
        None => Err(Failure::Workers),
    }
}

/// Divides the members as the words say, or in turn among as many parts as there are workers.
///
/// Failures: `Division` with `Parts` where a number of parts isn't one of 1 to 64 in decimal, without
/// sign or leading zero; with `Length` where a list has another length than there are members; with
/// `PartNumber` where an item isn't such a number of 0 to 63. `Memory`.
pub fn division_asked(
    alloc: Global,
    scenario: &Scenario,
    split: Split<'_>,
    workers: Workers,
) -> Result<Division, Failure<'static>>
    ensures divided { IfOk result (Divides (member_count scenario.now) workers split.entry) }
    ensures refused { IfErr result (RefusesDivision (member_count scenario.now) split.entry) }
{
    match split {
        Split::Workers => deal(alloc, scenario, workers.count()),
        Split::Parts(word) => match count_asked(word) {
            Some(parts) => deal(alloc, scenario, parts),
            None => Err(Failure::Division(DivisionFault::Parts)),
        },
        Split::List(list) => deal_by_list(alloc, scenario, list),
    }
}

/// The number of parts or workers that a word names: 1 to 64, as many of these as of those.
fn count_asked(word: &str) -> Option<usize>
    ensures some { IfSome result (IsCount word.now) }
    ensures none { IsNone result → (count : ℕ) → ¬ (IsCount word.now count) }
{
    let count = number_within(word, 1, MOST_PARTS as u64)?;
    Some(count as usize)
}

/// Deals the members to so many parts in turn.
fn deal(alloc: Global, scenario: &Scenario, parts: usize) -> Result<Division, Failure<'static>>
    requires some { 1 ≤ parts }
    requires at_most_64 { parts ≤ 64 }
    ensures divided { IfOk result (λ division. division ≡ in_turn (member_count scenario.now) parts) }
    ensures refused { IfErr result (λ failure. failure ≡ Failure.Memory) }
{
    match Division::in_turn(alloc, scenario, parts) {
        Ok(division) => Ok(division),
        Err(_) => Err(Failure::Memory),
    }
}

/// Deals each member to the part that its item of a list names. Commas separate the items.
fn deal_by_list(
    alloc: Global,
    scenario: &Scenario,
    list: &str,
) -> Result<Division, Failure<'static>>
    ensures divided { IfOk result (DividesByList (member_count scenario.now) (list_items list.now)) }
    ensures refused { IfErr result (RefusesList (member_count scenario.now) (list_items list.now)) }
{
    if item_count(list) != scenario.members() {
        return Err(Failure::Division(DivisionFault::Length));
    }
    let part_of = match part_numbers(alloc, list) {
        Ok(part_of) => part_of,
        Err(failure) => return Err(failure),
    };
    let parts = past_greatest(&part_of);
    divide(scenario, parts, part_of)
}

/// One more than the greatest of the numbers.
fn past_greatest(numbers: &[u8]) -> usize
    ensures { result ≡ past_greatest numbers.now }
{
    let greatest = numbers
        .iter()
        .fold(0u8, |greatest, number| greatest.max(*number));
    usize::from(greatest) + 1
}

/// How many items a list has.
fn item_count(list: &str) -> usize
    ensures { result ≡ length (list_items list.now) }
{
    list.split(',').count()
}

/// The numbers that the items of a list name, each 0 to 63.
fn part_numbers(alloc: Global, list: &str) -> Result<Vec<u8>, Failure<'static>>
    ensures numbers { IfOk result (λ numbers. AreParts (list_items list.now) numbers.items) }
    ensures refused { IfErr result (RefusesItems (list_items list.now)) }
{
    let mut numbers = Vec::new(alloc);
    for item in list.split(',') {
        match number_within(item, 0, MOST_PARTS as u64 - 1) {
            Some(part) => {
                if numbers.push(part as u8).is_err() {
                    return Err(Failure::Memory);
                }
            }
            None => return Err(Failure::Division(DivisionFault::PartNumber)),
        }
    }
    Ok(numbers)
}

/// The division, with its fault as a failure.
fn divide(scenario: &Scenario, parts: usize, part_of: Vec<u8>) -> Result<Division, Failure<'static>>
    ensures divided { IfOk result (λ deal. divided (member_count scenario.now) parts part_of.items ≡ Ok deal) }
    ensures refused { IfErr result (IsFaultOf (divided (member_count scenario.now) parts part_of.items)) }
{
    match Division::new(scenario, parts, part_of) {
        Ok(division) => Ok(division),
        Err(fault) => Err(Failure::Division(fault)),
    }
}
