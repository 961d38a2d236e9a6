//! By which parts a run is shared. No result depends on it.
ghost use Rattle.std.specs.Prelude.{◌≡◌, ◌<◌, ◌≤◌, length, IfOk};
ghost use Rattle.scenario.specs.Setup.{member_count};
ghost use Rattle.partitioning.specs.Asked.{AreAsAsked, AreFewer};
ghost use Rattle.partitioning.specs.Hands.{AreChosen, AreShares};
ghost use Rattle.partitioning.specs.Parts.{Divides, PutsTogether};
ghost use Rattle.partitioning.specs.Paying.{ArePaying, TakesLonger};

use crate::beats::by_first_beats;
use crate::divisions::same_parts;
use crate::folding::folded;
use crate::hands::simulating;
use crate::round_length::{are_long, least_walk_of, long_round};
use crate::sites::by_sites;
use base::Memory;
use links::Links;
use scenario::{Division, Scenario, Workers};
use std::alloc::Global;
use windows::Cluster;

/// The parts of a run, and how many workers simulate them.
#[derive(Drop)]
pub(crate) struct Shares {
    pub(crate) parts: Division,
    pub(crate) hands: Workers,
}

/// The parts of a run by so many workers, of whom so many have a thread, and how many of these simulate: all where a
/// round of their parts is long, else all but one, which writes.
pub(crate) fn chosen_shares(
    alloc: Global,
    scenario: &Scenario,
    division: &Division,
    workers: Workers,
    threads: Workers,
) -> Result<Shares, Memory>
    requires divides { length division.now.part_of ≡ member_count scenario.now }
    ensures divides { IfOk result (λ shares. length shares.parts.part_of ≡ member_count scenario.now) }
    ensures shares { IfOk result (λ shares. AreShares scenario.now division.now workers threads shares.hands shares.parts) }
{
    let links = &Links::of(alloc, scenario)?;
    let cluster = Cluster { scenario, links };
    let parts = chosen_parts(alloc, cluster, division, workers, threads)?;
    if are_long(alloc, cluster, &parts)? {
        return Ok(Shares {
            parts,
            hands: threads,
        });
    }
    let hands = simulating(threads);
    let parts = chosen_parts(alloc, cluster, division, workers, hands)?;
    Ok(Shares { parts, hands })
}

/// The parts of a run by so many workers, of whom so many simulate. Where there are more parts than
/// workers in the division they are those, or fewer into which they are joined. Else they are those by
/// which the run is likely to take the least time.
fn chosen_parts(
    alloc: Global,
    cluster: Cluster,
    division: &Division,
    workers: Workers,
    hands: Workers,
) -> Result<Division, Memory>
    requires divides { length division.now.part_of ≡ member_count cluster.scenario.now }
    ensures divides { IfOk result (λ parts. length parts.part_of ≡ member_count cluster.entry.scenario.now) }
    ensures chosen { IfOk result (AreChosen cluster.entry.scenario.now division.now workers hands) }
{
    let hands = hands.count();
    if division.parts() <= workers.count() {
        parts_that_pay(alloc, cluster, division, hands)
    } else {
        parts_as_asked(alloc, cluster, division, hands)
    }
}

/// The parts by which the run is likely to take the least time, at most one for each of so many
/// hands: those of the division, or the cluster's sites, or the members in turn in the order of their first beats,
/// whichever have the longest rounds. All members as one part where no such rounds are worth it.
fn parts_that_pay(
    alloc: Global,
    cluster: Cluster,
    division: &Division,
    hands: usize,
) -> Result<Division, Memory>
    requires divides { length division.now.part_of ≡ member_count cluster.scenario.now }
    requires few { (1 ≤ hands) × (hands ≤ 64) }
    ensures divides { IfOk result (Divides cluster.entry.scenario.now hands) }
    ensures pays { IfOk result (ArePaying cluster.entry.scenario.now division.now hands) }
{
    let scenario = cluster.scenario;
    let ticks = long_round(scenario);
    let given = folded(alloc, scenario, division, hands)?;
    let sites = by_sites(alloc, cluster, ticks)?;
    let near = folded(alloc, scenario, &sites, hands)?;
    let turns = by_first_beats(alloc, scenario, hands)?;
    let parts = Division::in_turn(alloc, scenario, 1)?;
    let whole = Choice { parts, ticks };
    let of_given = longer(alloc, cluster, whole, given)?;
    let of_near = longer(alloc, cluster, of_given, near)?;
    let chosen = longer(alloc, cluster, of_near, turns)?;
    Ok(chosen.parts)
}

/// The parts that were asked for, where a round of theirs is long enough for each message that they send
/// each other in it; else fewer, each of which joins some of them.
fn parts_as_asked(
    alloc: Global,
    cluster: Cluster,
    division: &Division,
    hands: usize,
) -> Result<Division, Memory>
    requires divides { length division.now.part_of ≡ member_count cluster.scenario.now }
    requires few { (1 ≤ hands) × (hands ≤ 64) }
    requires several { 2 ≤ division.now.parts }
    ensures divides { IfOk result (λ parts. length parts.part_of ≡ member_count cluster.entry.scenario.now) }
    ensures asked { IfOk result (AreAsAsked cluster.entry.scenario.now division.now hands) }
{
    let long = long_round(cluster.scenario);
    let ticks = least_walk_of(alloc, cluster, division)?;
    let parts = division.parts() as u64;
    if long <= ticks / parts / (parts - 1) {
        same_parts(alloc, cluster.scenario, division)
    } else {
        joined_parts(alloc, cluster, division, hands, long)
    }
}

/// The parts of a division joined into so many, where a round of these has as many ticks as it must
/// have; else into one.
fn joined_parts(
    alloc: Global,
    cluster: Cluster,
    division: &Division,
    hands: usize,
    long: u64,
) -> Result<Division, Memory>
    requires divides { length division.now.part_of ≡ member_count cluster.scenario.now }
    requires few { (1 ≤ hands) × (hands ≤ 64) }
    ensures divides { IfOk result (λ parts. length parts.part_of ≡ member_count cluster.entry.scenario.now) }
    ensures joined { IfOk result (PutsTogether division.now) }
    ensures fewer { IfOk result (AreFewer cluster.entry.scenario.now division.now hands long) }
{
    let parts = folded(alloc, cluster.scenario, division, hands)?;
    let ticks = least_walk_of(alloc, cluster, &parts)?;
    if long <= ticks {
        Ok(parts)
    } else {
        folded(alloc, cluster.scenario, division, 1)
    }
}

/// Parts that may be chosen.
#[derive(Drop)]
struct Choice {
    parts: Division,
    /// How many ticks the rounds of others must have to be taken in their place.
    ticks: u64,
}

/// The other parts in place of those that were chosen, where their rounds are as long or longer.
fn longer(
    alloc: Global,
    cluster: Cluster,
    choice: Choice,
    parts: Division,
) -> Result<Choice, Memory>
    requires divides { length parts.part_of ≡ member_count cluster.scenario.now }
    ensures { IfOk result (λ chosen. TakesLonger cluster.entry.scenario.now choice.parts choice.ticks parts chosen.parts chosen.ticks) }
{
    let ticks = least_walk_of(alloc, cluster, &parts)?;
    if ticks < choice.ticks {
        return Ok(choice);
    }
    Ok(Choice { parts, ticks })
}
