//! Computes the least walks between parts in three steps: mark twins, take the direct links, and settle on least
//! walks.
ghost use Rattle.std.specs.Prelude.{◌≡◌, ℕ, length, IfOk};
ghost use Rattle.scenario.specs.Setup.{member_count};
ghost use Rattle.lookahead.specs.Between.{part_number, IsLeastBetween};
ghost use Rattle.lookahead.specs.Walks.{AreWalksOf};

use crate::direct::direct_lengths;
use crate::settle::settle;
use crate::table::Horizons;
use crate::twins::twins_before;
use base::Memory;
use scenario::Division;
use std::alloc::Global;
use windows::Cluster;

/// The least walks of links among the parts of a cluster's members, or `Memory` where it was
/// refused. It goes once over all pairs of members that have no twin, one of the same group and
/// part, before them.
pub fn horizons(alloc: Global, cluster: Cluster, division: &Division) -> Result<Horizons, Memory>
    requires { length division.now.part_of ≡ member_count cluster.scenario.now }
    ensures parts { IfOk result (λ horizons. horizons.parts ≡ division.now.parts) }
    ensures walks { IfOk result (λ horizons. (between : ℕ → ℕ → ℕ) × IsLeastBetween cluster.entry.scenario.now (part_number division.now) between
        × AreWalksOf horizons cluster.entry.scenario.now (part_number division.now) between) }
{
    let twins = twins_before(alloc, cluster.scenario, division)?;
    let parts = division.parts();
    let mut lengths = direct_lengths(alloc, division, cluster.links, twins.as_slice())?;
    settle(&mut lengths, parts);
    Ok(Horizons { parts, lengths })
}
