//! The sites of a cluster: its groups, of which those are one site that are joined by short links.
ghost use Rattle.std.specs.Prelude.{◌≡◌, ◌<◌, ◌&&◌, not, nat_eq, nat_lt, IfOk, All, EachIndex, map, slice_index, vec_len};
ghost use Rattle.std.specs.List.{range_with_len};
ghost use Rattle.scenario.specs.Setup.{member_count, group_at};
ghost use Rattle.partitioning.specs.Sites.{AreJoined, AreSiteNumbers, AreSites, IsJoined, StandForGroups, group_for, joined_site};

use crate::divisions::divided;
use base::limits::MOST_PARTS;
use base::{MemberId, Memory};
use scenario::{Division, Scenario};
use std::alloc::{AllocError, Global};
use windows::Cluster;

/// The members by their sites: two groups are of one where a link between them is shorter than so
/// many ticks, or others join them by such links. As many groups are looked at as there may be
/// parts: members of later ones go with those of the first.
pub(crate) fn by_sites(alloc: Global, cluster: Cluster, ticks: u64) -> Result<Division, Memory>
    ensures { IfOk result (λ parts. AreSites cluster.entry.scenario.now ticks parts.part_of) }
{
    let firsts = first_members(alloc, cluster.scenario)?;
    let sites = sites_of_groups(alloc, cluster, &firsts, ticks)?;
    let part_of = parts_of_members(alloc, cluster.scenario, &sites)?;
    Ok(divided(cluster.scenario, MOST_PARTS, part_of))
}

/// The first member of each group that is looked at.
fn first_members(alloc: Global, scenario: &Scenario) -> Result<Vec<MemberId>, Memory>
    ensures { IfOk result (λ firsts. StandForGroups scenario.now firsts.items) }
{
    let mut firsts = Vec::new(alloc);
    let mut last = MOST_PARTS;
    for member in 0..scenario.members() {
        let member = MemberId(member as u16);
        let group = scenario.group_number(member);
        if begins(group, last) {
            firsts.push(member)?;
            last = group;
        }
    }
    Ok(firsts)
}

/// Whether a group is looked at, and isn't the last one that was.
fn begins(group: usize, last: usize) -> bool
    ensures { result ≡ (nat_lt group 64 && not (nat_eq group last)) }
{
    group < MOST_PARTS && group != last
}

/// The site of each group, given members that stand for those that are looked at.
fn sites_of_groups(
    alloc: Global,
    cluster: Cluster,
    firsts: &[MemberId],
    ticks: u64,
) -> Result<Vec<u8>, Memory>
    requires { StandForGroups cluster.scenario.now firsts.now }
    ensures numbers { IfOk result (λ sites. AreSiteNumbers sites.items) }
    ensures joined { IfOk result (λ sites. AreJoined cluster.entry.scenario.now ticks firsts.now firsts.now sites.items) }
{
    let mut sites = lone_groups(alloc)?;
    for first in firsts {
        join_neighbours(&mut sites, cluster, firsts, ticks, *first);
    }
    Ok(sites)
}

/// Each group as a site of its own.
fn lone_groups(alloc: Global) -> Result<Vec<u8>, AllocError>
    ensures { IfOk result (λ sites. sites.items ≡ range_with_len 0 64) }
{
    (0..MOST_PARTS).map(|group| group as u8).collect(alloc)
}

/// Puts the groups to which that of this member has a short link into its site.
fn join_neighbours(
    sites: &mut [u8],
    cluster: Cluster,
    firsts: &[MemberId],
    ticks: u64,
    first: MemberId,
)
    requires firsts { StandForGroups cluster.scenario.now firsts.now }
    requires member { first < member_count cluster.scenario.now }
    requires looked_at { group_at cluster.scenario.now.groups first < 64 }
    requires numbers { AreSiteNumbers sites.old }
    ensures numbers { AreSiteNumbers sites.new }
    ensures joined { IsJoined cluster.entry.scenario.now ticks firsts.now first sites.old sites.new }
{
    let group = cluster.scenario.group_number(first);
    for other in firsts {
        if cluster.links.delay(first, *other) < ticks {
            join(sites, group, cluster.scenario.group_number(*other));
        }
    }
}

/// Makes one site of those of two groups.
fn join(sites: &mut [u8], group: usize, other: usize)
    requires group { group < 64 }
    requires other { other < 64 }
    requires numbers { AreSiteNumbers sites.old }
    ensures { sites.new ≡ map (joined_site (slice_index sites.old group) (slice_index sites.old other)) sites.old }
{
    let kept = sites[group];
    let gone = sites[other];
    for site in sites.iter_mut() {
        if *site == gone {
            *site = kept;
        }
    }
}

/// The part of each member: its group's site.
fn parts_of_members(alloc: Global, scenario: &Scenario, sites: &[u8]) -> Result<Vec<u8>, Memory>
    requires { AreSiteNumbers sites.now }
    ensures each { IfOk result (λ part_of. vec_len part_of ≡ member_count scenario.now) }
    ensures below { IfOk result (λ part_of. All (λ part. part < 64) part_of.items) }
    ensures by_group { IfOk result (λ part_of. EachIndex part_of.items (λ m. slice_index part_of.items m ≡ slice_index sites.now (group_for scenario.now m))) }
{
    let mut part_of = Vec::new(alloc);
    for member in 0..scenario.members() {
        let group = scenario.group_number(MemberId(member as u16));
        let looked_at = if group < MOST_PARTS { group } else { 0 };
        part_of.push(sites[looked_at])?;
    }
    Ok(part_of)
}
