//! The links between one group and each other group, looked up once so that a round trip takes no search of the paths.
ghost use Rattle.std.specs.Prelude.{◌≡◌, ◌<◌, IfOk, replicate};
ghost use Rattle.scenario.specs.Setup.{member_count, group_at, leads, link_between, IsSoundLink};
ghost use Rattle.meaning.specs.Trips.{AreWaysOf, AreLinksBy, last_of, put_if};

use crate::list::item_at;
use base::{MemberId, Memory};
use scenario::{Link, Path, Scenario};
use std::alloc::Global;

/// The links between the members of one group and those of all others, by the numbers of these.
#[derive(Drop)]
pub(crate) struct Ways {
    there: Vec<Link>,
    back: Vec<Link>,
}

impl Ways {
    /// The links of a member's group.
    pub(crate) fn of(alloc: Global, scenario: &Scenario, member: MemberId) -> Result<Ways, Memory>
        requires { member < member_count scenario.now }
        ensures { IfOk result (AreWaysOf scenario.now member) }
    {
        let group = scenario.group_number(member);
        let paths = scenario.paths();
        let count = scenario.members();
        Ok(Ways {
            there: links_from(alloc, paths, scenario.link(), group, count)?,
            back: links_to(alloc, paths, scenario.link(), group, count)?,
        })
    }

    /// The link to a member of the group of this number. No more groups are kept than there are members;
    /// of another one the scenario is asked.
    pub(crate) fn there(
        &self,
        scenario: &Scenario,
        group: usize,
        from: MemberId,
        to: MemberId,
    ) -> Link
        requires sender { from < member_count scenario.now }
        requires receiver { to < member_count scenario.now }
        requires group { group ≡ group_at scenario.now.groups to }
        requires ways { AreWaysOf scenario.now from self.now }
        ensures value { result ≡ link_between scenario.now from to }
        ensures sound { IsSoundLink result }
    {
        let _members = scenario.members();
        match item_at(self.there.as_slice(), group) {
            Some(link) => link,
            None => scenario.link_between(from, to),
        }
    }

    /// The link back from a member of the group of this number.
    pub(crate) fn back(
        &self,
        scenario: &Scenario,
        group: usize,
        from: MemberId,
        to: MemberId,
    ) -> Link
        requires sender { from < member_count scenario.now }
        requires receiver { to < member_count scenario.now }
        requires group { group ≡ group_at scenario.now.groups to }
        requires ways { AreWaysOf scenario.now from self.now }
        ensures value { result ≡ link_between scenario.now to from }
        ensures sound { IsSoundLink result }
    {
        let _members = scenario.members();
        match item_at(self.back.as_slice(), group) {
            Some(link) => link,
            None => scenario.link_between(to, from),
        }
    }
}

/// The links from the members of a group, by the numbers of the receivers' groups, as many as are asked for.
fn links_from(
    alloc: Global,
    paths: &[Path],
    others: Link,
    group: usize,
    count: usize,
) -> Result<Vec<Link>, Memory>
    ensures { IfOk result (λ links. AreLinksBy (λ h. last_of others (leads group h) paths.now) links.items) }
{
    let mut links = filled(alloc, count, others)?;
    for path in paths {
        put_if(&mut links, path.from == group, path.to, path.link);
    }
    Ok(links)
}

/// The links to the members of a group, by the numbers of the senders' groups, as many as are asked for.
fn links_to(
    alloc: Global,
    paths: &[Path],
    others: Link,
    group: usize,
    count: usize,
) -> Result<Vec<Link>, Memory>
    ensures { IfOk result (λ links. AreLinksBy (λ h. last_of others (leads h group) paths.now) links.items) }
{
    let mut links = filled(alloc, count, others)?;
    for path in paths {
        put_if(&mut links, path.to == group, path.from, path.link);
    }
    Ok(links)
}

/// A list of so many times one link.
fn filled(alloc: Global, count: usize, link: Link) -> Result<Vec<Link>, Memory>
    ensures { IfOk result (λ links. links.items ≡ replicate count link) }
{
    let mut links = Vec::new(alloc);
    for _each in 0..count {
        links.push(link)?;
    }
    Ok(links)
}

/// Puts a link at a place of a list, where it is to be put and there is such a place.
fn put_if(links: &mut Vec<Link>, is_wanted: bool, place: usize, link: Link)
    ensures { links.new.items ≡ put_if is_wanted place link links.old.items }
{
    if is_wanted && place < links.len() {
        links[place] = link;
    }
}
