//! The least delay of a link between two members of a scenario, found from two members of each group.
ghost use Rattle.std.specs.Prelude.{◌≡◌, ◌<◌, length};
ghost use Rattle.links.specs.Table.{link_at};
ghost use Rattle.links.specs.Least.{IsLeast, IsLeastFrom, lesser_of, is_third, is_other};

use crate::table::Links;

/// The least delay from a member to another one. The delay of a pair is that of its groups, so of
/// each group the first two members stand for all.
pub(crate) fn least_delay(links: &Links) -> Option<u64>
    ensures { IsLeast (λ i j. (link_at links.now i j).delay) (length links.now.groups.items) result }
{
    if links.routes.links.is_empty() {
        return common_delay(links);
    }
    let mut least = None;
    for from in 0..links.groups.len() {
        if !is_third(links.groups.as_slice(), from) {
            least = lesser_delay(least, least_from(links, from));
        }
    }
    least
}

/// The delay of all pairs where no path is named, if there is a pair.
fn common_delay(links: &Links) -> Option<u64>
    requires { length links.now.routes.links.items ≡ 0 }
    ensures { IsLeast (λ i j. (link_at links.now i j).delay) (length links.now.groups.items) result }
{
    if links.groups.len() < 2 {
        return None;
    }
    Some(links.link.delay)
}

/// The least delay from this member to the first two others of each group.
fn least_from(links: &Links, from: usize) -> Option<u64>
    ensures { IsLeastFrom (is_other links.now.groups.items from) (λ to. (link_at links.now from to).delay)
        (length links.now.groups.items) result }
{
    let mut least = None;
    for to in 0..links.groups.len() {
        if is_other(links.groups.as_slice(), from, to) {
            least = lesser_delay(least, Some(links.link_between(from, to).delay));
        }
    }
    least
}

/// Whether it is another member than this one, and one of the first two of its group.
fn is_other(groups: &[usize], from: usize, to: usize) -> bool
    requires { to < length groups.now }
    ensures { result ≡ is_other groups.now from to }
{
    to != from && !is_third(groups, to)
}

/// Whether both members before this one have its group.
fn is_third(groups: &[usize], member: usize) -> bool
    requires { member < length groups.now }
    ensures { result ≡ is_third groups.now member }
{
    member >= 2 && groups[member - 1] == groups[member] && groups[member - 2] == groups[member]
}

/// The smaller of two, where there are both.
fn lesser_delay(one: Option<u64>, other: Option<u64>) -> Option<u64>
    ensures { result ≡ lesser_of one other }
{
    let Some(a) = one else { return other };
    let Some(b) = other else { return one };
    Some(a.min(b))
}
