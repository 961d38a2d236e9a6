//! Which link joins two groups: of several `[[path]]` entries for one pair of groups the last one counts.
ghost use Rattle.std.specs.Prelude.{◌≡◌, ℕ, ◌<◌, ◌≤◌, ◌&&◌, nat_eq, cond, map, filter, get_or, length, Some, IfOk, IfSome, OnOk, unwrap_or, vec_len, slice_get};
ghost use Rattle.std.specs.Option.{option_copied};
ghost use Rattle.scenario.specs.Setup.{leads, last_link};
ghost use Rattle.links.specs.Entries.{number_in, numbered, route, KeepsNumbers};

use base::Memory;
use scenario::{Link, Path};
use std::alloc::Global;

/// Among how many links an equal one is looked for: a text names many paths, but few different links.
const SEARCHED: usize = 64;

/// The links of paths, found by the numbers of two groups without a search.
#[derive(Drop)]
pub(crate) struct Routes {
    /// For each sending group, the number of its path to each receiving group. Numbers count from 1; 0 is no path.
    /// Groups past the last one that a path names have no place.
    pub(crate) rows: Vec<Vec<usize>>,
    /// The links of the paths. Of equal ones among the first, one stands for all: so a table that is used often stays small.
    pub(crate) links: Vec<Link>,
}

impl Routes {
    /// The link from one group to another, if a path names them.
    pub(crate) fn link(&self, from: usize, to: usize) -> Option<&Link>
        ensures { option_copied result ≡ route self.now from to }
    {
        let number = self.number(from, to);
        if number == 0 {
            return None;
        }
        self.links.get(number - 1)
    }

    /// The number of the path from one group to another, 0 if none names them.
    fn number(&self, from: usize, to: usize) -> usize
        ensures { result ≡ number_in self.now.rows.items from to }
    {
        match self.rows.get(from) {
            Some(row) => number_at(row.as_slice(), to),
            None => 0,
        }
    }
}

/// The link of the last path between each two groups that a path names.
pub(crate) fn routes_of(alloc: Global, paths: &[Path]) -> Result<Routes, Memory>
    ensures { IfOk result (λ routes. (link : _) (from to : ℕ) → unwrap_or (route routes from to) link
        ≡ last_link link (map (λ p. p.link) (filter (leads from to) paths.now))) }
{
    let mut routes = Routes {
        rows: Vec::new(alloc),
        links: Vec::new(alloc),
    };
    for path in paths {
        let number = number_of(&mut routes.links, path.link)?;
        number_path(alloc, &mut routes.rows, path, number)?;
    }
    Ok(routes)
}

/// The number of a link: that of an equal one, or the next one, which it takes.
fn number_of(links: &mut Vec<Link>, link: Link) -> Result<usize, Memory>
    ensures kept { OnOk result (KeepsNumbers links.old.items links.new.items) }
    ensures numbered { IfOk result (λ number. (number ≤ length links.new.items) × (numbered links.new.items number ≡ Some link)) }
{
    if let Some(place) = place_of_equal(links.as_slice(), &link) {
        return Ok(place + 1);
    }
    links.push(link)?;
    Ok(links.len())
}

/// The place of an equal link, looked for among the first `SEARCHED`.
fn place_of_equal(links: &[Link], link: &Link) -> Option<usize>
    ensures { IfSome result (λ place. (place < length links.now) × (slice_get links.now place ≡ Some link.now)) }
{
    for place in 0..links.len().min(SEARCHED) {
        if links[place] == *link {
            return Some(place);
        }
    }
    None
}

/// Gives a number to the groups that a path joins.
fn number_path(
    alloc: Global,
    rows: &mut Vec<Vec<usize>>,
    path: &Path,
    number: usize,
) -> Result<(), Memory>
    ensures { OnOk result ((from to : ℕ) → number_in rows.new.items from to
        ≡ cond (leads from to path.now) number (number_in rows.old.items from to)) }
{
    make_rows(alloc, rows, path.from)?;
    put_number(&mut rows[path.from], path.to, number)
}

/// The number at a group's place of a row, 0 past its end.
fn number_at(row: &[usize], group: usize) -> usize
    ensures { result ≡ get_or row.now group 0 }
{
    match row.get(group) {
        Some(number) => *number,
        None => 0,
    }
}

/// Makes a row for this group; new rows are empty.
fn make_rows(alloc: Global, rows: &mut Vec<Vec<usize>>, group: usize) -> Result<(), Memory>
    ensures same { (from to : ℕ) → number_in rows.new.items from to ≡ number_in rows.old.items from to }
    ensures room { OnOk result (group < vec_len rows.new) }
{
    while rows.len() <= group {
        rows.push(Vec::new(alloc))?;
    }
    Ok(())
}

/// Puts a number at a group's place of a row.
fn put_number(row: &mut Vec<usize>, group: usize, number: usize) -> Result<(), Memory>
    ensures { OnOk result ((to : ℕ) → get_or row.new.items to 0 ≡ cond (nat_eq group to) number (get_or row.old.items to 0)) }
{
    make_places(row, group)?;
    row[group] = number;
    Ok(())
}

/// Makes a place for this group in a row; 0 stands in new places.
fn make_places(row: &mut Vec<usize>, group: usize) -> Result<(), Memory>
    ensures same { (to : ℕ) → get_or row.new.items to 0 ≡ get_or row.old.items to 0 }
    ensures room { OnOk result (group < vec_len row.new) }
{
    while row.len() <= group {
        row.push(0)?;
    }
    Ok(())
}
