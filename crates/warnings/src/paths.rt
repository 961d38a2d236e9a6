//! Warnings about paths: hidden by a later path, within a group of a single member, or losing every message.
ghost use Rattle.std.specs.Prelude.{◌≡◌, ◌++◌, OnOk};
ghost use Rattle.warnings.specs.Conditions.{is_lonely, is_lost};
ghost use Rattle.meaning.specs.Each.{made_at, made_of_each};
ghost use Rattle.warnings.specs.Told.{told_of_path};
ghost use Rattle.meaning.specs.Groups.{groups_of, is_hidden};

use crate::list::push_if;
use crate::settings::is_lost;
use crate::warning::Warning;
use base::Memory;
use meaning::{groups_of, is_hidden, item_at, size_of};
use scenario::{Path, Scenario};
use std::alloc::Global;

/// Appends the warnings about each path.
pub(crate) fn push_paths(
    alloc: Global,
    told: &mut Vec<Warning>,
    scenario: &Scenario,
) -> Result<(), Memory>
    ensures { OnOk result (told.new.items ≡ told.old.items ++ made_of_each (told_of_path scenario.now) scenario.now.paths) }
{
    let groups = groups_of(alloc, scenario)?;
    for place in 0..scenario.paths().len() {
        push_path(told, scenario, groups.as_slice(), place)?;
    }
    Ok(())
}

/// Appends the warnings about the path at this place.
#[tactic(auto, unfolding(crate::specs::Told::told_of_path))]
fn push_path(
    told: &mut Vec<Warning>,
    scenario: &Scenario,
    groups: &[usize],
    place: usize,
) -> Result<(), Memory>
    requires { groups.now ≡ groups_of scenario.now }
    ensures { OnOk result (told.new.items
        ≡ told.old.items ++ made_at (told_of_path scenario.now) scenario.now.paths place) }
{
    let paths = scenario.paths();
    let Some(path) = item_at(paths, place) else {
        return Ok(());
    };
    let hidden = is_hidden(paths, place, &path);
    push_if(told, hidden, Warning::HiddenPath(place))?;
    push_if(told, is_lonely(groups, &path), Warning::LonelyPath(place))?;
    push_if(
        told,
        !hidden && is_lost(scenario, path.link),
        Warning::LostOnPath(place),
    )
}

/// Whether it is a path from a group to itself that has at most one of the members of these groups.
fn is_lonely(groups: &[usize], path: &Path) -> bool
    ensures { result ≡ is_lonely groups.now path.now }
{
    path.from == path.to && size_of(groups, path.from) <= 1
}
