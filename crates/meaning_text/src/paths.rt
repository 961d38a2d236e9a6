//! The lines on the network: the link of all pairs, the paths that decide, a window's length
//! and the greatest round trip.
ghost use Rattle.std.specs.Prelude.{◌≡◌, ◌++◌, ◌<◌, OnOk, length};
ghost use Rattle.std.specs.String.{string_bytes};
ghost use Rattle.meaning.specs.Each.{made_at};
ghost use Rattle.meaning.specs.Groups.{groups_of};
ghost use Rattle.meaning_text.specs.Lines.{link_line, path_line, path_text, path_lines, trip_lines};

use crate::groups::push_count;
use meaning::{group_name, is_hidden, item_at};
use scenario::{Link, Path, Scenario};
use std::alloc::AllocError;

/// Appends what the link of all pairs does.
#[tactic(auto, unfolding(crate::specs::Lines::link_line))]
pub(crate) fn push_link(text: &mut String, scenario: &Scenario) -> Result<(), AllocError>
    ensures { OnOk result (string_bytes text.new ≡ string_bytes text.old ++ link_line scenario.now) }
{
    let Link {
        delay,
        jitter,
        loss,
    } = scenario.link();
    writeln!(text, "link delay {delay} jitter {jitter} loss {loss}")
}

/// Appends the paths that decide.
#[tactic(auto, unfolding(crate::specs::Lines::path_lines))]
pub(crate) fn push_paths(
    text: &mut String,
    scenario: &Scenario,
    groups: &[usize],
) -> Result<(), AllocError>
    requires { groups.now ≡ groups_of scenario.now }
    ensures { OnOk result (string_bytes text.new ≡ string_bytes text.old ++ path_lines scenario.now) }
{
    for place in 0..scenario.paths().len() {
        push_path_at(text, scenario, groups, place)?;
    }
    Ok(())
}

/// Appends the path at this place, if it decides.
fn push_path_at(
    text: &mut String,
    scenario: &Scenario,
    groups: &[usize],
    place: usize,
) -> Result<(), AllocError>
    requires { groups.now ≡ groups_of scenario.now }
    ensures { OnOk result (string_bytes text.new
        ≡ string_bytes text.old ++ made_at (path_line scenario.now) scenario.now.paths place) }
{
    let paths = scenario.paths();
    let Some(path) = item_at(paths, place) else {
        return Ok(());
    };
    if is_hidden(paths, place, &path) {
        Ok(())
    } else {
        push_path(text, scenario, groups, place, &path)
    }
}

/// Appends a path: its number in the text, between which groups it is, and what its link does.
#[tactic(auto, unfolding(crate::specs::Lines::path_text))]
fn push_path(
    text: &mut String,
    scenario: &Scenario,
    groups: &[usize],
    place: usize,
    path: &Path,
) -> Result<(), AllocError>
    requires groups { groups.now ≡ groups_of scenario.now }
    requires place { place < length scenario.now.paths }
    ensures { OnOk result (string_bytes text.new ≡ string_bytes text.old ++ path_text scenario.now place path.now) }
{
    let _paths = scenario.paths();
    let number = place + 1;
    let from = group_name(scenario, groups, path.from);
    let to = group_name(scenario, groups, path.to);
    let Link {
        delay,
        jitter,
        loss,
    } = path.link;
    writeln!(
        text,
        "path {number} {from} {to} delay {delay} jitter {jitter} loss {loss}"
    )
}

/// Appends the length of a window and the greatest round trip, where there are two members.
#[tactic(auto, unfolding(crate::specs::Lines::trip_lines))]
pub(crate) fn push_trips(
    text: &mut String,
    window: Option<u64>,
    trip: u64,
) -> Result<(), AllocError>
    ensures { OnOk result (string_bytes text.new ≡ string_bytes text.old ++ trip_lines window trip) }
{
    match window {
        Some(window) => {
            push_count(text, "window", window)?;
            push_count(text, "round-trip", trip)
        }
        None => Ok(()),
    }
}
