//! The names and starts of all members, which are numbered in the order of groups.
ghost use Rattle.std.specs.Prelude.{◌≡◌, ◌++◌, length, map, flat_map, replicate, string_bytes, sum_by, IfOk, OnOk};
ghost use Rattle.scenario.specs.Setup.{names_below, names_in};
ghost use Rattle.written_names.specs.Roster.{group_of};

use base::{Memory, Moment};
use std::alloc::Global;
use written_names::WrittenGroup;

/// The names of all members.
///
/// # Errors
///
/// Memory was refused.
pub fn member_names(alloc: Global, groups: &[WrittenGroup]) -> Result<Vec<String>, Memory>
    ensures { IfOk result (λ names. map string_bytes names.items ≡ flat_map (λ group. names_in (group_of group)) groups.now) }
{
    let mut names = Vec::new(alloc);
    for group in groups {
        add_names(alloc, &mut names, group.name.as_str(), group.count)?;
    }
    Ok(names)
}

/// Adds the names of a group's members.
fn add_names(alloc: Global, names: &mut Vec<String>, group: &str, count: u64) -> Result<(), Memory>
    ensures { OnOk result (map string_bytes names.new.items ≡ map string_bytes names.old.items ++ names_below group.now count) }
{
    for index in 0..count {
        let Ok(name) = format!(in alloc; "{group}-{index}") else {
            return Err(Memory);
        };
        names.push(name)?;
    }
    Ok(())
}

/// When all members start.
///
/// # Errors
///
/// Memory was refused.
pub fn member_starts(alloc: Global, groups: &[WrittenGroup]) -> Result<Vec<Moment>, Memory>
    ensures starts { IfOk result (λ starts. starts.items ≡ flat_map (λ group. replicate group.count group.start) groups.now) }
    ensures count { IfOk result (λ starts. length starts.items ≡ sum_by (λ group. group.count) groups.now) }
{
    let mut starts = Vec::new(alloc);
    for group in groups {
        add_starts(&mut starts, group.start, group.count)?;
    }
    Ok(starts)
}

/// Adds when a group's members start.
fn add_starts(starts: &mut Vec<Moment>, start: Moment, count: u64) -> Result<(), Memory>
    ensures { OnOk result (starts.new.items ≡ starts.old.items ++ replicate count start) }
{
    for _member in 0..count {
        starts.push(start)?;
    }
    Ok(())
}
