//! The lists of a document that breaks no rule: groups, paths, slow times, crashes, leaves, cuts,
//! pauses, restarts and blocks.
ghost use Rattle.std.specs.Prelude.{◌≡◌, ◌≤◌, ◌<◌, ◌++◌, [], ◌∷◌, map, sum_by, flat_map, string_bytes, option_and_then, IfOk, OnOk};
ghost use Rattle.toml.specs.View.{view};
ghost use Rattle.schema.specs.Values.{text_if};
ghost use Rattle.scenario.specs.Setup.{names_in, names_below};
ghost use Rattle.scenario.specs.SetupOf.{group_of};
ghost use Rattle.scenario_reader.specs.Reading.{slows_in, crashes_in, leaves_in, cuts_in, pauses_in, restarts_in, blocks_in, pause_in, restart_in, plain_group, group_in, member_named, group_named, group_at_key, member_at, link_over, path_in, slow_in, crash_in, leave_in, cut_in};

use crate::additions::{added_items, fourth_items, pause_items};
use crate::roster::{Found, Roster};
use base::{MemberId, Memory, Moment};
use scenario::{Crash, Cut, Group, Leave, Link, Path, Pause, Restart, Slow};
use schema::{FormatKey, Section, Version, items_at, number, text, text_if, whole_or};
use std::alloc::Global;
use std::slice;
use toml::Value;

/// How many members a group has.
pub(crate) fn count_of(group: &Value) -> u64
    ensures { result ≡ (plain_group (view group.now)).count }
{
    number(Section::Group, FormatKey::Count, Some(group))
}

/// The groups in their order.
pub(crate) fn read_groups(
    alloc: Global,
    roster: &Roster,
    list: &[Value],
) -> Result<Vec<Group>, Memory>
    requires at_most_16384 { sum_by (λ g. g.count) roster.now ≤ 16384 }
    ensures { IfOk result (λ groups. map group_of groups.items ≡ map (λ v. group_in roster.now (view v)) list.now) }
{
    let mut groups = Vec::new(alloc);
    for item in list {
        let Ok(group) = read_group(alloc, roster, item) else {
            return Err(Memory);
        };
        groups.push(group)?;
    }
    Ok(groups)
}

/// One group.
fn read_group(alloc: Global, roster: &Roster, item: &Value) -> Result<Group, Memory>
    requires at_most_16384 { sum_by (λ g. g.count) roster.now ≤ 16384 }
    ensures { IfOk result (λ group. group_of group ≡ group_in roster.now (view item.now)) }
{
    let Ok(name) = String::from_str(alloc, text(FormatKey::Name, item)) else {
        return Err(Memory);
    };
    Ok(Group {
        name,
        count: count_of(item),
        start: Moment(number(Section::Group, FormatKey::Start, Some(item))),
        contact: read_contact(roster, item),
    })
}

/// Whom the members of a group, or one that starts again, ask to let them join.
fn read_contact(roster: &Roster, group: &Value) -> Option<MemberId>
    requires at_most_16384 { sum_by (λ g. g.count) roster.now ≤ 16384 }
    ensures { result ≡ option_and_then (member_named roster.now) (text_if FormatKey.Contact (view group.now)) }
{
    match text_if(FormatKey::Contact, group) {
        Some(name) => match roster.find(name) {
            Some(found) => Some(MemberId(found.number as u16)),
            None => None,
        },
        None => None,
    }
}

/// The paths in their order; `link` has what they leave out.
pub(crate) fn read_paths(
    alloc: Global,
    roster: &Roster,
    link: Link,
    list: &[Value],
) -> Result<Vec<Path>, Memory>
    ensures { IfOk result (λ paths. paths.items ≡ map (λ v. path_in roster.now link (view v)) list.now) }
{
    let mut paths = Vec::new(alloc);
    for item in list {
        paths.push(read_path(roster, link, item))?;
    }
    Ok(paths)
}

/// One path.
fn read_path(roster: &Roster, link: Link, item: &Value) -> Path
    ensures { result ≡ path_in roster.now link (view item.now) }
{
    Path {
        from: group_at(roster, FormatKey::From, item),
        to: group_at(roster, FormatKey::To, item),
        link: link_over(link, item),
    }
}

/// The number of the group that a key names.
fn group_at(roster: &Roster, key: FormatKey, item: &Value) -> usize
    ensures { result ≡ group_at_key roster.now key (view item.now) }
{
    match roster.group(text(key, item)) {
        Some(number) => number,
        None => 0,
    }
}

/// The link, with the numbers of the path that are there.
fn link_over(link: Link, path: &Value) -> Link
    ensures { result ≡ link_over link (view path.now) }
{
    Link {
        delay: whole_or(link.delay, path.get(FormatKey::Delay.text())),
        jitter: whole_or(link.jitter, path.get(FormatKey::Jitter.text())),
        loss: whole_or(link.loss, path.get(FormatKey::Loss.text())),
    }
}

/// What happens to members and links at moments that the text names.
#[derive(Drop)]
pub(crate) struct Script {
    pub(crate) slows: Vec<Slow>,
    pub(crate) crashes: Vec<Crash>,
    pub(crate) leaves: Vec<Leave>,
    pub(crate) cuts: Vec<Cut>,
    pub(crate) pauses: Vec<Pause>,
}

/// The slow times, crashes, leaves, cuts and pauses, each in their order.
pub(crate) fn read_script(
    alloc: Global,
    version: Version,
    roster: &Roster,
    tree: &Value,
) -> Result<Script, Memory>
    requires at_most_16384 { sum_by (λ g. g.count) roster.now ≤ 16384 }
    ensures slows { IfOk result (λ s. s.slows.items ≡ slows_in roster.now (view tree.now)) }
    ensures crashes { IfOk result (λ s. s.crashes.items ≡ crashes_in roster.now (view tree.now)) }
    ensures leaves { IfOk result (λ s. s.leaves.items ≡ leaves_in version roster.now (view tree.now)) }
    ensures cuts { IfOk result (λ s. s.cuts.items ≡ cuts_in version roster.now (view tree.now)) }
    ensures pauses { IfOk result (λ s. s.pauses.items ≡ pauses_in version roster.now (view tree.now)) }
{
    let Ok(slows) = read_slows(alloc, roster, items_at(FormatKey::Slow, tree)) else {
        return Err(Memory);
    };
    let Ok(crashes) = read_crashes(alloc, roster, items_at(FormatKey::Crash, tree)) else {
        return Err(Memory);
    };
    let Ok(leaves) = read_leaves(alloc, roster, added_items(version, FormatKey::Leave, tree)) else {
        return Err(Memory);
    };
    let Ok(cuts) = read_cuts(alloc, roster, added_items(version, FormatKey::Cut, tree)) else {
        return Err(Memory);
    };
    let Ok(pauses) = read_pauses(alloc, roster, pause_items(version, tree)) else {
        return Err(Memory);
    };
    Ok(Script {
        slows,
        crashes,
        leaves,
        cuts,
        pauses,
    })
}

/// What version 4 adds to this.
#[derive(Drop)]
pub(crate) struct FourthScript {
    pub(crate) restarts: Vec<Restart>,
    pub(crate) blocks: Vec<Pause>,
}

/// The restarts and blocks, each in their order.
pub(crate) fn read_fourth_script(
    alloc: Global,
    version: Version,
    roster: &Roster,
    tree: &Value,
) -> Result<FourthScript, Memory>
    requires at_most_16384 { sum_by (λ g. g.count) roster.now ≤ 16384 }
    ensures restarts { IfOk result (λ s. s.restarts.items ≡ restarts_in version roster.now (view tree.now)) }
    ensures blocks { IfOk result (λ s. s.blocks.items ≡ blocks_in version roster.now (view tree.now)) }
{
    let Ok(restarts) = read_restarts(
        alloc,
        roster,
        fourth_items(version, FormatKey::Restart, tree),
    ) else {
        return Err(Memory);
    };
    let Ok(blocks) = read_pauses(alloc, roster, fourth_items(version, FormatKey::Block, tree))
    else {
        return Err(Memory);
    };
    Ok(FourthScript { restarts, blocks })
}

/// The restarts in their order.
fn read_restarts(alloc: Global, roster: &Roster, list: &[Value]) -> Result<Vec<Restart>, Memory>
    requires at_most_16384 { sum_by (λ g. g.count) roster.now ≤ 16384 }
    ensures { IfOk result (λ restarts. restarts.items ≡ map (λ v. restart_in roster.now (view v)) list.now) }
{
    let mut restarts = Vec::new(alloc);
    for item in list {
        let restart = read_restart(roster, item);
        put_restart(&mut restarts, &restart)?;
    }
    Ok(restarts)
}

/// Puts a copy of the restart at the end of a list.
fn put_restart(restarts: &mut Vec<Restart>, restart: &Restart) -> Result<(), Memory>
    ensures { OnOk result (restarts.new.items ≡ restarts.old.items ++ restart.now ∷ []) }
{
    restarts.extend_from_slice(slice::from_ref(restart))?;
    Ok(())
}

/// One restart.
fn read_restart(roster: &Roster, item: &Value) -> Restart
    requires at_most_16384 { sum_by (λ g. g.count) roster.now ≤ 16384 }
    ensures { result ≡ restart_in roster.now (view item.now) }
{
    Restart {
        member: member_at(roster, item),
        at: Moment(number(Section::Restart, FormatKey::At, Some(item))),
        contact: read_contact(roster, item),
    }
}

/// The times in which members are slow, in their order.
fn read_slows(alloc: Global, roster: &Roster, list: &[Value]) -> Result<Vec<Slow>, Memory>
    requires at_most_16384 { sum_by (λ g. g.count) roster.now ≤ 16384 }
    ensures { IfOk result (λ slows. slows.items ≡ map (λ v. slow_in roster.now (view v)) list.now) }
{
    let mut slows = Vec::new(alloc);
    for item in list {
        slows.push(read_slow(roster, item))?;
    }
    Ok(slows)
}

/// One time in which a member is slow.
fn read_slow(roster: &Roster, item: &Value) -> Slow
    requires at_most_16384 { sum_by (λ g. g.count) roster.now ≤ 16384 }
    ensures { result ≡ slow_in roster.now (view item.now) }
{
    Slow {
        member: member_at(roster, item),
        from: Moment(number(Section::Slow, FormatKey::From, Some(item))),
        until: Moment(number(Section::Slow, FormatKey::Until, Some(item))),
        extra: number(Section::Slow, FormatKey::Extra, Some(item)),
    }
}

/// The crashes in their order.
fn read_crashes(alloc: Global, roster: &Roster, list: &[Value]) -> Result<Vec<Crash>, Memory>
    requires at_most_16384 { sum_by (λ g. g.count) roster.now ≤ 16384 }
    ensures { IfOk result (λ crashes. crashes.items ≡ map (λ v. crash_in roster.now (view v)) list.now) }
{
    let mut crashes = Vec::new(alloc);
    for item in list {
        crashes.push(read_crash(roster, item))?;
    }
    Ok(crashes)
}

/// One crash.
fn read_crash(roster: &Roster, item: &Value) -> Crash
    requires at_most_16384 { sum_by (λ g. g.count) roster.now ≤ 16384 }
    ensures { result ≡ crash_in roster.now (view item.now) }
{
    Crash {
        member: member_at(roster, item),
        at: Moment(number(Section::Departure, FormatKey::At, Some(item))),
    }
}

/// The leaves in their order.
fn read_leaves(alloc: Global, roster: &Roster, list: &[Value]) -> Result<Vec<Leave>, Memory>
    requires at_most_16384 { sum_by (λ g. g.count) roster.now ≤ 16384 }
    ensures { IfOk result (λ leaves. leaves.items ≡ map (λ v. leave_in roster.now (view v)) list.now) }
{
    let mut leaves = Vec::new(alloc);
    for item in list {
        leaves.push(read_leave(roster, item))?;
    }
    Ok(leaves)
}

/// One leave.
fn read_leave(roster: &Roster, item: &Value) -> Leave
    requires at_most_16384 { sum_by (λ g. g.count) roster.now ≤ 16384 }
    ensures { result ≡ leave_in roster.now (view item.now) }
{
    Leave {
        member: member_at(roster, item),
        at: Moment(number(Section::Departure, FormatKey::At, Some(item))),
    }
}

/// The cuts in their order.
fn read_cuts(alloc: Global, roster: &Roster, list: &[Value]) -> Result<Vec<Cut>, Memory>
    ensures { IfOk result (λ cuts. cuts.items ≡ map (λ v. cut_in roster.now (view v)) list.now) }
{
    let mut cuts = Vec::new(alloc);
    for item in list {
        cuts.push(read_cut(roster, item))?;
    }
    Ok(cuts)
}

/// One cut.
fn read_cut(roster: &Roster, item: &Value) -> Cut
    ensures { result ≡ cut_in roster.now (view item.now) }
{
    Cut {
        from: group_at(roster, FormatKey::From, item),
        to: group_at(roster, FormatKey::To, item),
        at: Moment(number(Section::Cut, FormatKey::At, Some(item))),
        until: Moment(number(Section::Cut, FormatKey::Until, Some(item))),
    }
}

/// The pauses or blocks in their order.
fn read_pauses(alloc: Global, roster: &Roster, list: &[Value]) -> Result<Vec<Pause>, Memory>
    requires at_most_16384 { sum_by (λ g. g.count) roster.now ≤ 16384 }
    ensures { IfOk result (λ pauses. pauses.items ≡ map (λ v. pause_in roster.now (view v)) list.now) }
{
    let mut pauses = Vec::new(alloc);
    for item in list {
        pauses.push(read_pause(roster, item))?;
    }
    Ok(pauses)
}

/// One pause or block.
fn read_pause(roster: &Roster, item: &Value) -> Pause
    requires at_most_16384 { sum_by (λ g. g.count) roster.now ≤ 16384 }
    ensures { result ≡ pause_in roster.now (view item.now) }
{
    Pause {
        member: member_at(roster, item),
        from: Moment(number(Section::Pause, FormatKey::From, Some(item))),
        until: Moment(number(Section::Pause, FormatKey::Until, Some(item))),
    }
}

/// The member of which an item speaks.
fn member_at(roster: &Roster, item: &Value) -> MemberId
    requires at_most_16384 { sum_by (λ g. g.count) roster.now ≤ 16384 }
    ensures { result ≡ member_at roster.now FormatKey.Member (view item.now) }
{
    match roster.find(text(FormatKey::Member, item)) {
        Some(found) => MemberId(found.number as u16),
        None => MemberId(0),
    }
}

/// The names of all members: those of the first group first.
pub(crate) fn list_names(alloc: Global, list: &[Value]) -> Result<Vec<String>, Memory>
    ensures { IfOk result (λ names. map string_bytes names.items ≡ flat_map (λ g. names_in (plain_group (view g))) list.now) }
{
    let mut names = Vec::new(alloc);
    for group in list {
        add_names(
            alloc,
            &mut names,
            text(FormatKey::Name, group),
            count_of(group),
        )?;
    }
    Ok(names)
}

/// Adds the names of a group's members.
fn add_names(alloc: Global, names: &mut Vec<String>, group: &str, count: u64) -> Result<(), Memory>
    ensures { OnOk result (map string_bytes names.new.items ≡ map string_bytes names.old.items ++ names_below group.now count) }
{
    for index in 0..count {
        let Ok(name) = format!(in alloc; "{group}-{index}") else {
            return Err(Memory);
        };
        names.push(name)?;
    }
    Ok(())
}
