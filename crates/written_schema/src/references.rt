//! Which of the rules 7 and 9 a document breaks: contacts of groups, ends of paths and cuts, and the timeout.
ghost use Rattle.std.specs.Prelude.{◌≡◌, option_map};
ghost use Rattle.toml.specs.View.{view};
ghost use Rattle.lengths.specs.Lengths.{IsTick};
ghost use Rattle.scenario_reader.specs.Rules.{names_no_group};
ghost use Rattle.written_schema.specs.Lowest.{Lowest};
ghost use Rattle.written_schema.specs.References.{contact_rule, IsContactRule, IsCutRule, IsPathRule, IsReferenceRule, IsTimeoutRule};

use crate::values::{NO_RULE, rule_if};
use base::limits::LATEST_MOMENT;
use schema::{FormatKey, items_at, text, text_if};
use toml::Value;
use written_groups::number_at;
use written_names::Roster;

/// The longest period, and the longest timeout, in ticks.
const LONGEST: u64 = 0x100_0000;

/// The lowest of rules 7 and 9 that groups, paths, cuts and the timeout of a document break; else 255. `roster` is the
/// document's groups; a tick has so many microseconds.
pub fn reference_rule(document: &Value, roster: &Roster, tick: u64) -> u8
    requires { IsTick tick }
    ensures { IsReferenceRule tick roster.now (view document.now) result }
{
    let contacts = contacts_rule(items_at(FormatKey::Group, document), roster, tick);
    let paths = paths_rule(items_at(FormatKey::Path, document), roster);
    let cuts = cuts_rule(items_at(FormatKey::Cut, document), roster, tick);
    let timeout = timeout_rule(document.get("swim"), tick);
    contacts.min(paths).min(cuts).min(timeout)
}

/// The lowest rule that the contact of one of these groups breaks.
fn contacts_rule(groups: &[Value], roster: &Roster, tick: u64) -> u8
    requires { IsTick tick }
    ensures { Lowest (λ v. IsContactRule tick roster.now (view v)) groups.now result }
{
    let mut low = NO_RULE;
    for group in groups {
        low = low.min(contact_rule(group, roster, tick));
    }
    low
}

/// The rule that a group's contact breaks.
fn contact_rule(group: &Value, roster: &Roster, tick: u64) -> u8
    requires { IsTick tick }
    ensures { IsContactRule tick roster.now (view group.now) result }
{
    let start = number_at(group, "start", tick, 0, LATEST_MOMENT);
    asked_rule(text_if(FormatKey::Contact, group), roster, start)
}

/// Rule 7 of a contact that is nobody; rule 9 of one of a group that starts at 0, and of one that itself starts later.
fn asked_rule(contact: Option<&str>, roster: &Roster, start: u64) -> u8
    ensures { result ≡ contact_rule roster.now start (option_map (λ t. t.now) contact.entry) }
{
    match contact {
        Some(name) => match roster.find(name) {
            Some(found) => rule_if(start == 0 || found.start.ticks() > 0, 9),
            None => 7,
        },
        None => NO_RULE,
    }
}

/// The lowest rule that one of these paths breaks.
fn paths_rule(paths: &[Value], roster: &Roster) -> u8
    ensures { Lowest (λ v. IsPathRule roster.now (view v)) paths.now result }
{
    let mut low = NO_RULE;
    for path in paths {
        low = low.min(path_rule(path, roster));
    }
    low
}

/// The rule that a path breaks.
fn path_rule(path: &Value, roster: &Roster) -> u8
    ensures { IsPathRule roster.now (view path.now) result }
{
    rule_if(names_no_group(path, roster), 7)
}

/// The lowest rule that one of these cuts breaks.
fn cuts_rule(cuts: &[Value], roster: &Roster, tick: u64) -> u8
    requires { IsTick tick }
    ensures { Lowest (λ v. IsCutRule tick roster.now (view v)) cuts.now result }
{
    let mut low = NO_RULE;
    for cut in cuts {
        low = low.min(cut_rule(cut, roster, tick));
    }
    low
}

/// The rule that a cut breaks.
fn cut_rule(cut: &Value, roster: &Roster, tick: u64) -> u8
    requires { IsTick tick }
    ensures { IsCutRule tick roster.now (view cut.now) result }
{
    let at = number_at(cut, "at", tick, 0, LATEST_MOMENT);
    let until = number_at(cut, "until", tick, 0, LATEST_MOMENT);
    if names_no_group(cut, roster) {
        7
    } else {
        rule_if(until <= at, 9)
    }
}

/// Whether a path or a cut is from or to a group that isn't there.
fn names_no_group(item: &Value, roster: &Roster) -> bool
    ensures { result ≡ names_no_group roster.now (view item.now) }
{
    roster.group(text(FormatKey::From, item)).is_none()
        || roster.group(text(FormatKey::To, item)).is_none()
}

/// Rule 9 where the timeout isn't below the period.
fn timeout_rule(swim: Option<&Value>, tick: u64) -> u8
    requires { IsTick tick }
    ensures { IsTimeoutRule tick (option_map (λ v. view v.now) swim.entry) result }
{
    match swim {
        Some(swim) => {
            let period = number_at(swim, "period", tick, 2, LONGEST);
            let timeout = number_at(swim, "timeout", tick, 1, LONGEST);
            rule_if(period <= timeout, 9)
        }
        None => 9,
    }
}
