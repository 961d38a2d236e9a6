//! How one false death came about.
ghost use Rattle.std.specs.Prelude.{◌≡◌, ◌+◌, ◌<◌, ◌++◌, nat_le, false, Bool, Some, OnOk, List, slice_get};
ghost use Rattle.std.specs.String.{string_bytes};
ghost use Rattle.std.specs.Option.{option_map_or};
ghost use Rattle.scenario.specs.Setup.{member_count};
ghost use Rattle.series.specs.Accusers.{AreAccusers};
ghost use Rattle.series.specs.declared.accusers.Accusation.{Accusation as AnAccusation};
ghost use Rattle.series.specs.Deaths.{Reached, IsDeathOf};
ghost use Rattle.false_deaths.specs.Causes.{cause, cause_opening, cause_words, declared_by, declared_words, declared_item, own_opening, own_item, since_first, own_told, refuted_item, refuted_told, later_item, AreNamed, CanTell};

use crate::accusers::{began, push_accusers, push_line};
use crate::troubles::push_states;
use base::{MemberId, Moment};
use drawing::{push_escaped, push_grouped, push_timed};
use scenario::Scenario;
use series::{Accusers, Death, Refutation, TraceLine};
use std::alloc::AllocError;
use ticks::Tick;

/// Appends how a false death came about.
pub(crate) fn push_death(
    text: &mut String,
    time: Option<Tick>,
    scenario: &Scenario,
    death: &Death,
) -> Result<(), AllocError>
    requires { CanTell scenario.now death.now }
    ensures { OnOk result ((r : Reached) → IsDeathOf death.now r → string_bytes text.new ≡ string_bytes text.old ++ cause time scenario.now r) }
{
    let refutation = death.standing.refuted();
    push_words(
        text,
        time,
        scenario,
        death.subject,
        &death.line,
        death.number,
        is_later(death),
        death.standing.accusers(),
        &refutation,
        death.standing.heard(),
    )
}

/// Whether the member was suspected under a higher number before.
fn is_later(death: &Death) -> bool
    ensures { result ≡ option_map_or (nat_le (death.now.number + 1)) death.now.standing.suspected false }
{
    match death.standing.suspected() {
        Some(number) => death.number < number,
        None => false,
    }
}

/// Appends how the death of a member came about that is declared on a line, under a number, after
/// these accusations.
#[tactic(auto, unfolding(crate::specs::Causes::cause_words))]
fn push_words(
    text: &mut String,
    time: Option<Tick>,
    scenario: &Scenario,
    subject: MemberId,
    line: &TraceLine,
    number: u64,
    is_later: bool,
    accusers: &Accusers,
    refutation: &Option<Refutation>,
    heard: u64,
) -> Result<(), AllocError>
    requires subject { subject < member_count scenario.now }
    requires by { line.now.member < member_count scenario.now }
    requires accusers { (list : List AnAccusation) × AreAccusers accusers.now list × AreNamed scenario.now list }
    ensures { OnOk result ((list : List AnAccusation) → AreAccusers accusers.now list
        → string_bytes text.new ≡ string_bytes text.old ++ cause_words time scenario.now subject line.now number is_later list refutation.now heard) }
{
    open_cause(text, time, scenario.name(subject), line.at.ticks())?;
    push_declared(text, time, scenario, line, number)?;
    let since = since_first(accusers, line.at);
    push_own_told(
        text, time, scenario, subject, since, line.at, refutation, heard,
    )?;
    push_later(text, is_later)?;
    push_accusers(text, time, scenario, accusers)?;
    text.push_str("</ul></div>\n")?;
    Ok(())
}

/// Begins what is shown of the death of a member of that name.
#[tactic(auto, unfolding(crate::specs::Causes::cause_opening))]
fn open_cause(text: &mut String, time: Option<Tick>, name: &str, at: u64) -> Result<(), AllocError>
    ensures { OnOk result (string_bytes text.new ≡ string_bytes text.old ++ cause_opening time name.now at) }
{
    text.push_str("<div class=\"cause\"><h3>")?;
    push_escaped(text, name)?;
    text.push_str(" at ")?;
    push_timed(text, time, at)?;
    text.push_str("</h3><ul>")?;
    Ok(())
}

/// Appends who declared the member dead, on which line and under which number, and what that one was.
#[tactic(auto, unfolding(crate::specs::Causes::declared_item))]
fn push_declared(
    text: &mut String,
    time: Option<Tick>,
    scenario: &Scenario,
    line: &TraceLine,
    number: u64,
) -> Result<(), AllocError>
    requires { line.now.member < member_count scenario.now }
    ensures { OnOk result (string_bytes text.new ≡ string_bytes text.old ++ declared_item time scenario.now line.now number) }
{
    push_declared_by(text, scenario.name(line.member), line.number, number)?;
    push_states(text, time, scenario, line.member, line.at, line.at)?;
    text.push_str("</li>")?;
    Ok(())
}

/// Appends who declared the member dead: one of that name.
#[tactic(auto, unfolding(crate::specs::Causes::declared_by))]
fn push_declared_by(text: &mut String, name: &str, line: u64, number: u64) -> Result<(), AllocError>
    ensures { OnOk result (string_bytes text.new ≡ string_bytes text.old ++ declared_by name.now line number) }
{
    text.push_str("<li>")?;
    push_escaped(text, name)?;
    text.push_str(" declared it dead first")?;
    push_line(text, line)?;
    text.push_str(", under incarnation number ")?;
    push_grouped(text, number)?;
    text.push_str(".")
}

/// Appends what the member itself was from a moment until its death.
#[tactic(auto, unfolding(crate::specs::Causes::own_item))]
fn push_own(
    text: &mut String,
    time: Option<Tick>,
    scenario: &Scenario,
    subject: MemberId,
    since: Moment,
    at: Moment,
) -> Result<(), AllocError>
    requires { subject < member_count scenario.now }
    ensures { OnOk result (string_bytes text.new ≡ string_bytes text.old ++ own_item time scenario.now subject since at) }
{
    open_own(text, time, since.ticks())?;
    push_states(text, time, scenario, subject, since, at)?;
    text.push_str("</li>")?;
    Ok(())
}

/// Begins what the member itself was from a moment on.
#[tactic(auto, unfolding(crate::specs::Causes::own_opening))]
fn open_own(text: &mut String, time: Option<Tick>, since: u64) -> Result<(), AllocError>
    ensures { OnOk result (string_bytes text.new ≡ string_bytes text.old ++ own_opening time since) }
{
    text.push_str("<li>From ")?;
    push_timed(text, time, since)?;
    text.push_str(" until its death:")?;
    Ok(())
}

/// When the probe of its first accuser began, where it has one; else its death.
fn since_first(accusers: &Accusers, at: Moment) -> Moment
    ensures { (list : List AnAccusation) → AreAccusers accusers.now list → result ≡ since_first list at }
{
    match accusers.at(0) {
        Some(first) => began(&first),
        None => at,
    }
}

/// Appends what the member itself was from a moment until its death, and its last refutation.
#[tactic(auto, unfolding(crate::specs::Causes::own_told))]
fn push_own_told(
    text: &mut String,
    time: Option<Tick>,
    scenario: &Scenario,
    subject: MemberId,
    since: Moment,
    at: Moment,
    refutation: &Option<Refutation>,
    heard: u64,
) -> Result<(), AllocError>
    requires { subject < member_count scenario.now }
    ensures { OnOk result (string_bytes text.new ≡ string_bytes text.old ++ own_told time scenario.now subject since at refutation.now heard) }
{
    push_own(text, time, scenario, subject, since, at)?;
    push_refuted_told(text, time, refutation, heard)?;
    Ok(())
}

/// Appends when the member had last refuted what was said of it, where it had.
fn push_refuted_told(
    text: &mut String,
    time: Option<Tick>,
    refutation: &Option<Refutation>,
    heard: u64,
) -> Result<(), AllocError>
    ensures { OnOk result (string_bytes text.new ≡ string_bytes text.old ++ refuted_told time refutation.now heard) }
{
    match refutation {
        Some(refutation) => push_refuted(
            text,
            time,
            refutation.line.at.ticks(),
            refutation.line.number,
            heard,
        ),
        None => text.push_str("<li>It had refuted nothing.</li>"),
    }
}

/// Appends when the member had last refuted what was said of it, and how many heard of that.
#[tactic(auto, unfolding(crate::specs::Causes::refuted_item))]
fn push_refuted(
    text: &mut String,
    time: Option<Tick>,
    at: u64,
    line: u64,
    heard: u64,
) -> Result<(), AllocError>
    ensures { OnOk result (string_bytes text.new ≡ string_bytes text.old ++ refuted_item time at line heard) }
{
    text.push_str("<li>It had last refuted at ")?;
    push_timed(text, time, at)?;
    push_line(text, line)?;
    text.push_str("; members that had heard of that by then: ")?;
    push_grouped(text, heard)?;
    text.push_str(".</li>")?;
    Ok(())
}

/// Appends that the accusers are those of a later suspicion, where they are.
fn push_later(text: &mut String, is_later: bool) -> Result<(), AllocError>
    ensures { OnOk result (string_bytes text.new ≡ string_bytes text.old ++ later_item is_later) }
{
    if is_later {
        return text.push_str(
            "<li>It was suspected under a higher incarnation number before that; these are its accusers under that one.</li>",
        );
    }
    Ok(())
}
