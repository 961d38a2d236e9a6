//! Who accused a member before its death.
ghost use Rattle.std.specs.Prelude.{◌≡◌, ◌<◌, ◌≤◌, ◌-◌, ◌^◌, ◌++◌, [], Some, OnOk, IfSome, All, List, flat_map, take, length, slice_get};
ghost use Rattle.std.specs.String.{string_bytes};
ghost use Rattle.std.specs.Option.{option_map_or};
ghost use Rattle.scenario.specs.Setup.{member_count};
ghost use Rattle.series.specs.Accusers.{AreAccusers};
ghost use Rattle.series.specs.declared.accusers.Accusation.{Accusation as AnAccusation};
ghost use Rattle.member_timelines.specs.Numbers.{by_number};
ghost use Rattle.false_deaths.specs.Causes.{began, fate, line_words, ping_words, probe_words, claim_of, claim_words, accuser_item, more_accusers, accusers_end, accusers_told, AreNamed};

use crate::answers::push_answers;
use crate::troubles::push_states;
use base::{MemberId, Moment};
use drawing::{push_escaped, push_grouped, push_timed};
use member_timelines::by_number;
use scenario::Scenario;
use series::{Accusation, Accusers, Answers, ProbeStory, TraceLine};
use std::alloc::AllocError;
use ticks::Tick;

/// The most accusers that are named.
const TOLD: usize = 4;

/// Appends the first accusers, and how many more there are.
#[tactic(auto, unfolding(crate::specs::Causes::accusers_told))]
pub(crate) fn push_accusers(
    text: &mut String,
    time: Option<Tick>,
    scenario: &Scenario,
    accusers: &Accusers,
) -> Result<(), AllocError>
    requires those { (list : List AnAccusation) × AreAccusers accusers.now list × AreNamed scenario.now list }
    ensures { OnOk result ((list : List AnAccusation) → AreAccusers accusers.now list → string_bytes text.new ≡ string_bytes text.old ++ accusers_told time scenario.now list) }
{
    push_first(text, time, scenario, accusers)?;
    push_end(text, accusers.count())?;
    Ok(())
}

/// Appends the first of them.
fn push_first(
    text: &mut String,
    time: Option<Tick>,
    scenario: &Scenario,
    accusers: &Accusers,
) -> Result<(), AllocError>
    requires those { (list : List AnAccusation) × AreAccusers accusers.now list × AreNamed scenario.now list }
    ensures { OnOk result ((list : List AnAccusation) → AreAccusers accusers.now list → string_bytes text.new ≡ string_bytes text.old ++ flat_map (accuser_item time scenario.now) (take 4 list)) }
{
    for place in 0..TOLD {
        push_at(text, time, scenario, accusers.at(place))?;
    }
    Ok(())
}

/// Appends an accuser, where there is one.
fn push_at(
    text: &mut String,
    time: Option<Tick>,
    scenario: &Scenario,
    accusation: Option<Accusation>,
) -> Result<(), AllocError>
    requires { IfSome accusation (λ a. a.claim.member < member_count scenario.now) }
    ensures { OnOk result (string_bytes text.new ≡ string_bytes text.old ++ option_map_or (accuser_item time scenario.now) accusation []) }
{
    match accusation {
        Some(accusation) => push_accuser(text, time, scenario, &accusation),
        None => Ok(()),
    }
}

/// Appends an accuser, how its probe fared, and what it was from then on.
#[tactic(auto, unfolding(crate::specs::Causes::accuser_item))]
fn push_accuser(
    text: &mut String,
    time: Option<Tick>,
    scenario: &Scenario,
    accusation: &Accusation,
) -> Result<(), AllocError>
    requires { accusation.now.claim.member < member_count scenario.now }
    ensures { OnOk result (string_bytes text.new ≡ string_bytes text.old ++ accuser_item time scenario.now accusation.now) }
{
    push_claim(text, time, scenario, &accusation.claim)?;
    push_probe(text, time, &accusation.probe, &accusation.answers)?;
    let from = began(accusation);
    push_states(
        text,
        time,
        scenario,
        accusation.claim.member,
        from,
        accusation.claim.at,
    )?;
    text.push_str("</li>")?;
    Ok(())
}

/// Appends how a probe fared, where there is one, and what came of it.
fn push_probe(
    text: &mut String,
    time: Option<Tick>,
    probe: &Option<ProbeStory>,
    answers: &Answers,
) -> Result<(), AllocError>
    ensures { OnOk result (string_bytes text.new ≡ string_bytes text.old ++ probe_words time probe.now answers.now) }
{
    match probe {
        Some(probe) => push_fared(text, time, probe, answers),
        None => Ok(()),
    }
}

/// Appends how a probe fared, and what came of it.
fn push_fared(
    text: &mut String,
    time: Option<Tick>,
    probe: &ProbeStory,
    answers: &Answers,
) -> Result<(), AllocError>
    ensures { OnOk result (string_bytes text.new ≡ string_bytes text.old ++ probe_words time (Some probe.now) answers.now) }
{
    push_ping(
        text,
        time,
        probe.ping.at.ticks(),
        probe.ping.number,
        probe.lost,
    )?;
    push_answers(text, time, probe.lost, answers)
}

/// When an accuser's probe began, where that is known; else when it accused.
pub(crate) fn began(accusation: &Accusation) -> Moment
    ensures { result ≡ began accusation.now }
{
    match accusation.probe {
        Some(probe) => probe.ping.at,
        None => accusation.claim.at,
    }
}

/// Appends who accused the member, when and on which line.
fn push_claim(
    text: &mut String,
    time: Option<Tick>,
    scenario: &Scenario,
    claim: &TraceLine,
) -> Result<(), AllocError>
    requires { claim.now.member < member_count scenario.now }
    ensures { OnOk result (string_bytes text.new ≡ string_bytes text.old ++ claim_words time scenario.now claim.now) }
{
    push_claim_of(
        text,
        time,
        scenario.name(claim.member),
        claim.at.ticks(),
        claim.number,
    )
}

/// Appends how a ping fared that was sent at a moment, on a line of that number.
#[tactic(auto, unfolding(crate::specs::Causes::ping_words))]
fn push_ping(
    text: &mut String,
    time: Option<Tick>,
    at: u64,
    line: u64,
    lost: bool,
) -> Result<(), AllocError>
    ensures { OnOk result (string_bytes text.new ≡ string_bytes text.old ++ ping_words time at line lost) }
{
    text.push_str(" Its ping of ")?;
    push_timed(text, time, at)?;
    push_line(text, line)?;
    text.push_str(fate(lost))?;
    Ok(())
}

/// How a message fared.
pub(crate) fn fate(lost: bool) -> &'static str
    ensures { result.now ≡ fate lost }
{
    if lost {
        ", was lost."
    } else {
        ", wasn't lost."
    }
}

/// Appends who accused the member: one of that name.
#[tactic(auto, unfolding(crate::specs::Causes::claim_of))]
fn push_claim_of(
    text: &mut String,
    time: Option<Tick>,
    name: &str,
    at: u64,
    number: u64,
) -> Result<(), AllocError>
    ensures { OnOk result (string_bytes text.new ≡ string_bytes text.old ++ claim_of time name.now at number) }
{
    text.push_str("<li>")?;
    push_escaped(text, name)?;
    text.push_str(" accused it at ")?;
    push_timed(text, time, at)?;
    push_line(text, number)?;
    text.push_str(".")?;
    Ok(())
}

/// Appends the number of a line.
#[tactic(auto, unfolding(crate::specs::Causes::line_words))]
pub(crate) fn push_line(text: &mut String, number: u64) -> Result<(), AllocError>
    ensures { OnOk result (string_bytes text.new ≡ string_bytes text.old ++ line_words number) }
{
    write!(text, ", on line {number}")
}

/// Appends how many accusations more there are, or that there are none.
fn push_end(text: &mut String, count: u64) -> Result<(), AllocError>
    ensures { OnOk result (string_bytes text.new ≡ string_bytes text.old ++ accusers_end count) }
{
    if count == 0 {
        return text.push_str("<li>Nobody accused it on its own evidence.</li>");
    }
    if count > 4 {
        return push_more(text, count - 4);
    }
    Ok(())
}

/// Appends how many accusations more there are.
#[tactic(auto, unfolding(crate::specs::Causes::more_accusers))]
fn push_more(text: &mut String, more: u64) -> Result<(), AllocError>
    ensures { OnOk result (string_bytes text.new ≡ string_bytes text.old ++ more_accusers more) }
{
    text.push_str("<li>")?;
    push_grouped(text, more)?;
    text.push_str(by_number(
        more,
        " more accusation isn't shown.</li>",
        " more accusations aren't shown.</li>",
    ))?;
    Ok(())
}
