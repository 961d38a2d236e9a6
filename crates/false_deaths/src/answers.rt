//! What came of an accuser's probe by its accusation.
ghost use Rattle.std.specs.Prelude.{◌≡◌, ◌++◌, OnOk};
ghost use Rattle.std.specs.String.{string_bytes};
ghost use Rattle.false_deaths.specs.Causes.{ack_told, ack_words, answers_told, helpers_told, helpers_words};

use crate::accusers::{fate, push_line};
use drawing::{push_grouped, push_timed};
use series::{Answers, Reply};
use std::alloc::AllocError;
use ticks::Tick;

/// Appends whether the target of a probe sent an ack by then, and how many helpers were asked and answered. The ping was lost or
/// not.
pub(crate) fn push_answers(
    text: &mut String,
    time: Option<Tick>,
    lost: bool,
    answers: &Answers,
) -> Result<(), AllocError>
    ensures { OnOk result (string_bytes text.new ≡ string_bytes text.old ++ answers_told time lost answers.now) }
{
    push_ack_told(text, time, lost, &answers.ack)?;
    push_helpers_told(text, answers)
}

/// Appends how the target's ack fared, or that there is none though the ping wasn't lost.
fn push_ack_told(
    text: &mut String,
    time: Option<Tick>,
    lost: bool,
    ack: &Option<Reply>,
) -> Result<(), AllocError>
    ensures { OnOk result (string_bytes text.new ≡ string_bytes text.old ++ ack_told time lost ack.now) }
{
    match ack {
        Some(ack) => push_ack(text, time, ack.line.at.ticks(), ack.line.number, ack.lost),
        None if lost => Ok(()),
        None => text.push_str(" No ack was sent by then."),
    }
}

/// Appends how an ack fared that was sent at a moment, on a line of that number.
#[tactic(auto, unfolding(crate::specs::Causes::ack_words))]
fn push_ack(
    text: &mut String,
    time: Option<Tick>,
    at: u64,
    line: u64,
    lost: bool,
) -> Result<(), AllocError>
    ensures { OnOk result (string_bytes text.new ≡ string_bytes text.old ++ ack_words time at line lost) }
{
    text.push_str(" The ack of ")?;
    push_timed(text, time, at)?;
    push_line(text, line)?;
    text.push_str(fate(lost))?;
    Ok(())
}

/// Appends how many helpers were asked and answered, where some were asked.
fn push_helpers_told(text: &mut String, answers: &Answers) -> Result<(), AllocError>
    ensures { OnOk result (string_bytes text.new ≡ string_bytes text.old ++ helpers_told answers.now) }
{
    if answers.asked == 0 {
        return Ok(());
    }
    push_helpers(
        text,
        answers.asked,
        answers.requests_lost,
        answers.answered,
        answers.answers_lost,
    )
}

/// Appends how many helpers were asked, and how many answers they sent; and how many of both were lost.
#[tactic(auto, unfolding(crate::specs::Causes::helpers_words))]
fn push_helpers(
    text: &mut String,
    asked: u64,
    requests: u64,
    answered: u64,
    lost: u64,
) -> Result<(), AllocError>
    ensures { OnOk result (string_bytes text.new ≡ string_bytes text.old ++ helpers_words asked requests answered lost) }
{
    text.push_str(" Helpers asked: ")?;
    push_grouped(text, asked)?;
    text.push_str(" (requests lost: ")?;
    push_grouped(text, requests)?;
    text.push_str("). Their answers by then: ")?;
    push_grouped(text, answered)?;
    text.push_str(" (lost: ")?;
    push_grouped(text, lost)?;
    text.push_str(").")?;
    Ok(())
}
