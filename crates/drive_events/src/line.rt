//! The line of an event.
ghost use Rattle.std.specs.Prelude.{◌≡◌, ◌<◌, ◌++◌, OnOk, IfOk, string_bytes};
ghost use Rattle.scenario.specs.Setup.{member_count};
ghost use Rattle.drive_events.specs.Line.{line_of, head_text, end_line, key_of, key_text, content_text, timer_text, word_text, message_text, held_text, payload_text, payload_of};

use crate::content::{Content, Message};
use crate::payload::Payload;
use crate::start::{push_restart, push_start};
use base::Key;
use scenario::Scenario;
use std::alloc::{AllocError, Global};

/// Appends the line of an event, with a line feed. The first line of a drive names all members.
#[tactic(auto, unfolding(crate::specs::Line::line_of))]
pub fn push_event(
    alloc: Global,
    line: &mut Vec<u8>,
    scenario: &Scenario,
    key: &Key,
    content: &Content,
    is_first: bool,
) -> Result<(), AllocError>
    requires to { key.now.to < member_count scenario.now }
    requires from { key.now.from < member_count scenario.now }
    ensures { OnOk result (line.new.items ≡ line.old.items ++ line_of scenario.now is_first key.now content.now) }
{
    let head = head_of(alloc, scenario, key, content, is_first)?;
    line.extend_from_slice(head.as_bytes())?;
    push_payload(line, content)?;
    line.extend_from_slice(b"}\n")
}

/// The line of an event up to what a message holds.
#[tactic(auto, unfolding(crate::specs::Line::head_text))]
fn head_of(
    alloc: Global,
    scenario: &Scenario,
    key: &Key,
    content: &Content,
    is_first: bool,
) -> Result<String, AllocError>
    requires to { key.now.to < member_count scenario.now }
    requires from { key.now.from < member_count scenario.now }
    ensures { IfOk result (λ text. string_bytes text ≡ head_text scenario.now is_first key.now content.now) }
{
    let mut text = String::new(alloc);
    push_key(&mut text, scenario, key)?;
    push_content(alloc, &mut text, scenario, key, content, is_first)?;
    Ok(text)
}

/// Appends the last line of a drive: the end is reached.
#[tactic(auto, unfolding(crate::specs::Line::end_line))]
pub fn push_end(text: &mut String, scenario: &Scenario) -> Result<(), AllocError>
    ensures { OnOk result (string_bytes text.new ≡ string_bytes text.old ++ end_line scenario.now) }
{
    let end = scenario.end().ticks();
    write!(text, "{{\"moment\":{end},\"event\":\"end\"}}\n")
}

/// Appends the key of an event, up to what the event is called.
fn push_key(text: &mut String, scenario: &Scenario, key: &Key) -> Result<(), AllocError>
    requires to { key.now.to < member_count scenario.now }
    requires from { key.now.from < member_count scenario.now }
    ensures { OnOk result (string_bytes text.new ≡ string_bytes text.old ++ key_text scenario.now key.now) }
{
    push_key_of(
        text,
        key.at.ticks(),
        scenario.name(key.to),
        scenario.name(key.from),
        key.number,
    )
}

/// Appends a key of these items, with members by their names.
#[tactic(auto, unfolding(crate::specs::Line::key_of))]
fn push_key_of(
    text: &mut String,
    at: u64,
    member: &str,
    from: &str,
    number: u64,
) -> Result<(), AllocError>
    ensures { OnOk result (string_bytes text.new ≡ string_bytes text.old ++ key_of at member.now from.now number) }
{
    write!(
        text,
        "{{\"moment\":{at},\"member\":\"{member}\",\"from\":\"{from}\",\"number\":{number},\"event\":\""
    )
}

/// Appends what the event is called, and what it holds.
fn push_content(
    alloc: Global,
    text: &mut String,
    scenario: &Scenario,
    key: &Key,
    content: &Content,
    is_first: bool,
) -> Result<(), AllocError>
    requires { key.now.to < member_count scenario.now }
    ensures { OnOk result (string_bytes text.new ≡ string_bytes text.old ++ content_text scenario.now is_first key.now content.now) }
{
    match content {
        Content::Start => push_start(alloc, text, scenario, key.to, is_first),
        Content::Restart => push_restart(alloc, text, scenario, key, is_first),
        Content::Crash => text.push_str("crash\""),
        Content::Leave => text.push_str("leave\""),
        Content::Timer(id) => push_timer(text, *id),
        Content::Message(message) => push_message(text, message),
    }
}

/// Appends a timer with its number.
#[tactic(auto, unfolding(crate::specs::Line::timer_text))]
fn push_timer(text: &mut String, id: u64) -> Result<(), AllocError>
    ensures { OnOk result (string_bytes text.new ≡ string_bytes text.old ++ timer_text id) }
{
    write!(text, "timer\",\"id\":{id}")
}

/// Appends what a message is called, and its value.
fn push_message(text: &mut String, message: &Message) -> Result<(), AllocError>
    ensures { OnOk result (string_bytes text.new ≡ string_bytes text.old ++ message_text message.now) }
{
    push_word(text, message.what.word(), message.value)
}

/// Appends the word of a message, and its value.
#[tactic(auto, unfolding(crate::specs::Line::word_text))]
fn push_word(text: &mut String, word: &str, value: u64) -> Result<(), AllocError>
    ensures { OnOk result (string_bytes text.new ≡ string_bytes text.old ++ word_text word.now value) }
{
    write!(text, "message\",\"what\":\"{word}\",\"value\":{value}")
}

/// Appends what a message holds, where it holds anything.
fn push_payload(line: &mut Vec<u8>, content: &Content) -> Result<(), AllocError>
    ensures { OnOk result (line.new.items ≡ line.old.items ++ payload_text (payload_of content.now)) }
{
    match content {
        Content::Message(message) => match &message.payload {
            Some(payload) => push_held(line, payload),
            None => Ok(()),
        },
        _ => Ok(()),
    }
}

/// Appends what a message holds.
#[tactic(auto, unfolding(crate::specs::Line::held_text))]
fn push_held(line: &mut Vec<u8>, payload: &Payload) -> Result<(), AllocError>
    ensures { OnOk result (line.new.items ≡ line.old.items ++ held_text payload.now) }
{
    line.extend_from_slice(b",\"payload\":")?;
    line.extend_from_slice(payload.as_slice())?;
    Ok(())
}
