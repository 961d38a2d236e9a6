//! What an item of an answer says: a message, a timer, a row, words or an exit, of members by their names.
ghost use Rattle.std.specs.Prelude.{◌≡◌, ◌↔◌, ℕ, List, Bool, Option, IfSome, IsNone, IsTrue, option_map};
ghost use Rattle.json.specs.Value.{value_view};
ghost use Rattle.trace.specs.declared.row.What.{What as AnyWhat};
ghost use Rattle.drive_answers.specs.Said.{SaysSend, SaysTimer, SaysRow, SaysUsed, SaysExit};
ghost use Rattle.drive_answers.specs.SaidOf.{Says, IsAction};

use crate::action::Timer;
use crate::fields::{GREATEST, has, has_only, is_true, stream_or_not, text, value_or_zero, whole};
use crate::kinds::{is_about_a_member, message_named, row_named};
use json::Value;
use trace::What;

/// A message to a member of this name.
#[derive(Clone, Copy)]
pub(crate) struct SaidSend<'v> {
    pub(crate) what: What,
    pub(crate) to: &'v str,
    pub(crate) value: u64,
    pub(crate) stream: bool,
}

/// A row, about a member of this name where it is about one.
#[derive(Clone, Copy)]
pub(crate) struct SaidRow<'v> {
    pub(crate) what: What,
    pub(crate) about: Option<&'v str>,
    pub(crate) value: u64,
}

/// What an item says.
#[derive(Clone, Copy)]
pub(crate) enum Said<'v> {
    Send(SaidSend<'v>),
    Timer(Timer),
    Row(SaidRow<'v>),
    Used(u64),
    Exit,
}

/// What an item says, where it says an action.
pub(crate) fn said_by<'v>(item: &'v Value<'_>) -> Option<Said<'v>>
    ensures some { IfSome result (Says (value_view item.now)) }
    ensures none { IsNone result → ¬ (IsAction (value_view item.now)) }
{
    if let Some(send) = said_send(item) {
        return Some(Said::Send(send));
    }
    if let Some(timer) = said_timer(item) {
        return Some(Said::Timer(timer));
    }
    if let Some(row) = said_row(item) {
        return Some(Said::Row(row));
    }
    if let Some(words) = said_used(item) {
        return Some(Said::Used(words));
    }
    if is_exit(item) {
        return Some(Said::Exit);
    }
    None
}

/// The message that an item says.
fn said_send<'v>(item: &'v Value<'_>) -> Option<SaidSend<'v>>
    ensures some { IfSome result (λ x. SaysSend (value_view item.now) x.what x.to.now x.value x.stream) }
    ensures none { IsNone result → (what : AnyWhat) (to : List ℕ) (value : ℕ) (stream : Bool)
        → ¬ (SaysSend (value_view item.now) what to value stream) }
{
    if !has_only(item, &["send", "to", "value", "payload", "stream"]) {
        return None;
    }
    let what = message_named(text(item, "send")?)?;
    let to = text(item, "to")?;
    let value = value_or_zero(item)?;
    let stream = stream_or_not(item)?;
    Some(SaidSend {
        what,
        to,
        value,
        stream,
    })
}

/// The timer that an item says.
fn said_timer(item: &Value<'_>) -> Option<Timer>
    ensures some { IfSome result (λ t. SaysTimer (value_view item.now) t.id t.after) }
    ensures none { IsNone result → (id after : ℕ) → ¬ (SaysTimer (value_view item.now) id after) }
{
    if !has_only(item, &["timer", "after"]) {
        return None;
    }
    let id = whole(item, "timer", 0, GREATEST)?;
    let after = whole(item, "after", 1, 1 << 40)?;
    Some(Timer { id, after })
}

/// The row that an item says.
fn said_row<'v>(item: &'v Value<'_>) -> Option<SaidRow<'v>>
    ensures some { IfSome result (λ r. SaysRow (value_view item.now) r.what (option_map (λ s. s.now) r.about) r.value) }
    ensures none { IsNone result → (what : AnyWhat) (about : Option (List ℕ)) (value : ℕ)
        → ¬ (SaysRow (value_view item.now) what about value) }
{
    if !has_only(item, &["row", "about", "value"]) {
        return None;
    }
    let what = row_named(text(item, "row")?)?;
    let value = value_or_zero(item)?;
    let about = text(item, "about");
    if has(item, "about") != is_about_a_member(what) || about.is_some() != is_about_a_member(what) {
        return None;
    }
    Some(SaidRow { what, about, value })
}

/// How many words an item says are used.
fn said_used(item: &Value<'_>) -> Option<u64>
    ensures some { IfSome result (SaysUsed (value_view item.now)) }
    ensures none { IsNone result → (words : ℕ) → ¬ (SaysUsed (value_view item.now) words) }
{
    if !has_only(item, &["used"]) {
        return None;
    }
    whole(item, "used", 1, 1 << 20)
}

/// Whether an item says that the member's process ends.
pub(crate) fn is_exit(item: &Value<'_>) -> bool
    ensures { IsTrue result ↔ SaysExit (value_view item.now) }
{
    has_only(item, &["exit"]) && is_true(item, "exit")
}
