//! A line of a harness as the actions that it says.
ghost use Rattle.std.specs.Prelude.{◌≡◌, ◌<◌, ◌↔◌, ℕ, List, [], ◌∷◌, ◌++◌, true, None, Some, IsTrue, IfOk, OnOk, IfErr, IfSome, option_map, drop};
ghost use Rattle.std.specs.Option.{is_some};
ghost use Rattle.json.specs.Json.{Json, value};
ghost use Rattle.json.specs.Find.{as_array};
ghost use Rattle.json.specs.Lex.{tokens};
ghost use Rattle.json.specs.Value.{value_view, items_view};
ghost use Rattle.serde_json.specs.Read.{read};
ghost use Rattle.scenario.specs.Setup.{member_count, name_of};
ghost use Rattle.drive_answers.specs.declared.action.Action.{Action as AnyAction};
ghost use Rattle.drive_answers.specs.Answer.{IsAnswer, ExitsLast, MayStand, IsJson, IsNoJson, IsNoList, IsNobodys, NamesNobody, OneOf, AreActions, SaysAction, SaysActions, IsCause};
ghost use Rattle.drive_answers.specs.Modes.{texts_of};
ghost use Rattle.drive_answers.specs.Pieces.{pieces};
ghost use Rattle.drive_answers.specs.Said.{SaysSend, SaysRow};
ghost use Rattle.drive_answers.specs.SaidOf.{IsAction, Says};
ghost use Rattle.drive_answers.specs.Standing.{standing_in};

use crate::action::{Action, Noted, Send};
use crate::error::AnswerError;
use crate::fields::member_named;
use crate::parsing::parse;
use crate::pieces::pieces_of;
use crate::said::{Said, SaidRow, SaidSend, is_exit, said_by};
use crate::standing::{behind, behind_first, payload_in};
use base::MemberId;
use json::{Scratch, Value};
use scenario::Scenario;
use std::alloc::Global;

/// The actions that a line says, without its line feed, on an event of this member, whose process may end now or not.
/// Of several causes for which it says none the first is answered: it is no JSON, no list of actions, or it names nobody.
pub fn read_answer(
    alloc: Global,
    scenario: &Scenario,
    member: MemberId,
    exits: bool,
    line: &[u8],
) -> Result<Vec<Action>, AnswerError>
    requires { member < member_count scenario.now }
    ensures said { IfOk result (λ actions. IsAnswer scenario.now member exits line.now actions.items) }
    ensures refused { IfErr result (IsCause (IsNoJson line.now) (IsNoList exits line.now) (IsNobodys scenario.now member exits line.now)) }
{
    let mut scratch = Scratch::new(alloc);
    match parse(alloc, line, &mut scratch) {
        Ok(value) => answer_of(alloc, scenario, member, exits, line, &value),
        Err(error) => Err(error),
    }
}

/// The actions of a line that is this value.
fn answer_of(
    alloc: Global,
    scenario: &Scenario,
    member: MemberId,
    exits: bool,
    line: &[u8],
    value: &Value<'_>,
) -> Result<Vec<Action>, AnswerError>
    requires member { member < member_count scenario.now }
    requires json { IsJson line.now (value_view value.now) }
    ensures said { IfOk result (λ actions. IsAnswer scenario.now member exits line.now actions.items) }
    ensures refused { IfErr result (IsCause ⊥ (IsNoList exits line.now) (IsNobodys scenario.now member exits line.now)) }
{
    let Some(items) = items_in(value) else {
        return Err(AnswerError::Action);
    };
    if !are_actions(items) {
        return Err(AnswerError::Action);
    }
    if !exits_last(items, exits) {
        return Err(AnswerError::Action);
    }
    match said_of(alloc, scenario, member, line, items) {
        Ok(actions) => Ok(actions),
        Err(error) => Err(error),
    }
}

/// The actions of a line's items, each of which says one.
fn said_of(
    alloc: Global,
    scenario: &Scenario,
    member: MemberId,
    line: &[u8],
    items: &[Value<'_>],
) -> Result<Vec<Action>, AnswerError>
    requires member { member < member_count scenario.now }
    requires actions { AreActions (items_view items.now) }
    ensures said { IfOk result (λ actions. SaysActions scenario.now member (items_view items.now) (drop 1 (pieces line.now)) actions.items) }
    ensures refused { IfErr result (IsCause ⊥ ⊥ (OneOf (NamesNobody scenario.now member) (items_view items.now))) }
{
    match pieces_of(alloc, line) {
        Ok(pieces) => {
            let behind = behind_first(pieces.as_slice());
            actions_of(alloc, scenario, member, items, behind)
        }
        Err(_) => Err(AnswerError::Memory),
    }
}

/// The items of a list.
fn items_in<'v, 'a>(value: &'v Value<'a>) -> Option<&'v [Value<'a>]>
    ensures { option_map (λ items. items_view items.now) result ≡ as_array (value_view value.now) }
{
    match value {
        Value::Array(items) => Some(items.as_slice()),
        _ => None,
    }
}

/// Whether each of these items says an action.
fn are_actions(items: &[Value<'_>]) -> bool
    ensures { IsTrue result ↔ AreActions (items_view items.now) }
{
    for item in items {
        if !is_action(item) {
            return false;
        }
    }
    true
}

/// Whether none of these items says that the process ends but the last, and that only where it may end.
fn exits_last(items: &[Value<'_>], exits: bool) -> bool
    ensures { IsTrue result ↔ ExitsLast exits (items_view items.now) }
{
    let mut left = items.len();
    for item in items {
        left -= 1;
        if !may_stand(item, exits, left) {
            return false;
        }
    }
    true
}

/// Whether an item may stand before so many others: one that says that the process ends only where it may and as the last.
fn may_stand(item: &Value<'_>, exits: bool, left: usize) -> bool
    ensures { IsTrue result ↔ MayStand exits left (value_view item.now) }
{
    if is_exit(item) {
        exits && left == 0
    } else {
        true
    }
}

/// Whether an item says an action.
fn is_action(item: &Value<'_>) -> bool
    ensures { IsTrue result ↔ IsAction (value_view item.now) }
{
    said_by(item).is_some()
}

/// The actions of items, each of which says one.
fn actions_of(
    alloc: Global,
    scenario: &Scenario,
    member: MemberId,
    items: &[Value<'_>],
    pieces: &[&[u8]],
) -> Result<Vec<Action>, AnswerError>
    requires member { member < member_count scenario.now }
    requires actions { AreActions (items_view items.now) }
    ensures said { IfOk result (λ actions. SaysActions scenario.now member (items_view items.now) (texts_of pieces.now) actions.items) }
    ensures refused { IfErr result (IsCause ⊥ ⊥ (OneOf (NamesNobody scenario.now member) (items_view items.now))) }
{
    let mut actions = Vec::new(alloc);
    let mut rest = pieces;
    for item in items {
        match push_action(alloc, &mut actions, scenario, member, item, rest) {
            Ok(()) => rest = behind(item, rest),
            Err(error) => return Err(error),
        }
    }
    Ok(actions)
}

/// Adds the action of an item that says one.
fn push_action(
    alloc: Global,
    actions: &mut Vec<Action>,
    scenario: &Scenario,
    member: MemberId,
    item: &Value<'_>,
    pieces: &[&[u8]],
) -> Result<(), AnswerError>
    requires member { member < member_count scenario.now }
    requires action { IsAction (value_view item.now) }
    ensures said { OnOk result ((a : AnyAction) × (actions.new.items ≡ actions.old.items ++ a ∷ [])
        × SaysAction scenario.now member (value_view item.now) (texts_of pieces.now) a) }
    ensures refused { IfErr result (IsCause ⊥ ⊥ (NamesNobody scenario.now member (value_view item.now))) }
{
    match action_of(alloc, scenario, member, item, pieces) {
        Ok(action) => match actions.push(action) {
            Ok(_) => Ok(()),
            Err(_) => Err(AnswerError::Memory),
        },
        Err(error) => Err(error),
    }
}

/// The action of an item that says one, or that it names nobody.
fn action_of(
    alloc: Global,
    scenario: &Scenario,
    member: MemberId,
    item: &Value<'_>,
    pieces: &[&[u8]],
) -> Result<Action, AnswerError>
    requires member { member < member_count scenario.now }
    requires action { IsAction (value_view item.now) }
    ensures said { IfOk result (SaysAction scenario.now member (value_view item.now) (texts_of pieces.now)) }
    ensures refused { IfErr result (IsCause ⊥ ⊥ (NamesNobody scenario.now member (value_view item.now))) }
{
    match said_by(item) {
        Some(said) => action_said(alloc, scenario, member, item, &said, pieces),
        None => unreachable!(),
    }
}

/// The action that an item says, of the members that it names.
fn action_said(
    alloc: Global,
    scenario: &Scenario,
    member: MemberId,
    item: &Value<'_>,
    said: &Said<'_>,
    pieces: &[&[u8]],
) -> Result<Action, AnswerError>
    requires member { member < member_count scenario.now }
    requires said { Says (value_view item.now) said.now }
    ensures said { IfOk result (SaysAction scenario.now member (value_view item.now) (texts_of pieces.now)) }
    ensures refused { IfErr result (IsCause ⊥ ⊥ (NamesNobody scenario.now member (value_view item.now))) }
{
    match said {
        Said::Timer(timer) => Ok(Action::Timer(*timer)),
        Said::Used(words) => Ok(Action::Used(*words)),
        Said::Exit => Ok(Action::Exit),
        Said::Row(row) => match told_of(scenario, member, item, row) {
            Ok(told) => Ok(Action::Noted(told)),
            Err(error) => Err(error),
        },
        Said::Send(send) => match send_of(alloc, scenario, member, item, send, pieces) {
            Ok(send) => Ok(Action::Send(send)),
            Err(error) => Err(error),
        },
    }
}

/// The message to the member that it names.
fn send_of(
    alloc: Global,
    scenario: &Scenario,
    member: MemberId,
    item: &Value<'_>,
    said: &SaidSend<'_>,
    pieces: &[&[u8]],
) -> Result<Send, AnswerError>
    requires member { member < member_count scenario.now }
    requires said { SaysSend (value_view item.now) said.now.what said.now.to.now said.now.value said.now.stream }
    ensures said { IfOk result (λ send. SaysAction scenario.now member (value_view item.now) (texts_of pieces.now) (Action.Send send)) }
    ensures refused { IfErr result (IsCause ⊥ ⊥ (NamesNobody scenario.now member (value_view item.now))) }
{
    let Some(to) = member_named(scenario, said.to) else {
        return Err(AnswerError::Member);
    };
    if to == member {
        return Err(AnswerError::Member);
    }
    let Ok(payload) = payload_in(alloc, item, pieces) else {
        return Err(AnswerError::Memory);
    };
    Ok(Send {
        what: said.what,
        to,
        value: said.value,
        payload,
        stream: said.stream,
    })
}

/// The row about the member that it names, where it names one.
fn told_of(
    scenario: &Scenario,
    member: MemberId,
    item: &Value<'_>,
    said: &SaidRow<'_>,
) -> Result<Noted, AnswerError>
    requires { SaysRow (value_view item.now) said.now.what (option_map (λ s. s.now) said.now.about) said.now.value }
    ensures said { IfOk result (λ told. SaysRow (value_view item.now) told.what (option_map (name_of scenario.now) told.about) told.value
        × IfSome told.about (λ m. m < member_count scenario.now)) }
    ensures refused { IfErr result (IsCause ⊥ ⊥ (NamesNobody scenario.now member (value_view item.now))) }
{
    match said.about {
        Some(name) => match member_named(scenario, name) {
            Some(about) => Ok(told(said, Some(about))),
            None => Err(AnswerError::Member),
        },
        None => Ok(told(said, None)),
    }
}

/// The row, about this member.
fn told(said: &SaidRow<'_>, about: Option<MemberId>) -> Noted
    ensures what { result.what ≡ said.now.what }
    ensures about { result.about ≡ about }
    ensures value { result.value ≡ said.now.value }
{
    Noted {
        what: said.what,
        about,
        value: said.value,
    }
}
