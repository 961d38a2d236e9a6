//! One turn of a drive: an event is sent, or is over at once, or takes the next answer.
ghost use Rattle.std.specs.Prelude.{◌≡◌, ◌≢◌, ◌<◌, ◌++◌, Some, true, not, ℕ, List, OnOk, IfOk};
ghost use Rattle.std.specs.FinMap.{get};
ghost use Rattle.scenario.specs.Setup.{member_count};
ghost use Rattle.drive_events.specs.declared.content.Content.{Content as AContent};
ghost use Rattle.drive_events.specs.Line.{line_of};
ghost use Rattle.drive_world.specs.Telling.{IsNext, NoneMay};
ghost use Rattle.drive_world.specs.WorldOf.{events_in};
ghost use Rattle.drive_world.specs.DriveOf.{drive_of, IsSetting};
ghost use Rattle.drive_world.specs.Turns.{Turns, GoesOn, IsOnWay};
ghost use Rattle.drive_answers.specs.declared.error.AnswerError.TheVariants as cause;
ghost use Rattle.drive_world.specs.declared.ends.Stop.TheVariants as stop;
ghost use Rattle.drive_world.specs.Halts.{ComesTo, HaltsFor, StopsWith};

use crate::ends::{Halt, Stop};
use crate::fate::Fate;
use crate::harness::{Harness, NoLine, Untold};
use crate::pending::Pending;
use crate::setting::Setting;
use crate::world::World;
use base::{Key, Memory};
use drive_answers::{AnswerError, read_answer};
use drive_events::push_event;
use member::StepError;
use scenario::Scenario;
use std::alloc::Global;

/// Gives the next event its fate, or where none may be sent, takes the next answer: `Some` where the drive halts.
pub(crate) fn turn<H: Harness>(
    alloc: Global,
    world: &mut World,
    setting: &Setting,
    harness: &mut H,
) -> Result<Option<Halt>, StepError>
    requires setting { IsSetting setting.now }
    requires way { IsOnWay setting.now.scenario.now world.old }
    requires goes_on { GoesOn setting.now.scenario.now.end world.old }
    ensures comes { IfOk result (λ halt. ComesTo setting.now.scenario.now setting.now.least_delay halt world.old world.new
        (H.told harness.old) (H.told harness.new) (H.gave harness.old) (H.gave harness.new)) }
    ensures way { OnOk result (IsOnWay setting.now.scenario.now world.new) }
{
    let bound = world.safe_bound(setting);
    match world.pending.first_free(bound, &world.waiting) {
        Some(key) => tell(alloc, world, setting, harness, &key),
        None => take(alloc, world, setting, harness),
    }
}

/// Gives the next event its fate, and sends the harness its line, where it has one.
fn tell<H: Harness>(
    alloc: Global,
    world: &mut World,
    setting: &Setting,
    harness: &mut H,
    key: &Key,
) -> Result<Option<Halt>, StepError>
    requires setting { IsSetting setting.now }
    requires way { IsOnWay setting.now.scenario.now world.old }
    requires next { IsNext setting.now.scenario.now setting.now.least_delay (drive_of world.old) key.now }
    ensures comes { IfOk result (λ halt. ComesTo setting.now.scenario.now setting.now.least_delay halt world.old world.new
        (H.told harness.old) (H.told harness.new) (H.gave harness.old) (H.gave harness.new)) }
    ensures way { OnOk result (IsOnWay setting.now.scenario.now world.new) }
{
    let line = advance(alloc, world, setting, key)?;
    if line.is_empty() {
        return Ok(None);
    }
    match harness.tell(line.as_slice()) {
        Ok(()) => Ok(None),
        Err(Untold::Closed) => Ok(Some(Halt::Closed)),
        Err(Untold::Memory) => Err(StepError::Memory),
    }
}

/// Gives the next event its fate. Returns the line that is to be sent: no bytes where there is none.
pub(crate) fn advance(
    alloc: Global,
    world: &mut World,
    setting: &Setting,
    key: &Key,
) -> Result<Vec<u8>, StepError>
    requires setting { IsSetting setting.now }
    requires way { IsOnWay setting.now.scenario.now world.old }
    requires next { IsNext setting.now.scenario.now setting.now.least_delay (drive_of world.old) key.now }
    ensures turns { IfOk result (λ line. (told : List ℕ) (gave : List (List ℕ))
        → Turns setting.now.scenario.now setting.now.least_delay world.old world.new told (told ++ line.items) gave gave) }
    ensures way { OnOk result (IsOnWay setting.now.scenario.now world.new) }
{
    let Some(fate) = world.fate(key) else {
        return Ok(Vec::new(alloc));
    };
    match fate {
        Fate::Untold => {
            world.settle(alloc, setting, key, Vec::new(alloc))?;
            Ok(Vec::new(alloc))
        }
        Fate::Told => {
            let line = line_of(alloc, &world.pending, setting.scenario, key, !world.begun)?;
            world.begun = true;
            world.settle(alloc, setting, key, Vec::new(alloc))?;
            Ok(line)
        }
        Fate::Asked => {
            let line = line_of(alloc, &world.pending, setting.scenario, key, !world.begun)?;
            world.begun = true;
            world.waiting.push(key)?;
            Ok(line)
        }
    }
}

/// The line for the harness of an event that pends.
fn line_of(
    alloc: Global,
    pending: &Pending,
    scenario: &Scenario,
    key: &Key,
    is_first: bool,
) -> Result<Vec<u8>, Memory>
    requires to { key.now.to < member_count scenario.now }
    requires from { key.now.from < member_count scenario.now }
    ensures { IfOk result (λ line. (content : AContent) → get (events_in pending.now) key.now ≡ Some content
        → line.items ≡ line_of scenario.now is_first key.now content) }
{
    let mut line = Vec::new(alloc);
    let Some(content) = pending.content(key) else {
        return Ok(line);
    };
    push_event(alloc, &mut line, scenario, key, content, is_first)?;
    Ok(line)
}

/// The first event that waits takes the next answer.
fn take<H: Harness>(
    alloc: Global,
    world: &mut World,
    setting: &Setting,
    harness: &mut H,
) -> Result<Option<Halt>, StepError>
    requires setting { IsSetting setting.now }
    requires way { IsOnWay setting.now.scenario.now world.old }
    requires goes_on { GoesOn setting.now.scenario.now.end world.old }
    requires none { NoneMay setting.now.scenario.now setting.now.least_delay (drive_of world.old) }
    ensures comes { IfOk result (λ halt. ComesTo setting.now.scenario.now setting.now.least_delay halt world.old world.new
        (H.told harness.old) (H.told harness.new) (H.gave harness.old) (H.gave harness.new)) }
    ensures way { OnOk result (IsOnWay setting.now.scenario.now world.new) }
{
    let Some(key) = world.waiting.first() else {
        return Ok(None);
    };
    let place = world.answers.saturating_add(1);
    let line = match harness.answer() {
        Ok(line) => line,
        Err(none) => return no_line(alloc, world, setting.scenario, &key, none, place),
    };
    let exits = world.exits(setting.scenario, &key);
    let actions = match read_answer(alloc, setting.scenario, key.to, exits, line.as_slice()) {
        Ok(actions) => actions,
        Err(error) => return no_answer(alloc, world, setting.scenario, &key, error, place),
    };
    world.answers = place;
    world.waiting.pop();
    world.settle(alloc, setting, &key, actions)?;
    Ok(None)
}

/// How a drive halts where no line came for an event.
fn no_line(
    alloc: Global,
    world: &World,
    scenario: &Scenario,
    key: &Key,
    none: NoLine,
    place: u64,
) -> Result<Option<Halt>, StepError>
    requires to { key.now.to < member_count scenario.now }
    requires from { key.now.from < member_count scenario.now }
    ensures { IfOk result (HaltsFor scenario.now world.now key.now place none) }
{
    match none {
        NoLine::Long => stopped(alloc, world, scenario, key, place, Stop::Long),
        NoLine::Ended => stopped(alloc, world, scenario, key, place, Stop::Ended),
        NoLine::Closed => Ok(Some(Halt::Closed)),
        NoLine::Memory => Err(StepError::Memory),
    }
}

/// How a drive halts where a line is no answer to an event.
fn no_answer(
    alloc: Global,
    world: &World,
    scenario: &Scenario,
    key: &Key,
    error: AnswerError,
    place: u64,
) -> Result<Option<Halt>, StepError>
    requires to { key.now.to < member_count scenario.now }
    requires from { key.now.from < member_count scenario.now }
    ensures { IfOk result (λ halt. (error ≢ cause.Memory) × StopsWith scenario.now world.now key.now place (stop.Answer error) halt) }
{
    match error {
        AnswerError::Memory => Err(StepError::Memory),
        _ => stopped(alloc, world, scenario, key, place, Stop::Answer(error)),
    }
}

/// How a drive halts whose answer at this place is none. The first event that is sent is the first that is answered.
fn stopped(
    alloc: Global,
    world: &World,
    scenario: &Scenario,
    key: &Key,
    place: u64,
    stop: Stop,
) -> Result<Option<Halt>, StepError>
    requires to { key.now.to < member_count scenario.now }
    requires from { key.now.from < member_count scenario.now }
    ensures { IfOk result (StopsWith scenario.now world.now key.now place stop) }
{
    let mut event = line_of(alloc, &world.pending, scenario, key, place == 1)?;
    event.pop();
    Ok(Some(Halt::Stopped { place, stop, event }))
}
