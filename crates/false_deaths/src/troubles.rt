//! What a member was in a time: slow, paused, blocked, cut off or well.
ghost use Rattle.std.specs.Prelude.{◌≡◌, ◌<◌, ◌++◌, OnOk, Some, None, if◌then◌else◌, filter};
ghost use Rattle.std.specs.String.{string_bytes};
ghost use Rattle.std.specs.List.{last_or};
ghost use Rattle.scenario.specs.Setup.{member_count};
ghost use Rattle.false_deaths.specs.Troubles.{meets, slows_in, pauses_in, cuts_in, sentence_opening, time_words, slow_sentence, pause_sentence, block_sentence, cut_sentence, slow_told, pause_told, block_told, cut_told, well_told, states_told, states};

use base::{MemberId, Moment};
use drawing::{push_escaped, push_timed};
use member_timelines::is_cut_of;
use scenario::{Cut, Pause, Scenario, Slow};
use std::alloc::AllocError;
use ticks::Tick;

/// Appends what the member was from a first moment up to a last one.
pub(crate) fn push_states(
    text: &mut String,
    time: Option<Tick>,
    scenario: &Scenario,
    member: MemberId,
    first: Moment,
    last: Moment,
) -> Result<(), AllocError>
    requires { member < member_count scenario.now }
    ensures { OnOk result (string_bytes text.new ≡ string_bytes text.old ++ states time scenario.now member first last) }
{
    let group = scenario.group_number(member);
    let slow = last_slow(scenario.slows(), member, first, last);
    let pause = last_pause(scenario.pauses(), member, first, last);
    let block = last_pause(scenario.blocks(), member, first, last);
    let cut = last_cut(scenario.cuts(), group, first, last);
    push_all(
        text,
        time,
        scenario.name(member),
        &slow,
        &pause,
        &block,
        &cut,
    )
}

/// Appends what a member of that name was.
#[tactic(auto, unfolding(crate::specs::Troubles::states_told))]
fn push_all(
    text: &mut String,
    time: Option<Tick>,
    name: &str,
    slow: &Option<Slow>,
    pause: &Option<Pause>,
    block: &Option<Pause>,
    cut: &Option<Cut>,
) -> Result<(), AllocError>
    ensures { OnOk result (string_bytes text.new ≡ string_bytes text.old ++ states_told time name.now slow.now pause.now block.now cut.now) }
{
    push_slow_told(text, time, name, slow)?;
    push_pause_told(text, time, name, pause)?;
    push_block_told(text, time, name, block)?;
    push_cut_told(text, time, name, cut)?;
    push_well(text, name, slow, pause, block, cut)?;
    Ok(())
}

/// Appends that it was slow, where it was.
fn push_slow_told(
    text: &mut String,
    time: Option<Tick>,
    name: &str,
    slow: &Option<Slow>,
) -> Result<(), AllocError>
    ensures { OnOk result (string_bytes text.new ≡ string_bytes text.old ++ slow_told time name.now slow.now) }
{
    match slow {
        Some(slow) => push_slow(
            text,
            time,
            name,
            slow.extra,
            slow.from.ticks(),
            slow.until.ticks(),
        ),
        None => Ok(()),
    }
}

/// Appends that it was paused, where it was.
fn push_pause_told(
    text: &mut String,
    time: Option<Tick>,
    name: &str,
    pause: &Option<Pause>,
) -> Result<(), AllocError>
    ensures { OnOk result (string_bytes text.new ≡ string_bytes text.old ++ pause_told time name.now pause.now) }
{
    match pause {
        Some(pause) => push_pause(text, time, name, pause.from.ticks(), pause.until.ticks()),
        None => Ok(()),
    }
}

/// Appends that it was blocked, where it was.
fn push_block_told(
    text: &mut String,
    time: Option<Tick>,
    name: &str,
    block: &Option<Pause>,
) -> Result<(), AllocError>
    ensures { OnOk result (string_bytes text.new ≡ string_bytes text.old ++ block_told time name.now block.now) }
{
    match block {
        Some(block) => push_block(text, time, name, block.from.ticks(), block.until.ticks()),
        None => Ok(()),
    }
}

/// Appends that it was cut off, where it was.
fn push_cut_told(
    text: &mut String,
    time: Option<Tick>,
    name: &str,
    cut: &Option<Cut>,
) -> Result<(), AllocError>
    ensures { OnOk result (string_bytes text.new ≡ string_bytes text.old ++ cut_told time name.now cut.now) }
{
    match cut {
        Some(cut) => push_cut(text, time, name, cut.at.ticks(), cut.until.ticks()),
        None => Ok(()),
    }
}

/// Appends that it was well, where it was nothing else.
fn push_well(
    text: &mut String,
    name: &str,
    slow: &Option<Slow>,
    pause: &Option<Pause>,
    block: &Option<Pause>,
    cut: &Option<Cut>,
) -> Result<(), AllocError>
    ensures { OnOk result (string_bytes text.new ≡ string_bytes text.old ++ well_told name.now slow.now pause.now block.now cut.now) }
{
    if slow.is_some() || pause.is_some() || block.is_some() || cut.is_some() {
        return Ok(());
    }
    open_sentence(text, name, " was well.")
}

/// Begins a sentence about a member of that name.
#[tactic(auto, unfolding(crate::specs::Troubles::sentence_opening))]
fn open_sentence(text: &mut String, name: &str, words: &str) -> Result<(), AllocError>
    ensures { OnOk result (string_bytes text.new ≡ string_bytes text.old ++ sentence_opening name.now words.now) }
{
    text.push_str(" ")?;
    push_escaped(text, name)?;
    text.push_str(words)
}

/// Ends a sentence by a time.
#[tactic(auto, unfolding(crate::specs::Troubles::time_words))]
fn push_time(text: &mut String, time: Option<Tick>, from: u64, until: u64) -> Result<(), AllocError>
    ensures { OnOk result (string_bytes text.new ≡ string_bytes text.old ++ time_words time from until) }
{
    text.push_str(" from ")?;
    push_timed(text, time, from)?;
    text.push_str(" until ")?;
    push_timed(text, time, until)?;
    text.push_str(".")
}

/// Appends that a member was slow.
#[tactic(auto, unfolding(crate::specs::Troubles::slow_sentence))]
fn push_slow(
    text: &mut String,
    time: Option<Tick>,
    name: &str,
    extra: u64,
    from: u64,
    until: u64,
) -> Result<(), AllocError>
    ensures { OnOk result (string_bytes text.new ≡ string_bytes text.old ++ slow_sentence time name.now extra from until) }
{
    open_sentence(text, name, " was slow by ")?;
    push_timed(text, time, extra)?;
    push_time(text, time, from, until)?;
    Ok(())
}

/// Appends that a member was paused.
#[tactic(auto, unfolding(crate::specs::Troubles::pause_sentence))]
fn push_pause(
    text: &mut String,
    time: Option<Tick>,
    name: &str,
    from: u64,
    until: u64,
) -> Result<(), AllocError>
    ensures { OnOk result (string_bytes text.new ≡ string_bytes text.old ++ pause_sentence time name.now from until) }
{
    open_sentence(text, name, " was paused")?;
    push_time(text, time, from, until)?;
    Ok(())
}

/// Appends that a member was blocked.
#[tactic(auto, unfolding(crate::specs::Troubles::block_sentence))]
fn push_block(
    text: &mut String,
    time: Option<Tick>,
    name: &str,
    from: u64,
    until: u64,
) -> Result<(), AllocError>
    ensures { OnOk result (string_bytes text.new ≡ string_bytes text.old ++ block_sentence time name.now from until) }
{
    open_sentence(text, name, " was blocked")?;
    push_time(text, time, from, until)?;
    Ok(())
}

/// Appends that a member was cut off.
#[tactic(auto, unfolding(crate::specs::Troubles::cut_sentence))]
fn push_cut(
    text: &mut String,
    time: Option<Tick>,
    name: &str,
    at: u64,
    until: u64,
) -> Result<(), AllocError>
    ensures { OnOk result (string_bytes text.new ≡ string_bytes text.old ++ cut_sentence time name.now at until) }
{
    open_sentence(text, name, " was cut off")?;
    push_time(text, time, at, until)?;
    Ok(())
}

/// Whether what holds from one moment until another holds at some moment of a time.
fn meets(first: Moment, last: Moment, from: Moment, until: Moment) -> bool
    ensures { result ≡ meets first last from until }
{
    from <= last && first < until
}

/// The last entry by which the member is slow at some moment of a time.
fn last_slow(slows: &[Slow], member: MemberId, first: Moment, last: Moment) -> Option<Slow>
    ensures { result ≡ last_or None (filter (slows_in member first last) slows.now) }
{
    let mut found = None;
    for slow in slows {
        found = later_slow(found, slow, member, first, last);
    }
    found
}

/// Whether the entry is the member's, and holds at some moment of the time.
fn is_slow_in(slow: &Slow, member: MemberId, first: Moment, last: Moment) -> bool
    ensures { result ≡ slows_in member first last slow.now }
{
    slow.member == member && meets(first, last, slow.from, slow.until)
}

/// The last pause of the member at some moment of a time, or of blocks the last.
fn last_pause(pauses: &[Pause], member: MemberId, first: Moment, last: Moment) -> Option<Pause>
    ensures { result ≡ last_or None (filter (pauses_in member first last) pauses.now) }
{
    let mut found = None;
    for pause in pauses {
        found = later_pause(found, pause, member, first, last);
    }
    found
}

/// Whether the pause is the member's, and holds at some moment of the time.
fn is_paused_in(pause: &Pause, member: MemberId, first: Moment, last: Moment) -> bool
    ensures { result ≡ pauses_in member first last pause.now }
{
    pause.member == member && meets(first, last, pause.from, pause.until)
}

/// The last cut of the group at some moment of a time.
fn last_cut(cuts: &[Cut], group: usize, first: Moment, last: Moment) -> Option<Cut>
    ensures { result ≡ last_or None (filter (cuts_in group first last) cuts.now) }
{
    let mut found = None;
    for cut in cuts {
        found = later_cut(found, cut, group, first, last);
    }
    found
}

/// Whether the cut is one of the group's, and holds at some moment of the time.
fn is_cut_in(cut: &Cut, group: usize, first: Moment, last: Moment) -> bool
    ensures { result ≡ cuts_in group first last cut.now }
{
    is_cut_of(cut, group) && meets(first, last, cut.at, cut.until)
}

/// The last entry so far, with one more.
fn later_slow(
    found: Option<Slow>,
    slow: &Slow,
    member: MemberId,
    first: Moment,
    last: Moment,
) -> Option<Slow>
    ensures { result ≡ (if slows_in member first last slow.now then Some slow.now else found) }
{
    if is_slow_in(slow, member, first, last) {
        Some(*slow)
    } else {
        found
    }
}

/// The last entry so far, with one more.
fn later_pause(
    found: Option<Pause>,
    pause: &Pause,
    member: MemberId,
    first: Moment,
    last: Moment,
) -> Option<Pause>
    ensures { result ≡ (if pauses_in member first last pause.now then Some pause.now else found) }
{
    if is_paused_in(pause, member, first, last) {
        Some(*pause)
    } else {
        found
    }
}

/// The last entry so far, with one more.
fn later_cut(
    found: Option<Cut>,
    cut: &Cut,
    group: usize,
    first: Moment,
    last: Moment,
) -> Option<Cut>
    ensures { result ≡ (if cuts_in group first last cut.now then Some cut.now else found) }
{
    if is_cut_in(cut, group, first, last) {
        Some(*cut)
    } else {
        found
    }
}
