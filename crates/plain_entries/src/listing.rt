//! The plain entries of a list of any kind, entry by entry and member by member, in the order of draws.
ghost use Rattle.std.specs.Prelude.{◌≡◌, ◌≤◌, ◌<◌, ◌+◌, ◌++◌, map, All, IfOk, OnOk, OnErr, Err, length, if◌then◌else◌};
ghost use Rattle.streams.specs.Draw.{words_of};
ghost use Rattle.script_draws.specs.Turns.{behind};
ghost use Rattle.plain_entries.specs.Who.{turns_of};
ghost use Rattle.plain_entries.specs.Entries.{entry_of, list_of, made_again, members_of, plain_at, start_in, turn_of, IsEntry};

use crate::drawing::Drawing;
use crate::entry::Entry;
use crate::plain::Plain;
use crate::timing::When;
use crate::turn::Turn;
use base::{MemberId, Moment};
use script_draws::DrawFault;
use std::alloc::Global;

/// The plain entries of a list, entry by entry. `starts` has each member's start, by its number.
///
/// # Errors
///
/// `TooMany` where `every` makes more than there is room for, and `Memory`.
pub(crate) fn plain_list<W: When>(
    alloc: Global,
    drawing: &mut Drawing,
    entries: &[Entry<W>],
    starts: &[Moment],
) -> Result<Vec<Plain<W::Time>>, DrawFault>
    requires members { length starts.now ≤ 16384 }
    requires sound { All (IsEntry W.is_sound (length starts.now)) entries.now }
    ensures made { IfOk result (λ made. (made.items, words_of drawing.new.stream) ≡ list_of W.timing (start_in starts.now) entries.now (words_of drawing.old.stream)) }
    ensures room { IfOk result (λ made. drawing.new.room + made_again made.items ≡ drawing.old.room) }
    ensures too_many { result ≡ Err DrawFault.TooMany
        → drawing.old.room < made_again (list_of W.timing (start_in starts.now) entries.now (words_of drawing.old.stream)).0 }
{
    let mut made = Vec::new(alloc);
    for (place, entry) in entries.iter().enumerate() {
        add_entry(alloc, drawing, &mut made, place, entry, starts)?;
    }
    Ok(made)
}

/// Adds the plain entries of one entry.
fn add_entry<W: When>(
    alloc: Global,
    drawing: &mut Drawing,
    made: &mut Vec<Plain<W::Time>>,
    place: usize,
    entry: &Entry<W>,
    starts: &[Moment],
) -> Result<(), DrawFault>
    requires members { length starts.now ≤ 16384 }
    requires sound { IsEntry W.is_sound (length starts.now) entry.now }
    ensures made { OnOk result ((made.new.items, words_of drawing.new.stream)
        ≡ behind made.old.items (entry_of W.timing (start_in starts.now) place entry.now (words_of drawing.old.stream))) }
    ensures room { OnOk result (drawing.new.room + made_again made.new.items ≡ drawing.old.room + made_again made.old.items) }
    ensures too_many { result ≡ Err DrawFault.TooMany
        → drawing.old.room < made_again (entry_of W.timing (start_in starts.now) place entry.now (words_of drawing.old.stream)).0 }
{
    let members = turns(drawing.members(alloc, &entry.who)?, entry.when.recurs())?;
    add_members(
        alloc,
        drawing,
        made,
        place,
        &entry.when,
        members.as_slice(),
        starts,
    )
}

/// The members of an entry in the order in which they draw: by their numbers where it comes again and again.
fn turns(mut members: Vec<MemberId>, recurs: bool) -> Result<Vec<MemberId>, DrawFault>
    ensures made { IfOk result (λ made. made.items ≡ turns_of recurs members.items) }
    ensures memory { OnErr result (result ≡ Err DrawFault.Memory) }
{
    if recurs {
        members.sort()?;
    }
    Ok(members)
}

/// Adds the plain entries of each member of one entry.
fn add_members<W: When>(
    alloc: Global,
    drawing: &mut Drawing,
    made: &mut Vec<Plain<W::Time>>,
    entry: usize,
    when: &W,
    members: &[MemberId],
    starts: &[Moment],
) -> Result<(), DrawFault>
    requires few { length members.now ≤ 16384 }
    requires known { All (λ member. member < length starts.now) members.now }
    requires sound { W.is_sound when.now }
    ensures made { OnOk result ((made.new.items, words_of drawing.new.stream)
        ≡ behind made.old.items (members_of W.timing (start_in starts.now) entry when.now members.now (words_of drawing.old.stream))) }
    ensures room { OnOk result (drawing.new.room + made_again made.new.items ≡ drawing.old.room + made_again made.old.items) }
    ensures too_many { result ≡ Err DrawFault.TooMany → drawing.old.room
        < made_again (members_of W.timing (start_in starts.now) entry when.now members.now (words_of drawing.old.stream)).0 }
{
    for (k, member) in members.iter().enumerate() {
        let start = starts[member.index()];
        let turn = Turn {
            entry,
            k,
            member: *member,
            start,
        };
        add_member(alloc, drawing, made, when, &turn)?;
    }
    Ok(())
}

/// Adds the plain entries of one member.
fn add_member<W: When>(
    alloc: Global,
    drawing: &mut Drawing,
    made: &mut Vec<Plain<W::Time>>,
    when: &W,
    turn: &Turn,
) -> Result<(), DrawFault>
    requires few { turn.now.k < 16384 }
    requires sound { W.is_sound when.now }
    ensures made { OnOk result ((made.new.items, words_of drawing.new.stream)
        ≡ behind made.old.items (turn_of W.timing when.now turn.now (words_of drawing.old.stream))) }
    ensures room { OnOk result (drawing.new.room + made_again made.new.items ≡ drawing.old.room + made_again made.old.items) }
    ensures too_many { result ≡ Err DrawFault.TooMany → drawing.old.room < made_again (turn_of W.timing when.now turn.now (words_of drawing.old.stream)).0 }
{
    let room = drawing.room;
    let times = when.times(alloc, &mut drawing.stream, turn.k as u64, turn.start, room)?;
    let again = when.recurs();
    drawing.room -= made_by_every(again, times.len());
    add_times(made, turn.entry, turn.member, again, times.as_slice())
}

/// How many of so many entries `every` makes: all or none.
fn made_by_every(again: bool, count: usize) -> u64
    ensures { result ≡ (if again then count else 0) }
{
    if again { count as u64 } else { 0 }
}

/// Adds an entry of one member for each of these times.
fn add_times<T: Copy>(
    made: &mut Vec<Plain<T>>,
    entry: usize,
    member: MemberId,
    again: bool,
    times: &[T],
) -> Result<(), DrawFault>
    ensures made { OnOk result (made.new.items ≡ made.old.items ++ map (plain_at entry member again) times.now) }
    ensures memory { OnErr result (result ≡ Err DrawFault.Memory) }
{
    for time in times {
        made.push(Plain {
            entry,
            member,
            time: *time,
            again,
        })?;
    }
    Ok(())
}
