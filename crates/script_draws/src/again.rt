//! What comes again and again: when it begins and ends, for one member by itself.
ghost use Rattle.std.specs.Prelude.{◌≡◌, ◌≤◌, ◌<◌, ◌^◌, ◌+◌, ◌++◌, ◌∷◌, [], ℕ, nat_lt, if◌then◌else◌, IfOk, OnOk, OnErr, Err, length, min, vec_len};
ghost use Rattle.streams.specs.Draw.{words_of};
ghost use Rattle.script_draws.specs.Again.{first_of_all, next_of, lasting_of, spells_of, moments_of, IsRecurrence, IsLasting};

use crate::fault::DrawFault;
use crate::stream::TextStream;
use scenario::Spell;
use std::alloc::Global;

/// When something comes again and again: in the time from one moment until before another, `every` so many ticks on
/// the mean from the end of one to the beginning of the next.
#[derive(Clone, Copy, Debug)]
pub struct Recurrence {
    pub from: u64,
    pub until: u64,
    /// From 1 to 2^31.
    pub every: u32,
}

/// How long each lasts, in ticks: `least` to `most`, from 1 to 2^31.
#[derive(Clone, Copy, Debug)]
pub struct Lasting {
    pub least: u32,
    pub most: u32,
}

/// The times of one member that come again and again.
///
/// # Errors
///
/// `TooMany` where there are more than `room`, and `Memory`; the stream may have gone on.
pub fn spells(
    alloc: Global,
    stream: &mut TextStream,
    recurrence: Recurrence,
    lasting: Lasting,
    room: u64,
) -> Result<Vec<Spell>, DrawFault>
    requires recurrence { IsRecurrence recurrence }
    requires lasting { IsLasting lasting }
    ensures made { IfOk result (λ made. (made.items, words_of stream.new) ≡ spells_of recurrence lasting (words_of stream.old)) }
    ensures within { IfOk result (λ made. length made.items ≤ room) }
    ensures too_many { result ≡ Err DrawFault.TooMany → room < length (spells_of recurrence lasting (words_of stream.old)).0 }
{
    let mut spells = Vec::new(alloc);
    let mut begins = first(stream, recurrence);
    while begins < recurrence.until {
        if spells.len() as u64 >= room {
            return Err(DrawFault::TooMany);
        }
        let ends = begins + lasts(stream, lasting);
        add(&mut spells, begins, ends, recurrence.until)?;
        begins = next(stream, recurrence, ends);
    }
    Ok(spells)
}

/// Adds a time, which ends at a moment at the latest.
fn add(spells: &mut Vec<Spell>, from: u64, ends: u64, until: u64) -> Result<(), DrawFault>
    ensures made { OnOk result (spells.new.items ≡ spells.old.items ++ (record { from = from; until = min ends until } ∷ [])) }
    ensures memory { OnErr result (result ≡ Err DrawFault.Memory) }
{
    spells.push(Spell {
        from,
        until: ends.min(until),
    })?;
    Ok(())
}

/// The moments at which a member crashes or leaves again and again, each after its start. It is back `back` ticks
/// later each time, from 1 to 2^40.
///
/// # Errors
///
/// `TooMany` where there are more than `room`, and `Memory`; the stream may have gone on.
pub fn moments(
    alloc: Global,
    stream: &mut TextStream,
    recurrence: Recurrence,
    back: u64,
    start: u64,
    room: u64,
) -> Result<Vec<u64>, DrawFault>
    requires recurrence { IsRecurrence recurrence }
    requires back { back ≤ 2 ^ 40 }
    ensures made { IfOk result (λ made. (made.items, words_of stream.new) ≡ moments_of recurrence back start (words_of stream.old)) }
    ensures within { IfOk result (λ made. length made.items ≤ room) }
    ensures too_many { result ≡ Err DrawFault.TooMany → room < length (moments_of recurrence back start (words_of stream.old)).0 }
{
    let mut moments = Vec::new(alloc);
    let mut moment = first(stream, recurrence);
    while moment < recurrence.until {
        make(&mut moments, moment, start, room)?;
        moment = next(stream, recurrence, moment + back);
    }
    Ok(moments)
}

/// Adds a moment, where it is after the member's start.
fn make(moments: &mut Vec<u64>, moment: u64, start: u64, room: u64) -> Result<(), DrawFault>
    requires { vec_len moments.old ≤ room }
    ensures made { OnOk result (moments.new.items ≡ (if nat_lt start moment then moments.old.items ++ (moment ∷ []) else moments.old.items)) }
    ensures within { OnOk result (vec_len moments.new ≤ room) }
    ensures full { result ≡ Err DrawFault.TooMany → (vec_len moments.old ≡ room) × (start < moment) }
{
    if moment <= start {
        return Ok(());
    }
    if moments.len() as u64 == room {
        return Err(DrawFault::TooMany);
    }
    moments.push(moment)?;
    Ok(())
}

/// The first beginning.
fn first(stream: &mut TextStream, recurrence: Recurrence) -> u64
    requires { IsRecurrence recurrence }
    ensures drawn { (result, words_of stream.new) ≡ first_of_all recurrence (words_of stream.old) }
    ensures low { result < 2 ^ 41 }
{
    recurrence.from + u64::from(stream.below(recurrence.every))
}

/// The beginning behind an end.
fn next(stream: &mut TextStream, recurrence: Recurrence, ended: u64) -> u64
    requires recurrence { IsRecurrence recurrence }
    requires low { ended < 2 ^ 42 }
    ensures drawn { (result, words_of stream.new) ≡ next_of recurrence ended (words_of stream.old) }
    ensures later { ended < result }
    ensures low { result < 2 ^ 43 }
{
    ended + 1 + u64::from(stream.below(recurrence.every - 1 + recurrence.every))
}

/// How long a time lasts.
fn lasts(stream: &mut TextStream, lasting: Lasting) -> u64
    requires { IsLasting lasting }
    ensures drawn { (result, words_of stream.new) ≡ lasting_of lasting (words_of stream.old) }
    ensures low { result ≤ 2 ^ 31 }
{
    u64::from(lasting.least) + u64::from(stream.below(lasting.most - lasting.least + 1))
}

#[cfg(test)]
mod tests {
    use super::{Lasting, Recurrence, moments, spells};
    use crate::choice::chosen;
    use crate::fault::DrawFault;
    use crate::stream::TextStream;
    use base::MemberId;

    /// Two of five members are chosen and pause again and again: the example of the format's page.
    #[test]
    fn chosen_members_pause_as_worked_out(rt: HostRuntime) {
        let alloc = rt.alloc();
        let mut stream = TextStream::of(7);
        let group = [
            MemberId(0),
            MemberId(1),
            MemberId(2),
            MemberId(3),
            MemberId(4),
        ];
        let Ok(members) = chosen(alloc, &mut stream, &group, Some(2)) else {
            panic!(rt; "memory");
        };
        assert!(rt; members.as_slice() == [MemberId(0), MemberId(3)].as_slice());
        let recurrence = Recurrence {
            from: 60_000,
            until: 1_800_000,
            every: 600_000,
        };
        let lasting = Lasting {
            least: 2000,
            most: 8000,
        };
        let Ok(made) = spells(alloc, &mut stream, recurrence, lasting, 3) else {
            panic!(rt; "more than three");
        };
        let wanted = [
            (463_518, 465_687),
            (831_369, 837_538),
            (1_288_045, 1_294_793),
        ];
        assert!(rt; made.len() == 3);
        for (place, spell) in made.iter().enumerate() {
            if place < 3 {
                let (from, until) = wanted[place];
                assert!(rt; spell.from == from && spell.until == until, "{place}");
            }
        }
    }

    /// More than there is room for are refused, and moments up to the start are left out.
    #[test]
    fn room_and_start_are_kept(rt: HostRuntime) {
        let alloc = rt.alloc();
        let recurrence = Recurrence {
            from: 0,
            until: 10,
            every: 1,
        };
        let mut stream = TextStream::of(1);
        let Ok(made) = moments(alloc, &mut stream, recurrence, 1, 3, 3) else {
            panic!(rt; "more than three");
        };
        assert!(rt; made.as_slice() == [4, 6, 8].as_slice());
        let mut other = TextStream::of(1);
        let refused = moments(alloc, &mut other, recurrence, 1, 3, 2);
        assert!(rt; matches!(refused, Err(DrawFault::TooMany)));
    }
}
