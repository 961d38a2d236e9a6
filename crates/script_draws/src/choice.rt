//! The choice of some members of a group.
ghost use Rattle.std.specs.Prelude.{◌≡◌, ◌≤◌, ◌<◌, ◌^◌, ◌++◌, ◌∷◌, [], not, if◌then◌else◌, filter, IfOk, OnOk, length, vec_len, Some};
ghost use Rattle.streams.specs.Draw.{words_of};
ghost use Rattle.script_draws.specs.Choice.{chosen_of, left_after, is_among};

use crate::stream::TextStream;
use base::{MemberId, Memory};
use std::alloc::Global;

/// So many of these members, in their order: as often one at a drawn place is taken out of those that are left.
/// All where no number is said, or as many as there are; then nothing is drawn.
///
/// # Errors
///
/// Memory was refused; the stream may have gone on.
pub fn chosen(
    alloc: Global,
    stream: &mut TextStream,
    members: &[MemberId],
    count: Option<u64>,
) -> Result<Vec<MemberId>, Memory>
    requires { length members.now < 2 ^ 32 }
    ensures { IfOk result (λ made. (made.items, words_of stream.new) ≡ chosen_of count members.now (words_of stream.old)) }
{
    match count {
        Some(count) => {
            if members.len() as u64 <= count {
                all_of(alloc, members)
            } else {
                some_of(alloc, stream, members, count)
            }
        }
        None => all_of(alloc, members),
    }
}

/// All of them.
fn all_of(alloc: Global, members: &[MemberId]) -> Result<Vec<MemberId>, Memory>
    ensures { IfOk result (λ made. made.items ≡ members.now) }
{
    Ok(members.to_vec(alloc)?)
}

/// So many of the members, which are more, in their order.
fn some_of(
    alloc: Global,
    stream: &mut TextStream,
    members: &[MemberId],
    count: u64,
) -> Result<Vec<MemberId>, Memory>
    requires few { length members.now < 2 ^ 32 }
    requires more { count < length members.now }
    ensures { IfOk result (λ made. (made.items, words_of stream.new) ≡ chosen_of (Some count) members.now (words_of stream.old)) }
{
    let mut left = all_of(alloc, members)?;
    take_out(stream, &mut left, count);
    without(alloc, members, left.as_slice())
}

/// Takes one at a drawn place out of those that are left, so many times over.
fn take_out(stream: &mut TextStream, left: &mut Vec<MemberId>, times: u64)
    requires few { vec_len left.old < 2 ^ 32 }
    requires enough { times ≤ vec_len left.old }
    ensures { (left.new.items, words_of stream.new) ≡ left_after times left.old.items (words_of stream.old) }
{
    let mut remaining = times;
    while remaining > 0 {
        let place = stream.below(left.len() as u32);
        let _ = left.remove(place as usize);
        remaining -= 1;
    }
}

/// The members that aren't left, in their order.
fn without(alloc: Global, members: &[MemberId], left: &[MemberId]) -> Result<Vec<MemberId>, Memory>
    ensures { IfOk result (λ made. made.items ≡ filter (λ item. not (is_among left.now item)) members.now) }
{
    let mut chosen = Vec::new(alloc);
    for member in members {
        add_unless_left(&mut chosen, left, *member)?;
    }
    Ok(chosen)
}

/// Adds a member, where it isn't left.
fn add_unless_left(
    chosen: &mut Vec<MemberId>,
    left: &[MemberId],
    member: MemberId,
) -> Result<(), Memory>
    ensures { OnOk result (chosen.new.items ≡ chosen.old.items ++ (if not (is_among left.now member) then member ∷ [] else [])) }
{
    if !left.contains(&member) {
        chosen.push(member)?;
    }
    Ok(())
}
