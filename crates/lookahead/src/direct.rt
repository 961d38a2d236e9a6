//! The least delay of a direct link between each two parts, from which the lookahead is computed.
ghost use Rattle.std.specs.Prelude.{◌≡◌, ℕ, ◌+◌, ◌<◌, ◌≤◌, length, IfOk};
ghost use Rattle.scenario.specs.Setup.{Setup, member_count};
ghost use Rattle.links.specs.Arrival.{AreLinksOf};
ghost use Rattle.lookahead.specs.Between.{part_number};
ghost use Rattle.lookahead.specs.Direct.{BelongTo, AreDirectUpTo};

use crate::least::lesser_length;
use crate::lengths::Lengths;
use base::{MemberId, Memory};
use links::Links;
use scenario::Division;
use std::alloc::Global;

/// The least delay of a link from a member of each part to a member of each other part, or `Memory`
/// where it was refused. It passes over the members that are marked: each has a twin before it.
pub(crate) fn direct_lengths(
    alloc: Global,
    division: &Division,
    links: &Links,
    twins: &[bool],
) -> Result<Lengths, Memory>
    requires few { length division.now.part_of ≤ 16384 }
    requires parts { division.now.parts ≤ 64 }
    requires marks { length twins.now ≡ length division.now.part_of }
    ensures { IfOk result (λ lengths. (s : Setup) → BelongTo links.now division.now twins.now s
        → AreDirectUpTo division.now.parts s (part_number division.now) (member_count s) 0 lengths) }
{
    let mut lengths = Lengths::new(alloc)?;
    for from in 0..division.members() {
        if !twins[from] {
            take_links_from(&mut lengths, division, links, twins, from);
        }
    }
    Ok(lengths)
}

/// Takes in the delays of the links from one member to those that aren't marked.
fn take_links_from(
    lengths: &mut Lengths,
    division: &Division,
    links: &Links,
    twins: &[bool],
    from: usize,
)
    requires few { length division.now.part_of ≤ 16384 }
    requires marks { length twins.now ≡ length division.now.part_of }
    requires parts { division.now.parts ≤ 64 }
    requires from { from < length division.now.part_of }
    ensures { (s : Setup) → BelongTo links.now division.now twins.now s
        → AreDirectUpTo division.now.parts s (part_number division.now) from 0 lengths.old
        → AreDirectUpTo division.now.parts s (part_number division.now) (from + 1) 0 lengths.new }
{
    for to in 0..division.members() {
        if !twins[to] {
            take_link(lengths, division, links, from, to);
        }
    }
}

/// Takes in the delay of the link from one member to another, where they are in different parts.
fn take_link(lengths: &mut Lengths, division: &Division, links: &Links, from: usize, to: usize)
    requires few { length division.now.part_of ≤ 16384 }
    requires parts { division.now.parts ≤ 64 }
    requires from { from < length division.now.part_of }
    requires to { to < length division.now.part_of }
    ensures { (s : Setup) → AreLinksOf links.now s → length division.now.part_of ≡ member_count s
        → AreDirectUpTo division.now.parts s (part_number division.now) from to lengths.old
        → AreDirectUpTo division.now.parts s (part_number division.now) from (to + 1) lengths.new }
{
    let sender = MemberId(from as u16);
    let receiver = MemberId(to as u16);
    let from_part = division.part(sender);
    let to_part = division.part(receiver);
    if from_part == to_part {
        return;
    }
    let delay = lesser_length(
        lengths.at(from_part, to_part),
        Some(links.delay(sender, receiver)),
    );
    lengths.put(from_part, to_part, delay);
}
