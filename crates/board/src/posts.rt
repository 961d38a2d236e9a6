//! The seats of a board go out as posts, and come back.
ghost use Rattle.std.specs.Prelude.{◌≡◌, ◌+◌, length, IfOk};
ghost use Rattle.std.specs.List.{All, flat_map};
ghost use Rattle.board.specs.Deal.{whole};
ghost use Rattle.board.specs.Posts.{dealt_at, taken_at, HasNone};
ghost use Rattle.board.specs.Records.{all_dealt, all_taken, dealt_in, own_dealt, own_taken, taken_in};
ghost use Rattle.board.specs.Seats.{AreAllSeats, HasEmptyBags, dealt, taken};
ghost use Rattle.board.specs.Sites.{table_of, AreSingleSeats};

use crate::post::Post;
use crate::record::{BoardRecord, SeatRecord};
use crate::rule::ItemRule;
use crate::seats::{Board, Seat};
use crate::site::Site;
use base::Memory;
use std::alloc::Global;

/// A post for each seat of the board, which has as many seats as a board may have, so one share each. Nothing was
/// dealt or taken there.
pub fn posts_at<'b, T: Drop, V: Drop, S: ItemRule<T, V>, J: Site>(
    alloc: Global,
    board: &'b Board<T, V, S>,
    mut seats: Vec<Seat<T, V>>,
) -> Result<Vec<Post<'b, T, V, S, J>>, Memory>
    requires here { table_of board.now ≡ J.table }
    requires all { AreAllSeats board.now seats.items × All HasEmptyBags seats.items }
    requires count { length seats.items ≡ whole }
    ensures count { IfOk result (λ posts. length posts.items ≡ whole) }
    ensures none { IfOk result (λ posts. All HasNone posts.items) }
{
    let mut posts = Vec::new(alloc);
    while let Some(seat) = seats.pop() {
        match posts.push(Post::new(board, seat)) {
            Ok(()) => {}
            Err(_) => return Err(Memory),
        }
    }
    Ok(posts)
}

/// The seats of these posts, and what was dealt and taken there: at the first post, and at the others. Where
/// they are as many as a board may have, they are all its seats.
pub fn seats_of<'b, T: Drop, V: Drop, S: ItemRule<T, V>, J: Site>(
    alloc: Global,
    board: &Board<T, V, S>,
    own: Post<'b, T, V, S, J>,
    others: Vec<Post<'b, T, V, S, J>>,
) -> Result<(Vec<Seat<T, V>>, BoardRecord<V>), Memory>
    requires { table_of board.now ≡ J.table }
    ensures seats { IfOk result (λ r. AreSingleSeats board.now r.0.items) }
    ensures count { IfOk result (λ r. length r.0.items ≡ length others.entry.items + 1) }
    ensures own { IfOk result (λ r. (own_dealt r.1 ≡ dealt_at own.entry) × (own_taken r.1 ≡ taken_at own.entry)) }
    ensures dealt { IfOk result (λ r. all_dealt r.1 ≡ flat_map dealt r.0.items) }
    ensures taken { IfOk result (λ r. all_taken r.1 ≡ flat_map taken r.0.items) }
{
    let (mut seats, records) = seats_and_records(alloc, board, others)?;
    let (seat, own) = own.leave(board);
    seats.push(seat)?;
    Ok((
        seats,
        BoardRecord {
            own,
            others: records,
        },
    ))
}

/// The seats of these posts, and what was dealt and taken at each.
fn seats_and_records<'b, T: Drop, V: Drop, S: ItemRule<T, V>, J: Site>(
    alloc: Global,
    board: &Board<T, V, S>,
    mut posts: Vec<Post<'b, T, V, S, J>>,
) -> Result<(Vec<Seat<T, V>>, Vec<SeatRecord<V>>), Memory>
    requires { table_of board.now ≡ J.table }
    ensures seats { IfOk result (λ r. AreSingleSeats board.now r.0.items) }
    ensures count { IfOk result (λ r. length r.0.items ≡ length posts.entry.items) }
    ensures dealt { IfOk result (λ r. dealt_in r.1.items ≡ flat_map dealt r.0.items) }
    ensures taken { IfOk result (λ r. taken_in r.1.items ≡ flat_map taken r.0.items) }
{
    let mut seats = Vec::new(alloc);
    let mut records = Vec::new(alloc);
    while let Some(post) = posts.pop() {
        let (seat, record) = post.leave(board);
        seats.push(seat)?;
        records.push(record)?;
    }
    Ok((seats, records))
}
