//! A board of three items at one seat.
ghost use Rattle.std.specs.Prelude.{◌<◌};
ghost use Rattle.board.specs.Seats.{IsSeatOf, IsSameSeat};

use board::{Board, ItemRule, Seat, settle};
use std::process::Abort;
use std::sync::Wait;
use std::test::Fail;

// Numbers below 100, each of which stands for itself.
struct Small;

impl ItemRule<u64, u64> for Small {
    ghost use Rattle.std.specs.Prelude.{◌<◌};

    ghost stands_for = { λ x. x };

    ghost belongs = { λ x. x < 100 };

    fn entry_of(item: &u64) -> u64 {
        *item
    }
}

type Numbers = Board<u64, u64, Small>;

// Three items find room, and a fourth comes back.
fn fill<R: Abort + Wait>(rt: &R, board: &Numbers, seat: &mut Seat<u64, u64>)
    requires { IsSeatOf board.now seat.old }
    ensures { IsSameSeat seat.old seat.new }
{
    assert!(rt; board.deal(rt, seat, 7).is_ok());
    assert!(rt; board.deal(rt, seat, 5).is_ok());
    assert!(rt; board.deal(rt, seat, 9).is_ok());
    assert!(rt; board.deal(rt, seat, 8) == Err(8));
}

// The three leave, the first one first, and then nothing lies there.
fn empty<R: Abort + Wait>(rt: &R, board: &Numbers, seat: &mut Seat<u64, u64>)
    requires { IsSeatOf board.now seat.old }
    ensures { IsSameSeat seat.old seat.new }
{
    assert!(rt; board.take(rt, seat) == Some(7));
    assert!(rt; board.take(rt, seat) == Some(5));
    assert!(rt; board.take(rt, seat) == Some(9));
    assert!(rt; board.take(rt, seat) == None);
}

#[test]
fn three_shards_leave_in_their_order(rt: HostRuntime) -> Result<(), Fail> {
    let (board, mut seats) = Numbers::new(rt.alloc(), 3, 1)?;
    let seat = &mut seats[0];
    fill(&rt, &board, seat);
    empty(&rt, &board, seat);
    fill(&rt, &board, seat);
    empty(&rt, &board, seat);
    assert!(rt; settle(&rt, board, seats) == 0);
    Ok(())
}
