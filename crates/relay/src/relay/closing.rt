//! The end of a relay: both its seats come together again, and what was sent is what was received.
ghost use Rattle.std.specs.Prelude.{◌≡◌, ◌++◌, true, List};
ghost use Rattle.relay.specs.Lots.{has_last};
ghost use Rattle.relay.specs.Seats.{sent_by, taken_by, IsSender, IsTaker};

use super::{Relay, SendSeat, TakeSeat};
use crate::item::BatchRule;
use crate::roles::Both;
use crate::rule::Left;

/// Ends a relay, given both its seats: what was sent is what was received, and then what still lies in it. Where
/// the last item was received, nothing lies there.
pub fn close<T: Drop, L, G, S: BatchRule<T, L, G>>(
    relay: &Relay<T, L, G, S>,
    sender: SendSeat<T, L, G>,
    taker: TakeSeat<T, L, G>,
)
    requires sender { IsSender relay.now sender }
    requires taker { IsTaker relay.now taker }
    ensures left { (rest : List L) × (sent_by sender ≡ taken_by taker ++ rest) }
    ensures whole { has_last S.is_last (taken_by taker) ≡ true → taken_by taker ≡ sent_by sender }
{
    let SendSeat { mut pass } = sender;
    relay.sender.absorb::<Both>(&mut pass, taker.pass);
    relay.sender.learn_as::<Left<S>>(&mut pass);
}
