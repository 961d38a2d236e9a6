//! How the one right over the relay's channel is split into a sending and a receiving one, and joined at the end.
ghost use Rattle.std.specs.Prelude.{◌≡◌, [], true, false, Some, None};
ghost use Rattle.crossbeam_channel.specs.Claims.{view, IsSeatAt};
ghost use Rattle.crossbeam_channel.specs.Ends.{sends_on};
ghost use Rattle.relay.specs.Rule.{log};

use crate::item::BatchRule;
use crate::rule::{InOrder, Log};
use crossbeam_channel::protocol::{Join, Split};
use crossbeam_channel::{Pass, RuledSender};
use std::marker::{Brand, PhantomData};

/// The value that a relay is made for, as a call picks it.
pub trait Given<G> {
    ghost use Rattle.std.specs.Prelude.{Option};

    ghost given: { Option G };
}

impl<G> Given<G> for Brand {
    ghost use Rattle.std.specs.Prelude.{None};

    ghost given = { None };
}

/// The right to send and the right to take, apart and together.
pub struct Roles<J>(PhantomData<J>);

impl<L, G, J: Given<G>> Split<Log<L, G>> for Roles<J> {
    ghost use Rattle.std.specs.Prelude.{true, false, []};
    ghost use Rattle.relay.specs.Rule.{log};

    ghost left = { λ v. log true false J.given v.sent [] };

    ghost right = { λ v. log false true J.given [] v.taken };
}

/// Both rights in one pass again.
pub struct Both;

impl<L, G> Join<Log<L, G>> for Both {
    ghost use Rattle.std.specs.Prelude.{true, false, [], None};
    ghost use Rattle.relay.specs.Rule.{log};

    ghost both = { λ v w. log true true v.given v.sent w.taken };

    ghost spent = { log false false None [] [] };
}

/// Parts the pass of a new channel into one that sends and one that receives, which both know the value.
pub(crate) fn part<T: Drop, L, G, S: BatchRule<T, L, G>, J: Given<G>>(
    sender: &RuledSender<T, Log<L, G>, InOrder<S>>,
    pass: &mut Pass<T, Log<L, G>>,
    given: &G,
) -> Pass<T, Log<L, G>>
    requires here { IsSeatAt (sends_on sender.now) pass.old }
    requires fresh { view pass.old ≡ log true true None [] [] }
    requires given { J.given ≡ Some given.now }
    ensures here { IsSeatAt (sends_on sender.now) pass.new × IsSeatAt (sends_on sender.now) result }
    ensures sends { view pass.new ≡ log true false (Some given.now) [] [] }
    ensures takes { view result ≡ log false true (Some given.now) [] [] }
{
    let _ = given;
    sender.another::<Roles<J>>(pass)
}
