//! The relay's protocol for the proofs: items come out in the order in which they went in, and each send and each
//! take says what it adds to the log of its side. These types are for the proofs alone.
use crate::item::BatchRule;
use crossbeam_channel::protocol::{Lesson, Outcome, Protocol};
use std::collections::LinkedList;
use std::marker::PhantomData;

/// What a pass may do, the value that it knows, and what it has sent and taken.
pub struct Log<L, G> {
    pub sends: bool,
    pub takes: bool,
    pub given: Option<G>,
    pub sent: LinkedList<L>,
    pub taken: LinkedList<L>,
}

/// What was sent is what was taken and then what lies in the channel.
pub struct InOrder<S>(PhantomData<S>);

impl<T, L, G, S: BatchRule<T, L, G>> Protocol<T, Log<L, G>> for InOrder<S> {
    ghost use Rattle.std.specs.Prelude.{true, [], None};
    ghost use Rattle.relay.specs.Rule.{log, Relayed};

    ghost holds = { Relayed S.stands_for S.is_last S.belongs };

    ghost first = { log true true None [] [] };
}

/// An item was sent.
pub struct Sent<S>(PhantomData<S>);

impl<T, L, G, S: BatchRule<T, L, G>> Outcome<T, Log<L, G>> for Sent<S> {
    ghost use Rattle.std.specs.Prelude.{◌≡◌, ◌++◌, [], ◌∷◌};
    ghost use Rattle.relay.specs.Rule.{log};

    ghost then = { λ v x w. w ≡ log v.sends v.takes v.given (v.sent ++ S.stands_for x ∷ []) v.taken };
}

impl<T, L, G, S: BatchRule<T, L, G>> Lesson<T, Log<L, G>> for Sent<S> {
    ghost use Rattle.std.specs.Prelude.{⊤};

    ghost fact = { λ v items. ⊤ };
}

/// An item was taken.
pub struct Taken<S>(PhantomData<S>);

impl<T, L, G, S: BatchRule<T, L, G>> Outcome<T, Log<L, G>> for Taken<S> {
    ghost use Rattle.std.specs.Prelude.{◌≡◌, ◌++◌, [], ◌∷◌, IfSome};
    ghost use Rattle.relay.specs.Rule.{log};

    ghost then = { λ v x w. (w ≡ log v.sends v.takes v.given v.sent (v.taken ++ S.stands_for x ∷ [])) × IfSome v.given (λ g. S.belongs g x) };
}

impl<T, L, G, S: BatchRule<T, L, G>> Lesson<T, Log<L, G>> for Taken<S> {
    ghost use Rattle.std.specs.Prelude.{⊤};

    ghost fact = { λ v items. ⊤ };
}

/// What lies in the channel was sent and not taken, and the last item has none after it.
pub struct Left<S>(PhantomData<S>);

impl<T, L, G, S: BatchRule<T, L, G>> Lesson<T, Log<L, G>> for Left<S> {
    ghost use Rattle.relay.specs.Rule.{Remains};

    ghost fact = { Remains S.stands_for S.is_last };
}
