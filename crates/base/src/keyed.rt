//! The trait of values that have an event's key, by which a queue of pending events can put them in order.
ghost use Rattle.std.specs.Prelude.{◌≡◌};
ghost use Rattle.base.specs.declared.key.Key.{Key};

use crate::key::Key;

/// What has the key of an event.
pub trait Keyed {
    ghost key: { Self → Key };

    /// The key of the event.
    fn key(&self) -> Key
        ensures { result ≡ key self.now };
}
