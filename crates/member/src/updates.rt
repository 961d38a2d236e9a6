//! The updates of one message, which contracts see as a list: those that ride on it (piggyback), or a whole table.
ghost use Rattle.std.specs.Prelude.{◌≡◌};

use incarnation::Update;
use std::marker::Model;

/// The updates that a message carries, in order.
#[derive(Clone, Debug, Drop)]
pub struct Updates {
    items: Vec<Update>,
}

impl Model for Updates {
    ghost use Rattle.std.specs.Prelude.{List};
    ghost use Rattle.incarnation.specs.declared.Update.{Update as AnyUpdate};

    ghost Value = { List AnyUpdate };

    ghost view = { λ updates. updates.items.items };
}

impl Updates {
    /// These updates. It takes no memory.
    pub fn of(items: Vec<Update>) -> Self
        ensures { result ≡ items.items }
    {
        Updates { items }
    }

    /// The updates in their order.
    pub fn as_slice(&self) -> &[Update]
        ensures { result.now ≡ self.now }
    {
        &self.items
    }
}
