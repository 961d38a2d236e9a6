//! What a message holds: JSON that the world takes as it stands.
ghost use Rattle.std.specs.Prelude.{◌≡◌};

use std::marker::Model;

/// JSON without blanks between its tokens, as a harness gave it.
#[derive(Debug, Drop)]
pub struct Payload {
    bytes: Vec<u8>,
}

impl Model for Payload {
    ghost use Rattle.std.specs.Prelude.{List, ℕ};

    ghost Value = { List ℕ };

    ghost view = { λ payload. payload.bytes.items };
}

impl Payload {
    /// This text. It takes no memory.
    pub fn of(bytes: Vec<u8>) -> Self
        ensures { result ≡ bytes.items }
    {
        Payload { bytes }
    }

    /// The text's bytes.
    pub fn as_slice(&self) -> &[u8]
        ensures { result.now ≡ self.now }
    {
        &self.bytes
    }
}
