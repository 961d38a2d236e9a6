//! What holds of lengths and shares by their definitions.
ghost use Rattle.std.specs.Prelude.{◌≡◌, ℕ, List};
ghost use Rattle.lengths.specs.Lengths.{IsLength, IsShare};

/// A word is at most one length.
pub fn a_word_is_one_length()
    ensures { (word : List ℕ) (a b : ℕ) → IsLength word a → IsLength word b → a ≡ b }
{}

/// A word is at most one share.
pub fn a_word_is_one_share()
    ensures { (word : List ℕ) (a b : ℕ) → IsShare word a → IsShare word b → a ≡ b }
{}
