//! What holds of escaped texts, stated over the definitions alone.
ghost use Rattle.std.specs.Prelude.{◌≡◌, ℕ, List, false};
ghost use Rattle.std.specs.List.{list_any};
ghost use Rattle.drawing.specs.Escaped.{escaped, is_markup};

/// No byte of an escaped text begins or ends a tag, or a value in one.
pub fn escaped_texts_are_no_markup()
    ensures { (text : List ℕ) → list_any is_markup (escaped text) ≡ false }
{}
