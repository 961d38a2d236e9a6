//! Texts of bytes that are cut at a byte.
ghost use Rattle.std.specs.Prelude.{◌≡◌, ◌≢◌, ◌==◌, ◌++◌, ◌∷◌, ℕ, List, All, false, IfSome, IsNone};
ghost use Rattle.line_sums.specs.Sums.{IsCut, IsFirstLine};

use memchr::memchr;

/// What stands before the first byte of this value, and what comes behind it.
pub fn cut_at<'a>(byte: u8, text: &'a [u8]) -> Option<(&'a [u8], &'a [u8])>
    ensures some { IfSome result (λ parts. IsCut byte text.entry.now parts.0.now parts.1.now) }
    ensures none { IsNone result → All (λ x. (x == byte) ≡ false) text.entry.now }
{
    let Some(place) = memchr(byte, text) else {
        return None;
    };
    Some((&text[..place], &text[place + 1..]))
}

/// The first line of a text, with its line feed, and what is left of the text.
pub fn first_line<'a>(text: &'a [u8]) -> Option<(&'a [u8], &'a [u8])>
    ensures some { IfSome result (λ parts. IsFirstLine text.entry.now parts.0.now parts.1.now) }
    ensures none { IsNone result → (line left : List ℕ) → ¬ (IsFirstLine text.entry.now line left) }
{
    let Some((body, left)) = cut_at(b'\n', text) else {
        return None;
    };
    Some((&text[..body.len() + 1], left))
}
