//! Where a piece of a TOML document stands: a range of bytes that lies within the text.
ghost use Rattle.std.specs.Prelude.{◌≡◌, ◌≤◌};
ghost use Rattle.toml_places.specs.Places.{IsWithin};

/// A range of the bytes of a text.
#[derive(Clone, Copy, Debug, PartialEq, Eq)]
pub struct Span {
    /// The number of its first byte, counted from 0.
    pub start: usize,
    /// The number of the byte after its last one.
    pub end: usize,
}

impl Span {
    /// The range from the front of one rest of a text to that of a later one, by what is left there.
    pub(crate) fn between(length: usize, from: usize, to: usize) -> Span
        ensures { IsWithin length result }
    {
        let start = length.saturating_sub(from);
        let end = length.saturating_sub(to);
        Span {
            start: start.min(end),
            end,
        }
    }

    /// As much of the range as lies in a text of this length.
    pub(crate) fn within(self, length: usize) -> Span
        ensures inside { IsWithin length result }
        ensures same { IsWithin length self → result ≡ self }
    {
        let end = self.end.min(length);
        Span {
            start: self.start.min(end),
            end,
        }
    }
}
