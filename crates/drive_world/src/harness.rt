//! What a drive needs of a harness: it takes lines of events, and returns lines of answers.
ghost use Rattle.std.specs.Prelude.{◌≡◌, ◌++◌, ◌∷◌, [], ℕ, List, IfOk, OnOk, OnErr};

/// Why lines can't be sent to a harness.
#[derive(Clone, Copy, Debug, PartialEq, Eq, Drop)]
pub enum Untold {
    /// Nobody takes them.
    Closed,
    /// Memory was refused.
    Memory,
}

/// Why a harness gives no line.
#[derive(Clone, Copy, Debug, PartialEq, Eq, Drop)]
pub enum NoLine {
    /// Its line has no line feed among so many bytes as a line may have.
    Long,
    /// Its text ended before the line feed, or can't be read.
    Ended,
    /// Nobody takes what it was sent before.
    Closed,
    /// Memory was refused.
    Memory,
}

/// A harness that takes lines without waiting for itself. Sending lines takes no answer from it.
pub trait Harness {
    // the bytes that it was sent
    ghost told: { Self → List ℕ };

    // the lines that it gave
    ghost gave: { Self → List (List ℕ) };

    /// Sends it lines: they may be gathered before they go out.
    fn tell(&mut self, lines: &[u8]) -> Result<(), Untold>
        ensures told { OnOk result (told self.new ≡ told self.old ++ lines.now) }
        ensures gave { gave self.new ≡ gave self.old };

    /// Has all lines go out that were gathered.
    fn flush(&mut self) -> Result<(), Untold>
        ensures told { told self.new ≡ told self.old }
        ensures gave { gave self.new ≡ gave self.old };

    /// Its next line, without the line feed. It waits for it without limit.
    fn answer(&mut self) -> Result<Vec<u8>, NoLine>
        ensures gave { IfOk result (λ line. gave self.new ≡ gave self.old ++ line.items ∷ []) }
        ensures told { told self.new ≡ told self.old }
        ensures none { OnErr result (gave self.new ≡ gave self.old) };
}
