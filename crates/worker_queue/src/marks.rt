//! A bitmap of the wheel's 1,024 slots that finds the next non-empty slot, 64 slots to a word.
ghost use Rattle.std.specs.Prelude.{◌≡◌, ◌≢◌, ℕ, ◌<◌, ◌≤◌, true, false, IfSome, IfNone};
ghost use Rattle.worker_queue.specs.Marks.{mark_at, IsFirstMark, NoneIsMarkedFrom};
ghost use Rattle.std.specs.Int.{bit_at};
ghost use Rattle.std.specs.Prelude.{◌*◌};

/// How many places can be marked.
pub(crate) const PLACES: usize = 1024;

/// How many places a word has.
const WORD: usize = 64;

/// Which of 1,024 places are marked: a bit for each.
#[derive(Drop)]
pub(crate) struct Marks {
    pub(crate) words: [u64; 16],
}

impl Marks {
    /// No place is marked.
    pub(crate) fn none() -> Self
        ensures { (k : ℕ) → k < 1024 → mark_at result.words k ≡ 0 }
    {
        Marks { words: [0; 16] }
    }

    /// Marks a place.
    #[inline(always)]
    pub(crate) fn set(&mut self, place: usize)
        requires { place < 1024 }
        ensures same { mark_at self.new.words place ≡ 1 }
        ensures others { (k : ℕ) → k < 1024 → k ≢ place → mark_at self.new.words k ≡ mark_at self.old.words k }
    {
        let word = place / WORD;
        self.words[word] = with_bit(self.words[word], place % WORD);
    }

    /// Marks a place no more, if there is nothing left at it.
    pub(crate) fn clear_if(&mut self, place: usize, is_empty: bool)
        requires { place < 1024 }
        ensures emptied { is_empty ≡ true → mark_at self.new.words place ≡ 0 }
        ensures kept { is_empty ≡ false → mark_at self.new.words place ≡ mark_at self.old.words place }
        ensures others { (k : ℕ) → k < 1024 → k ≢ place → mark_at self.new.words k ≡ mark_at self.old.words k }
    {
        if is_empty {
            self.clear(place);
        }
    }

    /// Marks a place no more.
    fn clear(&mut self, place: usize)
        requires { place < 1024 }
        ensures same { mark_at self.new.words place ≡ 0 }
        ensures others { (k : ℕ) → k < 1024 → k ≢ place → mark_at self.new.words k ≡ mark_at self.old.words k }
    {
        let word = place / WORD;
        self.words[word] = without_bit(self.words[word], place % WORD);
    }

    /// The first place from this one on that is marked.
    pub(crate) fn next(&self, from: usize) -> Option<usize>
        requires { from < 1024 }
        ensures first { IfSome result (λ place. IsFirstMark self.now.words from place) }
        ensures none { IfNone result (NoneIsMarkedFrom self.now.words from) }
    {
        let later = self.words[from / WORD] >> (from % WORD);
        if later != 0 {
            return Some(from + later.trailing_zeros() as usize);
        }
        self.next_word(from / WORD + 1)
    }

    /// The first marked place of the words from this one on.
    fn next_word(&self, from: usize) -> Option<usize>
        requires { from ≤ 16 }
        ensures first { IfSome result (λ place. IsFirstMark self.now.words (64 * from) place) }
        ensures none { IfNone result (NoneIsMarkedFrom self.now.words (64 * from)) }
    {
        for word in from..16 {
            let marks = self.words[word];
            if marks != 0 {
                return Some(WORD * word + marks.trailing_zeros() as usize);
            }
        }
        None
    }
}

fn with_bit(word: u64, k: usize) -> u64
    requires { k < 64 }
    ensures same { bit_at result k ≡ 1 }
    ensures others { (i : ℕ) → i ≢ k → bit_at result i ≡ bit_at word i }
{
    word | (1 << k)
}

fn without_bit(word: u64, k: usize) -> u64
    requires { k < 64 }
    ensures same { bit_at result k ≡ 0 }
    ensures others { (i : ℕ) → i < 64 → i ≢ k → bit_at result i ≡ bit_at word i }
{
    word & !(1 << k)
}
