//! What holds of each draw by its definition, of any words or of words of 32 bits.

ghost use Rattle.std.specs.Prelude.{◌≡◌, ℕ, ◌+◌, ◌-◌, ◌*◌, ◌/◌, ◌%◌, ◌^◌, ◌<◌, ◌≤◌, true, false, nat_lt, List, length, IsPermutation};
ghost use Rattle.streams.specs.declared.Stream.{Stream};
ghost use Rattle.streams.specs.Draw.{Words, AreWords, IsRestOf, rest_after, words_of, million, below_of, lost_of, shuffle_of};

/// A draw takes some first words of those that are left, or none, and leaves the others.
pub fn draws_take_the_first_words()
    ensures below { (words : Words) (bound : ℕ) → IsRestOf words (below_of words bound).1 }
    ensures lost { (words : Words) (parts : ℕ) → IsRestOf words (lost_of words parts).1 }
    ensures shuffle { (words : Words) (items : List ℕ) → IsRestOf words (shuffle_of words items).1 }
{}

/// The words of a stream have 32 bits each, and so have those that a draw leaves.
pub fn words_have_32_bits()
    ensures streams { (stream : Stream) → AreWords (words_of stream) }
    ensures rests { (words rest : Words) → AreWords words → IsRestOf words rest → AreWords rest }
{}

/// A number that is drawn from words of 32 bits is below its bound.
pub fn numbers_are_below_their_bound()
    ensures { (words : Words) (bound : ℕ) → AreWords words → 1 ≤ bound → bound ≤ 2 ^ 32
        → (below_of words bound).0 < bound }
{}

/// A loss is a number below a million that is below the parts, also where no word is taken for it.
pub fn losses_are_numbers_below_the_parts()
    ensures { (words : Words) (parts : ℕ) → AreWords words
        → (lost_of words parts).0 ≡ nat_lt (below_of words million).0 parts }
{}

/// A shuffle by words of 32 bits keeps the items, in a list of fewer than 2^32 - 1.
pub fn shuffles_keep_the_items()
    ensures { (words : Words) (items : List ℕ) → AreWords words → length items < 2 ^ 32 - 1
        → IsPermutation items (shuffle_of words items).0 }
{}

/// A number below a bound is the next two words, read as a fraction after the point, times the
/// bound, rounded down. The second word is taken only where it could change the number.
pub fn numbers_are_fractions_of_the_words()
    ensures value { (words : Words) (bound : ℕ) → AreWords words → 1 ≤ bound → bound ≤ 2 ^ 32
        → (below_of words bound).0 ≡ (words 0 * bound + words 1 * bound / 2 ^ 32) / 2 ^ 32 }
    ensures one_word { (words : Words) (bound : ℕ) → 1 < bound
        → words 0 * bound % 2 ^ 32 ≤ 2 ^ 32 - bound
        → (below_of words bound).1 ≡ rest_after 1 words }
    ensures two_words { (words : Words) (bound : ℕ) → 1 < bound
        → 2 ^ 32 - bound < words 0 * bound % 2 ^ 32
        → (below_of words bound).1 ≡ rest_after 2 words }
{}

/// What is certain takes no word.
pub fn certain_draws_take_no_word()
    ensures below { (words : Words) → below_of words 1 ≡ (0, words) }
    ensures never_lost { (words : Words) → lost_of words 0 ≡ (false, words) }
    ensures always_lost { (words : Words) (parts : ℕ) → million ≤ parts
        → lost_of words parts ≡ (true, words) }
    ensures shuffle { (words : Words) (items : List ℕ) → length items ≤ 1
        → shuffle_of words items ≡ (items, words) }
{}
