//! Words of a member's stream that its harness uses.
ghost use Rattle.std.specs.Prelude.{◌≡◌};
ghost use Rattle.streams.specs.Draw.{words_of, rest_after};

use streams::Stream;

/// Passes so many words. A number below two takes one word, whichever it is.
pub(crate) fn pass_words(stream: &mut Stream, words: u64)
    ensures { words_of stream.new ≡ rest_after words (words_of stream.old) }
{
    for _passed in 0..words {
        pass_word(stream);
    }
}

/// Passes one word.
fn pass_word(stream: &mut Stream)
    ensures { words_of stream.new ≡ rest_after 1 (words_of stream.old) }
{
    let _ = stream.below(2);
}
