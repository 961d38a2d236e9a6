//! The stream of a text's draws.
ghost use Rattle.std.specs.Prelude.{◌≡◌, ◌≤◌, ◌<◌};
ghost use Rattle.rand_pcg.specs.Lcg.{Lcg};
ghost use Rattle.streams.specs.Draw.{words_of, below_of};
ghost use Rattle.script_draws.specs.Turns.{text_words};

use rand::RngExt;
use rand_pcg::Lcg64Xsh32;
use std::marker::Model;

/// The number of a text's stream. Members' streams have their numbers, which are lower.
const STREAM: u64 = 65_536;

/// The draws of a text: the generator PCG32 from the scenario's seed, on stream 65,536. No call fails or takes
/// memory. A number below one takes no word.
#[derive(Debug, Drop)]
pub struct TextStream {
    generator: Lcg64Xsh32,
}

impl Model for TextStream {
    ghost Value = { Lcg };

    ghost view = { λ stream. stream.generator };
}

impl TextStream {
    /// The text's stream under a scenario's seed, from its first word on.
    pub fn of(seed: u64) -> Self
        ensures { words_of result ≡ text_words seed }
    {
        TextStream {
            generator: Lcg64Xsh32::new(seed, STREAM),
        }
    }

    /// A number from 0 up to the last below the bound: `random_range` of `rand`.
    pub fn below(&mut self, bound: u32) -> u32
        requires { 1 ≤ bound }
        ensures within { result < bound }
        ensures drawn { (result, words_of self.new) ≡ below_of (words_of self.old) bound }
    {
        if bound == 1 {
            return 0;
        }
        self.generator.random_range(0..bound)
    }
}
