//! A member's stream of random numbers: draws below a bound, losses and shuffles.
#![tactic(auto)]

ghost use Rattle.std.specs.Prelude.{◌≡◌, ◌≤◌, ◌<◌, IsPermutation};
ghost use Rattle.rand_pcg.specs.Lcg.{Lcg};
ghost use Rattle.streams.specs.Draw.{words_of, member_words, below_of, lost_of, shuffle_of};

pub mod laws;

use base::MemberId;
use rand::RngExt;
use rand::seq::SliceRandom;
use rand_pcg::Lcg64Xsh32;
use std::marker::Model;

/// The parts of a certain loss.
const MILLION: u32 = 1_000_000;

/// The draws of one member, over words of its own: the generator PCG32 from the scenario's seed, on
/// the stream of the member's number. No call fails or takes memory. Draws that are certain take no
/// word.
#[derive(Debug, Drop)]
pub struct Stream {
    generator: Lcg64Xsh32,
}

impl Model for Stream {
    ghost Value = { Lcg };

    ghost view = { λ stream. stream.generator };
}

impl Stream {
    /// The member's stream under a scenario's seed, from its first word on.
    pub fn of(seed: u64, member: MemberId) -> Self
        ensures { words_of result ≡ member_words seed member }
    {
        Stream {
            generator: Lcg64Xsh32::new(seed, u64::from(member.0)),
        }
    }

    /// A number from 0 up to the last below the bound: `random_range` of `rand`.
    pub fn below(&mut self, bound: u32) -> u32
        requires { 1 ≤ bound }
        ensures within { result < bound }
        ensures drawn { (result, words_of self.new) ≡ below_of (words_of self.old) bound }
    {
        if bound == 1 {
            return 0;
        }
        self.generator.random_range(0..bound)
    }

    /// Whether a message is lost, at so many parts in a million. A million parts or more always are.
    pub fn lost(&mut self, parts_per_million: u32) -> bool
        ensures { (result, words_of self.new) ≡ lost_of (words_of self.old) parts_per_million }
    {
        match parts_per_million {
            0 => false,
            1..MILLION => self.below(MILLION) < parts_per_million,
            _ => true,
        }
    }

    /// Puts the items in a new order: the slice's `shuffle` of `rand`.
    pub fn shuffle(&mut self, items: &mut [MemberId])
        ensures permutation { IsPermutation items.old items.new }
        ensures drawn { (items.new, words_of self.new) ≡ shuffle_of (words_of self.old) items.old }
    {
        if items.len() > 1 {
            items.shuffle(&mut self.generator);
        }
    }
}
