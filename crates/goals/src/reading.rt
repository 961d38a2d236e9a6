//! The words by which something is wanted of settings.
ghost use Rattle.std.specs.Prelude.{IfErr, IfOk, map};
ghost use Rattle.goals.specs.Words.{AreWants, RefusesWants};

use crate::want::Want;
use std::alloc::Global;
use thiserror::Error;

/// Why nothing is wanted.
#[derive(Clone, Copy, Debug, PartialEq, Eq, Error)]
pub enum WantFault {
    /// A word wants nothing.
    #[error("usage")]
    Words,
    /// Memory was refused.
    #[error("memory")]
    Memory,
}

/// What words want, each as `Want::read` reads it, in their order.
///
/// Failures: `Words` where a word wants nothing; `Memory`.
pub fn read_wants<'a>(alloc: Global, words: &[&'a str]) -> Result<Vec<Want<'a>>, WantFault>
    ensures read { IfOk result (λ wants. AreWants (map (λ word. word.now) words.now) wants.items) }
    ensures refused { IfErr result (RefusesWants (map (λ word. word.now) words.now)) }
{
    let mut wants = Vec::new(alloc);
    for word in words {
        let Some(want) = Want::read(*word) else {
            return Err(WantFault::Words);
        };
        if wants.push(want).is_err() {
            return Err(WantFault::Memory);
        }
    }
    Ok(wants)
}
