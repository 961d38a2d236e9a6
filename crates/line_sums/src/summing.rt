//! Checksums, and lines that have them.
ghost use Rattle.std.specs.Prelude.{◌≡◌, ◌≢◌, ◌++◌, ℕ, List, IfOk, IfSome, IsNone, string_bytes};
ghost use Rattle.line_sums.specs.Sums.{checksum, key_of, summed};

use crate::cutting::cut_at;
use base::Memory;
use sha2::{Digest, Sha256};
use std::alloc::Global;

/// What the lines of one sweep have in common: the SHA-256 of a mark, a space and words.
#[tactic(auto, unfolding(crate::specs::Sums::key_of))]
pub fn key_of(mark: &str, words: &str) -> [u8; 32]
    ensures { result ≡ key_of mark.now words.now }
{
    let mut hasher = Sha256::new();
    hasher.update(mark.as_bytes());
    hasher.update(b" ");
    hasher.update(words.as_bytes());
    hasher.finalize()
}

/// The checksum of a line with such a key: the first four bytes of a SHA-256, in hexadecimal.
#[tactic(auto, unfolding(crate::specs::Sums::checksum))]
pub fn checksum(alloc: Global, key: &[u8], line: &[u8]) -> Result<String, Memory>
    ensures { IfOk result (λ sum. string_bytes sum ≡ checksum key.now line.now) }
{
    let mut hasher = Sha256::new();
    hasher.update(key);
    hasher.update(line);
    let digest = hasher.finalize();
    match hex::encode(alloc, &digest[..4]) {
        Ok(sum) => Ok(sum),
        Err(_) => Err(Memory),
    }
}

/// The line with its checksum and a space before it.
pub fn summed(alloc: Global, key: &[u8], line: &[u8]) -> Result<Vec<u8>, Memory>
    ensures { IfOk result (λ whole. whole.items ≡ summed key.now line.now) }
{
    let sum = checksum(alloc, key, line)?;
    let mut whole = Vec::new(alloc);
    whole.extend_from_slice(sum.as_bytes())?;
    whole.push(b' ')?;
    whole.extend_from_slice(line)?;
    Ok(whole)
}

/// The line that stands behind its checksum and a space, where the checksum is right.
pub fn unsummed<'a>(alloc: Global, key: &[u8], whole: &'a [u8]) -> Result<Option<&'a [u8]>, Memory>
    ensures some { IfOk result (λ found. IfSome found (λ line. whole.entry.now ≡ summed key.now line.now)) }
    ensures none { IfOk result (λ found. IsNone found → (line : List ℕ) → whole.entry.now ≢ summed key.now line) }
{
    let Some((word, line)) = cut_at(b' ', whole) else {
        return Ok(None);
    };
    let sum = checksum(alloc, key, line)?;
    if word != sum.as_bytes() {
        return Ok(None);
    }
    Ok(Some(line))
}
