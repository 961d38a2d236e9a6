//! What a file holds: a scenario, or the document of one.
ghost use Rattle.std.specs.Prelude.{◌≡◌, Ok, IfOk, IfErr, string_bytes};
ghost use Rattle.toml.specs.View.{view};
ghost use Rattle.files.specs.Files.{Holds};
ghost use Rattle.scenario_files.specs.Shelves.{IsUnread};
ghost use Rattle.scenario_files.specs.Loading.{HasMarkedDocument, HasNoDocument, HasVerdict, LoadFails, mark_of};

use crate::texts::{check, text_failure};
use command_line::Failure;
use files::{FileFault, Files, ReadFault};
use scenario::Scenario;
use scenario_reader::document;
use sha2::{Digest, Sha256};
use std::alloc::Global;
use toml::Value;

/// The document of a scenario's text, and the text's mark.
#[derive(Drop)]
pub struct MarkedDocument {
    /// The document.
    pub document: Value,
    /// What distinguishes the text from others: its SHA-256 in lower-case hex.
    pub mark: String,
}

/// The scenario of a file.
pub fn load<'a, F: Files>(
    alloc: Global,
    name: &'a str,
    files: &mut F,
) -> Result<Scenario, Failure<'a>>
    ensures accepted { IfOk result (λ scenario. HasVerdict (F.known files.old name.entry.now) (Ok scenario)) }
    ensures failed { IfErr result (LoadFails (F.known files.old name.entry.now) name.entry.now) }
    ensures same { F.known files.new ≡ F.known files.old }
    ensures making { F.making files.new ≡ F.making files.old }
    ensures counted { F.refused files.new ≡ F.refused files.old }
{
    let bytes = load_bytes(alloc, name, files)?;
    check(alloc, bytes.as_slice())
}

/// The document of a file, and the mark of its text.
pub fn load_document<'a, F: Files>(
    alloc: Global,
    name: &'a str,
    files: &mut F,
) -> Result<MarkedDocument, Failure<'a>>
    ensures read { IfOk result (λ it. HasMarkedDocument (F.known files.old name.entry.now) (view it.document) (string_bytes it.mark)) }
    ensures failed { IfErr result (HasNoDocument (F.known files.old name.entry.now) name.entry.now) }
    ensures same { F.known files.new ≡ F.known files.old }
    ensures making { F.making files.new ≡ F.making files.old }
    ensures counted { F.refused files.new ≡ F.refused files.old }
{
    let bytes = load_bytes(alloc, name, files)?;
    let mark = mark_of(alloc, bytes.as_slice())?;
    match document(alloc, bytes.as_slice()) {
        Ok(document) => Ok(MarkedDocument { document, mark }),
        Err(refusal) => Err(text_failure(refusal.rule)),
    }
}

/// The mark of a text.
fn mark_of(alloc: Global, bytes: &[u8]) -> Result<String, Failure<'static>>
    ensures mark { IfOk result (λ mark. string_bytes mark ≡ mark_of bytes.now) }
    ensures memory { IfErr result (λ failure. failure ≡ Failure.Memory) }
{
    let digest = Sha256::digest(bytes);
    match hex::encode(alloc, digest.as_slice()) {
        Ok(mark) => Ok(mark),
        Err(_) => Err(Failure::Memory),
    }
}

/// The bytes of a file.
pub fn load_bytes<'a, F: Files>(
    alloc: Global,
    name: &'a str,
    files: &mut F,
) -> Result<Vec<u8>, Failure<'a>>
    ensures read { IfOk result (λ bytes. Holds (F.known files.old name.entry.now) bytes.items) }
    ensures failed { IfErr result (IsUnread (F.known files.old name.entry.now) name.entry.now) }
    ensures same { F.known files.new ≡ F.known files.old }
    ensures making { F.making files.new ≡ F.making files.old }
    ensures counted { F.refused files.new ≡ F.refused files.old }
{
    match files.read(alloc, name) {
        Ok(bytes) => Ok(bytes),
        Err(ReadFault::Absent) | Err(ReadFault::Refused) => Err(Failure::File(name)),
        Err(ReadFault::Memory) => Err(Failure::Memory),
    }
}

/// The failure that the fault of a file is which was to be made.
pub fn file_failure(fault: FileFault, name: &str) -> Failure<'_>
    ensures refused { fault ≡ FileFault.Refused → result ≡ Failure.File name.entry }
    ensures memory { fault ≡ FileFault.Memory → result ≡ Failure.Memory }
{
    match fault {
        FileFault::Refused => Failure::File(name),
        FileFault::Memory => Failure::Memory,
    }
}
