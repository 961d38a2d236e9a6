//! The names of items of lists: in keys, and in a document.
ghost use Rattle.std.specs.Prelude.{◌≡◌, ◌++◌, true, false, [], ◌∷◌, filter, string_bytes, if◌then◌else◌, IfOk, IfSome, IsNone, OnOk};
ghost use Rattle.std.specs.List.{list_all};
ghost use Rattle.toml.specs.View.{view};
ghost use Rattle.sweep_plan.specs.Items.{ends_of_item, name_part, name_of_item, parts_of_item, is_letter, is_item_name, kept_name, item_text};

use base::Memory;
use schema::{FormatKey, text_if};
use std::alloc::Global;
use toml::Value;

/// The most bytes that the name of an item has: two names of groups and a number of nine digits, and a dot before each.
const MOST: usize = 76;

/// The name of an item of a list, as a key keeps it.
#[derive(Clone, Copy, Debug, PartialEq, Eq)]
pub struct ItemName {
    /// Its bytes, the first a dot, and zeros after them.
    pub bytes: [u8; 76],
}

impl ItemName {
    /// The name that these bytes are: a dot, and at most 75 letters, digits, dashes, underscores and dots.
    pub(crate) fn read(name: &[u8]) -> Option<ItemName>
        ensures some { IfSome result (λ item. (is_item_name name.now ≡ true) × (item ≡ kept_name name.now)) }
        ensures none { IsNone result → is_item_name name.now ≡ false }
    {
        if !is_item_name(name) {
            return None;
        }
        let mut bytes = [0u8; MOST];
        bytes[..name.len()].copy_from_slice(name);
        Some(ItemName { bytes })
    }

    /// The name as a text.
    pub(crate) fn text(self, alloc: Global) -> Result<String, Memory>
        ensures { IfOk result (λ text. string_bytes text ≡ item_text self) }
    {
        let mut text = String::new(alloc);
        push_letters(&mut text, &self.bytes)?;
        Ok(text)
    }
}

/// Whether the bytes are the name of an item: a dot, and at most 75 letters.
fn is_item_name(name: &[u8]) -> bool
    ensures { result ≡ is_item_name name.now }
{
    match name {
        [] => false,
        [first, rest @ ..] => *first == b'.' && rest.len() < MOST && are_letters(rest),
    }
}

/// Whether names may have all these bytes.
fn are_letters(bytes: &[u8]) -> bool
    ensures { result ≡ list_all is_letter bytes.now }
{
    bytes.iter().all(|byte| is_letter(*byte))
}

/// Whether names may have this byte.
fn is_letter(byte: u8) -> bool
    ensures { result ≡ is_letter byte }
{
    (byte.is_ascii_alphabetic() || byte.is_ascii_digit() || (byte == b'-' || byte == b'_'))
        || byte == b'.'
}

/// Appends those of the bytes that names may have.
pub(crate) fn push_letters(text: &mut String, bytes: &[u8]) -> Result<(), Memory>
    ensures { OnOk result (string_bytes text.new ≡ string_bytes text.old ++ filter is_letter bytes.now) }
{
    for byte in bytes {
        push_letter(text, *byte)?;
    }
    Ok(())
}

/// Appends a byte that names may have, and no other.
fn push_letter(text: &mut String, byte: u8) -> Result<(), Memory>
    ensures { OnOk result (string_bytes text.new ≡ string_bytes text.old ++ (if is_letter byte then byte ∷ [] else [])) }
{
    if is_letter(byte) {
        text.push(char::from(byte))?;
    }
    Ok(())
}

/// The name of an item of a document's list: its own behind a dot, or else the texts that say what it is about, each behind a dot.
pub(crate) fn name_of_item(alloc: Global, item: &Value) -> Result<String, Memory>
    ensures { IfOk result (λ name. string_bytes name ≡ name_of_item (view item.now)) }
{
    let mut name = String::new(alloc);
    match text_if(FormatKey::Name, item) {
        Some(own) => push_dotted(&mut name, own)?,
        None => push_parts(&mut name, item)?,
    }
    Ok(name)
}

/// Appends the member that an item is about, or the groups from which and to which it goes.
fn push_parts(name: &mut String, item: &Value) -> Result<(), Memory>
    ensures { OnOk result (string_bytes name.new ≡ string_bytes name.old ++ parts_of_item (view item.now)) }
{
    push_part(name, FormatKey::Member, item)?;
    push_ends(name, item)
}

/// Appends from which group to which an item goes, where it says to which.
fn push_ends(name: &mut String, item: &Value) -> Result<(), Memory>
    ensures { OnOk result (string_bytes name.new ≡ string_bytes name.old ++ ends_of_item (view item.now)) }
{
    match text_if(FormatKey::To, item) {
        Some(to) => {
            push_part(name, FormatKey::From, item)?;
            push_dotted(name, to)
        }
        None => Ok(()),
    }
}

/// Appends a dot and the text at a key of an item, where it has one.
fn push_part(name: &mut String, key: FormatKey, item: &Value) -> Result<(), Memory>
    ensures { OnOk result (string_bytes name.new ≡ string_bytes name.old ++ name_part key (view item.now)) }
{
    match text_if(key, item) {
        Some(text) => push_dotted(name, text),
        None => Ok(()),
    }
}

/// Appends a dot and a text.
fn push_dotted(name: &mut String, text: &str) -> Result<(), Memory>
    ensures { OnOk result (string_bytes name.new ≡ string_bytes name.old ++ 46 ∷ text.now) }
{
    name.push_str(".")?;
    name.push_str(text)?;
    Ok(())
}
