//! The form of the names of groups and entries.
ghost use Rattle.std.specs.Prelude.{◌≡◌};
ghost use Rattle.std.specs.List.{list_all};
ghost use Rattle.written_names.specs.Names.{ends_with_dash, is_written_byte, is_written_name, starts_with_letter};

/// Whether a name is 1 to 32 letters, digits, `-` and `_`, the first a letter and the last not `-`.
pub fn is_written_name(name: &[u8]) -> bool
    ensures { result ≡ is_written_name name.now }
{
    name.len() <= 32
        && (starts_with_letter(name) && (are_written_bytes(name) && !ends_with_dash(name)))
}

/// Whether the first byte is a letter.
fn starts_with_letter(bytes: &[u8]) -> bool
    ensures { result ≡ starts_with_letter bytes.now }
{
    match bytes.first() {
        Some(first) => first.is_ascii_alphabetic(),
        None => false,
    }
}

/// Whether all are letters, digits, `-` and `_`.
fn are_written_bytes(bytes: &[u8]) -> bool
    ensures { result ≡ list_all is_written_byte bytes.now }
{
    bytes.iter().all(|byte| is_written_byte(*byte))
}

/// Whether a byte is a letter, a digit, `-` or `_`.
fn is_written_byte(byte: u8) -> bool
    ensures { result ≡ is_written_byte byte }
{
    (byte.is_ascii_alphabetic() || byte.is_ascii_digit()) || (byte == b'-' || byte == b'_')
}

/// Whether the last byte is `-`.
fn ends_with_dash(bytes: &[u8]) -> bool
    ensures { result ≡ ends_with_dash bytes.now }
{
    match bytes.last() {
        Some(last) => *last == b'-',
        None => false,
    }
}
