//! Numbers as a text writes them: digits, and maybe a point and digits behind it.
ghost use Rattle.std.specs.Prelude.{◌≡◌, ℕ, ◌+◌, ◌*◌, ◌^◌, ◌<◌, ◌≤◌, true, length, IfSome, IsNone, MatchOption, List};
ghost use Rattle.std.specs.Char.{is_ascii_digit};
ghost use Rattle.std.specs.List.{prefix_len};
ghost use Rattle.std.specs.Str.{all_ascii_digits};
ghost use Rattle.std.specs.Str.Parse.{digits_value};
ghost use Rattle.lengths.specs.Numerals.{is_number_byte, pointed, IsNumeral};

/// The value of a word that is a number of at most so many digits and so many places behind the point, in
/// units of the last of these places.
pub(crate) fn numeral(word: &[u8], most: usize, places: usize) -> Option<u64>
    requires most { most ≤ 12 }
    requires places { places ≤ 6 }
    ensures some { IfSome result (λ value. IsNumeral most places word.now value) }
    ensures few { IfSome result (λ value. value ≤ 2 * 10 ^ 18) }
    ensures none { IsNone result → (value : ℕ) → ¬ (IsNumeral most places word.now value) }
{
    let (whole, rest) = word.split_at(digits_first(word));
    if whole.len() == 0 || whole.len() > most {
        return None;
    }
    let Some(fraction) = fraction(rest) else {
        return None;
    };
    if fraction.len() > places {
        return None;
    }
    Some(scaled(whole, places) + scaled(fraction, places - fraction.len()))
}

/// The digits behind a point, none where nothing is there.
fn fraction(rest: &[u8]) -> Option<&[u8]>
    ensures some { IfSome result (λ digits. (pointed digits.now ≡ rest.now) × (all_ascii_digits digits.now ≡ true)) }
    ensures none { IsNone result → (digits : List ℕ) → all_ascii_digits digits ≡ true → ¬ (pointed digits ≡ rest.now) }
{
    match rest {
        [] => Some(rest),
        [b'.', digits @ ..] => only_digits(digits),
        _ => None,
    }
}

/// The text, where it is one digit or more.
fn only_digits(text: &[u8]) -> Option<&[u8]>
    ensures some { IfSome result (λ digits. (digits.now ≡ text.now) × (0 < length text.now) × (all_ascii_digits text.now ≡ true)) }
    ensures none { IsNone result → 0 < length text.now → ¬ (all_ascii_digits text.now ≡ true) }
{
    if text.len() > 0 && digits_first(text) == text.len() {
        Some(text)
    } else {
        None
    }
}

/// The number that at most twelve digits write, with at most six noughts behind it.
fn scaled(digits: &[u8], noughts: usize) -> u64
    requires digits { all_ascii_digits digits.now ≡ true }
    requires few { length digits.now ≤ 12 }
    requires noughts { noughts ≤ 6 }
    ensures value { result ≡ digits_value 10 digits.now * 10 ^ noughts }
    ensures few { result ≤ 10 ^ 18 }
{
    value(digits) * ten_to(noughts)
}

/// The number that at most twelve digits write.
fn value(digits: &[u8]) -> u64
    requires digits { all_ascii_digits digits.now ≡ true }
    requires few { length digits.now ≤ 12 }
    ensures value { result ≡ digits_value 10 digits.now }
    ensures small { result < 10 ^ 12 }
{
    let mut value = 0;
    for digit in digits {
        value = value * 10 + u64::from(*digit - b'0');
    }
    value
}

/// A power of ten, up to a million.
fn ten_to(exponent: usize) -> u64
    requires { exponent ≤ 6 }
    ensures value { result ≡ 10 ^ exponent }
    ensures few { result ≤ 10 ^ 6 }
{
    match exponent {
        0 => 1,
        1 => 10,
        2 => 100,
        3 => 1000,
        4 => 10_000,
        5 => 100_000,
        _ => 1_000_000,
    }
}

/// With how many digits the text begins.
fn digits_first(text: &[u8]) -> usize
    ensures { result ≡ prefix_len is_ascii_digit text.now }
{
    for (place, byte) in text.iter().enumerate() {
        if !is_digit(*byte) {
            return place;
        }
    }
    text.len()
}

/// With how many digits and points the text begins.
pub(crate) fn number_bytes_first(text: &[u8]) -> usize
    ensures { result ≡ prefix_len is_number_byte text.now }
{
    for (place, byte) in text.iter().enumerate() {
        if !is_number_byte(*byte) {
            return place;
        }
    }
    text.len()
}

/// Whether it is a digit.
pub(crate) fn is_digit(byte: u8) -> bool
    ensures { result ≡ is_ascii_digit byte }
{
    byte.is_ascii_digit()
}

/// Whether it is a digit or a point.
fn is_number_byte(byte: u8) -> bool
    ensures { result ≡ is_number_byte byte }
{
    is_digit(byte) || byte == b'.'
}
