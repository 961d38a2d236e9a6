//! Decimal numbers as people write them, with a point or without.

/// A number of more letters is none that anybody means.
const LONGEST: usize = 20;

/// A decimal number: how many times ten to the power of `-places` it is.
#[derive(Clone, Copy)]
pub(crate) struct Decimal {
    digits: u128,
    places: u32,
}

impl Decimal {
    /// So many times the number, where that is whole.
    pub(crate) fn times(self, factor: u128) -> Option<u128> {
        let product = self.digits.checked_mul(factor)?;
        let unit = 10u128.checked_pow(self.places)?;
        if product.checked_rem(unit)? == 0 {
            product.checked_div(unit)
        } else {
            None
        }
    }
}

/// The number that a text is in digits, with at most one point among them.
pub(crate) fn number_of(text: &str) -> Option<Decimal> {
    if text.len() > LONGEST || text.is_empty() {
        return None;
    }
    let (whole, part) = at_point(text);
    if whole.is_empty() {
        return None;
    }
    let places = u32::try_from(part.len()).ok()?;
    let unit = 10u128.checked_pow(places)?;
    let digits = digits_of(whole)?.checked_mul(unit)?;
    let digits = digits.checked_add(digits_of(part)?)?;
    Some(Decimal { digits, places })
}

/// What stands before and behind the point of a number.
fn at_point(text: &str) -> (&str, &str) {
    match text.split_once('.') {
        Some(parts) => parts,
        None => (text, ""),
    }
}

/// The number of these digits; 0 where there is none.
fn digits_of(text: &str) -> Option<u128> {
    if text.is_empty() {
        return Some(0);
    }
    if text.bytes().all(|byte| byte.is_ascii_digit()) {
        text.parse::<u128>().ok()
    } else {
        None
    }
}
