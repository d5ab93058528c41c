//! Numbers in decimal digits, as words, scripts and lists of events have them.
#![tactic(auto)]

ghost use Rattle.std.specs.Prelude.{◌≡◌, ◌≤◌, true, IfSome};
ghost use Rattle.std.specs.List.{list_all};
ghost use Rattle.decimal_number.specs.Decimal as decimal;

use std::str;

/// Whether each byte is a decimal digit.
fn are_digits(bytes: &[u8]) -> bool
    ensures { result ≡ list_all decimal.is_digit bytes.now }
{
    for byte in bytes {
        if *byte < b'0' || b'9' < *byte {
            return false;
        }
    }
    true
}

/// Whether the text is one or more decimal digits.
fn is_numeral(text: &[u8]) -> bool
    ensures { result ≡ decimal.is_numeral text.now }
{
    0 < text.len() && are_digits(text)
}

/// The number that digits are, where it is in the range.
fn parsed_between(digits: &str, least: u32, most: u32) -> Option<u32>
    requires { decimal.is_numeral digits.now ≡ true }
    ensures { result ≡ decimal.number_between least most digits.now }
{
    match digits.parse::<u32>() {
        Ok(number) if least <= number && number <= most => Some(number),
        Ok(_) => None,
        Err(_) => None,
    }
}

/// The number that the bytes are, where they are one or more decimal digits, with leading zeros or without, and the number is in the range.
pub fn number_between(text: &[u8], least: u32, most: u32) -> Option<u32>
    ensures number { result ≡ decimal.number_between least most text.now }
    ensures least { IfSome result (λ n. least ≤ n) }
    ensures most { IfSome result (λ n. n ≤ most) }
{
    if !is_numeral(text) {
        return None;
    }
    match str::from_utf8(text) {
        Ok(text) => parsed_between(text, least, most),
        Err(_) => None,
    }
}
