//! How far runs of bytes and block comments go, and the values of numbers.

ghost use Rattle.std.specs.Prelude.{◌≡◌, ◌≤◌, ◌^◌, ◌↔◌, pos, None, IsTrue, IfSome, length, take, drop};
ghost use Rattle.std.specs.List.{AllByRecursion};
ghost use Rattle.csl_lexer.specs.Tokens.{IsBlank, IsLetter, IsDigit, NeverCloses, value_of};
ghost use Rattle.csl_lexer.specs.Steps.{IsIn, BeginsOutside, FirstCloses};

/// What the bytes behind the first of an item may be.
#[derive(Clone, Copy, Debug, PartialEq, Eq)]
pub enum ByteClass {
    InName,
    InNumber,
    InLine,
    InText,
}

/// Whether a byte is of the class.
pub fn is_in(class: ByteClass, b: u8) -> bool
    ensures { IsTrue result ↔ IsIn class b }
{
    match class {
        ByteClass::InName => b.is_ascii_alphanumeric() || b == b'_',
        ByteClass::InNumber => b.is_ascii_digit(),
        ByteClass::InLine => b != b'\n',
        ByteClass::InText => b != b'"' && b != b'\n',
    }
}

pub fn is_blank(b: u8) -> bool
    ensures { IsTrue result ↔ IsBlank b }
{
    b == b' ' || b == b'\t' || b == b'\r' || b == b'\n'
}

/// Whether a byte may begin a name.
pub fn is_letter(b: u8) -> bool
    ensures { IsTrue result ↔ IsLetter b }
{
    b.is_ascii_alphabetic() || b == b'_'
}

/// How many bytes at the front are of the class.
pub fn run_length(class: ByteClass, bytes: &[u8]) -> usize
    ensures within { result ≤ length bytes.now }
    ensures all { AllByRecursion (IsIn class) (take result bytes.now) }
    ensures stops { BeginsOutside class (drop result bytes.now) }
{
    for (i, b) in bytes.iter().enumerate() {
        if !is_in(class, *b) {
            return i;
        }
    }
    bytes.len()
}

/// How many bytes come before the first `*/`.
pub fn closing(bytes: &[u8]) -> Option<usize>
    ensures found { IfSome result (λ n. FirstCloses bytes.now n) }
    ensures none { result ≡ None → NeverCloses bytes.now }
{
    for i in 1..bytes.len() {
        if bytes[i - 1] == b'*' && bytes[i] == b'/' {
            return Some(i - 1);
        }
    }
    None
}

/// The number that decimal digits write, or none above 9223372036854775807.
pub fn value(digits: &[u8]) -> Option<i64>
    requires { AllByRecursion IsDigit digits.now }
    ensures found { IfSome result (λ n. n ≡ pos (value_of digits.now)) }
    ensures none { result ≡ None → 2 ^ 63 ≤ value_of digits.now }
{
    let mut number: u64 = 0;
    for b in digits {
        let digit = u64::from(b - b'0');
        number = number.checked_mul(10)?.checked_add(digit)?;
    }
    i64::try_from(number).ok()
}
