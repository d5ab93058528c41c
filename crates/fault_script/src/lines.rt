//! Lines of bytes, and the words of a line.

ghost use Rattle.std.specs.Prelude.{◌≡◌, ◌∷◌, ◌==◌, ◌<◌, ◌≤◌, length};
ghost use Rattle.std.specs.List.{position_or_len, before_first, after_first};
ghost use Rattle.fault_script.specs.Events.{lines_of, is_blank};
ghost use Rattle.fault_script.specs.Pieces.{without_cr};

/// The place of the first such byte, or the length where there is none.
fn place_of(bytes: &[u8], wanted: u8) -> usize
    ensures place { result ≡ position_or_len (λ byte. byte == wanted) bytes.now }
    ensures within { result ≤ length bytes.now }
{
    let mut place = 0;
    while place < bytes.len() && bytes[place] != wanted {
        place += 1;
    }
    place
}

/// The bytes without a CR at their end.
fn without_cr(bytes: &[u8]) -> &[u8]
    ensures { result.now ≡ without_cr bytes.now }
{
    match bytes.split_last() {
        Some((last, front)) if *last == b'\r' => front,
        _ => bytes,
    }
}

/// The first line, without its end, and what stands behind that.
pub(crate) fn first_line(bytes: &[u8]) -> (&[u8], &[u8])
    requires { 0 < length bytes.now }
    ensures line { lines_of bytes.now ≡ result.0.now ∷ lines_of result.1.now }
    ensures shorter { length result.1.now < length bytes.now }
{
    let end = place_of(bytes, b'\n');
    if end == bytes.len() {
        return (bytes, &bytes[end..]);
    }
    (without_cr(&bytes[..end]), &bytes[end + 1..])
}

/// What stands before the first blank and behind it: all and nothing, where there is no blank.
pub(crate) fn at_blank(text: &[u8]) -> (&[u8], &[u8])
    ensures before { result.0.now ≡ before_first is_blank text.now }
    ensures after { result.1.now ≡ after_first is_blank text.now }
{
    let place = place_of(text, b' ');
    if place == text.len() {
        return (text, &text[place..]);
    }
    (&text[..place], &text[place + 1..])
}
