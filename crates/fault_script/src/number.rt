//! Numbers of workers.

ghost use Rattle.std.specs.Prelude.{◌≡◌};
ghost use Rattle.fault_script.specs.Events as events;

use decimal_number::number_between;

/// The number of a worker that the text is, 0 to 31.
pub(crate) fn worker_in(text: &[u8]) -> Option<u8>
    ensures who { result ≡ events.worker_in text.now }
{
    match number_between(text, 0, 31) {
        Some(number) => u8::try_from(number).ok(),
        None => None,
    }
}
