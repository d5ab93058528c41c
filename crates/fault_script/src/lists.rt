//! The lists of a row.

ghost use Rattle.std.specs.Prelude.{◌≡◌};
ghost use Rattle.fault_script.specs.Rows.{has};

/// Whether the number is in the list.
pub(crate) fn has(numbers: &[u32], i: u64) -> bool
    ensures { result ≡ has numbers.now i }
{
    for number in numbers {
        if u64::from(*number) == i {
            return true;
        }
    }
    false
}
