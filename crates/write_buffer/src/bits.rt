//! Bits of masks: bit a of a list of masks is bit a mod 64 of mask a / 64.

ghost use Rattle.std.specs.Prelude.{◌≡◌, ◌≢◌, ◌<◌, ◌≤◌, ◌/◌, length, vec_len};
ghost use Rattle.write_buffer.specs.Bits.{mask_of, is_marked, with_mark, IsLowest, IsNextBit, IsNextMarked};

/// Whether bit a is set.
pub fn is_set(masks: &[u64], a: u32) -> bool
    requires { a / 64 < length masks.now }
    ensures { result ≡ is_marked masks.now a }
{
    (masks[(a / 64) as usize] >> (a % 64)) & 1 == 1
}

/// Sets bit a.
pub fn set(masks: &mut Vec<u64>, a: u32)
    requires { a / 64 < vec_len masks.old }
    ensures { masks.new.items ≡ with_mark masks.old.items a }
{
    let p = (a / 64) as usize;
    masks[p] = masks[p] | (1u64 << (a % 64));
}

/// The lowest bit that is set.
pub fn lowest(mask: u64) -> u32
    requires { mask ≢ 0 }
    ensures { IsLowest mask result }
{
    mask.trailing_zeros()
}

/// The lowest bit from this one on that is set.
pub fn next_bit(mask: u64, from: u32) -> Option<u32>
    requires { from < 64 }
    ensures { IsNextBit mask from result }
{
    let rest = mask >> from;
    if rest == 0 {
        None
    } else {
        Some(from + lowest(rest))
    }
}

/// The lowest bit from this one on that is set.
pub fn next_set(masks: &[u64], from: u32) -> Option<u32>
    requires { length masks.now ≤ 4096 }
    ensures { IsNextMarked masks.now from result }
{
    let count = masks.len() as u32;
    let first = from / 64;
    if first >= count {
        return None;
    }
    match next_bit(masks[first as usize], from % 64) {
        Some(i) => return Some(64 * first + i),
        None => {}
    }
    for p in first + 1..count {
        if masks[p as usize] != 0 {
            return Some(64 * p + lowest(masks[p as usize]));
        }
    }
    None
}
