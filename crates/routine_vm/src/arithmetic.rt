//! Arithmetic that traps.

ghost use Rattle.std.specs.Prelude.{◌≡◌, ◌+◌, ◌<◌, ◌^◌, ◌+ℤ◌, ◌-ℤ◌, ◌*ℤ◌, neg_ℤ};
ghost use Rattle.cal_base.specs.Arithmetic as arithmetic;
ghost use Rattle.machine_meaning.specs.Machine as machine;

use cal_base::Cause;

pub fn sum(x: i64, y: i64) -> Result<i64, Cause>
    ensures { result ≡ arithmetic.checked (x +ℤ y) }
{
    x.checked_add(y).ok_or(Cause::Overflow)
}

pub fn difference(x: i64, y: i64) -> Result<i64, Cause>
    ensures { result ≡ arithmetic.checked (x -ℤ y) }
{
    x.checked_sub(y).ok_or(Cause::Overflow)
}

pub fn product(x: i64, y: i64) -> Result<i64, Cause>
    ensures { result ≡ arithmetic.checked (x *ℤ y) }
{
    x.checked_mul(y).ok_or(Cause::Overflow)
}

pub fn negative(x: i64) -> Result<i64, Cause>
    ensures { result ≡ arithmetic.checked (neg_ℤ x) }
{
    x.checked_neg().ok_or(Cause::Overflow)
}

pub fn quotient(x: i64, y: i64) -> Result<i64, Cause>
    ensures { result ≡ arithmetic.quotient x y }
{
    if y == 0 {
        return Err(Cause::DivisionByZero);
    }
    x.checked_div(y).ok_or(Cause::Overflow)
}

pub fn remainder(x: i64, y: i64) -> Result<i64, Cause>
    ensures { result ≡ arithmetic.remainder x y }
{
    if y == 0 {
        return Err(Cause::DivisionByZero);
    }
    x.checked_rem(y).ok_or(Cause::Overflow)
}

/// The address of an array's item, unless the index is outside.
pub fn item_at(first: u32, long: u32, index: i64) -> Option<u32>
    requires { first + long < 2 ^ 32 }
    ensures { result ≡ machine.item_at first long index }
{
    if 0 <= index && index < i64::from(long) {
        Some(first + index as u32)
    } else {
        None
    }
}
