//! Operators on values.

ghost use Rattle.std.specs.Prelude.{◌≡◌, MatchOption};
ghost use Rattle.csl_meaning.specs.Operators as spec;

use cal_base::{Cause, Val};
use csl_tree::program::{BinaryOp, UnaryOp};

/// The number in a value.
pub fn number_in(v: Val) -> i64
    ensures { result ≡ spec.number_in v }
{
    match v {
        Val::Int(z) => z,
        Val::Truth(_) => 0,
    }
}

/// The truth in a value.
pub fn truth_in(v: Val) -> bool
    ensures { result ≡ spec.truth_in v }
{
    match v {
        Val::Int(_) => false,
        Val::Truth(b) => b,
    }
}

/// What the left operand alone decides.
pub fn decided(op: BinaryOp, x: Val) -> Option<Val>
    ensures { result ≡ spec.decided op x }
{
    match op {
        BinaryOp::And => {
            if truth_in(x) {
                None
            } else {
                Some(Val::Truth(false))
            }
        }
        BinaryOp::Or => {
            if truth_in(x) {
                Some(Val::Truth(true))
            } else {
                None
            }
        }
        _ => None,
    }
}

fn as_int(z: Option<i64>) -> Result<Val, Cause>
    ensures { MatchOption z (result ≡ Err Cause.Overflow) (λ n. result ≡ Ok (Val.Int n)) }
{
    match z {
        None => Err(Cause::Overflow),
        Some(z) => Ok(Val::Int(z)),
    }
}

fn same_value(x: Val, y: Val) -> bool
    ensures { result ≡ spec.same_value x y }
{
    match (x, y) {
        (Val::Int(x), Val::Int(y)) => x == y,
        (Val::Truth(x), Val::Truth(y)) => x == y,
        _ => false,
    }
}

/// An operator on one value.
pub fn unary(op: UnaryOp, x: Val) -> Result<Val, Cause>
    ensures { result ≡ spec.unary op x }
{
    match op {
        UnaryOp::Neg => as_int(number_in(x).checked_neg()),
        UnaryOp::Not => Ok(Val::Truth(!truth_in(x))),
    }
}

/// An operator on two values, where the left one alone does not decide.
pub fn binary(op: BinaryOp, x: Val, y: Val) -> Result<Val, Cause>
    ensures { result ≡ spec.binary op x y }
{
    match op {
        BinaryOp::Add => as_int(number_in(x).checked_add(number_in(y))),
        BinaryOp::Sub => as_int(number_in(x).checked_sub(number_in(y))),
        BinaryOp::Mul => as_int(number_in(x).checked_mul(number_in(y))),
        BinaryOp::Div => {
            if number_in(y) == 0 {
                Err(Cause::DivisionByZero)
            } else {
                as_int(number_in(x).checked_div(number_in(y)))
            }
        }
        BinaryOp::Rem => {
            if number_in(y) == 0 {
                Err(Cause::DivisionByZero)
            } else {
                as_int(number_in(x).checked_rem(number_in(y)))
            }
        }
        BinaryOp::Eq => Ok(Val::Truth(same_value(x, y))),
        BinaryOp::Ne => Ok(Val::Truth(!same_value(x, y))),
        BinaryOp::Lt => Ok(Val::Truth(number_in(x) < number_in(y))),
        BinaryOp::Le => Ok(Val::Truth(number_in(x) <= number_in(y))),
        BinaryOp::Gt => Ok(Val::Truth(number_in(x) > number_in(y))),
        BinaryOp::Ge => Ok(Val::Truth(number_in(x) >= number_in(y))),
        BinaryOp::And | BinaryOp::Or => Ok(y),
    }
}
