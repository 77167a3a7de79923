ghost use Rattle.std.specs.Prelude.{◌≡◌, IsTrue, IfSome};
ghost use Rattle.int_types.specs.Kinds.{holds, promoted};
ghost use Rattle.int_types.specs.Values.{IsValid};
ghost use Rattle.int_types.specs.Operations.{truth, typed, applied, applied_unary};

use crate::arithmetic::{
    bits_and, bits_or, bits_xor, difference, flipped, negation, product, quotient, remainder,
    shift_left, shift_right, sum,
};
use crate::kinds::{promote, usual};
use crate::values::{Value, converted};
use cm_core::{BinOp, IntKind, UnOp};

#[tactic(auto, unfolding(crate::specs::Operations::applied, crate::specs::Operations::bitwise))]
/// The value of the operator on two integers, converted as it asks. `None` where there is none: on
/// overflow of a signed type (for `Rem` also where the quotient overflows), for a zero divisor, for a
/// shift count below 0 or not below the width, and for the left shift of a negative number.
pub fn apply(operator: BinOp, left: Value, right: Value) -> Option<Value>
    requires left { IsValid left }
    requires right { IsValid right }
    ensures value { result ≡ applied operator left right }
    ensures valid { IfSome result IsValid }
{
    let kind = usual(left.kind, right.kind);
    let x = converted(kind, left.number, left.kind);
    let y = converted(kind, right.number, right.kind);
    match operator {
        BinOp::Mul => typed(kind, product(kind, x, y)),
        BinOp::Div => typed(kind, quotient(kind, x, y)),
        BinOp::Rem => typed(kind, remainder(kind, x, y)),
        BinOp::Add => typed(kind, sum(kind, x, y)),
        BinOp::Sub => typed(kind, difference(kind, x, y)),
        BinOp::Shl => {
            let kind = promoted(left);
            typed(kind, shift_left(kind, left.number, right.number))
        }
        BinOp::Shr => {
            let kind = promoted(left);
            typed(kind, shift_right(kind, left.number, right.number))
        }
        BinOp::Lt => Some(truth(x < y)),
        BinOp::Gt => Some(truth(y < x)),
        BinOp::Le => Some(truth(x <= y)),
        BinOp::Ge => Some(truth(y <= x)),
        BinOp::Eq => Some(truth(x == y)),
        BinOp::Ne => Some(truth(x != y)),
        BinOp::And => typed(kind, Some(bits_and(kind, x, y))),
        BinOp::Xor => typed(kind, Some(bits_xor(kind, x, y))),
        BinOp::Or => typed(kind, Some(bits_or(kind, x, y))),
    }
}

#[tactic(auto, unfolding(crate::specs::Operations::applied_unary))]
/// The value of the operator on one integer, promoted. `None` where a signed type does not hold it.
pub fn apply_unary(operator: UnOp, operand: Value) -> Option<Value>
    requires { IsValid operand }
    ensures value { result ≡ applied_unary operator operand }
    ensures valid { IfSome result IsValid }
{
    let kind = promoted(operand);
    let number = operand.number;
    match operator {
        UnOp::Plus => Some(Value { kind, number }),
        UnOp::Minus => typed(kind, negation(kind, number)),
        UnOp::Flip => typed(kind, Some(flipped(kind, number))),
        UnOp::Not => Some(truth(number == 0)),
    }
}

/// The promoted type of the value, which holds its number too.
fn promoted(value: Value) -> IntKind
    requires { IsValid value }
    ensures kind { result ≡ promoted value.kind }
    ensures valid { IsTrue (holds result value.number) }
{
    promote(value.kind)
}

fn typed(kind: IntKind, number: Option<i128>) -> Option<Value>
    requires { IfSome number (λ z. IsTrue (holds kind z)) }
    ensures value { result ≡ typed kind number }
    ensures valid { IfSome result IsValid }
{
    match number {
        Some(number) => Some(Value { kind, number }),
        None => None,
    }
}

/// The int that a test gives.
fn truth(is_true: bool) -> Value
    ensures value { result ≡ record { kind = IntKind.Int; number = truth is_true } }
    ensures valid { IsValid result }
{
    Value {
        kind: IntKind::Int,
        number: i128::from(is_true),
    }
}
