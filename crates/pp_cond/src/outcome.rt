ghost use Rattle.std.specs.Prelude.{◌≡◌, IfSome, pos, unsigned_abs};
ghost use Rattle.std.specs.Option.{option_map};
ghost use Rattle.int_types.specs.Values.{IsValid, converted};
ghost use Rattle.int_types.specs.Operations.{truth as truth_of};
ghost use Rattle.pp_cond.specs.Outcomes.{is_unsigned, value_of, seen_as, unary_unsigned, unary_outcome, binary_unsigned, binary_outcome, and_outcome, or_outcome, choice_outcome, comma_outcome, is_nonzero};

use cm_core::{BinOp, IntKind, UnOp};
use int_types::{Value, apply, apply_unary, convert};

/// What an expression comes to: its type, long or unsigned long, and its number. There is none where
/// an operation that is evaluated has no value.
#[derive(Clone, Copy, Debug, PartialEq, Eq)]
pub enum Outcome {
    Signed(Option<i64>),
    Unsigned(Option<u64>),
}

impl Outcome {
    pub(crate) fn is_unsigned(self) -> bool
        ensures { result ≡ is_unsigned self }
    {
        match self {
            Outcome::Signed(_) => false,
            Outcome::Unsigned(_) => true,
        }
    }

    #[tactic(auto, unfolding(crate::specs::Outcomes::value_of))]
    pub(crate) fn value(self) -> Option<Value>
        ensures value { result ≡ value_of self }
        ensures valid { IfSome result IsValid }
    {
        match self {
            Outcome::Signed(Some(number)) => Some(long_value(number)),
            Outcome::Unsigned(Some(number)) => Some(unsigned_long_value(number)),
            Outcome::Signed(None) | Outcome::Unsigned(None) => None,
        }
    }

    /// A result as a long or an unsigned long.
    #[tactic(auto, unfolding(crate::specs::Outcomes::seen_as))]
    pub(crate) fn seen_as(unsigned: bool, value: Option<Value>) -> Outcome
        requires { IfSome value IsValid }
        ensures { result ≡ seen_as unsigned value }
    {
        match (unsigned, value) {
            (false, Some(value)) => Outcome::Signed(Some(long_of(value))),
            (false, None) => Outcome::Signed(None),
            (true, Some(value)) => Outcome::Unsigned(Some(unsigned_long_of(value))),
            (true, None) => Outcome::Unsigned(None),
        }
    }

    #[tactic(auto, unfolding(crate::specs::Outcomes::unary_outcome))]
    pub(crate) fn unary(operator: UnOp, operand: Outcome) -> Outcome
        ensures { result ≡ unary_outcome operator operand }
    {
        let unsigned = operator != UnOp::Not && operand.is_unsigned();
        match operand.value() {
            Some(value) => Outcome::seen_as(unsigned, apply_unary(operator, value)),
            None => Outcome::seen_as(unsigned, None),
        }
    }

    #[tactic(auto, unfolding(crate::specs::Outcomes::binary_outcome))]
    pub(crate) fn binary(operator: BinOp, left: Outcome, right: Outcome) -> Outcome
        ensures { result ≡ binary_outcome operator left right }
    {
        let unsigned = binary_unsigned(operator, left.is_unsigned(), right.is_unsigned());
        match (left.value(), right.value()) {
            (Some(x), Some(y)) => Outcome::seen_as(unsigned, apply(operator, x, y)),
            _ => Outcome::seen_as(unsigned, None),
        }
    }

    /// The outcome of `&&`, whose second operand is not evaluated where the first is 0.
    #[tactic(auto, unfolding(crate::specs::Outcomes::and_outcome))]
    pub(crate) fn and(left: Outcome, right: Outcome) -> Outcome
        ensures { result ≡ and_outcome left right }
    {
        match left.truth() {
            Some(true) => Outcome::of_truth(right.truth()),
            Some(false) => Outcome::of_truth(Some(false)),
            None => Outcome::of_truth(None),
        }
    }

    /// The outcome of `||`, whose second operand is not evaluated where the first is not 0.
    #[tactic(auto, unfolding(crate::specs::Outcomes::or_outcome))]
    pub(crate) fn or(left: Outcome, right: Outcome) -> Outcome
        ensures { result ≡ or_outcome left right }
    {
        match left.truth() {
            Some(true) => Outcome::of_truth(Some(true)),
            Some(false) => Outcome::of_truth(right.truth()),
            None => Outcome::of_truth(None),
        }
    }

    /// The outcome of a comma, which has no value where it is evaluated.
    #[tactic(auto, unfolding(crate::specs::Outcomes::comma_outcome))]
    pub(crate) fn comma(left: Outcome, right: Outcome) -> Outcome
        ensures { result ≡ comma_outcome left right }
    {
        let _left = left;
        Outcome::seen_as(right.is_unsigned(), None)
    }

    /// Whether the number is not 0.
    pub(crate) fn truth(self) -> Option<bool>
        ensures { result ≡ option_map is_nonzero (value_of self) }
    {
        match self.value() {
            Some(value) => Some(value.number != 0),
            None => None,
        }
    }

    fn of_truth(truth: Option<bool>) -> Outcome
        ensures { result ≡ Outcome.Signed (option_map truth_of truth) }
    {
        match truth {
            Some(is_true) => Outcome::Signed(Some(i64::from(is_true))),
            None => Outcome::Signed(None),
        }
    }
}

fn long_value(number: i64) -> Value
    ensures value { result ≡ record { kind = IntKind.Long; number = number } }
    ensures valid { IsValid result }
{
    Value {
        kind: IntKind::Long,
        number: i128::from(number),
    }
}

fn unsigned_long_value(number: u64) -> Value
    ensures value { result ≡ record { kind = IntKind.ULong; number = pos number } }
    ensures valid { IsValid result }
{
    Value {
        kind: IntKind::ULong,
        number: i128::from(number),
    }
}

fn long_of(value: Value) -> i64
    requires { IsValid value }
    ensures { result ≡ converted IntKind.Long value.number }
{
    convert(value, IntKind::Long).number as i64
}

fn unsigned_long_of(value: Value) -> u64
    requires { IsValid value }
    ensures { result ≡ unsigned_abs (converted IntKind.ULong value.number) }
{
    convert(value, IntKind::ULong).number as u64
}

/// Whether the result of the operator is unsigned, as its operands are.
fn binary_unsigned(operator: BinOp, left: bool, right: bool) -> bool
    ensures { result ≡ binary_unsigned operator left right }
{
    match operator {
        BinOp::Shl | BinOp::Shr => left,
        BinOp::Lt | BinOp::Gt | BinOp::Le | BinOp::Ge | BinOp::Eq | BinOp::Ne => false,
        BinOp::Mul
        | BinOp::Div
        | BinOp::Rem
        | BinOp::Add
        | BinOp::Sub
        | BinOp::And
        | BinOp::Xor
        | BinOp::Or => left || right,
    }
}
