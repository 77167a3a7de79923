ghost use Rattle.std.specs.Prelude.{◌≡◌};
ghost use Rattle.pp_cond.specs.Choices.{decided_by, followed_by, ending_in};
ghost use Rattle.pp_cond.specs.Outcomes.{value_of};

use crate::outcome::Outcome;

/// The conditions and the operands before the last operand of conditional expressions that follow one
/// another, as `a ? b : c ? d :`. A flag says whether one of the operands is unsigned.
#[derive(Clone, Copy)]
pub(crate) enum Choices {
    Nothing,
    /// No condition holds so far.
    Open(bool),
    /// The first condition that holds, or has no value, decided for this.
    Decided(bool, Outcome),
}

impl Choices {
    #[tactic(auto, unfolding(crate::specs::Choices::followed_by))]
    pub(crate) fn followed_by(self, condition: Outcome, operand: Outcome) -> Choices
        ensures { result ≡ followed_by self condition operand }
    {
        match self {
            Choices::Nothing => decided_by(operand.is_unsigned(), condition, operand),
            Choices::Open(unsigned) => {
                decided_by(unsigned || operand.is_unsigned(), condition, operand)
            }
            Choices::Decided(unsigned, decided) => {
                Choices::Decided(unsigned || operand.is_unsigned(), decided)
            }
        }
    }

    /// What the conditional expressions come to with their last operand.
    #[tactic(auto, unfolding(crate::specs::Choices::ending_in))]
    pub(crate) fn ending_in(self, last: Outcome) -> Outcome
        ensures { result ≡ ending_in self last }
    {
        match self {
            Choices::Nothing => last,
            Choices::Open(unsigned) => {
                Outcome::seen_as(unsigned || last.is_unsigned(), last.value())
            }
            Choices::Decided(unsigned, decided) => {
                Outcome::seen_as(unsigned || last.is_unsigned(), decided.value())
            }
        }
    }
}

fn decided_by(unsigned: bool, condition: Outcome, operand: Outcome) -> Choices
    ensures { result ≡ decided_by unsigned (value_of condition) operand }
{
    match condition.truth() {
        Some(true) => Choices::Decided(unsigned, operand),
        Some(false) => Choices::Open(unsigned),
        None => Choices::Decided(unsigned, Outcome::seen_as(false, None)),
    }
}
