ghost use Rattle.std.specs.Prelude.{◌≡◌};
ghost use Rattle.pp_cond.specs.Grammar.{level, prefix_of};

use crate::outcome::Outcome;
use cm_core::{BinOp, UnOp};

/// An operator that stands between its operands.
#[derive(Clone, Copy, Debug, PartialEq, Eq)]
pub enum Infix {
    Binary(BinOp),
    LogicalAnd,
    LogicalOr,
    Comma,
}

/// What a token is to a condition.
#[derive(Clone, Copy, Debug, PartialEq, Eq)]
pub enum Symbol {
    Operand(Outcome),
    Operator(Infix),
    /// An operator that can only stand before its operand.
    Prefix(UnOp),
    Open,
    Close,
    Question,
    Colon,
    /// No part of a condition.
    Stray,
}

/// The level of precedence, from 5 for the closest operators to 17 for the comma.
pub(crate) fn level(operator: Infix) -> u8
    ensures { result ≡ level operator }
{
    match operator {
        Infix::Binary(BinOp::Mul | BinOp::Div | BinOp::Rem) => 5,
        Infix::Binary(BinOp::Add | BinOp::Sub) => 6,
        Infix::Binary(BinOp::Shl | BinOp::Shr) => 7,
        Infix::Binary(BinOp::Lt | BinOp::Gt | BinOp::Le | BinOp::Ge) => 8,
        Infix::Binary(BinOp::Eq | BinOp::Ne) => 9,
        Infix::Binary(BinOp::And) => 10,
        Infix::Binary(BinOp::Xor) => 11,
        Infix::Binary(BinOp::Or) => 12,
        Infix::LogicalAnd => 13,
        Infix::LogicalOr => 14,
        Infix::Comma => 17,
    }
}

/// The unary operator that the symbol is before an operand.
pub(crate) fn prefix_of(symbol: Symbol) -> Option<UnOp>
    ensures { result ≡ prefix_of symbol }
{
    match symbol {
        Symbol::Prefix(operator) => Some(operator),
        Symbol::Operator(Infix::Binary(BinOp::Add)) => Some(UnOp::Plus),
        Symbol::Operator(Infix::Binary(BinOp::Sub)) => Some(UnOp::Minus),
        _ => None,
    }
}
