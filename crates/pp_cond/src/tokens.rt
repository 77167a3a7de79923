ghost use Rattle.std.specs.Prelude.{◌≡◌};
ghost use Rattle.pp_cond.specs.Conditions.{operand_of, identifier_of, single_in, singles, double_in, doubles, punctuator_of, symbol_of};

use crate::characters::character_constant;
use crate::numbers::integer;
use crate::outcome::Outcome;
use crate::symbol::{Infix, Symbol};
use cm_core::{BinOp, TokenKind, UnOp};

/// What a token of the kind with the spelling is to a condition.
#[tactic(auto, unfolding(crate::specs::Conditions::symbol_of))]
pub(crate) fn symbol_of(kind: TokenKind, text: &str) -> Symbol
    ensures { result ≡ symbol_of kind text.now }
{
    match kind {
        TokenKind::Ident => identifier(text),
        TokenKind::Number => operand(integer(text.as_bytes())),
        TokenKind::CharConst => operand(character_constant(text.as_bytes())),
        TokenKind::Punct => punctuator(text.as_bytes()),
        TokenKind::Str | TokenKind::HeaderName | TokenKind::Other | TokenKind::LineEnd => {
            Symbol::Stray
        }
    }
}

fn operand(outcome: Option<Outcome>) -> Symbol
    ensures { result ≡ operand_of outcome }
{
    match outcome {
        Some(outcome) => Symbol::Operand(outcome),
        None => Symbol::Stray,
    }
}

/// An identifier counts as 0, but for a `defined` that is left over.
fn identifier(text: &str) -> Symbol
    ensures { result ≡ identifier_of text.now }
{
    if text == "defined" {
        Symbol::Stray
    } else {
        Symbol::Operand(Outcome::Signed(Some(0)))
    }
}

#[tactic(auto, unfolding(crate::specs::Conditions::punctuator_of))]
fn punctuator(text: &[u8]) -> Symbol
    ensures { result ≡ punctuator_of text.now }
{
    match text {
        [byte] => single(*byte),
        [first, second] => double(*first, *second),
        _ => Symbol::Stray,
    }
}

fn single(byte: u8) -> Symbol
    ensures { result ≡ single_in byte singles }
{
    match byte {
        b'(' => Symbol::Open,
        b')' => Symbol::Close,
        b'?' => Symbol::Question,
        b':' => Symbol::Colon,
        b',' => Symbol::Operator(Infix::Comma),
        b'!' => Symbol::Prefix(UnOp::Not),
        b'~' => Symbol::Prefix(UnOp::Flip),
        b'*' => Symbol::Operator(Infix::Binary(BinOp::Mul)),
        b'/' => Symbol::Operator(Infix::Binary(BinOp::Div)),
        b'%' => Symbol::Operator(Infix::Binary(BinOp::Rem)),
        b'+' => Symbol::Operator(Infix::Binary(BinOp::Add)),
        b'-' => Symbol::Operator(Infix::Binary(BinOp::Sub)),
        b'<' => Symbol::Operator(Infix::Binary(BinOp::Lt)),
        b'>' => Symbol::Operator(Infix::Binary(BinOp::Gt)),
        b'&' => Symbol::Operator(Infix::Binary(BinOp::And)),
        b'^' => Symbol::Operator(Infix::Binary(BinOp::Xor)),
        b'|' => Symbol::Operator(Infix::Binary(BinOp::Or)),
        _ => Symbol::Stray,
    }
}

fn double(first: u8, second: u8) -> Symbol
    ensures { result ≡ double_in first second doubles }
{
    match (first, second) {
        (b'<', b'<') => Symbol::Operator(Infix::Binary(BinOp::Shl)),
        (b'>', b'>') => Symbol::Operator(Infix::Binary(BinOp::Shr)),
        (b'<', b'=') => Symbol::Operator(Infix::Binary(BinOp::Le)),
        (b'>', b'=') => Symbol::Operator(Infix::Binary(BinOp::Ge)),
        (b'=', b'=') => Symbol::Operator(Infix::Binary(BinOp::Eq)),
        (b'!', b'=') => Symbol::Operator(Infix::Binary(BinOp::Ne)),
        (b'&', b'&') => Symbol::Operator(Infix::LogicalAnd),
        (b'|', b'|') => Symbol::Operator(Infix::LogicalOr),
        _ => Symbol::Stray,
    }
}
