ghost use Rattle.std.specs.Prelude.{◌≡◌, ◌<◌, ◌≤◌, length, take, drop};
ghost use Rattle.std.specs.Option.{option_map, option_and_then};
ghost use Rattle.pp_cond.specs.Grammar.{infix_outcome, prefix_of};
ghost use Rattle.pp_cond.specs.Readers.{outcomes, read_primary, read_unary, read_up_to, read_conditional, read_expression, prefix_count, with_prefix, with_prefixes, after_close, front_operand, front_operator, is_open, is_question, is_colon};

use crate::choices::Choices;
use crate::outcome::Outcome;
use crate::symbol::{Infix, Symbol, level, prefix_of};

/// What was read at the front of some symbols: what it comes to, and the symbols after it.
#[derive(Clone, Copy)]
pub(crate) struct Reading<'a> {
    pub outcome: Outcome,
    pub rest: &'a [Symbol],
}

/// Reads an expression, in which fewer than `depth` brackets and `?` may be open at one place.
#[cycle(reader)]
fn expression(symbols: &[Symbol], depth: u16) -> Option<Reading>
    ensures { option_map (λ r. (r.outcome, r.rest.now)) result ≡ read_expression outcomes depth symbols.now }
{
    if depth == 0 {
        return None;
    }
    let Some(first) = conditional(symbols, depth - 1) else {
        return None;
    };
    let mut outcome = first.outcome;
    let mut rest = first.rest;
    while let Some(operator) = operator_at(17, rest) {
        let Some(next) = conditional(after_first(rest), depth - 1) else {
            return None;
        };
        outcome = infix(operator, outcome, next.outcome);
        rest = next.rest;
    }
    Some(Reading { outcome, rest })
}

/// Reads a conditional expression, in which at most `depth` brackets and `?` may be open at one place.
#[cycle(reader)]
pub(crate) fn conditional(symbols: &[Symbol], depth: u16) -> Option<Reading>
    ensures { option_map (λ r. (r.outcome, r.rest.now)) result ≡ read_conditional outcomes (read_expression outcomes depth) symbols.now }
{
    let mut choices = Choices::Nothing;
    let mut rest = symbols;
    loop {
        let Some(condition) = up_to(rest, depth, 10) else {
            return None;
        };
        if !is_question(condition.rest) {
            return Some(Reading {
                outcome: choices.ending_in(condition.outcome),
                rest: condition.rest,
            });
        }
        let Some(chosen) = expression(after_first(condition.rest), depth) else {
            return None;
        };
        if !is_colon(chosen.rest) {
            return None;
        }
        choices = choices.followed_by(condition.outcome, chosen.outcome);
        rest = after_first(chosen.rest);
    }
}

/// Reads operands and the operators between them, up to level `n + 4`.
#[cycle(reader)]
fn up_to(symbols: &[Symbol], depth: u16, n: u8) -> Option<Reading>
    requires { n ≤ 10 }
    ensures { option_map (λ r. (r.outcome, r.rest.now)) result ≡ read_up_to outcomes (read_expression outcomes depth) n symbols.now }
{
    if n == 0 {
        return unary(symbols, depth);
    }
    let Some(first) = up_to(symbols, depth, n - 1) else {
        return None;
    };
    let mut outcome = first.outcome;
    let mut rest = first.rest;
    while let Some(operator) = operator_at(n + 4, rest) {
        let Some(next) = up_to(after_first(rest), depth, n - 1) else {
            return None;
        };
        outcome = infix(operator, outcome, next.outcome);
        rest = next.rest;
    }
    Some(Reading { outcome, rest })
}

/// Reads an operand with the unary operators before it.
#[cycle(reader)]
fn unary(symbols: &[Symbol], depth: u16) -> Option<Reading>
    ensures { option_map (λ r. (r.outcome, r.rest.now)) result ≡ read_unary outcomes (read_expression outcomes depth) symbols.now }
{
    let count = prefix_count(symbols);
    let Some(operand) = primary(back(symbols, count), depth) else {
        return None;
    };
    Some(Reading {
        outcome: with_prefixes(front(symbols, count), operand.outcome),
        rest: operand.rest,
    })
}

/// Reads a constant or an expression in brackets.
#[cycle(reader)]
fn primary(symbols: &[Symbol], depth: u16) -> Option<Reading>
    ensures { option_map (λ r. (r.outcome, r.rest.now)) result ≡ read_primary outcomes (read_expression outcomes depth) symbols.now }
{
    if let Some(outcome) = operand_at(symbols) {
        let rest = after_first(symbols);
        return Some(Reading { outcome, rest });
    }
    if !is_open(symbols) {
        return None;
    }
    after_close(expression(after_first(symbols), depth))
}

/// What stands before a closing bracket, with the symbols after that.
fn after_close(inside: Option<Reading>) -> Option<Reading>
    ensures { option_map (λ r. (r.outcome, r.rest.now)) result ≡ option_and_then (λ r. after_close r.outcome r.rest.now) inside.entry }
{
    match inside {
        Some(
            Reading {
                outcome,
                rest: [Symbol::Close, rest @ ..],
            },
        ) => Some(Reading { outcome, rest }),
        _ => None,
    }
}

/// How many symbols at the front are unary operators.
fn prefix_count(symbols: &[Symbol]) -> usize
    ensures value { result ≡ prefix_count symbols.now }
    ensures within { result ≤ length symbols.now }
{
    let mut count = 0;
    while count < symbols.len() && prefix_of(symbols[count]).is_some() {
        count += 1;
    }
    count
}

/// The operand with the operators before it, of which the last stands next to it.
fn with_prefixes(operators: &[Symbol], operand: Outcome) -> Outcome
    ensures { result ≡ with_prefixes outcomes operators.now operand }
{
    let mut outcome = operand;
    let mut left = operators.len();
    while 0 < left {
        left -= 1;
        outcome = with_prefix(operators[left], outcome);
    }
    outcome
}

fn with_prefix(symbol: Symbol, operand: Outcome) -> Outcome
    ensures { result ≡ with_prefix outcomes (prefix_of symbol) operand }
{
    match prefix_of(symbol) {
        Some(operator) => Outcome::unary(operator, operand),
        None => operand,
    }
}

/// The operator at the front, if it is one of the level.
fn operator_at(wanted: u8, symbols: &[Symbol]) -> Option<Infix>
    ensures { result ≡ front_operator wanted symbols.now }
{
    match symbols {
        [Symbol::Operator(operator), ..] if level(*operator) == wanted => Some(*operator),
        _ => None,
    }
}

fn after_first(symbols: &[Symbol]) -> &[Symbol]
    requires { 0 < length symbols.now }
    ensures { result.now ≡ drop 1 symbols.now }
{
    &symbols[1..]
}

fn front(symbols: &[Symbol], end: usize) -> &[Symbol]
    requires { end ≤ length symbols.now }
    ensures { result.now ≡ take end symbols.now }
{
    &symbols[..end]
}

fn back(symbols: &[Symbol], start: usize) -> &[Symbol]
    requires { start ≤ length symbols.now }
    ensures { result.now ≡ drop start symbols.now }
{
    &symbols[start..]
}

/// The operand at the front, if there is one.
fn operand_at(symbols: &[Symbol]) -> Option<Outcome>
    ensures { result ≡ front_operand symbols.now }
{
    match symbols {
        [Symbol::Operand(outcome), ..] => Some(*outcome),
        _ => None,
    }
}

fn is_open(symbols: &[Symbol]) -> bool
    ensures { result ≡ is_open symbols.now }
{
    matches!(symbols, [Symbol::Open, ..])
}

fn is_question(symbols: &[Symbol]) -> bool
    ensures { result ≡ is_question symbols.now }
{
    matches!(symbols, [Symbol::Question, ..])
}

fn is_colon(symbols: &[Symbol]) -> bool
    ensures { result ≡ is_colon symbols.now }
{
    matches!(symbols, [Symbol::Colon, ..])
}

fn infix(operator: Infix, left: Outcome, right: Outcome) -> Outcome
    ensures { result ≡ infix_outcome operator left right }
{
    match operator {
        Infix::Binary(operator) => Outcome::binary(operator, left, right),
        Infix::LogicalAnd => Outcome::and(left, right),
        Infix::LogicalOr => Outcome::or(left, right),
        Infix::Comma => Outcome::comma(left, right),
    }
}
