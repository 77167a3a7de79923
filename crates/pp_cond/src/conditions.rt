ghost use Rattle.std.specs.Prelude.{◌≡◌, ◌<◌, length, map, All, IfOk, OnOk};
ghost use Rattle.std.specs.Result.{IsErrOf};
ghost use Rattle.pp_cond.specs.Conditions.{token_symbol, symbols_of, HasTruth, HasNoTruth};
ghost use Rattle.pp_cond.specs.Readers.{judged, truth_at_end};
ghost use Rattle.pp_cond.specs.declared.conditions.CondFault.TheVariants.{NoMemory as OutOfMemory};

use crate::outcome::Outcome;
use crate::reader::conditional;
use crate::symbol::Symbol;
use crate::tokens::symbol_of;
use cm_core::{Names, Token};
use std::alloc::{AllocError, AllocFailed, Global};

/// Why a condition has no truth: its tokens are no conditional expression of integer constants, brackets
/// and open `?` nest deeper than 256, or an evaluated operation has no value.
#[derive(Clone, Copy, Debug, PartialEq, Eq)]
pub enum CondFault {
    Bad,
    NoMemory,
}

impl From<AllocError> for CondFault {
    ghost from_gives = { λ _ fault. fault ≡ OutOfMemory };

    fn from(_error: AllocError) -> CondFault {
        CondFault::NoMemory
    }
}

impl<T: Drop> From<AllocFailed<T>> for CondFault {
    ghost from_gives = { λ _ fault. fault ≡ OutOfMemory };

    fn from(_error: AllocFailed<T>) -> CondFault {
        CondFault::NoMemory
    }
}

/// Whether the condition that the tokens are is true. The caller has replaced macros and `defined`.
pub fn condition(alloc: Global, tokens: &[Token], names: &Names) -> Result<bool, CondFault>
    requires { All (λ t. t.name.index < length names.now) tokens.now }
    ensures ok { IfOk result (HasTruth (symbols_of names.now tokens.now)) }
    ensures bad { IsErrOf result CondFault.Bad → HasNoTruth (symbols_of names.now tokens.now) }
{
    let symbols = symbols(alloc, tokens, names)?;
    match judge(&symbols) {
        Some(is_true) => Ok(is_true),
        None => Err(CondFault::Bad),
    }
}

fn symbols(alloc: Global, tokens: &[Token], names: &Names) -> Result<Vec<Symbol>, AllocError>
    requires { All (λ t. t.name.index < length names.now) tokens.now }
    ensures { IfOk result (λ v. v.items ≡ symbols_of names.now tokens.now) }
{
    let mut symbols = Vec::new(alloc);
    for token in tokens {
        symbols.push(symbol_of(token.kind, names.text(token.name)))?;
    }
    Ok(symbols)
}

pub(crate) fn judge(symbols: &[Symbol]) -> Option<bool>
    ensures { result ≡ judged symbols.now }
{
    match conditional(symbols, 256) {
        Some(reading) => truth_at_end(reading.outcome, reading.rest),
        None => None,
    }
}

/// The truth of what was read, if nothing stands after it.
fn truth_at_end(outcome: Outcome, rest: &[Symbol]) -> Option<bool>
    ensures { result ≡ truth_at_end outcome rest.now }
{
    match rest {
        [] => outcome.truth(),
        _ => None,
    }
}
