ghost use Rattle.std.specs.Prelude.{◌≡◌};
ghost use Rattle.std.specs.List.{list_any};
ghost use Rattle.std.specs.Str.{bytes_eq};
ghost use Rattle.job_text.specs.Answers.{Gives};
ghost use Rattle.job_text.specs.Bodies.{definition_of, is_identifier as is_identifier_of, is_predefined as is_predefined_of, predefined_names};

use crate::body::read_body;
use crate::fault::{JobKind, LineFault};
use crate::fields::cut_at;
use c_lex::kind_of;
use cm_core::{Define, MacroBody, Str, TokenKind};
use std::alloc::Global;

/// The names of the predefined macros (C11 6.10.8.1).
static PREDEFINED: [&str; 7] = [
    "__DATE__",
    "__FILE__",
    "__LINE__",
    "__STDC__",
    "__STDC_HOSTED__",
    "__STDC_VERSION__",
    "__TIME__",
];

fn is_identifier(name: &str) -> bool
    ensures { result ≡ is_identifier_of name.now }
{
    matches!(kind_of(name), Some(TokenKind::Ident))
}

fn is_one_of(words: &[&str], name: &str) -> bool
    ensures { result ≡ list_any (λ word. bytes_eq word.now name.now) words.now }
{
    words.iter().any(|word| *word == name)
}

#[tactic(auto, unfolding(crate::specs::Bodies::predefined_names))]
fn is_predefined(name: &str) -> bool
    ensures { result ≡ is_predefined_of name.now }
{
    is_one_of(&PREDEFINED, name)
}

/// The macro that `NAME` or `NAME=TEXT` defines.
pub(crate) fn read_definition(alloc: Global, field: &str) -> Result<Define, LineFault>
    ensures { Gives (definition_of field.now) result }
{
    let (name, text) = cut_at(field, '=');
    if !is_identifier(name) || is_predefined(name) {
        return Err(LineFault::Bad(JobKind::Macro));
    }
    let tokens = read_body(alloc, text)?;
    Ok(Define {
        name: Str::read(alloc, name)?,
        body: MacroBody {
            params: None,
            variadic: false,
            tokens,
        },
    })
}
