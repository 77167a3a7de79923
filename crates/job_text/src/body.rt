ghost use Rattle.std.specs.Prelude.{◌≡◌, ◌<◌, false, IfOk, OnOk, length, slice_get};
ghost use Rattle.std.specs.Option.{option_copied, option_map_or};
ghost use Rattle.c_lex.specs.Lexemes.{lexemes_of};
ghost use Rattle.cm_source.specs.LogicalText.{text_of as file_of};
ghost use Rattle.job_text.specs.Answers.{Gives};
ghost use Rattle.job_text.specs.Bodies.{body_of, cut_body as cut_body_of, cut_text as cut_text_of, has_outer_paste as has_outer_paste_of, is_line_end as is_line_end_of, is_paste as is_paste_of, no_file, one_token as one_token_of};
ghost use Rattle.job_text.specs.Drafts.{IsBehind};

use crate::fault::{JobKind, LineFault};
use c_lex::Lexer;
use cm_core::{BodyToken, FileNo, List, Names, NoMemory, Str, Token, TokenKind};
use cm_source::{Text, TextFault};
use std::alloc::Global;

/// The number that places have as their file; none is kept.
const FILE: FileNo = FileNo { index: 0 };

fn is_line_end(kind: TokenKind) -> bool
    ensures { result ≡ is_line_end_of kind }
{
    matches!(kind, TokenKind::LineEnd)
}

/// Adds a token to those of a body, whose first is not spaced.
fn push_token(
    alloc: Global,
    tokens: &mut List<BodyToken>,
    names: &Names,
    token: Token,
) -> Result<(), NoMemory>
    requires { token.name.index < length names.now }
    ensures { OnOk result (IsBehind tokens.old (slice_get names.now token.name.index) token.spaced tokens.new) }
{
    let text = Str::read(alloc, names.text(token.name))?;
    let spaced = token.spaced && !tokens.is_empty();
    tokens.push(BodyToken { text, spaced })
}

/// The tokens of a text as those of a body.
fn cut_body(alloc: Global, text: &Text) -> Result<List<BodyToken>, LineFault>
    ensures { Gives (cut_body_of (lexemes_of text.now no_file)) result }
{
    let mut names = Names::new(alloc);
    let mut lexer = Lexer::new(text, FILE);
    let mut tokens = List::new(alloc);
    while let Some(token) = lexer.next(&mut names)? {
        if is_line_end(token.kind) {
            continue;
        }
        push_token(alloc, &mut tokens, &names, token)?;
    }
    Ok(tokens)
}

/// The text as that of a file.
fn file_text(alloc: Global, text: &str) -> Result<Text, NoMemory>
    ensures { IfOk result (λ file. file ≡ file_of text.now) }
{
    match Text::read(alloc, text.as_bytes()) {
        Ok(text) => Ok(text),
        Err(TextFault::NoMemory) => Err(NoMemory),
        Err(TextFault::NotUtf8(_)) => unreachable!(),
    }
}

/// The tokens that a text is cut into.
#[tactic(auto, unfolding(crate::specs::Bodies::cut_text))]
fn cut_text(alloc: Global, text: &str) -> Result<List<BodyToken>, LineFault>
    ensures { Gives (cut_text_of text.now) result }
{
    let text = file_text(alloc, text)?;
    cut_body(alloc, &text)
}

/// Whether the token is one that joins the tokens beside it.
fn is_paste(token: Option<&BodyToken>) -> bool
    ensures { result ≡ option_map_or is_paste_of (option_copied token.entry) false }
{
    match token {
        Some(token) => token.text.text() == "##" || token.text.text() == "%:%:",
        None => false,
    }
}

/// Whether the tokens begin or end with one that joins the tokens beside it.
fn has_outer_paste(tokens: &[BodyToken]) -> bool
    ensures { result ≡ has_outer_paste_of tokens.now }
{
    let first = is_paste(tokens.first());
    let last = is_paste(tokens.last());
    first || last
}

/// The body of a macro that is given none, the token `1`.
fn one_token(alloc: Global) -> Result<List<BodyToken>, NoMemory>
    ensures { IfOk result (λ tokens. tokens ≡ one_token_of) }
{
    let mut tokens = List::new(alloc);
    tokens.push(BodyToken {
        text: Str::read(alloc, "1")?,
        spaced: false,
    })?;
    Ok(tokens)
}

/// The body that stands behind `=`, or 1 where there is no `=`.
pub(crate) fn read_body(alloc: Global, text: Option<&str>) -> Result<List<BodyToken>, LineFault>
    ensures { Gives (body_of (option_copied text.entry)) result }
{
    let Some(text) = text else {
        return Ok(one_token(alloc)?);
    };
    let tokens = cut_text(alloc, text)?;
    if has_outer_paste(tokens.items()) {
        return Err(LineFault::Bad(JobKind::Macro));
    }
    Ok(tokens)
}
