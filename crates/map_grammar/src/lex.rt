ghost use Rattle.std.specs.Prelude.{◌≡◌, ◌<◌, length, slice_get, IfOk, IfErr, Some};
ghost use Rattle.map_grammar.specs.MapText.{is_line_end, words_of};
ghost use Rattle.map_grammar.specs.Faults.{IsLexFault};

use crate::fault::MapFault;
use crate::word::Word;
use c_lex::Lexer;
use cm_core::{FileNo, Names, NoMemory, Str, Token, TokenKind};
use cm_source::Text;
use std::alloc::Global;

/// The tokens of a map, but for line ends.
pub(crate) fn words(alloc: Global, text: &Text, file: FileNo) -> Result<Vec<Word>, MapFault>
    ensures ok { IfOk result (λ words. words_of text.now file ≡ Ok words.items) }
    ensures err { IfErr result (IsLexFault (words_of text.now file)) }
{
    let mut names = Names::new(alloc);
    let mut lexer = Lexer::new(text, file);
    let mut words = Vec::new(alloc);
    while let Some(token) = lexer.next(&mut names)? {
        if !is_line_end(token.kind) {
            words.push(word(alloc, &names, token)?)?;
        }
    }
    Ok(words)
}

fn is_line_end(kind: TokenKind) -> bool
    ensures { result ≡ is_line_end kind }
{
    matches!(kind, TokenKind::LineEnd)
}

fn word(alloc: Global, names: &Names, token: Token) -> Result<Word, NoMemory>
    requires { token.name.index < length names.now }
    ensures text { IfOk result (λ word. slice_get names.now token.name.index ≡ Some word.text) }
    ensures place { IfOk result (λ word. word.place ≡ token.place) }
{
    Ok(Word {
        text: Str::read(alloc, names.text(token.name))?,
        place: token.place,
    })
}
