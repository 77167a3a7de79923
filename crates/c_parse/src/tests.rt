//! Rows of tokens. Behind each that is the last of its piece stands a `|`, put there by hand after
//! the rule. That of a `}` is C's own where the tokens are well formed; a definition whose parameters
//! are declared between `)` and `{` is not.

ghost use Rattle.std.specs.Prelude.{◌≡◌, ◌<◌, length, All, IfOk};
ghost use Rattle.cm_core.specs.Tables.{Extends};
ghost use Rattle.c_parse.specs.Pieces.{pieces};

use crate::cut::Cut;
use cm_core::{FileNo, List, Names, NoMemory, Place, Token, TokenKind};
use std::alloc::Global;
use std::test::Fail;

static ROWS: [&str; 40] = [
    "int x ; |",
    "; | ; |",
    "int a = 1 ; | int b ; |",
    "int f ( void ) ; |",
    "int f ( void ) { } | int x ; |",
    "int f ( void ) { int x = 1 ; { ; } return x ; } | int x ; |",
    "int ( * f ( int a ) ) ( int ) { } |",
    "struct s { int a ; } ; |",
    "struct s { int a ; } f ( void ) { } |",
    "enum e { a = 1 , b } f ( void ) { } |",
    "int a [ ] = { 1 , 2 } ; |",
    "int * p = ( int [ ] ) { 1 } ; |",
    "int a [ sizeof ( struct { int x ; } ) ] ; |",
    "_Static_assert ( 1 , \"m\" ) ; |",
    "f ( a = 1 ) { } |",
    "a [ ( ) { ; } ] ; |",
    "a == f ( ) { } |",
    "f ( ) { } | { } ; |",
    "f ( ) x { } ; |",
    "f ( a ) int a ; | { } ; |",
    // An open piece at the end.
    "int x",
    "int f ( void ) { ;",
    "int a [ = { } ;",
    // A closing bracket too many.
    "} int x ; |",
    ") ] } ; |",
    "f ( ) ) { } |",
    "f ( ) ] { } ; |",
    // A closing bracket of another kind.
    "a [ 1 ) ; |",
    "f ( a } ; |",
    "f [ a ) { } |",
    "f ( a ] { } ; |",
    "f ( ) { ) ; |",
    "f ( ) { ] } ; |",
    // Other spellings of brackets.
    "f ( ) <% a <: 1 :> ; %> | int x ; |",
    "f ( ) <% } |",
    "struct s <% int a ; %> ; |",
    "a <: ; :> ; |",
    // What is no punctuator.
    "s = \";\" ; |",
    "c = ';' f ( ';' ) ; |",
    "\"=\" f ( ) { } |",
];

#[test]
fn pieces_end_after_the_rule(rt: HostRuntime) -> Result<(), Fail> {
    for row in &ROWS {
        let marked = marked(rt.alloc(), row).or(Err("memory"))?;
        assert_eq!(rt; marked.as_str(), *row);
    }
    Ok(())
}

#[test]
fn pieces_of_a_list(rt: HostRuntime) -> Result<(), Fail> {
    let mut names = Names::new(rt.alloc());
    let x = token(&mut names, "x").or(Err("memory"))?;
    let end = token(&mut names, ";").or(Err("memory"))?;
    let parts = taken(rt.alloc(), &[x, end, x], &names).or(Err("memory"))?;
    assert_eq!(rt; parts.len(), 2);
    for (part, size) in parts.items().iter().zip([2, 1]) {
        assert_eq!(rt; part.len(), size);
    }
    Ok(())
}

/// The words of a row, each in its order with a mark where it ends a piece.
fn marked(alloc: Global, row: &str) -> Result<String, NoMemory> {
    let mut names = Names::new(alloc);
    let mut cut = Cut::new();
    let mut marked = String::new(alloc);
    for word in row.split(' ') {
        if word == "|" {
            continue;
        }
        if !marked.is_empty() {
            marked.push(' ')?;
        }
        marked.push_str(word)?;
        let token = token(&mut names, word)?;
        if cut.take(&token, &names) {
            marked.push_str(" |")?;
        }
    }
    Ok(marked)
}

fn token(names: &mut Names, word: &str) -> Result<Token, NoMemory>
    ensures numbered { IfOk result (λ token. token.name.index < length names.new) }
    ensures kept { Extends names.old names.new }
{
    let name = names.number(word)?;
    let place = Place {
        file: FileNo { index: 0 },
        line: 1,
        col: 1,
    };
    Ok(Token {
        kind: kind_of(word),
        name,
        place,
        spaced: true,
    })
}

/// The kind of the token that the word is.
fn kind_of(word: &str) -> TokenKind {
    match word.as_bytes() {
        [b'0'..=b'9', ..] => TokenKind::Number,
        [b'a'..=b'z' | b'_', ..] => TokenKind::Ident,
        [b'\'', ..] => TokenKind::CharConst,
        [b'"', ..] => TokenKind::Str,
        _ => TokenKind::Punct,
    }
}

/// The pieces of tokens, taken one after another.
fn taken(alloc: Global, tokens: &[Token], names: &Names) -> Result<List<List<Token>>, NoMemory>
    requires { All (λ t. t.name.index < length names.now) tokens.now }
    ensures { IfOk result (λ parts. parts ≡ pieces names.now tokens.now) }
{
    let mut cut = Cut::new();
    let mut parts = List::new(alloc);
    let mut part = List::new(alloc);
    for token in tokens {
        part.push(*token)?;
        if cut.take(token, names) {
            parts.push(part)?;
            part = List::new(alloc);
        }
    }
    if !part.is_empty() {
        parts.push(part)?;
    }
    Ok(parts)
}
