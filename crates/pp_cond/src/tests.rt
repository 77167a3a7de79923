//! Conditions as `#if` lines. What each is was computed with clang 14; `Bad` are those that it refuses, or
//! where it warns that an operation overflows. By the standard are bad too: a left shift of a negative
//! number (C11 6.5.7p4) and `%` where the quotient overflows (6.5.5p6). By a choice of this project: a
//! character constant of two characters, and a `defined` that is left over.

use crate::conditions::{CondFault, condition, judge};
use crate::symbol::Symbol;
use crate::tokens::symbol_of;
use cm_core::{FileNo, Names, Place, Token, TokenKind};
use std::alloc::{AllocError, Global};
use std::test::Fail;

static TRUE: [&str; 34] = [
    "- 1 > 0u",
    "1 || 1 / 0",
    "1 ? 2 : 3 / 0",
    "'\\377' < 0",
    "'\\x80' == - 128",
    "'a' == 97",
    "'\\n' == 10",
    "'\\'' == 39",
    "int == 0",
    "0 ? 1 , 2 : 3",
    "1 + 2 * 3 == 7",
    "1 << 2 + 1 == 8",
    "- - 1 == 1",
    "! ! 5 == 1",
    "~ 0 == - 1",
    "~ 0u == 18446744073709551615u",
    "1 | 2 ^ 3 & 4",
    "1 || 0 && 0",
    "( 1 ? - 1 : 0u ) > 0",
    "( 0 ? 1u : - 1 ) > 0",
    "07 == 7",
    "0xFf == 255",
    "1ul + 1LLU",
    "0x80000000 - 0x80000001 < 0",
    "0x8000000000000000 > 0",
    "- 9223372036854775807 - 1 < 0",
    "1 << 62",
    "1u << 63",
    "- 1 >> 1 == - 1",
    "- 5 / 2 == - 2",
    "- 5 % 2 == - 1",
    "3 >= 3 && 2 <= 3 && 2 != 3",
    "7 >> 1 == 3",
    "( ( 2 ) )",
];

static FALSE: [&str; 10] = [
    "0 && 1 / 0",
    "0 ? 3 / 0 : 0",
    "name",
    "0 && ( 1 , 2 )",
    "2 - 1 - 1",
    "3 > 2 > 1",
    "6 & 3 == 2",
    "1 ? 0 : 1 ? 1 : 1",
    "1 ? 1 ? 0 : 1 : 1",
    "18446744073709551615u + 1",
];

static BAD: [&str; 35] = [
    "1 / 0",
    "1 && 1 / 0",
    "",
    "(",
    "1 2",
    "( 1 ) )",
    "'ab'",
    "'\\400'",
    "''",
    "( 1 , 2 )",
    "1 , 2",
    "1 ? 1 , 2 : 3",
    "1 ? 2",
    "1 : 2",
    "1 = 1",
    "08",
    "0x",
    "1lL",
    "1.0",
    "9223372036854775807 + 1",
    "9223372036854775808",
    "18446744073709551616u",
    "340282366920938463463374607431768211457",
    "( - 9223372036854775807 - 1 ) / - 1",
    "( - 9223372036854775807 - 1 ) % - 1",
    "5 % 0",
    "1 << 63",
    "1 << 64",
    "1 << - 1",
    "- 1 << 1",
    "defined",
    "defined name",
    "1 +",
    "\"a\"",
    "! ,",
];

#[test]
fn conditions_as_a_compiler_has_them(rt: HostRuntime) -> Result<(), Fail> {
    for text in &TRUE {
        let symbols = symbols_in(rt.alloc(), text, 1)?;
        assert_eq!(rt; judge(&symbols), Some(true), "{text}");
    }
    for text in &FALSE {
        let symbols = symbols_in(rt.alloc(), text, 1)?;
        assert_eq!(rt; judge(&symbols), Some(false), "{text}");
    }
    for text in &BAD {
        let symbols = symbols_in(rt.alloc(), text, 1)?;
        assert_eq!(rt; judge(&symbols), None, "{text}");
    }
    Ok(())
}

#[test]
fn nesting_to_the_limit(rt: HostRuntime) -> Result<(), Fail> {
    for (before, after, deep) in [
        ("(", ")", true),
        ("1 ?", ": 1", true),
        ("1 ? 1 :", "", false),
    ] {
        for (times, is_within) in [(256u32, true), (257, !deep)] {
            let mut symbols = symbols_in(rt.alloc(), before, times)?;
            symbols.push(symbol_of(TokenKind::Number, "1"))?;
            for symbol in symbols_in(rt.alloc(), after, times)? {
                symbols.push(symbol)?;
            }
            assert_eq!(rt; judge(&symbols).is_some(), is_within, "{before} {times}");
        }
    }
    Ok(())
}

#[test]
fn a_condition_of_tokens(rt: HostRuntime) -> Result<(), Fail> {
    let mut names = Names::new(rt.alloc());
    let name = names.number("7").or(Err("memory"))?;
    let place = Place {
        file: FileNo { index: 0 },
        line: 1,
        col: 5,
    };
    let token = Token {
        kind: TokenKind::Number,
        name,
        place,
        spaced: true,
    };
    assert_eq!(rt; condition(rt.alloc(), &[token], &names), Ok(true));
    assert_eq!(rt; condition(rt.alloc(), &[], &names), Err(CondFault::Bad));
    Ok(())
}

/// The symbols of the words of a text, so many times over.
fn symbols_in(alloc: Global, text: &str, times: u32) -> Result<Vec<Symbol>, AllocError> {
    let mut symbols = Vec::new(alloc);
    for _ in 0..times {
        for word in text.split_whitespace() {
            symbols.push(symbol_of(kind_of(word), word))?;
        }
    }
    Ok(symbols)
}

/// The kind of the token that the word is.
fn kind_of(word: &str) -> TokenKind {
    match word.as_bytes() {
        [b'0'..=b'9', ..] => TokenKind::Number,
        [b'a'..=b'z', ..] => TokenKind::Ident,
        [b'\'', ..] => TokenKind::CharConst,
        [b'"', ..] => TokenKind::Str,
        _ => TokenKind::Punct,
    }
}
