use crate::{LexFault, Lexer, kind_of};
use cm_core::{FileNo, Names, Place, Token, TokenKind as Kind};
use cm_source::Text;
use std::test::Fail;

const FILE: FileNo = FileNo { index: 3 };

/// A token by kind, spelling, line and column, and whether it is spaced.
type Spelled = (Kind, &'static str, u32, u32, bool);

const TOKENS: &[(&[u8], &[Spelled])] = &[
    (b"", &[]),
    // a trigraph that joins two lines in a name, behind a comment over two lines
    (
        b"int /* a\nb */ x??/\ny;",
        &[
            (Kind::Ident, "int", 1, 1, false),
            (Kind::Ident, "xy", 2, 6, true),
            (Kind::Punct, ";", 3, 2, false),
            (Kind::LineEnd, "\n", 3, 3, false),
        ],
    ),
    // splices within tokens, and at the end of the file
    (
        b"1e\\\n+5 '\\\n\\\n\\'' \"\\\n\" +\\\n+/\\\n/c\n_\\\n",
        &[
            (Kind::Number, "1e+5", 1, 1, false),
            (Kind::CharConst, "'\\''", 2, 4, true),
            (Kind::Str, "\"\"", 4, 5, true),
            (Kind::Punct, "++", 5, 3, true),
            (Kind::LineEnd, "\n", 7, 3, true),
            (Kind::Ident, "_", 8, 1, true),
            (Kind::LineEnd, "\n", 9, 1, false),
        ],
    ),
    // the longest punctuators
    (
        b"%:%:%:%....->--><<=>>>=<:<::>",
        &[
            (Kind::Punct, "%:%:", 1, 1, false),
            (Kind::Punct, "%:", 1, 5, false),
            (Kind::Punct, "%", 1, 7, false),
            (Kind::Punct, "...", 1, 8, false),
            (Kind::Punct, ".", 1, 11, false),
            (Kind::Punct, "->", 1, 12, false),
            (Kind::Punct, "--", 1, 14, false),
            (Kind::Punct, ">", 1, 16, false),
            (Kind::Punct, "<<=", 1, 17, false),
            (Kind::Punct, ">>", 1, 20, false),
            (Kind::Punct, ">=", 1, 22, false),
            (Kind::Punct, "<:", 1, 24, false),
            (Kind::Punct, "<:", 1, 26, false),
            (Kind::Punct, ":>", 1, 28, false),
            (Kind::LineEnd, "\n", 1, 30, false),
        ],
    ),
    // preprocessing numbers with signs and points
    (
        b"..5 0x1p-3+1 1.2.e.+ .x 1_a-b",
        &[
            (Kind::Punct, ".", 1, 1, false),
            (Kind::Number, ".5", 1, 2, false),
            (Kind::Number, "0x1p-3", 1, 5, true),
            (Kind::Punct, "+", 1, 11, false),
            (Kind::Number, "1", 1, 12, false),
            (Kind::Number, "1.2.e.", 1, 14, true),
            (Kind::Punct, "+", 1, 20, false),
            (Kind::Punct, ".", 1, 22, true),
            (Kind::Ident, "x", 1, 23, false),
            (Kind::Number, "1_a", 1, 25, true),
            (Kind::Punct, "-", 1, 28, false),
            (Kind::Ident, "b", 1, 29, false),
            (Kind::LineEnd, "\n", 1, 30, false),
        ],
    ),
    // quotes without a partner in the line, and what begins no token
    (
        b"'a\n\"b\\\"\n'' \\ @\xc3\xa9\r$",
        &[
            (Kind::Other, "'", 1, 1, false),
            (Kind::Ident, "a", 1, 2, false),
            (Kind::LineEnd, "\n", 1, 3, false),
            (Kind::Other, "\"", 2, 1, true),
            (Kind::Ident, "b", 2, 2, false),
            (Kind::Other, "\\", 2, 3, false),
            (Kind::Other, "\"", 2, 4, false),
            (Kind::LineEnd, "\n", 2, 5, false),
            (Kind::CharConst, "''", 3, 1, true),
            (Kind::Other, "\\", 3, 4, true),
            (Kind::Other, "@", 3, 6, true),
            (Kind::Other, "\u{e9}", 3, 7, false),
            (Kind::Other, "\r", 3, 9, false),
            (Kind::Other, "$", 3, 10, false),
            (Kind::LineEnd, "\n", 3, 11, false),
        ],
    ),
    // comments and other white space
    (
        b"a/**/b//c\n\t/*/ */\x0b\x0cd /***/",
        &[
            (Kind::Ident, "a", 1, 1, false),
            (Kind::Ident, "b", 1, 6, true),
            (Kind::LineEnd, "\n", 1, 10, true),
            (Kind::Ident, "d", 2, 10, true),
            (Kind::LineEnd, "\n", 2, 17, true),
        ],
    ),
    // tokens after line ends
    (
        b"\n\n#",
        &[
            (Kind::LineEnd, "\n", 1, 1, false),
            (Kind::LineEnd, "\n", 2, 1, true),
            (Kind::Punct, "#", 3, 1, true),
            (Kind::LineEnd, "\n", 3, 2, false),
        ],
    ),
];

#[test]
fn gives_the_tokens(rt: HostRuntime) -> Result<(), Fail> {
    for (file, tokens) in TOKENS.iter().copied() {
        let text = Text::read(rt.alloc(), file)?;
        let mut names = Names::new(rt.alloc());
        let mut lexer = Lexer::new(&text, FILE);
        for (kind, spelling, line, col, spaced) in tokens.iter().copied() {
            let given = lexer.next(&mut names)?;
            let name = names.number(spelling)?;
            let place = Place {
                file: FILE,
                line,
                col,
            };
            assert_eq!(rt;
                given,
                Some(Token {
                    kind,
                    name,
                    place,
                    spaced
                }),
                "{spelling}"
            );
        }
        assert_eq!(rt; lexer.next(&mut names)?, None);
    }
    Ok(())
}

const fn at(line: u32, col: u32) -> Place {
    Place {
        file: FILE,
        line,
        col,
    }
}

#[test]
fn gives_the_faults(rt: HostRuntime) -> Result<(), Fail> {
    let faults: [(&[u8], LexFault); 7] = [
        (b"/*", LexFault::Unclosed(at(1, 1))),
        (b"\n /*/ \0 *\n", LexFault::Unclosed(at(2, 2))),
        (b" \0", LexFault::BadByte(at(1, 2))),
        (b"/* \0 */", LexFault::BadByte(at(1, 4))),
        (b"//\n// a\0", LexFault::BadByte(at(2, 5))),
        (b"\"ab\0\"", LexFault::BadByte(at(1, 4))),
        (b"'\0", LexFault::BadByte(at(1, 2))),
    ];
    for (file, fault) in faults {
        let text = Text::read(rt.alloc(), file)?;
        let mut names = Names::new(rt.alloc());
        let mut lexer = Lexer::new(&text, FILE);
        let mut first = lexer.next(&mut names);
        for _ in 0..3 {
            if first.is_ok() {
                first = lexer.next(&mut names);
            }
        }
        assert_eq!(rt; first.err(), Some(fault));
        assert_eq!(rt; lexer.next(&mut names)?, None);
    }
    Ok(())
}

#[test]
fn limits_names(rt: HostRuntime) -> Result<(), Fail> {
    for (length, kind) in [(4096, Some(Kind::Ident)), (4097, None)] {
        let mut name = String::new(rt.alloc());
        for _ in 0..length {
            name.push('n')?;
        }
        assert_eq!(rt; kind_of(name.as_str()), kind);
        let text = Text::read(rt.alloc(), name.as_bytes())?;
        let fault = Lexer::new(&text, FILE)
            .next(&mut Names::new(rt.alloc()))
            .err();
        assert_eq!(rt; fault.is_none(), kind.is_some());
        assert!(rt; fault.is_none() || fault == Some(LexFault::LongName(at(1, 1))));
    }
    Ok(())
}

/// A line, the spelling of its second token read as a header name, and that token's kind.
const HEADERS: [(&[u8], &str, Kind); 6] = [
    (b"include <a/b.h> c>", "<a/b.h>", Kind::HeaderName),
    (b"include\"a\\\" \"", "\"a\\\"", Kind::HeaderName),
    (b"include < a", "<", Kind::Punct),
    (b"include <> a>", "<", Kind::Punct),
    (b"include \"\"", "\"\"", Kind::Str),
    (b"include name", "name", Kind::Ident),
];

#[test]
fn reads_header_names(rt: HostRuntime) -> Result<(), Fail> {
    for (line, spelling, kind) in HEADERS {
        let text = Text::read(rt.alloc(), line)?;
        let mut names = Names::new(rt.alloc());
        let mut lexer = Lexer::new(&text, FILE);
        assert!(rt; lexer.next(&mut names)?.is_some());
        let name = names.number(spelling)?;
        let given = lexer.next_header(&mut names)?;
        assert_eq!(rt;
            given.map(|token| (token.kind, token.name)),
            Some((kind, name))
        );
    }
    Ok(())
}

#[test]
fn resumes(rt: HostRuntime) -> Result<(), Fail> {
    let text = Text::read(rt.alloc(), b"include <b> c")?;
    let mut names = Names::new(rt.alloc());
    let mut lexer = Lexer::new(&text, FILE);
    lexer.next(&mut names)?;
    let at = lexer.at();
    let mut resumed = Lexer::resume(&text, FILE, at);
    let given = lexer.next_header(&mut names)?;
    assert_eq!(rt; resumed.next_header(&mut names)?, given);
    assert_eq!(rt; resumed.at(), lexer.at());
    Ok(())
}

#[test]
fn tells_kinds(rt: HostRuntime) {
    let kinds = [
        ("", None),
        ("a1", Some(Kind::Ident)),
        (".1e+", Some(Kind::Number)),
        ("1+", None),
        ("'a'", Some(Kind::CharConst)),
        ("\"\"", Some(Kind::Str)),
        ("%:%:", Some(Kind::Punct)),
        ("..", None),
        ("<a>", None),
        ("#", Some(Kind::Punct)),
        ("\u{e9}", Some(Kind::Other)),
        ("\n", Some(Kind::LineEnd)),
        (" ", None),
        ("/**/", None),
        ("a ", None),
    ];
    for (text, kind) in kinds {
        assert_eq!(rt; kind_of(text), kind, "{text:?}");
    }
}
