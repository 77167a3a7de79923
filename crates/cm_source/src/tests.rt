use crate::{Text, TextFault};
use std::test::Fail;

/// A file, its text, and places of bytes of the text: the number of the byte, line and column.
type Case = (&'static [u8], &'static [u8], &'static [(usize, (u32, u32))]);

const CASES: &[Case] = &[
    (b"", b"", &[(0, (1, 1)), (9, (1, 1))]),
    (b"a", b"a\n", &[(0, (1, 1)), (1, (1, 2)), (2, (1, 2))]),
    (
        b"a\nb\n",
        b"a\nb\n",
        &[(1, (1, 2)), (2, (2, 1)), (4, (3, 1))],
    ),
    // every trigraph, and what is none
    (
        b"??=??(??/??)??'??<??!??>??-",
        b"#[\\]^{|}~\n",
        &[(1, (1, 4)), (8, (1, 25)), (9, (1, 28))],
    ),
    (
        b"???=??,?? =",
        b"?#??,?? =\n",
        &[(0, (1, 1)), (1, (1, 2)), (2, (1, 5))],
    ),
    // splices, by a backslash and by its trigraph
    (b"x\\\ny", b"xy\n", &[(0, (1, 1)), (1, (2, 1)), (2, (2, 2))]),
    (
        b"x??/\ny;",
        b"xy;\n",
        &[(1, (2, 1)), (2, (2, 2)), (3, (2, 3))],
    ),
    (
        b"\\\\\n\nz",
        b"\\\nz\n",
        &[(0, (1, 1)), (1, (2, 1)), (2, (3, 1))],
    ),
    (b"?\\\n?=", b"??=\n", &[(1, (2, 1))]),
    (b"a\\\n", b"a\n", &[(1, (2, 1))]),
    (b"\\\n", b"", &[(0, (2, 1))]),
    (b"a\\", b"a\\\n", &[(1, (1, 2)), (2, (1, 3))]),
    // carriage returns
    (b"a\r\nb", b"a\nb\n", &[(1, (1, 3)), (2, (2, 1))]),
    (
        b"a\r\r\n\rb\r",
        b"a\r\n\rb\r\n",
        &[(2, (1, 4)), (3, (2, 1)), (6, (2, 4))],
    ),
    (b"a\\\r\nb", b"ab\n", &[(1, (2, 1))]),
    (b"a\\\r\r\n", b"a\\\r\n", &[(3, (1, 5))]),
    // a tab is a column, and so is each byte of a letter
    (
        b"\tx\xc3\xa9y",
        b"\tx\xc3\xa9y\n",
        &[(1, (1, 2)), (4, (1, 5))],
    ),
];

#[test]
fn reads_files(rt: HostRuntime) -> Result<(), Fail> {
    for (file, bytes, places) in CASES.iter().copied() {
        let text = Text::read(rt.alloc(), file)?;
        assert_eq!(rt; text.bytes(), bytes);
        assert_eq!(rt; text.as_str().as_bytes(), bytes);
        for (at, place) in places.iter().copied() {
            assert_eq!(rt; text.place(at), place, "byte {at}");
        }
    }
    Ok(())
}

/// How many bytes at the front of a file are UTF-8.
const BROKEN: &[(&[u8], u64)] = &[
    (b"\xff", 0),
    (b"ab\xc3", 2),
    (b"ab\xc3\n", 2),
    (b"\xc3\xa9\xed\xa0\x80", 2),
    (b"??=\xc0\x80", 3),
];

#[test]
fn refuses_what_is_not_utf8(rt: HostRuntime) {
    for (file, valid) in BROKEN.iter().copied() {
        let fault = Text::read(rt.alloc(), file).err();
        assert_eq!(rt; fault, Some(TextFault::NotUtf8(valid)));
    }
}
