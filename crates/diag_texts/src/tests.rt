//! The expected lines are those of docs/FORMATS.md. In a row the letters of its open parts are the arguments.

use crate::render;
use cm_core::{Diag, Files, List, PathText, Place, Str};
use std::alloc::Global;
use std::test::Fail;

/// A number, its arguments, and what stands behind the place.
static ROWS: [(u32, &[&str], &str); 101] = [
    (1, &["P"], "E001 file 'P' is absent"),
    (
        2,
        &["P", "N"],
        "E002 file 'P' has N bytes, more than 16777216",
    ),
    (3, &["P", "N"], "E003 file 'P' is not UTF-8 at byte N"),
    (4, &[], "E004 not a line of this file's form"),
    (5, &[], "E005 not built yet"),
    (6, &[], "E006 more than 1024 units"),
    (10, &[], "E010 comment is not closed"),
    (11, &[], "E011 zero byte"),
    (12, &[], "E012 identifier is longer than 4096 bytes"),
    (20, &[], "E020 not a module map declaration"),
    (21, &[], "E021 nested deeper than 256"),
    (22, &["A"], "E022 module 'A' is declared twice"),
    (23, &["A"], "E023 no module 'A'"),
    (24, &[], "E024 'module *' without an umbrella"),
    (25, &["P"], "E025 folder 'P' has two umbrellas"),
    (26, &["P", "A"], "E026 header 'P' already belongs to 'A'"),
    (27, &[], "E027 more than 4096 submodules"),
    (28, &[], "E028 config_macros outside a top-level module"),
    (29, &["P"], "E029 path 'P' is not usable"),
    (30, &["x"], "E030 unknown directive 'x'"),
    (31, &["x"], "E031 malformed directive 'x'"),
    (32, &["x"], "E032 'x' without #if"),
    (33, &[], "E033 #if is not closed"),
    (34, &["TEXT"], "E034 #error TEXT"),
    (35, &[], "E035 bad condition"),
    (36, &["x"], "E036 header 'x' is not found"),
    (37, &[], "E037 headers nested deeper than 200"),
    (50, &["A"], "E050 no module 'A'"),
    (51, &["A"], "E051 module 'A' is not available"),
    (52, &["A"], "E052 module 'A' is cyclic"),
    (53, &["P", "A"], "E053 header 'P' is private to 'A'"),
    (54, &["A", "B"], "E054 module 'A' does not use 'B'"),
    (55, &[], "E055 import inside a declaration"),
    (
        1058,
        &["A", "B", "TEXT"],
        "W058 module 'A' conflicts with 'B': TEXT",
    ),
    (
        1059,
        &["x", "A"],
        "W059 configured macro 'x' is changed before the import of 'A'",
    ),
    (60, &["x", "R1", "R2"], "E060 'x' is ambiguous: R1 and R2"),
    (61, &["x"], "E061 macro 'x' is redefined"),
    (
        62,
        &["x"],
        "E062 macro 'x' has the wrong number of arguments",
    ),
    (63, &["x"], "E063 macro 'x' has no closing parenthesis"),
    (
        64,
        &["x", "y"],
        "E064 'x' and 'y' do not paste to one token",
    ),
    (65, &[], "E065 directive inside macro arguments"),
    (66, &["x"], "E066 'x' cannot be a macro name"),
    (67, &[], "E067 more than 1024 macro parameters"),
    (68, &[], "E068 more than 2000000 tokens"),
    (69, &[], "E069 macro arguments expanded deeper than 256"),
    (100, &[], "E100 not a declaration"),
    (101, &[], "E101 nested deeper than 256"),
    (102, &["x"], "E102 bad integer constant 'x'"),
    (103, &["x"], "E103 bad character constant 'x'"),
    (104, &["x"], "E104 bad escape in 'x'"),
    (110, &["x"], "E110 'x' is not declared"),
    (
        112,
        &["x", "R1", "R2"],
        "E112 conflicting declarations of 'x': R1 and R2",
    ),
    (113, &["x"], "E113 'x' is defined twice"),
    (114, &["x"], "E114 'x' is declared twice in this scope"),
    (115, &["x"], "E115 'x' is another kind of tag"),
    (116, &["x"], "E116 'x' has internal and external linkage"),
    (117, &[], "E117 incomplete type"),
    (120, &[], "E120 operands of [] do not fit"),
    (121, &[], "E121 called value is no function"),
    (122, &[], "E122 wrong number of arguments"),
    (123, &["N"], "E123 argument N does not fit its parameter"),
    (124, &[], "E124 no structure or union here"),
    (125, &["x"], "E125 no member 'x'"),
    (126, &[], "E126 operand of ++ or -- does not fit"),
    (127, &[], "E127 address cannot be taken"),
    (128, &[], "E128 operand of * is no pointer"),
    (129, &["x"], "E129 operand of unary 'x' does not fit"),
    (130, &[], "E130 sizeof does not apply"),
    (131, &[], "E131 cast does not apply"),
    (132, &["x"], "E132 operands of 'x' do not fit"),
    (139, &[], "E139 branches of ?: do not fit"),
    (140, &[], "E140 left side cannot be changed"),
    (141, &[], "E141 types do not fit in assignment"),
    (143, &[], "E143 integer constant expected"),
    (144, &["TEXT"], "E144 assertion failed: TEXT"),
    (145, &[], "E145 constant is out of range"),
    (150, &[], "E150 more than one storage class"),
    (151, &[], "E151 type specifiers do not fit together"),
    (152, &[], "E152 array length is not positive"),
    (153, &[], "E153 array of incomplete or function type"),
    (154, &[], "E154 function returns a function or an array"),
    (155, &[], "E155 enumerator does not fit int"),
    (156, &[], "E156 bit-field does not fit"),
    (158, &[], "E158 too many initialisers"),
    (159, &[], "E159 designator does not fit"),
    (160, &[], "E160 initialiser is not constant"),
    (161, &[], "E161 object cannot be initialised"),
    (162, &["x"], "E162 'x' outside its statement"),
    (163, &[], "E163 duplicate case"),
    (164, &[], "E164 return does not fit the function"),
    (165, &["x"], "E165 no label 'x'"),
    (166, &["x"], "E166 label 'x' twice"),
    (167, &[], "E167 controlling expression does not fit"),
    (168, &[], "E168 restrict does not apply"),
    (169, &[], "E169 function specifier on no function"),
    (170, &[], "E170 function definition does not fit"),
    (171, &[], "E171 auto or register at file scope"),
    (172, &[], "E172 void parameter among others"),
    (173, &[], "E173 floating operand"),
    (174, &[], "E174 type has more than 1024 parts"),
    (175, &[], "E175 object is too large"),
];

/// Numbers without a row, missing and further arguments, and arguments that look like a text's parts.
static OTHERS: [(u32, &[&str], &str); 17] = [
    (0, &[], "E000 "),
    (7, &["P"], "E007 "),
    (58, &["A", "B", "TEXT"], "E058 "),
    (999, &[], "E999 "),
    (1000, &[], "W000 "),
    (1001, &["P"], "W001 "),
    (1058, &[], "W058 module '' conflicts with '': "),
    (1058, &["A"], "W058 module 'A' conflicts with '': "),
    (1110, &["x"], "W110 "),
    (1999, &[], "W999 "),
    (2000, &[], "W1000 "),
    (4294967295, &[], "W4294966295 "),
    (1, &["P", "Q"], "E001 file 'P' is absent"),
    (5, &["P"], "E005 not built yet"),
    (
        64,
        &["'", "a'b'"],
        "E064 ''' and 'a'b'' do not paste to one token",
    ),
    (
        112,
        &["%", "%", "here#2"],
        "E112 conflicting declarations of '%': % and here#2",
    ),
    (34, &["\"a\\\"b\" ué"], "E034 #error \"a\\\"b\" ué"),
];

#[test]
fn lines(rt: HostRuntime) -> Result<(), Fail> {
    for (number, args, text) in ROWS.iter().chain(&OTHERS) {
        assert!(rt; is_printed(rt.alloc(), *number, args, text)?, "{text}");
    }
    Ok(())
}

/// Whether the diagnostic at line 3, column 14 of `u.c` has this text, behind what stood there.
fn is_printed(alloc: Global, number: u32, args: &[&str], text: &str) -> Result<bool, Fail> {
    let mut files = Files::new(alloc);
    files.number(&PathText::read(alloc, "a.h")?)?;
    let file = files.number(&PathText::read(alloc, "u.c")?)?;
    let place = Place {
        file,
        line: 3,
        col: 14,
    };
    let args = list_of(alloc, args)?;
    let diag = Diag {
        number,
        place,
        args,
    };
    let mut out = Vec::from_slice(alloc, b"unit u.c\n")?;
    render(&diag, &files, &mut out)?;
    let word = if text.starts_with('E') {
        "error"
    } else {
        "warning"
    };
    let expected = format!(in alloc; "unit u.c\n{word} u.c:3:14 {text}\n")?;
    Ok(out.as_slice() == expected.as_bytes())
}

fn list_of(alloc: Global, texts: &[&str]) -> Result<List<Str>, Fail> {
    let mut list = List::new(alloc);
    for text in texts {
        list.push(Str::read(alloc, text)?)?;
    }
    Ok(list)
}
