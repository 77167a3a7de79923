//! Tables over the limits of the types. All were computed with clang 14 and gcc 12 on x86-64 Linux: a
//! `NONE` is an operation that clang's undefined behavior sanitizer reports, or a constant that clang
//! finds too large for its types.

use crate::{
    Value, apply, apply_unary, constant_type, convert, holds, is_signed, promote, usual, width,
};
use cm_core::IntKind::{
    Bool, Char, Int, LLong, Long, SChar, Short, UChar, UInt, ULLong, ULong, UShort,
};
use cm_core::{BinOp, IntKind, UnOp};

type Pair = (IntKind, i128);

/// Stands for no value: no value of `_Bool` is 2.
const NONE: Pair = (Bool, 2);

static PAIRS: [(Pair, Pair); 16] = [
    ((Bool, 1), (Bool, 1)),
    ((SChar, -128), (SChar, -128)),
    ((UShort, 65535), (UShort, 65535)),
    ((Int, -2_147_483_648), (Int, -1)),
    ((Int, 2_147_483_647), (Int, 1)),
    ((Int, -2_147_483_648), (Int, 31)),
    ((UInt, 4_294_967_295), (UInt, 4_294_967_295)),
    ((UInt, 1), (UInt, 31)),
    ((UInt, 0), (Int, -1)),
    ((Long, -9_223_372_036_854_775_808), (Long, -1)),
    ((Long, 9_223_372_036_854_775_807), (Int, 0)),
    ((Long, -7), (UInt, 2)),
    ((Long, 1), (Int, 63)),
    (
        (ULong, 18_446_744_073_709_551_615),
        (ULong, 18_446_744_073_709_551_615),
    ),
    ((ULong, 18_446_744_073_709_551_615), (Int, 63)),
    ((LLong, -9_223_372_036_854_775_808), (ULong, 64)),
];

static OPERATORS: [BinOp; 16] = [
    BinOp::Mul,
    BinOp::Div,
    BinOp::Rem,
    BinOp::Add,
    BinOp::Sub,
    BinOp::Shl,
    BinOp::Shr,
    BinOp::Lt,
    BinOp::Gt,
    BinOp::Le,
    BinOp::Ge,
    BinOp::Eq,
    BinOp::Ne,
    BinOp::And,
    BinOp::Xor,
    BinOp::Or,
];

/// A row for each operator, with a result for each pair.
static RESULTS: [[Pair; 16]; 16] = [
    [
        (Int, 1),
        (Int, 16384),
        NONE,
        NONE,
        (Int, 2_147_483_647),
        NONE,
        (UInt, 1),
        (UInt, 31),
        (UInt, 0),
        NONE,
        (Long, 0),
        (Long, -14),
        (Long, 63),
        (ULong, 1),
        (ULong, 18_446_744_073_709_551_553),
        (ULLong, 0),
    ],
    [
        (Int, 1),
        (Int, 1),
        (Int, 1),
        NONE,
        (Int, 2_147_483_647),
        (Int, -69_273_666),
        (UInt, 1),
        (UInt, 0),
        (UInt, 0),
        NONE,
        NONE,
        (Long, -3),
        (Long, 0),
        (ULong, 1),
        (ULong, 292_805_461_487_453_200),
        (ULLong, 144_115_188_075_855_872),
    ],
    [
        (Int, 0),
        (Int, 0),
        (Int, 0),
        NONE,
        (Int, 0),
        (Int, -2),
        (UInt, 0),
        (UInt, 1),
        (UInt, 0),
        NONE,
        NONE,
        (Long, -1),
        (Long, 1),
        (ULong, 0),
        (ULong, 15),
        (ULLong, 0),
    ],
    [
        (Int, 2),
        (Int, -256),
        (Int, 131070),
        NONE,
        NONE,
        (Int, -2_147_483_617),
        (UInt, 4_294_967_294),
        (UInt, 32),
        (UInt, 4_294_967_295),
        NONE,
        (Long, 9_223_372_036_854_775_807),
        (Long, -5),
        (Long, 64),
        (ULong, 18_446_744_073_709_551_614),
        (ULong, 62),
        (ULLong, 9_223_372_036_854_775_872),
    ],
    [
        (Int, 0),
        (Int, 0),
        (Int, 0),
        (Int, -2_147_483_647),
        (Int, 2_147_483_646),
        NONE,
        (UInt, 0),
        (UInt, 4_294_967_266),
        (UInt, 1),
        (Long, -9_223_372_036_854_775_807),
        (Long, 9_223_372_036_854_775_807),
        (Long, -9),
        (Long, -62),
        (ULong, 0),
        (ULong, 18_446_744_073_709_551_552),
        (ULLong, 9_223_372_036_854_775_744),
    ],
    [
        (Int, 2),
        NONE,
        NONE,
        NONE,
        NONE,
        NONE,
        NONE,
        (UInt, 2_147_483_648),
        NONE,
        NONE,
        (Long, 9_223_372_036_854_775_807),
        NONE,
        NONE,
        NONE,
        (ULong, 9_223_372_036_854_775_808),
        NONE,
    ],
    [
        (Int, 0),
        NONE,
        NONE,
        NONE,
        (Int, 1_073_741_823),
        (Int, -1),
        NONE,
        (UInt, 0),
        NONE,
        NONE,
        (Long, 9_223_372_036_854_775_807),
        (Long, -2),
        (Long, 0),
        NONE,
        (ULong, 1),
        NONE,
    ],
    [
        (Int, 0),
        (Int, 0),
        (Int, 0),
        (Int, 1),
        (Int, 0),
        (Int, 1),
        (Int, 0),
        (Int, 1),
        (Int, 1),
        (Int, 1),
        (Int, 0),
        (Int, 1),
        (Int, 1),
        (Int, 0),
        (Int, 0),
        (Int, 0),
    ],
    [
        (Int, 0),
        (Int, 0),
        (Int, 0),
        (Int, 0),
        (Int, 1),
        (Int, 0),
        (Int, 0),
        (Int, 0),
        (Int, 0),
        (Int, 0),
        (Int, 1),
        (Int, 0),
        (Int, 0),
        (Int, 0),
        (Int, 1),
        (Int, 1),
    ],
    [
        (Int, 1),
        (Int, 1),
        (Int, 1),
        (Int, 1),
        (Int, 0),
        (Int, 1),
        (Int, 1),
        (Int, 1),
        (Int, 1),
        (Int, 1),
        (Int, 0),
        (Int, 1),
        (Int, 1),
        (Int, 1),
        (Int, 0),
        (Int, 0),
    ],
    [
        (Int, 1),
        (Int, 1),
        (Int, 1),
        (Int, 0),
        (Int, 1),
        (Int, 0),
        (Int, 1),
        (Int, 0),
        (Int, 0),
        (Int, 0),
        (Int, 1),
        (Int, 0),
        (Int, 0),
        (Int, 1),
        (Int, 1),
        (Int, 1),
    ],
    [
        (Int, 1),
        (Int, 1),
        (Int, 1),
        (Int, 0),
        (Int, 0),
        (Int, 0),
        (Int, 1),
        (Int, 0),
        (Int, 0),
        (Int, 0),
        (Int, 0),
        (Int, 0),
        (Int, 0),
        (Int, 1),
        (Int, 0),
        (Int, 0),
    ],
    [
        (Int, 0),
        (Int, 0),
        (Int, 0),
        (Int, 1),
        (Int, 1),
        (Int, 1),
        (Int, 0),
        (Int, 1),
        (Int, 1),
        (Int, 1),
        (Int, 1),
        (Int, 1),
        (Int, 1),
        (Int, 0),
        (Int, 1),
        (Int, 1),
    ],
    [
        (Int, 1),
        (Int, -128),
        (Int, 65535),
        (Int, -2_147_483_648),
        (Int, 1),
        (Int, 0),
        (UInt, 4_294_967_295),
        (UInt, 1),
        (UInt, 0),
        (Long, -9_223_372_036_854_775_808),
        (Long, 0),
        (Long, 0),
        (Long, 1),
        (ULong, 18_446_744_073_709_551_615),
        (ULong, 63),
        (ULLong, 0),
    ],
    [
        (Int, 0),
        (Int, 0),
        (Int, 0),
        (Int, 2_147_483_647),
        (Int, 2_147_483_646),
        (Int, -2_147_483_617),
        (UInt, 0),
        (UInt, 30),
        (UInt, 4_294_967_295),
        (Long, 9_223_372_036_854_775_807),
        (Long, 9_223_372_036_854_775_807),
        (Long, -5),
        (Long, 62),
        (ULong, 0),
        (ULong, 18_446_744_073_709_551_552),
        (ULLong, 9_223_372_036_854_775_872),
    ],
    [
        (Int, 1),
        (Int, -128),
        (Int, 65535),
        (Int, -1),
        (Int, 2_147_483_647),
        (Int, -2_147_483_617),
        (UInt, 4_294_967_295),
        (UInt, 31),
        (UInt, 4_294_967_295),
        (Long, -1),
        (Long, 9_223_372_036_854_775_807),
        (Long, -5),
        (Long, 63),
        (ULong, 18_446_744_073_709_551_615),
        (ULong, 18_446_744_073_709_551_615),
        (ULLong, 9_223_372_036_854_775_872),
    ],
];

static OPERANDS: [Pair; 9] = [
    (Bool, 1),
    (SChar, -128),
    (UShort, 65535),
    (Int, -2_147_483_648),
    (Int, 0),
    (UInt, 1),
    (Long, -9_223_372_036_854_775_808),
    (Long, 9_223_372_036_854_775_807),
    (ULong, 18_446_744_073_709_551_615),
];

static UNARY_OPERATORS: [UnOp; 4] = [UnOp::Plus, UnOp::Minus, UnOp::Flip, UnOp::Not];

/// A row for each operator, with a result for each operand.
static UNARY: [[Pair; 9]; 4] = [
    [
        (Int, 1),
        (Int, -128),
        (Int, 65535),
        (Int, -2_147_483_648),
        (Int, 0),
        (UInt, 1),
        (Long, -9_223_372_036_854_775_808),
        (Long, 9_223_372_036_854_775_807),
        (ULong, 18_446_744_073_709_551_615),
    ],
    [
        (Int, -1),
        (Int, 128),
        (Int, -65535),
        NONE,
        (Int, 0),
        (UInt, 4_294_967_295),
        NONE,
        (Long, -9_223_372_036_854_775_807),
        (ULong, 1),
    ],
    [
        (Int, -2),
        (Int, 127),
        (Int, -65536),
        (Int, 2_147_483_647),
        (Int, -1),
        (UInt, 4_294_967_294),
        (Long, 9_223_372_036_854_775_807),
        (Long, -9_223_372_036_854_775_808),
        (ULong, 0),
    ],
    [
        (Int, 0),
        (Int, 0),
        (Int, 0),
        (Int, 0),
        (Int, 1),
        (Int, 0),
        (Int, 0),
        (Int, 0),
        (Int, 0),
    ],
];

static KINDS: [IntKind; 12] = [
    Bool, Char, SChar, UChar, Short, UShort, Int, UInt, Long, ULong, LLong, ULLong,
];

static USUAL: [[IntKind; 12]; 12] = [
    [
        Int, Int, Int, Int, Int, Int, Int, UInt, Long, ULong, LLong, ULLong,
    ],
    [
        Int, Int, Int, Int, Int, Int, Int, UInt, Long, ULong, LLong, ULLong,
    ],
    [
        Int, Int, Int, Int, Int, Int, Int, UInt, Long, ULong, LLong, ULLong,
    ],
    [
        Int, Int, Int, Int, Int, Int, Int, UInt, Long, ULong, LLong, ULLong,
    ],
    [
        Int, Int, Int, Int, Int, Int, Int, UInt, Long, ULong, LLong, ULLong,
    ],
    [
        Int, Int, Int, Int, Int, Int, Int, UInt, Long, ULong, LLong, ULLong,
    ],
    [
        Int, Int, Int, Int, Int, Int, Int, UInt, Long, ULong, LLong, ULLong,
    ],
    [
        UInt, UInt, UInt, UInt, UInt, UInt, UInt, UInt, Long, ULong, LLong, ULLong,
    ],
    [
        Long, Long, Long, Long, Long, Long, Long, Long, Long, ULong, LLong, ULLong,
    ],
    [
        ULong, ULong, ULong, ULong, ULong, ULong, ULong, ULong, ULong, ULong, ULLong, ULLong,
    ],
    [
        LLong, LLong, LLong, LLong, LLong, LLong, LLong, LLong, LLong, ULLong, LLong, ULLong,
    ],
    [
        ULLong, ULLong, ULLong, ULLong, ULLong, ULLong, ULLong, ULLong, ULLong, ULLong, ULLong,
        ULLong,
    ],
];

static NUMBERS: [u128; 8] = [
    2_147_483_647,
    2_147_483_648,
    4_294_967_295,
    4_294_967_296,
    9_223_372_036_854_775_807,
    9_223_372_036_854_775_808,
    18_446_744_073_709_551_615,
    18_446_744_073_709_551_616,
];

/// Base, suffix with a `u`, number of `l` in the suffix.
static FORMS: [(u8, bool, u8); 18] = [
    (10, false, 0),
    (10, true, 0),
    (10, false, 1),
    (10, true, 1),
    (10, false, 2),
    (10, true, 2),
    (8, false, 0),
    (8, true, 0),
    (8, false, 1),
    (8, true, 1),
    (8, false, 2),
    (8, true, 2),
    (16, false, 0),
    (16, true, 0),
    (16, false, 1),
    (16, true, 1),
    (16, false, 2),
    (16, true, 2),
];

/// A row for each form, with the type of each number; `Bool` stands for no type.
static CONSTANTS: [[IntKind; 8]; 18] = [
    [Int, Long, Long, Long, Long, Bool, Bool, Bool],
    [UInt, UInt, UInt, ULong, ULong, ULong, ULong, Bool],
    [Long, Long, Long, Long, Long, Bool, Bool, Bool],
    [ULong, ULong, ULong, ULong, ULong, ULong, ULong, Bool],
    [LLong, LLong, LLong, LLong, LLong, Bool, Bool, Bool],
    [ULLong, ULLong, ULLong, ULLong, ULLong, ULLong, ULLong, Bool],
    [Int, UInt, UInt, Long, Long, ULong, ULong, Bool],
    [UInt, UInt, UInt, ULong, ULong, ULong, ULong, Bool],
    [Long, Long, Long, Long, Long, ULong, ULong, Bool],
    [ULong, ULong, ULong, ULong, ULong, ULong, ULong, Bool],
    [LLong, LLong, LLong, LLong, LLong, ULLong, ULLong, Bool],
    [ULLong, ULLong, ULLong, ULLong, ULLong, ULLong, ULLong, Bool],
    [Int, UInt, UInt, Long, Long, ULong, ULong, Bool],
    [UInt, UInt, UInt, ULong, ULong, ULong, ULong, Bool],
    [Long, Long, Long, Long, Long, ULong, ULong, Bool],
    [ULong, ULong, ULong, ULong, ULong, ULong, ULong, Bool],
    [LLong, LLong, LLong, LLong, LLong, ULLong, ULLong, Bool],
    [ULLong, ULLong, ULLong, ULLong, ULLong, ULLong, ULLong, Bool],
];

static TARGETS: [IntKind; 7] = [Bool, SChar, UChar, Short, UInt, Long, ULLong];

static CONVERTED: [(Pair, [i128; 7]); 7] = [
    (
        (Int, -1),
        [
            1,
            -1,
            255,
            -1,
            4_294_967_295,
            -1,
            18_446_744_073_709_551_615,
        ],
    ),
    ((Int, 300), [1, 44, 44, 300, 300, 300, 300]),
    ((Int, 128), [1, -128, 128, 128, 128, 128, 128]),
    (
        (Long, 4_294_967_303),
        [1, 7, 7, 7, 7, 4_294_967_303, 4_294_967_303],
    ),
    (
        (Long, -9_223_372_036_854_775_808),
        [
            1,
            0,
            0,
            0,
            0,
            -9_223_372_036_854_775_808,
            9_223_372_036_854_775_808,
        ],
    ),
    (
        (ULong, 9_223_372_036_854_775_808),
        [
            1,
            0,
            0,
            0,
            0,
            -9_223_372_036_854_775_808,
            9_223_372_036_854_775_808,
        ],
    ),
    ((ULong, 0), [0, 0, 0, 0, 0, 0, 0]),
];

#[test]
fn binary_operators_at_the_limits(rt: HostRuntime) {
    for row in 0..16 {
        for i in 0..16 {
            let (left, right) = (value(PAIRS[i].0), value(PAIRS[i].1));
            assert!(rt; holds(left.kind, left.number));
            assert!(rt; holds(right.kind, right.number));
            let want = wanted(RESULTS[row][i]);
            assert_eq!(rt; apply(OPERATORS[row], left, right), want, "{row} {i}");
        }
    }
}

#[test]
fn unary_operators_at_the_limits(rt: HostRuntime) {
    for row in 0..4 {
        for i in 0..9 {
            let operand = value(OPERANDS[i]);
            assert!(rt; holds(operand.kind, operand.number));
            let want = wanted(UNARY[row][i]);
            assert_eq!(rt;
                apply_unary(UNARY_OPERATORS[row], operand),
                want,
                "{row} {i}"
            );
        }
    }
}

#[test]
fn usual_conversions_of_all_pairs(rt: HostRuntime) {
    for i in 0..12 {
        for j in 0..12 {
            assert_eq!(rt; usual(KINDS[i], KINDS[j]), USUAL[i][j], "{i} {j}");
        }
        assert_eq!(rt; promote(KINDS[i]), USUAL[i][i], "{i}");
    }
}

#[test]
fn constants_at_the_edges(rt: HostRuntime) {
    for row in 0..18 {
        let (base, unsigned, longs) = FORMS[row];
        assert!(rt; base == 8 || base == 10 || base == 16);
        assert!(rt; longs <= 2);
        for i in 0..8 {
            let kind = constant_type(NUMBERS[i], base, unsigned, longs).unwrap_or(Bool);
            assert_eq!(rt; kind, CONSTANTS[row][i], "{base} {unsigned} {longs} {i}");
        }
    }
}

#[test]
fn conversions_at_the_limits(rt: HostRuntime) {
    for (pair, numbers) in &CONVERTED {
        let from = value(*pair);
        assert!(rt; holds(from.kind, from.number));
        for i in 0..7 {
            let want = value((TARGETS[i], numbers[i]));
            assert_eq!(rt; convert(from, TARGETS[i]), want, "{from:?} {i}");
        }
    }
}

#[test]
fn widths_and_signs(rt: HostRuntime) {
    assert_eq!(rt; (width(Bool), width(Short), width(ULLong)), (1, 16, 64));
    assert!(rt; is_signed(Char) && !is_signed(Bool) && !is_signed(ULong));
}

fn wanted(pair: Pair) -> Option<Value> {
    if pair == NONE {
        None
    } else {
        Some(value(pair))
    }
}

fn value((kind, number): Pair) -> Value {
    Value { kind, number }
}
