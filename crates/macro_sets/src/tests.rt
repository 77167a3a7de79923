//! Definitions that may stand beside each other are those of C11 6.10.3.5p8, EXAMPLE 6, and pairs
//! that differ in one part that 6.10.3p1 or p2 names. What is active where follows Clang's
//! documentation of modules, "Macros".

ghost use Rattle.std.specs.Prelude.{not};
ghost use Rattle.cm_core.specs.Views.{same_owner};
ghost use Rattle.cm_core.specs.declared.numbers.Owner.TheVariants.{Sub};

use super::*;
use cm_core::{
    BodyToken, FileNo, List, MacroBody, MacroNo, MacroNode, MacroRef, NoMemory, Owner, Place, Sees,
    Str, SubNo,
};
use std::alloc::Global;
use std::test::Fail;

/// Two definitions that may stand beside each other, each with its parameters, `None` for an
/// object-like macro, and its text. Each character but a space is a token or a parameter of its
/// own, `.` stands for `...`, and `<` for the other spelling `<:` of `[`.
static SAME: [(Option<&str>, &str, Option<&str>, &str); 8] = [
    (None, "(1-1)", None, "(1-1)"),
    (None, "(1-1)", None, " (1-1)"),
    (None, "1 + 1", None, "1  +  1"),
    (Some("."), "x", Some("."), "x"),
    (Some("a"), "( a )", Some("a"), "  (  a  )"),
    (None, "", None, ""),
    (Some(""), "x", Some(""), "x"),
    (Some("a."), "ab", Some("a."), "ab"),
];

static DIFFERENT: [(Option<&str>, &str, Option<&str>, &str); 14] = [
    (None, "(1-1)", None, "(0)"),
    (None, "(1-1)", None, "(1 - 1)"),
    (Some("a"), "( a )", Some("b"), "( a )"),
    (Some("a"), "( a )", Some("b"), "( b )"),
    (None, "x", Some(""), "x"),
    (None, "x", None, ""),
    (None, "", None, "x"),
    (None, "ab", None, "a"),
    (None, "ab", None, "ba"),
    (Some("a"), "a", Some("ab"), "a"),
    (Some("ab"), "ab", Some("ba"), "ab"),
    (Some("a"), "a", Some("a."), "a"),
    (Some(""), "x", Some("."), "x"),
    (None, "[", None, "<"),
];

fn spelling(byte: u8) -> &'static str {
    match byte {
        b'(' => "(",
        b')' => ")",
        b'-' => "-",
        b'+' => "+",
        b'[' => "[",
        b'<' => "<:",
        b'0' => "0",
        b'1' => "1",
        b'2' => "2",
        b'a' => "a",
        b'b' => "b",
        b'p' => "p",
        b'q' => "q",
        _ => "x",
    }
}

fn tokens(alloc: Global, text: &str) -> Result<List<BodyToken>, NoMemory> {
    let mut tokens = List::new(alloc);
    let mut spaced = false;
    for byte in text.as_bytes() {
        if *byte != b' ' {
            let text = Str::read(alloc, spelling(*byte))?;
            tokens.push(BodyToken { text, spaced })?;
        }
        spaced = *byte == b' ';
    }
    Ok(tokens)
}

fn names(alloc: Global, text: &str) -> Result<List<Str>, NoMemory> {
    let mut names = List::new(alloc);
    for byte in text.as_bytes() {
        if *byte != b'.' {
            names.push(Str::read(alloc, spelling(*byte))?)?;
        }
    }
    Ok(names)
}

fn object(alloc: Global, text: &str) -> Result<MacroBody, NoMemory> {
    Ok(MacroBody {
        params: None,
        variadic: false,
        tokens: tokens(alloc, text)?,
    })
}

fn definition(alloc: Global, parameters: Option<&str>, text: &str) -> Result<MacroBody, NoMemory> {
    let Some(parameters) = parameters else {
        return object(alloc, text);
    };
    Ok(MacroBody {
        params: Some(names(alloc, parameters)?),
        variadic: parameters.as_bytes().contains(&b'.'),
        tokens: tokens(alloc, text)?,
    })
}

const PLACE: Place = Place {
    file: FileNo { index: 0 },
    line: 1,
    col: 1,
};

const A: Owner = Owner::Sub(SubNo { index: 0 });

const B: Owner = Owner::Sub(SubNo { index: 1 });

const C: Owner = Owner::Sub(SubNo { index: 2 });

fn at(owner: Owner, number: u64) -> MacroRef {
    MacroRef {
        owner,
        no: MacroNo { number },
    }
}

/// Sees all owners but one submodule.
struct Without {
    hidden: SubNo,
}

impl Sees for Without {
    ghost seen = { λ s owner. not (same_owner owner (Sub s.hidden)) };

    fn sees(&self, owner: Owner) -> bool {
        match owner {
            Owner::Sub(no) => no.index != self.hidden.index,
            Owner::Unit | Owner::Job | Owner::Builtin => true,
        }
    }
}

const ALL: Without = Without {
    hidden: SubNo { index: 9 },
};

const WITHOUT_A: Without = Without {
    hidden: SubNo { index: 0 },
};

const WITHOUT_B: Without = Without {
    hidden: SubNo { index: 1 },
};

fn append(alloc: Global, nodes: &mut List<MacroNode>, more: &[MacroNode]) -> Result<(), NoMemory> {
    for node in more {
        nodes.push(node.copy(alloc)?)?;
    }
    Ok(())
}

fn joined(alloc: Global, a: &[MacroNode], b: &[MacroNode]) -> Result<List<MacroNode>, NoMemory> {
    let mut nodes = List::new(alloc);
    append(alloc, &mut nodes, a)?;
    append(alloc, &mut nodes, b)?;
    Ok(nodes)
}

/// The directives of `X` where the modules A and B define it by themselves.
fn defined_twice(alloc: Global, a: MacroBody, b: MacroBody) -> Result<List<MacroNode>, NoMemory> {
    let mut first = History::new(alloc, A);
    let mut second = History::new(alloc, B);
    first.define("X", a, PLACE, &[], &ALL)?;
    second.define("X", b, PLACE, &[], &ALL)?;
    joined(alloc, first.of("X"), second.of("X"))
}

#[test]
fn definitions_that_are_the_same(rt: HostRuntime) -> Result<(), Fail> {
    for (a_names, a_text, b_names, b_text) in &SAME {
        let a = definition(rt.alloc(), *a_names, a_text)?;
        let b = definition(rt.alloc(), *b_names, b_text)?;
        assert!(rt; same_definition(&a, &b), "{a_text} and {b_text}");
        let nodes = defined_twice(rt.alloc(), a, b)?;
        assert_eq!(rt; meaning(nodes.items(), &ALL), Meaning::Macro(at(A, 1)));
    }
    Ok(())
}

#[test]
fn definitions_that_differ_are_ambiguous(rt: HostRuntime) -> Result<(), Fail> {
    for (a_names, a_text, b_names, b_text) in &DIFFERENT {
        let a = definition(rt.alloc(), *a_names, a_text)?;
        let b = definition(rt.alloc(), *b_names, b_text)?;
        assert!(rt; !same_definition(&a, &b), "{a_text} and {b_text}");
        assert!(rt; !same_definition(&b, &a), "{b_text} and {a_text}");
        let nodes = defined_twice(rt.alloc(), a, b)?;
        let both = Meaning::Ambiguous(at(A, 1), at(B, 1));
        assert_eq!(rt; meaning(nodes.items(), &ALL), both);
        assert_eq!(rt;
            meaning(nodes.items(), &WITHOUT_B),
            Meaning::Macro(at(A, 1))
        );
    }
    Ok(())
}

/// The texts that A and B define `X` as, by themselves.
fn objects(alloc: Global, a: &str, b: &str) -> Result<List<MacroNode>, NoMemory> {
    defined_twice(alloc, object(alloc, a)?, object(alloc, b)?)
}

#[test]
fn ambiguous_numbers(rt: HostRuntime) -> Result<(), Fail> {
    let both = Meaning::Ambiguous(at(A, 1), at(B, 1));
    let numbers = objects(rt.alloc(), "1", "2")?;
    assert_eq!(rt; meaning(numbers.items(), &ALL), both);
    let sums = objects(rt.alloc(), "1 + 1", "1  +  1")?;
    assert_eq!(rt; meaning(sums.items(), &ALL), Meaning::Macro(at(A, 1)));
    Ok(())
}

#[test]
fn ambiguous_names(rt: HostRuntime) -> Result<(), Fail> {
    let both = Meaning::Ambiguous(at(A, 1), at(B, 1));
    let nodes = objects(rt.alloc(), "p", "q")?;
    assert_eq!(rt; meaning(nodes.items(), &ALL), both);
    Ok(())
}

#[test]
fn the_first_that_differs_is_named(rt: HostRuntime) -> Result<(), Fail> {
    let same = objects(rt.alloc(), "1", "1")?;
    let mut third = History::new(rt.alloc(), C);
    third.define("X", object(rt.alloc(), "2")?, PLACE, &[], &ALL)?;
    let nodes = joined(rt.alloc(), same.items(), third.of("X"))?;
    let both = Meaning::Ambiguous(at(A, 1), at(C, 1));
    assert_eq!(rt; meaning(nodes.items(), &ALL), both);
    Ok(())
}

#[test]
fn undef_in_a_later_module(rt: HostRuntime) -> Result<(), Fail> {
    let mut a = History::new(rt.alloc(), A);
    let mut b = History::new(rt.alloc(), B);
    a.define("X", object(rt.alloc(), "1")?, PLACE, &[], &ALL)?;
    b.undef("X", PLACE, a.of("X"), &ALL)?;
    let nodes = joined(rt.alloc(), a.of("X"), b.of("X"))?;
    let nodes = nodes.items();
    assert!(rt; nodes.len() == 2);
    assert_eq!(rt; meaning(nodes, &WITHOUT_B), Meaning::Macro(at(A, 1)));
    assert_eq!(rt; meaning(nodes, &ALL), Meaning::None);
    assert!(rt; active(nodes, 0, &WITHOUT_B) && !active(nodes, 1, &WITHOUT_B));
    assert!(rt; !active(nodes, 0, &ALL) && active(nodes, 1, &ALL));
    Ok(())
}

/// B has not seen the definition of A, so its `#undef` overrides nothing.
#[test]
fn an_active_undef_beside_a_define(rt: HostRuntime) -> Result<(), Fail> {
    let mut a = History::new(rt.alloc(), A);
    let mut b = History::new(rt.alloc(), B);
    a.define("X", object(rt.alloc(), "1")?, PLACE, &[], &ALL)?;
    b.undef("X", PLACE, &[], &ALL)?;
    let nodes = joined(rt.alloc(), a.of("X"), b.of("X"))?;
    let nodes = nodes.items();
    assert!(rt; nodes.len() == 2);
    assert!(rt; active(nodes, 0, &ALL) && active(nodes, 1, &ALL));
    assert_eq!(rt; meaning(nodes, &ALL), Meaning::Macro(at(A, 1)));
    Ok(())
}

/// C sees A and not B, and each of its directives overrides its own earlier ones too.
#[test]
fn overridden_are_those_seen_and_its_own(rt: HostRuntime) -> Result<(), Fail> {
    let before = objects(rt.alloc(), "1", "2")?;
    let mut c = History::new(rt.alloc(), C);
    let first = object(rt.alloc(), "0")?;
    c.define("X", first, PLACE, before.items(), &WITHOUT_B)?;
    c.undef("X", PLACE, before.items(), &WITHOUT_B)?;
    let nodes = c.of("X");
    assert!(rt; nodes.len() == 2);
    assert!(rt; nodes[0].overrides.items() == [at(A, 1)].as_slice());
    assert!(rt; nodes[1].overrides.items() == [at(A, 1), at(C, 1)].as_slice());
    Ok(())
}

#[test]
fn one_owner_goes_by_its_last_directive(rt: HostRuntime) -> Result<(), Fail> {
    let mut unit = History::new(rt.alloc(), Owner::Unit);
    unit.define("X", object(rt.alloc(), "1")?, PLACE, &[], &ALL)?;
    unit.define("Y", object(rt.alloc(), "1")?, PLACE, &[], &ALL)?;
    unit.undef("X", PLACE, &[], &ALL)?;
    assert_eq!(rt; meaning(unit.of("X"), &ALL), Meaning::None);
    let last = unit.define("X", object(rt.alloc(), "2")?, PLACE, &[], &ALL)?;
    assert_eq!(rt; last, at(Owner::Unit, 4));
    assert_eq!(rt; meaning(unit.of("X"), &ALL), Meaning::Macro(last));
    assert_eq!(rt; unit.of("Z").len(), 0);
    let nodes = unit.nodes(rt.alloc())?;
    assert!(rt; nodes.len() == 4);
    assert_eq!(rt; nodes.items()[1].name.text(), "Y");
    Ok(())
}

/// The module that overrides the definition of the job has it as number 1, and the unit as number 2.
#[test]
fn the_job_has_one_definition(rt: HostRuntime) -> Result<(), Fail> {
    let mut of_module = History::new(rt.alloc(), Owner::Job);
    of_module.define("X", object(rt.alloc(), "1")?, PLACE, &[], &ALL)?;
    let mut module = History::new(rt.alloc(), A);
    let body = object(rt.alloc(), "2")?;
    module.define("X", body, PLACE, of_module.of("X"), &ALL)?;
    let mut of_unit = History::new(rt.alloc(), Owner::Job);
    of_unit.define("W", object(rt.alloc(), "1")?, PLACE, &[], &ALL)?;
    of_unit.define("X", object(rt.alloc(), "1")?, PLACE, &[], &ALL)?;
    let of_job = Meaning::Macro(at(Owner::Job, 2));
    assert_eq!(rt; meaning(of_unit.of("X"), &ALL), of_job);
    let nodes = joined(rt.alloc(), of_unit.of("X"), module.of("X"))?;
    assert_eq!(rt; meaning(nodes.items(), &WITHOUT_A), of_job);
    assert_eq!(rt; meaning(nodes.items(), &ALL), Meaning::Macro(at(A, 1)));
    Ok(())
}
