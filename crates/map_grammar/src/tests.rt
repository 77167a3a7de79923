use crate::{MapDecl, MapFault, MapMember, parse_map, spell_map};
use c_lex::LexFault;
use cm_core::{FileNo, Place};
use cm_source::Text;
use std::alloc::Global;
use std::test::Fail;

const FILE: FileNo = FileNo { index: 7 };

/// Maps of one declaration with one space between tokens: each production, and each of its choices.
static GOOD: [&str; 38] = [
    "module M { header \"inc/m.h\" }",
    "module M { }",
    "explicit module M { }",
    "module M [ system ] { }",
    "module M [ system ] [ extern_c ] { }",
    "extern module M \"m.map\"",
    "extern module M . N . O \"m.map\"",
    "module M { requires c11 }",
    "module M { requires ! c99 , c11 , ! blocks }",
    "module M { private header \"p.h\" }",
    "module M { textual header \"t.h\" }",
    "module M { private textual header \"p.h\" }",
    "module M { umbrella header \"u.h\" }",
    "module M { umbrella \"inc\" }",
    "module M { exclude header \"x.h\" }",
    "module M { module N { } }",
    "module M { explicit module N [ a ] { header \"n.h\" module O { } } }",
    "module M { module * { } }",
    "module M { module * { export * } }",
    "module M { explicit module * [ a ] { export * export * } }",
    "module M { export * }",
    "module M { export N }",
    "module M { export N . O }",
    "module M { export N . O . * }",
    "module M { export_as N }",
    "module M { use N }",
    "module M { use N . O . P }",
    "module M { link \"m\" }",
    "module M { link framework \"m\" }",
    "module M { config_macros }",
    "module M { config_macros NDEBUG }",
    "module M { config_macros A , B , C }",
    "module M { config_macros [ exhaustive ] }",
    "module M { config_macros [ exhaustive ] [ a ] A , B header \"m.h\" }",
    "module M { conflict N , \"old\" }",
    "module M { conflict N . O , \"\" }",
    "module A { export B use C . D export * config_macros requires c11 link \"a\" export_as A }",
    "module M { header \"}\" }",
];

/// Maps of none or several declarations, with one space between tokens.
static SEVERAL: [&str; 3] = [
    "",
    "module A { } extern module B \"b.map\" module C { } explicit module D { }",
    "extern module A \"a.map\" extern module B \"b.map\"",
];

/// The words that are no names.
static RESERVED: [&str; 16] = [
    "config_macros",
    "conflict",
    "exclude",
    "explicit",
    "export",
    "export_as",
    "extern",
    "framework",
    "header",
    "link",
    "module",
    "private",
    "requires",
    "textual",
    "umbrella",
    "use",
];

/// Maps, and which of their words, from 0 on, is a name.
static NAMED: [(&str, usize); 7] = [
    ("module M { }", 1),
    ("module M [ a ] { }", 3),
    ("extern module M . N \"m.map\"", 4),
    ("module M { requires ! a }", 5),
    ("module M { export_as N }", 4),
    ("module M { use N . O }", 6),
    ("module M { config_macros A , B }", 6),
];

/// Each kind of member, and both kinds of declarations.
static WHOLE: &str =
    "module M [ a ] { requires ! b , c private header \"h\" umbrella header \"u\" exclude header \"x\" umbrella \"f\" explicit module N [ b ] { module * { export * } } export * export N . O . * export_as P use N . O link framework \"l\" config_macros [ e ] F , G conflict N . O , \"m\" } extern module A . B \"b.map\"";

/// Maps that are no map, with the line and the column of the declaration at fault.
static BAD: [(&str, u32, u32); 77] = [
    ("module M { header \"inc/m.h\"", 1, 1),
    ("module M header \"m.h\" }", 1, 1),
    ("module { }", 1, 1),
    ("module M", 1, 1),
    ("module", 1, 1),
    ("M { }", 1, 1),
    ("{ }", 1, 1),
    ("}", 1, 1),
    ("module M { } }", 1, 14),
    ("explicit M { }", 1, 1),
    ("explicit explicit module M { }", 1, 1),
    ("module M.N { }", 1, 1),
    ("module module { }", 1, 1),
    ("module * { }", 1, 1),
    ("module \"M\" { }", 1, 1),
    ("module M [ ] { }", 1, 1),
    ("module M [ a { }", 1, 1),
    ("module M a ] { }", 1, 1),
    ("module M [ a , b ] { }", 1, 1),
    ("module M [ module ] { }", 1, 1),
    ("extern module M", 1, 1),
    ("extern M \"m.map\"", 1, 1),
    ("extern module \"m.map\"", 1, 1),
    ("extern module M { }", 1, 1),
    ("extern module M. \"m.map\"", 1, 1),
    ("explicit extern module M \"m.map\"", 1, 1),
    ("module M { extern module N \"n.map\" }", 1, 1),
    ("module M { requires }", 1, 1),
    ("module M { requires ! }", 1, 1),
    ("module M { requires ! ! a }", 1, 1),
    ("module M { requires a , }", 1, 1),
    ("module M { requires a b }", 1, 1),
    ("module M { header }", 1, 1),
    ("module M { header m.h }", 1, 1),
    ("module M { textual private header \"m.h\" }", 1, 1),
    ("module M { private private header \"m.h\" }", 1, 1),
    ("module M { private \"m.h\" }", 1, 1),
    ("module M { header \"m.h\" \"n.h\" }", 1, 1),
    ("module M { private umbrella header \"m.h\" }", 1, 1),
    ("module M { umbrella }", 1, 1),
    ("module M { exclude \"x.h\" }", 1, 1),
    ("module M { module N }", 1, 1),
    ("module M { module * { header \"m.h\" } }", 1, 1),
    ("module M { module * { export N } }", 1, 1),
    ("module M { module * { export } }", 1, 1),
    ("module M { export }", 1, 1),
    ("module M { export N. }", 1, 1),
    ("module M { export * . * }", 1, 1),
    ("module M { export N . * . * }", 1, 1),
    ("module M { export_as N.O }", 1, 1),
    ("module M { use * }", 1, 1),
    ("module M { use N . * }", 1, 1),
    ("module M { use use }", 1, 1),
    ("module M { link m }", 1, 1),
    ("module M { config_macros A , }", 1, 1),
    ("module M { config_macros , A }", 1, 1),
    ("module M { config_macros A [ exhaustive ] }", 1, 1),
    ("module M { conflict N \"old\" }", 1, 1),
    ("module M { conflict , \"old\" }", 1, 1),
    ("module M { conflict N , }", 1, 1),
    ("module M { header \"a\\b.h\" }", 1, 1),
    ("module M { header \"m.h }", 1, 1),
    ("module M { header \"a\nb.h\" }", 1, 1),
    ("module A { } module B { use } module C { }", 1, 14),
    ("module A { } } module B { }", 1, 14),
    ("module A { }\n module B { module C { }", 2, 2),
    ("extern module A \"a.map\" extern module B", 1, 25),
    ("module M { explicit export * }", 1, 1),
    ("module M { explicit N { } }", 1, 1),
    ("module M { export_as }", 1, 1),
    ("module M { export_as * }", 1, 1),
    ("module M { link framework m }", 1, 1),
    ("module M { conflict N . * , \"x\" }", 1, 1),
    ("module M { exclude private header \"x.h\" }", 1, 1),
    ("module M { umbrella private header \"u.h\" }", 1, 1),
    ("module [ a ] M { }", 1, 1),
    ("module M { } [ a ]", 1, 14),
];

#[test]
fn maps_are_spelled_as_they_were(rt: HostRuntime) -> Result<(), Fail> {
    for text in &GOOD {
        let declarations = parse(rt.alloc(), text.as_bytes())?.or(Err("no map"))?;
        let spelled = spelled(rt.alloc(), &declarations)?;
        assert_eq!(rt; spelled.as_str().trim(), *text);
    }
    Ok(())
}

#[test]
fn several_declarations_are_spelled(rt: HostRuntime) -> Result<(), Fail> {
    for text in &SEVERAL {
        let declarations = parse(rt.alloc(), text.as_bytes())?.or(Err("no map"))?;
        let spelled = spelled(rt.alloc(), &declarations)?;
        assert_eq!(rt; spelled.as_str().trim(), *text);
    }
    Ok(())
}

#[test]
fn comments_between_all_words(rt: HostRuntime) -> Result<(), Fail> {
    for text in &GOOD {
        let commented = with_comments(rt.alloc(), text)?;
        let declarations = parse(rt.alloc(), commented.as_bytes())?.or(Err("no map"))?;
        let spelled = spelled(rt.alloc(), &declarations)?;
        assert_eq!(rt; spelled.as_str().trim(), *text);
    }
    Ok(())
}

#[test]
fn no_maps(rt: HostRuntime) -> Result<(), Fail> {
    for (text, line, col) in &BAD {
        let fault = parse(rt.alloc(), text.as_bytes())?.err();
        assert_eq!(rt;
            fault,
            Some(MapFault::NotInGrammar(at(*line, *col))),
            "{text}"
        );
    }
    Ok(())
}

/// Each map with `;`, which is in no map, in the place of one of its words.
#[test]
fn wrong_at_each_word(rt: HostRuntime) -> Result<(), Fail> {
    for text in &GOOD {
        for wrong in 0..text.split(' ').count() {
            let broken = with_word(rt.alloc(), text, wrong, ";")?;
            let fault = parse(rt.alloc(), broken.as_bytes())?.err();
            assert_eq!(rt; fault, Some(MapFault::NotInGrammar(at(1, 1))), "{broken}");
        }
    }
    Ok(())
}

#[test]
fn reserved_words_are_no_names(rt: HostRuntime) -> Result<(), Fail> {
    for word in &RESERVED {
        for (text, name) in &NAMED {
            let broken = with_word(rt.alloc(), text, *name, word)?;
            let fault = parse(rt.alloc(), broken.as_bytes())?.err();
            assert_eq!(rt; fault, Some(MapFault::NotInGrammar(at(1, 1))), "{broken}");
        }
    }
    Ok(())
}

#[test]
fn spelling_of_a_map(rt: HostRuntime) -> Result<(), Fail> {
    let declarations = parse(rt.alloc(), b"module M { header \"inc/m.h\" }")?.or(Err("no map"))?;
    let [declaration] = declarations.as_slice() else {
        return Ok(Err("not one declaration")?);
    };
    let texts = spell_map(rt.alloc(), declaration).or(Err("memory"))?;
    let wanted = ["module", "M", "{", "header", "\"inc/m.h\"", "}"];
    assert_eq!(rt; texts.len(), wanted.len());
    for (text, wanted) in texts.iter().zip(wanted.iter()) {
        assert_eq!(rt; text.text(), *wanted);
    }
    Ok(())
}

#[test]
fn comments_and_splices_everywhere(rt: HostRuntime) -> Result<(), Fail> {
    let text = b"/*a*/module//b\n/**/M/*\n*/{/**/head\\\ner/**/\"m\\\n.h\"/**/??>//";
    let declarations = parse(rt.alloc(), text)?.or(Err("no map"))?;
    let spelled = spelled(rt.alloc(), &declarations)?;
    assert_eq!(rt; spelled.as_str(), "module M { header \"m.h\" } ");
    Ok(())
}

#[test]
fn a_module_with_its_places(rt: HostRuntime) -> Result<(), Fail> {
    let text =
        b"/* a\n map */ explicit module A [system] {\n  textual header \"a.h\" // first\n  conflict B.C, \"old\"\n  export D.*\n  config_macros [e] F\n}\n";
    let declarations = parse(rt.alloc(), text)?.or(Err("no map"))?;
    let [MapDecl::Module(module)] = declarations.as_slice() else {
        return Ok(Err("not one module")?);
    };
    assert!(rt; module.name.is("A"));
    assert_eq!(rt; module.place, at(2, 25));
    assert!(rt; module.explicit);
    assert!(rt; !module.inferred);
    assert_eq!(rt; module.attributes.len(), 1);
    let [
        MapMember::Header(private, textual, path, header_at),
        MapMember::Conflict(other, other_at, message),
        MapMember::Export(exported, all_below, exported_at),
        MapMember::Config(_, macros, config_at),
    ] = module.members.as_slice()
    else {
        return Ok(Err("other members")?);
    };
    assert!(rt; !*private && *textual);
    assert!(rt; path.is("a.h") && other.is("B.C") && message.is("old") && exported.is("D"));
    assert!(rt; *all_below);
    assert_eq!(rt; macros.len(), 1);
    assert_eq!(rt; *header_at, at(3, 18));
    assert_eq!(rt; *other_at, at(4, 12));
    assert_eq!(rt; *exported_at, at(5, 10));
    assert_eq!(rt; *config_at, at(6, 3));
    Ok(())
}

#[test]
fn copies_are_spelled_alike(rt: HostRuntime) -> Result<(), Fail> {
    let declarations = parse(rt.alloc(), WHOLE.as_bytes())?.or(Err("no map"))?;
    let mut copies = Vec::new(rt.alloc());
    for declaration in &declarations {
        copies.push(declaration.copy(rt.alloc())?)?;
    }
    let spelled = spelled(rt.alloc(), &copies)?;
    assert_eq!(rt; spelled.as_str().trim(), WHOLE);
    Ok(())
}

#[test]
fn copies_of_parts(rt: HostRuntime) -> Result<(), Fail> {
    let declarations = parse(rt.alloc(), b"module M { requires !a header \"h\" }")?.or(Err(
        "no map",
    ))?;
    let [MapDecl::Module(module)] = declarations.as_slice() else {
        return Ok(Err("not one module")?);
    };
    let copied = module.copy(rt.alloc()).or(Err("memory"))?;
    let [MapMember::Requires(features), header] = copied.members.as_slice() else {
        return Ok(Err("other members")?);
    };
    let [feature] = features.items() else {
        return Ok(Err("not one feature")?);
    };
    let feature = feature.copy(rt.alloc()).or(Err("memory"))?;
    assert!(rt; feature.name.is("a") && feature.negated);
    let MapMember::Header(private, textual, path, place) = header
        .copy(rt.alloc())
        .or(Err("memory"))?
    else {
        return Ok(Err("no header")?);
    };
    assert!(rt; !private && !textual && path.is("h"));
    assert_eq!(rt; place, at(1, 31));
    Ok(())
}

#[test]
fn places_of_members(rt: HostRuntime) -> Result<(), Fail> {
    let text =
        b"module A {\n umbrella header \"u.h\"\n exclude header \"x.h\"\n umbrella \"inc\"\n use B.C\n module N { }\n}";
    let declarations = parse(rt.alloc(), text)?.or(Err("no map"))?;
    let [MapDecl::Module(module)] = declarations.as_slice() else {
        return Ok(Err("not one module")?);
    };
    let [
        MapMember::UmbrellaHeader(umbrella, umbrella_at),
        MapMember::Exclude(excluded, excluded_at),
        MapMember::Umbrella(folder, folder_at),
        MapMember::Use(used, used_at),
        MapMember::Module(inner),
    ] = module.members.as_slice()
    else {
        return Ok(Err("other members")?);
    };
    assert!(rt; umbrella.is("u.h") && excluded.is("x.h") && folder.is("inc") && used.is("B.C"));
    assert!(rt; inner.name.is("N") && !inner.explicit && !inner.inferred);
    assert_eq!(rt; *umbrella_at, at(2, 18));
    assert_eq!(rt; *excluded_at, at(3, 17));
    assert_eq!(rt; *folder_at, at(4, 11));
    assert_eq!(rt; *used_at, at(5, 6));
    assert_eq!(rt; inner.place, at(6, 9));
    Ok(())
}

#[test]
fn fields_of_members(rt: HostRuntime) -> Result<(), Fail> {
    let text =
        b"module A {\n link framework \"l\"\n link \"m\"\n export_as O\n config_macros [e] F, G\n}";
    let declarations = parse(rt.alloc(), text)?.or(Err("no map"))?;
    let [MapDecl::Module(module)] = declarations.as_slice() else {
        return Ok(Err("not one module")?);
    };
    let [
        MapMember::Link(true, framework),
        MapMember::Link(false, library),
        MapMember::ExportAs(other),
        MapMember::Config(attributes, macros, _),
    ] = module.members.as_slice()
    else {
        return Ok(Err("other members")?);
    };
    assert!(rt; framework.is("l") && library.is("m") && other.is("O"));
    let ([attribute], [first, second]) = (attributes.items(), macros.items()) else {
        return Ok(Err("other lists")?);
    };
    assert!(rt; attribute.is("e") && first.is("F") && second.is("G"));
    Ok(())
}

#[test]
fn inferred_submodules_and_features(rt: HostRuntime) -> Result<(), Fail> {
    let text = b"module A {\n requires !b, c\n explicit module * { export * }\n}";
    let declarations = parse(rt.alloc(), text)?.or(Err("no map"))?;
    let [MapDecl::Module(module)] = declarations.as_slice() else {
        return Ok(Err("not one module")?);
    };
    let [MapMember::Requires(features), MapMember::Module(inferred)] = module.members.as_slice()
    else {
        return Ok(Err("other members")?);
    };
    let [first, second] = features.items() else {
        return Ok(Err("not two features")?);
    };
    assert!(rt; first.name.is("b") && first.negated);
    assert!(rt; second.name.is("c") && !second.negated);
    assert!(rt; inferred.name.is("*") && inferred.inferred && inferred.explicit);
    assert_eq!(rt; inferred.place, at(3, 18));
    assert!(rt; matches!(inferred.members.as_slice(), [MapMember::ExportAll]));
    Ok(())
}

#[test]
fn an_extern_module_with_its_place(rt: HostRuntime) -> Result<(), Fail> {
    let declarations = parse(rt.alloc(), b"\nextern module A.B \"c.map\"")?.or(Err("no map"))?;
    let [MapDecl::Extern(id, path, place)] = declarations.as_slice() else {
        return Ok(Err("not one declaration")?);
    };
    assert!(rt; id.is("A.B") && path.is("c.map"));
    assert_eq!(rt; *place, at(2, 19));
    Ok(())
}

#[test]
fn nesting_to_the_limit(rt: HostRuntime) -> Result<(), Fail> {
    let within = nested(rt.alloc(), 256, "")?;
    assert!(rt; parse(rt.alloc(), within.as_bytes())?.is_ok());
    let deep = nested(rt.alloc(), 257, "")?;
    assert_eq!(rt;
        parse(rt.alloc(), deep.as_bytes())?.err(),
        Some(MapFault::TooDeep(at(257, 10)))
    );
    let twice = nested(rt.alloc(), 256, "module A { } module B { }")?;
    assert_eq!(rt;
        parse(rt.alloc(), twice.as_bytes())?.err(),
        Some(MapFault::TooDeep(at(257, 10)))
    );
    Ok(())
}

#[test]
fn the_deepest_map_is_copied_and_spelled(rt: HostRuntime) -> Result<(), Fail> {
    let text = nested(rt.alloc(), 256, "")?;
    let declarations = parse(rt.alloc(), text.as_bytes())?.or(Err("no map"))?;
    let [declaration] = declarations.as_slice() else {
        return Ok(Err("not one declaration")?);
    };
    let copied = declaration.copy(rt.alloc()).or(Err("memory"))?;
    let texts = spell_map(rt.alloc(), &copied).or(Err("memory"))?;
    assert_eq!(rt; texts.len(), 1024);
    Ok(())
}

#[test]
fn many_modules_side_by_side(rt: HostRuntime) -> Result<(), Fail> {
    let mut text = String::new(rt.alloc());
    for _ in 0..300 {
        text.push_str("module M { }\n")?;
    }
    let declarations = parse(rt.alloc(), text.as_bytes())?.or(Err("no map"))?;
    assert_eq!(rt; declarations.len(), 300);
    let within = nested(rt.alloc(), 1, text.as_str())?;
    assert!(rt; parse(rt.alloc(), within.as_bytes())?.is_ok());
    Ok(())
}

/// The lexer's fault comes before nesting, and nesting before the grammar.
#[test]
fn order_of_the_faults(rt: HostRuntime) -> Result<(), Fail> {
    let unclosed = nested(rt.alloc(), 257, "/*")?;
    assert_eq!(rt;
        parse(rt.alloc(), unclosed.as_bytes())?.err(),
        Some(MapFault::Lex(LexFault::Unclosed(at(258, 1))))
    );
    let zero = parse(rt.alloc(), b"; \0")?.err();
    assert_eq!(rt; zero, Some(MapFault::Lex(LexFault::BadByte(at(1, 3)))));
    let stray = nested(rt.alloc(), 257, ";")?;
    assert_eq!(rt;
        parse(rt.alloc(), stray.as_bytes())?.err(),
        Some(MapFault::TooDeep(at(257, 10)))
    );
    let mut stray_before = String::from_str(rt.alloc(), "; { }\n")?;
    stray_before.push_str(stray.as_str())?;
    assert_eq!(rt;
        parse(rt.alloc(), stray_before.as_bytes())?.err(),
        Some(MapFault::TooDeep(at(258, 10)))
    );
    Ok(())
}

fn at(line: u32, col: u32) -> Place {
    Place {
        file: FILE,
        line,
        col,
    }
}

fn parse(alloc: Global, bytes: &[u8]) -> Result<Result<Vec<MapDecl>, MapFault>, Fail> {
    let text = Text::read(alloc, bytes)?;
    Ok(parse_map(alloc, &text, FILE))
}

/// The tokens of the declarations, each with a space after it.
fn spelled(alloc: Global, declarations: &[MapDecl]) -> Result<String, Fail> {
    let mut spelled = String::new(alloc);
    for declaration in declarations {
        let texts = spell_map(alloc, declaration)?;
        for text in &texts {
            spelled.push_str(text.text())?;
            spelled.push_str(" ")?;
        }
    }
    Ok(spelled)
}

/// The text with another word in the place of one, which is counted from 0.
fn with_word(alloc: Global, text: &str, place: usize, other: &str) -> Result<String, Fail> {
    let mut changed = String::new(alloc);
    for (count, word) in text.split(' ').enumerate() {
        changed.push_str(if count == place { other } else { word })?;
        changed.push_str(" ")?;
    }
    Ok(changed)
}

/// The text with a comment for each space.
fn with_comments(alloc: Global, text: &str) -> Result<String, Fail> {
    let mut commented = String::new(alloc);
    for word in text.split(' ') {
        commented.push_str(word)?;
        commented.push_str("/**/")?;
    }
    Ok(commented)
}

/// So many modules within one another, a line each, and what stands in the innermost.
fn nested(alloc: Global, modules: u32, inside: &str) -> Result<String, Fail> {
    let mut text = String::new(alloc);
    for _ in 0..modules {
        text.push_str("module M {\n")?;
    }
    text.push_str(inside)?;
    for _ in 0..modules {
        text.push_str("}")?;
    }
    Ok(text)
}
