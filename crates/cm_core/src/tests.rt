ghost use Rattle.std.specs.Prelude.{◌≡◌, Some, IfOk};
ghost use Rattle.std.specs.Option.{option_map};
ghost use Rattle.cm_core.specs.Views.{Keeps, decl};

use super::*;
use sqlite_items::{Boxed, Items};
use std::alloc::Global;
use std::test::Fail;

/// What POSIX pathname resolution makes of each text, without links and from the root.
const PATHS: [(&str, &str); 10] = [
    ("a", "a"),
    (".", "."),
    ("./", "."),
    ("a/..", "."),
    ("a//b/./c/", "a/b/c"),
    ("a/../b", "b"),
    ("a/b/../../c", "c"),
    ("a/.../b", "a/.../b"),
    ("..a/b..", "..a/b.."),
    ("a/b/c/..", "a/b"),
];

/// Each text has the reason that is given, and some those that stand below it in the order.
const REFUSALS: [(&str, PathFault); 8] = [
    ("", PathFault::Empty),
    ("a\0", PathFault::HasNul),
    ("/\0", PathFault::HasNul),
    ("../\0", PathFault::HasNul),
    ("/", PathFault::Absolute),
    ("/..", PathFault::Absolute),
    ("..", PathFault::Climbs),
    ("a/../../b", PathFault::Climbs),
];

/// A folder, what is joined to it, the joined path and its folder.
const JOINS: [(&str, &str, &str, &str); 4] = [
    ("a", "../b", "b", "."),
    (".", "x/y", "x/y", "x"),
    ("a/b", "../c", "a/c", "a"),
    ("a", "..", ".", "."),
];

fn is_read(alloc: Global, text: &str, path: &str) -> Result<bool, PathFault> {
    Ok(PathText::read(alloc, text)?.is(path))
}

fn joined(alloc: Global, base: &str, tail: &str) -> Result<PathText, PathFault> {
    PathText::read(alloc, base)?.join(alloc, tail)
}

#[test]
fn reads_paths(rt: HostRuntime) -> Result<(), Fail> {
    for (text, path) in PATHS {
        assert!(rt; is_read(rt.alloc(), text, path)?, "{text}");
    }
    Ok(())
}

#[test]
fn refuses_texts(rt: HostRuntime) {
    for (text, fault) in REFUSALS {
        assert_eq!(rt;
            PathText::read(rt.alloc(), text).err(),
            Some(fault),
            "{text}"
        );
    }
    assert_eq!(rt;
        joined(rt.alloc(), "a", "../..").err(),
        Some(PathFault::Climbs)
    );
    assert_eq!(rt; joined(rt.alloc(), "a", "").err(), Some(PathFault::Empty));
}

#[test]
fn joins_paths(rt: HostRuntime) -> Result<(), Fail> {
    for (base, tail, path, folder) in JOINS {
        let whole = joined(rt.alloc(), base, tail)?;
        assert!(rt; whole.is(path), "{base} {tail}");
        assert!(rt; whole.folder(rt.alloc())?.is(folder), "{base} {tail}");
    }
    Ok(())
}

#[test]
fn numbers_names(rt: HostRuntime) -> Result<(), Fail> {
    let mut names = Names::new(rt.alloc());
    let first = names.number("int")?;
    let second = names.number("main")?;
    assert!(rt; first != second);
    assert_eq!(rt; names.number("int")?, first);
    assert_eq!(rt; names.text(second), "main");
    Ok(())
}

#[test]
fn numbers_files(rt: HostRuntime) -> Result<(), Fail> {
    let path = PathText::read(rt.alloc(), "a/b.c")?;
    let mut files = Files::new(rt.alloc());
    let no = files.number(&path)?;
    assert!(rt; *files.path(no) == path);
    Ok(())
}

fn one_submodule(alloc: Global) -> Result<SubList, NoMemory> {
    let mut names = List::new(alloc);
    names.push(Str::read(alloc, "A")?)?;
    SubList::new(alloc, names)
}

#[test]
fn finds_submodules(rt: HostRuntime) -> Result<(), Fail> {
    let subs = one_submodule(rt.alloc())?;
    assert_eq!(rt; subs.len(), 1);
    assert!(rt; !subs.is_empty());
    assert_eq!(rt; subs.number("A.B"), None);
    let no = subs.number("A").ok_or("A")?;
    assert!(rt; no.index < subs.len());
    assert_eq!(rt; subs.text(no), "A");
    Ok(())
}

#[test]
fn counts_and_codes(rt: HostRuntime) {
    let mut steps = Steps::new();
    steps.tick_compile();
    steps.add_tokens(u64::MAX);
    steps.add_tokens(1);
    let whole = Steps {
        compiles: 1,
        tokens: u64::MAX,
    };
    assert_eq!(rt; steps, whole);
    assert_eq!(rt; Status::WriteFault.code(), 4);
    assert_eq!(rt; ToolStatus::CacheFault.code(), 6);
}

#[test]
fn changes_lists(rt: HostRuntime) -> Result<(), Fail> {
    let mut list = List::from_vec([1, 2].to_vec(rt.alloc())?);
    list.push(3)?;
    assert_eq!(rt; list.len(), 3);
    assert_eq!(rt; list.replace(1, 7), 2);
    assert_eq!(rt; list.get(1).copied(), Some(7));
    assert_eq!(rt; list.items(), [1, 7, 3].as_slice());
    assert_eq!(rt; list.into_vec().len(), 3);
    Ok(())
}

const PLACE: Place = Place {
    file: FileNo { index: 0 },
    line: 1,
    col: 2,
};

fn text(alloc: Global) -> Result<Str, NoMemory> {
    Str::read(alloc, "x")?.copy(alloc)
}

fn texts(alloc: Global) -> Result<List<Str>, NoMemory> {
    let mut texts = List::new(alloc);
    texts.push(text(alloc)?)?;
    texts.copy(alloc)
}

fn diag(alloc: Global) -> Result<Diag, NoMemory> {
    let args = texts(alloc)?;
    let diag = Diag {
        number: 1002,
        place: PLACE,
        args,
    };
    diag.copy(alloc)
}

fn row(alloc: Global) -> Result<NameRow, NoMemory> {
    let name = text(alloc)?;
    let row = NameRow {
        name,
        space: Space::Tag,
        no: 3,
    };
    row.copy(alloc)
}

fn body(alloc: Global) -> Result<MacroBody, NoMemory> {
    let token = BodyToken {
        text: text(alloc)?,
        spaced: true,
    };
    let mut tokens = List::new(alloc);
    tokens.push(token.copy(alloc)?)?;
    let body = MacroBody {
        params: None,
        variadic: false,
        tokens,
    };
    body.copy(alloc)
}

fn define(alloc: Global) -> Result<Define, NoMemory> {
    let name = text(alloc)?;
    let body = body(alloc)?;
    let define = Define { name, body };
    define.copy(alloc)
}

fn macro_node(alloc: Global) -> Result<MacroNode, NoMemory> {
    let Define { name, body } = define(alloc)?;
    let node = MacroNode {
        at: MacroRef {
            owner: Owner::Job,
            no: MacroNo { number: 1 },
        },
        name,
        place: PLACE,
        body: Some(body),
        overrides: List::new(alloc),
    };
    node.copy(alloc)
}

fn int() -> Qual {
    Qual {
        ty: Ty::Int(IntKind::Int),
        quals: 1,
    }
}

fn signature(alloc: Global) -> Result<Signature, NoMemory> {
    let mut params = Items::new(alloc);
    params.push(int())?;
    let signature = Signature {
        result: int(),
        prototype: true,
        variadic: false,
        params,
    };
    signature.copy(alloc)
}

fn function(alloc: Global) -> Result<Qual, NoMemory> {
    let ty = Ty::Function(Boxed::new(alloc, signature(alloc)?)?);
    let qual = Qual {
        ty: ty.copy(alloc)?,
        quals: 0,
    };
    qual.copy(alloc)
}

fn member(alloc: Global) -> Result<Member, NoMemory> {
    let ty = function(alloc)?;
    let member = Member {
        name: None,
        ty,
        width: Some(4),
    };
    member.copy(alloc)
}

fn content(alloc: Global) -> Result<Content, NoMemory> {
    let mut members = List::new(alloc);
    members.push(member(alloc)?)?;
    Content::Members(members).copy(alloc)
}

fn kind(alloc: Global) -> Result<DeclKind, NoMemory> {
    let content = content(alloc)?;
    DeclKind::Tag(TagKind::Struct, Some(content)).copy(alloc)
}

fn decl_node(alloc: Global) -> Result<DeclNode, NoMemory> {
    let name = text(alloc)?;
    let kind = kind(alloc)?;
    let node = DeclNode {
        name,
        place: PLACE,
        space: Space::Tag,
        storage: Storage::None,
        kind,
    };
    node.copy(alloc)
}

/// Each of these copies what it is made of.
#[test]
fn copies(rt: HostRuntime) -> Result<(), Fail> {
    assert!(rt; PathText::read(rt.alloc(), "x")?.copy(rt.alloc())?.is("x"));
    assert_eq!(rt; diag(rt.alloc())?.number, 1002);
    assert_eq!(rt; row(rt.alloc())?.no, 3);
    assert!(rt; macro_node(rt.alloc())?.name.is("x"));
    assert!(rt; decl_node(rt.alloc())?.name.is("x"));
    Ok(())
}

/// A view of no declarations at all.
#[derive(Drop)]
struct Bare {
    files: Files,
    subs: SubList,
}

impl Visible for Bare {
    ghost use Rattle.std.specs.Prelude.{◌≡◌, List, [], ℕ, refl};
    ghost use Rattle.cm_core.specs.Tables.{Extends, Extends-same, Extends-after};
    ghost use Rattle.std.proofs.Common.{rules};

    ghost graph = { λ _. [] };

    ghost losses = { λ _. 0 };

    ghost last = { λ _. (record { index = 0 }, 0) };

    ghost same = { λ s t. (t.subs ≡ s.subs) × Extends s.files t.files };

    ghost files_of = { λ s. s.files };

    ghost with_files = { λ s files. record s { files = files } };

    ghost subs_of = { λ s. s.subs };

    ghost same_start = { λ s. (refl, Extends-same s.files) };

    ghost same_after = { λ s t u a b. (Prim.cc, Extends-after s.files t.files u.files a.1 b.1) };

    ghost same_graph = { λ _ _ _. refl };

    ghost same_losses = { Prim.search rules };

    ghost same_subs = { λ s t h. h.0 };

    ghost keeps_files = { λ s t h. h.1 };

    ghost same_files = { λ s files h. (refl, h) };

    fn find(
        &mut self,
        alloc: Global,
        _name: &str,
        _space: Space,
    ) -> Result<Vec<DeclRef>, ViewFault> {
        Ok(Vec::new(alloc))
    }

    fn decl(&mut self, _at: DeclRef) -> Result<&DeclNode, ViewFault> {
        Err(ViewFault::NoMemory)
    }

    fn macros(&mut self, alloc: Global, _name: &str) -> Result<Vec<MacroNode>, ViewFault> {
        Ok(Vec::new(alloc))
    }

    fn names(&mut self, alloc: Global, _sub: SubNo) -> Result<Vec<NameRow>, ViewFault> {
        Ok(Vec::new(alloc))
    }

    fn files(&mut self) -> &mut Files {
        &mut self.files
    }

    fn subs(&self) -> &SubList {
        &self.subs
    }
}

/// What a caller that knows only the trait can promise.
fn name_of<V: Visible>(view: &mut V, alloc: Global, at: DeclRef) -> Result<Str, ViewFault>
    ensures name { IfOk result (λ name. option_map (λ node. node.name) (decl (V.graph view.old) at) ≡ Some name) }
    ensures keeps { Keeps V.same V.losses V.last view.old view.new result }
{
    let node = view.decl(at)?;
    Ok(node.name.copy(alloc)?)
}

fn number_of_file<V: Visible>(view: &mut V, path: &PathText) -> Result<FileNo, ViewFault>
    ensures keeps { Keeps V.same V.losses V.last view.old view.new result }
{
    let no = view.files().number(path)?;
    Ok(no)
}

#[test]
fn views(rt: HostRuntime) -> Result<(), Fail> {
    let mut view = Bare {
        files: Files::new(rt.alloc()),
        subs: one_submodule(rt.alloc())?,
    };
    assert_eq!(rt; view.find(rt.alloc(), "x", Space::Ordinary)?.len(), 0);
    let path = PathText::read(rt.alloc(), "a")?;
    let no = number_of_file(&mut view, &path)?;
    assert_eq!(rt; view.files().number(&path)?, no);
    Ok(())
}
