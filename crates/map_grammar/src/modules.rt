ghost use Rattle.std.specs.Prelude.{◌≡◌, ◌<◌, ◌≤◌, length, OnOk};
ghost use Rattle.map_grammar.specs.Readers.{Took, many};
ghost use Rattle.map_grammar.specs.MapReaders as read;

use crate::cursor::Cursor;
use crate::declaration::{MapMember, MapModule};
use crate::inferred::inferred_module;
use crate::members::simple_member;
use crate::names::Named;
use crate::parts::attributes;
use crate::refusal::Refusal;
use sqlite_items::Items;
use std::alloc::Global;

/// Reads `module`, maybe with `explicit` before it, and tells whether that stands there.
#[tactic(auto, unfolding(crate::specs::MapReaders::module_head))]
pub(crate) fn module_head(words: &mut Cursor<'_>) -> Result<bool, Refusal>
    ensures read { Took (read.module_head words.old) result words.new }
    ensures shorter { OnOk result (length words.new < length words.old) }
{
    if words.sees("explicit") {
        words.pass("explicit")?;
        words.pass("module")?;
        return Ok(true);
    }
    words.pass("module")?;
    Ok(false)
}

/// Reads the rest of a module after the word `module`. Fewer than `depth` modules may stand within one
/// another in it.
#[cycle(modules)]
#[tactic(auto, unfolding(crate::specs::MapReaders::named_module))]
pub(crate) fn named_module(
    alloc: Global,
    words: &mut Cursor<'_>,
    explicit: bool,
    depth: usize,
) -> Result<MapModule, Refusal>
    ensures read { Took (read.named_module (read.member depth) explicit words.old) result words.new }
    ensures shorter { OnOk result (length words.new < length words.old) }
{
    let Named { text, place } = words.name(alloc)?;
    let attributes = attributes(alloc, words)?;
    let members = braced_members(alloc, words, depth)?;
    Ok(MapModule {
        name: text,
        place,
        explicit,
        inferred: false,
        attributes,
        members,
    })
}

#[cycle(modules)]
#[tactic(auto, unfolding(crate::specs::MapReaders::braced))]
fn braced_members(
    alloc: Global,
    words: &mut Cursor<'_>,
    depth: usize,
) -> Result<Items<MapMember>, Refusal>
    ensures read { Took (read.braced (many read.is_inside (read.member depth)) words.old) result words.new }
    ensures shorter { OnOk result (length words.new < length words.old) }
{
    words.pass("{")?;
    let members = members(alloc, words, depth)?;
    words.pass("}")?;
    Ok(members)
}

#[cycle(modules)]
fn members(alloc: Global, words: &mut Cursor<'_>, depth: usize) -> Result<Items<MapMember>, Refusal>
    ensures read { Took (many read.is_inside (read.member depth) words.old) result words.new }
    ensures shorter { OnOk result (length words.new ≤ length words.old) }
{
    let mut found = Items::new(alloc);
    while words.is_inside() {
        found.push(member(alloc, words, depth)?)?;
    }
    Ok(found)
}

/// Reads a member, in which fewer than `depth` modules may stand within one another.
#[cycle(modules)]
#[tactic(auto, unfolding(crate::specs::MapReaders::member))]
fn member(alloc: Global, words: &mut Cursor<'_>, depth: usize) -> Result<MapMember, Refusal>
    ensures read { Took (read.member depth words.old) result words.new }
    ensures shorter { OnOk result (length words.new < length words.old) }
{
    if depth == 0 {
        return Err(Refusal::NotInGrammar);
    }
    if begins_module(words) {
        submodule(alloc, words, depth - 1)
    } else {
        simple_member(alloc, words)
    }
}

fn begins_module(words: &Cursor<'_>) -> bool
    ensures { result ≡ read.begins_module words.now }
{
    words.sees("explicit") || words.sees("module")
}

#[cycle(modules)]
#[tactic(auto, unfolding(crate::specs::MapReaders::submodule))]
fn submodule(alloc: Global, words: &mut Cursor<'_>, depth: usize) -> Result<MapMember, Refusal>
    ensures read { Took (read.submodule (read.member depth) words.old) result words.new }
    ensures shorter { OnOk result (length words.new < length words.old) }
{
    let explicit = module_head(words)?;
    let module = any_module(alloc, words, explicit, depth)?;
    Ok(MapMember::Module(module))
}

#[cycle(modules)]
#[tactic(auto, unfolding(crate::specs::MapReaders::any_module))]
fn any_module(
    alloc: Global,
    words: &mut Cursor<'_>,
    explicit: bool,
    depth: usize,
) -> Result<MapModule, Refusal>
    ensures read { Took (read.any_module (read.member depth) explicit words.old) result words.new }
    ensures shorter { OnOk result (length words.new < length words.old) }
{
    if words.sees("*") {
        inferred_module(alloc, words, explicit)
    } else {
        named_module(alloc, words, explicit, depth)
    }
}
