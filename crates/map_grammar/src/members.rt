ghost use Rattle.std.specs.Prelude.{◌≡◌, ◌<◌, ◌≤◌, length, OnOk};
ghost use Rattle.map_grammar.specs.Readers.{Took};
ghost use Rattle.map_grammar.specs.MapReaders as read;

use crate::cursor::Cursor;
use crate::declaration::MapMember;
use crate::names::Named;
use crate::parts::{attributes, features, flag, id, identifier, identifiers};
use crate::refusal::Refusal;
use cm_core::{List, Str};
use std::alloc::Global;

/// Reads a member that is no module.
#[tactic(auto, unfolding(crate::specs::MapReaders::simple_member))]
pub(crate) fn simple_member(alloc: Global, words: &mut Cursor<'_>) -> Result<MapMember, Refusal>
    ensures read { Took (read.simple_member words.old) result words.new }
    ensures shorter { OnOk result (length words.new < length words.old) }
{
    if words.sees("requires") {
        requires_(alloc, words)
    } else if begins_header(words) {
        header(alloc, words)
    } else if words.sees("umbrella") {
        umbrella(alloc, words)
    } else if words.sees("exclude") {
        exclude(alloc, words)
    } else if words.sees("export") {
        export(alloc, words)
    } else if words.sees("export_as") {
        export_as(alloc, words)
    } else if words.sees("use") {
        use_(alloc, words)
    } else if words.sees("link") {
        link(alloc, words)
    } else if words.sees("config_macros") {
        config(alloc, words)
    } else {
        conflict(alloc, words)
    }
}

#[tactic(auto, unfolding(crate::specs::MapReaders::requires_))]
fn requires_(alloc: Global, words: &mut Cursor<'_>) -> Result<MapMember, Refusal>
    ensures read { Took (read.requires_ words.old) result words.new }
    ensures shorter { OnOk result (length words.new < length words.old) }
{
    words.pass("requires")?;
    let features = features(alloc, words)?;
    Ok(MapMember::Requires(features))
}

fn begins_header(words: &Cursor<'_>) -> bool
    ensures { result ≡ read.begins_header words.now }
{
    words.sees("private") || words.sees("textual") || words.sees("header")
}

#[tactic(auto, unfolding(crate::specs::MapReaders::header))]
fn header(alloc: Global, words: &mut Cursor<'_>) -> Result<MapMember, Refusal>
    ensures read { Took (read.header words.old) result words.new }
    ensures shorter { OnOk result (length words.new < length words.old) }
{
    let private = flag(words, "private")?;
    let textual = flag(words, "textual")?;
    words.pass("header")?;
    let Named { text, place } = words.string(alloc)?;
    Ok(MapMember::Header(private, textual, text, place))
}

#[tactic(auto, unfolding(crate::specs::MapReaders::umbrella))]
fn umbrella(alloc: Global, words: &mut Cursor<'_>) -> Result<MapMember, Refusal>
    ensures read { Took (read.umbrella words.old) result words.new }
    ensures shorter { OnOk result (length words.new < length words.old) }
{
    words.pass("umbrella")?;
    if words.sees("header") {
        return umbrella_header(alloc, words);
    }
    let Named { text, place } = words.string(alloc)?;
    Ok(MapMember::Umbrella(text, place))
}

#[tactic(auto, unfolding(crate::specs::MapReaders::umbrella_header))]
fn umbrella_header(alloc: Global, words: &mut Cursor<'_>) -> Result<MapMember, Refusal>
    ensures read { Took (read.umbrella_header words.old) result words.new }
    ensures shorter { OnOk result (length words.new < length words.old) }
{
    words.pass("header")?;
    let Named { text, place } = words.string(alloc)?;
    Ok(MapMember::UmbrellaHeader(text, place))
}

#[tactic(auto, unfolding(crate::specs::MapReaders::exclude))]
fn exclude(alloc: Global, words: &mut Cursor<'_>) -> Result<MapMember, Refusal>
    ensures read { Took (read.exclude words.old) result words.new }
    ensures shorter { OnOk result (length words.new < length words.old) }
{
    words.pass("exclude")?;
    words.pass("header")?;
    let Named { text, place } = words.string(alloc)?;
    Ok(MapMember::Exclude(text, place))
}

#[tactic(auto, unfolding(crate::specs::MapReaders::export))]
fn export(alloc: Global, words: &mut Cursor<'_>) -> Result<MapMember, Refusal>
    ensures read { Took (read.export words.old) result words.new }
    ensures shorter { OnOk result (length words.new < length words.old) }
{
    words.pass("export")?;
    if words.sees("*") {
        words.pass("*")?;
        return Ok(MapMember::ExportAll);
    }
    export_id(alloc, words)
}

#[tactic(auto, unfolding(crate::specs::MapReaders::export_id))]
fn export_id(alloc: Global, words: &mut Cursor<'_>) -> Result<MapMember, Refusal>
    ensures read { Took (read.export_id words.old) result words.new }
    ensures shorter { OnOk result (length words.new < length words.old) }
{
    let Named { text, place } = id(alloc, words)?;
    let all_below = all_below(words)?;
    Ok(MapMember::Export(text, all_below, place))
}

/// Passes over `.*`, if a dot comes next, and tells whether it did.
#[tactic(auto, unfolding(crate::specs::MapReaders::all_below))]
fn all_below(words: &mut Cursor<'_>) -> Result<bool, Refusal>
    ensures read { Took (read.all_below words.old) result words.new }
    ensures shorter { OnOk result (length words.new ≤ length words.old) }
{
    if !words.sees(".") {
        return Ok(false);
    }
    words.pass(".")?;
    words.pass("*")?;
    Ok(true)
}

#[tactic(auto, unfolding(crate::specs::MapReaders::export_as))]
fn export_as(alloc: Global, words: &mut Cursor<'_>) -> Result<MapMember, Refusal>
    ensures read { Took (read.export_as words.old) result words.new }
    ensures shorter { OnOk result (length words.new < length words.old) }
{
    words.pass("export_as")?;
    let name = identifier(alloc, words)?;
    Ok(MapMember::ExportAs(name))
}

#[tactic(auto, unfolding(crate::specs::MapReaders::use_))]
fn use_(alloc: Global, words: &mut Cursor<'_>) -> Result<MapMember, Refusal>
    ensures read { Took (read.use_ words.old) result words.new }
    ensures shorter { OnOk result (length words.new < length words.old) }
{
    words.pass("use")?;
    let Named { text, place } = id(alloc, words)?;
    Ok(MapMember::Use(text, place))
}

#[tactic(auto, unfolding(crate::specs::MapReaders::link))]
fn link(alloc: Global, words: &mut Cursor<'_>) -> Result<MapMember, Refusal>
    ensures read { Took (read.link words.old) result words.new }
    ensures shorter { OnOk result (length words.new < length words.old) }
{
    words.pass("link")?;
    let framework = flag(words, "framework")?;
    let Named { text, place: _ } = words.string(alloc)?;
    Ok(MapMember::Link(framework, text))
}

#[tactic(auto, unfolding(crate::specs::MapReaders::config))]
fn config(alloc: Global, words: &mut Cursor<'_>) -> Result<MapMember, Refusal>
    ensures read { Took (read.config words.old) result words.new }
    ensures shorter { OnOk result (length words.new < length words.old) }
{
    let place = words.pass("config_macros")?;
    let attributes = attributes(alloc, words)?;
    let names = names_if_any(alloc, words)?;
    Ok(MapMember::Config(attributes, names, place))
}

#[tactic(auto, unfolding(crate::specs::MapReaders::names_if_any))]
fn names_if_any(alloc: Global, words: &mut Cursor<'_>) -> Result<List<Str>, Refusal>
    ensures read { Took (read.names_if_any words.old) result words.new }
    ensures shorter { OnOk result (length words.new ≤ length words.old) }
{
    if words.sees_name() {
        identifiers(alloc, words)
    } else {
        Ok(List::new(alloc))
    }
}

#[tactic(auto, unfolding(crate::specs::MapReaders::conflict))]
fn conflict(alloc: Global, words: &mut Cursor<'_>) -> Result<MapMember, Refusal>
    ensures read { Took (read.conflict words.old) result words.new }
    ensures shorter { OnOk result (length words.new < length words.old) }
{
    words.pass("conflict")?;
    let Named { text, place } = id(alloc, words)?;
    words.pass(",")?;
    let Named {
        text: message,
        place: _,
    } = words.string(alloc)?;
    Ok(MapMember::Conflict(text, place, message))
}
