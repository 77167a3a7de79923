ghost use Rattle.std.specs.Prelude.{◌≡◌, ◌<◌, ◌≤◌, length, OnOk};
ghost use Rattle.map_grammar.specs.Readers.{Took, many};
ghost use Rattle.map_grammar.specs.MapReaders as read;

use crate::cursor::Cursor;
use crate::declaration::{MapMember, MapModule};
use crate::names::Named;
use crate::parts::attributes;
use crate::refusal::Refusal;
use sqlite_items::Items;
use std::alloc::Global;

/// Reads `*` and what follows it after the word `module`.
#[tactic(auto, unfolding(crate::specs::MapReaders::inferred_module))]
pub(crate) fn inferred_module(
    alloc: Global,
    words: &mut Cursor<'_>,
    explicit: bool,
) -> Result<MapModule, Refusal>
    ensures read { Took (read.inferred_module explicit words.old) result words.new }
    ensures shorter { OnOk result (length words.new < length words.old) }
{
    let Named { text, place } = words.star(alloc)?;
    let attributes = attributes(alloc, words)?;
    let members = braced_export_stars(alloc, words)?;
    Ok(MapModule {
        name: text,
        place,
        explicit,
        inferred: true,
        attributes,
        members,
    })
}

#[tactic(auto, unfolding(crate::specs::MapReaders::braced))]
fn braced_export_stars(alloc: Global, words: &mut Cursor<'_>) -> Result<Items<MapMember>, Refusal>
    ensures read { Took (read.braced (many read.is_inside read.export_star) words.old) result words.new }
    ensures shorter { OnOk result (length words.new < length words.old) }
{
    words.pass("{")?;
    let stars = export_stars(alloc, words)?;
    words.pass("}")?;
    Ok(stars)
}

fn export_stars(alloc: Global, words: &mut Cursor<'_>) -> Result<Items<MapMember>, Refusal>
    ensures read { Took (many read.is_inside read.export_star words.old) result words.new }
    ensures shorter { OnOk result (length words.new ≤ length words.old) }
{
    let mut found = Items::new(alloc);
    while words.is_inside() {
        found.push(export_star(words)?)?;
    }
    Ok(found)
}

#[tactic(auto, unfolding(crate::specs::MapReaders::export_star))]
fn export_star(words: &mut Cursor<'_>) -> Result<MapMember, Refusal>
    ensures read { Took (read.export_star words.old) result words.new }
    ensures shorter { OnOk result (length words.new < length words.old) }
{
    words.pass("export")?;
    words.pass("*")?;
    Ok(MapMember::ExportAll)
}
