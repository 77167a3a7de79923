ghost use Rattle.std.specs.Prelude.{◌≡◌, ◌<◌, ◌≤◌, ◌∷◌, codes, length, IfOk, OnOk};
ghost use Rattle.map_grammar.specs.Readers.{Took, made, many};
ghost use Rattle.map_grammar.specs.Grammar.{dotted, first_and_rest};
ghost use Rattle.map_grammar.specs.MapReaders as read;

use crate::cursor::Cursor;
use crate::declaration::Feature;
use crate::names::Named;
use crate::refusal::Refusal;
use cm_core::{List, NoMemory, Str};
use std::alloc::Global;

/// Reads an id: names with dots between them.
#[tactic(auto, unfolding(crate::specs::MapReaders::id))]
pub(crate) fn id(alloc: Global, words: &mut Cursor<'_>) -> Result<Named, Refusal>
    ensures read { Took (read.id words.old) result words.new }
    ensures shorter { OnOk result (length words.new < length words.old) }
{
    let first = words.name(alloc)?;
    let more = dotted_names(alloc, words)?;
    Ok(joined(alloc, first, &more)?)
}

fn dotted_names(alloc: Global, words: &mut Cursor<'_>) -> Result<List<Named>, Refusal>
    ensures read { Took (many read.is_dotted read.dotted_name words.old) result words.new }
    ensures shorter { OnOk result (length words.new ≤ length words.old) }
{
    let mut names = List::new(alloc);
    while words.sees_dotted() {
        names.push(dotted_name(alloc, words)?)?;
    }
    Ok(names)
}

#[tactic(auto, unfolding(crate::specs::MapReaders::dotted_name))]
fn dotted_name(alloc: Global, words: &mut Cursor<'_>) -> Result<Named, Refusal>
    ensures read { Took (read.dotted_name words.old) result words.new }
    ensures shorter { OnOk result (length words.new < length words.old) }
{
    words.pass(".")?;
    words.name(alloc)
}

/// The id of the names.
fn joined(alloc: Global, first: Named, more: &List<Named>) -> Result<Named, NoMemory>
    ensures { IfOk result (λ n. n ≡ dotted (first, more.now)) }
{
    let mut text = String::from_str(alloc, first.text.text())?;
    for name in more.items() {
        text.push_str(".")?;
        text.push_str(name.text.text())?;
    }
    Ok(Named {
        text: Str::read(alloc, text.as_str())?,
        place: first.place,
    })
}

/// Passes over the word, if it comes next, and tells whether it did.
#[tactic(auto, unfolding(crate::specs::MapReaders::flag))]
pub(crate) fn flag(words: &mut Cursor<'_>, text: &str) -> Result<bool, Refusal>
    ensures read { Took (read.flag text.now words.old) result words.new }
    ensures shorter { OnOk result (length words.new ≤ length words.old) }
{
    if !words.sees(text) {
        return Ok(false);
    }
    words.pass(text)?;
    Ok(true)
}

#[tactic(auto, unfolding(crate::specs::MapReaders::identifier))]
pub(crate) fn identifier(alloc: Global, words: &mut Cursor<'_>) -> Result<Str, Refusal>
    ensures read { Took (read.identifier words.old) result words.new }
    ensures shorter { OnOk result (length words.new < length words.old) }
{
    let Named { text, place: _ } = words.name(alloc)?;
    Ok(text)
}

/// Reads attributes, each an identifier in brackets.
#[tactic(auto, unfolding(crate::specs::MapReaders::attributes))]
pub(crate) fn attributes(alloc: Global, words: &mut Cursor<'_>) -> Result<List<Str>, Refusal>
    ensures read { Took (read.attributes words.old) result words.new }
    ensures shorter { OnOk result (length words.new ≤ length words.old) }
{
    let mut found = List::new(alloc);
    while words.sees("[") {
        found.push(attribute(alloc, words)?)?;
    }
    Ok(found)
}

#[tactic(auto, unfolding(crate::specs::MapReaders::attribute))]
fn attribute(alloc: Global, words: &mut Cursor<'_>) -> Result<Str, Refusal>
    ensures read { Took (read.attribute words.old) result words.new }
    ensures shorter { OnOk result (length words.new < length words.old) }
{
    words.pass("[")?;
    let name = identifier(alloc, words)?;
    words.pass("]")?;
    Ok(name)
}

/// Reads features with commas between them.
#[tactic(auto, unfolding(crate::specs::MapReaders::features))]
pub(crate) fn features(alloc: Global, words: &mut Cursor<'_>) -> Result<List<Feature>, Refusal>
    ensures read { Took (read.features words.old) result words.new }
    ensures shorter { OnOk result (length words.new < length words.old) }
{
    let first = feature(alloc, words)?;
    more_features(alloc, words, first)
}

fn more_features(
    alloc: Global,
    words: &mut Cursor<'_>,
    first: Feature,
) -> Result<List<Feature>, Refusal>
    ensures read { Took (made (λ more. first_and_rest (first, more)) (many (read.sees (codes ",")) read.next_feature) words.old) result words.new }
    ensures shorter { OnOk result (length words.new ≤ length words.old) }
{
    let mut found = List::new(alloc);
    found.push(first)?;
    while words.sees(",") {
        found.push(next_feature(alloc, words)?)?;
    }
    Ok(found)
}

#[tactic(auto, unfolding(crate::specs::MapReaders::next_feature))]
fn next_feature(alloc: Global, words: &mut Cursor<'_>) -> Result<Feature, Refusal>
    ensures read { Took (read.next_feature words.old) result words.new }
    ensures shorter { OnOk result (length words.new < length words.old) }
{
    words.pass(",")?;
    feature(alloc, words)
}

#[tactic(auto, unfolding(crate::specs::MapReaders::feature))]
fn feature(alloc: Global, words: &mut Cursor<'_>) -> Result<Feature, Refusal>
    ensures read { Took (read.feature words.old) result words.new }
    ensures shorter { OnOk result (length words.new < length words.old) }
{
    let negated = flag(words, "!")?;
    let name = identifier(alloc, words)?;
    Ok(Feature { name, negated })
}

/// Reads identifiers with commas between them.
#[tactic(auto, unfolding(crate::specs::MapReaders::identifiers))]
pub(crate) fn identifiers(alloc: Global, words: &mut Cursor<'_>) -> Result<List<Str>, Refusal>
    ensures read { Took (read.identifiers words.old) result words.new }
    ensures shorter { OnOk result (length words.new < length words.old) }
{
    let first = identifier(alloc, words)?;
    more_identifiers(alloc, words, first)
}

fn more_identifiers(alloc: Global, words: &mut Cursor<'_>, first: Str) -> Result<List<Str>, Refusal>
    ensures read { Took (made (λ more. first_and_rest (first, more)) (many (read.sees (codes ",")) read.next_identifier) words.old) result words.new }
    ensures shorter { OnOk result (length words.new ≤ length words.old) }
{
    let mut found = List::new(alloc);
    found.push(first)?;
    while words.sees(",") {
        found.push(next_identifier(alloc, words)?)?;
    }
    Ok(found)
}

#[tactic(auto, unfolding(crate::specs::MapReaders::next_identifier))]
fn next_identifier(alloc: Global, words: &mut Cursor<'_>) -> Result<Str, Refusal>
    ensures read { Took (read.next_identifier words.old) result words.new }
    ensures shorter { OnOk result (length words.new < length words.old) }
{
    words.pass(",")?;
    identifier(alloc, words)
}
