ghost use Rattle.std.specs.Prelude.{◌≡◌, ◌<◌, ◌≤◌, length, IfOk, IfErr, OnOk};
ghost use Rattle.map_grammar.specs.Readers.{Took};
ghost use Rattle.map_grammar.specs.Grammar.{IsDeclaration};
ghost use Rattle.map_grammar.specs.MapReaders as read;
ghost use Rattle.map_grammar.specs.MapText.{AreDeclarations, cuts, words_of, IsMap, IsRefusal};
ghost use Rattle.map_grammar.specs.Faults.{AreStray, IsStray};

use crate::cursor::Cursor;
use crate::cut::{declaration_length, too_deep};
use crate::declaration::MapDecl;
use crate::fault::MapFault;
use crate::lex::words;
use crate::modules::{module_head, named_module};
use crate::names::Named;
use crate::parts::id;
use crate::refusal::Refusal;
use crate::word::Word;
use cm_core::FileNo;
use cm_source::Text;
use std::alloc::Global;

/// Reads the text of the file as a module map: its top-level declarations in their order.
///
/// Of several faults the lexer's comes first, then braces that nest too deep, then the first declaration that isn't
/// in the grammar.
pub fn parse_map(alloc: Global, text: &Text, file: FileNo) -> Result<Vec<MapDecl>, MapFault>
    ensures ok { IfOk result (λ declarations. IsMap (words_of text.now file) declarations.items) }
    ensures err { IfErr result (IsRefusal (words_of text.now file)) }
{
    let words = words(alloc, text, file)?;
    if let Some(place) = too_deep(&words) {
        return Err(MapFault::TooDeep(place));
    }
    declarations(alloc, &words)
}

fn declarations(alloc: Global, words: &[Word]) -> Result<Vec<MapDecl>, MapFault>
    ensures ok { IfOk result (λ declarations. AreDeclarations declarations.items (cuts words.now)) }
    ensures err { IfErr result (AreStray (cuts words.now)) }
{
    let mut found = Vec::new(alloc);
    let mut rest = words;
    while !rest.is_empty() {
        let (cut, after) = rest.split_at(declaration_length(rest));
        found.push(declaration(alloc, cut)?)?;
        rest = after;
    }
    Ok(found)
}

/// Reads words that are one declaration.
fn declaration(alloc: Global, words: &[Word]) -> Result<MapDecl, MapFault>
    requires { 0 < length words.now }
    ensures ok { IfOk result (λ d. IsDeclaration d words.now) }
    ensures err { IfErr result (IsStray words.now) }
{
    match whole(alloc, words) {
        Ok(declaration) => Ok(declaration),
        Err(Refusal::NotInGrammar) => Err(MapFault::NotInGrammar(words[0].place)),
        Err(Refusal::NoMemory) => Err(MapFault::NoMemory),
    }
}

#[tactic(auto, unfolding(crate::specs::MapReaders::whole))]
fn whole(alloc: Global, words: &[Word]) -> Result<MapDecl, Refusal>
    ensures { read.Gives (read.whole words.now) result }
{
    let mut cursor = Cursor::new(words);
    // A declaration has more words than modules within one another.
    let declaration = any_declaration(alloc, &mut cursor, words.len())?;
    if cursor.is_empty() {
        Ok(declaration)
    } else {
        Err(Refusal::NotInGrammar)
    }
}

/// Reads a declaration, in which fewer than `depth` modules may stand within a member.
#[tactic(auto, unfolding(crate::specs::MapReaders::declaration))]
fn any_declaration(alloc: Global, words: &mut Cursor<'_>, depth: usize) -> Result<MapDecl, Refusal>
    ensures read { Took (read.declaration depth words.old) result words.new }
{
    if words.sees("extern") {
        extern_(alloc, words)
    } else {
        top_module(alloc, words, depth)
    }
}

#[tactic(auto, unfolding(crate::specs::MapReaders::top_module))]
fn top_module(alloc: Global, words: &mut Cursor<'_>, depth: usize) -> Result<MapDecl, Refusal>
    ensures read { Took (read.top_module depth words.old) result words.new }
{
    let explicit = module_head(words)?;
    let module = named_module(alloc, words, explicit, depth)?;
    Ok(MapDecl::Module(module))
}

#[tactic(auto, unfolding(crate::specs::MapReaders::extern_))]
fn extern_(alloc: Global, words: &mut Cursor<'_>) -> Result<MapDecl, Refusal>
    ensures read { Took (read.extern_ words.old) result words.new }
{
    words.pass("extern")?;
    words.pass("module")?;
    let Named { text: id, place: _ } = id(alloc, words)?;
    let Named { text: path, place } = words.string(alloc)?;
    Ok(MapDecl::Extern(id, path, place))
}
