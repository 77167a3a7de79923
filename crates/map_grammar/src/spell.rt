ghost use Rattle.std.specs.Prelude.{◌≡◌, [], ◌∷◌, ◌++◌, ◌==◌, codes, map, IfOk, OnOk};
ghost use Rattle.std.specs.List.{flat_map, slice_split};
ghost use Rattle.map_grammar.specs.Spelling as spelled;

use crate::declaration::{Feature, MapDecl, MapMember, MapModule};
use cm_core::{List, NoMemory, Str};
use std::alloc::Global;

/// The spellings of the tokens of a declaration. For a declaration that was read they are those that it was read
/// from.
#[tactic(auto, unfolding(crate::specs::Spelling::spelling))]
pub fn spell_map(alloc: Global, declaration: &MapDecl) -> Result<Vec<Str>, NoMemory>
    ensures { IfOk result (λ texts. texts.items ≡ spelled.spelling declaration.now) }
{
    let mut out = Vec::new(alloc);
    match declaration {
        MapDecl::Module(module) => spell_module(alloc, module, &mut out)?,
        MapDecl::Extern(id, path, _) => spell_extern(alloc, id, path, &mut out)?,
    }
    Ok(out)
}

fn spell_extern(alloc: Global, id: &Str, path: &Str, out: &mut Vec<Str>) -> Result<(), NoMemory>
    ensures { OnOk result (out.new.items ≡ out.old.items ++ spelled.extern_texts id.now path.now) }
{
    put(alloc, "extern", out)?;
    put(alloc, "module", out)?;
    put_id(alloc, id, out)?;
    put_string(alloc, path, out)
}

#[cycle(spell)]
#[tactic(auto, using(crate::proofs::Spelled::spelled))]
fn spell_module(alloc: Global, declared: &MapModule, out: &mut Vec<Str>) -> Result<(), NoMemory>
    ensures { OnOk result (out.new.items ≡ out.old.items ++ spelled.module_spelling declared.now) }
{
    put_if(alloc, declared.explicit, "explicit", out)?;
    put(alloc, "module", out)?;
    put(alloc, declared.name.text(), out)?;
    put_attributes(alloc, &declared.attributes, out)?;
    put(alloc, "{", out)?;
    spell_members(alloc, declared.members.as_slice(), out)?;
    put(alloc, "}", out)
}

#[cycle(spell)]
fn spell_members(alloc: Global, members: &[MapMember], out: &mut Vec<Str>) -> Result<(), NoMemory>
    ensures { OnOk result (out.new.items ≡ out.old.items ++ flat_map spelled.member_spelling members.now) }
{
    for member in members {
        spell_member(alloc, member, out)?;
    }
    Ok(())
}

#[cycle(spell)]
#[tactic(auto, using(crate::proofs::Spelled::spelled))]
fn spell_member(alloc: Global, member: &MapMember, out: &mut Vec<Str>) -> Result<(), NoMemory>
    ensures { OnOk result (out.new.items ≡ out.old.items ++ spelled.member_spelling member.now) }
{
    match member {
        MapMember::Requires(features) => put_requires(alloc, features, out),
        MapMember::Header(private, textual, path, _) => {
            put_header(alloc, *private, *textual, path, out)
        }
        MapMember::UmbrellaHeader(path, _) => put_words(alloc, "umbrella", "header", path, out),
        MapMember::Exclude(path, _) => put_words(alloc, "exclude", "header", path, out),
        MapMember::Umbrella(path, _) => put_word(alloc, "umbrella", path, out),
        MapMember::Module(module) => spell_module(alloc, module, out),
        MapMember::ExportAll => put_export_all(alloc, out),
        MapMember::Export(id, all_below, _) => put_export(alloc, id, *all_below, out),
        MapMember::ExportAs(name) => put_export_as(alloc, name, out),
        MapMember::Use(id, _) => put_use(alloc, id, out),
        MapMember::Link(framework, name) => put_link(alloc, *framework, name, out),
        MapMember::Config(attributes, names, _) => put_config(alloc, attributes, names, out),
        MapMember::Conflict(id, _, message) => put_conflict(alloc, id, message, out),
    }
}

fn put_requires(alloc: Global, features: &List<Feature>, out: &mut Vec<Str>) -> Result<(), NoMemory>
    ensures { OnOk result (out.new.items ≡ out.old.items ++ spelled.requires_texts features.now) }
{
    put(alloc, "requires", out)?;
    put_features(alloc, features.items(), out)
}

fn put_header(
    alloc: Global,
    private: bool,
    textual: bool,
    path: &Str,
    out: &mut Vec<Str>,
) -> Result<(), NoMemory>
    ensures { OnOk result (out.new.items ≡ out.old.items ++ spelled.header_texts private textual path.now) }
{
    put_if(alloc, private, "private", out)?;
    put_if(alloc, textual, "textual", out)?;
    put(alloc, "header", out)?;
    put_string(alloc, path, out)
}

/// Adds a word and a string.
fn put_word(alloc: Global, word: &str, path: &Str, out: &mut Vec<Str>) -> Result<(), NoMemory>
    ensures { OnOk result (out.new.items ≡ out.old.items ++ word.now ∷ spelled.quoted path.now ∷ []) }
{
    put(alloc, word, out)?;
    put_string(alloc, path, out)
}

/// Adds two words and a string.
fn put_words(
    alloc: Global,
    first: &str,
    second: &str,
    path: &Str,
    out: &mut Vec<Str>,
) -> Result<(), NoMemory>
    ensures { OnOk result (out.new.items ≡ out.old.items ++ first.now ∷ second.now ∷ spelled.quoted path.now ∷ []) }
{
    put(alloc, first, out)?;
    put(alloc, second, out)?;
    put_string(alloc, path, out)
}

fn put_export_all(alloc: Global, out: &mut Vec<Str>) -> Result<(), NoMemory>
    ensures { OnOk result (out.new.items ≡ out.old.items ++ codes "export" ∷ codes "*" ∷ []) }
{
    put(alloc, "export", out)?;
    put(alloc, "*", out)
}

fn put_export(alloc: Global, id: &Str, all_below: bool, out: &mut Vec<Str>) -> Result<(), NoMemory>
    ensures { OnOk result (out.new.items ≡ out.old.items ++ spelled.export_texts id.now all_below) }
{
    put(alloc, "export", out)?;
    put_id(alloc, id, out)?;
    put_if(alloc, all_below, ".", out)?;
    put_if(alloc, all_below, "*", out)
}

fn put_export_as(alloc: Global, name: &Str, out: &mut Vec<Str>) -> Result<(), NoMemory>
    ensures { OnOk result (out.new.items ≡ out.old.items ++ codes "export_as" ∷ name.now ∷ []) }
{
    put(alloc, "export_as", out)?;
    put(alloc, name.text(), out)
}

fn put_use(alloc: Global, id: &Str, out: &mut Vec<Str>) -> Result<(), NoMemory>
    ensures { OnOk result (out.new.items ≡ out.old.items ++ codes "use" ∷ spelled.id_texts id.now) }
{
    put(alloc, "use", out)?;
    put_id(alloc, id, out)
}

fn put_link(alloc: Global, framework: bool, name: &Str, out: &mut Vec<Str>) -> Result<(), NoMemory>
    ensures { OnOk result (out.new.items ≡ out.old.items ++ spelled.link_texts framework name.now) }
{
    put(alloc, "link", out)?;
    put_if(alloc, framework, "framework", out)?;
    put_string(alloc, name, out)
}

fn put_config(
    alloc: Global,
    attributes: &List<Str>,
    names: &List<Str>,
    out: &mut Vec<Str>,
) -> Result<(), NoMemory>
    ensures { OnOk result (out.new.items ≡ out.old.items ++ spelled.config_texts attributes.now names.now) }
{
    put(alloc, "config_macros", out)?;
    put_attributes(alloc, attributes, out)?;
    put_names(alloc, names.items(), out)?;
    Ok(())
}

fn put_conflict(alloc: Global, id: &Str, message: &Str, out: &mut Vec<Str>) -> Result<(), NoMemory>
    ensures { OnOk result (out.new.items ≡ out.old.items ++ spelled.conflict_texts id.now message.now) }
{
    put(alloc, "conflict", out)?;
    put_id(alloc, id, out)?;
    put(alloc, ",", out)?;
    put_string(alloc, message, out)
}

/// Adds attributes, each in brackets.
fn put_attributes(alloc: Global, attributes: &List<Str>, out: &mut Vec<Str>) -> Result<(), NoMemory>
    ensures { OnOk result (out.new.items ≡ out.old.items ++ flat_map spelled.attribute_texts attributes.now) }
{
    for name in attributes.items() {
        put(alloc, "[", out)?;
        put(alloc, name.text(), out)?;
        put(alloc, "]", out)?;
    }
    Ok(())
}

/// Adds features with commas between them.
fn put_features(alloc: Global, features: &[Feature], out: &mut Vec<Str>) -> Result<(), NoMemory>
    ensures { OnOk result (out.new.items ≡ out.old.items ++ spelled.between (codes ",") spelled.feature_texts features.now) }
{
    let [first, rest @ ..] = features else {
        return Ok(());
    };
    put_feature(alloc, first, out)?;
    for feature in rest {
        put(alloc, ",", out)?;
        put_feature(alloc, feature, out)?;
    }
    Ok(())
}

fn put_feature(alloc: Global, feature: &Feature, out: &mut Vec<Str>) -> Result<(), NoMemory>
    ensures { OnOk result (out.new.items ≡ out.old.items ++ spelled.feature_texts feature.now) }
{
    put_if(alloc, feature.negated, "!", out)?;
    put(alloc, feature.name.text(), out)
}

/// Adds names with commas between them.
fn put_names(alloc: Global, names: &[Str], out: &mut Vec<Str>) -> Result<(), NoMemory>
    ensures { OnOk result (out.new.items ≡ out.old.items ++ spelled.between (codes ",") spelled.alone names.now) }
{
    let [first, rest @ ..] = names else {
        return Ok(());
    };
    put(alloc, first.text(), out)?;
    for name in rest {
        put(alloc, ",", out)?;
        put(alloc, name.text(), out)?;
    }
    Ok(())
}

/// Adds the names of an id and the dots between them.
fn put_id(alloc: Global, id: &Str, out: &mut Vec<Str>) -> Result<(), NoMemory>
    ensures { OnOk result (out.new.items ≡ out.old.items ++ spelled.id_texts id.now) }
{
    let names = names(alloc, id.text())?;
    put_dotted(alloc, &names, out)
}

/// The parts of an id between its dots.
fn names(alloc: Global, id: &str) -> Result<Vec<&str>, NoMemory>
    ensures { IfOk result (λ names. map (λ name. name.now) names.items ≡ slice_split (λ b. b == 46) id.now) }
{
    let names = id.split('.').collect(alloc)?;
    Ok(names)
}

fn put_dotted(alloc: Global, names: &[&str], out: &mut Vec<Str>) -> Result<(), NoMemory>
    ensures { OnOk result (out.new.items ≡ out.old.items ++ spelled.between (codes ".") spelled.alone (map (λ name. name.now) names.now)) }
{
    let [first, rest @ ..] = names else {
        return Ok(());
    };
    put(alloc, first, out)?;
    put_with_dots(alloc, rest, out)
}

/// Adds each name with a dot before it.
fn put_with_dots(alloc: Global, names: &[&str], out: &mut Vec<Str>) -> Result<(), NoMemory>
    ensures { OnOk result (out.new.items ≡ out.old.items ++ flat_map spelled.after_dot (map (λ name. name.now) names.now)) }
{
    for name in names {
        put(alloc, ".", out)?;
        put(alloc, name, out)?;
    }
    Ok(())
}

fn put(alloc: Global, text: &str, out: &mut Vec<Str>) -> Result<(), NoMemory>
    ensures { OnOk result (out.new.items ≡ out.old.items ++ text.now ∷ []) }
{
    out.push(Str::read(alloc, text)?)?;
    Ok(())
}

/// Adds the string in its quotes.
fn put_string(alloc: Global, text: &Str, out: &mut Vec<Str>) -> Result<(), NoMemory>
    ensures { OnOk result (out.new.items ≡ out.old.items ++ spelled.quoted text.now ∷ []) }
{
    let mut quoted = String::from_str(alloc, "\"")?;
    quoted.push_str(text.text())?;
    quoted.push_str("\"")?;
    put(alloc, quoted.as_str(), out)
}

/// Adds the word, if it stands there.
fn put_if(alloc: Global, stands: bool, text: &str, out: &mut Vec<Str>) -> Result<(), NoMemory>
    ensures { OnOk result (out.new.items ≡ out.old.items ++ spelled.word_if text.now stands) }
{
    if stands {
        put(alloc, text, out)
    } else {
        Ok(())
    }
}
