ghost use Rattle.std.specs.Prelude.{◌≡◌, IfOk};

use cm_core::{List, NoMemory, Place, Str, TryCopy};
use sqlite_items::Items;
use std::alloc::Global;

/// A top-level declaration of a module map.
#[derive(Debug, Drop)]
pub enum MapDecl {
    Module(MapModule),
    /// `extern module`: the module's id, the path of the map that declares it, and the place of the path.
    Extern(Str, Str, Place),
}

/// A module, a submodule, or what `module *` says of the submodules that are inferred.
#[cycle(tree)]
#[derive(Debug, Drop)]
pub struct MapModule {
    /// The name, which is `*` where the submodules are inferred.
    pub name: Str,
    /// The place of the name.
    pub place: Place,
    pub explicit: bool,
    pub inferred: bool,
    pub attributes: List<Str>,
    /// The members in their order; of inferred submodules one `ExportAll` for each `export *`.
    pub members: Items<MapMember>,
}

/// A member of a module. Strings stand without their quotes, and ids with their dots.
#[cycle(tree)]
#[derive(Debug, Drop)]
pub enum MapMember {
    Requires(List<Feature>),
    /// Whether the header is private and whether it is textual, its path, and the place of the string.
    Header(bool, bool, Str, Place),
    /// An umbrella header and the place of the string.
    UmbrellaHeader(Str, Place),
    /// An excluded header and the place of the string.
    Exclude(Str, Place),
    /// An umbrella folder and the place of the string.
    Umbrella(Str, Place),
    Module(MapModule),
    ExportAll,
    /// The exported module's id, whether `.*` follows it, and the place of the id.
    Export(Str, bool, Place),
    ExportAs(Str),
    /// The used module's id and its place.
    Use(Str, Place),
    /// Whether it is a framework, and what is linked.
    Link(bool, Str),
    /// The attributes, the names of the macros, and the place of the word.
    Config(List<Str>, List<Str>, Place),
    /// The other module's id, its place, and the message.
    Conflict(Str, Place, Str),
}

/// A feature that a module requires.
#[derive(Debug, Drop)]
pub struct Feature {
    pub name: Str,
    /// Whether it has to be absent.
    pub negated: bool,
}

impl MapDecl {
    /// An equal declaration.
    pub fn copy(&self, alloc: Global) -> Result<MapDecl, NoMemory>
        ensures { IfOk result (λ copied. copied ≡ self.now) }
    {
        match self {
            MapDecl::Module(module) => Ok(MapDecl::Module(module.copy(alloc)?)),
            MapDecl::Extern(id, path, place) => {
                let id = id.copy(alloc)?;
                Ok(MapDecl::Extern(id, path.copy(alloc)?, *place))
            }
        }
    }
}

impl MapModule {
    /// An equal module. It descends as deep as the module's members do.
    #[cycle(copy)]
    pub fn copy(&self, alloc: Global) -> Result<MapModule, NoMemory>
        ensures { IfOk result (λ copied. copied ≡ self.now) }
    {
        Ok(MapModule {
            name: self.name.copy(alloc)?,
            place: self.place,
            explicit: self.explicit,
            inferred: self.inferred,
            attributes: self.attributes.copy(alloc)?,
            members: copy_all(alloc, self.members.as_slice())?,
        })
    }
}

impl MapMember {
    /// An equal member. It descends as deep as a module in it does.
    #[cycle(copy)]
    pub fn copy(&self, alloc: Global) -> Result<MapMember, NoMemory>
        ensures { IfOk result (λ copied. copied ≡ self.now) }
    {
        Ok(match self {
            MapMember::Requires(features) => MapMember::Requires(features.copy(alloc)?),
            MapMember::Header(private, textual, path, place) => {
                MapMember::Header(*private, *textual, path.copy(alloc)?, *place)
            }
            MapMember::UmbrellaHeader(path, place) => {
                MapMember::UmbrellaHeader(path.copy(alloc)?, *place)
            }
            MapMember::Exclude(path, place) => MapMember::Exclude(path.copy(alloc)?, *place),
            MapMember::Umbrella(path, place) => MapMember::Umbrella(path.copy(alloc)?, *place),
            MapMember::Module(module) => MapMember::Module(module.copy(alloc)?),
            MapMember::ExportAll => MapMember::ExportAll,
            MapMember::Export(id, all_below, place) => {
                MapMember::Export(id.copy(alloc)?, *all_below, *place)
            }
            MapMember::ExportAs(name) => MapMember::ExportAs(name.copy(alloc)?),
            MapMember::Use(id, place) => MapMember::Use(id.copy(alloc)?, *place),
            MapMember::Link(framework, name) => MapMember::Link(*framework, name.copy(alloc)?),
            MapMember::Config(attributes, names, place) => {
                let attributes = attributes.copy(alloc)?;
                MapMember::Config(attributes, names.copy(alloc)?, *place)
            }
            MapMember::Conflict(id, place, message) => {
                let id = id.copy(alloc)?;
                MapMember::Conflict(id, *place, message.copy(alloc)?)
            }
        })
    }
}

#[cycle(copy)]
fn copy_all(alloc: Global, members: &[MapMember]) -> Result<Items<MapMember>, NoMemory>
    ensures { IfOk result (λ copied. copied ≡ members.now) }
{
    let mut copied = Items::new(alloc);
    for member in members {
        copied.push(member.copy(alloc)?)?;
    }
    Ok(copied)
}

impl Feature {
    /// An equal feature.
    pub fn copy(&self, alloc: Global) -> Result<Feature, NoMemory>
        ensures { IfOk result (λ copied. copied ≡ self.now) }
    {
        Ok(Feature {
            name: self.name.copy(alloc)?,
            negated: self.negated,
        })
    }
}

impl TryCopy for Feature {
    fn try_copy(&self, alloc: Global) -> Result<Feature, NoMemory> {
        self.copy(alloc)
    }
}
