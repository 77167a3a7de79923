ghost use Rattle.std.specs.Prelude.{◌≡◌, ◌&&◌, ◌==◌, IfOk};
ghost use Rattle.std.specs.List.{list_any};
ghost use Rattle.std.specs.Str.{bytes_eq};
ghost use Rattle.unit_fold.specs.Lines.{lines};
ghost use Rattle.build_store.specs.Tables.{at_fault, clashes as clashes_of, declares, first_fault as fault_among, is_known as is_known_among, is_read as is_read_among, is_whole as is_whole_map, map_lines, map_of, new_target, nothing_read, unknown_export as unknown_export_among};

use crate::map_line::read_target;
use crate::names::next_line;
use crate::table::{Export, Target};
use cm_core::{List, NoMemory, PathText};
use cm_outside::Answer;
use std::alloc::Global;
use unit_fold::lines::take_line;

/// A map as its lines were read, up to the first at fault.
#[derive(Debug, Drop)]
pub(crate) struct MapRead {
    pub map: PathText,
    /// The module of each line, in order.
    pub targets: List<Target>,
    /// The line at fault, from 1.
    pub fault: Option<u32>,
}

/// Whether a module has the name or the header of another one.
fn clashes(target: &Target, other: &Target) -> bool
    ensures { result ≡ clashes_of target.now other.now }
{
    other.name == target.name || other.header == target.header
}

fn has_clash(targets: &[Target], target: &Target) -> bool
    ensures { result ≡ list_any (clashes_of target.now) targets.now }
{
    targets.iter().any(|other| clashes(target, other))
}

fn has_name(targets: &[Target], name: &str) -> bool
    ensures { result ≡ list_any (λ t. bytes_eq t.name name.now) targets.now }
{
    targets.iter().any(|target| target.name.text() == name)
}

impl MapRead {
    fn new(alloc: Global, map: PathText) -> MapRead
        ensures { result ≡ nothing_read map }
    {
        MapRead {
            map,
            targets: List::new(alloc),
            fault: None,
        }
    }

    /// Whether every line was read.
    fn is_whole(&self) -> bool
        ensures { result ≡ is_whole_map self.now }
    {
        self.fault.is_none()
    }

    fn at_fault(self, number: u32) -> MapRead
        ensures { result ≡ at_fault self number }
    {
        MapRead {
            fault: Some(number),
            ..self
        }
    }

    fn declares_like(&self, target: &Target) -> bool
        ensures { result ≡ (is_whole_map self.now && list_any (clashes_of target.now) self.now.targets) }
    {
        self.is_whole() && has_clash(self.targets.items(), target)
    }

    fn declares_name(&self, name: &str) -> bool
        ensures { result ≡ (is_whole_map self.now && list_any (λ t. bytes_eq t.name name.now) self.now.targets) }
    {
        self.is_whole() && has_name(self.targets.items(), name)
    }

    /// The module of a line that says nothing that an earlier map or line says.
    fn new_target(
        &self,
        alloc: Global,
        earlier: &[MapRead],
        line: &[u8],
    ) -> Result<Option<Target>, NoMemory>
        ensures { IfOk result (λ t. t ≡ new_target earlier.now self.now line.now) }
    {
        let Some(target) = read_target(alloc, &self.map, line)? else {
            return Ok(None);
        };
        if declare_like(earlier, &target) || has_clash(self.targets.items(), &target) {
            return Ok(None);
        }
        Ok(Some(target))
    }
}

/// Whether a map without a fault declares a module with this one's name or header.
fn declare_like(maps: &[MapRead], target: &Target) -> bool
    ensures { result ≡ declares (clashes_of target.now) maps.now }
{
    maps.iter().any(|map| map.declares_like(target))
}

/// Whether a map without a fault declares a module of this name.
fn declare_name(maps: &[MapRead], name: &str) -> bool
    ensures { result ≡ declares (λ t. bytes_eq t.name name.now) maps.now }
{
    maps.iter().any(|map| map.declares_name(name))
}

/// Whether the map of this path is among these.
pub(crate) fn is_read(maps: &[MapRead], map: &PathText) -> bool
    ensures { result ≡ is_read_among map.now maps.now }
{
    maps.iter().any(|read| read.map == *map)
}

/// Reads the lines of a map up to the first at fault.
fn read_lines(
    alloc: Global,
    earlier: &[MapRead],
    map: PathText,
    text: &[u8],
) -> Result<MapRead, NoMemory>
    ensures { IfOk result (λ m. m ≡ map_lines earlier.now (nothing_read map) 1 (lines text.now)) }
{
    let mut read = MapRead::new(alloc, map);
    let mut number = 1;
    let mut rest = text;
    while let Some((line, after)) = take_line(rest) {
        let Some(target) = read.new_target(alloc, earlier, line)? else {
            return Ok(read.at_fault(number));
        };
        read.targets.push(target)?;
        number = next_line(number);
        rest = after;
    }
    Ok(read)
}

/// A map as the answer to its path says, after these maps.
pub(crate) fn read_map(
    alloc: Global,
    earlier: &[MapRead],
    map: &PathText,
    answer: &Answer,
) -> Result<MapRead, NoMemory>
    ensures { IfOk result (λ m. m ≡ map_of earlier.now map.now answer.now) }
{
    let map = map.copy(alloc)?;
    match answer {
        Answer::Bytes(bytes) => read_lines(alloc, earlier, map, bytes.items()),
        Answer::Absent | Answer::TooLarge(_) | Answer::Paths(_) => {
            Ok(MapRead::new(alloc, map).at_fault(1))
        }
    }
}

/// Whether the name that a module exports, where it does, is that of a module.
fn is_known(maps: &[MapRead], export: &Export) -> bool
    ensures { result ≡ is_known_among maps.now export.now }
{
    match export {
        Export::Nothing | Export::All => true,
        Export::Module(name) => declare_name(maps, name.text()),
    }
}

/// The first line of a map that exports a name without a module.
fn unknown_export(maps: &[MapRead], targets: &[Target]) -> Option<u32>
    ensures { result ≡ unknown_export_among maps.now 1 targets.now }
{
    let mut number = 1;
    for target in targets {
        if !is_known(maps, &target.export) {
            return Some(number);
        }
        number = next_line(number);
    }
    None
}

/// The first fault of a map, over all that were read.
pub(crate) fn first_fault(maps: &[MapRead], map: &MapRead) -> Option<u32>
    ensures { result ≡ fault_among maps.now map.now }
{
    match unknown_export(maps, map.targets.items()) {
        Some(number) => Some(number),
        None => map.fault,
    }
}
