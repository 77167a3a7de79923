ghost use Rattle.std.specs.Prelude.{◌≡◌, [], IsSome, IfOk, OnErr};
ghost use Rattle.macro_sets.specs.Histories.{group_of, node_at, place_of, pushed};

use cm_core::{List, MacroNode, NoMemory};
use indexmap::IndexMap;
use std::alloc::Global;
use std::marker::Model;

/// The place of a directive: the number of its name's group, and its number there, both from 0.
#[derive(Clone, Copy, Debug)]
pub(crate) struct Position {
    pub(crate) group: usize,
    pub(crate) at: usize,
}

/// The directives of each name together, found by name in constant expected time; a clause sees
/// the names in the order in which they came, each with its directives.
#[derive(Drop)]
pub(crate) struct NameGroups {
    map: IndexMap<String, List<MacroNode>>,
}

impl Model for NameGroups {
    ghost use Rattle.std.specs.Prelude.{map as mapped, string_bytes};
    ghost use Rattle.macro_sets.specs.Histories.{Groups};

    ghost Value = { Groups };

    ghost view = { λ g. mapped (λ entry. (string_bytes entry.0, entry.1)) g.map.entries };
}

impl NameGroups {
    pub(crate) fn new(alloc: Global) -> NameGroups
        ensures { result ≡ [] }
    {
        NameGroups {
            map: IndexMap::new(alloc),
        }
    }

    pub(crate) fn allocator(&self) -> Global {
        *self.map.allocator()
    }

    pub(crate) fn of(&self, name: &str) -> &[MacroNode]
        ensures { result.now ≡ group_of self.now name.now }
    {
        match self.map.get(name) {
            Some(nodes) => nodes.items(),
            None => &[],
        }
    }

    /// The directive at a place that `push` gave.
    pub(crate) fn node(&self, place: Position) -> &MacroNode
        requires { IsSome (node_at self.now place) }
        ensures { node_at self.now place ≡ Some result.now }
    {
        let (_, nodes) = self.map.get_index(place.group).unwrap();
        &nodes.items()[place.at]
    }

    /// Adds a directive of `name` and returns its place; without memory for it nothing changes.
    pub(crate) fn push(&mut self, name: &str, node: MacroNode) -> Result<Position, NoMemory>
        ensures place { IfOk result (λ place. place ≡ place_of self.old name.now) }
        ensures pushed { IfOk result (λ _. self.new ≡ pushed self.old name.now node) }
        ensures err { OnErr result (self.new ≡ self.old) }
    {
        match self.map.get_index_of(name) {
            Some(group) => {
                let nodes = self.map.get_index_mut(group).unwrap();
                let at = nodes.len();
                nodes.push(node)?;
                Ok(Position { group, at })
            }
            None => {
                let alloc = *self.map.allocator();
                let mut nodes = List::new(alloc);
                nodes.push(node)?;
                let (group, _) = self.map.insert_full(String::from_str(alloc, name)?, nodes)?;
                Ok(Position { group, at: 0 })
            }
        }
    }
}
