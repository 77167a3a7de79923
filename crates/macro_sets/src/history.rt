ghost use Rattle.std.specs.Prelude.{◌≡◌, true, [], ◌++◌, map, IfOk, OnOk, OnErr, Some, None};
ghost use Rattle.macro_sets.specs.ActiveMacros as spec;
ghost use Rattle.macro_sets.specs.ActiveMacros.{visible};

use crate::groups::{NameGroups, Position};
use cm_core::{List, MacroBody, MacroNo, MacroNode, MacroRef, NoMemory, Owner, Place, Sees, Str};
use std::alloc::Global;
use std::marker::Model;

/// The `#define`s and `#undef`s of one owner, numbered from 1 in their order; a clause sees the
/// owner and these directives.
#[derive(Drop)]
pub struct History {
    owner: Owner,
    groups: NameGroups,
    order: Vec<Position>,
}

impl Model for History {
    ghost use Rattle.macro_sets.specs.ActiveMacros.{Directives};
    ghost use Rattle.macro_sets.specs.Histories.{in_order, IsHistory};

    ghost Value = { Directives };

    ghost view = { λ h. record { owner = h.owner; nodes = in_order h.groups h.order.items } };

    ghost invariant = { λ h. IsHistory h.owner h.groups h.order.items };
}

impl History {
    pub fn new(alloc: Global, owner: Owner) -> History
        ensures { result ≡ record { owner = owner; nodes = [] } }
    {
        History {
            owner,
            groups: NameGroups::new(alloc),
            order: Vec::new(alloc),
        }
    }

    /// Adds the `#define` of `name` at `place`, the place of its `#`. It overrides the directives in
    /// `before` whose owners are seen, and all earlier ones of the name by this owner. The caller
    /// hands in as `before` directives of this name by other owners alone; the call asks for
    /// neither. The job defines a name once at most. Without memory for it the history stays as it
    /// was.
    pub fn define<S: Sees>(
        &mut self,
        name: &str,
        body: MacroBody,
        place: Place,
        before: &[MacroNode],
        seen: &S,
    ) -> Result<MacroRef, NoMemory>
        ensures number { IfOk result (λ at. at ≡ spec.next_ref self.old) }
        ensures added { OnOk result (self.new ≡ spec.with_node self.old (spec.next_node self.old name.now place (Some body) before.now (S.seen seen.now))) }
        ensures err { OnErr result (self.new ≡ self.old) }
    {
        self.add(name, Some(body), place, before, seen)
    }

    /// Adds the `#undef` of `name` at `place` as `define` adds a `#define`.
    pub fn undef<S: Sees>(
        &mut self,
        name: &str,
        place: Place,
        before: &[MacroNode],
        seen: &S,
    ) -> Result<MacroRef, NoMemory>
        ensures number { IfOk result (λ at. at ≡ spec.next_ref self.old) }
        ensures added { OnOk result (self.new ≡ spec.with_node self.old (spec.next_node self.old name.now place None before.now (S.seen seen.now))) }
        ensures err { OnErr result (self.new ≡ self.old) }
    {
        self.add(name, None, place, before, seen)
    }

    /// The directives of `name` in their order.
    pub fn of(&self, name: &str) -> &[MacroNode]
        ensures named { result.now ≡ spec.named name.now self.now.nodes }
        ensures numbered { spec.is_numbered self.now ≡ true }
    {
        self.groups.of(name)
    }

    /// All directives in the order of their numbers, as a module file holds them.
    pub fn nodes(&self, alloc: Global) -> Result<List<MacroNode>, NoMemory>
        ensures all { IfOk result (λ nodes. nodes ≡ self.now.nodes) }
        ensures numbered { spec.is_numbered self.now ≡ true }
    {
        let mut nodes = List::new(alloc);
        for place in &self.order {
            nodes.push(self.groups.node(*place).copy(alloc)?)?;
        }
        Ok(nodes)
    }

    fn add<S: Sees>(
        &mut self,
        name: &str,
        body: Option<MacroBody>,
        place: Place,
        before: &[MacroNode],
        seen: &S,
    ) -> Result<MacroRef, NoMemory>
        ensures number { IfOk result (λ at. at ≡ spec.next_ref self.old) }
        ensures added { OnOk result (self.new ≡ spec.with_node self.old (spec.next_node self.old name.now place body before.now (S.seen seen.now))) }
        ensures err { OnErr result (self.new ≡ self.old) }
    {
        let node = self.next_node(name, body, place, before, seen)?;
        let at = node.at;
        self.keep(name, node)?;
        Ok(at)
    }

    fn next_node<S: Sees>(
        &self,
        name: &str,
        body: Option<MacroBody>,
        place: Place,
        before: &[MacroNode],
        seen: &S,
    ) -> Result<MacroNode, NoMemory>
        ensures { IfOk result (λ node. node ≡ spec.next_node self.now name.now place body before.now (S.seen seen.now)) }
    {
        let alloc = self.groups.allocator();
        let overrides = overridden(alloc, before, self.groups.of(name), seen)?;
        Ok(MacroNode {
            at: MacroRef {
                owner: self.owner,
                no: MacroNo {
                    number: self.order.len() as u64 + 1,
                },
            },
            name: Str::read(alloc, name)?,
            place,
            body,
            overrides,
        })
    }

    fn keep(&mut self, name: &str, node: MacroNode) -> Result<(), NoMemory>
        requires name { node.name ≡ name.now }
        requires number { node.at ≡ spec.next_ref self.now }
        ensures ok { OnOk result (self.new ≡ spec.with_node self.old node) }
        ensures err { OnErr result (self.new ≡ self.old) }
    {
        // Room for its place comes first, so that nothing is refused once the directive is there.
        self.order.reserve(1)?;
        let position = self.groups.push(name, node)?;
        self.order.push(position)?;
        Ok(())
    }
}

/// The references of the visible directives of `before` and of all of `own`.
fn overridden<S: Sees>(
    alloc: Global,
    before: &[MacroNode],
    own: &[MacroNode],
    seen: &S,
) -> Result<List<MacroRef>, NoMemory>
    ensures { IfOk result (λ refs. refs ≡ map (λ node. node.at) (visible (S.seen seen.now) before.now ++ own.now)) }
{
    let mut refs = visible_refs(alloc, before, seen)?;
    for node in own {
        refs.push(node.at)?;
    }
    Ok(refs)
}

fn visible_refs<S: Sees>(
    alloc: Global,
    before: &[MacroNode],
    seen: &S,
) -> Result<List<MacroRef>, NoMemory>
    ensures { IfOk result (λ refs. refs ≡ map (λ node. node.at) (visible (S.seen seen.now) before.now)) }
{
    let mut refs = List::new(alloc);
    for node in before {
        if seen.sees(node.at.owner) {
            refs.push(node.at)?;
        }
    }
    Ok(refs)
}
