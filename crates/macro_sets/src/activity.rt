ghost use Rattle.std.specs.Prelude.{◌≡◌, ◌<◌, length, reverse};
ghost use Rattle.macro_sets.specs.ActiveMacros as spec;

use crate::entity::same_entity;
use cm_core::{MacroNode, MacroRef, Sees};

/// Tells whether the directive at `at` is active: it is visible, and no visible one overrides it.
/// `nodes` are the directives of one name.
pub fn active<S: Sees>(nodes: &[MacroNode], at: usize, seen: &S) -> bool
    requires { at < length nodes.now }
    ensures { result ≡ spec.is_active_at (S.seen seen.now) nodes.now at }
{
    is_active(nodes, &nodes[at], seen)
}

pub(crate) fn is_active<S: Sees>(nodes: &[MacroNode], node: &MacroNode, seen: &S) -> bool
    ensures { result ≡ spec.is_active (S.seen seen.now) nodes.now node.now }
{
    seen.sees(node.at.owner) && !is_overridden(nodes, node.at, seen)
}

fn is_overridden<S: Sees>(nodes: &[MacroNode], at: MacroRef, seen: &S) -> bool
    ensures { result ≡ spec.is_overridden (S.seen seen.now) nodes.now at }
{
    is_overridden_from_last(nodes, at, seen)
}

/// A directive is mostly overridden by a later one, so the search begins with the last.
fn is_overridden_from_last<S: Sees>(nodes: &[MacroNode], at: MacroRef, seen: &S) -> bool
    ensures { result ≡ spec.is_overridden (S.seen seen.now) (reverse nodes.now) at }
{
    nodes.iter().rev().any(|node| seen.sees(node.at.owner) && is_listed(at, node.overrides.items()))
}

fn is_listed(at: MacroRef, refs: &[MacroRef]) -> bool
    ensures { result ≡ spec.is_listed at refs.now }
{
    refs.iter().any(|listed| same_entity(at, *listed))
}
