ghost use Rattle.std.specs.Prelude.{◌≡◌, ◌&&◌, find};
ghost use Rattle.std.specs.Option.{option_copied};
ghost use Rattle.macro_sets.specs.ActiveMacros as spec;

use crate::activity::is_active;
use crate::definition::same_definition;
use crate::meanings::Meaning;
use cm_core::{MacroNode, Sees};

/// What a name means whose directives are `nodes`, in the order of the job, the submodules by
/// number and the owner itself, and of each in the order of its numbers.
pub fn meaning<S: Sees>(nodes: &[MacroNode], seen: &S) -> Meaning
    ensures { result ≡ spec.meaning_of (S.seen seen.now) nodes.now }
{
    let Some(first) = first_define(nodes, seen) else {
        return Meaning::None;
    };
    match first_other(first, nodes, seen) {
        None => Meaning::Macro(first.at),
        Some(other) => Meaning::Ambiguous(first.at, other.at),
    }
}

/// The first active `#define`.
fn first_define<'n, S: Sees>(nodes: &'n [MacroNode], seen: &S) -> Option<&'n MacroNode>
    ensures { option_copied result ≡ find (spec.is_active_define (S.seen seen.now) nodes.now) nodes.now }
{
    nodes
        .iter()
        .find(|node| is_active_define(nodes, node, seen))
}

/// The first active `#define` of another definition than `first` has.
fn first_other<'n, S: Sees>(
    first: &MacroNode,
    nodes: &'n [MacroNode],
    seen: &S,
) -> Option<&'n MacroNode>
    ensures { option_copied result ≡ find (λ node. spec.differ first.now node && spec.is_active_define (S.seen seen.now) nodes.now node) nodes.now }
{
    nodes.iter().find(|node| differ(first, node) && is_active_define(nodes, node, seen))
}

fn is_active_define<S: Sees>(nodes: &[MacroNode], node: &MacroNode, seen: &S) -> bool
    ensures { result ≡ spec.is_active_define (S.seen seen.now) nodes.now node.now }
{
    node.body.is_some() && is_active(nodes, node, seen)
}

fn differ(a: &MacroNode, b: &MacroNode) -> bool
    ensures { result ≡ spec.differ a.now b.now }
{
    match (&a.body, &b.body) {
        (Some(own), Some(other)) => !same_definition(own, other),
        _ => false,
    }
}
