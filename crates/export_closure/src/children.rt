ghost use Rattle.std.specs.Prelude.{◌≡◌, ℕ, ◌+◌, ◌<◌, ◌≤◌, ◌==◌, ◌&&◌, ◌||◌, max, [], length, IfOk, IfSome, OnOk};
ghost use Rattle.std.specs.List.{slice_index_or};
ghost use Rattle.export_closure.specs.Closure.{AreRows, is_child, is_open_child};
ghost use Rattle.export_closure.specs.Found.{is_found};

use crate::rows::ExportRow;
use cm_core::{List, NoMemory, SubNo};
use std::alloc::Global;

/// The submodules of each row that are not explicit. Rows past the last one with such submodules have no
/// list.
pub(crate) fn open_children(alloc: Global, rows: &[ExportRow]) -> Result<Vec<List<SubNo>>, NoMemory>
    requires { AreRows rows.now }
    ensures size { IfOk result (λ children. length children.items ≤ length rows.now) }
    ensures children { IfOk result (λ children. (parent at : ℕ) → is_found (slice_index_or children.items parent []) at ≡ is_open_child rows.now parent at) }
{
    let mut children = Vec::new(alloc);
    for (at, row) in rows.iter().enumerate() {
        let sub = SubNo { index: at as u64 };
        add_child(alloc, &mut children, row, sub)?;
    }
    Ok(children)
}

/// The list of `sub` among those that `open_children` gives; an empty one where there is none.
pub(crate) fn children_of<'a>(children: &'a [List<SubNo>], sub: SubNo) -> &'a [SubNo]
    ensures { result.now ≡ slice_index_or children.now sub.index [] }
{
    match children.get(sub.index as usize) {
        Some(list) => list.items(),
        None => &[],
    }
}

/// Adds `sub`, whose row is given, to the list of its parent, unless it is explicit.
fn add_child(
    alloc: Global,
    children: &mut Vec<List<SubNo>>,
    row: &ExportRow,
    sub: SubNo,
) -> Result<(), NoMemory>
    requires { IfSome row.now.parent (λ p. p.index < sub.index) }
    ensures size { OnOk result (length children.new.items ≤ max (length children.old.items) sub.index) }
    ensures children { OnOk result ((parent at : ℕ) → is_found (slice_index_or children.new.items parent []) at ≡ (is_found (slice_index_or children.old.items parent []) at || (sub.index == at) && is_child parent row.now)) }
{
    if row.explicit {
        return Ok(());
    }
    let Some(parent) = row.parent else {
        return Ok(());
    };
    add_under(alloc, children, parent, sub)?;
    Ok(())
}

/// Adds `sub` to the list of `parent`, which begins with none where it has no list yet.
fn add_under(
    alloc: Global,
    lists: &mut Vec<List<SubNo>>,
    parent: SubNo,
    sub: SubNo,
) -> Result<(), NoMemory>
    ensures size { OnOk result (length lists.new.items ≤ max (length lists.old.items) (parent.index + 1)) }
    ensures added { OnOk result ((p at : ℕ) → is_found (slice_index_or lists.new.items p []) at ≡ (is_found (slice_index_or lists.old.items p []) at || (sub.index == at) && (parent.index == p))) }
{
    let at = parent.index as usize;
    grow(alloc, lists, at)?;
    lists[at].push(sub)?;
    Ok(())
}

/// Puts empty lists behind the others until there is one at `at`.
fn grow(alloc: Global, lists: &mut Vec<List<SubNo>>, at: usize) -> Result<(), NoMemory>
    ensures there { OnOk result (at < length lists.new.items) }
    ensures size { OnOk result (length lists.new.items ≤ max (length lists.old.items) (at + 1)) }
    ensures same { OnOk result ((p : ℕ) → slice_index_or lists.new.items p [] ≡ slice_index_or lists.old.items p []) }
{
    while lists.len() <= at {
        lists.push(List::new(alloc))?;
    }
    Ok(())
}
