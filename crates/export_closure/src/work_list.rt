ghost use Rattle.std.specs.Prelude.{◌≡◌, ℕ, ◌<◌, [], length, IfOk};
ghost use Rattle.export_closure.specs.Closure as spec;

use crate::children::open_children;
use crate::members::Members;
use crate::rows::ExportRow;
use crate::visible_set::VisibleSet;
use cm_core::{NoMemory, SubNo};
use std::alloc::Global;

/// What an import of `from` makes visible, over one row for each submodule of the build: `from`, its
/// submodules that are not explicit, the imports that these export, and so on until nothing is new.
///
/// `from` and each number in the rows are numbers of rows, and a parent's row stands before its child's.
pub fn closure(alloc: Global, rows: &[ExportRow], from: SubNo) -> Result<VisibleSet, NoMemory>
    requires from { from.index < length rows.now }
    requires rows { spec.AreRows rows.now }
    ensures { IfOk result (λ set. set ≡ spec.closure rows.now from.index) }
{
    let children = open_children(alloc, rows)?;
    let mut members = Members::new(alloc, rows.len())?;
    members.add(from)?;
    let mut done = 0;
    while done < members.found.len() {
        let sub = members.found[done];
        members.add_shown(rows, children.as_slice(), sub)?;
        done += 1;
    }
    Ok(members.set)
}
