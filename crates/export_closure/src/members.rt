ghost use Rattle.std.specs.Prelude.{◌≡◌, ℕ, ◌<◌, ◌==◌, ◌&&◌, [], length, All, IfOk, OnOk};
ghost use Rattle.std.specs.List.{slice_index_or};
ghost use Rattle.export_closure.specs.Closure.{AreRows, exports, is_exported, is_open_child, shows};
ghost use Rattle.export_closure.specs.Flags.{none};
ghost use Rattle.export_closure.specs.Found.{is_found, Tracks, Adds};

use crate::children::children_of;
use crate::exports::is_exported;
use crate::rows::ExportRow;
use crate::visible_set::VisibleSet;
use cm_core::{List, NoMemory, SubNo};
use std::alloc::Global;

/// The submodules found so far: as a set, and in the order in which they were found.
#[derive(Drop)]
pub(crate) struct Members {
    pub set: VisibleSet,
    pub found: Vec<SubNo>,
}

impl Members {
    pub fn new(alloc: Global, n: usize) -> Result<Members, NoMemory>
        ensures none { IfOk result (λ members. members.set ≡ none n) }
        ensures empty { IfOk result (λ members. members.found.items ≡ []) }
    {
        Ok(Members {
            set: VisibleSet::empty(alloc, n as u64)?,
            found: Vec::new(alloc),
        })
    }

    pub fn add(&mut self, sub: SubNo) -> Result<(), NoMemory>
        requires within { sub.index < length self.old.set }
        requires tracks { Tracks self.old }
        ensures adds { OnOk result (Adds self.old self.new (λ at. sub.index == at)) }
        ensures tracks { OnOk result (Tracks self.new) }
    {
        if self.set.has(sub) {
            return Ok(());
        }
        self.found.push(sub)?;
        self.set.put(sub);
        Ok(())
    }

    pub fn add_all(&mut self, subs: &[SubNo]) -> Result<(), NoMemory>
        requires within { All (λ s. s.index < length self.old.set) subs.now }
        requires tracks { Tracks self.old }
        ensures adds { OnOk result (Adds self.old self.new (is_found subs.now)) }
        ensures tracks { OnOk result (Tracks self.new) }
    {
        for sub in subs {
            self.add(*sub)?;
        }
        Ok(())
    }

    /// Adds the imports of the row that it exports.
    pub fn add_exported(&mut self, rows: &[ExportRow], row: &ExportRow) -> Result<(), NoMemory>
        requires rows { AreRows rows.now }
        requires size { length self.old.set ≡ length rows.now }
        requires within { All (λ s. s.index < length rows.now) row.now.imports }
        requires tracks { Tracks self.old }
        ensures adds { OnOk result (Adds self.old self.new (exports rows.now row.now)) }
        ensures tracks { OnOk result (Tracks self.new) }
    {
        for import in row.imports.items() {
            self.add_import(rows, row, *import)?;
        }
        Ok(())
    }

    fn add_import(
        &mut self,
        rows: &[ExportRow],
        row: &ExportRow,
        import: SubNo,
    ) -> Result<(), NoMemory>
        requires rows { AreRows rows.now }
        requires size { length self.old.set ≡ length rows.now }
        requires within { import.index < length rows.now }
        requires tracks { Tracks self.old }
        ensures adds { OnOk result (Adds self.old self.new (λ at. (import.index == at) && is_exported rows.now row.now at)) }
        ensures tracks { OnOk result (Tracks self.new) }
    {
        if is_exported(rows, row, import) {
            self.add(import)?;
        }
        Ok(())
    }

    /// Adds what becomes visible with `sub`, given the submodules of each row that are not explicit.
    pub fn add_shown(
        &mut self,
        rows: &[ExportRow],
        children: &[List<SubNo>],
        sub: SubNo,
    ) -> Result<(), NoMemory>
        requires rows { AreRows rows.now }
        requires size { length self.old.set ≡ length rows.now }
        requires within { sub.index < length rows.now }
        requires tracks { Tracks self.old }
        requires children { (at : ℕ) → is_found (slice_index_or children.now sub.index []) at ≡ is_open_child rows.now sub.index at }
        ensures adds { OnOk result (Adds self.old self.new (shows rows.now sub.index)) }
        ensures tracks { OnOk result (Tracks self.new) }
    {
        let at = sub.index as usize;
        self.add_all(children_of(children, sub))?;
        self.add_exported(rows, &rows[at])?;
        Ok(())
    }
}
