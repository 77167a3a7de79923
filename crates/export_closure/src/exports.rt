ghost use Rattle.std.specs.Prelude.{◌≡◌, ◌<◌, length};
ghost use Rattle.export_closure.specs.Closure.{AreRows, lies_in, matches, is_exported};

use crate::rows::{ExportRow, Pattern};
use cm_core::SubNo;

/// Whether the row exports `sub`, where it imports it.
pub(crate) fn is_exported(rows: &[ExportRow], row: &ExportRow, sub: SubNo) -> bool
    requires rows { AreRows rows.now }
    requires within { sub.index < length rows.now }
    ensures { result ≡ is_exported rows.now row.now sub.index }
{
    for pattern in row.exports.items() {
        if matches(rows, *pattern, sub) {
            return true;
        }
    }
    false
}

fn matches(rows: &[ExportRow], pattern: Pattern, sub: SubNo) -> bool
    requires rows { AreRows rows.now }
    requires within { sub.index < length rows.now }
    ensures { result ≡ matches rows.now sub.index pattern }
{
    match pattern {
        Pattern::All => true,
        Pattern::Under(outer) => lies_in(rows, outer, sub),
    }
}

/// Whether `sub` is `outer` or lies inside it.
fn lies_in(rows: &[ExportRow], outer: SubNo, sub: SubNo) -> bool
    requires rows { AreRows rows.now }
    requires within { sub.index < length rows.now }
    ensures { result ≡ lies_in rows.now outer.index (length rows.now) sub.index }
{
    let mut at = sub;
    while at.index != outer.index {
        match rows[at.index as usize].parent {
            Some(parent) => at = parent,
            None => return false,
        }
    }
    true
}
