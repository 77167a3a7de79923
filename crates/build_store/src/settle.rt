ghost use Rattle.std.specs.Prelude.{◌≡◌, ◌++◌, IfOk, OnOk};
ghost use Rattle.build_store.specs.Tables.{settled, with_map as table_with};

use crate::map_read::{MapRead, first_fault};
use crate::table::{MapFault, Table, Target};
use cm_core::{List, NoMemory};
use std::alloc::Global;

/// Adds copies of modules to others.
fn push_copies(alloc: Global, targets: &mut List<Target>, more: &[Target]) -> Result<(), NoMemory>
    ensures { OnOk result (targets.new ≡ targets.old ++ more.now) }
{
    for target in more {
        targets.push(target.copy(alloc)?)?;
    }
    Ok(())
}

/// Adds what a map declares, or its fault.
fn add_map(
    alloc: Global,
    table: &mut Table,
    map: &MapRead,
    fault: Option<u32>,
) -> Result<(), NoMemory>
    ensures { OnOk result (table.new ≡ table_with table.old map.now fault) }
{
    match fault {
        None => push_copies(alloc, &mut table.targets, map.targets.items()),
        Some(line) => {
            let map = map.map.copy(alloc)?;
            table.faults.push(MapFault { map, line })
        }
    }
}

/// The table of maps that were read.
pub(crate) fn settle(alloc: Global, maps: &[MapRead]) -> Result<Table, NoMemory>
    ensures { IfOk result (λ t. t ≡ settled maps.now) }
{
    let mut table = Table {
        targets: List::new(alloc),
        faults: List::new(alloc),
    };
    for map in maps {
        add_map(alloc, &mut table, map, first_fault(maps, map))?;
    }
    Ok(table)
}
