ghost use Rattle.std.specs.Prelude.{◌≡◌, IfOk, OnOk, OnErr};
ghost use Rattle.std.specs.Option.{option_map};
ghost use Rattle.driver.specs.KeptFronts.{dropped, front_in, name_at, torn, torn_named};

use build_store::BuildImages;
use cm_core::{NoMemory, Str};
use cm_outside::{Cache, SureCache};
use std::alloc::Global;

/// The kept files of a replay.
pub type Kept = SureCache<BuildImages>;

/// The name of the file of a number, from 0 in byte order of names.
fn name_of(alloc: Global, cache: &mut Kept, number: u64) -> Result<Option<Str>, NoMemory>
    ensures name { IfOk result (λ name. name ≡ name_at number cache.old.files) }
    ensures kept { cache.new.files ≡ cache.old.files }
{
    let Ok(names) = cache.names() else {
        return Err(NoMemory);
    };
    match names.get(number as usize) {
        Some(name) => Ok(Some(name.copy(alloc)?)),
        None => Ok(None),
    }
}

/// Removes the file of a number, if it is there.
pub fn drop_file(alloc: Global, cache: &mut Kept, number: u64) -> Result<(), NoMemory>
    ensures files { OnOk result (cache.new.files ≡ dropped number cache.old.files) }
    ensures refused { OnErr result (cache.new.files ≡ cache.old.files) }
{
    match name_of(alloc, cache, number)? {
        Some(name) => {
            let _ = cache.remove(name.text());
            Ok(())
        }
        None => Ok(()),
    }
}

/// The first bytes of a file, if it is there and longer.
fn front_of(
    alloc: Global,
    cache: &Kept,
    name: &str,
    length: u64,
) -> Result<Option<Vec<u8>>, NoMemory>
    ensures { IfOk result (λ front. option_map (λ bytes. bytes.items) front ≡ front_in name.now length cache.now.files) }
{
    match cache.file(name) {
        Some(bytes) if (length as usize) < bytes.len() => {
            Ok(Some(Vec::from_slice(alloc, &bytes[..length as usize])?))
        }
        _ => Ok(None),
    }
}

/// Cuts a file to so many bytes, if it is there and longer.
fn tear_named(
    alloc: Global,
    cache: &mut Kept,
    name: Option<Str>,
    length: u64,
) -> Result<(), NoMemory>
    ensures files { OnOk result (cache.new.files ≡ torn_named length name cache.old.files) }
    ensures refused { OnErr result (cache.new.files ≡ cache.old.files) }
{
    let Some(name) = name else {
        return Ok(());
    };
    match front_of(alloc, cache, name.text(), length)? {
        Some(front) => cache.set(name.text(), Some(front.as_slice())),
        None => Ok(()),
    }
}

/// Cuts the file of a number to so many bytes, if it is there and longer.
pub fn tear(alloc: Global, cache: &mut Kept, number: u64, length: u64) -> Result<(), NoMemory>
    ensures files { OnOk result (cache.new.files ≡ torn number length cache.old.files) }
    ensures refused { OnErr result (cache.new.files ≡ cache.old.files) }
{
    let name = name_of(alloc, cache, number)?;
    tear_named(alloc, cache, name, length)
}
