ghost use Rattle.std.specs.Prelude.{◌≡◌, None, IsErr, IsOk};
ghost use Rattle.cm_outside.specs.Faults.{HasCause};
ghost use Rattle.cm_outside.specs.InMemory.{CountsFaults};

use crate::cache_files::{file_names, file_part, file_size, remove_file, replace_file};
use cm_core::Str;
use cm_outside::{Cache, CacheFault, Images};
use std::io::{self, ErrorKind};
use std::marker::PhantomData;
use std::rt::Files;

/// The files of the folder `.modc-cache` below the working folder. It tells nothing of them, and that
/// they are honest is the user's word.
#[derive(Drop)]
pub struct FolderCache<R, I: Images> {
    rt: R,
    /// A number that no other build that runs over the folder has.
    writer: u32,
    /// How many calls failed; it stays at its last value.
    faults: u64,
    images: PhantomData<I>,
}

impl<R, I: Images> FolderCache<R, I> {
    /// The cache of a build. The number `writer`, as that of its process, is of no other build that runs
    /// over the folder.
    pub fn new(rt: R, writer: u32) -> FolderCache<R, I>
        ensures runtime { result.rt ≡ rt }
        ensures writer { result.writer ≡ writer }
        ensures faults { result.faults ≡ 0 }
    {
        FolderCache {
            rt,
            writer,
            faults: 0,
            images: PhantomData,
        }
    }

    /// Counts a failure, but for want of memory.
    fn count<T: Drop>(&mut self, answer: io::Result<T>) -> Result<T, CacheFault>
        ensures given { (given : T) → answer ≡ Ok given → result ≡ Ok given }
        ensures refused { IsErr answer → IsErr result }
        ensures cause { HasCause self.old.faults self.new.faults result CacheFault.Failed }
        ensures once { CountsFaults self.old.faults self.new.faults result CacheFault.Failed }
    {
        match answer {
            Ok(given) => Ok(given),
            Err(error) if error.kind() == ErrorKind::OutOfMemory => Err(CacheFault::NoMemory),
            Err(_) => {
                self.faults = self.faults.saturating_add(1);
                Err(CacheFault::Failed)
            }
        }
    }
}

impl<R: Files + AllocGlobal + Clone + Drop, I: Images> Cache for FolderCache<R, I> {
    type Named = I;

    ghost files = { λ _. None };

    ghost honest = { λ _. ⊥ };

    ghost faults = { λ c. c.faults };

    ghost taken = { λ _. None };

    ghost trail = { λ _. None };

    ghost given = { λ _ _. Unit {0} };

    ghost honest_gives = { λ _ honest. absurd honest };

    ghost honest_piece = { λ _ honest. absurd honest };

    fn size(&mut self, name: &str) -> Result<Option<u64>, CacheFault> {
        let size = file_size(&self.rt, name);
        self.count(size)
    }

    fn read_at(&mut self, name: &str, at: u64, len: u64) -> Result<Option<Vec<u8>>, CacheFault> {
        let part = file_part(&self.rt, name, at, len);
        self.count(part)
    }

    fn replace(&mut self, name: &str, bytes: &[u8]) -> Result<(), CacheFault> {
        let replaced = replace_file(&self.rt, self.writer, name, bytes);
        self.count(replaced)
    }

    fn remove(&mut self, name: &str) -> Result<(), CacheFault> {
        let removed = remove_file(&self.rt, name);
        self.count(removed)
    }

    fn names(&mut self) -> Result<Vec<Str>, CacheFault> {
        let names = file_names(&self.rt);
        self.count(names)
    }
}

#[cfg(test)]
mod tests {
    use super::*;
    use std::fs::{self, Permissions};
    use std::os::unix::fs::{PermissionsExt, symlink};
    use std::test::Fail;

    /// Images of which nothing is said.
    struct AnyBytes;

    impl Images for AnyBytes {
        ghost is_image = { λ _. ⊥ };

        ghost is_true = { λ _. ⊥ };

        ghost is_sealed = { λ _. ⊥ };

        ghost is_piece = { λ _ _ _. ⊥ };

        ghost image_is_true = { λ _ image. image };

        ghost front_is_true = { λ _ _ image _. image };

        ghost piece_is_true = { λ _ _ _ _ _ _ _ _ sealed _ _ _ _. sealed };
    }

    const FOLDER: &str = ".modc-cache";

    /// Names that builds give, in byte order.
    const EMPTY: &str = "00112233445566778899aabbccddeeff00112233445566778899aabbccddeeff.cmod";

    const DIGITS: &str = "0f112233445566778899aabbccddeeff00112233445566778899aabbccddeeff.cmod";

    const BELOW: &str = "10112233445566778899aabbccddeeff00112233445566778899aabbccddeeff.cmod";

    const LINK: &str = "a0112233445566778899aabbccddeeff00112233445566778899aabbccddeeff.cmod";

    const HALF: &str = "f0112233445566778899aabbccddeeff00112233445566778899aabbccddeeff.cmod";

    fn gives(
        cache: &mut impl Cache,
        name: &str,
        (at, len): (u64, u64),
        want: Option<&[u8]>,
    ) -> Result<bool, Fail> {
        match (cache.read_at(name, at, len)?, want) {
            (Some(part), Some(bytes)) => Ok(part.as_slice() == bytes),
            (None, None) => Ok(true),
            _ => Ok(false),
        }
    }

    fn has_names(cache: &mut impl Cache, want: &[&str]) -> Result<bool, Fail> {
        let names = cache.names()?;
        Ok(names.len() == want.len() && names.iter().zip(want).all(|(name, text)| name.is(text)))
    }

    /// Whether no file has this name.
    fn is_absent(cache: &mut impl Cache, name: &str) -> Result<bool, Fail> {
        Ok(cache.size(name)?.is_none() && gives(cache, name, (0, 8), None)?)
    }

    /// Whether each call that takes this name fails.
    fn fails_at(cache: &mut impl Cache, name: &str) -> bool {
        matches!(cache.size(name), Err(CacheFault::Failed))
            && matches!(cache.read_at(name, 0, 1), Err(CacheFault::Failed))
            && fails_to_replace(cache, name)
            && matches!(cache.remove(name), Err(CacheFault::Failed))
    }

    fn fails_to_replace(cache: &mut impl Cache, name: &str) -> bool {
        matches!(cache.replace(name, b"x"), Err(CacheFault::Failed))
    }

    /// Whether the folder has this many entries.
    fn has_entries(rt: &HostRuntime, want: usize) -> Result<bool, Fail> {
        Ok(fs::read_dir(rt, FOLDER)?.count() == want)
    }

    /// Whether the parts of a file of ten bytes are given, none past its end.
    fn gives_parts(cache: &mut impl Cache, name: &str) -> Result<bool, Fail> {
        Ok(
            gives(cache, name, (0, 10), Some(b"0123456789"))?
                && gives(cache, name, (3, 4), Some(b"3456"))?
                && gives(cache, name, (8, 100), Some(b"89"))?
                && gives(cache, name, (10, 1), Some(b""))?
                && gives(cache, name, (3, 0), Some(b""))?
                && gives(cache, name, (u64::MAX, u64::MAX), Some(b""))?,
        )
    }

    fn put(rt: &HostRuntime, name: &str, bytes: &str) -> io::Result<()> {
        let path = format!(in rt.alloc(); "{FOLDER}/{name}")?;
        fs::write(rt, path.as_str(), bytes)
    }

    /// Puts there what is no file of a build: texts of the user's, a folder, a link, and a half of the file
    /// that a build was writing when it was killed.
    fn put_others(rt: &HostRuntime) -> io::Result<()> {
        put(rt, "notes.txt", "mine")?;
        put(rt, "notes.cmod", "mine")?;
        let folder = format!(in rt.alloc(); "{FOLDER}/{BELOW}")?;
        fs::create_dir_all(rt, folder.as_str())?;
        let link = format!(in rt.alloc(); "{FOLDER}/{LINK}")?;
        symlink(rt, DIGITS, link.as_str())?;
        let half = format!(in rt.alloc(); "{HALF}.1.tmp")?;
        put(rt, half.as_str(), "01234")
    }

    /// Whether no call takes these for module files.
    fn passes_others_over(cache: &mut impl Cache) -> Result<bool, Fail> {
        Ok(
            is_absent(cache, HALF)?
                && is_absent(cache, LINK)?
                && is_absent(cache, BELOW)?
                && has_names(cache, &[EMPTY, DIGITS])?,
        )
    }

    /// Whether a build that has the number of the killed one writes the file anew.
    fn writes_half_anew(cache: &mut impl Cache) -> Result<bool, Fail> {
        cache.replace(HALF, b"whole")?;
        let whole = gives(cache, HALF, (0, 8), Some(b"whole"))?;
        cache.remove(HALF)?;
        Ok(whole)
    }

    /// Whether a file cannot be put into the folder, by the cache and by the system alike, while the folder
    /// has this mode. A user who may do all is refused nothing.
    fn refuses_files(
        rt: &HostRuntime,
        cache: &mut impl Cache,
        mode: u32,
    ) -> Result<Option<bool>, Fail> {
        fs::set_permissions(rt, FOLDER, Permissions::from_mode(mode))?;
        let refused = put(rt, "notes.new", "").is_err();
        let failed = fails_to_replace(cache, EMPTY);
        fs::set_permissions(rt, FOLDER, Permissions::from_mode(0o755))?;
        Ok(if failed == refused {
            Some(failed)
        } else {
            None
        })
    }

    #[test]
    fn keeps_files_in_a_real_folder(rt: HostRuntime) -> Result<(), Fail> {
        let mut cache = FolderCache::<HostRuntime, AnyBytes>::new(rt, 1);
        cache.remove(DIGITS)?;
        assert!(rt; is_absent(&mut cache, DIGITS)?);
        assert!(rt; has_names(&mut cache, &[])?);

        cache.replace(DIGITS, b"an older and longer file")?;
        cache.replace(DIGITS, b"0123456789")?;
        cache.replace(EMPTY, b"")?;
        assert_eq!(rt; cache.size(DIGITS)?, Some(10));
        assert!(rt; gives_parts(&mut cache, DIGITS)?);
        assert!(rt; has_entries(&rt, 2)?);
        put_others(&rt)?;
        assert!(rt; passes_others_over(&mut cache)?);
        assert!(rt; has_entries(&rt, 7)?);
        assert!(rt; writes_half_anew(&mut cache)?);
        assert!(rt; has_entries(&rt, 6)?);
        cache.remove(DIGITS)?;
        assert!(rt; is_absent(&mut cache, DIGITS)?);
        assert_eq!(rt; cache.faults, 0);

        // A file that cannot be put under its name is not left beside it.
        assert!(rt; fails_to_replace(&mut cache, BELOW));
        assert!(rt; has_entries(&rt, 5)?);
        for name in ["", ".", "..", "/notes.txt", "../notes.txt"] {
            assert!(rt; fails_at(&mut cache, name), "at {name}");
        }
        assert_eq!(rt; cache.faults, 21);
        let notes = fs::read_to_string(&rt, ".modc-cache/notes.cmod")?;
        assert_eq!(rt; notes.as_str(), "mine");
        for mode in [0o555, 0o000] {
            let before = cache.faults;
            let refused = refuses_files(&rt, &mut cache, mode)?;
            let counted = cache.faults.checked_sub(before);
            assert_eq!(rt; counted, refused.map(u64::from), "at {mode}");
        }

        fs::remove_dir_all(&rt, FOLDER)?;
        fs::write(&rt, FOLDER, "in the way")?;
        let before = cache.faults;
        assert!(rt; fails_at(&mut cache, DIGITS));
        assert!(rt; matches!(cache.names(), Err(CacheFault::Failed)));
        assert_eq!(rt; cache.faults.checked_sub(before), Some(5));
        fs::remove_file(&rt, FOLDER)?;
        Ok(())
    }
}
