ghost use Rattle.std.specs.Prelude.{◌≡◌, None};
ghost use Rattle.cm_outside.specs.Faults.{HasCause};

use crate::files::{headers_below, read_file};
use cm_core::PathText;
use cm_outside::{FileAnswer, Tree, TreeFault};
use std::io::{self, ErrorKind};
use std::rt::Files;

/// The real files below the working folder, which is the root. It tells nothing of its contents.
#[derive(Drop)]
pub struct FolderTree<R> {
    rt: R,
    /// How many calls failed; it stays at its last value.
    faults: u64,
}

impl<R> FolderTree<R> {
    pub fn new(rt: R) -> FolderTree<R>
        ensures { result ≡ record { rt = rt; faults = 0 } }
    {
        FolderTree { rt, faults: 0 }
    }

    /// Counts a failure, but for want of memory.
    fn count<T: Drop>(&mut self, answer: io::Result<T>) -> Result<T, TreeFault>
        ensures cause { HasCause self.old.faults self.new.faults result TreeFault.Failed }
    {
        match answer {
            Ok(given) => Ok(given),
            Err(error) if error.kind() == ErrorKind::OutOfMemory => Err(TreeFault::NoMemory),
            Err(_) => {
                self.faults = self.faults.saturating_add(1);
                Err(TreeFault::Failed)
            }
        }
    }
}

impl<R: Files + AllocGlobal + Clone + Drop> Tree for FolderTree<R> {
    ghost contents = { λ _. None };

    ghost faults = { λ t. t.faults };

    ghost reads = { λ _. None };

    fn read(&mut self, path: &PathText) -> Result<FileAnswer, TreeFault> {
        let answer = read_file(&self.rt, path.text());
        self.count(answer)
    }

    fn list(&mut self, folder: &PathText) -> Result<Vec<PathText>, TreeFault> {
        let headers = headers_below(&self.rt, folder.text());
        self.count(headers)
    }
}

#[cfg(test)]
mod tests {
    use super::*;
    use std::alloc::Global;
    use std::fs::{self, File, OpenFile};
    use std::test::Fail;

    /// Makes a folder with two headers, a file that is none, and one of a byte more than is read.
    fn make_folder(rt: &impl Files) -> io::Result<()> {
        fs::create_dir_all(rt, "folder_tree_test/inc/below")?;
        fs::write(rt, "folder_tree_test/inc/m.h", "int m;\n")?;
        fs::write(rt, "folder_tree_test/inc/below/a.h", "")?;
        fs::write(rt, "folder_tree_test/inc/u.c", "int u;\n")?;
        File::create(rt, "folder_tree_test/large")?.set_len(16_777_217)
    }

    fn read(alloc: Global, tree: &mut impl Tree, text: &str) -> Result<FileAnswer, Fail> {
        let path = PathText::read(alloc, text)?;
        Ok(tree.read(&path)?)
    }

    fn has_bytes(
        alloc: Global,
        tree: &mut impl Tree,
        text: &str,
        bytes: &[u8],
    ) -> Result<bool, Fail> {
        match read(alloc, tree, text)? {
            FileAnswer::Bytes(given) => Ok(given.items() == bytes),
            _ => Ok(false),
        }
    }

    fn is_absent(alloc: Global, tree: &mut impl Tree, text: &str) -> Result<bool, Fail> {
        Ok(matches!(read(alloc, tree, text)?, FileAnswer::Absent))
    }

    fn has_size(alloc: Global, tree: &mut impl Tree, text: &str, size: u64) -> Result<bool, Fail> {
        match read(alloc, tree, text)? {
            FileAnswer::TooLarge(given) => Ok(given == size),
            _ => Ok(false),
        }
    }

    fn lists(
        alloc: Global,
        tree: &mut impl Tree,
        text: &str,
        paths: &[&str],
    ) -> Result<bool, Fail> {
        let folder = PathText::read(alloc, text)?;
        let headers = tree.list(&folder)?;
        Ok(
            headers.len() == paths.len()
                && headers
                    .iter()
                    .zip(paths)
                    .all(|(header, path)| header.is(path)),
        )
    }

    #[test]
    fn answers_over_a_real_folder(rt: HostRuntime) -> Result<(), Fail> {
        let alloc = rt.alloc();
        make_folder(&rt)?;
        let mut tree = FolderTree::new(rt);
        assert!(rt; has_bytes(alloc, &mut tree, "folder_tree_test/inc/m.h", b"int m;\n")?);
        for absent in [
            "folder_tree_test/none",
            "folder_tree_test/inc/m.h/none",
            "folder_tree_test/inc",
            ".",
        ] {
            assert!(rt; is_absent(alloc, &mut tree, absent)?, "at {absent}");
        }
        assert!(rt; has_size(alloc, &mut tree, "folder_tree_test/large", 16_777_217)?);
        let headers = ["folder_tree_test/inc/below/a.h", "folder_tree_test/inc/m.h"];
        assert!(rt; lists(alloc, &mut tree, "folder_tree_test", &headers)?);
        assert!(rt; lists(alloc, &mut tree, "folder_tree_test/none", &[])?);
        assert_eq!(rt; tree.faults, 0);
        fs::remove_dir_all(&rt, "folder_tree_test")?;
        Ok(())
    }
}
