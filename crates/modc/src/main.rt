//! The program `modc`: the real files, the standard streams and the words of the command line, handed
//! to the top call.
#![tactic(auto)]

mod cache_files;
mod files;
mod folder_cache;
mod folder_tree;
mod std_sink;

use crate::folder_cache::FolderCache;
use crate::folder_tree::FolderTree;
use crate::std_sink::StdSink;
use cm_core::{NoMemory, Status, Steps};
use driver::run;
use std::env;
use std::io::ErrorKind;
use std::process::{self, ExitCode};
use std::rt::Runtime;

/// The words after the program's name. A word that is not UTF-8 leaves none, and so no form.
fn words<R: Runtime + AllocGlobal>(rt: &R) -> Result<Vec<String>, NoMemory> {
    match env::args(rt) {
        Ok(words) => Ok(words.skip(1).collect(rt.alloc())?),
        Err(error) if error.kind() == ErrorKind::OutOfMemory => Err(NoMemory),
        Err(_) => Ok(Vec::new(rt.alloc())),
    }
}

/// Runs the words over the working folder and the standard streams.
fn run_words(rt: &HostRuntime) -> Status {
    let Ok(words) = words(rt) else {
        return Status::NoMemory;
    };
    let mut tree = FolderTree::new(*rt);
    let mut cache = FolderCache::new(*rt, process::id(rt.process()));
    let mut out = StdSink::new(rt.stdout());
    let mut report = StdSink::new(rt.stderr());
    run(
        rt.alloc(),
        &words,
        &mut tree,
        &mut cache,
        &mut out,
        &mut report,
        &mut Steps::new(),
    )
}

fn main(rt: HostRuntime) -> ExitCode {
    ExitCode::from(run_words(&rt).code())
}
