//! The outside as the front end sees it: a tree of files that answers questions, sinks that take
//! bytes, caches of module files, and objects in memory that stand for all three; and a snapshot, which
//! keeps the answers of a tree.
#![tactic(auto)]

mod answers;
mod cache;
#[cfg(test)]
mod cache_tests;
mod cached_files;
#[cfg(test)]
mod copy_tests;
mod files;
mod images;
mod keeper;
mod kept;
mod mem_cache;
mod mem_sink;
mod mem_tree;
mod question;
mod sink;
mod snapshot;
#[cfg(test)]
mod snapshot_tests;
mod sure_cache;
mod sure_sink;
mod sure_tree;
#[cfg(test)]
mod tests;
mod tree;

pub use answers::Answers;
pub use cache::{Cache, CacheEntry, CacheFault, CallAnswer, CallKind};
pub use images::Images;
pub use keeper::Keeper;
pub use mem_cache::MemCache;
pub use mem_sink::MemSink;
pub use mem_tree::MemTree;
pub use question::{Answer, FileAnswer, Question, Record};
pub use sink::{Sink, SinkFault, write_all};
pub use snapshot::Snapshot;
pub use sure_cache::SureCache;
pub use sure_sink::SureSink;
pub use sure_tree::SureTree;
pub use tree::{Tree, TreeFault};
