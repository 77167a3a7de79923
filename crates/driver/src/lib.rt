//! The top call: it reads the words, builds a job, or replays a script of edits and builds, and writes
//! the whole output.
#![tactic(auto)]

mod damage;
mod laws;
mod output;
mod play;
mod script;
mod top;
mod words;

pub use build_store::BuildImages;
pub use laws::scripts_are_their_lines;
pub use play::replay;
pub use top::run;
