//! The languages of job files and replay scripts: their bytes as a job or as a list of lines.
#![tactic(auto)]

mod body;
mod bytes;
mod definition;
mod draft;
mod escapes;
mod fault;
mod fields;
mod job;
mod job_line;
mod script;
mod script_line;
#[cfg(test)]
mod tests;

pub use fault::{JobFault, JobKind};
pub use job::{Job, parse_job};
pub use script::parse_script;
pub use script_line::ScriptLine;
