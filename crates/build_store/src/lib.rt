//! Modules that import modules: what a job's units need, kept in a cache, and the build of a job.
#![tactic(auto)]

mod building;
mod changes;
mod decide;
mod errors;
mod file_turn;
mod finding;
mod header_turn;
mod held;
mod image_laws;
mod images;
mod job;
mod keep;
mod kept;
mod kept_faults;
mod laws;
mod library;
mod loading;
mod map_line;
mod map_read;
mod memo;
mod name_index;
mod names;
mod origin;
mod part;
mod search;
mod settle;
mod slot;
mod sources;
mod store;
mod table;
mod table_laws;
mod turns;
mod units;
mod walk;

pub use building::{Built, build};
pub use changes::{Changes, first_changed};
pub use errors::has_error;
pub use finding::Find;
pub use image_laws::images_are_framed;
pub use images::BuildImages;
pub use job::Job;
pub use keep::keep_file;
pub use kept::{Opened, open};
pub use kept_faults::faults_come_back;
pub use laws::{
    chain_rule, comes_back, depth_is_enough, modules_are_framed, one_outcome, one_outcome_within,
    outcome_is_fold, same_questions, units_are_closed,
};
pub use library::Library;
pub use loading::{Loaded, load};
pub use origin::{Origin, Reason, push_line};
pub use part::Part;
pub use search::find;
pub use slot::ModuleView;
pub use store::{Store, StoreFault};
pub use table::{Export, MapFault, Table, Target};
pub use table_laws::{headers_are_found, modules_differ};
pub use units::UnitText;
