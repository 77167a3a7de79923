//! Macros across modules: the history of an owner's `#define`s and `#undef`s, which of the
//! directives of a name are active, and what the name means by them.
#![tactic(auto)]

mod activity;
mod ambiguity;
mod definition;
mod entity;
mod groups;
mod history;
mod laws;
mod meanings;

pub use activity::active;
pub use ambiguity::meaning;
pub use definition::same_definition;
pub use history::History;
pub use laws::{
    a_directive_that_overrides_all_decides, a_new_directive_decides,
    a_new_directive_overrides_the_visible_ones, a_new_directive_overrides_those_of_its_name,
    ambiguous_where_two_differ, same_definitions_are_an_equivalence, the_first_in_order_is_meant,
    the_number_of_the_job_does_not_matter, unseen_directives_do_not_matter,
};
pub use meanings::Meaning;

#[cfg(test)]
mod tests;
