use cm_core::Str;

/// A declared name of a submodule, with the number of the declaration.
#[derive(Debug, Drop)]
pub struct Row {
    pub name: Str,
    /// Counted from 1.
    pub number: u64,
}
