/// What an include finds.
#[derive(Clone, Copy, Debug, Drop, PartialEq, Eq)]
pub enum Find {
    /// No file.
    Nothing,
    /// A file that is no module's header.
    Plain,
    /// The header of the module with this number.
    Header(usize),
}
