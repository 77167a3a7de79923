use cm_core::MacroRef;

/// What a macro name means where it stands.
#[derive(Clone, Copy, Debug, PartialEq, Eq)]
pub enum Meaning {
    /// No `#define` of it is active.
    None,
    /// The first of its active `#define`s, which are all the same definition.
    Macro(MacroRef),
    /// The first of its active `#define`s, and the first that is another definition.
    Ambiguous(MacroRef, MacroRef),
}
