use cm_core::{Place, Str};

/// A name, an id or a string, and its place.
#[derive(Debug, Drop)]
pub(crate) struct Named {
    pub(crate) text: Str,
    pub(crate) place: Place,
}
