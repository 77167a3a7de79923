use cm_core::{List, Str};
use unit_fold::{FaultAt, Named};

/// What a module comes to.
#[derive(Debug, Drop)]
pub struct Part {
    /// The objects of type `int` that its header declares, in order.
    pub objects: List<Named>,
    /// The names of the modules that it imports, in order.
    pub imports: List<Str>,
    /// The diagnostics of its header, in order.
    pub faults: List<FaultAt>,
}
