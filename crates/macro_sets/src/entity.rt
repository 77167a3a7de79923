ghost use Rattle.std.specs.Prelude.{◌≡◌};
ghost use Rattle.cm_core.specs.Views as views;
ghost use Rattle.macro_sets.specs.ActiveMacros as spec;

use cm_core::{MacroRef, Owner};

/// Tells whether two references are to one directive. A name has one definition of the job at
/// most, which a unit and a module number differently.
pub(crate) fn same_entity(a: MacroRef, b: MacroRef) -> bool
    ensures { result ≡ spec.same_entity a b }
{
    match (a.owner, b.owner) {
        (Owner::Job, Owner::Job) => true,
        (own, other) => same_owner(own, other) && a.no.number == b.no.number,
    }
}

fn same_owner(a: Owner, b: Owner) -> bool
    ensures { result ≡ views.same_owner a b }
{
    match (a, b) {
        (Owner::Sub(own), Owner::Sub(other)) => own.index == other.index,
        (Owner::Unit, Owner::Unit) => true,
        (Owner::Job, Owner::Job) | (Owner::Builtin, Owner::Builtin) => true,
        _ => false,
    }
}
