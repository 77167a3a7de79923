ghost use Rattle.std.specs.Prelude.{◌≡◌, MatchResult};
ghost use Rattle.cm_outside.specs.Faults.{HasCause};
ghost use Rattle.cm_outside.specs.Sinks.{TakesFront};
ghost use Rattle.driver.specs.Ends.{EndsWith, IsWhole};

use build_store::has_error;
use cm_core::Status;
use cm_outside::{Sink, SinkFault, write_all};

/// Writes a whole output, and tells how a run with it ends.
pub fn write_output<O: Sink>(output: &[u8], out: &mut O) -> Result<Status, SinkFault>
    ensures output { MatchResult result
        (λ status. EndsWith output.now (O.taken out.old) (O.taken out.new) status × IsWhole status)
        (λ _. TakesFront output.now (O.taken out.old) (O.taken out.new)) }
    ensures cause { HasCause (O.faults out.old) (O.faults out.new) result SinkFault.Failed }
{
    write_all(out, output)?;
    if has_error(output) {
        Ok(Status::Diagnosed)
    } else {
        Ok(Status::Clean)
    }
}
