ghost use Rattle.std.specs.Prelude.{◌≡◌};
ghost use Rattle.build_store.specs.Errors.{has_error as has_error_line};

use unit_fold::lines::take_line;

/// Whether an output has a line that begins with `error `.
pub fn has_error(output: &[u8]) -> bool
    ensures { result ≡ has_error_line output.now }
{
    let mut rest = output;
    while let Some((line, after)) = take_line(rest) {
        if line.starts_with(b"error ") {
            return true;
        }
        rest = after;
    }
    false
}
