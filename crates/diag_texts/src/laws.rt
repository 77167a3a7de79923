//! What follows from the definitions of the printed lines.

ghost use Rattle.std.specs.Prelude.{◌≡◌, map};
ghost use Rattle.diag_texts.specs.Rows.{number_of, rows, shown_of};

/// Each row of the table of diagnostics is what its number shows: the severity, the number that is
/// shown, and the text.
#[tactic(auto, unfolding(crate::specs::Rows::rows))]
pub fn each_row_is_shown()
    ensures { map shown_of (map number_of rows) ≡ rows }
{}
