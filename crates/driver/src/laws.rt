ghost use Rattle.std.specs.Prelude.{◌≡◌, ℕ, false, List as Seq, Ok, Err};
ghost use Rattle.std.specs.List.{list_any};
ghost use Rattle.job_text.specs.declared.fault.JobKind.{JobKind as Kind};
ghost use Rattle.job_text.specs.declared.script_line.ScriptLine.{ScriptLine as Line};
ghost use Rattle.job_text.specs.Scripts.{script_of};
ghost use Rattle.driver.specs.Replay.{asks_for_uses, lines_of_script};

/// Laws of scripts, which are read line by line: this call does nothing, and what it ensures holds of the definitions.
pub fn scripts_are_their_lines()
    // A script that is one as a whole is played as it is, where no line asks for uses.
    ensures accepted { (text : Seq ℕ) (lines : Seq Line) → script_of text ≡ Ok lines → list_any asks_for_uses lines ≡ false → lines_of_script text ≡ Ok lines }
    // One that is refused as a whole is not played.
    ensures refused { (text : Seq ℕ) (n : ℕ) (kind : Kind) → script_of text ≡ Err (n, kind) → (m : ℕ) × (lines_of_script text ≡ Err m) }
{}
