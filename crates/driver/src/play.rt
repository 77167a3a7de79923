ghost use Rattle.std.specs.Prelude.{◌≡◌, ◌∷◌, ◌++◌, [], ℕ, List as Seq, IfOk, OnOk, Some};
ghost use Rattle.std.specs.Fmt.{decimal};
ghost use Rattle.cm_core.specs.declared.status.Status.TheVariants.{ReadFault, WriteFault};
ghost use Rattle.cm_outside.specs.Asks.{value};
ghost use Rattle.cm_outside.specs.Caches.{with_file};
ghost use Rattle.cm_outside.specs.Faults.{HasCause};
ghost use Rattle.cm_outside.specs.Trees.{Contents, answer as answer_of, read_answer};
ghost use Rattle.cm_outside.specs.declared.question.Answer.TheVariants.{Bytes};
ghost use Rattle.cm_outside.specs.declared.question.Question.TheVariants.{Read};
ghost use Rattle.build_store.specs.CleanBuild.{clean_build};
ghost use Rattle.build_store.specs.Stores.{PutsEachOnce};
ghost use Rattle.driver.specs.Counted.{IsCounted, IsCountedBuild, IsCountedLine, lines_or_none, played};
ghost use Rattle.driver.specs.Ends.{EndsWith, HasFault, IsWhole};
ghost use Rattle.driver.specs.KeptFronts.{AreFronts};
ghost use Rattle.driver.specs.Replay.{clean_replay, files_after, lines_of_script, output_of, output_of_lines, replay_of, replay_of_lines, replay_of_text, script_fault, tree_of};

use crate::damage::{Kept, drop_file, tear};
use crate::output::write_output;
use crate::script::{read_script, text_of};
use build_store::build;
use cm_core::{Diag, Files, List, NoMemory, PathText, Place, Status, Steps, Str};
use cm_outside::{FileAnswer, MemTree, Sink, SinkFault, SureCache, Tree, TreeFault};
use diag_texts::render;
use job_text::ScriptLine;
use std::alloc::Global;
use unit_fold::line_fault::LineFault;

/// Puts a file there, in the place of one of that path.
fn write_file(tree: &mut MemTree, path: &PathText, bytes: &[u8]) -> Result<(), NoMemory>
    ensures { OnOk result (tree.new.files ≡ with_file path.now bytes.now tree.old.files) }
{
    tree.unset(path);
    tree.set(path, bytes)
}

/// Builds a job over the files present, and adds its whole output.
fn build_line(
    alloc: Global,
    tree: &mut MemTree,
    kept: &mut Kept,
    out: &mut Vec<u8>,
    job: &PathText,
    steps: &mut Steps,
) -> Result<(), NoMemory>
    ensures files { tree.new.files ≡ tree.old.files }
    ensures fronts { AreFronts kept.old.files → AreFronts kept.new.files }
    ensures output { AreFronts kept.old.files → OnOk result (out.new.items ≡ out.old.items ++ clean_build job.now (answer_of (tree_of tree.old.files))) }
    ensures count { AreFronts kept.old.files → OnOk result (IsCountedBuild tree.old.files kept.old.files job.now steps.old.compiles steps.new.compiles kept.new.files) }
{
    match build(alloc, tree, kept, steps, job) {
        Ok(built) => {
            out.extend_from_slice(&built.text)?;
            Ok(())
        }
        // No call of the tree is told to fail: memory ran out.
        Err(_) => Err(NoMemory),
    }
}

/// Plays a line, and adds what it writes.
fn play_line(
    alloc: Global,
    tree: &mut MemTree,
    kept: &mut Kept,
    out: &mut Vec<u8>,
    line: &ScriptLine,
    steps: &mut Steps,
) -> Result<(), NoMemory>
    ensures files { OnOk result (tree.new.files ≡ files_after tree.old.files line.now) }
    ensures fronts { AreFronts kept.old.files → AreFronts kept.new.files }
    ensures output { AreFronts kept.old.files → OnOk result (out.new.items ≡ out.old.items ++ output_of tree.old.files line.now) }
    ensures count { AreFronts kept.old.files → OnOk result (IsCountedLine tree.old.files kept.old.files line.now steps.old.compiles steps.new.compiles kept.new.files) }
{
    match line {
        ScriptLine::Write(path, bytes) => write_file(tree, path, bytes.items()),
        ScriptLine::Remove(path) => {
            tree.unset(path);
            Ok(())
        }
        ScriptLine::Tear(number, length) => tear(alloc, kept, *number, *length),
        ScriptLine::Drop(number) => drop_file(alloc, kept, *number),
        ScriptLine::Build(job, _) => build_line(alloc, tree, kept, out, job, steps),
    }
}

/// What lines write, over a tree and a cache that are empty at first.
fn play(alloc: Global, lines: &[ScriptLine], steps: &mut Steps) -> Result<Vec<u8>, NoMemory>
    ensures output { IfOk result (λ out. out.items ≡ output_of_lines [] lines.now) }
    ensures count { OnOk result (IsCounted [] [] lines.now steps.old.compiles steps.new.compiles) }
{
    let mut tree = MemTree::new(alloc, List::new(alloc), List::new(alloc));
    let mut kept: Kept = SureCache::new(alloc);
    let mut out = Vec::new(alloc);
    for line in lines {
        play_line(alloc, &mut tree, &mut kept, &mut out, line, steps)?;
    }
    Ok(out)
}

/// A list of this path.
fn path_alone(alloc: Global, path: &PathText) -> Result<List<Str>, NoMemory>
    ensures { IfOk result (λ args. args ≡ path.now ∷ []) }
{
    let mut args = List::new(alloc);
    args.push(Str::read(alloc, path.text())?)?;
    Ok(args)
}

/// A list of this path and this number.
fn path_and_number(alloc: Global, path: &PathText, number: u64) -> Result<List<Str>, NoMemory>
    ensures { IfOk result (λ args. args ≡ path.now ∷ decimal number ∷ []) }
{
    let mut args = path_alone(alloc, path)?;
    let number = format!(in alloc; "{number}")?;
    args.push(Str::read(alloc, number.as_str())?)?;
    Ok(args)
}

/// The diagnostic of a script at a line.
fn fault_text(
    alloc: Global,
    script: &PathText,
    number: u32,
    line: u32,
    args: List<Str>,
) -> Result<Vec<u8>, NoMemory>
    ensures { IfOk result (λ text. text.items ≡ script_fault script.now number line args) }
{
    let mut files = Files::new(alloc);
    let file = files.number(script)?;
    let place = Place { file, line, col: 1 };
    let mut text = Vec::new(alloc);
    let diag = Diag {
        number,
        place,
        args,
    };
    render(&diag, &files, &mut text)?;
    Ok(text)
}

/// What a script of this text comes to.
fn replay_text(
    alloc: Global,
    script: &PathText,
    text: &str,
    steps: &mut Steps,
) -> Result<Vec<u8>, NoMemory>
    ensures output { IfOk result (λ out. out.items ≡ replay_of_lines script.now (lines_of_script text.now)) }
    ensures count { OnOk result (IsCounted [] [] (lines_or_none (lines_of_script text.now)) steps.old.compiles steps.new.compiles) }
{
    match read_script(alloc, text) {
        Ok(lines) => play(alloc, lines.items(), steps),
        Err(LineFault::At(line)) => fault_text(alloc, script, 4, line, List::new(alloc)),
        Err(LineFault::NoMemory) => Err(NoMemory),
    }
}

/// What a script of these bytes comes to.
fn replay_bytes(
    alloc: Global,
    script: &PathText,
    bytes: &[u8],
    steps: &mut Steps,
) -> Result<Vec<u8>, NoMemory>
    ensures output { IfOk result (λ out. out.items ≡ replay_of_text script.now bytes.now) }
    ensures count { OnOk result (IsCounted [] [] (played (Bytes bytes.now)) steps.old.compiles steps.new.compiles) }
{
    match text_of(bytes) {
        Ok(text) => replay_text(alloc, script, text, steps),
        Err(length) => {
            let args = path_and_number(alloc, script, length)?;
            fault_text(alloc, script, 3, 1, args)
        }
    }
}

/// What a script comes to, by the answer to its path.
fn replay_answer(
    alloc: Global,
    script: &PathText,
    answer: &FileAnswer,
    steps: &mut Steps,
) -> Result<Vec<u8>, NoMemory>
    ensures output { IfOk result (λ out. out.items ≡ replay_of script.now (read_answer answer.now)) }
    ensures count { OnOk result (IsCounted [] [] (played (read_answer answer.now)) steps.old.compiles steps.new.compiles) }
{
    match answer {
        FileAnswer::Bytes(bytes) => replay_bytes(alloc, script, bytes.items(), steps),
        FileAnswer::Absent => {
            let args = path_alone(alloc, script)?;
            fault_text(alloc, script, 1, 1, args)
        }
        FileAnswer::TooLarge(size) => {
            let args = path_and_number(alloc, script, *size)?;
            fault_text(alloc, script, 2, 1, args)
        }
    }
}

/// What `replay SCRIPT` comes to.
#[tactic(auto, unfolding(crate::specs::Replay::clean_replay))]
fn replay_all<T: Tree>(
    alloc: Global,
    script: &PathText,
    tree: &mut T,
    steps: &mut Steps,
) -> Result<Vec<u8>, TreeFault>
    ensures told { (t : Contents) → T.contents tree.old ≡ Some t → IfOk result (λ out. out.items ≡ value (clean_replay script.now) (answer_of t)) }
    ensures count { (t : Contents) → T.contents tree.old ≡ Some t → OnOk result (IsCounted [] [] (played (answer_of t (Read script.now))) steps.old.compiles steps.new.compiles) }
    ensures kept { T.contents tree.new ≡ T.contents tree.old }
    ensures asked { PutsEachOnce (T.reads tree.old) (T.reads tree.new) }
    ensures cause { HasCause (T.faults tree.old) (T.faults tree.new) result TreeFault.Failed }
{
    let answer = tree.read(script)?;
    Ok(replay_answer(alloc, script, &answer, steps)?)
}

/// Replays a script over a tree and a cache of its own, both in memory and empty at first.
///
/// The script is read through `tree`. Its lines set and remove files and build over those present; `out`
/// takes the outputs of the builds, one after another, at the end. Cut and dropped files of the cache
/// show nowhere. A script that is absent, too large, no text or has a bad line is not played: `out` takes
/// the one line of that error. The report is left alone. A fault of the tree or of `out` ends the run,
/// with a front of the output written.
pub fn replay<T: Tree, O: Sink, R: Sink>(
    alloc: Global,
    script: &PathText,
    tree: &mut T,
    out: &mut O,
    report: &mut R,
    steps: &mut Steps,
) -> Status
    // The headline: the whole output is that of the clean builds over the files then present, one after another. There is
    // no word on honesty, as the cache begins empty.
    ensures headline { (t : Contents) → T.contents tree.old ≡ Some t → EndsWith (value (clean_replay script.now) (answer_of t)) (O.taken out.old) (O.taken out.new) result }

    // Whatever the tree tells: Diagnosed exactly where the whole output has an error line.
    ensures ends { (whole : Seq ℕ) × EndsWith whole (O.taken out.old) (O.taken out.new) result }

    // The count of interpretations rises by what the builds count, each over the kept files as what came before left them.
    ensures count { (t : Contents) → T.contents tree.old ≡ Some t → IsWhole result → IsCounted [] [] (played (answer_of t (Read script.now))) steps.old.compiles steps.new.compiles }

    // No question is put to the tree twice.
    ensures asked { PutsEachOnce (T.reads tree.old) (T.reads tree.new) }

    ensures no_report { report.new ≡ report.old }
    ensures kept { T.contents tree.new ≡ T.contents tree.old }
    ensures reads { HasFault (T.faults tree.old) (T.faults tree.new) (result ≡ ReadFault) }
    ensures writes { HasFault (O.faults out.old) (O.faults out.new) (result ≡ WriteFault) }
{
    let _ = report;
    let text = match replay_all(alloc, script, tree, steps) {
        Ok(text) => text,
        Err(TreeFault::Failed) => return Status::ReadFault,
        Err(TreeFault::NoMemory) => return Status::NoMemory,
    };
    match write_output(&text, out) {
        Ok(status) => status,
        Err(SinkFault::Failed) => Status::WriteFault,
        Err(SinkFault::NoMemory) => Status::NoMemory,
    }
}
