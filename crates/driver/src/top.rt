ghost use Rattle.std.specs.Prelude.{◌≡◌, ◌⊎◌, true, false, [], ℕ, List as Seq, map, IsSome, IsNone, MatchResult, IsErrOf, Some, None, string_bytes};
ghost use Rattle.cm_core.specs.declared.status.Status.TheVariants.{Usage, ReadFault, WriteFault, NoMemory as NoRoom};
ghost use Rattle.cm_outside.specs.Asks.{value};
ghost use Rattle.cm_outside.specs.Sinks.{and_then, TakesFront};
ghost use Rattle.cm_outside.specs.Trees.{Contents, Files, answer as answer_of};
ghost use Rattle.cm_outside.specs.declared.question.Question.TheVariants.{Read};
ghost use Rattle.build_store.specs.CleanBuild.{clean_build};
ghost use Rattle.build_store.specs.Left.{Leaves};
ghost use Rattle.build_store.specs.LeftBehind.{IsBuild};
ghost use Rattle.build_store.specs.Report.{HaveOwnFiles, IsReport};
ghost use Rattle.build_store.specs.Stores.{PutsEachOnce};
ghost use Rattle.driver.specs.Counted.{IsCounted, played};
ghost use Rattle.driver.specs.Ends.{EndsWith, HonestRun, HasFault, HasEitherFault, IsRefusal, IsWhole, Reports};
ghost use Rattle.driver.specs.declared.words.Request.{Request as TheRequest};
ghost use Rattle.driver.specs.declared.words.Command.TheVariants.{Build as ToBuild, Replay as ToReplay};
ghost use Rattle.driver.specs.Replay.{clean_replay};
ghost use Rattle.driver.specs.Words.{form as form_of};

use crate::output::write_output;
use crate::play::replay;
use crate::words::{Command, Request, form};
use build_store::{BuildImages, Built, build as build_job};
use cm_core::{NoMemory, Status, Steps};
use cm_outside::{Cache, Sink, SinkFault, Tree, TreeFault, write_all};
use std::alloc::Global;

/// Writes a whole output and then, where it is asked for, the report; tells how the run ends.
fn write_built<O: Sink, R: Sink>(
    built: &Built,
    with_report: bool,
    out: &mut O,
    report: &mut R,
) -> Result<Status, SinkFault>
    ensures output { MatchResult result
        (λ status. EndsWith (built.now.text.items) (O.taken out.old) (O.taken out.new) status × IsWhole status)
        (λ _. TakesFront (built.now.text.items) (O.taken out.old) (O.taken out.new)) }
    ensures report { with_report ≡ true → MatchResult result
        (λ _. R.taken report.new ≡ and_then (R.taken report.old) (string_bytes built.now.report))
        (λ _. (R.taken report.new ≡ R.taken report.old) ⊎ TakesFront (string_bytes built.now.report) (R.taken report.old) (R.taken report.new)) }
    ensures no_report { with_report ≡ false → report.new ≡ report.old }
    ensures cause { HasEitherFault (O.faults out.old) (O.faults out.new) (R.faults report.old) (R.faults report.new) (IsErrOf result SinkFault.Failed) }
{
    let status = write_output(&built.text, out)?;
    if with_report {
        write_all(report, built.report.as_str().as_bytes())?;
    }
    Ok(status)
}

/// Runs a build.
fn build<T: Tree, C: Cache<Named = BuildImages>, O: Sink, R: Sink>(
    alloc: Global,
    request: &Request,
    tree: &mut T,
    cache: &mut C,
    out: &mut O,
    report: &mut R,
    steps: &mut Steps,
) -> Status
    ensures headline { (t : Contents) → T.contents tree.old ≡ Some t → HonestRun (C.files cache.old) (C.honest cache.old) (C.honest cache.new) → EndsWith (clean_build request.now.job (answer_of t)) (O.taken out.old) (O.taken out.new) result }
    ensures report { (t : Contents) (fs : Files) → T.contents tree.old ≡ Some t → C.files cache.old ≡ Some fs → C.honest cache.old → HaveOwnFiles request.now.job (answer_of t) → request.now.report ≡ true
        → Reports (IsReport fs request.now.job (answer_of t) steps.old.compiles steps.new.compiles (C.faults cache.old) (C.faults cache.new)) (R.taken report.old) (R.taken report.new) result }
    ensures count { (t : Contents) (fs : Files) → T.contents tree.old ≡ Some t → C.files cache.old ≡ Some fs → C.honest cache.old → HaveOwnFiles request.now.job (answer_of t) → IsWhole result
        → (text : Seq ℕ) × IsReport fs request.now.job (answer_of t) steps.old.compiles steps.new.compiles (C.faults cache.old) (C.faults cache.new) text }
    ensures behind { (t : Contents) (fs : Files) → T.contents tree.old ≡ Some t → C.files cache.old ≡ Some fs → C.honest cache.old → HaveOwnFiles request.now.job (answer_of t) → IsWhole result
        → (text : Seq ℕ) × IsBuild fs (C.files cache.new) request.now.job (answer_of t) steps.old.compiles steps.new.compiles (C.faults cache.old) (C.faults cache.new) text
        × (request.now.report ≡ true → R.taken report.new ≡ and_then (R.taken report.old) text) }
    ensures no_report { request.now.report ≡ false → report.new ≡ report.old }
    ensures back { IsNone (C.files cache.old) → C.honest cache.new → C.honest cache.old }
    ensures left { HonestRun (C.files cache.old) (C.honest cache.old) (C.honest cache.new) → Leaves (C.files cache.old) (C.files cache.new) }
    ensures stays { IsSome (C.files cache.old) → C.honest cache.old → C.honest cache.new }
    ensures asked { PutsEachOnce (T.reads tree.old) (T.reads tree.new) }
    ensures ends { (whole : Seq ℕ) × EndsWith whole (O.taken out.old) (O.taken out.new) result }
    ensures kept { T.contents tree.new ≡ T.contents tree.old }
    ensures reads { HasFault (T.faults tree.old) (T.faults tree.new) (result ≡ ReadFault) }
    ensures writes { HasEitherFault (O.faults out.old) (O.faults out.new) (R.faults report.old) (R.faults report.new) (result ≡ WriteFault) }
{
    let built = match build_job(alloc, tree, cache, steps, &request.job) {
        Ok(built) => built,
        Err(TreeFault::Failed) => return Status::ReadFault,
        Err(TreeFault::NoMemory) => return Status::NoMemory,
    };
    match write_built(&built, request.report, out, report) {
        Ok(status) => status,
        Err(SinkFault::Failed) => Status::WriteFault,
        Err(SinkFault::NoMemory) => Status::NoMemory,
    }
}

/// Writes the usage line.
#[tactic(auto, unfolding(crate::specs::Words::usage))]
fn refuse<R: Sink>(report: &mut R) -> Status
    ensures ends { IsRefusal (R.taken report.old) (R.taken report.new) result }
    ensures writes { HasFault (R.faults report.old) (R.faults report.new) (result ≡ WriteFault) }
{
    let usage = "usage: modc build JOB [--uses] [--report] | modc replay SCRIPT | modc gen N\n";
    match write_all(report, usage.as_bytes()) {
        Ok(()) => Status::Usage,
        Err(SinkFault::Failed) => Status::WriteFault,
        Err(SinkFault::NoMemory) => Status::NoMemory,
    }
}

/// Runs the words after the program's name.
///
/// With the forms `build JOB` and `build JOB --report` the job is built: what `out` takes is the output
/// of the clean build, and the status tells whether it has an error line. With `--report`, `report`
/// takes a line for each needed module, in order of first need. With the form `replay SCRIPT` the script is replayed over a tree
/// and a cache of its own, and `cache` and `report` are left alone. Other words put the usage line into
/// `report`, and nothing else is read or written. A fault of the tree or of a sink ends the run, with a
/// front of the output written.
pub fn run<T: Tree, C: Cache<Named = BuildImages>, O: Sink, R: Sink>(
    alloc: Global,
    words: &[String],
    tree: &mut T,
    cache: &mut C,
    out: &mut O,
    report: &mut R,
    steps: &mut Steps,
) -> Status
    // The headline: over an honest cache the whole output is that of the clean build over the present files.
    ensures headline { (t : Contents) (r : TheRequest) → T.contents tree.old ≡ Some t → form_of (map string_bytes words.now) ≡ Some (ToBuild r) → HonestRun (C.files cache.old) (C.honest cache.old) (C.honest cache.new)
        → EndsWith (clean_build r.job (answer_of t)) (O.taken out.old) (O.taken out.new) result }

    // A replay writes what its script's clean builds write, whatever its lines did to the kept files.
    ensures replay { (t : Contents) (s : Seq ℕ) → T.contents tree.old ≡ Some t → form_of (map string_bytes words.now) ≡ Some (ToReplay s)
        → EndsWith (value (clean_replay s) (answer_of t)) (O.taken out.old) (O.taken out.new) result }

    // Whatever the tree tells: Diagnosed exactly where the whole output has an error line.
    ensures ends { IsSome (form_of (map string_bytes words.now)) → (whole : Seq ℕ) × EndsWith whole (O.taken out.old) (O.taken out.new) result }

    // The exact report, and nothing without `--report`. The cache is honest when the run begins, and the keys of the job's modules
    // have different file names.
    ensures report { (t : Contents) (fs : Files) (r : TheRequest) → T.contents tree.old ≡ Some t → C.files cache.old ≡ Some fs → form_of (map string_bytes words.now) ≡ Some (ToBuild r) → C.honest cache.old → HaveOwnFiles r.job (answer_of t) → r.report ≡ true
        → Reports (IsReport fs r.job (answer_of t) steps.old.compiles steps.new.compiles (C.faults cache.old) (C.faults cache.new)) (R.taken report.old) (R.taken report.new) result }
    ensures no_report { (r : TheRequest) → form_of (map string_bytes words.now) ≡ Some (ToBuild r) → r.report ≡ false → report.new ≡ report.old }

    // A replay leaves the cache and the report alone.
    ensures untouched { (s : Seq ℕ) → form_of (map string_bytes words.now) ≡ Some (ToReplay s) → (cache.new ≡ cache.old) × (report.new ≡ report.old) }

    // Each interpretation of a module is counted, also without `--report`.
    ensures count { (t : Contents) (fs : Files) (r : TheRequest) → T.contents tree.old ≡ Some t → C.files cache.old ≡ Some fs → form_of (map string_bytes words.now) ≡ Some (ToBuild r) → C.honest cache.old → HaveOwnFiles r.job (answer_of t) → IsWhole result
        → (text : Seq ℕ) × IsReport fs r.job (answer_of t) steps.old.compiles steps.new.compiles (C.faults cache.old) (C.faults cache.new) text }

    ensures replay_count { (t : Contents) (s : Seq ℕ) → T.contents tree.old ≡ Some t → form_of (map string_bytes words.now) ≡ Some (ToReplay s) → IsWhole result
        → IsCounted [] [] (played (answer_of t (Read s))) steps.old.compiles steps.new.compiles }

    // Usage exactly where the words have no form.
    ensures refused { form_of (map string_bytes words.now) ≡ None → IsRefusal (R.taken report.old) (R.taken report.new) result }
    ensures usage { result ≡ Usage → form_of (map string_bytes words.now) ≡ None }
    ensures nothing_else { form_of (map string_bytes words.now) ≡ None → (tree.new ≡ tree.old) × (cache.new ≡ cache.old) × (out.new ≡ out.old) × (steps.new ≡ steps.old) }

    // No question is put to the tree twice.
    ensures asked { PutsEachOnce (T.reads tree.old) (T.reads tree.new) }

    // The file of each needed module that was built is its image, where it has one that is not too large to be kept, and every
    // other file is as it was. Where the cache failed in the run, some of these may be old, absent or a front of the image: no more
    // than it had faults. The modules that were built are those that the report tells of, where it is asked for.
    ensures behind { (t : Contents) (fs : Files) (r : TheRequest) → T.contents tree.old ≡ Some t → C.files cache.old ≡ Some fs → form_of (map string_bytes words.now) ≡ Some (ToBuild r) → C.honest cache.old → HaveOwnFiles r.job (answer_of t) → IsWhole result
        → (text : Seq ℕ) × IsBuild fs (C.files cache.new) r.job (answer_of t) steps.old.compiles steps.new.compiles (C.faults cache.old) (C.faults cache.new) text
        × (r.report ≡ true → R.taken report.new ≡ and_then (R.taken report.old) text) }

    // At every end: in an honest cache that tells its files, each that changes is that of the key of an image, where this image
    // was put or putting it was refused. If the cache was honest it is so still; any other was honest if it is.
    ensures left { HonestRun (C.files cache.old) (C.honest cache.old) (C.honest cache.new) → Leaves (C.files cache.old) (C.files cache.new) }
    ensures stays { IsSome (C.files cache.old) → C.honest cache.old → C.honest cache.new }
    ensures back { IsNone (C.files cache.old) → C.honest cache.new → C.honest cache.old }

    ensures kept { T.contents tree.new ≡ T.contents tree.old }
    ensures reads { HasFault (T.faults tree.old) (T.faults tree.new) (result ≡ ReadFault) }
    ensures writes { HasEitherFault (O.faults out.old) (O.faults out.new) (R.faults report.old) (R.faults report.new) (result ≡ WriteFault) }
{
    match form(alloc, words) {
        Ok(Some(Command::Build(request))) => {
            build(alloc, &request, tree, cache, out, report, steps)
        }
        Ok(Some(Command::Replay(script))) => replay(alloc, &script, tree, out, report, steps),
        Ok(None) => refuse(report),
        Err(NoMemory) => Status::NoMemory,
    }
}
