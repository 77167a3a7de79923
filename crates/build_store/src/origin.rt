ghost use Rattle.std.specs.Prelude.{◌≡◌, ◌++◌, ℕ, Bool as Truth, List as Seq, Option as Maybe, IfOk, OnOk, string_bytes};
ghost use Rattle.cm_outside.specs.declared.question.Question.{Question};
ghost use Rattle.cm_outside.specs.declared.question.Answer.{Answer};
ghost use Rattle.module_file.specs.declared.index.Index.{Index};
ghost use Rattle.module_file.specs.declared.index.Key.{Key};
ghost use Rattle.build_store.specs.Origins.{IsOrigin, reason_text, report_line};
ghost use Rattle.build_store.specs.declared.origin.Origin.{Origin as AnyOrigin};

use cm_core::{NoMemory, PathText};
use std::alloc::Global;

/// Why a module is built.
#[derive(Debug, Drop)]
pub enum Reason {
    /// The cache has no file of its key.
    Missing,
    /// The cache failed.
    Unreadable,
    /// Its file is of another version of the format.
    OtherVersion,
    /// Its file fails another check, or doesn't fit the table of modules.
    Damaged,
    /// Its file is of another key.
    OtherKey,
    /// The path of the first recorded question whose answer differs now.
    Outdated(PathText),
}

impl Reason {
    pub fn copy(&self, alloc: Global) -> Result<Reason, NoMemory>
        ensures { IfOk result (λ copied. copied ≡ self.now) }
    {
        match self {
            Reason::Missing => Ok(Reason::Missing),
            Reason::Unreadable => Ok(Reason::Unreadable),
            Reason::OtherVersion => Ok(Reason::OtherVersion),
            Reason::Damaged => Ok(Reason::Damaged),
            Reason::OtherKey => Ok(Reason::OtherKey),
            Reason::Outdated(path) => Ok(Reason::Outdated(path.copy(alloc)?)),
        }
    }
}

/// Where what a build takes of a needed module comes from.
#[derive(Debug, Drop)]
pub enum Origin {
    /// Its file in the cache, which is current.
    Loaded,
    /// Its sources, for this reason.
    Built(Reason),
}

impl Origin {
    pub fn copy(&self, alloc: Global) -> Result<Origin, NoMemory>
        ensures { IfOk result (λ copied. copied ≡ self.now) }
    {
        match self {
            Origin::Loaded => Ok(Origin::Loaded),
            Origin::Built(reason) => Ok(Origin::Built(reason.copy(alloc)?)),
        }
    }
}

fn push_reason(out: &mut String, reason: &Reason) -> Result<(), NoMemory>
    ensures { OnOk result (string_bytes out.new ≡ string_bytes out.old ++ reason_text reason.now) }
{
    match reason {
        Reason::Missing => out.push_str("missing")?,
        Reason::Unreadable => out.push_str("unreadable")?,
        Reason::OtherVersion => out.push_str("other version")?,
        Reason::Damaged => out.push_str("damaged")?,
        Reason::OtherKey => out.push_str("other key")?,
        Reason::Outdated(path) => {
            let path = path.text();
            write!(out, "outdated {path}")?
        }
    }
    Ok(())
}

/// Adds the report line of a module.
pub fn push_line(out: &mut String, name: &str, origin: &Origin) -> Result<(), NoMemory>
    ensures { OnOk result (string_bytes out.new ≡ string_bytes out.old ++ report_line name.now origin.now) }
{
    match origin {
        Origin::Loaded => write!(out, "loaded {name}\n")?,
        Origin::Built(reason) => {
            write!(out, "built {name} ")?;
            push_reason(out, reason)?;
            out.push_str("\n")?;
        }
    }
    Ok(())
}

/// A law of origins: this call does nothing, and what it ensures holds of the definitions. Where no call
/// of the cache fails, one origin holds of a module, whatever its file is.
pub fn one_origin_holds()
    ensures { (fits : Index → Truth) (key : Key) (t : Question → Answer) (file : Maybe (Seq ℕ)) (o p : AnyOrigin) → IsOrigin fits ⊥ key t file o → IsOrigin fits ⊥ key t file p → o ≡ p }
{}
