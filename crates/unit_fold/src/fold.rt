ghost use Rattle.std.specs.Prelude.{◌≡◌, ◌↔◌, ◌-◌, ◌<◌, [], length, IfOk, IsTrue};
ghost use Rattle.unit_fold.specs.Owners.{has_tokens, nothing_read};
ghost use Rattle.unit_fold.specs.Steps.{Fits, HasEnded, WaitsFor, StandsAt, after, IsHead};
ghost use Rattle.unit_fold.specs.declared.fold.Stage.TheVariants.{Begins, WaitsForText, WaitsAtInclude, IsDone, IsSpent};
ghost use Rattle.unit_fold.specs.declared.include_at.IncludeAt.{IncludeAt as Include};
ghost use Rattle.unit_fold.specs.declared.fold.Event.TheVariants.{NeedText, Done};
ghost use Rattle.unit_fold.specs.declared.fold.FoldFault.TheVariants.{NoMemory as NoRoom};

use crate::at::At;
use crate::given::Given;
use crate::include_at::IncludeAt;
use crate::item::Item;
use crate::progress::Progress;
use cm_core::{List, NoMemory, Owner, PathText, Str};
use std::alloc::Global;
use std::marker::Model;
use std::mem;

/// Where a fold stands.
#[derive(Drop)]
pub enum Stage {
    Begins,
    WaitsForText,
    WaitsAtInclude(IncludeAt),
    IsDone,
    /// Memory ran out in a call.
    IsSpent,
}

/// What a fold needs to go on, or that it has ended.
#[derive(Debug, Drop)]
pub enum Event {
    /// The owner's next file.
    NeedText,
    /// What the include of this text, with its `#` at this place, is translated to.
    NeedInclude(Str, At),
    Done,
}

/// A place where a fold stands still, and what it needs there.
#[derive(Drop)]
pub(crate) struct Pause {
    pub event: Event,
    pub stage: Stage,
}

/// Why a fold did not go on.
#[derive(Clone, Copy, Debug, PartialEq, Eq)]
pub enum FoldFault {
    /// It has ended, or memory ran out in an earlier call.
    Spent,
    NoMemory,
}

impl From<NoMemory> for FoldFault {
    ghost from_gives = { λ _ e. e ≡ NoRoom };

    fn from(_error: NoMemory) -> FoldFault {
        FoldFault::NoMemory
    }
}

/// What an owner came to.
#[derive(Debug, Drop)]
pub struct Owned {
    /// What its pieces and directives came to, in order.
    pub items: List<Item>,
    /// The names of the objects that its imports made visible.
    pub brought: List<Str>,
}

/// The fold of one owner. Contracts see how far it has come, with the tokens of its open piece.
#[derive(Drop)]
pub struct Fold {
    owner: Owner,
    progress: Progress,
    stage: Stage,
}

impl Model for Fold {
    ghost use Rattle.unit_fold.specs.Steps.{FoldState};
    ghost use Rattle.unit_fold.specs.Told.{told};

    ghost Value = { FoldState };

    ghost view = { λ f. record { owner = f.owner; progress = told f.progress; stage = f.stage } };
}

impl Event {
    pub fn copy(&self, alloc: Global) -> Result<Event, NoMemory>
        ensures { IfOk result (λ copied. copied ≡ self.now) }
    {
        match self {
            Event::NeedText => Ok(Event::NeedText),
            Event::NeedInclude(text, at) => Ok(Event::NeedInclude(text.copy(alloc)?, *at)),
            Event::Done => Ok(Event::Done),
        }
    }
}

impl Stage {
    fn has_ended(&self) -> bool
        ensures { IsTrue result ↔ HasEnded self.now }
    {
        matches!(self, Stage::IsDone | Stage::IsSpent)
    }
}

impl Pause {
    /// Where a text has ended, or none was asked for yet.
    pub(crate) fn for_text() -> Pause
        ensures { result ≡ record { event = NeedText; stage = WaitsForText } }
    {
        Pause {
            event: Event::NeedText,
            stage: Stage::WaitsForText,
        }
    }

    /// Where the owner has ended.
    pub(crate) fn at_end() -> Pause
        ensures { result ≡ record { event = Done; stage = IsDone } }
    {
        Pause {
            event: Event::Done,
            stage: Stage::IsDone,
        }
    }
}

impl Fold {
    /// The fold of an owner of which nothing was read.
    pub fn begin(alloc: Global, owner: Owner) -> Fold
        ensures { result ≡ record { owner = owner; progress = nothing_read; stage = Begins } }
    {
        Fold {
            owner,
            progress: Progress::new(alloc),
            stage: Stage::Begins,
        }
    }

    /// Goes on by what was asked for last, up to the next need or the end. A fold that memory ran out for is spent.
    pub fn advance(&mut self, alloc: Global, given: Given) -> Result<Event, FoldFault>
        requires fits { Fits self.old.stage given }
        ensures head { IfOk result (λ event. IsHead (after self.old given) event self.new) }
        ensures waits { IfOk result (λ event. WaitsFor event self.new.stage) }
        ensures stands { IfOk result (λ event. StandsAt event self.new.stage) }
        ensures shorter { IfOk result (λ _. (at next : Include) → self.old.stage ≡ WaitsAtInclude at → self.new.stage ≡ WaitsAtInclude next → length next.text.bytes - next.next < length at.text.bytes - at.next) }
        ensures owner { self.new.owner ≡ self.old.owner }
        ensures spent { (result ≡ Err FoldFault.Spent) ↔ HasEnded self.old.stage }
        ensures unchanged { result ≡ Err FoldFault.Spent → self.new ≡ self.old }
        ensures no_memory { result ≡ Err FoldFault.NoMemory → self.new.stage ≡ IsSpent }
    {
        if self.stage.has_ended() {
            return Err(FoldFault::Spent);
        }
        let stage = mem::replace(&mut self.stage, Stage::IsSpent);
        let pause = self.progress.step(alloc, self.owner, stage, given)?;
        self.stage = pause.stage;
        Ok(pause.event)
    }

    /// What the owner came to, once it has ended.
    pub fn close(self) -> Owned
        requires { self.stage ≡ IsDone }
        ensures { result ≡ record { items = self.progress.items; brought = self.progress.brought } }
    {
        Owned {
            items: self.progress.items,
            brought: self.progress.brought,
        }
    }

    /// The files whose texts the owner was given, in order.
    pub fn entered(&self) -> &[PathText]
        ensures { result.now ≡ self.now.progress.entered }
    {
        self.progress.entered.items()
    }

    /// The files that are read once at most: none, as no directive read so far says so.
    pub fn once(&self) -> &[PathText]
        ensures { result.now ≡ [] }
    {
        &[]
    }

    /// Whether a piece is begun and not ended.
    pub fn pending(&self) -> bool
        ensures { result ≡ has_tokens self.now.progress.piece }
    {
        self.progress.piece.has_tokens()
    }
}
