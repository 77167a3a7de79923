use cm_core::List;
use unit_fold::Item;

/// What is known of a module.
#[derive(Clone, Copy, Debug, PartialEq, Eq)]
pub enum Slot {
    /// Nothing: it was not needed yet.
    Unknown,
    /// It is in progress.
    Busy,
    /// It is Cyclic.
    Cyclic,
    /// It was interpreted or loaded, and what it comes to is kept.
    Good,
}

/// What a turn of a module in progress comes to.
#[derive(Clone, Copy, Debug, PartialEq, Eq)]
pub enum Turn {
    /// It needs the module of this number first.
    Needs(usize),
    Cyclic,
    Good,
}

/// What a turn of a unit comes to.
#[derive(Debug, Drop)]
pub enum UnitTurn {
    /// It needs the module of this number first.
    Needs(usize),
    Done(List<Item>),
}

/// What is found of a needed module.
#[derive(Clone, Copy, Debug, PartialEq, Eq)]
pub enum ModuleView {
    Ready,
    Cyclic,
}
