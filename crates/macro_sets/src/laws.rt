//! What follows from the definitions that the contracts cite. These calls do nothing: what they
//! ensure are laws.

ghost use Rattle.std.specs.Prelude.{◌≡◌, ℕ, Bool, true, false, ◌++◌, ◌∷◌, [], List, Option, Some, None, filter, map, is_some, if◌then◌else◌};
ghost use Rattle.std.specs.Cmp.{IsEquivalence};
ghost use Rattle.std.specs.List.{list_any};
ghost use Rattle.cm_core.specs.declared.macros.MacroBody.{MacroBody};
ghost use Rattle.cm_core.specs.declared.macros.MacroNode.{MacroNode};
ghost use Rattle.cm_core.specs.declared.numbers.MacroRef.{MacroRef};
ghost use Rattle.cm_core.specs.Views.{same_owner};
ghost use Rattle.cm_core.specs.declared.numbers.Owner.{Owner};
ghost use Rattle.cm_core.specs.declared.numbers.Owner.TheVariants.{Job};
ghost use Rattle.cm_core.specs.declared.numbers.Place.{Place};
ghost use Rattle.macro_sets.specs.declared.meanings.Meaning.TheVariants as outcome;
ghost use Rattle.macro_sets.specs.ActiveMacros.{Directives, differ, is_active, is_active_define, is_listed, is_numbered, is_overridden, meaning_of, named, next_node, next_ref, same_definition, same_entity, visible};
ghost use Rattle.macro_sets.specs.Order.{differing, is_first, is_in_order, meant_first};
ghost use Rattle.macro_sets.specs.Laws.{is_ambiguous, is_before, is_new, lists_visible, renumbered, sees_itself, some_differ, with_job_number};

/// Being the same definition is an equivalence.
pub fn same_definitions_are_an_equivalence()
    ensures { IsEquivalence same_definition }
{}

/// A name is ambiguous exactly where two of its active `#define`s are different definitions,
/// whichever of them comes first; two of the same definition are no ambiguity.
pub fn ambiguous_where_two_differ()
    ensures two { (seen : Owner → Bool) (nodes : List MacroNode) → is_ambiguous (meaning_of seen nodes) ≡ some_differ (filter (is_active_define seen nodes) nodes) }
    ensures equal { (seen : Owner → Bool) (a b : MacroNode) → differ a b ≡ false → is_ambiguous (meaning_of seen (a ∷ b ∷ [])) ≡ false }
{}

/// Where the directives of a name stand in the order of the job, the submodules by number and the
/// owner itself, the name means the first active `#define` in this order, and where it is ambiguous
/// that one and the first that differs from it.
pub fn the_first_in_order_is_meant()
    ensures first { (owner : Owner) (seen : Owner → Bool) (nodes : List MacroNode) (at : MacroRef) → is_in_order owner nodes ≡ true → meant_first (meaning_of seen nodes) ≡ Some at → is_first owner at (filter (is_active_define seen nodes) nodes) ≡ true }
    ensures other { (owner : Owner) (seen : Owner → Bool) (nodes : List MacroNode) (at other : MacroRef) → is_in_order owner nodes ≡ true → meaning_of seen nodes ≡ outcome.Ambiguous at other → is_first owner other (differing at (filter (is_active_define seen nodes) nodes)) ≡ true }
{}

/// What is not visible changes nothing.
pub fn unseen_directives_do_not_matter()
    ensures active { (seen : Owner → Bool) (nodes : List MacroNode) (node : MacroNode) → is_active seen (visible seen nodes) node ≡ is_active seen nodes node }
    ensures meaning { (seen : Owner → Bool) (nodes : List MacroNode) → meaning_of seen (visible seen nodes) ≡ meaning_of seen nodes }
{}

/// A visible directive that overrides all visible ones before it is the meaning: none after an
/// `#undef`, and itself after a `#define`.
pub fn a_directive_that_overrides_all_decides()
    ensures undef { (seen : Owner → Bool) (nodes : List MacroNode) (last : MacroNode) → seen last.at.owner ≡ true → lists_visible seen nodes last.overrides ≡ true → last.body ≡ None → meaning_of seen (nodes ++ last ∷ []) ≡ outcome.None }
    ensures define { (seen : Owner → Bool) (nodes : List MacroNode) (last : MacroNode) (body : MacroBody) → seen last.at.owner ≡ true → lists_visible seen nodes last.overrides ≡ true → is_overridden seen (nodes ++ last ∷ []) last.at ≡ false → last.body ≡ Some body → meaning_of seen (nodes ++ last ∷ []) ≡ outcome.Macro last.at }
{}

/// A new directive overrides exactly the visible ones of its name.
pub fn a_new_directive_overrides_the_visible_ones()
    ensures { (history : Directives) (name : List ℕ) (place : Place) (body : Option MacroBody) (before : List MacroNode) (seen : Owner → Bool) (at : MacroRef) → is_listed at (next_node history name place body before seen).overrides ≡ list_any (λ node. same_entity at node.at) (visible seen before ++ named name history.nodes) }
{}

/// What a new directive overrides are the directives of its name that its owner sees, in their
/// order, where it is handed directives of the name by other owners.
pub fn a_new_directive_overrides_those_of_its_name()
    ensures { (history : Directives) (name : List ℕ) (place : Place) (body : Option MacroBody) (before : List MacroNode) (seen : Owner → Bool) → is_numbered history ≡ true → is_before name history.owner before ≡ true → (next_node history name place body before seen).overrides ≡ map (λ node. node.at) (named name (visible (sees_itself history.owner seen) (before ++ history.nodes))) }
{}

/// A new directive decides what its name means to its owner: nothing after an `#undef`, and its own
/// definition after a `#define`, which the job makes but once of a name.
pub fn a_new_directive_decides()
    ensures undef { (history : Directives) (name : List ℕ) (place : Place) (before : List MacroNode) (seen : Owner → Bool) → seen history.owner ≡ true → meaning_of seen (before ++ named name history.nodes ++ next_node history name place None before seen ∷ []) ≡ outcome.None }
    ensures define { (history : Directives) (name : List ℕ) (place : Place) (body : MacroBody) (before : List MacroNode) (seen : Owner → Bool) → seen history.owner ≡ true → same_owner history.owner Job ≡ false → is_numbered history ≡ true → is_before name history.owner before ≡ true → is_new (next_ref history) (before ++ named name history.nodes) ≡ true → meaning_of seen (before ++ named name history.nodes ++ next_node history name place (Some body) before seen ∷ []) ≡ outcome.Macro (next_ref history) }
{}

/// The number under which a directive overrides the job's definition does not matter, nor the one
/// by which a directive is asked for.
pub fn the_number_of_the_job_does_not_matter()
    ensures listed { (number : ℕ) (seen : Owner → Bool) (nodes : List MacroNode) (node : MacroNode) → is_active seen (map (with_job_number number) nodes) node ≡ is_active seen nodes node }
    ensures asked { (number : ℕ) (seen : Owner → Bool) (nodes : List MacroNode) (node : MacroNode) → is_active seen nodes (record node { at = renumbered number node.at }) ≡ is_active seen nodes node }
    ensures meaning { (number : ℕ) (seen : Owner → Bool) (nodes : List MacroNode) → meaning_of seen (map (with_job_number number) nodes) ≡ meaning_of seen nodes }
{}
