//! Laws of the definitions of modules, for any fold and whatever an import brings. These calls do nothing: what they ensure
//! holds of the definitions.

ghost use Rattle.std.specs.Prelude.{◌≡◌, ◌≤◌, ◌==◌, ℕ, true, cond, List as Seq, [], ◌∷◌, Option as Brought, Some, None};
ghost use Rattle.cm_outside.specs.declared.question.Question.{Question as Asked};
ghost use Rattle.cm_outside.specs.declared.question.Answer.{Answer as Given};
ghost use Rattle.cm_outside.specs.Asks.{Done, Begin, Agrees, value, asked, begun};
ghost use Rattle.build_store.specs.Needs.{Needs, Ends, answered, end_of, met};
ghost use Rattle.build_store.specs.Modules.{Plan, is_in, is_free, left, within, own_import, sub_of, inside, import_of, import_in, mod_of, unit_of};
ghost use Rattle.build_store.specs.Order.{new_of, with_new};
ghost use Rattle.build_store.specs.Outcomes.{brought, imports, Leads, IsClosed, strict_fold, brought_within, LeadsWithin};

/// A module has one outcome: behind a chain of modules that came to it by their imports it comes to what it does with
/// nothing in progress, and so does each import that it meets there. And a module that was seen begins nothing that was
/// not, in a list that has with each module what that one imports; what is begun in a module is such a list.
pub fn one_outcome<B>()
    ensures value { (p : Plan B) (t : Asked → Given) (chain : Seq ℕ) (m : ℕ) → Leads p t chain m → value (mod_of p chain m) t ≡ value (mod_of p [] m) t }
    ensures through { (p : Plan B) (t : Asked → Given) (chain : Seq ℕ) (m : ℕ) → Leads p t chain m
        → (x : ℕ) → is_in x (met (inside p m) t (brought p t)) ≡ true → value (import_in p (m ∷ chain) x) t ≡ brought p t x }
    ensures nothing_new { (p : Plan B) (t : Asked → Given) (seen chain : Seq ℕ) (m : ℕ) → IsClosed p t seen → is_in m seen ≡ true → new_of seen (begun (mod_of p chain m) t) ≡ [] }
    ensures closed { (p : Plan B) (t : Asked → Given) (m : ℕ) → IsClosed p t (begun (mod_of p [] m) t) }
{}

/// An import is Cyclic where its module is not known or is in progress, else it is the module behind the chain; and the
/// module answers its imports with itself put before the chain.
pub fn chain_rule<B>()
    ensures import { (p : Plan B) (chain : Seq ℕ) (x : ℕ) → import_in p chain x ≡ cond (is_free p.tops chain (p.top x)) (mod_of p chain (p.top x)) (Done None) }
    ensures begins { (p : Plan B) (chain : Seq ℕ) (m : ℕ) → mod_of p chain m ≡ Begin m (answered (import_in p (m ∷ chain)) (inside p m)) }
{}

/// A module comes to what its fold does where each import brings what the imported module comes to with nothing in
/// progress, and so does a unit.
pub fn outcome_is_fold<A, B>()
    ensures modules { (p : Plan B) (t : Asked → Given) (m : ℕ) → value (mod_of p [] m) t ≡ end_of (inside p m) t (brought p t) }
    ensures units { (p : Plan B) (t : Asked → Given) (fold : Needs B A) → value (unit_of p fold) t ≡ end_of fold t (brought p t) }
    ensures imports { (p : Plan B) (t : Asked → Given) (x : ℕ) → brought p t x ≡ cond (is_in (p.top x) p.tops) (value (mod_of p [] (p.top x)) t) None }
{}

/// What is begun in a unit has with each module what that one imports, and so has a list that had this before, with what is
/// new in the unit behind it.
pub fn units_are_closed<A, B>()
    ensures begun { (p : Plan B) (t : Asked → Given) (fold : Needs B A) → IsClosed p t (begun (unit_of p fold) t) }
    ensures added { (p : Plan B) (t : Asked → Given) (seen ms : Seq ℕ) → IsClosed p t seen → IsClosed p t ms → IsClosed p t (with_new seen ms) }
{}

/// A module that comes back to itself through its imports is Cyclic, and one that imports a Cyclic module is. Behind any chain
/// an import of what is in progress makes the module Cyclic.
pub fn comes_back<B>()
    ensures itself { (p : Plan B) (t : Asked → Given) (chain : Seq ℕ) (m : ℕ) → Leads p t chain m → is_in m chain ≡ true → value (mod_of p [] m) t ≡ None }
    ensures passed_on { (p : Plan B) (t : Asked → Given) (m x : ℕ) → is_in x (met (inside p m) t (brought p t)) ≡ true → brought p t x ≡ None → value (mod_of p [] m) t ≡ None }
    ensures behind { (p : Plan B) (t : Asked → Given) (chain : Seq ℕ) (m x : ℕ) → is_in x (met (inside p m) t (λ y. value (import_in p (m ∷ chain) y) t)) ≡ true
        → is_in (p.top x) (m ∷ chain) ≡ true → value (mod_of p chain m) t ≡ None }
{}

/// A module that is not Cyclic behind a chain is not with nothing in progress, and there it brings and asks the same and begins
/// the same modules.
pub fn same_questions<B>()
    ensures value { (p : Plan B) (t : Asked → Given) (chain : Seq ℕ) (m : ℕ) (b : B) → value (mod_of p chain m) t ≡ Some b → value (mod_of p [] m) t ≡ Some b }
    ensures asked { (p : Plan B) (t : Asked → Given) (chain : Seq ℕ) (m : ℕ) (b : B) → value (mod_of p chain m) t ≡ Some b → asked (mod_of p chain m) t ≡ asked (mod_of p [] m) t }
    ensures begun { (p : Plan B) (t : Asked → Given) (chain : Seq ℕ) (m : ℕ) (b : B) → value (mod_of p chain m) t ≡ Some b → begun (mod_of p chain m) t ≡ begun (mod_of p [] m) t }
{}

/// A submodule has one outcome, whatever the imports of other modules bring: behind those that came to it, and behind any where
/// it meets no Cyclic import, it comes to what it does by itself. That is its fold where each import of its own module brings
/// what that submodule does by itself. One that comes back to itself is Cyclic.
pub fn one_outcome_within<B>()
    ensures value { (p : Plan B) (m : ℕ) (t : Asked → Given) (brings : ℕ → Brought B) (inner : Seq ℕ) (x : ℕ) → LeadsWithin p m t brings inner x
        → end_of (sub_of p m inner x) t brings ≡ end_of (sub_of p m [] x) t brings }
    ensures alone { (p : Plan B) (m : ℕ) (t : Asked → Given) (brings : ℕ → Brought B) (inner : Seq ℕ) (x : ℕ) (b : B)
        → end_of (sub_of p m inner x) t brings ≡ Some b → end_of (sub_of p m [] x) t brings ≡ Some b }
    ensures fold { (p : Plan B) (m : ℕ) (t : Asked → Given) (brings : ℕ → Brought B) (x : ℕ)
        → end_of (sub_of p m [] x) t brings ≡ end_of (strict_fold p x) t (brought_within p m t brings) }
    ensures comes_back { (p : Plan B) (m : ℕ) (t : Asked → Given) (brings : ℕ → Brought B) (inner : Seq ℕ) (x : ℕ) → LeadsWithin p m t brings inner x
        → is_in x inner ≡ true → end_of (sub_of p m [] x) t brings ≡ None }
{}

/// The definitions go deep enough: a depth of what is left and any greater one are the same program. An import of the module's
/// own submodule is Cyclic where that is not known or is being folded, else it is the submodule behind those being folded.
pub fn depth_is_enough<B>()
    ensures modules { (p : Plan B) (k : ℕ) (chain : Seq ℕ) (x : ℕ) → left p.tops chain ≤ k → import_of p k chain x ≡ import_in p chain x }
    ensures submodules { (p : Plan B) (m k : ℕ) (inner : Seq ℕ) (x : ℕ) → left (p.subs m) inner ≤ k → within p m k inner x ≡ own_import p m inner x }
    ensures inner { (p : Plan B) (m : ℕ) (inner : Seq ℕ) (x : ℕ) → own_import p m inner x ≡ cond (is_free (p.subs m) inner x) (sub_of p m inner x) (Ends None) }
{}

/// The frame law of a module: answers that agree with what it asked give the same outcome, and the same is asked and begun.
pub fn modules_are_framed<B>()
    ensures value { (p : Plan B) (t u : Asked → Given) (chain : Seq ℕ) (m : ℕ) → Agrees u (asked (mod_of p chain m) t) → value (mod_of p chain m) u ≡ value (mod_of p chain m) t }
    ensures asked { (p : Plan B) (t u : Asked → Given) (chain : Seq ℕ) (m : ℕ) → Agrees u (asked (mod_of p chain m) t) → asked (mod_of p chain m) u ≡ asked (mod_of p chain m) t }
    ensures begun { (p : Plan B) (t u : Asked → Given) (chain : Seq ℕ) (m : ℕ) → Agrees u (asked (mod_of p chain m) t) → begun (mod_of p chain m) u ≡ begun (mod_of p chain m) t }
{}
