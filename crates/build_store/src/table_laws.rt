//! What the definition of the table comes to. These calls do nothing: what they ensure are laws of the
//! definition that the contract of `load` cites.

ghost use Rattle.std.specs.Prelude.{◌≡◌, ℕ, Some, slice_get, List as Seq};
ghost use Rattle.cm_outside.specs.Asks.{value};
ghost use Rattle.cm_outside.specs.Trees.{Path};
ghost use Rattle.cm_outside.specs.declared.question.Question.{Question as AnyQuestion};
ghost use Rattle.cm_outside.specs.declared.question.Answer.{Answer as AnyAnswer};
ghost use Rattle.build_store.specs.Search.{owner_of};
ghost use Rattle.build_store.specs.Tables.{table_of};
ghost use Rattle.build_store.specs.declared.table.Target.{Target as AnyTarget};

/// Two modules of a table have different names and different headers.
pub fn modules_differ()
    ensures names { (maps : Seq Path) (f : AnyQuestion → AnyAnswer) (i j : ℕ) (t u : AnyTarget) →
        slice_get (value (table_of maps) f).targets i ≡ Some t → slice_get (value (table_of maps) f).targets j ≡ Some u → t.name ≡ u.name → i ≡ j }
    ensures headers { (maps : Seq Path) (f : AnyQuestion → AnyAnswer) (i j : ℕ) (t u : AnyTarget) →
        slice_get (value (table_of maps) f).targets i ≡ Some t → slice_get (value (table_of maps) f).targets j ≡ Some u → t.header ≡ u.header → i ≡ j }
{}

/// The header of a module is found as that module's.
pub fn headers_are_found()
    ensures { (maps : Seq Path) (f : AnyQuestion → AnyAnswer) (i : ℕ) (t : AnyTarget) →
        slice_get (value (table_of maps) f).targets i ≡ Some t → owner_of (value (table_of maps) f) t.header ≡ Some i }
{}
