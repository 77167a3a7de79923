//! What the definition of the closure comes to. These calls do nothing: what they ensure are laws of
//! the definitions that the contracts of `closure` and `VisibleSet` cite.

ghost use Rattle.std.specs.Prelude.{◌≡◌, ◌+◌, ◌<◌, ◌||◌, ℕ, Bool, true, false, List, length};
ghost use Rattle.export_closure.specs.Closure.{shown, shows, closure};
ghost use Rattle.export_closure.specs.Flags.{has, none, union, rounds};
ghost use Rattle.export_closure.specs.declared.rows.ExportRow.{ExportRow};

/// A round more changes nothing after as many rounds as there are flags, whatever a round adds; so
/// it is with the closure.
pub fn rounds_settle()
    ensures any { (more : List Bool → List Bool) (set : List Bool) → rounds more (length set + 1) set ≡ rounds more (length set) set }
    ensures closure { (rows : List ExportRow) (from : ℕ) → union (closure rows from) (shown rows (closure rows from)) ≡ closure rows from }
{}

/// The closure is the least set that has the imported submodule and, with each submodule, what that one
/// shows.
pub fn closure_is_the_least()
    ensures start { (rows : List ExportRow) (from : ℕ) → from < length rows → has (closure rows from) from ≡ true }
    ensures closed { (rows : List ExportRow) (from at other : ℕ) → has (closure rows from) at ≡ true → shows rows at other ≡ true → other < length rows → has (closure rows from) other ≡ true }
    ensures least { (rows : List ExportRow) (from : ℕ) (set : List Bool) → has set from ≡ true
        → ((at other : ℕ) → has set at ≡ true → shows rows at other ≡ true → has set other ≡ true)
        → (at : ℕ) → has (closure rows from) at ≡ true → has set at ≡ true }
{}

/// A set that took another one has what either had, an empty set has nothing, and a closure is made
/// for the number of its rows.
pub fn sets_are_read_back()
    ensures joined { (a b : List Bool) (at : ℕ) → length a ≡ length b → has (union a b) at ≡ (has a at || has b at) }
    ensures size { (a b : List Bool) → length (union a b) ≡ length a }
    ensures empty { (n at : ℕ) → has (none n) at ≡ false }
    ensures made { (n : ℕ) → length (none n) ≡ n }
    ensures rows { (rows : List ExportRow) (from : ℕ) → length (closure rows from) ≡ length rows }
{}
