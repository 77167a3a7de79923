//! How putting and reading fit together. These calls do nothing: what they ensure are laws of the
//! definitions that the contracts of `put_u8` and the like and of `Reader` cite.

ghost use Rattle.std.specs.Prelude.{◌≡◌, ◌<◌, ◌≤◌, ◌^◌, ℕ, List, length, map, Ok, IsUtf8};
ghost use Rattle.cm_wire.specs.Spelling.{spell_u8, spell_u32, spell_u64, spell_bytes, spell_text, spell_digest};
ghost use Rattle.cm_wire.specs.Unread.{Unread, Passes, AreBytes};
ghost use Rattle.cm_wire.specs.Reading.{read_u8, read_u32, read_u64, read_tag, read_bytes, read_text, read_digest};
ghost use Rattle.cm_wire.specs.Fields.{Field, Shape, shape_of, AllHaveSpellings, spell_all, read_all};

/// Reading gives back what was put: a value whose spelling stands at the front is read, and what
/// is unread afterwards begins behind it.
pub fn reading_gives_back_what_was_put()
    ensures byte { (n : ℕ) (u v : Unread) → n < 256 → Passes u (spell_u8 n) v → read_u8 u ≡ Ok (n, v) }
    ensures four_bytes { (n : ℕ) (u v : Unread) → n < 2 ^ 32 → Passes u (spell_u32 n) v → read_u32 u ≡ Ok (n, v) }
    ensures eight_bytes { (n : ℕ) (u v : Unread) → n < 2 ^ 64 → Passes u (spell_u64 n) v → read_u64 u ≡ Ok (n, v) }
    ensures tag { (limit n : ℕ) (u v : Unread) → n ≤ limit → Passes u (spell_u8 n) v → read_tag limit u ≡ Ok (n, v) }
    ensures bytes { (bs : List ℕ) (u v : Unread) → length bs < 2 ^ 64 → Passes u (spell_bytes bs) v → read_bytes u ≡ Ok (bs, v) }
    ensures text { (bs : List ℕ) (u v : Unread) → length bs < 2 ^ 64 → IsUtf8 bs → Passes u (spell_text bs) v → read_text u ≡ Ok (bs, v) }
    ensures digest { (bs : List ℕ) (u v : Unread) → length bs ≡ 32 → Passes u (spell_digest bs) v → read_digest u ≡ Ok (bs, v) }
    ensures fields { (fields : List Field) (u v : Unread) → AllHaveSpellings fields → Passes u (spell_all fields) v → read_all (map shape_of fields) u ≡ Ok (fields, v) }
{}

/// Nothing else is read: where a value is read its spelling stands at the front, and it is a value
/// of its form.
pub fn nothing_else_is_read()
    ensures byte { (n : ℕ) (u v : Unread) → AreBytes u.rest → read_u8 u ≡ Ok (n, v) → Passes u (spell_u8 n) v × (n < 256) }
    ensures four_bytes { (n : ℕ) (u v : Unread) → AreBytes u.rest → read_u32 u ≡ Ok (n, v) → Passes u (spell_u32 n) v × (n < 2 ^ 32) }
    ensures eight_bytes { (n : ℕ) (u v : Unread) → AreBytes u.rest → read_u64 u ≡ Ok (n, v) → Passes u (spell_u64 n) v × (n < 2 ^ 64) }
    ensures tag { (limit n : ℕ) (u v : Unread) → AreBytes u.rest → read_tag limit u ≡ Ok (n, v) → Passes u (spell_u8 n) v × (n < 256) × (n ≤ limit) }
    ensures bytes { (bs : List ℕ) (u v : Unread) → AreBytes u.rest → read_bytes u ≡ Ok (bs, v) → Passes u (spell_bytes bs) v × (length bs < 2 ^ 64) }
    ensures text { (bs : List ℕ) (u v : Unread) → AreBytes u.rest → read_text u ≡ Ok (bs, v) → Passes u (spell_text bs) v × (length bs < 2 ^ 64) × IsUtf8 bs }
    ensures digest { (bs : List ℕ) (u v : Unread) → AreBytes u.rest → read_digest u ≡ Ok (bs, v) → Passes u (spell_digest bs) v × (length bs ≡ 32) }
    ensures fields { (shapes : List Shape) (fields : List Field) (u v : Unread) → AreBytes u.rest → read_all shapes u ≡ Ok (fields, v) → Passes u (spell_all fields) v × AllHaveSpellings fields × (map shape_of fields ≡ shapes) }
{}
