ghost use Rattle.std.specs.Prelude.{ℕ, ◌<◌, List, ◌++◌, length, take, drop};
ghost use Rattle.cm_outside.specs.Caches.{HasParts};

/// Names, for contracts alone, what the files of a cache are: it has no calls.
pub trait Images {
    // These bytes are the image of some module over some tree.
    ghost is_image: { List ℕ → Type 0 };

    // This file, where it is sealed, says what interpreting its module afresh says over each tree that
    // gives the answers which it records.
    ghost is_true: { List ℕ → Type 0 };

    // This file passes every check of its format.
    ghost is_sealed: { List ℕ → Type 0 };

    // The last bytes, at this place of a file that begins with the first: where they have the digest of a
    // piece that its index has there, they are that piece.
    ghost is_piece: { List ℕ → ℕ → List ℕ → Type 0 };

    ghost image_is_true: { (file : List ℕ) → is_image file → is_true file };

    ghost front_is_true: { (file : List ℕ) (n : ℕ) → is_image file → n < length file → is_true (take n file) };

    // So is what stands at any place of a true file whose size and first bytes are those of a sealed one.
    ghost piece_is_true: { (n at len : ℕ) (front rest sealed file : List ℕ) → HasParts n at len front rest sealed → is_sealed sealed
        → HasParts n at len front rest file → is_true file
        → (place size : ℕ) → is_piece (front ++ rest) place (take size (drop place file)) };
}
