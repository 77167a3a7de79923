//! Laws of the images of modules.

ghost use Rattle.std.specs.Prelude.{◌≡◌, ◌<◌, ℕ, List as Seq, length, take, Some};
ghost use Rattle.cm_outside.specs.declared.question.Question.{Question as Asked};
ghost use Rattle.cm_outside.specs.declared.question.Answer.{Answer as Given};
ghost use Rattle.cm_outside.specs.Asks.{Agrees};
ghost use Rattle.module_file.specs.declared.index.Index.{Index as Contained};
ghost use Rattle.build_store.specs.Images.{IsImage, IsTrueFile, index_of};
ghost use Rattle.build_store.specs.Origins.{IsSealed};

/// Laws of the images of modules: this call does nothing, and what it ensures holds of the definitions.
#[tactic(auto, using(crate::specs::ImageLaws::frame_index))]
pub fn images_are_framed()
    // Answers that agree with the records of an image have the same image.
    ensures frame { (i : Contained) (t u : Asked → Given) → index_of i.key t ≡ Some i → Agrees u i.records → index_of i.key u ≡ Some i }
    ensures truth { (file : Seq ℕ) → IsImage file → IsTrueFile file }
    // A file that was cut is not sealed, whatever its digest.
    ensures front { (file : Seq ℕ) (n : ℕ) → IsImage file → n < length file → IsSealed (take n file) → ⊥ }
{}
