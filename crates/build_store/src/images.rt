use cm_outside::Images;

/// Names the images of the modules of builds: what interpreting them afresh would keep.
pub struct BuildImages;

impl Images for BuildImages {
    ghost use Rattle.build_store.specs.Images.{IsImage, IsTrueFile, IsPiece};
    ghost use Rattle.build_store.specs.Origins.{IsSealed};
    ghost use Rattle.build_store.specs.ImageLaws.{image_is_true, front_is_true};

    ghost is_image = { IsImage };

    ghost is_true = { IsTrueFile };

    ghost is_sealed = { IsSealed };

    ghost is_piece = { IsPiece };

    ghost image_is_true = { image_is_true };

    ghost front_is_true = { front_is_true };

    ghost piece_is_true = { λ n at len front rest sealed file has_sealed is_sealed has_file is_true place size. tt };
}
