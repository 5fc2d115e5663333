//! What holds of every image and of all bytes.

ghost use Rattle.std.specs.Prelude.{◌≡◌, ◌<◌, ℕ, List, ◌∷◌, ◌++◌, length, take, Ok, Err};
ghost use Rattle.fb_base.specs.declared.ending.ImageWhy.TheVariants.{Short, Extra};
ghost use Rattle.fb_image.specs.declared.image.ImageParts.{ImageParts};
ghost use Rattle.fb_image.specs.Answers.{image_of};
ghost use Rattle.fb_image.specs.Format.{IsImage};
ghost use Rattle.fb_image.specs.Spelling.{AreBytes, spelling};

/// The laws of reading, which `read` and `write` keep.
pub fn image_laws()
    // Bytes that are read are the spelling of an image.
    ensures found { (bytes : List ℕ) (p : ImageParts) → AreBytes bytes → image_of bytes ≡ Ok p → IsImage p × (bytes ≡ spelling p) }
    // The spelling of an image is read as that image.
    ensures again { (p : ImageParts) → IsImage p → image_of (spelling p) ≡ Ok p }
    // No two images have one spelling.
    ensures one { (p q : ImageParts) → IsImage p → IsImage q → spelling p ≡ spelling q → p ≡ q }
    // A spelling that is cut off is short at its end.
    ensures cut { (p : ImageParts) (k : ℕ) → IsImage p → k < length (spelling p) → image_of (take k (spelling p)) ≡ Err (record { at = k; why = Short }) }
    // What follows a spelling is too much, from its first byte on.
    ensures extra { (p : ImageParts) (b : ℕ) (more : List ℕ) → IsImage p → image_of (spelling p ++ b ∷ more) ≡ Err (record { at = length (spelling p); why = Extra }) }
{}
