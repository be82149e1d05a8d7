//! Laws of image files: they hold of the definitions, and the functions do nothing.

ghost use Rattle.std.specs.Prelude.{◌≡◌, ℕ, List, Result};
ghost use Rattle.image_file.specs.File.{Picture, HasFile};
ghost use Rattle.image_file.specs.Valid.{AreBytes, IsDigest, IsLimited, IsValid, Measures};
ghost use Rattle.image_file.specs.Refused.{IsAnswer};
ghost use Rattle.image_file.specs.declared.fault.ImageFault.{ImageFault};

/// A law: an image that is valid for a description has a file.
pub fn valid_has_file()
    ensures { (m : Measures) (i : Picture) → IsLimited m → IsDigest i.digest → IsValid m i → HasFile i }
{}

/// A law: no bytes are two images of a description, or are refused for two faults, or both.
pub fn one_answer()
    ensures { (m : Measures) (digest bytes : List ℕ) (a b : Result Picture ImageFault) → IsLimited m → IsDigest digest → IsAnswer m digest bytes a → IsAnswer m digest bytes b → a ≡ b }
{}

/// A law: any bytes are an image of a description, or are refused for a fault.
pub fn some_answer()
    ensures { (m : Measures) (digest bytes : List ℕ) → AreBytes bytes → (a : Result Picture ImageFault) × IsAnswer m digest bytes a }
{}
