//! Laws of the definitions.

ghost use Rattle.std.specs.Prelude.{ℕ, List};
ghost use Rattle.nml_shape.specs.First.{HasNoPair, HaveWord};
ghost use Rattle.nml_shape.specs.declared.shape.Shape.{Shape};
ghost use Rattle.isg_lists.specs.Masks.{AreOfMask, AreWithin, RiseStrictly};

/// A law: where no two shapes have a word in common, the values of the shapes of one mask rise, and no two are the same.
///
/// It takes no memory. The rule is this project's own.
pub fn values_rise()
    ensures { (shapes : List Shape) (mask : ℕ) (numbers : List ℕ) → AreOfMask shapes mask numbers → HasNoPair HaveWord shapes → AreWithin shapes → RiseStrictly shapes numbers }
{}
