//! Laws of numbers in rising order.

ghost use Rattle.std.specs.Prelude.{◌≡◌, ℤ, List};
ghost use Rattle.std.specs.List.{Contains};
ghost use Rattle.c_tree.specs.Lowered.{in_order};

/// Lists with the same members are the same in rising order, each number once.
pub fn order_is_given_by_members()
    ensures { (xs ys : List ℤ) → ((z : ℤ) → Contains xs z → Contains ys z) → ((z : ℤ) → Contains ys z → Contains xs z) → in_order xs ≡ in_order ys }
{}
