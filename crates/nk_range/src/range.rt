//! Whether a number is one of a type.

ghost use Rattle.std.specs.Prelude.{◌≡◌};
ghost use Rattle.nk_base.specs.Number.{IsTy};
ghost use Rattle.nk_range.specs.Range as spec;

use nk_base::{Ty, power_of_two};

/// Whether the number is one of the type, which has 1 to 64 bits: 0 or 1 of `Bool`, 0 to 2^n-1 of `Card(n)`, -2^(n-1) to 2^(n-1)-1 of
/// `Int(n)`.
///
/// It takes no memory. The ranges are this project's own.
pub fn is_in_range(ty: Ty, z: i128) -> bool
    requires { IsTy ty }
    ensures { result ≡ spec.is_in_range ty z }
{
    match ty {
        Ty::Bool => 0 <= z && z <= 1,
        Ty::Card(n) => 0 <= z && z < power_of_two(n),
        Ty::Int(n) => {
            let bound = power_of_two(n - 1);
            -bound <= z && z < bound
        }
    }
}
