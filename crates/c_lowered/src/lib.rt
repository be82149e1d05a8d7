//! What is known of accepted programs, for the laws of their lowering.
#![tactic(auto)]

ghost use Rattle.std.specs.Prelude.{◌≡◌, ◌<◌, ℕ, ℤ};
ghost use Rattle.ir_core.specs.Operator.{wrap, prefixed, shifted, arithmetic};
ghost use Rattle.ir_core.specs.declared.operator.Prefix.{Prefix};
ghost use Rattle.ir_core.specs.declared.operator.Shift.{Shift};
ghost use Rattle.ir_core.specs.declared.operator.Arith.{Arith};
ghost use Rattle.ir_core.specs.Inputs.{IsNumber};
ghost use Rattle.ir_run.specs.Shifts.{IsCellWidth};
ghost use Rattle.c_lowered.specs.Sound.{Sound};

/// Operators on numbers of n bits give numbers of n bits.
pub fn operators_keep_numbers()
    ensures prefix { (n : ℕ) (op : Prefix) (z : ℤ) → IsCellWidth n → IsNumber n z → IsNumber n (prefixed n op z) }
    ensures shift { (n : ℕ) (op : Shift) (z : ℤ) (k : ℕ) → IsCellWidth n → k < n → IsNumber n z → IsNumber n (shifted n op z k) }
    ensures arith { (n : ℕ) (op : Arith) (x y : ℤ) → IsCellWidth n → IsNumber n x → IsNumber n y → IsNumber n (arithmetic n op x y) }
{}
