//! Laws of faults.

ghost use Rattle.std.specs.Prelude.{◌≡◌, ℕ, List};
ghost use Rattle.c_tree.specs.declared.fault.CFault.{CFault};
ghost use Rattle.c_tree.specs.declared.fault.CFault.TheVariants as fault;
ghost use Rattle.c_tree.specs.Items.{Item};
ghost use Rattle.c_tree.specs.Accepted.{IsAccepted, IsFaultOf};

/// A program has one fault at most, want of memory apart.
pub fn has_one_fault()
    ensures { (gs : List Item) (n : ℕ) (f g : CFault) → IsFaultOf gs n f → IsFaultOf gs n g → (f ≡ fault.Memory → ⊥) → (g ≡ fault.Memory → ⊥) → f ≡ g }
{}

/// An accepted program has no fault, want of memory apart.
pub fn accepted_has_none()
    ensures { (gs : List Item) (n : ℕ) (f : CFault) → IsAccepted gs n → IsFaultOf gs n f → f ≡ fault.Memory }
{}

/// A program that has no fault, want of memory apart, is accepted.
pub fn some_fault()
    ensures { (gs : List Item) (n : ℕ) → ((f : CFault) → IsFaultOf gs n f → f ≡ fault.Memory) → IsAccepted gs n }
{}
