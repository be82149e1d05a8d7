//! What the definitions of a tree's faults come to.

ghost use Rattle.nml_tree.specs.declared.fault.DescFault.{DescFault};
ghost use Rattle.nml_tree.specs.declared.tree.Desc.{Desc};
ghost use Rattle.nml_tree.specs.Refused.{IsTyped};
ghost use Rattle.nml_types.specs.TypingFault.{IsTypingFault};
ghost use Rattle.std.specs.Prelude.{◌≡◌};

/// A law: a tree is refused for one fault at most, and for none where it is typed.
pub fn one_fault()
    ensures one { (d : Desc) (f g : DescFault) → IsTypingFault d f → IsTypingFault d g → f ≡ g }
    ensures none { (d : Desc) (f : DescFault) → IsTyped d → IsTypingFault d f → ⊥ }
{}

/// A law: a tree that is refused for no fault is typed.
pub fn some_fault()
    ensures { (d : Desc) → ((f : DescFault) → IsTypingFault d f → ⊥) → IsTyped d }
{}
