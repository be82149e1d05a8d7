//! What the definitions of a tree's faults, and of what is told of an accepted one, come to.

ghost use Rattle.nml_refusals.specs.TreeFault.{IsTreeFault};
ghost use Rattle.nml_tree.specs.Refused.{IsChecked};
ghost use Rattle.nml_tree.specs.Table.{Table, table};
ghost use Rattle.nml_tree.specs.declared.fault.DescFault.{DescFault};
ghost use Rattle.nml_tree.specs.declared.tree.Desc.{Desc};
ghost use Rattle.nml_types.specs.Summary.{IsSummary};
ghost use Rattle.std.specs.Prelude.{◌≡◌, ℕ};

/// A law: a tree is refused for one fault at most, and for none where it is accepted. It does nothing when it runs.
pub fn one_fault()
    ensures one { (d : Desc) (f g : DescFault) → IsTreeFault d f → IsTreeFault d g → f ≡ g }
    ensures none { (d : Desc) (f : DescFault) → IsChecked d → IsTreeFault d f → ⊥ }
{}

/// A law: a tree that is refused for no fault is accepted. It does nothing when it runs.
pub fn some_fault()
    ensures { (d : Desc) → ((f : DescFault) → IsTreeFault d f → ⊥) → IsChecked d }
{}

/// A law: a description has one number of shapes, and its words one number of bits. It does nothing when it runs.
pub fn one_summary()
    ensures { (t : Table) (count width other wide : ℕ) → IsSummary t count width → IsSummary t other wide → (count ≡ other) × (width ≡ wide) }
{}

/// A law: an accepted description has a number of shapes and of bits. It does nothing when it runs.
pub fn some_summary()
    ensures { (d : Desc) → IsChecked d → (count : ℕ) × (width : ℕ) × IsSummary (table d) count width }
{}
