//! The limits that every description keeps.

ghost use Rattle.std.specs.Prelude.{ℕ};
ghost use Rattle.image_file.specs.Measured.{measures};
ghost use Rattle.image_file.specs.Valid.{IsLimited};
ghost use Rattle.nml_tree.specs.Refused.{IsChecked};
ghost use Rattle.nml_tree.specs.Table.{table};
ghost use Rattle.nml_tree.specs.Valid.{IsWordWidth};
ghost use Rattle.nml_tree.specs.declared.tree.Desc.{Desc};

/// A law: a checked description has words of 8 to 64 bits, a PC of at most 16 bits, which is one of its storages, and at most 65,536 storages,
/// each of at most 65,536 cells of at most 64 bits.
pub fn limited()
    ensures { (d : Desc) (width : ℕ) → IsChecked d → IsWordWidth (table d) width → IsLimited (measures (table d) width) }
{}
