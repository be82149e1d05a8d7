//! What the numbers of an input are.

ghost use Rattle.std.specs.Prelude.{◌≡◌, ℤ, ℕ, List, None, Ok};
ghost use Rattle.attr_exec.specs.Ready.{NextFits};
ghost use Rattle.input_lines.specs.Input.{numbers};
ghost use Rattle.input_port.specs.Port.{AllFit, input_type};
ghost use Rattle.nml_tree.specs.Refused.{IsTyped};
ghost use Rattle.nml_tree.specs.Table.{table};
ghost use Rattle.nml_tree.specs.declared.tree.Desc.{Desc};

/// A law: in a typed description the numbers that an input's lines write are of the input's type, as an instruction takes them; and an
/// instruction may find none.
pub fn input_fits()
    ensures numbers { (d : Desc) (text : List ℕ) (found : List ℤ) → IsTyped d → numbers (input_type (table d)) text ≡ Ok found → AllFit (table d) found }
    ensures none { (d : Desc) → IsTyped d → NextFits (table d) None }
{}
