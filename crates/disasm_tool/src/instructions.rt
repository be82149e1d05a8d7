//! The syntax of an instruction.

ghost use Rattle.std.specs.Prelude.{◌<◌, ◌≡◌, ◌++◌, ◌∷◌, [], OnOk, length};
ghost use Rattle.disasm_tool.specs.Syntaxes.{IsSyntax, with_fields};
ghost use Rattle.isg_graph.specs.Graph.{AreFor};
ghost use Rattle.isg_graph.specs.Instance.{IsInstOf};
ghost use Rattle.nml_tree.specs.Derivation.{Derivation};
ghost use Rattle.nml_tree.specs.Syntax.{syntax_of};

use crate::decimal::push_decimal;
use crate::syntaxes::syntax_at;
use isg_graph::Isg;
use isg_nodes::Fields;
use nk_base::{Memory, Text};
use nml_shape::Inst;
use shape_list::Glyph;
use sqlite_items::Items;

/// Appends the syntax of the instruction, the syntaxes of all shapes being these.
pub fn push_instruction(
    g: &Isg,
    syntaxes: &[Items<Glyph>],
    i: Inst,
    out: &mut Text,
) -> Result<(), Memory>
    requires syntaxes { AreFor (IsSyntax g.now.desc) g.now.shapes syntaxes.now }
    requires exists { i.shape < length g.now.shapes }
    ensures { OnOk result ((x : Derivation) → IsInstOf g.now i x → out.new ≡ out.old ++ syntax_of x) }
{
    let syntax = syntax_at(syntaxes, i.shape as usize);
    push_syntax(syntax, &g.fields(i), out)
}

/// Appends the syntax with these numbers in the fields.
fn push_syntax(syntax: &[Glyph], numbers: &Fields<'_>, out: &mut Text) -> Result<(), Memory>
    ensures { OnOk result (out.new ≡ out.old ++ with_fields numbers.now syntax.now) }
{
    for glyph in syntax {
        push_glyph(*glyph, numbers, out)?;
    }
    Ok(())
}

/// Appends a character, or a field in decimal; a seam is nothing.
fn push_glyph(glyph: Glyph, numbers: &Fields<'_>, out: &mut Text) -> Result<(), Memory>
    ensures { OnOk result (out.new ≡ out.old ++ with_fields numbers.now (glyph ∷ [])) }
{
    match glyph {
        Glyph::Letter(c) => out.push(c),
        Glyph::Field(n) => push_decimal(numbers.number(n), out),
        Glyph::Seam => Ok(()),
    }
}
