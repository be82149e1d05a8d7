//! The syntaxes of the shapes, each made once.

ghost use Rattle.std.specs.Prelude.{◌<◌, ◌≡◌, IfOk, Some, length, slice_get};
ghost use Rattle.disasm_tool.specs.Syntaxes.{IsSyntax};
ghost use Rattle.isg_graph.specs.Graph.{AreFor};
ghost use Rattle.nml_tree.specs.Refused.{IsFreeBelow};

use nk_base::Memory;
use nml_known::Names;
use nml_shape::Shape;
use shape_list::{Glyph, common_syntax};
use sqlite_items::Items;
use std::alloc::Global;

/// The syntax of each shape, in their order. The one error is want of memory.
pub fn syntaxes_of(
    alloc: Global,
    names: &Names<'_>,
    shapes: &[Shape],
) -> Result<Vec<Items<Glyph>>, Memory>
    requires { IsFreeBelow 12 names.now }
    ensures { IfOk result (λ all. AreFor (IsSyntax names.now) shapes.now all.items) }
{
    let mut all = Vec::new(alloc);
    for shape in shapes {
        let syntax = common_syntax(alloc, names, shape.picks.as_slice())?;
        all.push(Items::from_vec(syntax))?;
    }
    Ok(all)
}

/// The syntax of the shape of this number.
pub fn syntax_at(all: &[Items<Glyph>], shape: usize) -> &[Glyph]
    requires { shape < length all.now }
    ensures { slice_get all.now shape ≡ Some result.now }
{
    all[shape].as_slice()
}
