//! The graph, built part by part.

ghost use Rattle.std.specs.Prelude.{◌≡◌, IfOk};
ghost use Rattle.isg_build.specs.Parts.{AreParts};
ghost use Rattle.nml_tree.specs.Refused.{IsChecked};

use crate::actions::{Actions, actions_of};
use crate::kept::{quiet_of, reads_of_all, writes_of_all};
use crate::widths::{pc_bits, word_bits};
use attr_exec::{out_type, storage_number};
use isg_graph::Isg;
use isg_legal::lawful_is_legal;
use isg_lists::{Lines, Masks, lines_of, masks_of};
use isg_places::Spots;
use nk_base::{Memory, Ty};
use nml_known::Names;
use nml_shape::Shape;
use nml_target::{Lacking, target};
use nml_tree::{Checked, Typed};
use shape_list::all_shapes;
use std::alloc::Global;

/// What the graph of a description is made of.
#[derive(Drop)]
struct Parts {
    shapes: Vec<Shape>,
    actions: Actions,
    quiet: Vec<bool>,
    reads: Vec<Spots>,
    writes: Vec<Spots>,
    masks: Masks,
    lines: Lines,
    word_bits: u32,
    pc_bits: u32,
    pc: u32,
    out: Ty,
    target: Result<u32, Lacking>,
}

/// The graph of a checked description: all its shapes, and the action of each written out once.
///
/// The one error is want of memory, also that for more than 2^32 nodes. The form is this project's own.
pub fn build(alloc: Global, d: Checked) -> Result<Isg, Memory>
    ensures { IfOk result (λ g. g.desc ≡ d) }
{
    let Parts {
        shapes,
        actions,
        quiet,
        reads,
        writes,
        masks,
        lines,
        word_bits,
        pc_bits,
        pc,
        out,
        target,
    } = parts_of(alloc, d.typed())?;
    let Actions { nodes, effects } = actions;
    Ok(Isg {
        checked: d,
        nodes,
        shapes,
        effects,
        quiet,
        reads,
        writes,
        masks,
        lines,
        word_bits,
        pc_bits,
        pc,
        out,
        target,
    })
}

/// The parts of the graph.
fn parts_of(alloc: Global, d: &Typed) -> Result<Parts, Memory>
    requires { IsChecked d.now }
    ensures { IfOk result (λ p. AreParts d.now p) }
{
    lawful_is_legal();
    let desc = &d.desc;
    let items = desc.items.as_slice();
    let names = Names::new(alloc, desc)?;
    let shapes = all_shapes(alloc, &names)?;
    let actions = actions_of(alloc, &names, shapes.as_slice())?;
    let quiet = quiet_of(alloc, actions.nodes.as_slice(), actions.effects.as_slice())?;
    let reads = reads_of_all(alloc, actions.nodes.as_slice(), actions.effects.as_slice())?;
    let writes = writes_of_all(alloc, actions.nodes.as_slice(), actions.effects.as_slice())?;
    let masks = masks_of(alloc, shapes.as_slice())?;
    let lines = lines_of(alloc, shapes.as_slice())?;
    let word_bits = word_bits(alloc, d, shapes.as_slice())?;
    let Ok(pc) = u32::try_from(storage_number(items, b"PC".as_slice())) else {
        return Err(Memory); // no description has so many storages
    };
    Ok(Parts {
        shapes,
        actions,
        quiet,
        reads,
        writes,
        masks,
        lines,
        word_bits,
        pc_bits: pc_bits(desc),
        pc,
        out: out_type(items),
        target: target(&names),
    })
}
