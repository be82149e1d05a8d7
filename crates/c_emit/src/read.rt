//! The nodes of commands, and what is counted of them.

ghost use Rattle.std.specs.Prelude.{◌≡◌, ◌<◌, ◌+◌, length, IfOk, IfSome};
ghost use Rattle.c_tree.specs.Program as commands;
ghost use Rattle.c_tree.specs.Lowered.{command_cells, command_marks};
ghost use Rattle.c_flat.specs.declared.sort.CommandNode.TheVariants as nodes;
ghost use Rattle.c_flat.specs.Written.{Falls, AreBelow, written};
ghost use Rattle.c_flat.specs.Sorts.{term_at, command_at, command_over, command_parts};
ghost use Rattle.c_count.specs.Sized.{command_size};
ghost use Rattle.c_pieces.specs.Pushed.{IsProgram, aim_shown};
ghost use Rattle.c_emit.specs.Placed.{behind, past, inside, looped, end_of_turns};

use crate::spot::{Ends, Spot};
use c_count::{CommandSize, command_size_of};
use c_flat::{CommandNode, Node, command_node};
use c_pieces::{Aim, Nodes, cell_behind, label_behind, node_of, sum};
use nk_base::Memory;

/// The node of a command, whose parts have lower numbers. It takes no memory.
pub(crate) fn command_of(nodes: &[Node], c: usize) -> CommandNode
    requires falls { Falls nodes.now }
    requires within { c < length nodes.now }
    ensures is { command_over result (written nodes.now) ≡ command_at nodes.now c }
    ensures below { AreBelow (command_parts result) c }
{
    command_node(node_of(nodes, c))
}

/// The two parts of commands one behind the other.
fn parts_of(node: CommandNode) -> Option<(usize, usize)>
    ensures { IfSome result (λ p. node ≡ nodes.Seq p.0 p.1) }
{
    match node {
        CommandNode::Seq(x, y) => Some((x, y)),
        _ => None,
    }
}

/// The first of commands one behind the other, and those behind it, where this is such a node. It takes no memory.
pub(crate) fn seq_of(nodes: &[Node], c: usize) -> Option<(usize, usize)>
    requires falls { Falls nodes.now }
    requires within { c < length nodes.now }
    ensures is { IfSome result (λ p. command_at nodes.now c ≡ commands.Seq (command_at nodes.now p.0) (command_at nodes.now p.1)) }
    ensures below { IfSome result (λ p. (p.0 < c) × (p.1 < c)) }
{
    parts_of(command_of(nodes, c))
}

/// What is counted of a command. It takes no memory.
fn size_of(program: &Nodes<'_>, x: usize) -> CommandSize
    requires program { IsProgram program.now.nodes.now program.now.sizes.now }
    requires within { x < length program.now.nodes.now }
    ensures { result ≡ command_size (command_at program.now.nodes.now x) }
{
    command_size_of(program.sizes, x)
}

/// The first step cell behind those of a command.
///
/// The one error is want of memory; a number of 2^32 or more counts as such.
pub(crate) fn cell_behind_command(program: &Nodes<'_>, cell: u32, x: usize) -> Result<u32, Memory>
    requires program { IsProgram program.now.nodes.now program.now.sizes.now }
    requires within { x < length program.now.nodes.now }
    ensures { IfOk result (λ k. k ≡ cell + command_cells (command_at program.now.nodes.now x)) }
{
    sum(cell, size_of(program, x).cells)
}

/// The first label behind those of a command.
///
/// The one error is want of memory; a number of 2^32 or more counts as such.
pub(crate) fn label_behind_command(program: &Nodes<'_>, label: u32, x: usize) -> Result<u32, Memory>
    requires program { IsProgram program.now.nodes.now program.now.sizes.now }
    requires within { x < length program.now.nodes.now }
    ensures { IfOk result (λ l. l ≡ label + command_marks (command_at program.now.nodes.now x)) }
{
    sum(label, size_of(program, x).marks)
}

/// Where the statements behind a command stand.
///
/// The one error is want of memory; a cell's or a label's number of 2^32 or more counts as such.
pub(crate) fn spot_behind(program: &Nodes<'_>, spot: Spot, x: usize) -> Result<Spot, Memory>
    requires program { IsProgram program.now.nodes.now program.now.sizes.now }
    requires within { x < length program.now.nodes.now }
    ensures { IfOk result (λ s. s ≡ behind spot (command_at program.now.nodes.now x)) }
{
    Ok(Spot {
        cell: cell_behind_command(program, spot.cell, x)?,
        label: label_behind_command(program, spot.label, x)?,
        ..spot
    })
}

/// Where the statements behind an expression stand that aims so.
///
/// The one error is want of memory; a cell's or a label's number of 2^32 or more counts as such.
pub(crate) fn spot_past(program: &Nodes<'_>, spot: Spot, aim: Aim, e: usize) -> Result<Spot, Memory>
    requires program { IsProgram program.now.nodes.now program.now.sizes.now }
    requires within { e < length program.now.nodes.now }
    ensures { IfOk result (λ s. s ≡ past spot (aim_shown aim) (term_at program.now.nodes.now e)) }
{
    Ok(Spot {
        cell: cell_behind(program, spot.cell, false, aim, e)?,
        label: label_behind(program, spot.label, aim, e)?,
        ..spot
    })
}

/// Where statements stand that have a mark before them.
///
/// The one error is want of memory; a label's number of 2^32 or more counts as such.
pub(crate) fn spot_inside(spot: Spot) -> Result<Spot, Memory>
    ensures { IfOk result (λ s. s ≡ inside spot) }
{
    Ok(Spot {
        label: sum(spot.label, 1)?,
        ..spot
    })
}

/// Where the statements of a loop's body stand, by the labels that `break` and `continue` in it go to.
pub(crate) fn looped(spot: Spot, broke: u32, continued: u32) -> Spot
    ensures { result ≡ looped spot broke continued }
{
    Spot {
        ends: Ends { broke, continued },
        ..spot
    }
}

/// The label behind a `for` whose body stands here.
///
/// The one error is want of memory; a label's number of 2^32 or more counts as such.
pub(crate) fn end_of_turns(
    program: &Nodes<'_>,
    spot: Spot,
    step: usize,
    x: usize,
) -> Result<u32, Memory>
    requires program { IsProgram program.now.nodes.now program.now.sizes.now }
    requires step { step < length program.now.nodes.now }
    requires body { x < length program.now.nodes.now }
    ensures { IfOk result (λ l. l ≡ end_of_turns spot (command_at program.now.nodes.now step) (command_at program.now.nodes.now x)) }
{
    let next = label_behind_command(program, spot.label, x)?;
    label_behind_command(program, sum(next, 1)?, step)
}
