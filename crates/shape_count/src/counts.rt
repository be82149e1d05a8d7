//! What is counted of a description before any of its shapes is listed.

ghost use Rattle.std.specs.Prelude.{IfOk};
ghost use Rattle.nml_names.specs.Below.{graph};
ghost use Rattle.graphs.specs.Graphs.{IsOrder};
ghost use Rattle.nml_tree.specs.Refused.{IsFreeBelow};
ghost use Rattle.nml_tree.specs.Shapes.{AreCounts};
ghost use Rattle.nml_tree.specs.Table.{table};

use crate::rules::tally_shapes;
use crate::size::greatest_size;
use nk_base::Memory;
use nml_known::Names;
use std::alloc::Global;

/// How many shapes a description has, how many nodes a derivation of `instruction` has at most, and how long the action of one is at
/// most, written out. Each number ends at 1,000,000.
#[derive(Clone, Copy)]
pub struct Counts {
    pub count: u32,
    pub nodes: u32,
    pub size: u32,
}

/// Counts the shapes of a description without listing any, however many there are.
///
/// The order has each rule behind those that it names. The one error is want of memory.
pub fn count_shapes(alloc: Global, names: &Names<'_>, order: &[usize]) -> Result<Counts, Memory>
    requires order { IsOrder (graph names.now.items) order.now }
    requires free { IsFreeBelow 12 names.now }
    ensures { IfOk result (λ c. AreCounts (table names.now) c.count c.nodes c.size) }
{
    let shapes = tally_shapes(alloc, names, order)?;
    let size = greatest_size(alloc, names)?;
    Ok(Counts {
        count: shapes.count,
        nodes: shapes.nodes,
        size,
    })
}
