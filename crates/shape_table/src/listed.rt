//! All shapes of a description.

ghost use Rattle.std.specs.Prelude.{◌≡◌, IfOk, IsFalse, IsTrue, MatchResult};
ghost use Rattle.nml_tree.specs.Refused.{IsFreeBelow, IsTyped};
ghost use Rattle.nml_tree.specs.Shapes.{AreCounts, AreTooMany};
ghost use Rattle.nml_tree.specs.Table.{table};
ghost use Rattle.shape_table.specs.Shapes.{HasShapes, IsShapeFault};

use nk_base::Memory;
use nml_known::Names;
use nml_shape::Shape;
use nml_tree::Typed;
use shape_count::{Counts, count_shapes};
use shape_list::all_shapes;
use std::alloc::Global;

/// Why the shapes of a description aren't listed.
#[derive(Clone, Copy, Debug)]
pub enum ShapeFault {
    /// There are over 4,096 shapes, or an instruction has over 256 rules and fields, or its action, written out, over 1,024 statements,
    /// operators and leaves: how many shapes there are, the most rules and fields, the largest action; a number above 1,000,000 is told as
    /// 1,000,000.
    Many { count: u32, nodes: u32, size: u32 },
    /// Want of memory.
    Memory,
}

impl From<Memory> for ShapeFault {
    ghost use Rattle.std.specs.Prelude.{◌≡◌};
    ghost use Rattle.shape_table.specs.declared.listed.ShapeFault.TheVariants.{Memory};

    ghost from_gives = { λ _ fault. fault ≡ Memory };

    fn from(_: Memory) -> ShapeFault {
        ShapeFault::Memory
    }
}

/// All shapes of the rule `instruction`, alternatives in the text's order, the leftmost part changing slowest: 4,096 at most.
///
/// `Many` exactly where there are too many, or too large ones; they are counted before any is listed. `Memory` where there is none. The
/// rules are this project's own.
pub fn shapes(alloc: Global, d: &Typed) -> Result<Vec<Shape>, ShapeFault>
    ensures { MatchResult result (λ all. HasShapes d.now all.items) (IsShapeFault d.now) }
{
    let names = Names::new(alloc, &d.desc)?;
    list_counted(alloc, &names)
}

/// All shapes, counted and then listed.
fn list_counted(alloc: Global, names: &Names<'_>) -> Result<Vec<Shape>, ShapeFault>
    requires { IsTyped names.now }
    ensures { MatchResult result (λ all. HasShapes names.now all.items) (IsShapeFault names.now) }
{
    let found = counted(alloc, names)?;
    if are_too_many(found) {
        return Err(ShapeFault::Many {
            count: found.count,
            nodes: found.nodes,
            size: found.size,
        });
    }
    Ok(all_shapes(alloc, names)?)
}

/// How many shapes there are, and how large ones.
fn counted(alloc: Global, names: &Names<'_>) -> Result<Counts, Memory>
    requires { IsFreeBelow 12 names.now }
    ensures { IfOk result (λ c. AreCounts (table names.now) c.count c.nodes c.size) }
{
    match names.order(alloc)? {
        None => Err(Memory), // no rule of a typed description reaches itself
        Some(order) => count_shapes(alloc, names, order.as_slice()),
    }
}

/// Whether one of the numbers is too great.
fn are_too_many(c: Counts) -> bool
    ensures over { IsTrue result → AreTooMany c.count c.nodes c.size }
    ensures within { IsFalse result → AreTooMany c.count c.nodes c.size → ⊥ }
{
    c.count > 4096 || c.nodes > 256 || c.size > 1024
}
