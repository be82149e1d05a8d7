//! The beginning of a run.

ghost use Rattle.std.specs.Prelude.{◌≡◌, ℤ, List, IfOk};
ghost use Rattle.ir_run.specs.Entry.{listing};
ghost use Rattle.ir_run.specs.Run.{filled, beginning};
ghost use Rattle.ir_run.specs.Stands.{state_of};

use crate::ir::Ir;
use crate::machine::{Machine, put};
use nk_base::Memory;
use std::alloc::Global;

/// Puts into cells what they hold at the start.
fn fill(cells: &mut Vec<i64>, start: &[(u32, i64)])
    ensures { cells.new.items ≡ filled cells.old.items start.now }
{
    for (k, z) in start {
        put(cells, u64::from(*k), *z);
    }
}

/// The machine before its first step. The one error is want of memory.
pub fn begin(alloc: Global, i: &Ir) -> Result<Machine, Memory>
    ensures { (input : List ℤ) → IfOk result (λ m. state_of input m ≡ beginning (listing i.now) input) }
{
    let mut cells = vec![in alloc; 0; i.cells as usize]?;
    fill(&mut cells, i.start.as_slice());
    Ok(Machine {
        place: 0,
        cells,
        taken: 0,
    })
}
