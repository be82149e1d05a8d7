//! An order of the rules, each behind those that it names, or that there is none.

ghost use Rattle.std.specs.Prelude.{ℕ, MatchOption, IfOk};
ghost use Rattle.graphs.specs.Graphs.{InRange, IsOrder, Reaches};

use crate::guess::guess;
use crate::loops::first_loop;
use crate::order::is_order;
use crate::settle::settled;
use nk_base::Memory;
use sqlite_items::Items;
use std::alloc::Global;

/// The numbers of all rules, each behind those that it names; `None` exactly where a rule reaches itself. Each number in the graph is below
/// its length. `Memory` where there is none; no other answer is free. By this project's own rule.
///
/// It is the order that was guessed, where that is one; else one that is sought where no rule reaches itself.
pub fn order_of(alloc: Global, graph: &[Items<usize>]) -> Result<Option<Vec<usize>>, Memory>
    requires { InRange graph.now }
    ensures { IfOk result (λ found. MatchOption found ((n : ℕ) × Reaches graph.now n n) (λ order. IsOrder graph.now order.items)) }
{
    let order = guess(alloc, graph)?.order;
    if is_order(alloc, graph, order.as_slice())? {
        return Ok(Some(order));
    }
    match first_loop(alloc, graph)? {
        Some(_) => Ok(None),
        None => Ok(Some(settled(alloc, graph)?)),
    }
}
