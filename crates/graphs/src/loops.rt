//! The first rule that reaches itself.

ghost use Rattle.std.specs.Prelude.{IfOk};
ghost use Rattle.graphs.specs.Graphs.{Reaches, InRange, LeastOf};

use crate::guess::guess;
use crate::rank::{candidate, rises};
use crate::reach::reaches_itself;
use nk_base::Memory;
use sqlite_items::Items;
use std::alloc::Global;

/// The lowest number of a rule that reaches itself, `None` exactly where no rule does. Each number in the graph is below its length.
/// `Memory` where there is none for an order of the rules or a search; no other answer is free. By this project's own rule.
pub fn first_loop(alloc: Global, graph: &[Items<usize>]) -> Result<Option<usize>, Memory>
    requires { InRange graph.now }
    ensures { IfOk result (λ found. LeastOf (λ a. Reaches graph.now a a) found) }
{
    let guessed = guess(alloc, graph)?;
    let ranks = guessed.ranks.as_slice();
    let rule = candidate(graph, ranks);
    if rises(graph, ranks, rule) {
        if rule >= graph.len() {
            return Ok(None);
        }
        if reaches_itself(alloc, graph, rule)? {
            return Ok(Some(rule));
        }
    }
    search(alloc, graph)
}

/// The first, by a search from each rule in turn: what is left where the ranks that were guessed show nothing.
fn search(alloc: Global, graph: &[Items<usize>]) -> Result<Option<usize>, Memory>
    requires { InRange graph.now }
    ensures { IfOk result (λ found. LeastOf (λ a. Reaches graph.now a a) found) }
{
    for a in 0..graph.len() {
        if reaches_itself(alloc, graph, a)? {
            return Ok(Some(a));
        }
    }
    Ok(None)
}
