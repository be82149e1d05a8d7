//! The first function that reaches itself.

ghost use Rattle.std.specs.Prelude.{IfOk};
ghost use Rattle.c_tree.specs.Recursion.{Reaches};
ghost use Rattle.c_cycle.specs.Search.{LeastOf};

use crate::guess::guess;
use crate::rank::{first_level, ranks_fall};
use crate::reach::reaches_itself;
use nk_base::Memory;
use sqlite_items::Items;
use std::alloc::Global;

/// The first function that reaches itself by calls.
///
/// Ranks are guessed in one pass and checked in another: where no function calls one of a higher rank, none reaches
/// itself that calls lower ones alone. Only where the guess is wrong is each function searched from.
pub fn first_cycle(alloc: Global, graph: &[Items<usize>]) -> Result<Option<usize>, Memory>
    ensures { IfOk result (λ found. LeastOf (λ a. Reaches graph.now a a) found) }
{
    let ranks = guess(alloc, graph)?;
    if ranks.len() == graph.len() && ranks_fall(graph, &ranks) {
        match first_level(graph, &ranks) {
            None => return Ok(None),
            Some(first) => {
                if reaches_itself(alloc, graph, first)? {
                    return Ok(Some(first));
                }
            }
        }
    }
    search_all(alloc, graph)
}

/// The first, by a search from each function in turn.
fn search_all(alloc: Global, graph: &[Items<usize>]) -> Result<Option<usize>, Memory>
    ensures { IfOk result (λ found. LeastOf (λ a. Reaches graph.now a a) found) }
{
    for a in 0..graph.len() {
        if reaches_itself(alloc, graph, a)? {
            return Ok(Some(a));
        }
    }
    Ok(None)
}
